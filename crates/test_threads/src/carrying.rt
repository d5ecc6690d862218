//! One thread reads given messages into an inbox, and another takes them out: what it took are the
//! first of those that the other was given.
ghost use Rattle.std.specs.Prelude.{◌≡◌, ◌++◌, ◌∷◌, [], take, length, IfOk, IsOkAnd};
ghost use Rattle.lc_inbox.specs.History.{took};
ghost use Rattle.lc_inbox.specs.Sides.{IsSameSide};
ghost use Rattle.test_threads.specs.Arrivals.{arrived, HeardTheFirst};

use crate::taking::{CAPACITY, LANE, SLOTS, await_guarantees, hear, new_pair};
use lc_frame::{Body, FrameRef};
use lc_inbox::{InboxIn, InboxOut, Lent, SharedInbox, finish};
use lc_queue::Drain;
use std::alloc::{AllocError, Global};
use std::snapshot::Snapshot;
use std::sync::Wait;
use std::thread;
use std::thread::{Promise, Threads};

/// What comes back is the side that was given, at which the first of the messages arrived.
#[derive(Drop)]
struct Heard {
    side: Snapshot<InboxIn>,
    given: Snapshot<Vec<Body>>,
}

impl Promise<InboxIn> for Heard {
    ghost use Rattle.test_threads.specs.Arrivals.{HeardTheFirst};

    ghost kept_by = { λ p r. HeardTheFirst p.given.value.items p.side.value r };
}

// The messages arrive, each as soon as there are guarantees for it, up to one that is longer than
// the ring, or refused.
fn hear_each<R: Wait>(rt: &R, incoming: &mut InboxIn, drain: &mut Drain, given: &[Body])
    requires { arrived incoming.old ≡ [] }
    ensures { HeardTheFirst given.now incoming.old incoming.new }
{
    let mut held = 0;
    for body in given {
        let bytes = body.as_slice();
        let cost = bytes.len() as u64;
        if cost > u64::from(CAPACITY) {
            return;
        }
        held = await_guarantees(rt, drain, held, cost) - cost;
        if !hear(rt, incoming, bytes) {
            return;
        }
    }
}

// The client's limit arrives, which raises none before it: no more messages come. Only behind a
// Finish it is refused, which has said so.
fn hear_end<R: Wait>(rt: &R, incoming: &mut InboxIn)
    ensures same { IsSameSide incoming.old incoming.new }
    ensures arrived { arrived incoming.new ≡ arrived incoming.old }
{
    let channel = incoming.channel();
    let frame = FrameRef::LimitSending { channel, bound: 0 };
    let _answer = incoming.arrive(rt, frame);
}

fn hear_all<R: Wait>(rt: &R, mut incoming: InboxIn, mut drain: Drain, given: Vec<Body>) -> InboxIn
    requires { arrived incoming ≡ [] }
    ensures { HeardTheFirst given.items incoming result }
{
    hear_each(rt, &mut incoming, &mut drain, &given);
    hear_end(rt, &mut incoming);
    incoming
}

// Both parts of a message, in a memory of its own.
fn joined(alloc: Global, near: &[u8], far: &[u8]) -> Result<Body, AllocError>
    ensures { IfOk result (λ body. body ≡ near.now ++ far.now) }
{
    let mut bytes = near.to_vec(alloc)?;
    bytes.extend_from_slice(far)?;
    Ok(Body::from_vec(bytes))
}

// The messages, and one more. Once there was no memory for one, there are none.
fn with(
    taken: Result<Vec<Body>, AllocError>,
    body: Result<Body, AllocError>,
) -> Result<Vec<Body>, AllocError>
    ensures { IfOk result (λ all. IsOkAnd taken (λ old. IsOkAnd body (λ b. all.items ≡ old.items ++ b ∷ []))) }
{
    let mut all = taken?;
    all.push(body?)?;
    Ok(all)
}

// Issues as much as the ring has room for, if there is a slot for the frame.
fn issue_room<R: Wait>(rt: &R, outgoing: &mut InboxOut)
    ensures same { IsSameSide outgoing.old outgoing.new }
    ensures took { took outgoing.new.seen ≡ took outgoing.old.seen }
{
    if let Ok(room) = u32::try_from(outgoing.book(rt).room()) {
        let _answer = outgoing.issue(rt, room);
    }
}

// Takes all messages that come, and issues their bytes anew.
fn take_all<R: Wait>(
    rt: &R,
    alloc: Global,
    outgoing: &mut InboxOut,
) -> Result<Vec<Body>, AllocError>
    requires { took outgoing.old.seen ≡ [] }
    ensures same { IsSameSide outgoing.old outgoing.new }
    ensures took { IfOk result (λ taken. took outgoing.new.seen ≡ taken.items) }
{
    let mut taken = Ok(Vec::new(alloc));
    for _ in rt.forever() {
        issue_room(rt, outgoing);
        match outgoing.take_with(rt, |near, far| joined(alloc, near, far)) {
            Lent::Read(body) => taken = with(taken, body),
            Lent::Empty => thread::yield_now(),
            Lent::Ended => return taken,
        }
    }
    unreachable!()
}

/// The messages that one thread takes out of a ring of 32 bytes while another reads the given ones
/// into it, up to the first that no frame or no ring of this length can carry: they are the first of
/// those that were given, of which the clause does not say how many.
pub fn carries<R>(rt: R, alloc: Global, given: Vec<Body>) -> Result<Vec<Body>, AllocError>
where
    R: Threads + Wait + Copy + Send + 'static,
    ensures { IfOk result (λ taken. taken.items ≡ take (length taken.items) given.items) }
{
    let (
        SharedInbox {
            incoming,
            mut outgoing,
        },
        drain,
    ) = new_pair(alloc, LANE, CAPACITY, SLOTS)?;
    let heard = Heard {
        side: Snapshot::of(&incoming),
        given: Snapshot::of(&given),
    };
    let reading = thread::spawn_with(&rt, heard, move || hear_all(&rt, incoming, drain, given))?;
    let taken = take_all(&rt, alloc, &mut outgoing);
    let incoming = reading.join(&rt);
    let _left = finish(incoming, outgoing);
    taken
}
