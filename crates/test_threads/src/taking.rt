//! One thread reads messages into an inbox, and one takes them out.
ghost use Rattle.std.specs.Prelude.{◌≡◌, ◌≤◌, ◌<◌, ◌++◌, ◌∷◌, [], if◌then◌else◌, IfOk};
ghost use Rattle.std.specs.List.{All};
ghost use Rattle.lc_frame.specs.Channel.{channel_count};
ghost use Rattle.lc_peer.specs.Inbox.{new_inbox};
ghost use Rattle.lc_inbox.specs.Sides.{IsSameSide};
ghost use Rattle.test_threads.specs.Arrivals.{arrived, IsNewPair};

use crate::frames::number_of;
use lc_frame::{CHANNELS, FrameRef, LANES, Version};
use lc_inbox::{InboxEnd, InboxIn, InboxOut, SharedInbox, finish, share};
use lc_peer::{Inbox, Take};
use lc_queue::{Drain, LaneEnd, Lanes, lanes};
use std::alloc::{AllocError, Global};
use std::sync::Wait;
use std::thread;
use std::thread::{Threads, join};

/// The bytes of the ring.
pub(crate) const CAPACITY: u32 = 32;

/// The slots of the queue.
pub(crate) const SLOTS: u32 = 4;

/// The lane of the inbox.
pub(crate) const LANE: u8 = 8;

// A message, in a buffer of the most bytes that one has, and its length.
struct Message {
    bytes: [u8; 8],
    len: usize,
}

// The message of this number: 1 to 8 bytes, all of one value.
fn numbered_message(number: u32) -> Message
    ensures { result.len ≤ 8 }
{
    let len = (number & 7) as usize + 1;
    let bytes = [(number >> 3 & 0xff) as u8; 8];
    Message { bytes, len }
}

/// Reads guarantees off the queue until there are as many as a message needs.
pub(crate) fn await_guarantees<R: Wait>(rt: &R, drain: &mut Drain, held: u64, need: u64) -> u64
    ensures { need ≤ result }
{
    let mut held = held;
    for _ in rt.forever() {
        if need <= held {
            return held;
        }
        match drain.pop(rt) {
            Some(frame) => held = held.saturating_add(u64::from(number_of(&frame))),
            None => thread::yield_now(),
        }
    }
    unreachable!()
}

/// A message arrives, and this says whether it was lawful. One that no frame can carry is not.
pub fn hear<R: Wait>(rt: &R, incoming: &mut InboxIn, body: &[u8]) -> bool
    ensures same { IsSameSide incoming.old incoming.new }
    ensures arrived { arrived incoming.new ≡ (if result then arrived incoming.old ++ body.now ∷ [] else arrived incoming.old) }
{
    let channel = incoming.channel();
    let frame = FrameRef::Send { channel, body };
    if !frame.is_valid(Version::One) {
        return false;
    }
    match incoming.arrive(rt, frame) {
        Ok(()) => true,
        Err(_) => false,
    }
}

// The messages 1 to `count` arrive, each as soon as there are guarantees for it. Whether all of
// them were lawful.
fn hear_all<R: Wait>(rt: &R, mut incoming: InboxIn, mut drain: Drain, count: u32) -> (InboxIn, bool)
    ensures { result.0.inbox ≡ incoming.inbox }
{
    let mut held = 0;
    let mut lawful = true;
    for number in 1..=count {
        let Message { bytes, len } = numbered_message(number);
        held = await_guarantees(rt, &mut drain, held, len as u64) - len as u64;
        lawful &= hear(rt, &mut incoming, &bytes[..len]);
    }
    (incoming, lawful)
}

// Issues what is owed, if there is a slot for the frame.
fn issue_owed<R: Wait>(rt: &R, outgoing: &mut InboxOut, owed: &mut u32)
    ensures { outgoing.new.inbox ≡ outgoing.old.inbox }
{
    if *owed > 0 && outgoing.issue(rt, *owed).is_ok() {
        *owed = 0;
    }
}

// Takes a message as soon as one waits, and issues what is owed as soon as a slot is free: the
// message's length, which is owed then too.
fn take<R: Wait>(rt: &R, outgoing: &mut InboxOut, owed: &mut u32, buffer: &mut [u8; 8]) -> usize
    ensures { outgoing.new.inbox ≡ outgoing.old.inbox }
{
    for _ in rt.forever() {
        issue_owed(rt, outgoing, owed);
        match outgoing.take_into(rt, buffer) {
            Ok(Take::Took(len)) => {
                *owed = owed.saturating_add(len as u32);
                return len;
            }
            Ok(_) => thread::yield_now(),
            Err(_) => return 0,
        }
    }
    unreachable!()
}

// Takes messages, and issues their bytes anew. Whether they are the messages 1 to `count`.
fn take_all<R: Wait>(rt: &R, mut outgoing: InboxOut, count: u32) -> (InboxOut, bool)
    ensures { result.0.inbox ≡ outgoing.inbox }
{
    let mut owed = CAPACITY;
    let mut same = true;
    for number in 1..=count {
        let mut buffer = [0; 8];
        let taken = take(rt, &mut outgoing, &mut owed, &mut buffer);
        let Message { bytes, len } = numbered_message(number);
        same &= buffer.get(..taken) == bytes.get(..len);
    }
    (outgoing, same)
}

// Shares an inbox that puts on this lane.
fn share_on(
    alloc: Global,
    inbox: Inbox,
    ends: [LaneEnd; LANES],
    lane: u8,
) -> Result<SharedInbox, AllocError>
    requires inbox { inbox ≡ new_inbox inbox.book.capacity }
    requires put { All (λ end. end.put ≡ []) ends }
    requires server { channel_count ≤ lane }
    ensures { IfOk result (λ shared. IsNewPair shared.incoming shared.outgoing) }
{
    for end in ends {
        if end.lane() == lane {
            return share(alloc, InboxEnd::new(inbox, end));
        }
    }
    Err(AllocError)
}

/// Both sides of a new inbox over a ring of so many bytes, which puts on this lane, a server's, of a
/// new queue of so many slots; and the queue's drain. Bad numbers are answered as want of memory.
pub fn new_pair(
    alloc: Global,
    lane: u8,
    capacity: u32,
    slots: u32,
) -> Result<(SharedInbox, Drain), AllocError>
    ensures { IfOk result (λ new. IsNewPair new.0.incoming new.0.outgoing) }
{
    let Ok(parts) = lanes(alloc, slots, Version::One) else {
        return Err(AllocError);
    };
    let Ok(inbox) = Inbox::new(alloc, capacity) else {
        return Err(AllocError);
    };
    if usize::from(lane) < CHANNELS {
        return Err(AllocError);
    }
    let Lanes { ends, drain } = parts;
    let shared = share_on(alloc, inbox, ends, lane)?;
    Ok((shared, drain))
}

/// Whether one thread takes the messages 1 to `count` out of a ring of 32 bytes while another reads
/// them into it, each message whole and in its place, and nothing waits at the end.
pub fn takes_what_arrives<R>(rt: &R, alloc: Global, count: u32) -> Result<bool, AllocError>
where
    R: Threads + Wait + Sync,
{
    let (SharedInbox { incoming, outgoing }, drain) = new_pair(alloc, LANE, CAPACITY, SLOTS)?;
    let ((incoming, lawful), (outgoing, same)) = join(
        rt,
        || -> (InboxIn, bool)
            ensures { result.0.inbox ≡ incoming.inbox }
        { hear_all(rt, incoming, drain, count) },
        || -> (InboxOut, bool)
            ensures { result.0.inbox ≡ outgoing.inbox }
        { take_all(rt, outgoing, count) },
    );
    let (book, _lane) = finish(incoming, outgoing);
    Ok(lawful && same && book.buffered() == 0)
}
