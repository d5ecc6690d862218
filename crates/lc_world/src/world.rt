//! Two peers whose streams keep order.
//!
//! A `World` has two ends (`endpoint.rt`). Each has a `Peer` with one slot, the bytes of its
//! whole stream from the greeting on, how many of them were delivered, and the decoder of what
//! comes from the other end. No frame, book or message stands beside the peers. Contracts see
//! none of this: they see the `State` of the definitions. `line_of` (in `specs/Endpoint.antt`)
//! reads a line off the two ends: its version is the writing peer's, the frames that arrived are
//! those of the delivered bytes behind the greeting, what has begun is what follows them, and the
//! messages taken are those that arrived and do not wait in the reader's ring. `AreEnds` says
//! what ties the two: each peer is that of the sums over both streams, each decoder holds what
//! was delivered of a greeting or a frame, and `IsSound`, which the laws keep of every history,
//! holds of both lines. So no frame in flight violates, and nothing is judged twice or undone.
//!
//! An event is an arm of `act.rt`. An own event first takes the room of its frame on the stream,
//! then calls the peer, and what the peer put goes to the stream at once. A delivery hands a
//! slice of the other end's stream to `Peer::deliver`, and an arrival is the delivery of the
//! bytes that are missing of the greeting and of one frame, whose place on the stream
//! `first_place` finds. A take copies the first message, and then drops it from the ring.
ghost use Rattle.std.specs.Prelude.{◌≡◌, ◌↔◌, IfOk, IsOk, IsSome, IfSome, length, [], replicate, Err};
ghost use Rattle.std.specs.List.{zip};
ghost use Rattle.lc_frame.specs.declared.version.Version.TheVariants.{One};
ghost use Rattle.lc_frame.specs.Bounds.{IsCapacity};
ghost use Rattle.lc_world.specs.State.{by_side, opening, client, server, line, stream};
ghost use Rattle.lc_world.specs.Delivery.{text_of, delivered};
ghost use Rattle.lc_world.specs.Answers.{IsAnswer, after};
ghost use Rattle.lc_world.specs.Histories.{IsHistory};
ghost use Rattle.lc_world.specs.Guarantee.{KeepsGuarantees};

use crate::act::act;
use crate::endpoint::Endpoint;
use crate::event::{Answer, Event, Side};
use lc_book::{ClientBook, ServerBook};
use lc_frame::{Channel, Version};
use lc_ring::NewFault;
use std::alloc::Global;
use std::fmt;
use std::fmt::{Debug, Formatter};
use std::marker::Model;

/// Two peers, all of whose receiving rings have one capacity. Contracts see it as the state of
/// both streams.
pub struct World {
    alloc: Global,
    a: Endpoint,
    b: Endpoint,
}

// One call, wherever a world is dropped.
impl Drop for World {
    fn drop(self) {
        let World {
            alloc: _,
            a: _,
            b: _,
        } = self;
    }
}

impl Model for World {
    ghost use Rattle.lc_world.specs.State.{State};
    ghost use Rattle.lc_world.specs.Endpoint.{state_between, AreInStep};

    ghost Value = { State };

    ghost view = { λ w. state_between w.a w.b };

    ghost invariant = { λ w. AreInStep w.a w.b };
}

impl Debug for World {
    fn fmt<W: fmt::Write>(&self, f: &mut Formatter<W>) -> fmt::Result {
        f.debug_struct("World").finish_non_exhaustive()
    }
}

impl World {
    /// Two new peers whose streams are of version One.
    pub fn new(alloc: Global, capacity: u32) -> Result<World, NewFault>
        ensures capacity { (result ≡ Err NewFault.BadCapacity) ↔ ¬ IsCapacity capacity }
        ensures made { IsOk result → IsCapacity capacity }
        ensures value { IfOk result (λ w. w ≡ opening capacity (λ s. One)) }
    {
        World::new_as(alloc, capacity, [Version::One; 2])
    }

    /// Two new peers, the first version that of side A's stream. `BadCapacity` exactly where the
    /// capacity is not 1 to 2^24, which is found before any memory is taken. The memory of the rings,
    /// of what comes in pieces and of the greetings, which are in flight then, is taken here.
    pub fn new_as(alloc: Global, capacity: u32, versions: [Version; 2]) -> Result<World, NewFault>
        ensures capacity { (result ≡ Err NewFault.BadCapacity) ↔ ¬ IsCapacity capacity }
        ensures made { IsOk result → IsCapacity capacity }
        ensures value { IfOk result (λ w. w ≡ opening capacity (by_side versions)) }
    {
        let a = Endpoint::new(alloc, versions[0], capacity)?;
        let b = Endpoint::new(alloc, versions[1], capacity)?;
        Ok(World { alloc, a, b })
    }

    /// Answers an event. Want of memory comes first for every event that can put a frame, and for
    /// a take of a waiting message; it changes nothing. An arrival and a delivery take no memory.
    pub fn step(&mut self, event: &Event) -> Answer
        ensures answer { IsAnswer self.old event.now result }
        ensures state { self.new ≡ after self.old event.now result }
    {
        match event.side {
            Side::A => act(self.alloc, &mut self.a, &mut self.b, &event.act),
            Side::B => act(self.alloc, &mut self.b, &mut self.a, &event.act),
        }
    }

    /// A side's book of a channel as client.
    pub fn client(&self, side: Side, channel: Channel) -> ClientBook
        ensures { result ≡ client self.now side channel }
    {
        match side {
            Side::A => self.a.peer.client(channel),
            Side::B => self.b.peer.client(channel),
        }
    }

    /// A side's book of a channel as server.
    pub fn server(&self, side: Side, channel: Channel) -> ServerBook
        ensures { result ≡ server self.now side channel }
    {
        match side {
            Side::A => self.a.peer.server(channel),
            Side::B => self.b.peer.server(channel),
        }
    }

    /// The bytes of a side's stream, its greeting and then its frames.
    pub fn stream(&self, side: Side) -> &[u8]
        ensures { result.now ≡ text_of (line self.now side).version (stream (line self.now side)) }
    {
        match side {
            Side::A => self.a.stream.as_slice(),
            Side::B => self.b.stream.as_slice(),
        }
    }

    /// How many bytes of a side's stream were delivered to the other.
    pub fn delivered(&self, side: Side) -> usize
        ensures { result ≡ delivered (line self.now side) }
    {
        match side {
            Side::A => self.a.delivered,
            Side::B => self.b.delivered,
        }
    }
}

/// Answers events as `run_as` does, where both streams are of version One.
pub fn run(alloc: Global, capacity: u32, events: &[Event]) -> Result<Vec<Answer>, NewFault>
    ensures capacity { (result ≡ Err NewFault.BadCapacity) ↔ ¬ IsCapacity capacity }
    ensures count { IfOk result (λ answers. length answers.items ≡ length events.now) }
    ensures legal { IfOk result (λ answers. IsHistory capacity (λ s. One) (zip events.now answers.items)) }
    ensures keeps { IfOk result (λ answers. KeepsGuarantees capacity (λ s. One) (zip events.now answers.items)) }
{
    run_as(alloc, capacity, [Version::One; 2], events)
}

/// Answers events in order, from a new world of two peers with receiving rings of `capacity` bytes,
/// the first version that of side A's stream. `BadCapacity` exactly where the capacity is not 1 to
/// 2^24, `OutOfMemory` only where the memory of the world or the places of the answers, which are
/// reserved before the first event, are refused.
pub fn run_as(
    alloc: Global,
    capacity: u32,
    versions: [Version; 2],
    events: &[Event],
) -> Result<Vec<Answer>, NewFault>
    ensures capacity { (result ≡ Err NewFault.BadCapacity) ↔ ¬ IsCapacity capacity }
    ensures count { IfOk result (λ answers. length answers.items ≡ length events.now) }
    ensures legal { IfOk result (λ answers. IsHistory capacity (by_side versions) (zip events.now answers.items)) }
    ensures keeps { IfOk result (λ answers. KeepsGuarantees capacity (by_side versions) (zip events.now answers.items)) }
{
    let mut world = World::new_as(alloc, capacity, versions)?;
    let Ok(mut answers) = Vec::with_capacity(alloc, events.len()) else {
        return Err(NewFault::OutOfMemory);
    };
    for event in events {
        let answer = world.step(event);
        // The place was reserved.
        match answers.push(answer) {
            Ok(()) => {}
            Err(_) => unreachable!(),
        }
    }
    Ok(answers)
}
