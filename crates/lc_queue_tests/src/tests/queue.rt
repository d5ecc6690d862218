//! Worked examples, and threads.
ghost use Rattle.std.specs.Prelude.{IfOk};
ghost use Rattle.std.specs.List.{All};
ghost use Rattle.lc_queue.specs.Parts.{IsSame, IsSameEnd};

use lc_frame::{Body, Channel, Frame, Lane, Version};
use lc_queue::{Drain, LaneEnd, Lanes, LanesFault, lanes};
use std::alloc::{AllocError, Global};
use std::process::Abort;
use std::sync::Wait;
use std::test::Fail;
use test_threads::keeps_order;

const RECONCILIATION: Channel = Channel::Reconciliation;

const DATA: Channel = Channel::Data;

fn send(alloc: Global, channel: Channel, text: &[u8]) -> Result<Frame, AllocError> {
    let body = Body::from_vec(Vec::from_slice(alloc, text)?);
    Ok(Frame::Send { channel, body })
}

fn push(rt: &(impl Wait + Abort), end: &mut LaneEnd, frame: Frame) -> Result<(), Frame>
    ensures { IsSameEnd end.old end.new }
{
    assert!(rt; frame.is_valid(end.version()) && frame.lane() == end.lane());
    end.push(rt, frame)
}

fn put(rt: &(impl Wait + Abort), end: &mut LaneEnd, frame: Frame)
    ensures { IsSameEnd end.old end.new }
{
    assert!(rt; push(rt, end, frame).is_ok());
}

fn issue() -> Frame {
    Frame::Issue {
        channel: DATA,
        amount: 5,
    }
}

// An Issue of lane 8 and then a Send of lane 1, each on its lane's own place: the two shared ones are free.
fn two_put(rt: &(impl Wait + Abort), alloc: Global) -> Result<Lanes, Fail>
    ensures { IfOk result (λ parts. All (λ end. IsSame parts.drain.queue end.queue) parts.ends) }
{
    let hi = send(alloc, DATA, b"hi")?;
    let mut parts = lanes(alloc, 2, Version::One)?;
    put(rt, &mut parts.ends[8], issue());
    put(rt, &mut parts.ends[1], hi);
    Ok(parts)
}

// Whether two frames are the same.
fn is_same(one: &Frame, other: &Frame) -> bool {
    one.view() == other.view()
}

/// Pops this frame.
pub fn pop(rt: &(impl Wait + Abort), drain: &mut Drain, wanted: &Frame) {
    let is_popped = match drain.pop(rt) {
        Some(frame) => is_same(&frame, wanted),
        None => false,
    };
    assert!(rt; is_popped);
}

// Pops these two, and then nothing.
fn pop_two(rt: &(impl Wait + Abort), alloc: Global, drain: &mut Drain) -> Result<(), Fail> {
    let hi = send(alloc, DATA, b"hi")?;
    pop(rt, drain, &issue());
    pop(rt, drain, &hi);
    assert!(rt; drain.pop(rt).is_none());
    Ok(())
}

fn join_all(drain: &mut Drain, ends: [LaneEnd; 14])
    requires { All (λ end. IsSame drain.old.queue end.queue) ends }
{
    for end in ends {
        drain.join(end);
    }
}

// The queue has no room for this frame.
fn comes_back(rt: &(impl Wait + Abort), alloc: Global, end: &mut LaneEnd) -> Result<(), Fail> {
    let frame = send(alloc, RECONCILIATION, b"a")?;
    let same = send(alloc, RECONCILIATION, b"a")?;
    let is_back = match push(rt, end, frame) {
        Ok(()) => false,
        Err(back) => is_same(&back, &same),
    };
    assert!(rt; is_back);
    Ok(())
}

#[test]
fn a_full_queue_gives_the_frame_back(rt: HostRuntime) -> Result<(), Fail> {
    let alloc = rt.alloc();
    let mut parts = two_put(&rt, alloc)?;
    for _ in 0..2 {
        put(&rt, &mut parts.ends[8], issue());
    }
    put(&rt, &mut parts.ends[0], send(alloc, RECONCILIATION, b"a")?);
    comes_back(&rt, alloc, &mut parts.ends[0])?;
    pop(&rt, &mut parts.drain, &issue());
    pop(&rt, &mut parts.drain, &send(alloc, DATA, b"hi")?);
    pop(&rt, &mut parts.drain, &issue());
    pop(&rt, &mut parts.drain, &issue());
    pop(&rt, &mut parts.drain, &send(alloc, RECONCILIATION, b"a")?);
    assert!(rt; parts.drain.pop(&rt).is_none());
    Ok(())
}

#[test]
fn what_ended_lanes_put_is_popped(rt: HostRuntime) -> Result<(), Fail> {
    let parts = two_put(&rt, rt.alloc())?;
    let mut drain = parts.drain;
    join_all(&mut drain, parts.ends);
    pop_two(&rt, rt.alloc(), &mut drain)
}

// A frame of a lane.
fn frame_on(lane: u8) -> Option<Frame> {
    Some(match Lane::from_number(lane)? {
        Lane::Client(channel) => Frame::LimitSending { channel, bound: 0 },
        Lane::Server(channel) => Frame::Plead { channel, target: 0 },
    })
}

/// How many frames are put, of one more than there are places for one lane, until one comes back.
pub fn room(rt: &(impl Wait + Abort), slots: u32, end: &mut LaneEnd) -> u32 {
    let mut room = 0u32;
    for _ in 0..=slots.saturating_add(1) {
        let Some(frame) = frame_on(end.lane()) else {
            break;
        };
        if push(rt, end, frame).is_err() {
            break;
        }
        room = room.saturating_add(1);
    }
    room
}

// How many of so many pops take a frame.
fn taken(rt: &impl Wait, drain: &mut Drain, pops: u32) -> u32 {
    let mut taken = 0u32;
    for _ in 0..pops {
        if drain.pop(rt).is_some() {
            taken = taken.saturating_add(1);
        }
    }
    taken
}

// The room of a new queue, what so many pops then take, and the room after them.
fn rooms(
    rt: &(impl Wait + Abort),
    alloc: Global,
    slots: u32,
    pops: u32,
) -> Option<(u32, u32, u32)> {
    let mut parts = lanes(alloc, slots, Version::One).ok()?;
    let before = room(rt, slots, &mut parts.ends[13]);
    let taken = taken(rt, &mut parts.drain, pops);
    Some((before, taken, room(rt, slots, &mut parts.ends[13])))
}

// No clause says that a push came back from a full queue alone, nor, while no lane has ended, that a
// pop found nothing in an empty one alone.
#[test]
fn a_queue_is_found_full_and_empty_exactly_where_it_is(rt: HostRuntime) {
    for (slots, pops, wanted) in [
        (1, 0, (2, 0, 0)),
        (1, 1, (2, 1, 1)),
        (1, 3, (2, 2, 2)),
        (2, 1, (3, 1, 1)),
        (2, 4, (3, 3, 3)),
        (5, 3, (6, 3, 3)),
        (65_536, 7, (65_537, 7, 7)),
        (65_536, 65_538, (65_537, 65_537, 65_537)),
    ] {
        let found = rooms(&rt, rt.alloc(), slots, pops);
        assert!(rt; found == Some(wanted), "{slots} slots, {pops} pops");
    }
}

/// Of each: the slots, how often a lane puts as much as it has room for, once more each time behind so many
/// pops, and how much that was. Lane 3 comes first.
const ROOMS: [(u32, &[(usize, u32, u32)]); 3] = [
    // It has all shared places, and each other lane its own.
    (
        1,
        &[
            (3, 0, 2),
            (0, 0, 1),
            (13, 0, 1),
            (7, 0, 1),
            (3, 0, 0),
            (0, 0, 0),
            // A shared place comes free where lane 3 has one frame left, and then its own.
            (13, 1, 1),
            (7, 0, 0),
            (3, 0, 0),
            (7, 1, 0),
            (3, 0, 1),
            // Lane 0 and then lane 13 have had their frames popped.
            (0, 1, 1),
            (7, 1, 1),
        ],
    ),
    (2, &[(3, 0, 3), (4, 0, 1), (4, 2, 2), (3, 0, 0), (3, 1, 1)]),
    (64, &[(3, 0, 65), (10, 0, 1), (10, 64, 64), (3, 1, 1)]),
];

// How much a lane has room for behind so many pops.
fn rooms_in_turn(
    rt: &(impl Wait + Abort),
    alloc: Global,
    slots: u32,
    turns: &[(usize, u32, u32)],
) -> Option<()> {
    let mut parts = lanes(alloc, slots, Version::One).ok()?;
    for &(lane, pops, wanted) in turns {
        let popped = taken(rt, &mut parts.drain, pops);
        let found = (popped, room(rt, slots, parts.ends.get_mut(lane)?));
        assert!(rt;
            found == (pops, wanted),
            "{slots} slots, lane {lane}: {found:?}, not {wanted}"
        );
    }
    Some(())
}

#[test]
fn each_lane_has_a_place_of_its_own(rt: HostRuntime) {
    for &(slots, turns) in &ROOMS {
        assert!(rt; rooms_in_turn(&rt, rt.alloc(), slots, turns).is_some());
    }
}

// Puts a frame and pops it, though no lane has ended, and then finds nothing more.
fn put_and_pop(rt: &(impl Wait + Abort), end: &mut LaneEnd, drain: &mut Drain) {
    put(rt, end, issue());
    pop(rt, drain, &issue());
    assert!(rt; drain.pop(rt).is_none());
}

#[test]
fn a_frame_is_popped_at_once(rt: HostRuntime) -> Result<(), Fail> {
    let Lanes {
        mut ends,
        mut drain,
    } = lanes(rt.alloc(), 2, Version::One)?;
    assert!(rt; drain.pop(&rt).is_none());
    for _ in 0..5 {
        put_and_pop(&rt, &mut ends[8], &mut drain);
    }
    Ok(())
}

#[test]
fn no_queue_has_these_slots(rt: HostRuntime) {
    for slots in [0, 65_537, 4_294_967_295] {
        assert!(rt;
            matches!(
                lanes(rt.alloc(), slots, Version::One),
                Err(LanesFault::BadSlots)
            ),
            "{slots}"
        );
    }
}

fn are_in_order(ends: &[LaneEnd; 14]) -> bool {
    for (lane, end) in ends.iter().enumerate() {
        if usize::from(end.lane()) != lane {
            return false;
        }
    }
    true
}

// An end and the drain as texts.
fn shown(alloc: Global, parts: &Lanes) -> Option<String> {
    format!(in alloc; "{:?}, {:?}", parts.ends[8], parts.drain).ok()
}

#[test]
fn ends_have_and_show_their_lanes(rt: HostRuntime) -> Result<(), Fail> {
    let parts = lanes(rt.alloc(), 1, Version::One)?;
    assert!(rt; are_in_order(&parts.ends));
    let shown = shown(rt.alloc(), &parts);
    assert!(rt; shown.as_deref() == Some("LaneEnd { lane: 8, .. }, Drain { .. }"));
    Ok(())
}

fn texts(alloc: Global) -> Option<String> {
    format!(in alloc; "{}, {}", LanesFault::BadSlots, LanesFault::OutOfMemory).ok()
}

#[test]
fn faults_have_texts(rt: HostRuntime) {
    let texts = texts(rt.alloc());
    assert!(rt; texts.as_deref() == Some("a queue has 1 to 65536 slots, out of memory"));
}

#[test]
fn lanes_keep_their_order_in_threads(rt: HostRuntime) -> Result<(), Fail> {
    assert!(rt; keeps_order(rt, rt.alloc(), 4, 2_000)?);
    Ok(())
}
