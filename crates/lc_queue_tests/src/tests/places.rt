//! Places of a queue that one thread takes and another gives back.
use crate::tests::queue::room;
use lc_frame::{Channel, Frame, Version};
use lc_queue::{Drain, LaneEnd, Lanes, lanes};
use std::alloc::Global;
use std::process::Abort;
use std::sync::Wait;
use std::test::Fail;
use std::thread::{Threads, join, yield_now};

const FRAMES: u32 = 20_000;

const SLOTS: u32 = 2;

// Puts a frame as soon as there is a place for it.
fn put<R: Wait + Abort>(rt: &R, end: &mut LaneEnd) {
    for _ in rt.forever() {
        let frame = Frame::Plead {
            channel: Channel::Data,
            target: 0,
        };
        assert!(rt; frame.is_valid(end.version()) && frame.lane() == end.lane());
        match end.push(rt, frame) {
            Ok(()) => return,
            Err(_) => yield_now(),
        }
    }
}

fn put_all<R: Wait + Abort>(rt: &R, end: &mut LaneEnd) {
    for _ in 0..FRAMES {
        put(rt, end);
    }
}

fn pop<R: Wait>(rt: &R, drain: &mut Drain) {
    for _ in rt.forever() {
        match drain.pop(rt) {
            Some(_) => return,
            None => yield_now(),
        }
    }
}

fn pop_all<R: Wait>(rt: &R, drain: &mut Drain) {
    for _ in 0..FRAMES {
        pop(rt, drain);
    }
}

// A lane's frames go through the queue, whose drain is mostly about to pop the last. How many frames it has room
// for then.
fn room_behind<R>(rt: &R, alloc: Global) -> Option<u32>
where
    R: Threads + Wait + Abort + Sync,
{
    let Lanes {
        mut ends,
        mut drain,
    } = lanes(alloc, SLOTS, Version::One).ok()?;
    let end = &mut ends[8];
    join(rt, || put_all(rt, end), || pop_all(rt, &mut drain));
    Some(room(rt, SLOTS, &mut ends[8]))
}

#[test]
fn no_place_is_lost_between_threads(rt: HostRuntime) -> Result<(), Fail> {
    let room = room_behind(&rt, rt.alloc());
    assert!(rt; room == Some(SLOTS + 1), "{room:?}");
    Ok(())
}
