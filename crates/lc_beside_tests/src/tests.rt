//! What goes on beside ends whose threads are held: all else.
//!
//! Some ends of two sessions are held where their threads may stop: in a park, behind one, between a refusal
//! and the wait for it, between two calls. Meanwhile every direction of a channel to which none of these
//! belongs carries all its messages. Each end that is through is dropped, then both sessions are stopped and
//! all runs of their pumps end, and only when each other thread is through do those that are held go on. Where
//! anything waits for one of these, the test fails after a while.
//!
//! In a park an end is held by its clock, so where it waits with a timeout. `scripts/threads` runs the last
//! test by `scripts/slow.c` besides, which holds those ends when they come out of their sleep in that.
mod ends;
mod sides;
mod stage;
mod way;

use crate::tests::sides::{Half, use_half};
use crate::tests::stage::Stage;
use crate::tests::way::{Held, Place, Side, Way};
use std::alloc::Global;
use std::fs::Files;
use std::io::{Read, Write, pipe};
use std::net::{Ipv4Addr, Net, TcpListener, TcpStream};
use std::process::Abort;
use std::sync::Wait;
use std::sync::atomic::{AtomicBool, Ordering};
use std::thread::{Threads, join};
use std::time::{Clock, Duration};
use std::{io, thread};

/// How many milliseconds an exchange may take.
const PATIENCE: u32 = 40_000;

// Fails where what is waited for is not done in time.
fn watch<R: Clock + Abort>(rt: &R, way: Way, done: &AtomicBool) {
    for _ in 0..PATIENCE {
        if done.load(Ordering::SeqCst) {
            return;
        }
        thread::sleep(rt, Duration::from_millis(1));
    }
    assert!(rt; false, "held up: {way:?}");
}

// The writer and the reader of a new connection.
fn connection<R>(rt: &R) -> io::Result<(TcpStream, TcpStream)>
where
    R: Net<Listener = TcpListener, Stream = TcpStream>,
{
    let listener = TcpListener::bind(rt, (Ipv4Addr::LOCALHOST, 0u16))?;
    let writer = TcpStream::connect(rt, listener.local_addr()?)?;
    writer.set_nodelay(true)?;
    let (reader, _) = listener.accept()?;
    Ok((writer, reader))
}

// Two sessions over these wires, of which some ends are held.
fn exchange<R, W, D>(rt: &R, alloc: Global, way: Way, to_b: (W, D), to_a: (W, D)) -> Option<()>
where
    R: Threads + Wait + Clock + Abort + Sync,
    W: Write + Drop + Send,
    D: Read + Drop + Send,
{
    let (mut a, a_session) = Half::new(alloc, Side::A, way.slots)?;
    let (mut b, b_session) = Half::new(alloc, Side::B, way.slots)?;
    if way.begins_full() {
        a.fill(rt, way);
        b.fill(rt, way);
    }
    let stage = Stage::new(rt, way, [a_session, b_session]);
    let ((a_writer, b_reader), (b_writer, a_reader)) = (to_b, to_a);
    let done = AtomicBool::new(false);
    join(
        rt,
        || {
            join(
                rt,
                || use_half(&stage, a, a_writer, a_reader),
                || use_half(&stage, b, b_writer, b_reader),
            );
            done.store(true, Ordering::SeqCst);
        },
        || {
            join(rt, || stage.open(), || watch(rt, way, &done));
        },
    );
    Some(())
}

fn over_sockets<R>(rt: &R, alloc: Global, way: Way) -> Option<()>
where
    R: Threads + Wait + Clock + Abort + Sync + Net<Listener = TcpListener, Stream = TcpStream>,
{
    let to_b = connection(rt).ok()?;
    let to_a = connection(rt).ok()?;
    exchange(rt, alloc, way, to_b, to_a)
}

fn over_pipes<R>(rt: &R, alloc: Global, way: Way) -> Option<()>
where
    R: Threads + Wait + Clock + Abort + Sync + Files,
{
    let (from_a, to_b) = pipe(rt).ok()?;
    let (from_b, to_a) = pipe(rt).ok()?;
    exchange(rt, alloc, way, (to_b, from_a), (to_a, from_b))
}

/// Whether the others wait with a timeout, over how many slots, and whether through sockets: any two of
/// these stand in each way beside each other.
const WAYS: [(bool, u32, bool); 4] = [
    (false, 1, false),
    (false, 64, true),
    (true, 1, true),
    (true, 64, false),
];

// All ends of each set are held at a place, in each way.
fn hold_at<R>(rt: &R, alloc: Global, place: Place)
where
    R: Threads
        + Wait
        + Clock
        + Abort
        + Sync
        + Files
        + Net<Listener = TcpListener, Stream = TcpStream>,
{
    for held in Held::ALL {
        for &(timed, slots, by_sockets) in &WAYS {
            let way = Way {
                held,
                place,
                slots,
                timed,
            };
            let gone = if by_sockets {
                over_sockets(rt, alloc, way)
            } else {
                over_pipes(rt, alloc, way)
            };
            assert!(rt; gone.is_some(), "{way:?}");
        }
    }
}

#[test]
fn ends_held_in_a_park_that_a_frame_ends(rt: HostRuntime) {
    hold_at(&rt, rt.alloc(), Place::ForNews);
}

#[test]
fn ends_held_in_a_park_that_a_slot_ends(rt: HostRuntime) {
    hold_at(&rt, rt.alloc(), Place::ForSlot);
}

#[test]
fn ends_held_between_a_refusal_and_the_wait(rt: HostRuntime) {
    hold_at(&rt, rt.alloc(), Place::Refused);
}

#[test]
fn ends_held_between_two_calls(rt: HostRuntime) {
    hold_at(&rt, rt.alloc(), Place::Between);
}

#[test]
fn ends_held_behind_a_park(rt: HostRuntime) {
    hold_at(&rt, rt.alloc(), Place::Behind);
}
