//! A side sleeps while the other has the inbox, and does not only yield the processor.
use lc_inbox::{InboxIn, InboxOut, Lent, SharedInbox};
use std::alloc::Alloc;
use std::fs::{Files, read_to_string};
use std::sync::Wait;
use std::sync::atomic::{AtomicBool, AtomicU64, Ordering};
use std::test::Fail;
use std::thread::{join, sleep, yield_now};
use std::time::{Clock, Duration};
use test_threads::{hear, new_pair};

/// How many milliseconds in a row a thread has to be found asleep, and how many are looked at.
const ASLEEP: u32 = 20;

const LOOKS: u32 = 10_000;

// The number by which the system names the calling thread.
fn own_number<R: Files + Alloc>(rt: &R) -> Option<u64> {
    let stat = read_to_string(rt, "/proc/thread-self/stat").ok()?;
    let (number, _) = stat.split_once(' ')?;
    number.parse::<u64>().ok()
}

// Whether a thread sleeps, by its state, which stands behind its name in brackets.
fn is_asleep<R: Files + Alloc>(rt: &R, thread: u64) -> Option<bool> {
    let path = format!(in rt.alloc(); "/proc/self/task/{thread}/stat").ok()?;
    let stat = read_to_string(rt, path.as_str()).ok()?;
    let (_, state) = stat.rsplit_once(") ")?;
    Some(state.starts_with('S'))
}

// Whether a thread falls asleep, and stays so.
fn falls_asleep<R: Files + Alloc + Clock>(rt: &R, thread: &AtomicU64) -> bool {
    let mut found = 0u32;
    for _ in 0..LOOKS {
        sleep(rt, Duration::from_millis(1));
        found = match is_asleep(rt, thread.load(Ordering::SeqCst)) {
            Some(true) => found.saturating_add(1),
            _ => 0,
        };
        if found == ASLEEP {
            return true;
        }
    }
    false
}

// Whether the reading side falls asleep while a message is lent.
fn lends<R: Wait + Files + Alloc + Clock>(
    rt: &R,
    outgoing: &mut InboxOut,
    turn: &AtomicBool,
    reader: &AtomicU64,
) -> bool {
    let lent = outgoing.take_with(rt, |_near, _far| {
        turn.store(true, Ordering::SeqCst);
        falls_asleep(rt, reader)
    });
    matches!(lent, Lent::Read(true))
}

// A message arrives once the other side has the inbox. Whether it was lawful.
fn arrives<R: Wait + Files + Alloc>(
    rt: &R,
    incoming: &mut InboxIn,
    turn: &AtomicBool,
    reader: &AtomicU64,
) -> bool {
    reader.store(own_number(rt).unwrap_or(0), Ordering::SeqCst);
    for _ in rt.forever() {
        if turn.load(Ordering::SeqCst) {
            break;
        }
        yield_now();
    }
    hear(rt, incoming, b"b")
}

#[test]
fn a_side_sleeps_while_the_other_has_the_inbox(rt: HostRuntime) -> Result<(), Fail> {
    let (shared, _drain) = new_pair(rt.alloc(), 8, 8, 4)?;
    let SharedInbox {
        mut incoming,
        mut outgoing,
    } = shared;
    assert!(rt; outgoing.issue(&rt, 8).is_ok() && hear(&rt, &mut incoming, b"a"));
    let (turn, reader) = (AtomicBool::new(false), AtomicU64::new(0));
    let (slept, heard) = join(
        &rt,
        || lends(&rt, &mut outgoing, &turn, &reader),
        || arrives(&rt, &mut incoming, &turn, &reader),
    );
    assert!(rt; slept, "the reading side never slept");
    assert!(rt; heard, "the second message was refused");
    Ok(())
}
