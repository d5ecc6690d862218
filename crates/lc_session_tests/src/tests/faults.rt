//! Devices that fail, move nothing or stop short.
use crate::tests::desk::run;
use crate::tests::ran;
use std::alloc::Global;
use std::process::Abort;
use std::sync::Wait;
use test_devices::{FAILED_WRITES, THREE_FRAMES, text};

// Two guarantees are written, and the write of one byte fails or takes nothing.
fn early(alloc: Global, what: &str, written: &str) -> Option<String> {
    let call = text(alloc, &(written.len() / 2 + 1))?;
    let call = call.as_str();
    let plan = if what == "Failed" { "fails" } else { "0" };
    [
        "issue 1 5 => Ok(())
        issue 2 3 => Ok(())
        write 1 ",
        plan,
        " ",
        call,
        " => ",
        what,
        " ",
        written,
        " calls ",
        call,
        " flushes 0",
    ]
    .concat(alloc)
    .ok()
}

// What is left then.
fn left(alloc: Global, waiting_and_begun: (u64, u64)) -> Option<String> {
    format!(in alloc; "left => {waiting_and_begun:?}").ok()
}

// And then the session goes on, and ends.
fn whole(alloc: Global, early: &str, rest: &str) -> Option<String> {
    [
        early,
        "
        stop => ()
        write all => Stopped ",
        rest,
        " calls 1 flushes 1",
    ]
    .concat(alloc)
    .ok()
}

// The session ends at once, or goes on.
fn a_write_ends_early<R: Wait + Abort>(
    rt: &R,
    alloc: Global,
    what: &str,
    (written, rest, begun, waiting): (&str, &str, u64, u64),
) -> Option<()> {
    let early = early(alloc, what, written)?;
    let left = left(alloc, (waiting, begun))?;
    let whole = whole(alloc, early.as_str(), rest)?;
    run(rt, alloc, 4, "", early.as_str(), left.as_str())?;
    run(rt, alloc, 4, "", whole.as_str(), "left => (0, 0)")
}

#[test]
fn a_write_fails_or_takes_nothing_at_each_byte(rt: HostRuntime) {
    for row in &FAILED_WRITES {
        for what in ["Failed", "Zero"] {
            ran(&rt, a_write_ends_early(&rt, rt.alloc(), what, *row));
        }
    }
}

// A stream of three frames comes, and this read of it fails.
fn a_read_fails<R: Wait + Abort>(rt: &R, alloc: Global, call: u64) -> Option<()> {
    let script = format!(in alloc;
        "issue 1 2 => Ok(())
        read 30 1 fails {call} => ReadFailed
        read 30 1 => Clean
        server 1 => outstanding 0 buffered 2 None
        held 1 => 5
        read 30 1 => Clean"
    );
    let report = "client 1 => (5, 5, 0, 0, 0)
        server 1 => (0, 2, 2)
        left => (1, 0)";
    run(rt, alloc, 4, THREE_FRAMES, script.ok()?.as_str(), report)
}

#[test]
fn a_read_fails_at_each_byte(rt: HostRuntime) {
    for call in 1..21 {
        ran(&rt, a_read_fails(&rt, rt.alloc(), call));
    }
}

#[test]
fn a_flush_fails(rt: HostRuntime) {
    let script = "issue 1 5 => Ok(())
        stop => ()
        unflushed => Failed 2100000005 calls 1 flushes 1
        write all => Stopped  calls 0 flushes 1";
    ran(&rt, run(&rt, rt.alloc(), 4, "", script, "left => (0, 0)"));
}
