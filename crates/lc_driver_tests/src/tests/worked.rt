//! Worked examples of writing and reading, and the counts of a device.
use crate::tests::failing_link::{FailingLink, unflushed};
use crate::tests::script::run;
use crate::tests::{equal, ran};
use lc_driver::{Counted, CountedRead, CountedWrite, Failures, ReadEnd};
use lc_frame::{Channel, Version};
use std::alloc::Global;
use std::io::{Read, Write};
use std::process::Abort;
use std::test::Fail;
use test_devices::{FAILED_WRITES, Odd, Pipe, PipeReader, Plan, THREE_FRAMES};

/// Of each example: the bytes of the stream that comes, and the calls with what they answer.
const WORKED: [(&str, &str); 13] = [
    // A message beyond what was guaranteed ends the reading for good.
    (
        "11000261621100026364",
        "issue 1 3 => Ok(())
        count 10 all => Violated(NotGuaranteed) calls 1
        server 1 => outstanding 1 buffered 2 None
        offending => begun 5 Send 1 Some(2) of Some(1)
        count 10 all => Violated(NotGuaranteed) calls 0
        count 0 all => Violated(NotGuaranteed) calls 0
        take 1 => 6162
        take 1 => Ok(Empty)",
    ),
    // A further call finishes the frame that was begun.
    (
        "",
        "issue 1 5 => Ok(())
        write 1 fails 4 => Err(Failed { written: 3 }) 210000 calls 4 pending 2 waiting 0
        write all => Ok(2) 0005 calls 1 pending 0 waiting 0
        write all => Ok(0)  calls 0 pending 0 waiting 0",
    ),
    ("2100000005", "count 0 all => TurnsSpent calls 0"),
    // A failed read loses nothing.
    (
        "2100000005",
        "count 10 2 fails 2 => ReadFailed calls 2
        count 10 all => Clean calls 2
        client 1 => held 5 None",
    ),
    // A kept fault comes before the number of reads, and what arrived before it stays.
    (
        "210000000577",
        "offending => begun 0 None None
        count 10 all => Fault(BadTag) calls 1
        offending => begun 1 None Some(119)
        count 0 all => Fault(BadTag) calls 0
        client 1 => held 5 None",
    ),
    // All that waits goes out in one write.
    (
        "",
        "issue 1 5 => Ok(())
        issue 2 3 => Ok(())
        write all => Ok(10) 21000000052200000003 calls 1 pending 0 waiting 0",
    ),
    // A write that takes nothing.
    (
        "",
        "issue 1 5 => Ok(())
        issue 2 3 => Ok(())
        write 1 0 4 => Err(Zero { written: 3 }) 210000 calls 4 pending 2 waiting 1
        write all => Ok(7) 00052200000003 calls 1 pending 0 waiting 0",
    ),
    // As few reads as a call may make.
    (
        THREE_FRAMES,
        "issue 1 2 => Ok(())
        count 4 1 => TurnsSpent calls 4
        count 4 1 => TurnsSpent calls 4
        count 4 1 => TurnsSpent calls 4
        count 4 1 => TurnsSpent calls 4
        count 4 1 => Clean calls 4
        take 1 => 6869",
    ),
    // Behind a Finish no frame of the client may come.
    (
        "4c434d0271110000000161",
        "issue 1 4 => Ok(())
        count 10 all => Violated(AfterFinish) calls 1
        server 1 => outstanding 0 buffered 0 None
        offending => begun 6 Send 1 Some(1) of None
        take 1 => Ok(Ended)
        issue 1 1 => Err(ChannelFinished)",
    ),
    (
        "4c434d027171",
        "issue 1 4 => Ok(())
        count 10 all => Violated(AfterFinish) calls 1
        offending => begun 1 Finish 1 None of None
        count 10 all => Violated(AfterFinish) calls 0",
    ),
    // A message longer than its ring, of which no byte is kept, is known as any other.
    (
        "21000000051100096162636465666768692100000005",
        "issue 1 4 => Ok(())
        count 1 14 => TurnsSpent calls 1
        offending => begun 9 None None
        count 10 all => Violated(NotGuaranteed) calls 1
        offending => begun 12 Send 1 Some(9) of Some(4)",
    ),
    // Version One has no such frame.
    (
        "71",
        "issue 1 4 => Ok(())
        count 10 all => Fault(BadTag) calls 1
        offending => begun 1 None Some(113)
        server 1 => outstanding 4 buffered 0 None
        take 1 => Ok(Empty)",
    ),
    (
        "210000000571",
        "count 10 all => Fault(BadTag) calls 1
        client 1 => held 5 None
        finish 1 => Err(WrongVersion)
        client 1 => held 5 None",
    ),
];

#[test]
fn worked_calls(rt: HostRuntime) {
    for &(input, script) in &WORKED {
        ran(&rt, run(&rt, rt.alloc(), Version::One, input, script));
    }
}

/// Calls of a peer that writes version Two, with what they answer.
const IN_TWO: [&str; 4] = [
    // The greeting goes out with the first frame, and once.
    "issue 1 5 => Ok(())
    write all => Ok(9) 4c434d022100000005 calls 1 pending 0 waiting 0
    write all => Ok(0)  calls 0 pending 0 waiting 0",
    // It goes out alone where no frame waits.
    "write all => Ok(4) 4c434d02 calls 1 pending 0 waiting 0
    write all => Ok(0)  calls 0 pending 0 waiting 0
    issue 1 5 => Ok(())
    write all => Ok(5) 2100000005 calls 1 pending 0 waiting 0",
    // A Finish is its tag alone.
    "finish 1 => Ok(())
    write all => Ok(5) 4c434d0271 calls 1 pending 0 waiting 0
    finish 1 => Err(ChannelFinished)
    send 1 61 => Err(ChannelFinished)
    write all => Ok(0)  calls 0 pending 0 waiting 0",
    // Where no frame more can wait, none is put.
    "issue 0 1 => Ok(())
    issue 1 1 => Ok(())
    issue 2 1 => Ok(())
    issue 3 1 => Ok(())
    finish 6 => Err(QueueFull)
    write all => Ok(24) 4c434d022000000001210000000122000000012300000001 calls 1 pending 0 waiting 0
    finish 6 => Ok(())
    write all => Ok(1) 76 calls 1 pending 0 waiting 0",
];

#[test]
fn a_greeting_goes_out_first_and_once(rt: HostRuntime) {
    for script in &IN_TWO {
        ran(&rt, run(&rt, rt.alloc(), Version::Two, "", script));
    }
}

/// Of a write that stops in a greeting or behind it: the bytes that it wrote, those that the next call
/// writes, and how many are pending and how many frames wait between them.
const STOPPED: [(&str, &str, u64, u64); 6] = [
    ("", "4c434d022100000005", 4, 1),
    ("4c", "434d022100000005", 3, 1),
    ("4c43", "4d022100000005", 2, 1),
    ("4c434d", "022100000005", 1, 1),
    ("4c434d02", "2100000005", 0, 1),
    ("4c434d0221", "00000005", 4, 0),
];

// The script of a write whose device does this at the call after so many bytes, and of the next one.
fn stopping(
    alloc: Global,
    (odd, fault): (&str, &str),
    (written, rest, pending, waiting): (&str, &str, u64, u64),
) -> Option<String> {
    let (before, after) = (written.len() / 2, rest.len() / 2);
    let call = before + 1;
    format!(in alloc;
        "issue 1 5 => Ok(())
        write 1 {odd} {call} => Err({fault} {{ written: {before} }}) {written} calls {call} pending {pending} waiting {waiting}
        write 1 => Ok({after}) {rest} calls {after} pending 0 waiting 0
        write all => Ok(0)  calls 0 pending 0 waiting 0"
    )
    .ok()
}

fn a_greeting_is_cut(
    rt: &impl Abort,
    alloc: Global,
    odd: (&str, &str),
    stopped: (&str, &str, u64, u64),
) -> Option<()> {
    let script = stopping(alloc, odd, stopped)?;
    run(rt, alloc, Version::Two, "", script.as_str())
}

#[test]
fn a_greeting_is_cut_at_each_byte(rt: HostRuntime) {
    for odd in [("fails", "Failed"), ("0", "Zero")] {
        for &stopped in &STOPPED {
            ran(&rt, a_greeting_is_cut(&rt, rt.alloc(), odd, stopped));
        }
    }
}

// The script of a write that fails after so many bytes, and of the one after it.
fn failing(
    alloc: Global,
    (written, rest, pending, waiting): (&str, &str, u64, u64),
) -> Option<String> {
    let (before, after) = (written.len() / 2, rest.len() / 2);
    let call = before + 1;
    format!(in alloc;
        "issue 1 5 => Ok(())
        issue 2 3 => Ok(())
        write 1 fails {call} => Err(Failed {{ written: {before} }}) {written} calls {call} pending {pending} waiting {waiting}
        write all => Ok({after}) {rest} calls 1 pending 0 waiting 0"
    )
    .ok()
}

fn a_write_fails(rt: &impl Abort, alloc: Global, failed: (&str, &str, u64, u64)) -> Option<()> {
    let script = failing(alloc, failed)?;
    run(rt, alloc, Version::One, "", script.as_str())
}

#[test]
fn a_write_fails_at_each_byte(rt: HostRuntime) {
    for &failed in &FAILED_WRITES {
        ran(&rt, a_write_fails(&rt, rt.alloc(), failed));
    }
}

fn a_read_fails(rt: &impl Abort, alloc: Global, call: u64) -> Option<()> {
    let script = format!(in alloc;
        "issue 1 2 => Ok(())
        count 30 1 fails {call} => ReadFailed calls {call}
        read 30 1 => Clean
        server 1 => outstanding 0 buffered 2 None
        client 1 => held 5 None
        client 0 => held 0 Some(10)
        take 1 => 6869"
    );
    run(rt, alloc, Version::One, THREE_FRAMES, script.ok()?.as_str())
}

#[test]
fn a_read_fails_at_each_byte(rt: HostRuntime) {
    for call in 1..21 {
        ran(&rt, a_read_fails(&rt, rt.alloc(), call));
    }
}

// So many bytes went through a device at a call, or it failed; and so many failures and ends were
// counted.
fn counts(
    rt: &impl Abort,
    device: &impl Failures,
    went: Option<usize>,
    wanted: (Option<usize>, u64, u64),
) {
    let found = (went, device.failures(), device.ends());
    equal(rt, "a device", found, wanted);
}

// A writer fails at its second call and at each flush.
fn a_writer_fails(rt: &impl Abort, pipe: Pipe) -> Pipe {
    let plan = Plan::odd(Odd::Fails, 2);
    let mut writer = Counted::new(unflushed(plan, pipe));
    let wrote = writer.write_counted(b"ab").ok();
    counts(rt, &writer, wrote, (Some(2), 0, 0));
    let wrote = writer.write(b"cd").ok();
    counts(rt, &writer, wrote, (None, 1, 0));
    let wrote = writer.write(b"").ok();
    counts(rt, &writer, wrote, (Some(0), 1, 0));
    let flushed = writer.flush().is_ok().then_some(0);
    counts(rt, &writer, flushed, (None, 2, 0));
    writer.into_inner().pipe
}

// A writer takes nothing at its first call.
fn a_writer_ends(rt: &impl Abort, pipe: Pipe) -> Pipe {
    let plan = Plan::odd(Odd::Moves(0), 1);
    let mut writer = Counted::new(unflushed(plan, pipe));
    let wrote = writer.write(b"cd").ok();
    counts(rt, &writer, wrote, (Some(0), 0, 1));
    writer.into_inner().pipe
}

// A reader ends at its second call and fails at its third.
fn a_reader_ends_and_fails(rt: &impl Abort, pipe: Pipe) {
    let plan = Plan::odd(Odd::Fails, 3);
    let mut reader = Counted::new(PipeReader { plan, pipe });
    let mut buffer = [7; 4];
    let read = reader.read_counted(&mut buffer).ok();
    counts(rt, &reader, read, (Some(2), 0, 0));
    equal(rt, "a buffer", buffer, [b'a', b'b', 7, 7]);
    let read = reader.read(&mut buffer).ok();
    counts(rt, &reader, read, (Some(0), 0, 1));
    let read = reader.read(&mut buffer).ok();
    counts(rt, &reader, read, (None, 1, 1));
    let read = reader.read(&mut []).ok();
    counts(rt, &reader, read, (Some(0), 1, 1));
}

#[test]
fn a_device_counts(rt: HostRuntime) {
    let empty = Pipe::of(Vec::new(rt.alloc()));
    let written = a_writer_fails(&rt, empty);
    a_reader_ends_and_fails(&rt, a_writer_ends(&rt, written));
}

// What waits goes out, and what comes arrives.
fn moves(rt: &impl Abort, side: &mut FailingLink, empty: Pipe, full: Pipe) {
    let issued = side.link.peer.issue(Channel::Data, 5);
    let wrote = side.write(Plan::whole(), empty).0;
    let end = side.read(Plan::whole(), full, 10).0;
    let held = side.link.peer.client(Channel::Data).held();
    let wanted = (Ok(()), Ok(5), ReadEnd::Clean, 5);
    equal(rt, "what moves", (issued, wrote, end, held), wanted);
}

// A side asks for memory where it is made, and no write and no read asks for any: the last request
// is the test's own.
#[test]
fn memory_is_asked_for_where_they_are_made(rt: HostRuntime) -> Result<(), Fail> {
    let empty = Pipe::of(Vec::with_capacity(rt.alloc(), 32)?);
    let full = Pipe::holding(rt.alloc(), &[0x21, 0, 0, 0, 5])?;
    let mut side = FailingLink::new(rt.alloc(), Version::One, 8, 2)?;
    moves(&rt, &mut side, empty, full);
    let _: Vec<u8> = Vec::with_capacity(rt.alloc(), 1)?;
    Ok(())
}
