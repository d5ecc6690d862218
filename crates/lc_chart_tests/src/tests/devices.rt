//! Devices that fail at one call and would go on after it.
use super::{IDEAS, STREAM, arguments, end, same, shown};
use lc_chart::run;
use std::alloc::Global;
use std::io;
use std::io::{ErrorKind, Write};
use std::process::Abort;
use std::test::Fail;
use test_devices::{Odd, Pipe, PipeReader, PipeWriter, Plan};

// A picture that ends well, and one with a fault behind it, which a failed write comes before.
const PICTURES: [(&str, &str); 2] = [("lcmux_chart 8", IDEAS), ("lcmux_chart frames", STREAM)];

const WRITE_FAILED: &str = "lcmux_chart: write failed\n= 1\n";

// How a run ends that writes to this device.
fn end_at(alloc: Global, (command, input): (&str, &str), out: &mut PipeWriter) -> Option<String> {
    let arguments = Ok(arguments(alloc, command)?);
    end(alloc, arguments, &mut input.as_bytes(), out)
}

// A device that takes pieces of the picture and fails at one write, which is the last then.
fn write_fails(rt: &impl Abort, alloc: Global, picture: (&str, &str), call: u64) -> Option<()> {
    let (command, input) = picture;
    let mut plan = Plan::odd(Odd::Fails, call);
    plan.most = 1000;
    let mut out = PipeWriter::new(plan, Pipe::of(Vec::new(alloc)));
    let found = end_at(alloc, picture, &mut out);
    same(rt, command, found, WRITE_FAILED);
    let whole = shown(alloc, command, input.as_bytes())?;
    let is_front = whole.as_bytes().starts_with(out.pipe.bytes.as_slice());
    assert!(rt;
        is_front && out.plan.calls == call,
        "{command}: write {call}"
    );
    Some(())
}

// A device that takes all of the picture and fails where it is to hand it on.
fn flush_fails(rt: &impl Abort, alloc: Global, picture: (&str, &str)) {
    let mut out = PipeWriter::new(Plan::whole(), Pipe::of(Vec::new(alloc)));
    out.flushes = Plan::odd(Odd::Fails, 1);
    let found = end_at(alloc, picture, &mut out);
    same(rt, picture.0, found, WRITE_FAILED);
    let is_whole = out.pipe.bytes.as_slice().ends_with(b"</svg>\n");
    assert!(rt; is_whole, "{}: the flush", picture.0);
}

// What may come before each of them, any number of times.
const FRONTS: [&str; 2] = ["A arrive\n", "\x21\0\0\0\x05"];

// The first write comes once some thousand bytes are gathered: the more comes before, the earlier in the
// picture, so that each part of it meets the failure in turn.
fn first_write_fails(
    rt: &impl Abort,
    alloc: Global,
    (command, input): (&str, &str),
    front: &str,
) -> Option<()> {
    for count in 0..250 {
        let fronts = front.repeat(alloc, count).ok()?;
        let longer = format!(in alloc; "{fronts}{input}").ok()?;
        write_fails(rt, alloc, (command, longer.as_str()), 1)?;
    }
    Some(())
}

#[test]
fn a_failed_write_ends_the_picture(rt: HostRuntime) -> Result<(), Fail> {
    for (&picture, front) in PICTURES.iter().zip(&FRONTS) {
        for call in 1..6 {
            write_fails(&rt, rt.alloc(), picture, call).ok_or("no run")?;
        }
        first_write_fails(&rt, rt.alloc(), picture, front).ok_or("no run")?;
        flush_fails(&rt, rt.alloc(), picture);
    }
    Ok(())
}

// A device whose reader went away.
#[derive(Clone, Copy)]
struct Unread;

impl Write for Unread {
    fn write(&mut self, _buf: &[u8]) -> io::Result<usize> {
        Err(io::Error::from(ErrorKind::BrokenPipe))
    }

    fn flush(&mut self) -> io::Result<()> {
        Ok(())
    }
}

#[test]
fn a_picture_that_nobody_reads_is_no_failure(rt: HostRuntime) -> Result<(), Fail> {
    for &(command, input) in &PICTURES {
        let arguments = Ok(arguments(rt.alloc(), command).ok_or("no arguments")?);
        let found = end(rt.alloc(), arguments, &mut input.as_bytes(), &mut Unread);
        same(&rt, command, found, "= 0\n");
    }
    Ok(())
}

// The second read finds the end.
#[test]
fn a_failed_read_draws_nothing(rt: HostRuntime) -> Result<(), Fail> {
    for &(command, input) in &PICTURES {
        for call in 1..3 {
            let mut input = PipeReader {
                plan: Plan::odd(Odd::Fails, call),
                pipe: Pipe::holding(rt.alloc(), input.as_bytes())?,
            };
            let mut out = Vec::new(rt.alloc());
            let arguments = Ok(arguments(rt.alloc(), command).ok_or("no arguments")?);
            let found = end(rt.alloc(), arguments, &mut input, &mut out);
            same(&rt, command, found, "lcmux_chart: read failed\n= 1\n");
            same(&rt, command, String::from_utf8(out).ok(), "");
        }
    }
    Ok(())
}

#[test]
fn a_line_that_cannot_be_written_changes_no_status(rt: HostRuntime) -> Result<(), Fail> {
    let (mut out, mut no_room) = (Vec::new(rt.alloc()), [0u8; 0]);
    let status = run(
        rt.alloc(),
        Ok(arguments(rt.alloc(), "lcmux_chart frames").ok_or("no arguments")?),
        &mut STREAM.as_bytes(),
        &mut out,
        &mut no_room.as_mut_slice(),
        true,
    );
    assert!(rt; status == 2, "{status}");
    Ok(())
}
