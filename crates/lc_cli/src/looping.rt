//! `lcmux loopback N`: what two sessions carried, one line for each channel of each side.
ghost use Rattle.std.specs.Prelude.{◌≡◌, IfErr};
ghost use Rattle.lc_cli.specs.declared.fault.Status.TheVariants.{Failed};
ghost use Rattle.lc_cli.specs.Fault.{code_of};

use crate::fault::{Fault, Status};
use crate::output::buffered;
use lc_frame::CHANNELS;
use lc_loopback_report::{LoopFault, LoopReport};
use std::alloc::Global;
use std::io;
use std::io::Write;

/// Prints what two sessions carried to `out`, or the line of a failure to `err`, and answers the
/// number of the status.
pub fn print_loopback<W: Write, E: Write>(
    alloc: Global,
    answer: Result<LoopReport, LoopFault>,
    out: &mut W,
    err: &mut E,
) -> u8
    ensures failed { IfErr answer (λ fault. (out.new ≡ out.old) × (result ≡ code_of Failed)) }
{
    let report = match answer {
        Ok(report) => report,
        Err(_) => return Fault::LoopbackFailed.report(err),
    };
    match print_report(alloc, &report, out) {
        Ok(()) => Status::Done.code(),
        Err(fault) => fault.report(err),
    }
}

fn print_report<W: Write>(alloc: Global, report: &LoopReport, out: &mut W) -> Result<(), Fault> {
    let mut buffered = buffered(alloc, out)?;
    let written = write_report(report, &mut buffered);
    // A writer that is dropped would try once more to write what a failed write left.
    let _ = buffered.into_parts();
    written.map_err(Fault::of_write)
}

fn write_report<W: Write>(report: &LoopReport, out: &mut W) -> io::Result<()> {
    write_side('A', &report.messages[0], &report.bytes[0], out)?;
    write_side('B', &report.messages[1], &report.bytes[1], out)?;
    if report.balanced {
        out.write_all(b"balanced\n")?;
    }
    out.flush()
}

// The lines of a side as client: what the other side took.
fn write_side<W: Write>(
    side: char,
    messages: &[u64; CHANNELS],
    bytes: &[u64; CHANNELS],
    out: &mut W,
) -> io::Result<()> {
    for channel in 0..CHANNELS {
        let (messages, bytes) = (messages[channel], bytes[channel]);
        writeln!(out, "{side} {channel} messages {messages} bytes {bytes}")?;
    }
    Ok(())
}
