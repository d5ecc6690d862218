//! The line of each answer.
ghost use Rattle.std.specs.Prelude.{◌≡◌, [], ◌∷◌, ◌++◌, OnOk, codes};
ghost use Rattle.std.specs.Io.KnownBytes.{Appends};
ghost use Rattle.std.specs.Fmt.{decimal};
ghost use Rattle.lc_book.specs.Fault.{refusal_number, detail_of, violation_number};
ghost use Rattle.lc_cli.specs.Lines.{answer_line, delivered_line, refused_line};

use crate::output::{write_decimal, write_hex_line};
use lc_world::{Answer, Detail, Refusal, Violation};
use std::io;
use std::io::Write;

/// Writes the answer's line, with its line feed. Takes no memory.
pub fn write_answer<W: Write>(answer: &Answer, out: &mut W) -> io::Result<()>
    ensures { OnOk result (Appends (W.contents out.old) (W.contents out.new) (answer_line answer.now)) }
{
    match answer {
        Answer::Accepted => out.write_all(b"ok\n"),
        Answer::Absolved(amount) => write_numbered(b"absolved ", u64::from(*amount), out),
        Answer::NothingToAbsolve => out.write_all(b"nothing to absolve\n"),
        Answer::Arrived => out.write_all(b"arrived\n"),
        Answer::Delivered { bytes, frames } => { write_delivered(*bytes, *frames, out) }
        Answer::NothingInFlight => out.write_all(b"nothing in flight\n"),
        Answer::Violated(violation) => write_violation(*violation, out),
        Answer::Took(body) => {
            out.write_all(b"took ")?;
            write_hex_line(body.as_slice(), out)
        }
        Answer::Empty => out.write_all(b"empty\n"),
        Answer::Ended => out.write_all(b"ended\n"),
        Answer::Refused(refusal) => write_refusal(*refusal, out),
    }
}

fn write_delivered<W: Write>(bytes: u64, frames: u64, out: &mut W) -> io::Result<()>
    ensures { OnOk result (Appends (W.contents out.old) (W.contents out.new) (delivered_line bytes frames)) }
{
    out.write_all(b"delivered ")?;
    write_decimal(bytes, out)?;
    out.write_all(b" bytes ")?;
    write_decimal(frames, out)?;
    out.write_all(b" frames\n")
}

fn write_violation<W: Write>(violation: Violation, out: &mut W) -> io::Result<()>
    ensures { OnOk result (Appends (W.contents out.old) (W.contents out.new)
        (codes "violation V" ++ (decimal (violation_number violation) ++ (10 ∷ [])))) }
{
    let number = u64::from(violation.number());
    write_numbered(b"violation V", number, out)
}

fn write_refusal<W: Write>(refusal: Refusal, out: &mut W) -> io::Result<()>
    ensures { OnOk result (Appends (W.contents out.old) (W.contents out.new)
        (refused_line (refusal_number refusal) (detail_of refusal))) }
{
    let number = u64::from(refusal.number());
    match refusal.detail() {
        Some(Detail { name, value }) => {
            out.write_all(b"refused ")?;
            write_decimal(number, out)?;
            out.write_all(b" ")?;
            out.write_all(name.as_bytes())?;
            write_numbered(b" ", value, out)
        }
        None => write_numbered(b"refused ", number, out),
    }
}

// Writes the words, the number behind them, and a line feed.
fn write_numbered<W: Write>(words: &[u8], number: u64, out: &mut W) -> io::Result<()>
    ensures { OnOk result (Appends (W.contents out.old) (W.contents out.new)
        (words.now ++ (decimal number ++ (10 ∷ [])))) }
{
    out.write_all(words)?;
    write_decimal(number, out)?;
    out.write_all(b"\n")
}
