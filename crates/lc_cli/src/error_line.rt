//! The line on standard error, which a terminal shows in colours.
ghost use Rattle.std.specs.Prelude.{◌≡◌, OnOk, true, false};
ghost use Rattle.std.specs.Io.KnownBytes.{Appends};

use std::alloc::Alloc;
use std::env::{Env, VarError};
use std::io::Write;
use std::{env, io};

// Room for the longest line: the usage is shorter, and so is a fault with its largest numbers.
const ROOM: usize = 256;

const RED: &[u8] = b"\x1b[1;31m";

const PLAIN: &[u8] = b"\x1b[0m";

/// A writer that keeps the line of a fault until it is whole. Bytes beyond its room are left out.
#[derive(Drop)]
pub struct ErrorLine {
    bytes: [u8; ROOM],
    length: usize,
}

impl ErrorLine {
    /// No line.
    pub fn new() -> ErrorLine {
        ErrorLine {
            bytes: [0; ROOM],
            length: 0,
        }
    }

    /// Writes the line, if there is one, with its first word in red where that is asked for. A line that
    /// cannot be written changes nothing.
    pub fn show<E: Write>(&self, is_coloured: bool, err: &mut E) {
        let line = &self.bytes[..self.length.min(ROOM)];
        let _ = write_line(line, is_coloured, err);
    }
}

impl Write for ErrorLine {
    fn write(&mut self, buf: &[u8]) -> io::Result<usize> {
        for byte in buf {
            if self.length < ROOM {
                self.bytes[self.length] = *byte;
                self.length += 1;
            }
        }
        Ok(buf.len())
    }

    fn flush(&mut self) -> io::Result<()> {
        Ok(())
    }
}

/// Writes a line of standard error. Where it is coloured, the program's name, up to the first colon, is
/// red.
pub fn write_line<E: Write>(line: &[u8], is_coloured: bool, err: &mut E) -> io::Result<()>
    ensures plain { is_coloured ≡ false → OnOk result (Appends (E.contents err.old) (E.contents err.new) line.now) }
{
    match line.iter().position(|byte| *byte == b':') {
        Some(colon) if is_coloured => {
            let (name, rest) = line.split_at(colon + 1);
            err.write_all(RED)?;
            err.write_all(name)?;
            err.write_all(PLAIN)?;
            err.write_all(rest)
        }
        _ => err.write_all(line),
    }
}

/// Whether lines on standard error are coloured: on a terminal that is not dumb by the variable `TERM`,
/// unless `NO_COLOR` is set to any text.
pub fn has_colours<R: Env + Alloc>(rt: &R, is_terminal: bool) -> bool
    ensures { result ≡ true → is_terminal ≡ true }
{
    is_terminal && is_empty(rt, "NO_COLOR") && !is_dumb(rt)
}

fn is_empty<R: Env + Alloc>(rt: &R, name: &str) -> bool {
    match env::var(rt, name) {
        Ok(value) => value.is_empty(),
        Err(error) => error == VarError::NotPresent,
    }
}

fn is_dumb<R: Env + Alloc>(rt: &R) -> bool {
    match env::var(rt, "TERM") {
        Ok(value) => value.as_str() == "dumb",
        Err(_) => false,
    }
}
