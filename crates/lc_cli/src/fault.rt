//! Why a run of the program fails: its line on standard error and its status.
ghost use Rattle.std.specs.Prelude.{◌≡◌};
ghost use Rattle.std.specs.IoError.{error_kind};
ghost use Rattle.std.specs.declared.io.ErrorKind.TheVariants as kind;
ghost use Rattle.lc_cli.specs.declared.fault.Status.TheVariants.{Unread};
ghost use Rattle.lc_cli.specs.declared.fault.Fault.TheVariants.{BrokenPipe, OutOfMemory, WriteFailed};
ghost use Rattle.lc_cli.specs.Fault.{IsOfWriting, code_of, status_of};

use crate::words::word_of;
use lc_frame::OutOfRange;
use std::alloc::{AllocError, AllocFailed};
use std::fmt::{Display, Formatter};
use std::io::{ErrorKind, Write};
use std::{fmt, io};
use thiserror::Error;

/// How a run of the program ended.
#[derive(Clone, Copy, Debug, PartialEq, Eq)]
pub enum Status {
    /// All was done.
    Done,
    /// Memory or a device failed.
    Failed,
    /// The arguments or the input are bad.
    Bad,
    /// The reader of the output went away before its end.
    Unread,
}

impl Status {
    /// The number that a call answers: 0 done, 1 failed, 2 bad, 3 unread.
    pub fn code(self) -> u8
        ensures { result ≡ code_of self }
    {
        self as u8
    }

    /// The exit status of a program whose call answered this number. Output that nobody reads any more,
    /// as behind `head`, is no failure of the program.
    pub fn exit_code(code: u8) -> u8
        ensures unread { code ≡ code_of Unread → result ≡ 0 }
        ensures others { ¬ code ≡ code_of Unread → result ≡ code }
    {
        if code == Status::Unread.code() {
            0
        } else {
            code
        }
    }
}

/// What is at fault in a frame. What is displayed stands behind the line that names the fault.
#[derive(Clone, Copy, Debug, PartialEq, Eq)]
pub enum Culprit {
    /// A byte that is no tag, or that differs from a greeting.
    Byte(u8),
    /// A number that is out of range.
    Number(OutOfRange),
    /// Nothing: bytes are missing.
    Unnamed,
}

impl Display for Culprit {
    fn fmt<W: fmt::Write>(&self, f: &mut Formatter<W>) -> fmt::Result {
        match self {
            Culprit::Byte(byte) => write!(f, ": 0x{byte:02x}"),
            Culprit::Number(
                OutOfRange {
                    kind,
                    channel,
                    number,
                },
            ) => write!(f, ": {} {} {number}", word_of(*kind), channel.number()),
            Culprit::Unnamed => Ok(()),
        }
    }
}

/// Why a run fails. What is displayed is the line on standard error, without the program's name.
#[derive(Clone, Copy, Debug, PartialEq, Eq, Error)]
pub enum Fault {
    #[error("usage: lcmux replay CAPACITY [2], lcmux frames, lcmux loopback N")]
    Usage,
    /// Lines are counted from 1, skipped ones too.
    #[error("line {line}: bad script line")]
    BadLine {
        line: u64,
    },
    /// A bad line of a script whose lines end with a carriage return and a line feed.
    #[error("line {line}: bad script line: it ends with a carriage return")]
    CarriageReturn {
        line: u64,
    },
    /// The fault's number, 1 to 4, the place of the first byte of the frame or the greeting, and what is at fault.
    #[error("F{number} in the frame at byte {offset}{culprit}")]
    BadFrame {
        number: u8,
        offset: usize,
        culprit: Culprit,
    },
    #[error("input too long")]
    InputTooLong,
    #[error("out of memory")]
    OutOfMemory,
    #[error("read failed")]
    ReadFailed,
    #[error("write failed")]
    WriteFailed,
    /// The reader of the output went away. The run ends without a line.
    #[error("broken pipe")]
    BrokenPipe,
    /// What two sessions exchanged failed, whatever the reason.
    #[error("loopback failed")]
    LoopbackFailed,
}

impl Fault {
    /// How a run with this fault ends.
    pub fn status(self) -> Status
        ensures { result ≡ status_of self }
    {
        match self {
            Fault::Usage
            | Fault::BadLine { .. }
            | Fault::CarriageReturn { .. }
            | Fault::BadFrame { .. }
            | Fault::InputTooLong => Status::Bad,
            Fault::OutOfMemory | Fault::ReadFailed | Fault::WriteFailed | Fault::LoopbackFailed =>
                Status::Failed,
            Fault::BrokenPipe => Status::Unread,
        }
    }

    /// Writes the fault's line, which a broken pipe does not have, and answers the number of its status.
    /// A line that cannot be written changes no status.
    pub fn report<E: Write>(self, err: &mut E) -> u8
        ensures { result ≡ code_of (status_of self) }
    {
        if self != Fault::BrokenPipe {
            let _ = writeln!(err, "lcmux: {self}");
        }
        self.status().code()
    }

    /// Why a write failed: its reader went away, or the device failed.
    pub fn of_write(error: io::Error) -> Fault
        ensures pipe { error_kind error ≡ kind.BrokenPipe → result ≡ BrokenPipe }
        ensures others { ¬ error_kind error ≡ kind.BrokenPipe → result ≡ WriteFailed }
        ensures either { IsOfWriting result }
    {
        if error.kind() == ErrorKind::BrokenPipe {
            Fault::BrokenPipe
        } else {
            Fault::WriteFailed
        }
    }
}

impl From<AllocError> for Fault {
    ghost from_gives = { λ _ fault. fault ≡ OutOfMemory };

    fn from(_error: AllocError) -> Fault {
        Fault::OutOfMemory
    }
}

impl<T: Drop> From<AllocFailed<T>> for Fault {
    ghost from_gives = { λ _ fault. fault ≡ OutOfMemory };

    fn from(_error: AllocFailed<T>) -> Fault {
        Fault::OutOfMemory
    }
}
