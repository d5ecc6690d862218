//! Devices whose calls a signal may interrupt.
ghost use Rattle.std.specs.Prelude.{◌≡◌, ◌↔◌, IsTrue};
ghost use Rattle.std.specs.Io.{ReadsAtMost, WritesAtMost};
ghost use Rattle.std.specs.Io.KnownBytes.{ReadConsumes, WriteAppends, Keeps};
ghost use Rattle.lc_driver.specs.Tries.{WasInterrupted, MadeAgain};

use crate::device::{ReadDevice, WriteDevice};
use std::io;
use std::io::{ErrorKind, Read, Write};

/// Any reader or writer, each of whose calls is made again as long as a signal interrupts it.
///
/// `ErrorKind::Interrupted` says that a signal came, and nothing of the device: a process that was
/// stopped and goes on may meet it at any call. Every other answer is handed on unchanged; so is the
/// 2^64th interruption in a row, so that a call ends wherever those of the device do.
#[derive(Debug, Drop)]
pub struct Uninterrupted<T> {
    inner: T,
}

impl<T> Uninterrupted<T> {
    /// A device whose calls are made again.
    pub fn new(inner: T) -> Uninterrupted<T>
        ensures { result ≡ record { inner = inner } }
    {
        Uninterrupted { inner }
    }

    /// The device below.
    pub fn into_inner(self) -> T
    where
        T: Drop,
        ensures { result ≡ self.inner }
    {
        let Uninterrupted { inner } = self;
        inner
    }
}

// Whether a signal interrupted the call that answered this.
fn is_interrupted<A>(answer: &io::Result<A>) -> bool
    ensures { IsTrue result ↔ WasInterrupted answer.now }
{
    match answer {
        Ok(_) => false,
        Err(error) => error.kind() == ErrorKind::Interrupted,
    }
}

impl<T: ReadDevice> Read for Uninterrupted<T> {
    ghost remaining = { λ device. T.remaining device.inner };

    fn read(&mut self, buf: &mut [u8]) -> io::Result<usize>
        ensures bound { ReadsAtMost result buf.new }
        ensures bytes { ReadConsumes (T.remaining self.old.inner) (T.remaining self.new.inner) result buf.new }
        ensures again { MadeAgain T.reads (self.old.inner, buf.old) result (self.new.inner, buf.new) }
    {
        'tries: for _ in 0..u64::MAX {
            let answer = self.inner.read_once(buf);
            if !is_interrupted(&answer) {
                return answer;
            }
        }
        self.inner.read_once(buf)
    }
}

impl<T: WriteDevice> Write for Uninterrupted<T> {
    ghost contents = { λ device. T.contents device.inner };

    fn write(&mut self, buf: &[u8]) -> io::Result<usize>
        ensures bound { WritesAtMost result buf.now }
        ensures bytes { WriteAppends (T.contents self.old.inner) (T.contents self.new.inner) result buf.now }
        ensures again { MadeAgain (T.writes buf.now) self.old.inner result self.new.inner }
    {
        'tries: for _ in 0..u64::MAX {
            let answer = self.inner.write_once(buf);
            if !is_interrupted(&answer) {
                return answer;
            }
        }
        self.inner.write_once(buf)
    }

    fn flush(&mut self) -> io::Result<()>
        ensures bytes { Keeps (T.contents self.old.inner) (T.contents self.new.inner) }
        ensures again { MadeAgain T.flushes self.old.inner result self.new.inner }
    {
        'tries: for _ in 0..u64::MAX {
            let answer = self.inner.flush_once();
            if !is_interrupted(&answer) {
                return answer;
            }
        }
        self.inner.flush_once()
    }
}
