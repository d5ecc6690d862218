//! Devices that count their calls.
ghost use Rattle.std.specs.Prelude.{◌≡◌, length, None};
ghost use Rattle.std.specs.Io.{ReadsAtMost, WritesAtMost};
ghost use Rattle.std.specs.Io.KnownBytes.{ReadConsumes, WriteAppends, Keeps};
ghost use Rattle.lc_driver.specs.declared.counts.Counts.{Counts};
ghost use Rattle.lc_driver.specs.Counts.{CountsCall, CountsFlush};

use crate::counts::Counts;
use crate::device::{ReadDevice, WriteDevice};
use std::io;
use std::io::{ErrorKind, Read, Write};

/// A device that counts. At `u64::MAX` a count stays.
pub trait Failures {
    // What was counted so far.
    ghost counts: { Self → Counts };

    /// How many reads and writes were made.
    fn calls(&self) -> u64
        ensures { result ≡ (counts self.now).calls };

    /// How many calls failed.
    fn failures(&self) -> u64
        ensures { result ≡ (counts self.now).failures };

    /// How many reads and writes, asked for at least one byte, succeeded and gave or took none.
    fn ends(&self) -> u64
        ensures { result ≡ (counts self.now).ends };

    /// Of what kind the last failure was.
    fn last_failure(&self) -> Option<ErrorKind>
        ensures { result ≡ (counts self.now).last_failure };
}

/// A reader that counts each of its reads.
pub trait CountedRead: Read + Failures {
    /// Reads as `read` does, and counts the call.
    fn read_counted(&mut self, buf: &mut [u8]) -> io::Result<usize>
        ensures bound { ReadsAtMost result buf.new }
        ensures bytes { ReadConsumes (Self.remaining self.old) (Self.remaining self.new) result buf.new }
        ensures counts { CountsCall result (length buf.old) (Self.counts self.old) (Self.counts self.new) };
}

/// A writer that counts each of its writes, and the flushes that fail.
pub trait CountedWrite: Write + Failures {
    /// Writes as `write` does, and counts the call.
    fn write_counted(&mut self, buf: &[u8]) -> io::Result<usize>
        ensures bound { WritesAtMost result buf.now }
        ensures bytes { WriteAppends (Self.contents self.old) (Self.contents self.new) result buf.now }
        ensures counts { CountsCall result (length buf.now) (Self.counts self.old) (Self.counts self.new) };

    /// Flushes as `flush` does, and counts a failure.
    fn flush_counted(&mut self) -> io::Result<()>
        ensures bytes { Keeps (Self.contents self.old) (Self.contents self.new) }
        ensures counts { CountsFlush result (Self.counts self.old) (Self.counts self.new) };
}

/// Any reader or writer, with its calls handed on unchanged and counted.
///
/// Each call makes one call of the device below and answers what that answered, which is what is
/// counted. What the device really did, its own contract says and no other.
#[derive(Debug, Drop)]
pub struct Counted<T> {
    inner: T,
    counts: Counts,
}

impl<T> Counted<T> {
    /// A device on which nothing was counted.
    pub fn new(inner: T) -> Counted<T>
        ensures { result ≡ record { inner = inner; counts = record { calls = 0; failures = 0; ends = 0; last_failure = None } } }
    {
        let counts = Counts {
            calls: 0,
            failures: 0,
            ends: 0,
            last_failure: None,
        };
        Counted { inner, counts }
    }

    /// The device that was counted.
    pub fn into_inner(self) -> T
    where
        T: Drop,
        ensures { result ≡ self.inner }
    {
        let Counted { inner, .. } = self;
        inner
    }
}

impl<T> Failures for Counted<T> {
    ghost counts = { λ device. device.counts };

    fn calls(&self) -> u64 {
        self.counts.calls
    }

    fn failures(&self) -> u64 {
        self.counts.failures
    }

    fn ends(&self) -> u64 {
        self.counts.ends
    }

    fn last_failure(&self) -> Option<ErrorKind> {
        self.counts.last_failure
    }
}

impl<T: ReadDevice> Read for Counted<T> {
    ghost remaining = { λ device. T.remaining device.inner };

    fn read(&mut self, buf: &mut [u8]) -> io::Result<usize>
        ensures bound { ReadsAtMost result buf.new }
        ensures bytes { ReadConsumes (T.remaining self.old.inner) (T.remaining self.new.inner) result buf.new }
        ensures counts { CountsCall result (length buf.old) self.old.counts self.new.counts }
        ensures reads { T.reads (self.old.inner, buf.old) result (self.new.inner, buf.new) }
    {
        self.read_counted(buf)
    }
}

impl<T: ReadDevice> CountedRead for Counted<T> {
    fn read_counted(&mut self, buf: &mut [u8]) -> io::Result<usize>
        ensures bound { ReadsAtMost result buf.new }
        ensures bytes { ReadConsumes (T.remaining self.old.inner) (T.remaining self.new.inner) result buf.new }
        ensures counts { CountsCall result (length buf.old) self.old.counts self.new.counts }
        ensures reads { T.reads (self.old.inner, buf.old) result (self.new.inner, buf.new) }
    {
        let asked = buf.len();
        let answer = self.inner.read_once(buf);
        self.counts.note_call(&answer, asked);
        answer
    }
}

impl<T: WriteDevice> Write for Counted<T> {
    ghost contents = { λ device. T.contents device.inner };

    fn write(&mut self, buf: &[u8]) -> io::Result<usize>
        ensures bound { WritesAtMost result buf.now }
        ensures bytes { WriteAppends (T.contents self.old.inner) (T.contents self.new.inner) result buf.now }
        ensures counts { CountsCall result (length buf.now) self.old.counts self.new.counts }
        ensures writes { T.writes buf.now self.old.inner result self.new.inner }
    {
        self.write_counted(buf)
    }

    fn flush(&mut self) -> io::Result<()>
        ensures bytes { Keeps (T.contents self.old.inner) (T.contents self.new.inner) }
        ensures counts { CountsFlush result self.old.counts self.new.counts }
        ensures flushes { T.flushes self.old.inner result self.new.inner }
    {
        self.flush_counted()
    }
}

impl<T: WriteDevice> CountedWrite for Counted<T> {
    fn write_counted(&mut self, buf: &[u8]) -> io::Result<usize>
        ensures bound { WritesAtMost result buf.now }
        ensures bytes { WriteAppends (T.contents self.old.inner) (T.contents self.new.inner) result buf.now }
        ensures counts { CountsCall result (length buf.now) self.old.counts self.new.counts }
        ensures writes { T.writes buf.now self.old.inner result self.new.inner }
    {
        let answer = self.inner.write_once(buf);
        self.counts.note_call(&answer, buf.len());
        answer
    }

    fn flush_counted(&mut self) -> io::Result<()>
        ensures bytes { Keeps (T.contents self.old.inner) (T.contents self.new.inner) }
        ensures counts { CountsFlush result self.old.counts self.new.counts }
        ensures flushes { T.flushes self.old.inner result self.new.inner }
    {
        let answer = self.inner.flush_once();
        match &answer {
            Ok(()) => {}
            Err(error) => self.counts.note_failure(error),
        }
        answer
    }
}
