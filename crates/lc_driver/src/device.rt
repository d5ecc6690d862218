//! What one call of a device does.
ghost use Rattle.std.specs.Prelude.{ℕ, List, Result};
ghost use Rattle.std.specs.declared.io.Error.{Error};
ghost use Rattle.std.specs.Io.{ReadsAtMost, WritesAtMost};
ghost use Rattle.std.specs.Io.KnownBytes.{ReadConsumes, WriteAppends, Keeps};

use std::io;
use std::io::{Read, Write};

/// A reader, and a relation that says what one read of it does. Every `Read` is one.
///
/// Code that is generic over it knows nothing of the relation but that each read keeps it. So where a
/// contract ensures the relation of an answer, that is the answer of one read of this very device.
pub trait ReadDevice: Read {
    // What a read may answer in this state with these bytes to fill, and which state and bytes it leaves.
    ghost reads: { Self × List ℕ → Result ℕ Error → Self × List ℕ → Type 0 };

    /// Reads once, as `read` does.
    fn read_once(&mut self, buf: &mut [u8]) -> io::Result<usize>
        ensures bound { ReadsAtMost result buf.new }
        ensures bytes { ReadConsumes (Self.remaining self.old) (Self.remaining self.new) result buf.new }
        ensures reads { reads (self.old, buf.old) result (self.new, buf.new) };
}

impl<T: Read> ReadDevice for T {
    ghost reads = { λ old answer new. ReadsAtMost answer new.1 × ReadConsumes (T.remaining old.0) (T.remaining new.0) answer new.1 };

    fn read_once(&mut self, buf: &mut [u8]) -> io::Result<usize> {
        self.read(buf)
    }
}

/// A writer, and relations that say what one write and one flush of it do, as of a [`ReadDevice`].
/// Every `Write` is one.
pub trait WriteDevice: Write {
    // What a write of these bytes may answer in this state, and which state it leaves.
    ghost writes: { List ℕ → Self → Result ℕ Error → Self → Type 0 };

    // The same of a flush.
    ghost flushes: { Self → Result (Unit {0}) Error → Self → Type 0 };

    /// Writes once, as `write` does.
    fn write_once(&mut self, buf: &[u8]) -> io::Result<usize>
        ensures bound { WritesAtMost result buf.now }
        ensures bytes { WriteAppends (Self.contents self.old) (Self.contents self.new) result buf.now }
        ensures writes { writes buf.now self.old result self.new };

    /// Flushes once, as `flush` does.
    fn flush_once(&mut self) -> io::Result<()>
        ensures bytes { Keeps (Self.contents self.old) (Self.contents self.new) }
        ensures flushes { flushes self.old result self.new };
}

impl<T: Write> WriteDevice for T {
    ghost writes = { λ bytes old answer new. WritesAtMost answer bytes × WriteAppends (T.contents old) (T.contents new) answer bytes };

    ghost flushes = { λ old _ new. Keeps (T.contents old) (T.contents new) };

    fn write_once(&mut self, buf: &[u8]) -> io::Result<usize> {
        self.write(buf)
    }

    fn flush_once(&mut self) -> io::Result<()> {
        self.flush()
    }
}
