//! One side of a session with its pipes.
use lc_driver::{Counted, Link, ReadEnd, Uninterrupted, WriteFault};
use lc_frame::{CHANNELS, Version};
use lc_peer::{Config, PeerFault};
use std::alloc::Global;
use std::io;
use std::io::{ErrorKind, Read, Write};
use test_devices::{Odd, Pipe, PipeReader, PipeWriter, Plan};

/// A device that says of each failure of the one below that it was of this kind.
#[derive(Drop)]
struct Failing<D> {
    device: D,
    kind: ErrorKind,
}

impl<D: Read> Read for Failing<D> {
    fn read(&mut self, buf: &mut [u8]) -> io::Result<usize> {
        let Ok(count) = self.device.read(buf) else {
            return Err(io::Error::from(self.kind));
        };
        Ok(count)
    }
}

impl<D: Write> Write for Failing<D> {
    fn write(&mut self, buf: &[u8]) -> io::Result<usize> {
        let Ok(count) = self.device.write(buf) else {
            return Err(io::Error::from(self.kind));
        };
        Ok(count)
    }

    fn flush(&mut self) -> io::Result<()> {
        let Ok(()) = self.device.flush() else {
            return Err(io::Error::from(self.kind));
        };
        Ok(())
    }
}

/// One side of a session, with how its devices fail.
#[derive(Drop)]
pub struct FailingLink {
    pub link: Link,
    pub kind: ErrorKind,
}

impl FailingLink {
    /// A side on which nothing has happened, which writes this version.
    pub fn new(
        alloc: Global,
        version: Version,
        capacity: u32,
        slots: u32,
    ) -> Result<FailingLink, PeerFault> {
        let config = Config {
            version,
            capacities: [capacity; CHANNELS],
            slots,
        };
        Ok(FailingLink {
            link: Link::new(alloc, config)?,
            kind: ErrorKind::Other,
        })
    }

    /// Writes what waits into the pipe.
    pub fn write(&mut self, plan: Plan, pipe: Pipe) -> (Result<u64, WriteFault>, PipeWriter) {
        let mut writer = uninterrupted(unflushed(plan, pipe), self.kind);
        let answer = self.link.write_out(&mut writer);
        (answer, writer.into_inner().into_inner().device)
    }

    /// Reads what is in the pipe.
    pub fn read(&mut self, plan: Plan, pipe: Pipe, max_reads: u64) -> (ReadEnd, PipeReader) {
        let mut reader = uninterrupted(PipeReader { plan, pipe }, self.kind);
        let end = self.link.read_in(&mut reader, max_reads);
        (end, reader.into_inner().into_inner().device)
    }
}

// A device that fails so, and is asked again where a signal interrupted it.
fn uninterrupted<D>(device: D, kind: ErrorKind) -> Counted<Uninterrupted<Failing<D>>> {
    Counted::new(Uninterrupted::new(Failing { device, kind }))
}

/// A writer whose first flush fails: no writing flushes.
pub fn unflushed(plan: Plan, pipe: Pipe) -> PipeWriter {
    PipeWriter {
        flushes: Plan::odd(Odd::Fails, 1),
        ..PipeWriter::new(plan, pipe)
    }
}
