//! Readers and writers over a pipe in memory, which give and take as much as a plan says.
ghost use Rattle.std.specs.Prelude.{◌≤◌, IfOk};

use std::alloc::{AllocError, Global};
use std::io;
use std::io::{ErrorKind, Read, Write};

/// What a device does at one of its calls: it fails, or moves so many bytes at most.
#[derive(Clone, Copy)]
pub enum Odd {
    Fails,
    Moves(usize),
}

/// How many bytes a call moves at most, and what happens at one call, counted from 1.
#[derive(Clone, Copy)]
pub struct Plan {
    pub most: usize,
    pub odd: Odd,
    pub at: u64,
    pub calls: u64,
}

impl Plan {
    /// A device that moves all that it can.
    pub fn whole() -> Plan {
        Plan::odd(Odd::Fails, 0)
    }

    /// A device that moves all that it can, but for one call.
    pub fn odd(odd: Odd, at: u64) -> Plan {
        Plan {
            most: usize::MAX,
            odd,
            at,
            calls: 0,
        }
    }

    // How many of so many bytes the next call moves.
    fn next(&mut self, asked: usize) -> io::Result<usize>
        ensures { IfOk result (λ n. n ≤ asked) }
    {
        self.calls = self.calls.saturating_add(1);
        if self.calls != self.at {
            return Ok(asked.min(self.most));
        }
        match self.odd {
            Odd::Fails => Err(io::Error::from(ErrorKind::Other)),
            Odd::Moves(most) => Ok(asked.min(most)),
        }
    }
}

/// Bytes that were written and not yet read.
#[derive(Drop)]
pub struct Pipe {
    pub bytes: Vec<u8>,
    pub read: usize,
}

impl Pipe {
    /// A pipe in which these bytes wait.
    pub fn of(bytes: Vec<u8>) -> Pipe {
        Pipe { bytes, read: 0 }
    }

    /// The same, of a copy of them.
    pub fn holding(alloc: Global, bytes: &[u8]) -> Result<Pipe, AllocError> {
        Ok(Pipe::of(Vec::from_slice(alloc, bytes)?))
    }
}

/// The writing end of a pipe.
#[derive(Drop)]
pub struct PipeWriter {
    pub plan: Plan,
    /// What its flushes do, which move no bytes.
    pub flushes: Plan,
    pub pipe: Pipe,
}

impl PipeWriter {
    /// One whose flushes do not fail.
    pub fn new(plan: Plan, pipe: Pipe) -> PipeWriter {
        PipeWriter {
            plan,
            flushes: Plan::whole(),
            pipe,
        }
    }
}

impl Write for PipeWriter {
    fn write(&mut self, buf: &[u8]) -> io::Result<usize> {
        let count = self.plan.next(buf.len())?;
        self.pipe.bytes.extend_from_slice(&buf[..count])?;
        Ok(count)
    }

    fn flush(&mut self) -> io::Result<()> {
        self.flushes.next(0)?;
        Ok(())
    }
}

/// The reading end of a pipe.
#[derive(Drop)]
pub struct PipeReader {
    pub plan: Plan,
    pub pipe: Pipe,
}

impl Read for PipeReader {
    fn read(&mut self, buf: &mut [u8]) -> io::Result<usize> {
        let count = self.plan.next(buf.len())?;
        let mut rest = self.pipe.bytes.get(self.pipe.read..).unwrap_or(&[]);
        let given = rest.read(&mut buf[..count])?;
        self.pipe.read = self.pipe.read.saturating_add(given);
        Ok(given)
    }
}
