//! How long a side waits for the other.
use std::io;
use std::io::{ErrorKind, Read, Write};
use std::net::{TcpListener, TcpStream};
use std::sync::Wait;
use std::thread::sleep;
use std::time::{Clock, Duration, Instant};

/// How many seconds the other side may be silent, or read nothing.
const SILENCE: u64 = 30;

/// How many seconds it may take to connect, and then to do its part of the exchange.
const PATIENCE: u64 = 120;

/// How many milliseconds pass between two looks for a process that connects.
const LOOK: u64 = 20;

/// When patience ends.
#[derive(Clone, Copy)]
pub struct Deadline {
    start: Instant,
}

impl Deadline {
    /// Patience begins now.
    pub fn new(clock: &impl Clock) -> io::Result<Deadline> {
        let start = Instant::now(clock)?;
        Ok(Deadline { start })
    }

    // How long a call may take. The error is that patience has ended.
    fn left(self, clock: &impl Clock) -> io::Result<Duration> {
        let passed = self.start.elapsed(clock)?;
        let left = Duration::from_secs(PATIENCE).saturating_sub(passed);
        if left.is_zero() {
            return Err(io::Error::from(ErrorKind::TimedOut));
        }
        Ok(left.min(Duration::from_secs(SILENCE)))
    }
}

/// Waits for one other process, as long as patience lasts.
pub fn accept<R: Clock + Wait>(rt: &R, listener: &TcpListener) -> io::Result<TcpStream> {
    let deadline = Deadline::new(rt)?;
    listener.set_nonblocking(true)?;
    for _ in rt.forever() {
        match listener.accept() {
            Ok((socket, _)) => return Ok(socket),
            Err(error) if error.kind() == ErrorKind::WouldBlock => {}
            Err(error) => return Err(error),
        }
        deadline.left(rt)?;
        sleep(rt, Duration::from_millis(LOOK));
    }
    unreachable!()
}

/// A socket whose reads and writes end with patience.
#[derive(Drop)]
pub struct Patient<'a, R> {
    pub rt: &'a R,
    pub socket: &'a TcpStream,
    pub deadline: Deadline,
}

impl<R: Clock> Read for Patient<'_, R> {
    fn read(&mut self, buf: &mut [u8]) -> io::Result<usize> {
        let left = self.deadline.left(self.rt)?;
        self.socket.set_read_timeout(Some(left))?;
        self.socket.read(buf)
    }
}

impl<R: Clock> Write for Patient<'_, R> {
    fn write(&mut self, buf: &[u8]) -> io::Result<usize> {
        let left = self.deadline.left(self.rt)?;
        self.socket.set_write_timeout(Some(left))?;
        self.socket.write(buf)
    }

    fn flush(&mut self) -> io::Result<()> {
        self.socket.flush()
    }
}
