//! A network over loopback in which one call goes wrong.
ghost use Rattle.std.specs.Prelude.{◌≤◌, IfOk, length};

use std::alloc::{AllocError, Global};
use std::io;
use std::io::{ErrorKind, Read, Write};
use std::net::{Net, OpenListener, OpenStream, SocketAddr, TcpListener, TcpStream};
use std::os::fd::{AsRawFd, RawFd};
use std::sync::Arc;
use std::sync::atomic::{AtomicU64, Ordering};
use std::time::Duration;

/// What goes wrong.
#[derive(Clone, Copy, PartialEq, Eq)]
pub enum Trouble {
    /// A call that sets a connection up fails.
    Refuses,
    /// Someone else connects first, and passes on what is written.
    Stranger,
    /// A read fails.
    FailsToRead,
    /// A write fails.
    FailsToWrite,
    /// A signal interrupts a read.
    InterruptsRead,
    /// A signal interrupts a write.
    InterruptsWrite,
    /// A write takes nothing.
    TakesNothing,
    /// This write and all later ones pass nothing on.
    Silences,
    /// A read says that the stream has ended.
    Ends,
    /// A write that begins with a message of more bytes changes this one of them, counted from 0.
    Changes(usize),
    /// A write that begins with a greeting changes its last byte.
    Misgreets,
    /// A message more comes, late, between the last one of a channel and its Finish.
    Adds,
}

// The calls that may be in trouble.
#[derive(Drop)]
struct Calls {
    trouble: Trouble,
    at: u64,
    made: AtomicU64,
}

impl Calls {
    // Counts a call that may be in this trouble. Whether it is the one.
    fn meets(&self, trouble: Trouble) -> bool {
        self.trouble == trouble
            && self.made.fetch_add(1, Ordering::SeqCst) == self.at.wrapping_sub(1)
    }

    // Counts a write. Whether no more of them is passed on.
    fn silence(&self) -> bool {
        self.trouble == Trouble::Silences
            && self.made.fetch_add(1, Ordering::SeqCst) >= self.at.wrapping_sub(1)
    }

    // Fails a call that may be in this trouble, if it is the one.
    fn fail(&self, trouble: Trouble, kind: ErrorKind) -> io::Result<()> {
        if self.meets(trouble) {
            return Err(io::Error::from(kind));
        }
        Ok(())
    }

    fn set_up(&self) -> io::Result<()> {
        self.fail(Trouble::Refuses, ErrorKind::Other)
    }

    // The place of the byte that a write of these frames changes, if it is the one.
    fn change(&self, frames: &[u8]) -> Option<usize> {
        let place = match (self.trouble, frames) {
            (Trouble::Changes(byte), [0x10..=0x16, high, low, ..])
                if byte < usize::from(u16::from_be_bytes([*high, *low])) => { 3 + byte }
            (Trouble::Misgreets, [0x4c, 0x43, 0x4d, _, ..]) => 3,
            _ => return None,
        };
        self.meets(self.trouble).then_some(place)
    }
}

/// A network in trouble at one call, counted from 1 among those that may be.
#[derive(Drop)]
pub struct Troubled<R> {
    net: R,
    calls: Arc<Calls, Global>,
}

impl<R> Troubled<R> {
    /// The network `net`, in this trouble at that call.
    pub fn new(alloc: Global, net: R, trouble: Trouble, at: u64) -> Result<Troubled<R>, AllocError>
    where
        R: Drop,
    {
        let made = AtomicU64::new(0);
        let calls = Arc::new(alloc, Calls { trouble, at, made })?;
        Ok(Troubled { net, calls })
    }
}

/// A stream of such a network.
#[derive(Drop)]
pub struct Stream {
    stream: TcpStream,
    // The address of its own connection, where it writes to a stranger's.
    own: Option<SocketAddr>,
    calls: Arc<Calls, Global>,
}

impl Stream {
    // Writes frames, of which one may be changed.
    fn write_frames(&mut self, frames: &[u8]) -> io::Result<usize>
        ensures { IfOk result (λ n. n ≤ length frames.now) }
    {
        let place = self.calls.change(frames);
        match place.and_then(|place| frames.split_at_checked(place)) {
            Some((before, [byte, after @ ..])) => {
                self.stream.write_all(before)?;
                self.stream.write_all(&[!*byte])?;
                self.stream.write_all(after)?;
                Ok(frames.len())
            }
            _ => self.stream.write(frames),
        }
    }

    // Writes a Finish. Where that is the trouble, a message of one byte comes before it, once whoever
    // does not wait for the end has gone.
    fn write_finish(&mut self, tag: u8) -> io::Result<usize>
        ensures { IfOk result (λ n. n ≤ 1) }
    {
        if self.calls.meets(Trouble::Adds) {
            let pause = Duration::from_millis(10);
            self.stream.set_read_timeout(Some(pause))?;
            // Nothing is ever written back.
            let _paused = self.stream.read(&mut [0]);
            self.stream.write_all(&[tag ^ 0x60, 0, 0, 0, 1, 0xff])?;
        }
        self.stream.write(&[tag])
    }
}

/// A listener of such a network.
#[derive(Drop)]
pub struct Listener {
    listener: TcpListener,
    calls: Arc<Calls, Global>,
}

impl<R: Net<Listener = TcpListener, Stream = TcpStream>> Net for Troubled<R> {
    type Stream = Stream;

    type Listener = Listener;

    fn bind(&self, addr: SocketAddr) -> io::Result<Listener> {
        self.calls.set_up()?;
        Ok(Listener {
            listener: self.net.bind(addr)?,
            calls: Arc::try_clone(&self.calls)?,
        })
    }

    fn connect(&self, addr: SocketAddr) -> io::Result<Stream> {
        self.calls.set_up()?;
        let calls = Arc::try_clone(&self.calls)?;
        let stream = self.net.connect(addr)?;
        let own = if calls.meets(Trouble::Stranger) {
            Some(self.net.connect(addr)?.local_addr()?)
        } else {
            None
        };
        Ok(Stream { stream, own, calls })
    }
}

impl OpenListener for Listener {
    type Stream = Stream;

    fn accept(&self) -> io::Result<(Stream, SocketAddr)> {
        self.calls.set_up()?;
        let calls = Arc::try_clone(&self.calls)?;
        let (stream, from) = self.listener.accept()?;
        let own = None;
        Ok((Stream { stream, own, calls }, from))
    }

    fn local_addr(&self) -> io::Result<SocketAddr> {
        self.calls.set_up()?;
        self.listener.local_addr()
    }
}

impl AsRawFd for Listener {
    fn as_raw_fd(&self) -> RawFd {
        self.listener.as_raw_fd()
    }
}

impl OpenStream for Stream {
    fn local_addr(&self) -> io::Result<SocketAddr> {
        self.calls.set_up()?;
        match self.own {
            Some(own) => Ok(own),
            None => self.stream.local_addr(),
        }
    }

    fn set_nodelay(&self, nodelay: bool) -> io::Result<()> {
        self.calls.set_up()?;
        self.stream.set_nodelay(nodelay)
    }
}

impl AsRawFd for Stream {
    fn as_raw_fd(&self) -> RawFd {
        self.stream.as_raw_fd()
    }
}

impl Read for Stream {
    fn read(&mut self, buf: &mut [u8]) -> io::Result<usize> {
        self.calls.fail(Trouble::FailsToRead, ErrorKind::Other)?;
        self.calls
            .fail(Trouble::InterruptsRead, ErrorKind::Interrupted)?;
        if self.calls.meets(Trouble::Ends) {
            return Ok(0);
        }
        self.stream.read(buf)
    }
}

// Whether this is the tag of a Finish. In streams of less than 112 messages no other byte is one.
fn is_finish(byte: u8) -> bool {
    matches!(byte, 0x70..=0x76)
}

impl Write for Stream {
    // A Finish is written by itself.
    fn write(&mut self, buf: &[u8]) -> io::Result<usize> {
        self.calls.fail(Trouble::FailsToWrite, ErrorKind::Other)?;
        self.calls
            .fail(Trouble::InterruptsWrite, ErrorKind::Interrupted)?;
        if self.calls.meets(Trouble::TakesNothing) {
            return Ok(0);
        }
        if self.calls.silence() {
            return Ok(buf.len());
        }
        match buf.iter().position(|byte| is_finish(*byte)) {
            Some(0) => self.write_finish(buf[0]),
            Some(place) => self.write_frames(&buf[..place]),
            None => self.write_frames(buf),
        }
    }

    fn flush(&mut self) -> io::Result<()> {
        Ok(())
    }
}
