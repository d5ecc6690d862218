//! A network whose streams are metered as they are read.
use crate::progress::{Meter, bytes_of};
use lc_loopback::{LoopFault, LoopReport, loopback};
use std::alloc::{AllocError, Global};
use std::io;
use std::io::{Read, Stderr, Write};
use std::net::{Net, OpenListener, OpenStream, SocketAddr, TcpListener, TcpStream};
use std::os::fd::{AsRawFd, RawFd};
use std::sync::{Arc, Wait};
use std::thread::Threads;
use std::time::Clock;

/// A network with a meter.
#[derive(Drop)]
pub struct Watched<R> {
    net: R,
    meter: Arc<Meter<R>, Global>,
}

/// A stream of such a network.
#[derive(Drop)]
pub struct Stream<R> {
    stream: TcpStream,
    meter: Arc<Meter<R>, Global>,
}

/// A listener of such a network.
#[derive(Drop)]
pub struct Listener<R> {
    listener: TcpListener,
    meter: Arc<Meter<R>, Global>,
}

/// Exchanges messages as `loopback` does, and shows on standard error, which is a terminal, how far that
/// is.
pub fn watched_loopback<R>(
    rt: R,
    err: Stderr,
    alloc: Global,
    count: u32,
) -> Result<LoopReport, LoopFault>
where
    R: Net<Listener = TcpListener, Stream = TcpStream>
        + Threads
        + Wait
        + Clock
        + Copy
        + Send
        + Sync
        + Drop
        + 'static,
{
    let Ok(meter) = Arc::new(alloc, Meter::new(rt, err, bytes_of(count))) else {
        return Err(LoopFault::OutOfMemory);
    };
    let Ok(shared) = Arc::try_clone(&meter) else {
        return Err(LoopFault::OutOfMemory);
    };
    let net = Watched {
        net: rt,
        meter: shared,
    };
    let answer = loopback(&net, rt, alloc, count);
    meter.clear();
    answer
}

impl<R> Net for Watched<R>
where
    R: Net<Listener = TcpListener, Stream = TcpStream> + Clock + Drop,
{
    type Stream = Stream<R>;

    type Listener = Listener<R>;

    fn bind(&self, addr: SocketAddr) -> io::Result<Listener<R>> {
        Ok(Listener {
            listener: self.net.bind(addr)?,
            meter: Arc::try_clone(&self.meter)?,
        })
    }

    fn connect(&self, addr: SocketAddr) -> io::Result<Stream<R>> {
        Ok(Stream {
            stream: self.net.connect(addr)?,
            meter: Arc::try_clone(&self.meter)?,
        })
    }
}

impl<R: Clock + Drop> OpenListener for Listener<R> {
    type Stream = Stream<R>;

    fn accept(&self) -> io::Result<(Stream<R>, SocketAddr)> {
        let (stream, from) = self.listener.accept()?;
        let meter = Arc::try_clone(&self.meter)?;
        Ok((Stream { stream, meter }, from))
    }

    fn local_addr(&self) -> io::Result<SocketAddr> {
        self.listener.local_addr()
    }
}

impl<R: Clock + Drop> AsRawFd for Listener<R> {
    fn as_raw_fd(&self) -> RawFd {
        self.listener.as_raw_fd()
    }
}

impl<R: Clock + Drop> OpenStream for Stream<R> {
    fn local_addr(&self) -> io::Result<SocketAddr> {
        self.stream.local_addr()
    }

    fn set_nodelay(&self, nodelay: bool) -> io::Result<()> {
        self.stream.set_nodelay(nodelay)
    }
}

impl<R: Clock + Drop> AsRawFd for Stream<R> {
    fn as_raw_fd(&self) -> RawFd {
        self.stream.as_raw_fd()
    }
}

impl<R: Clock> Read for Stream<R> {
    fn read(&mut self, buf: &mut [u8]) -> io::Result<usize> {
        let count = self.stream.read(buf)?;
        self.meter.add(count);
        Ok(count)
    }
}

impl<R: Clock> Write for Stream<R> {
    fn write(&mut self, buf: &[u8]) -> io::Result<usize> {
        self.stream.write(buf)
    }

    fn flush(&mut self) -> io::Result<()> {
        self.stream.flush()
    }
}
