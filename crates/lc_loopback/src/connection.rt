//! The connections between both sessions.
use lc_loopback_report::LoopFault;
use std::alloc::Global;
use std::io;
use std::io::{BufReader, ErrorKind};
use std::net::{Ipv4Addr, Net, OpenListener, OpenStream, TcpListener, TcpStream};

/// The bytes that a reader has room to read ahead. A pump asks for 4,096 at a time, so that one call of
/// the system then serves 16 of its reads.
const READ_AHEAD: usize = 65_536;

/// Both ends of a connection that goes one way. Nothing is ever written back on it: a writer that
/// goes with bytes unread would make the reader lose the end of the stream.
#[derive(Drop)]
pub(crate) struct Wire<O, I> {
    pub(crate) writer: O,
    pub(crate) reader: I,
}

/// A connection each way.
#[derive(Drop)]
pub(crate) struct Wires<O, I> {
    pub(crate) a_to_b: Wire<O, I>,
    pub(crate) b_to_a: Wire<O, I>,
}

/// A stream of the network that is written, and one that is read ahead.
pub(crate) type NetWires<S> = Wires<S, BufReader<S>>;

// A new connection over loopback, at a port that the system chooses.
fn connect<N: Net>(net: &N) -> io::Result<Wire<N::Stream, N::Stream>> {
    let listener = TcpListener::bind(net, (Ipv4Addr::LOCALHOST, 0u16))?;
    let writer = TcpStream::connect(net, listener.local_addr()?)?;
    // Small writes go out at once.
    writer.set_nodelay(true)?;
    let (reader, from) = listener.accept()?;
    if from != writer.local_addr()? {
        return Err(io::Error::from(ErrorKind::ConnectionRefused));
    }
    Ok(Wire { writer, reader })
}

// A new connection whose reader reads ahead.
fn connect_ahead<N: Net>(
    net: &N,
    alloc: Global,
) -> Result<Wire<N::Stream, BufReader<N::Stream>>, LoopFault> {
    let Ok(Wire { writer, reader }) = connect(net) else {
        return Err(LoopFault::Device);
    };
    match BufReader::with_capacity(alloc, READ_AHEAD, reader) {
        Ok(reader) => Ok(Wire { writer, reader }),
        Err(_) => Err(LoopFault::OutOfMemory),
    }
}

/// A new connection each way.
pub(crate) fn connect_both<N: Net>(
    net: &N,
    alloc: Global,
) -> Result<NetWires<N::Stream>, LoopFault> {
    Ok(Wires {
        a_to_b: connect_ahead(net, alloc)?,
        b_to_a: connect_ahead(net, alloc)?,
    })
}
