//! Connections over sockets, and pumps that write to one and read from another.
use crate::tests::equal;
use crate::tests::sides::Pumps;
use lc_driver::{Counted, ReadEnd};
use lc_session::{ReadPump, WriteEnd, WritePump};
use std::alloc::Global;
use std::io;
use std::io::BufWriter;
use std::net::{Ipv4Addr, Net, TcpListener, TcpStream};
use std::process::Abort;
use std::sync::Wait;
use std::thread::{Threads, join};

/// The writer and the reader of a new connection.
pub fn connection<R>(rt: &R) -> io::Result<(TcpStream, TcpStream)>
where
    R: Net<Listener = TcpListener, Stream = TcpStream>,
{
    let listener = TcpListener::bind(rt, (Ipv4Addr::LOCALHOST, 0u16))?;
    let writer = TcpStream::connect(rt, listener.local_addr()?)?;
    writer.set_nodelay(true)?;
    let (reader, _) = listener.accept()?;
    Ok((writer, reader))
}

/// A connection that goes one way. What is not flushed stays at its writer.
pub struct Line {
    writer: BufWriter<TcpStream>,
    reader: TcpStream,
}

// One call, wherever a line is dropped.
impl Drop for Line {
    fn drop(self) {
        let Line {
            writer: _,
            reader: _,
        } = self;
    }
}

impl Line {
    /// A new one.
    pub fn new<R>(rt: &R, alloc: Global) -> Option<Line>
    where
        R: Net<Listener = TcpListener, Stream = TcpStream>,
    {
        let (writer, reader) = connection(rt).ok()?;
        let writer = BufWriter::new(alloc, writer).ok()?;
        Some(Line { writer, reader })
    }

    fn apart(self) -> (BufWriter<TcpStream>, TcpStream) {
        let Line { writer, reader } = self;
        (writer, reader)
    }
}

// Writes until the session is stopped, and ends the stream.
fn write_all<R: Wait + Abort>(rt: &R, pump: &mut WritePump, writer: BufWriter<TcpStream>) {
    let mut writer = Counted::new(writer);
    equal(
        rt,
        "a writing pump",
        pump.run(rt, &mut writer),
        WriteEnd::Stopped,
    );
}

// Reads until the stream ends.
fn read_all<R: Wait + Abort>(rt: &R, pump: &mut ReadPump, reader: TcpStream) {
    let mut reader = Counted::new(reader);
    let end = pump.run(rt, &mut reader, u64::MAX);
    equal(rt, "a reading pump", end, ReadEnd::Clean);
}

// Both pumps of a session at work.
fn run_pumps<R>(rt: &R, pumps: &mut Pumps, writer: BufWriter<TcpStream>, reader: TcpStream)
where
    R: Threads + Wait + Abort + Sync,
{
    let reading = &mut pumps.reading;
    let writing = &mut pumps.writing;
    join(
        rt,
        || read_all(rt, reading, reader),
        || write_all(rt, writing, writer),
    );
}

/// The pumps of two sessions at work, over a line each way.
pub fn run_both<R>(rt: &R, a: &mut Pumps, b: &mut Pumps, a_to_b: Line, b_to_a: Line)
where
    R: Threads + Wait + Abort + Sync,
{
    let (a_writer, b_reader) = a_to_b.apart();
    let (b_writer, a_reader) = b_to_a.apart();
    join(
        rt,
        || run_pumps(rt, a, a_writer, a_reader),
        || run_pumps(rt, b, b_writer, b_reader),
    );
}
