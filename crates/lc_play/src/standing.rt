//! What stands at both peers once a script was replayed.
ghost use Rattle.std.specs.Prelude.{◌≡◌};
ghost use Rattle.lc_play.specs.Rings.{AddsUp};

use lc_book::{ClientBook, ServerBook};
use lc_chart::{Frames, Placed};
use lc_cli::{Fault, MAX_INPUT, parse_script, write_decimal, write_frame};
use lc_frame::{Channel, Version, is_capacity};
use lc_world::{NewFault, Side, World};
use std::alloc::Global;
use std::fmt::Display;
use std::io::Write;
use std::{fmt, io};

/// Writes what stands once the script was replayed: of A's stream and then of B's a line and the lines of
/// its frames in flight, and then a line for each direction and channel.
pub(crate) fn write_standing<W: Write>(
    alloc: Global,
    capacity: u32,
    version: Version,
    script: &[u8],
    out: &mut W,
) -> Result<(), Fault> {
    if !is_capacity(capacity) {
        return Err(Fault::Usage);
    }
    if script.len() > MAX_INPUT {
        return Err(Fault::InputTooLong);
    }
    let world = played(alloc, capacity, version, script)?;
    write_world(&world, version, out).or(Err(Fault::WriteFailed))
}

// The peers once the script was replayed.
fn played(alloc: Global, capacity: u32, version: Version, script: &[u8]) -> Result<World, Fault> {
    let events = parse_script(alloc, script)?;
    let mut world = match World::new_as(alloc, capacity, [version; 2]) {
        Ok(world) => world,
        Err(NewFault::BadCapacity) => return Err(Fault::Usage),
        Err(NewFault::OutOfMemory) => return Err(Fault::OutOfMemory),
    };
    for event in events.as_slice() {
        let _answer = world.step(event);
    }
    Ok(world)
}

fn write_world<W: Write>(world: &World, version: Version, out: &mut W) -> io::Result<()> {
    for side in [Side::A, Side::B] {
        write_stream(world, side, version, out)?;
    }
    for client in [Side::A, Side::B] {
        for channel in Channel::ALL {
            write_direction(world, client, channel, out)?;
        }
    }
    Ok(())
}

fn write_stream<W: Write>(
    world: &World,
    side: Side,
    version: Version,
    out: &mut W,
) -> io::Result<()> {
    let (bytes, delivered) = (world.stream(side), world.delivered(side));
    let (name, number, count) = (Name(side), number_of(version), bytes.len());
    writeln!(
        out,
        "stream {name} version {number} bytes {count} delivered {delivered}"
    )?;
    let greeting = version.greeting().len();
    if delivered < greeting {
        writeln!(out, "frame {name} 0 {greeting} greeting")?;
    }
    let mut frames = Frames::new(bytes);
    for _ in 0..count {
        let Ok(Some(placed)) = frames.next_frame() else {
            return Ok(());
        };
        if placed.end > delivered {
            write!(out, "frame {name} ")?;
            write_placed(&placed, out)?;
        }
    }
    Ok(())
}

fn write_direction<W: Write>(
    world: &World,
    client: Side,
    channel: Channel,
    out: &mut W,
) -> io::Result<()> {
    let (sender, receiver) = (
        world.client(client, channel),
        world.server(other(client), channel),
    );
    write_ring(client, channel, Ring::of(&sender, &receiver), out)?;
    write_bounds(&sender, &receiver, out)
}

fn write_ring<W: Write>(client: Side, channel: Channel, ring: Ring, out: &mut W) -> io::Result<()> {
    let (name, number) = (Name(client), channel.number());
    let Ring {
        held,
        wire,
        buffered,
        room,
    } = ring;
    write!(
        out,
        "ring {name} {number} held {held} wire {wire} buffered {buffered} room {room}"
    )
}

fn write_bounds<W: Write>(
    sender: &ClientBook,
    receiver: &ServerBook,
    out: &mut W,
) -> io::Result<()> {
    let (sends, issues) = (Maybe(sender.send_left()), Maybe(receiver.receive_left()));
    let asked = Maybe(sender.asked().map(u64::from));
    let (finished, ended) = (
        u8::from(sender.is_finished()),
        u8::from(receiver.is_ended()),
    );
    writeln!(
        out,
        " may-send {sends} may-issue {issues} asked {asked} finished {finished} ended {ended}"
    )
}

/// Where the bytes of a ring are: promised and held by the client, promised and on the wire either way,
/// buffered, and free.
#[derive(Clone, Copy)]
pub struct Ring {
    pub held: u64,
    pub wire: u64,
    pub buffered: u64,
    pub room: u64,
}

impl Ring {
    pub(crate) fn of(client: &ClientBook, server: &ServerBook) -> Ring
        ensures { AddsUp client.now server.now result }
    {
        let outstanding = server.outstanding();
        let held = client.held().min(outstanding);
        Ring {
            held,
            wire: outstanding - held,
            buffered: server.buffered(),
            room: server.room(),
        }
    }
}

/// Writes a line for each frame of a stream, with its places, up to the first fault.
pub(crate) fn write_places<W: Write>(bytes: &[u8], out: &mut W) -> Result<(), Fault> {
    if bytes.len() > MAX_INPUT {
        return Err(Fault::InputTooLong);
    }
    let mut frames = Frames::new(bytes);
    for _ in 0..bytes.len() {
        match frames.next_frame()? {
            Some(placed) => write_placed(&placed, out).or(Err(Fault::WriteFailed))?,
            None => return Ok(()),
        }
    }
    Ok(())
}

fn write_placed<W: Write>(placed: &Placed<'_>, out: &mut W) -> io::Result<()> {
    write_decimal(placed.offset as u64, out)?;
    out.write_all(b" ")?;
    write_decimal(placed.end as u64, out)?;
    out.write_all(b" ")?;
    write_frame(&placed.frame, out)
}

#[derive(Clone, Copy)]
struct Name(Side);

impl Display for Name {
    fn fmt<W: fmt::Write>(&self, f: &mut fmt::Formatter<W>) -> fmt::Result {
        match self.0 {
            Side::A => write!(f, "A"),
            Side::B => write!(f, "B"),
        }
    }
}

// A number, or a dash.
#[derive(Clone, Copy)]
struct Maybe(Option<u64>);

impl Display for Maybe {
    fn fmt<W: fmt::Write>(&self, f: &mut fmt::Formatter<W>) -> fmt::Result {
        match self.0 {
            Some(number) => write!(f, "{number}"),
            None => write!(f, "-"),
        }
    }
}

fn other(side: Side) -> Side {
    match side {
        Side::A => Side::B,
        Side::B => Side::A,
    }
}

fn number_of(version: Version) -> u8 {
    match version {
        Version::One => 1,
        Version::Two => 2,
    }
}
