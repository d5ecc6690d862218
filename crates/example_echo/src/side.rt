//! One side of a session over a socket, on one thread.

use anyhow::{Error, bail};
use lc_driver::{Counted, CountedRead, CountedWrite, Link, ReadEnd, Uninterrupted};
use lc_frame::{CHANNELS, Channel, Version};
use lc_peer::{Config, Refusal};
use std::alloc::Global;
use std::io::BufReader;
use std::net::{Shutdown, TcpStream};
use std::time::Duration;

/// The channel of the messages and of their echoes.
pub const CHANNEL: Channel = Channel::Data;

/// The bytes of each ring.
pub const RING: u32 = 4096;

/// How many seconds a read or a write may take.
const PATIENCE: u64 = 30;

/// What a side does with its session.
pub trait Work {
    /// Makes the calls that are possible now. Whether the work is done.
    fn step(&mut self, link: &mut Link) -> Result<bool, Error>;
}

/// Issues credit for the room of a message that was taken. A peer that has finished the channel needs none.
pub fn issue_again(link: &mut Link, amount: u32) -> Result<(), Refusal> {
    match link.peer.issue(CHANNEL, amount) {
        Err(Refusal::ChannelFinished) => Ok(()),
        answer => answer,
    }
}

/// Finishes a channel, unless this side has finished it already.
pub fn finish(link: &mut Link, channel: Channel) -> Result<(), Refusal> {
    match link.peer.finish(channel) {
        Err(Refusal::ChannelFinished) => Ok(()),
        answer => answer,
    }
}

// Rounds of calls, writes and reads, until the work is done.
fn rounds<W: Work>(
    link: &mut Link,
    work: &mut W,
    reader: &mut impl CountedRead,
    writer: &mut impl CountedWrite,
) -> Result<(), Error> {
    'rounds: for _ in 0..u64::MAX {
        let is_done = work.step(link)?;
        if link.wants_write() {
            link.write_out(writer)?;
        } else if is_done {
            break 'rounds;
        } else {
            let end = link.read_in(reader, 1);
            if end != ReadEnd::TurnsSpent {
                bail!("the session ended too early: {end:?}");
            }
        }
    }
    Ok(())
}

// Finishes all channels, those that were not used, too.
fn finish_all(link: &mut Link) -> Result<(), Refusal> {
    'channels: for channel in Channel::ALL {
        finish(link, channel)?;
    }
    Ok(())
}

/// Runs a session over the socket until the work is done and both sides have ended their streams.
pub fn run<W: Work>(alloc: Global, socket: &TcpStream, work: &mut W) -> Result<(), Error> {
    socket.set_nodelay(true)?;
    socket.set_read_timeout(Some(Duration::from_secs(PATIENCE)))?;
    socket.set_write_timeout(Some(Duration::from_secs(PATIENCE)))?;
    let mut reader = Counted::new(Uninterrupted::new(BufReader::new(alloc, socket)?));
    let mut writer = Counted::new(Uninterrupted::new(socket));
    let config = Config {
        version: Version::Two,
        capacities: [RING; CHANNELS],
        slots: 16,
    };
    let mut link = Link::new(alloc, config)?;
    link.peer.issue(CHANNEL, RING)?;
    rounds(&mut link, work, &mut reader, &mut writer)?;
    finish_all(&mut link)?;
    link.write_out(&mut writer)?;
    socket.shutdown(Shutdown::Write)?;
    let end = link.read_in(&mut reader, u64::MAX);
    if end != ReadEnd::Clean {
        bail!("the stream did not end in order: {end:?}");
    }
    Ok(())
}
