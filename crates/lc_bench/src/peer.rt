//! Two peers on one thread: a message there, and its guarantees back.
use crate::figures::{Figure, Turns};
use crate::plan::Plan;
use lc_driver::{Counted, Link, ReadEnd};
use lc_frame::{CHANNELS, Channel, Version};
use lc_peer::{Config, Take};
use std::alloc::Global;
use std::io;

/// The bytes of each ring.
const CAPACITY: u32 = 65_536;

/// The frames that may wait at a peer.
const SLOTS: u32 = 4;

/// The bytes that the wire has room for.
const WIRE: usize = 70_000;

/// The messages that are measured: the figure's name, and the length in bytes.
const MESSAGES: [(&str, u32); 3] = [("peer.16", 16), ("peer.1k", 1_024), ("peer.60k", 61_440)];

const CHANNEL: Channel = Channel::Data;

fn new_link(alloc: Global) -> io::Result<Link> {
    let config = Config {
        version: Version::One,
        capacities: [CAPACITY; CHANNELS],
        slots: SLOTS,
    };
    match Link::new(alloc, config) {
        Ok(link) => Ok(link),
        Err(_) => Err(io::Error::other("no peer was made")),
    }
}

// Writes all that waits at one side, and reads it in at the other. Whether both went well.
fn carry(from: &mut Link, to: &mut Link, wire: &mut Vec<u8>) -> bool {
    wire.clear();
    let mut writer = Counted::new(&mut *wire);
    if let Err(_) = from.write_out(&mut writer) {
        return false;
    }
    let mut reader = Counted::new(wire.as_slice());
    to.read_in(&mut reader, u64::MAX) == ReadEnd::Clean
}

// Two sides, a message from the first to the second, and a buffer of the same length.
#[derive(Drop)]
struct Exchange {
    client: Link,
    server: Link,
    wire: Vec<u8>,
    body: Vec<u8>,
    buffer: Vec<u8>,
    amount: u32,
}

impl Exchange {
    // The first guarantees are there.
    fn new(alloc: Global, amount: u32) -> io::Result<Exchange> {
        let len = amount as usize;
        let mut exchange = Exchange {
            wire: Vec::with_capacity(alloc, WIRE)?,
            body: vec![in alloc; 0x5a_u8; len]?,
            buffer: vec![in alloc; 0u8; len]?,
            client: new_link(alloc)?,
            server: new_link(alloc)?,
            amount,
        };
        if exchange.promise() {
            Ok(exchange)
        } else {
            Err(io::Error::other("the guarantees did not come"))
        }
    }

    // The server promises the room of one message.
    fn promise(&mut self) -> bool {
        if let Err(_) = self.server.peer.issue(CHANNEL, self.amount) {
            return false;
        }
        carry(&mut self.server, &mut self.client, &mut self.wire)
    }

    // One message there, and its guarantees back. The bytes that were taken.
    fn round(&mut self) -> Option<usize> {
        if let Err(_) = self.client.peer.send(CHANNEL, &self.body) {
            return None;
        }
        if !carry(&mut self.client, &mut self.server, &mut self.wire) {
            return None;
        }
        let Ok(Take::Took(len)) = self.server.peer.take_into(CHANNEL, &mut self.buffer) else {
            return None;
        };
        if self.promise() { Some(len) } else { None }
    }
}

impl Turns for Exchange {
    fn run(&mut self, turns: u64, sum: &mut u64) -> io::Result<()> {
        for _ in 0..turns {
            let Some(len) = self.round() else {
                return Err(io::Error::other("a message did not arrive"));
            };
            *sum = sum.wrapping_add(len as u64);
        }
        Ok(())
    }
}

/// Takes the figures of two peers and each message.
pub fn measure_peers(rt: &HostRuntime, plan: &Plan) -> io::Result<()> {
    for (name, len) in &MESSAGES {
        let figure = Figure {
            name,
            things: "messages",
            count: 1,
            bytes: Some(*len as usize),
        };
        figure.take(rt, plan, &mut Exchange::new(rt.alloc(), *len)?)?;
    }
    Ok(())
}
