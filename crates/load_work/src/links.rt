//! Two peers on one thread that send each other messages on all channels.
use crate::digest::Digest;
use crate::random::{LAST_CHANNEL, Pool, Random};
use lc_driver::{Counted, Link, ReadEnd};
use lc_frame::{CHANNELS, Channel, Version};
use lc_peer::{Config, Take};
use std::alloc::Global;
use std::io;
use std::io::Read;

/// What goes between two peers.
#[derive(Clone, Copy)]
pub struct Traffic {
    version: Version,
    /// The bytes of each ring.
    capacity: u32,
    /// The bytes that stay in each ring, where a taker leaves some.
    keeps: u64,
    /// How many messages a side tries to send in a turn.
    messages: u32,
    /// The shortest message.
    shortest: u32,
    /// The longest message of six in ten, of three more, and of the last.
    lengths: [u32; 3],
    /// The most bytes that a read gives.
    piece: u32,
}

impl Traffic {
    /// Messages as a protocol's requests and answers have them.
    pub const SMALL: Traffic = Traffic {
        version: Version::One,
        capacity: 65_536,
        keeps: 0,
        messages: 16,
        shortest: 1,
        lengths: [64, 512, 4_096],
        piece: 65_536,
    };

    /// The contents of files.
    pub const BULK: Traffic = Traffic {
        version: Version::Two,
        capacity: 1_048_576,
        keeps: 0,
        messages: 6,
        shortest: 1,
        lengths: [16_384, 65_535, 524_288],
        piece: 65_536,
    };

    /// Messages of few bytes through rings of few, over a stream that comes in few at a time.
    pub const CRUMBS: Traffic = Traffic {
        version: Version::Two,
        capacity: 64,
        keeps: 0,
        messages: 16,
        shortest: 1,
        lengths: [2, 4, 8],
        piece: 8,
    };

    /// Messages of all lengths through rings that never get empty.
    pub const UNEVEN: Traffic = Traffic {
        version: Version::Two,
        capacity: 262_144,
        keeps: 65_536,
        messages: 16,
        shortest: 16,
        lengths: [256, 8_192, 102_400],
        piece: 65_536,
    };

    fn longest(&self) -> usize {
        let [_, _, longest] = self.lengths;
        longest as usize
    }
}

// A stream whose reads give few bytes or many.
#[derive(Drop)]
struct Pieces<'a> {
    bytes: &'a [u8],
    random: Random,
    most: u32,
}

impl Read for Pieces<'_> {
    fn read(&mut self, buf: &mut [u8]) -> io::Result<usize> {
        let most = self.random.from_to(1, self.most.max(1)) as usize;
        let count = most.min(buf.len());
        self.bytes.read(&mut buf[..count])
    }
}

// One of two sides.
#[derive(Drop)]
struct Side {
    link: Link,
}

impl Side {
    fn new(alloc: Global, traffic: &Traffic) -> Option<Side> {
        let config = Config {
            version: traffic.version,
            capacities: [traffic.capacity; CHANNELS],
            slots: 64,
        };
        let link = Link::new(alloc, config).ok()?;
        Some(Side { link })
    }

    // Tries to send the messages of a turn, and now and then something else.
    fn send(&mut self, traffic: &Traffic, pool: &Pool, random: &mut Random, digest: &mut Digest) {
        for _ in 0..traffic.messages {
            let Some(channel) = some_channel(random) else {
                return;
            };
            let len = random.len_from(traffic.shortest, traffic.lengths);
            let body = pool.part(random, len);
            match self.link.peer.send(channel, body) {
                Ok(()) => digest.add(body.len() as u64),
                Err(refusal) => digest.add(u64::from(refusal.number()) << 32),
            }
        }
        match random.from_to(0, 15) {
            0 => self.absolve(random, digest),
            1 => self.plead(traffic, random, digest),
            _ => {}
        }
    }

    // Gives up some of what is held on a channel.
    fn absolve(&mut self, random: &mut Random, digest: &mut Digest) {
        let Some(channel) = some_channel(random) else {
            return;
        };
        let held = self.link.peer.client(channel).held();
        let amount = u32::try_from(held / 4).unwrap_or(0);
        let answer = self.link.peer.absolve(channel, amount);
        digest.add(u64::from(answer.is_ok()));
    }

    // Asks for more room on a channel.
    fn plead(&mut self, traffic: &Traffic, random: &mut Random, digest: &mut Digest) {
        let Some(channel) = some_channel(random) else {
            return;
        };
        let answer = self.link.peer.plead(channel, traffic.capacity / 2);
        digest.add(u64::from(answer.is_ok()));
    }

    // Takes the messages of a channel, or all above what is to stay in its ring.
    fn take_from(&mut self, channel: Channel, keeps: u64, buffer: &mut [u8], digest: &mut Digest) {
        for _ in 0..u64::MAX {
            if keeps > 0 && self.link.peer.server(channel).buffered() <= keeps {
                return;
            }
            let Ok(Take::Took(len)) = self.link.peer.take_into(channel, buffer) else {
                return;
            };
            digest.add_bytes(buffer.get(..len).unwrap_or(&[]));
        }
    }

    // Takes what came, grants what was asked, and promises again what room there is.
    fn take(&mut self, traffic: &Traffic, buffer: &mut [u8], digest: &mut Digest) {
        for channel in Channel::ALL {
            self.take_from(channel, traffic.keeps, buffer, digest);
            if let Ok(Some(amount)) = self.link.peer.honour(channel) {
                digest.add(u64::from(amount));
            }
            let room = self.link.peer.server(channel).room() as u32;
            if room > 0 {
                let answer = self.link.peer.issue(channel, room);
                digest.add(u64::from(answer.is_ok()));
            }
        }
    }

    // Adds what each channel's books say.
    fn add_books(&self, digest: &mut Digest) {
        for channel in Channel::ALL {
            let (client, server) = (
                self.link.peer.client(channel),
                self.link.peer.server(channel),
            );
            digest.add(client.held());
            digest.add(client.spent());
            digest.add(client.absolved());
            digest.add(server.outstanding());
            digest.add(server.issued());
        }
    }
}

fn some_channel(random: &mut Random) -> Option<Channel> {
    Channel::from_number(random.from_to(0, LAST_CHANNEL) as u8)
}

// Writes all that waits at one side, and reads it in at the other. Whether both went well.
fn carry(
    from: &mut Link,
    to: &mut Link,
    wire: &mut Vec<u8>,
    traffic: &Traffic,
    random: Random,
) -> bool {
    wire.clear();
    let mut writer = Counted::new(&mut *wire);
    if let Err(_) = from.write_out(&mut writer) {
        return false;
    }
    let mut reader = Counted::new(Pieces {
        bytes: wire.as_slice(),
        random,
        most: traffic.piece,
    });
    to.read_in(&mut reader, u64::MAX) == ReadEnd::Clean
}

// What both sides work with, and what came of it.
#[derive(Drop)]
struct Shared {
    traffic: Traffic,
    random: Random,
    digest: Digest,
    pool: Pool,
    buffer: Vec<u8>,
    wire: Vec<u8>,
}

impl Shared {
    // One side takes and sends, and the other reads in what it wrote. Whether that went well.
    fn turn(&mut self, from: &mut Side, to: &mut Side) -> bool {
        let traffic = self.traffic;
        from.take(&traffic, &mut self.buffer, &mut self.digest);
        from.send(&traffic, &self.pool, &mut self.random, &mut self.digest);
        carry(
            &mut from.link,
            &mut to.link,
            &mut self.wire,
            &traffic,
            self.random,
        )
    }
}

/// Two peers send each other messages, in so many turns.
pub fn exchange(alloc: Global, traffic: Traffic, random: Random, turns: u32) -> Option<Digest> {
    let mut random = random;
    let mut shared = Shared {
        pool: Pool::new(alloc, &mut random, traffic.longest()).ok()?,
        buffer: vec![in alloc; 0u8; traffic.longest()].ok()?,
        wire: Vec::new(alloc),
        digest: Digest::new(),
        random,
        traffic,
    };
    let mut one = Side::new(alloc, &traffic)?;
    let mut other = Side::new(alloc, &traffic)?;
    for _ in 0..turns {
        if !shared.turn(&mut one, &mut other) || !shared.turn(&mut other, &mut one) {
            return None;
        }
    }
    one.add_books(&mut shared.digest);
    other.add_books(&mut shared.digest);
    Some(shared.digest)
}
