//! A peer to which the bytes of a walk are delivered.
ghost use Rattle.std.specs.Prelude.{◌<◌};

use lc_frame::{CHANNELS, Channel, StreamDecoder, Version};
use lc_peer::{Config, Delivery, Peer, Take};
use std::alloc::Global;
use std::io;

/// The channel of all frames of a walk.
pub const CHANNEL: Channel = Channel::Data;

/// A peer that has room for all messages of a walk, and promised it.
#[derive(Drop)]
pub struct Receiver {
    peer: Peer,
    decoder: StreamDecoder,
}

impl Receiver {
    /// A receiver with room for so many bytes, to which the greeting of the version has come.
    pub fn new(alloc: Global, version: Version, room: u32) -> io::Result<Receiver> {
        let mut capacities = [1; CHANNELS];
        capacities[CHANNEL.index()] = room;
        let config = Config {
            version,
            capacities,
            slots: 2,
        };
        let mut decoder = StreamDecoder::new(alloc)?;
        decoder.feed(version.greeting());
        let Ok(peer) = Peer::new(alloc, config) else {
            return Err(io::Error::other("no peer was made"));
        };
        let mut receiver = Receiver { peer, decoder };
        receiver.promise(room);
        Ok(receiver)
    }

    // Promises room. The frame goes nowhere.
    fn promise(&mut self, room: u32) {
        if let Ok(()) = self.peer.issue(CHANNEL, room) {
            drop(self.peer.next_out());
        }
    }

    // Gives up all guarantees that came. The frame goes nowhere.
    fn absolve(&mut self) {
        let held = self.peer.client(CHANNEL).held();
        if let Ok(()) = self.peer.absolve(CHANNEL, held as u32) {
            drop(self.peer.next_out());
        }
    }

    // Drops so many messages at most. How many bytes they had.
    fn drop_messages(&mut self, count: u64) -> u32 {
        let mut bytes = 0u32;
        for _ in 0..count {
            let Take::Took(len) = self.peer.pop(CHANNEL) else {
                break;
            };
            bytes = bytes.saturating_add(u32::try_from(len).unwrap_or(0));
        }
        bytes
    }

    /// Delivers the bytes in pieces of this length, drops what arrived and promises its room anew.
    /// How many frames arrived, `None` where one did not.
    pub fn turn(&mut self, bytes: &[u8], piece: usize) -> Option<u64>
        requires { 0 < piece }
    {
        let mut frames = 0u64;
        for piece in bytes.chunks(piece) {
            let Delivery {
                frames: arrived,
                stop: None,
                ..
            } = self.peer.deliver(&mut self.decoder, piece)
            else {
                return None;
            };
            frames = frames.wrapping_add(arrived);
        }
        let room = self.drop_messages(frames);
        self.promise(room);
        self.absolve();
        Some(frames)
    }
}
