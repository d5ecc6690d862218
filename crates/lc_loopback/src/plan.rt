//! What both sides exchange.
ghost use Rattle.std.specs.Prelude.{◌≡◌, ◌↔◌, IsTrue};
ghost use Rattle.lc_loopback.specs.Plan.{IsPlan, config_of, small_plan};

use lc_frame::{CHANNELS, Version, is_capacity, is_slots};
use lc_peer::Config;

/// What both sides exchange: so many messages on each channel and each way.
///
/// A message is its number, four bytes with the highest first, and behind it bytes that each are the
/// number of its channel. It has `shortest` bytes and `number mod lengths` more.
#[derive(Clone, Copy, Debug)]
pub struct Plan {
    /// The bytes of each ring.
    pub capacity: u32,
    /// How many frames may wait to go out at each side.
    pub slots: u32,
    /// How many messages go through each channel, each way.
    pub messages: u32,
    /// The bytes of the shortest message.
    pub shortest: u32,
    /// How many lengths the messages have.
    pub lengths: u32,
    /// From how many bytes on a receiving end issues anew what it took, while more messages wait. Where
    /// none waits it issues all that it took.
    pub issue_from: u32,
}

impl Plan {
    /// So many messages of 4 to 16 bytes, through rings of 32 bytes and with four slots, so that ends
    /// wait for both. Each is issued anew as it is taken.
    pub const fn small(messages: u32) -> Plan
        ensures { result ≡ small_plan messages }
    {
        Plan {
            capacity: 32,
            slots: 4,
            messages,
            shortest: 4,
            lengths: 13,
            issue_from: 1,
        }
    }

    /// Whether it can be played: rings and slots are as sessions may have them, a message has room
    /// for its number, and the longest fits a ring and a stream of either version.
    pub fn is_lawful(&self) -> bool
        ensures { IsTrue result ↔ IsPlan self.now }
    {
        let below = u64::from(self.shortest) + u64::from(self.lengths);
        let longest = u64::from(self.capacity).min(Version::One.max_body() as u64);
        is_capacity(self.capacity)
            && is_slots(self.slots)
            && self.shortest >= 4
            && self.lengths >= 1
            && below <= longest + 1
    }

    /// How a session of a version is made.
    pub(crate) fn config(&self, version: Version) -> Config
        ensures { result ≡ config_of self.now version }
    {
        Config {
            version,
            capacities: [self.capacity; CHANNELS],
            slots: self.slots,
        }
    }
}
