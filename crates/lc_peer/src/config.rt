//! What a peer is made of.
ghost use Rattle.std.specs.Prelude.{◌≡◌, ◌≤◌, ◌↔◌, IsTrue};
ghost use Rattle.lc_peer.specs.Config.{first_bad, config_fault};
ghost use Rattle.std.specs.Result.{result_err};

use lc_frame::{CHANNELS, Channel, Version, is_capacity, is_slots};
use thiserror::Error;

/// The bounds of a peer.
#[derive(Clone, Copy, Debug, PartialEq, Eq)]
pub struct Config {
    /// The version of the stream that the peer writes. What arrives may be of either.
    pub version: Version,
    /// The bytes of each channel's receiving ring, 1 to 2^24, by the channel's number.
    pub capacities: [u32; CHANNELS],
    /// How many frames may wait to go out, 1 to 65,536.
    pub slots: u32,
}

/// Why there is no peer.
#[derive(Clone, Copy, Debug, PartialEq, Eq, Error)]
pub enum PeerFault {
    /// The ring of this channel, and of none of a lower number, would not have 1 to 2^24 bytes.
    #[error("the capacity of {channel:?} must be in 1..=16777216, got {capacity}")]
    BadCapacity { channel: Channel, capacity: u32 },
    /// Not 1 to 65,536 frames might wait, but so many.
    #[error("slots must be in 1..=65536, got {slots}")]
    BadSlots { slots: u32 },
    /// The memory of the rings or of the list of frames was refused.
    #[error("out of memory")]
    OutOfMemory,
}

// The first channel whose ring may not have its capacity.
fn first_bad(capacities: &[u32; CHANNELS]) -> Option<Channel>
    ensures { result ≡ first_bad capacities.now }
{
    let mut number = 0;
    for capacity in capacities {
        if !is_capacity(*capacity) {
            return Channel::from_number(number);
        }
        number += 1;
    }
    None
}

impl Config {
    /// What is wrong: the first channel whose ring may not have its capacity, then the slots.
    pub fn judge(&self) -> Result<(), PeerFault>
        ensures { result_err result ≡ config_fault self.now }
    {
        if let Some(channel) = first_bad(&self.capacities) {
            let capacity = self.capacities[channel.index()];
            return Err(PeerFault::BadCapacity { channel, capacity });
        }
        if !is_slots(self.slots) {
            return Err(PeerFault::BadSlots { slots: self.slots });
        }
        Ok(())
    }
}
