//! The lanes: of each channel the one on which its client puts, and the one of its server.
ghost use Rattle.std.specs.Prelude.{◌≡◌, ◌<◌, ◌≤◌, ◌⊎◌, IfSome, IfNone};
ghost use Rattle.lc_frame.specs.declared.lane.Lane.TheVariants.{Client, Server};
ghost use Rattle.lc_frame.specs.Lane.{lane_count, lane_number};

use crate::channel::{CHANNELS, Channel};

/// How many lanes there are: two for each channel.
pub const LANES: usize = 2 * CHANNELS;

/// What one side puts on a channel. As its client it puts Sends, Absolves, limits on sending and
/// Finish; as its server Issues, Pleads and limits on receiving.
#[derive(Clone, Copy, Debug, PartialEq, Eq)]
pub enum Lane {
    Client(Channel),
    Server(Channel),
}

impl Lane {
    /// The channel that it is a part of.
    pub fn channel(self) -> Channel
        ensures { (self ≡ Client result) ⊎ (self ≡ Server result) }
    {
        match self {
            Lane::Client(channel) | Lane::Server(channel) => channel,
        }
    }

    /// The lane's number: the channel's for a client, `CHANNELS` more for a server.
    pub fn number(self) -> u8
        ensures value { result ≡ lane_number self }
        ensures range { result < lane_count }
    {
        match self {
            Lane::Client(channel) => channel.number(),
            Lane::Server(channel) => CHANNELS as u8 + channel.number(),
        }
    }

    /// The lane's place in what is kept for each lane: its number.
    pub fn index(self) -> usize
        ensures value { result ≡ lane_number self }
        ensures range { result < lane_count }
    {
        usize::from(self.number())
    }

    /// The lane of a number, `None` from `LANES` on.
    pub fn from_number(number: u8) -> Option<Lane>
        ensures value { IfSome result (λ l. lane_number l ≡ number) }
        ensures none { IfNone result (lane_count ≤ number) }
    {
        match Channel::from_number(number) {
            Some(channel) => Some(Lane::Client(channel)),
            None => Channel::from_number(number - CHANNELS as u8).map(Lane::Server),
        }
    }
}
