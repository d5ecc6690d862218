//! Which ends are held, and where, while two sessions exchange messages.
use lc_frame::{CHANNELS, Channel, Lane};

/// The one channel that goes on beside six, and the one of which an end is held alone.
pub const LAST: Channel = Channel::StaticToken;

const FIRST: Channel = Channel::Reconciliation;

/// Which of the two sessions.
#[derive(Clone, Copy, PartialEq, Eq)]
pub enum Side {
    A,
    B,
}

impl Side {
    pub fn other(self) -> Side {
        match self {
            Side::A => Side::B,
            Side::B => Side::A,
        }
    }
}

/// Which ends are held.
#[derive(Clone, Copy, Debug)]
pub enum Held {
    Sender,
    Taker,
    /// All ends of six channels, at both sides.
    SixOfSeven,
    /// All receiving ends of one side.
    Takers,
}

impl Held {
    pub const ALL: [Held; 4] = [Held::Sender, Held::Taker, Held::SixOfSeven, Held::Takers];

    pub fn has(self, side: Side, lane: Lane) -> bool {
        match self {
            Held::Sender => side == Side::A && lane == Lane::Client(FIRST),
            Held::Taker => side == Side::A && lane == Lane::Server(FIRST),
            Held::SixOfSeven => lane.channel() != LAST,
            Held::Takers => side == Side::B && matches!(lane, Lane::Server(_)),
        }
    }

    /// How many ends these are.
    pub fn count(self) -> u64 {
        match self {
            Held::Sender | Held::Taker => 1,
            Held::SixOfSeven => 24,
            Held::Takers => CHANNELS as u64,
        }
    }

    /// In how many directions of channels all messages arrive.
    pub fn directions(self) -> u64 {
        match self {
            Held::Sender | Held::Taker => 13,
            Held::SixOfSeven => 2,
            Held::Takers => CHANNELS as u64,
        }
    }
}

/// Where they are held.
#[derive(Clone, Copy, Debug, PartialEq, Eq)]
pub enum Place {
    /// In a park that is to end with a frame on the channel.
    ForNews,
    /// In one that is to end with the pop of a frame that the end had put.
    ForSlot,
    /// Behind it.
    Behind,
    /// Between a full queue's refusal and the wait.
    Refused,
    /// Behind a message that was sent, or between taking one and issuing its bytes anew.
    Between,
}

/// How an exchange goes.
#[derive(Clone, Copy, Debug)]
pub struct Way {
    pub held: Held,
    pub place: Place,
    pub slots: u32,
    /// Whether the others wait with a timeout.
    pub timed: bool,
}

impl Way {
    /// Whether all slots are taken before any pump runs, so that each end that is held was refused one.
    pub fn begins_full(self) -> bool {
        matches!(self.place, Place::ForSlot | Place::Behind | Place::Refused)
    }
}
