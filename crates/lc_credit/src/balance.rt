//! What the credits come to in the end.
ghost use Rattle.std.specs.Prelude.{◌≡◌, ◌<◌, slice_get, IfSome, All};
ghost use Rattle.lc_frame.specs.Channel.{channel_count};
ghost use Rattle.lc_credit.specs.Sides.{IsIdle, IsSettled};
ghost use Rattle.lc_credit.specs.Channels.{AreMatched, AreSettled};

use crate::channel_in::ChannelIn;
use crate::credit_out::CreditOut;
use crate::credit_parts::CreditParts;
use lc_frame::CHANNELS;

/// What became of one channel's guarantees, in bytes of messages: `received` is the sum of the
/// others.
#[derive(Clone, Copy, Debug, PartialEq, Eq)]
pub struct Balance {
    /// All guarantees that arrived, 0 to 2^62.
    pub received: u64,
    /// Those that are left.
    pub held: u64,
    /// Those that messages used up.
    pub spent: u64,
    /// Those that were given up.
    pub absolved: u64,
    /// Those that were left when the channel was finished, and those that came afterwards.
    pub waived: u64,
}

const NOTHING: Balance = Balance {
    received: 0,
    held: 0,
    spent: 0,
    absolved: 0,
    waived: 0,
};

/// The balance of each channel, in the channels' order. Each end has to stand at its own channel's
/// place.
pub fn settle(parts: CreditParts) -> [Balance; CHANNELS]
    requires matched { AreMatched parts.incoming parts.outgoing }
    requires idle { All IsIdle parts.outgoing }
    ensures { AreSettled parts.incoming parts.outgoing result }
{
    settle_all(parts.incoming.channels, parts.outgoing)
}

// Settles channel after channel.
fn settle_all(
    mut channels: [ChannelIn; CHANNELS],
    outgoing: [CreditOut; CHANNELS],
) -> [Balance; CHANNELS]
    requires matched { AreMatched channels outgoing }
    requires idle { All IsIdle outgoing }
    ensures { AreSettled channels outgoing result }
{
    let mut balances = [NOTHING; CHANNELS];
    let mut channel = 0;
    for end in outgoing {
        balances[channel] = settle_at(&mut channels, channel, end);
        channel += 1;
    }
    balances
}

// Settles one channel.
fn settle_at(channels: &mut [ChannelIn; CHANNELS], channel: usize, end: CreditOut) -> Balance
    requires channel { channel < channel_count }
    requires matched { IfSome (slice_get channels.old channel) (λ i. i.credit ≡ end.credit) }
    requires idle { IsIdle end }
    ensures same { channels.new ≡ channels.old }
    ensures settled { IfSome (slice_get channels.old channel) (λ i. IsSettled i end result) }
{
    let side = &mut channels[channel];
    side.settle(end)
}
