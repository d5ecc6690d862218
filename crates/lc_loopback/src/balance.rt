//! Whether the balances of a side agree with what the other side took.
ghost use Rattle.std.specs.Prelude.{IsTrue};
ghost use Rattle.std.specs.List.{AllZip};
ghost use Rattle.lc_loopback.specs.Played.{AgreesWith};

use lc_credit::Balance;
use lc_frame::CHANNELS;

// The balance of a channel agrees with the bytes that the other side took on it.
fn agrees(balance: Balance, bytes: u64) -> bool
    ensures { IsTrue result → AgreesWith balance bytes }
{
    let used = u128::from(balance.spent) + u128::from(balance.absolved);
    let left = u128::from(balance.held) + u128::from(balance.waived);
    u128::from(balance.received) == used + left && balance.spent == bytes
}

/// Whether each balance agrees with the bytes.
pub(crate) fn agree(balances: [Balance; CHANNELS], bytes: [u64; CHANNELS]) -> bool
    ensures { IsTrue result → AllZip AgreesWith balances bytes }
{
    let mut all = true;
    for channel in 0..CHANNELS {
        all &= agrees(balances[channel], bytes[channel]);
    }
    all
}
