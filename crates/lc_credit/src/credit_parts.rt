//! The parts that threads share the credits by.
ghost use Rattle.std.specs.Prelude.{◌≡◌, IfOk, All, length, map};
ghost use Rattle.lc_frame.specs.Channel.{channel_count};
ghost use Rattle.lc_credit.specs.Sides.{IsIdle, IsUnfinished};
ghost use Rattle.lc_credit.specs.Channels.{AreMatched, AreNew, IsNewPair};

use crate::channel_in::{ChannelIn, Words};
use crate::credit_in::CreditIn;
use crate::credit_out::CreditOut;
use crate::rule::TwoSides;
use lc_frame::{CHANNELS, Channel};
use std::alloc::{AllocError, Global};
use std::sync::Arc;

/// The credits of all channels, in parts for the thread that reads and those that send. `outgoing`
/// has the end of each channel at the place of its number.
#[derive(Debug, Drop)]
pub struct CreditParts {
    /// For the thread that reads frames.
    pub incoming: CreditIn,
    /// For the threads that send.
    pub outgoing: [CreditOut; CHANNELS],
}

/// A new credit for each channel: nothing was received, nothing is held, and there is no limit.
pub fn credits(alloc: Global) -> Result<CreditParts, AllocError>
    ensures new { IfOk result (λ parts. AreNew parts.incoming parts.outgoing) }
    ensures matched { IfOk result (λ parts. AreMatched parts.incoming parts.outgoing) }
    ensures idle { IfOk result (λ parts. All IsIdle parts.outgoing) }
    ensures unfinished { IfOk result (λ parts. All IsUnfinished parts.outgoing) }
{
    let (channels, outgoing) = parted(Channel::ALL.try_map(|_| credit(alloc))?);
    let incoming = CreditIn { channels };
    Ok(CreditParts { incoming, outgoing })
}

// The first of each pair, and the second.
fn parted<A, B>(pairs: [(A, B); CHANNELS]) -> ([A; CHANNELS], [B; CHANNELS])
    requires { length pairs ≡ channel_count }
    ensures { (result.0 ≡ map (λ pair. pair.0) pairs) × (result.1 ≡ map (λ pair. pair.1) pairs) }
{
    let [
        (a, a_second),
        (b, b_second),
        (c, c_second),
        (d, d_second),
        (e, e_second),
        (f, f_second),
        (g, g_second),
    ] = pairs;
    (
        [a, b, c, d, e, f, g],
        [
            a_second, b_second, c_second, d_second, e_second, f_second, g_second,
        ],
    )
}

// Both sides of one channel's credit.
fn credit(alloc: Global) -> Result<(ChannelIn, CreditOut), AllocError>
    ensures { IfOk result IsNewPair }
{
    let (table, mut seat) = Words::of_words(alloc, &[0, 0], &())?;
    let Ok(words) = Arc::new(alloc, table) else {
        return Err(AllocError);
    };
    let words_out = Arc::try_clone(&words)?;
    let seat_out = words.shared.split_seat::<TwoSides>(&mut seat);
    let incoming = ChannelIn {
        words,
        seat,
        received: 0,
        left: None,
    };
    let outgoing = CreditOut {
        words: words_out,
        seat: seat_out,
        spent: 0,
        absolved: 0,
        waived: None,
        pending: None,
    };
    Ok((incoming, outgoing))
}
