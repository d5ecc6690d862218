//! Two sessions that end in one program.
ghost use Rattle.lc_session.specs.Parts.{state_of};
ghost use Rattle.lc_session.specs.Report.{AreOfOneSession};
ghost use Rattle.lc_interleaving.specs.Reports.{AreTwoReports, ArePlayedOut};

use lc_session::laws::new_sessions_heard_nothing;
use lc_session::{Parts, Report, finish};
use std::sync::Wait;

/// Ends two sessions, each of which read what the other wrote. Where the steps of both fell into one
/// order, in which nothing was heard before it was put, the two keep on every channel and each way
/// what `laws::finished_sessions_keep_promises` says, the order is a legal history of two peers, and at
/// each of its moments the next frame of each stream breaks no rule. That there was such an order is
/// not proved.
///
/// A program that made both sessions, and has from its threads what `HasPlayed` asks for, has that
/// by the clause `played_out`, with this order as the one premise.
pub fn finish_both<R: Wait>(rt: &R, a: Parts, b: Parts) -> (Report, Report)
    requires a_one { AreOfOneSession (state_of a) }
    requires b_one { AreOfOneSession (state_of b) }
    ensures reports { AreTwoReports (state_of a) (state_of b) result.0 result.1 }
    ensures played_out { ArePlayedOut (state_of a) (state_of b) result.0 result.1 }
{
    let first = finish(rt, a);
    let second = finish(rt, b);
    new_sessions_heard_nothing();
    (first, second)
}
