//! The job of an end.
ghost use Rattle.std.specs.Prelude.{◌≡◌};
ghost use Rattle.lc_loopback.specs.Plan.{IsPlan};

use crate::plan::Plan;
use lc_frame::Version;
use std::alloc::Global;

/// What an end does: its messages, and behind them a Finish or none.
#[derive(Clone, Copy)]
pub(crate) struct Exchange {
    pub(crate) alloc: Global,
    pub(crate) plan: Plan,
    pub(crate) finishes: bool,
    ghost lawful: { IsPlan plan },
}

impl Exchange {
    /// This plan between sides that write in these versions. Channels are finished where both
    /// versions can say so.
    pub(crate) fn of(alloc: Global, plan: Plan, versions: (Version, Version)) -> Exchange
        requires { IsPlan plan }
        ensures { result.plan ≡ plan }
    {
        Exchange {
            alloc,
            plan,
            finishes: versions.0.has_finish() && versions.1.has_finish(),
        }
    }
}
