//! What comes first on a channel that its client finished, and what is waived there.
ghost use Rattle.std.specs.Prelude.{◌≡◌, if◌then◌else◌, false, None, OnOk};
ghost use Rattle.std.specs.Result.{result_err};
ghost use Rattle.lc_book.specs.Finish.{finished_refusal_or, finished_violation_or};

use crate::fault::{Refusal, Violation};

/// Whether there may be own events. Refused by 15.
#[inline]
pub(crate) fn check_own(finished: bool) -> Result<(), Refusal>
    ensures answer { result_err result ≡ finished_refusal_or finished None }
    ensures open { OnOk result (finished ≡ false) }
{
    if finished {
        return Err(Refusal::ChannelFinished);
    }
    Ok(())
}

/// Whether frames of the client may arrive. Violation V9.
#[inline]
pub(crate) fn check_arrival(finished: bool) -> Result<(), Violation>
    ensures answer { result_err result ≡ finished_violation_or finished None }
    ensures open { OnOk result (finished ≡ false) }
{
    if finished {
        return Err(Violation::AfterFinish);
    }
    Ok(())
}

/// Of the guarantees that are left over, those that are waived: all where the client finished.
#[inline]
pub(crate) fn waived_of(finished: bool, unused: u64) -> u64
    ensures { result ≡ (if finished then unused else 0) }
{
    if finished { unused } else { 0 }
}
