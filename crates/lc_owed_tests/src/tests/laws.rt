//! A flush, with what it promises whoever owns a scheduler and what is pending over it.
ghost use Rattle.lc_owed.specs.Flush.{Flushes, IsFlushed};
ghost use Rattle.lc_owed.specs.Standing.{PendingCallsStayAcceptable, OnlyFinishedChannelsDrop, ProceedingKeepsReceivers};

use lc_lines::Lines;
use lc_owed::{Owed, laws};

// Puts what is due. By the laws a pending issue or limit is put once, whole, unless the sender finished its channel.
pub(super) fn flush(owed: &mut Owed, lines: &mut Lines)
    ensures flushes { Flushes owed.old lines.old owed.new lines.new }
    ensures end { IsFlushed owed.new lines.new.scheduler }
    ensures acceptable { PendingCallsStayAcceptable }
    ensures drops { OnlyFinishedChannelsDrop }
    ensures receivers { ProceedingKeepsReceivers }
{
    laws::pending_calls_stay_acceptable();
    laws::only_finished_channels_drop();
    laws::proceeding_keeps_receivers();
    owed.flush(lines);
}
