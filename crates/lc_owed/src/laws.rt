//! Laws over the definitions, each the contract of a function that does nothing.
ghost use Rattle.lc_owed.specs.Standing.{PendingCallsStayAcceptable, OnlyFinishedChannelsDrop, ProceedingKeepsReceivers};

/// Whatever arrives, is taken, is accepted beside it or is put, a pending issue and a pending limit on receiving may still
/// be put, unless the sender finished their channel.
pub fn pending_calls_stay_acceptable()
    ensures { PendingCallsStayAcceptable }
{}

/// So a flush drops a pending issue or limit only where the sender finished the channel: else each is put once, whole.
pub fn only_finished_channels_drop()
    ensures { OnlyFinishedChannelsDrop }
{}

/// Whatever calls of senders proceeded, no book of a receiver changed.
pub fn proceeding_keeps_receivers()
    ensures { ProceedingKeepsReceivers }
{}
