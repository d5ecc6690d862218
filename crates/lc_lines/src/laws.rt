//! Laws over the definitions, each the contract of a function that does nothing.
ghost use Rattle.lc_lines.specs.Order.{CallsProceedInOrder, ProceedingKeepsOrder, BoundsKeepTheirPlaces};
ghost use Rattle.lc_lines.specs.Blocking.{NoHeadOfLineBlocking, FirstCallsWaitForBytes};
ghost use Rattle.lc_lines.specs.Runs.{RunsAreCalls};
ghost use Rattle.lc_lines.specs.Fair.{EachSendsOnceMeanwhile, EachCallIsCounted};
ghost use Rattle.lc_lines.specs.Passed.{PassedChannelsAreSpared};

/// Whatever calls proceeded, those of each channel are the first of its wait queue, in their order; each is noticed,
/// and the message that it left, or its bound, is queued once, whole, behind all that its channel queued earlier.
pub fn calls_proceed_in_order()
    ensures { CallsProceedInOrder }
{}

/// The messages of a channel that are queued and its bounds, and those of its calls that wait, in this order, are the
/// same before and after calls proceed.
pub fn proceeding_keeps_order()
    ensures { ProceedingKeepsOrder }
{}

/// Whatever calls proceeded, a call that bounds what its channel sends passes no message of an earlier call of the
/// channel, and no message of a later one passes the bound.
pub fn bounds_keep_their_places()
    ensures { BoundsKeepTheirPlaces }
{}

/// Whatever calls of other channels wait, or were notified and do not come, and whatever their permits hold: where no message is unwritten, a first call
/// whose channel's own slot is free, and which was not notified, waits for guarantees alone.
pub fn no_head_of_line_blocking()
    ensures { NoHeadOfLineBlocking }
{}

/// A first call that has its guarantees and a slot waits for bytes: its own, or those of a channel that sent no later.
pub fn first_calls_wait_for_bytes()
    ensures { FirstCallsWaitForBytes }
{}

/// Whatever calls proceeded, the peer accepted each message: so what is true of all peers is true of this one.
pub fn runs_are_calls()
    ensures { RunsAreCalls }
{}

/// Where a channel takes two turns, and another one none between, the first call of that other one did not wait for
/// bytes alone when the channel took the second: so while a call does, each other channel takes one turn at most.
pub fn each_sends_once_meanwhile()
    ensures { EachSendsOnceMeanwhile }
{}

/// While a channel is passed, another channel sends nothing more of which a message is queued: so each other channel
/// passes it once at most, until its call comes or a frame leaves the outbound queue.
pub fn passed_channels_are_spared()
    ensures { PassedChannelsAreSpared }
{}

/// Each call counts the turns so: one more where a channel sent or was granted a permit, and none where all else
/// happened, a message that was sent by a permit and a bound, too.
pub fn each_call_is_counted()
    ensures { EachCallIsCounted }
{}
