//! Laws over all histories of an inbox, each the contract of a function that does nothing.
ghost use Rattle.lc_inbox.specs.History.{EveryHistoryIsInOrder};
ghost use Rattle.lc_inbox.specs.Sides.{EveryFinishIsInOrder};

/// In every history the messages that arrived are those that were taken, and then those that wait.
pub fn messages_are_taken_in_order()
    ensures { EveryHistoryIsInOrder }
{}

/// Where both sides have ended, the messages that the receiving side took are the first of those
/// that the reading side heard.
pub fn what_was_taken_was_heard_first()
    ensures { EveryFinishIsInOrder }
{}
