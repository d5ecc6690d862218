//! Laws over the histories, each the contract of a function that does nothing.
ghost use Rattle.std.specs.Prelude.{List};
ghost use Rattle.lc_credit.specs.declared.history.Entry.{Entry as AnyEntry};
ghost use Rattle.lc_credit.specs.History.{IsHistory, CoversEachUse};
ghost use Rattle.lc_credit.specs.Targets.{AreTakenInTurn};

/// At each use in a history, what was used by then, less what came back, is at most what had been
/// received before it.
pub fn uses_are_covered()
    ensures { (history : List AnyEntry) → IsHistory history → CoversEachUse history }
{}

/// The targets that a sending end takes are some of those that were asked, in their order, each
/// once; and what waits is the last of them.
pub fn targets_are_taken_in_turn()
    ensures { (history : List AnyEntry) → IsHistory history → AreTakenInTurn history }
{}
