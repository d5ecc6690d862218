//! A law over all histories, the contract of a function that does nothing.
ghost use Rattle.std.specs.Prelude.{List};
ghost use Rattle.lc_history.specs.History.{KnowsItsOwn};

/// What a side has seen of a history has all that the side's own entries carry there, in order.
pub fn sides_know_their_own<E>()
    ensures { (seen : List E) (history : List E) → KnowsItsOwn seen history }
{}
