//! The rule of a credit's two words, and the steps that are made on them.
//!
//! The words lie in a table, on which each side has a seat. A seat's view is what its side knows of
//! the history. Each step has to keep the rule, and tells its side what it may know afterwards.
use crate::history::Entry;
use atomic_table::{Join, Play, Split, TableRule};
use std::collections::LinkedList;

/// What a seat knows: how the history began, and how often its side has looked at a word. Nothing but
/// a step changes it, so a side that answers from memory is found out by the looks that are missing.
/// No value of it is made.
pub enum View {
    /// The seat of the reading side.
    Reading(LinkedList<Entry>, u64),
    /// The seat of the sending end, and a number that the credit word has at least.
    Sending(LinkedList<Entry>, u64, u64),
    /// The one seat of both sides, before they are parted and when they settle: what the reading side
    /// knows, and what the sending end has seen.
    Both(LinkedList<Entry>, u64, LinkedList<Entry>),
    /// A seat that another has taken in.
    Closed,
}

/// Both words are those that one history leaves, of which each side knows its part.
pub struct CreditKept;

impl TableRule<(), View, ()> for CreditKept {
    ghost use Rattle.std.specs.Prelude.{[]};
    ghost use Rattle.lc_credit.specs.declared.rule.View.TheVariants.{Both};
    ghost use Rattle.lc_credit.specs.Rule.{KeepsCredit};

    ghost holds = { λ _. KeepsCredit };

    ghost first = { λ _. Both [] 0 [] };
}

/// Both sides are parted, or come together.
pub struct TwoSides;

impl Split<View> for TwoSides {
    ghost use Rattle.lc_credit.specs.Rule.{reading_of, sending_of};

    ghost left = { reading_of };

    ghost right = { sending_of };
}

impl Join<View> for TwoSides {
    ghost use Rattle.lc_credit.specs.declared.rule.View.TheVariants.{Closed};
    ghost use Rattle.lc_credit.specs.Rule.{both_of};

    ghost both = { both_of };

    ghost spent = { Closed };
}

/// The reading side loads the credit word.
pub struct LoadIn;

impl Play<(), View> for LoadIn {
    ghost use Rattle.lc_credit.specs.Rule.{LoadedIn};

    ghost then = { LoadedIn };
}

/// The reading side adds what was received.
pub struct AddReceived;

impl Play<(), View> for AddReceived {
    ghost use Rattle.lc_credit.specs.Rule.{AddedReceived};

    ghost then = { AddedReceived };
}

/// The reading side stores a target in the asked word.
pub struct StoreAsked;

impl Play<(), View> for StoreAsked {
    ghost use Rattle.lc_credit.specs.Rule.{StoredAsked};

    ghost then = { StoredAsked };
}

/// The sending end loads the credit word.
pub struct LoadOut;

impl Play<(), View> for LoadOut {
    ghost use Rattle.lc_credit.specs.Rule.{LoadedOut};

    ghost then = { LoadedOut };
}

/// The sending end subtracts what it uses, or waives.
pub struct SubtractUsed;

impl Play<(), View> for SubtractUsed {
    ghost use Rattle.lc_credit.specs.Rule.{SubtractedUsed};

    ghost then = { SubtractedUsed };
}

/// The sending end adds what it gives back.
pub struct AddReturned;

impl Play<(), View> for AddReturned {
    ghost use Rattle.lc_credit.specs.Rule.{AddedReturned};

    ghost then = { AddedReturned };
}

/// The sending end takes the target out of the asked word.
pub struct SwapAsked;

impl Play<(), View> for SwapAsked {
    ghost use Rattle.lc_credit.specs.Rule.{SwappedAsked};

    ghost then = { SwappedAsked };
}

/// Both sides together load the credit word.
pub struct LoadLast;

impl Play<(), View> for LoadLast {
    ghost use Rattle.lc_credit.specs.Rule.{LoadedLast};

    ghost then = { LoadedLast };
}
