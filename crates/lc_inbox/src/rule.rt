//! The rule of a shared inbox, and the steps that are made on it.
//!
//! The inbox lies in the one slot of a table, on which each side has a seat, and the table's one
//! word says which side has it, 0 for none. A seat's view is what its side knows of the history.
use crate::history::Entry;
use crate::inbox_end::InboxEnd;
use atomic_table::{Join, Play, Split, TableRule};
use lc_frame::Channel;
use lc_queue::LaneEnd;
use std::collections::LinkedList;
use std::marker::{Brand, PhantomData};
use std::snapshot::Snapshot;

/// What an inbox is of: its channel, the bytes of its ring, and the lane that it puts on.
#[derive(Drop)]
pub struct Key {
    pub channel: Channel,
    pub capacity: u32,
    pub lane: Snapshot<LaneEnd>,
}

/// What a seat knows: how the history began, and how many turns its side had. A side is true where it
/// reads, and false where it receives. Nothing but taking the inbox raises the turns, so a side that
/// answers from memory is found out by the turn that is missing. No value of it is made.
pub enum View {
    /// The seat of a side that has not got the inbox.
    Idle(Key, bool, LinkedList<Entry>, u64),
    /// The seat of a side that has the inbox, and so the whole history too.
    Has(Key, bool, LinkedList<Entry>, u64, LinkedList<Entry>),
    /// The one seat of both sides, before they are parted and when they end.
    Both(Key, LinkedList<Entry>, LinkedList<Entry>),
    /// A seat that another has taken in, or that has taken the inbox for good.
    Closed,
}

/// What a side did while it had the inbox. Each call picks it.
pub trait Told {
    ghost use Rattle.std.specs.Prelude.{List};
    ghost use Rattle.lc_inbox.specs.declared.history.Entry.{Entry};

    ghost entries: { List Entry };
}

impl Told for Brand {
    ghost use Rattle.std.specs.Prelude.{[]};

    ghost entries = { [] };
}

/// The rule of the table.
pub struct InboxRule;

impl TableRule<Option<InboxEnd>, View, Key> for InboxRule {
    ghost use Rattle.std.specs.Prelude.{[]};
    ghost use Rattle.lc_inbox.specs.declared.rule.View.TheVariants.{Both};
    ghost use Rattle.lc_inbox.specs.Rule.{KeepsInbox};

    ghost holds = { KeepsInbox };

    ghost first = { λ key. Both key [] [] };
}

/// Both sides are parted, or come together.
pub struct TwoSides;

impl Split<View> for TwoSides {
    ghost use Rattle.lc_inbox.specs.Rule.{reading_of, receiving_of};

    ghost left = { reading_of };

    ghost right = { receiving_of };
}

impl Join<View> for TwoSides {
    ghost use Rattle.lc_inbox.specs.declared.rule.View.TheVariants.{Closed};
    ghost use Rattle.lc_inbox.specs.Rule.{both_of};

    ghost both = { both_of };

    ghost spent = { Closed };
}

/// A side takes the inbox, if no side has it.
pub struct Seize;

impl Play<Option<InboxEnd>, View> for Seize {
    ghost use Rattle.lc_inbox.specs.Rule.{Seized};

    ghost then = { λ step old found new. Seized old found new };
}

/// A side gives the inbox back.
pub struct Return<N: Told> {
    told: PhantomData<N>,
}

impl<N: Told> Play<Option<InboxEnd>, View> for Return<N> {
    ghost use Rattle.lc_inbox.specs.Rule.{Returned};

    ghost then = { λ step old found new. Returned N.entries old new };
}

/// Both sides together take the inbox for good.
pub struct SeizeLast;

impl Play<Option<InboxEnd>, View> for SeizeLast {
    ghost use Rattle.lc_inbox.specs.Rule.{SeizedLast};

    ghost then = { λ step old found new. SeizedLast old found new };
}
