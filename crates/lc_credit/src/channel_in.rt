//! The reading side of one channel's credit.
ghost use Rattle.std.specs.Prelude.{◌≡◌, ◌+◌, ◌≤◌, OnOk, IfErr, false, ◌∷◌, ◌++◌};
ghost use Rattle.lc_frame.specs.Kind.{max_amount, max_total};
ghost use Rattle.lc_book.specs.Limit.{is_past, less};
ghost use Rattle.lc_book.specs.declared.fault.Violation.{Violation as AnyViolation};
ghost use Rattle.lc_credit.specs.declared.history.Entry.TheVariants.{Received};
ghost use Rattle.lc_credit.specs.History.{is_incoming, Makes};
ghost use Rattle.lc_credit.specs.Sides.{IsIdle, IsIncoming, LoadsIn, IsAdded, IsNotAdded, IsLimited, IsPastLimit, IsAsked, IsSettled};

use crate::balance::Balance;
use crate::credit_out::CreditOut;
use crate::rule::{AddReceived, CreditKept, LoadIn, LoadLast, StoreAsked, TwoSides, View};
use atomic_table::{Seat, Table};
use lc_book::Violation;
use lc_frame::{MAX_AMOUNT, MAX_TOTAL};
use std::alloc::Global;
use std::fmt;
use std::fmt::{Debug, Formatter};
use std::marker::Model;
use std::sync::Arc;

/// The credit word and the asked word.
pub(crate) type Words = Table<(), View, (), CreditKept, Global>;

pub(crate) const CREDIT: usize = 0;

pub(crate) const ASKED: usize = 1;

/// One channel's credit, as the thread that reads frames has it.
pub(crate) struct ChannelIn {
    pub(crate) words: Arc<Words, Global>,
    pub(crate) seat: Seat<(), View>,
    pub(crate) received: u64,
    pub(crate) left: Option<u64>,
}

// One call, wherever a side is dropped.
impl Drop for ChannelIn {
    fn drop(self) {
        let ChannelIn {
            words: _,
            seat: _,
            received: _,
            left: _,
        } = self;
    }
}

impl Model for ChannelIn {
    ghost use Rattle.std.specs.Prelude.{◌≡◌};
    ghost use Rattle.std.specs.Arc.{arc_value};
    ghost use Rattle.lc_credit.specs.Rule.{seen_of, looks_of, IsReading};
    ghost use Rattle.lc_credit.specs.Sides.{Incoming, IsIncoming};

    ghost Value = { Incoming };

    ghost view = { λ c. record { credit = c.seat.table_id; seen = seen_of c.seat.me.0; looks = looks_of c.seat.me.0; received = c.received; left = c.left } };

    ghost invariant = { λ c. (c.seat.table_id ≡ (arc_value c.words).shared.table_id) × (c.seat.table_id.words ≡ 2) × IsReading c.seat.me × IsIncoming (record { credit = c.seat.table_id; seen = seen_of c.seat.me.0; looks = looks_of c.seat.me.0; received = c.received; left = c.left }) };
}

impl Debug for ChannelIn {
    fn fmt<W: fmt::Write>(&self, f: &mut Formatter<W>) -> fmt::Result {
        f.debug_struct("ChannelIn")
            .field("received", &self.received)
            .field("left", &self.left)
            .finish_non_exhaustive()
    }
}

impl ChannelIn {
    // Loads the credit word.
    fn load(&mut self) -> u64
        ensures loads { LoadsIn result self.old self.new }
        ensures kept { IsIncoming self.new }
    {
        self.words.shared.load::<LoadIn>(&mut self.seat, CREDIT)
    }

    // Raises the credit word.
    fn raise(&mut self, n: u32)
        requires within { is_past self.old.left n ≡ false }
        requires total { self.old.received + n ≤ max_total }
        ensures makes { Makes is_incoming self.old.seen (Received n) self.new.seen }
        ensures kept { IsIncoming self.new }
        ensures after { self.new ≡ record self.old { seen = self.new.seen; received = self.old.received + n; left = less self.old.left n } }
    {
        let amount = u64::from(n);
        self.words
            .shared
            .fetch_add::<AddReceived>(&mut self.seat, CREDIT, amount);
        self.received += amount;
        if let Some(left) = self.left {
            self.left = Some(left - amount);
        }
    }

    /// `n` guarantees arrive. Violations V5, V6 and V8, in this order.
    pub(crate) fn add(&mut self, n: u32) -> Result<(), Violation>
        requires { n ≤ max_amount }
        ensures ok { OnOk result (IsAdded n self.old self.new) }
        ensures err { IfErr result (λ v. IsNotAdded v n self.old self.new) }
        ensures kept { IsIncoming self.new }
        ensures same { self.new.credit ≡ self.old.credit }
    {
        let amount = u64::from(n);
        if let Some(left) = self.left
            && amount > left
        {
            return Err(Violation::IssuedPastLimit);
        }
        if self.load() + amount > u64::from(MAX_AMOUNT) {
            return Err(Violation::TooManyGuarantees);
        }
        if self.received + amount > MAX_TOTAL {
            return Err(Violation::TotalPassed);
        }
        self.raise(n);
        Ok(())
    }

    /// The server's limit arrives. Violation V7.
    pub(crate) fn receiving_limited(&mut self, bound: u64) -> Result<(), Violation>
        requires { bound ≤ max_total }
        ensures ok { OnOk result (IsLimited bound self.old self.new) }
        ensures err { IfErr result (λ v. (v ≡ AnyViolation.ReceiveLimitRaised) × IsPastLimit bound self.old self.new) }
        ensures same { self.new.credit ≡ self.old.credit }
    {
        if let Some(left) = self.left
            && bound > left
        {
            return Err(Violation::ReceiveLimitRaised);
        }
        self.left = Some(bound);
        Ok(())
    }

    /// A plead arrives, in place of one that was not taken.
    pub(crate) fn ask(&mut self, target: u32)
        requires { target ≤ max_amount }
        ensures asked { IsAsked target self.old self.new }
        ensures same { self.new.credit ≡ self.old.credit }
    {
        let asked = u64::from(target) + 1;
        self.words
            .shared
            .store::<StoreAsked>(&mut self.seat, ASKED, asked);
    }

    /// Takes the sending end in, and settles the channel. What is left in the word is held, or
    /// waived where the end is finished.
    pub(crate) fn settle(&mut self, end: CreditOut) -> Balance
        requires matched { self.old.credit ≡ end.credit }
        requires idle { IsIdle end }
        ensures same { self.new ≡ self.old }
        ensures settled { IsSettled self.old end result }
    {
        let CreditOut {
            words: _,
            seat,
            spent,
            absolved,
            waived,
            pending: _,
        } = end;
        self.words
            .shared
            .join_seat::<TwoSides>(&mut self.seat, seat);
        let left = self.words.shared.load::<LoadLast>(&mut self.seat, CREDIT);
        drop(self.words.shared.split_seat::<TwoSides>(&mut self.seat));
        let (held, waived) = match waived {
            Some(taken) => (0, taken + left),
            None => (left, 0),
        };
        Balance {
            received: self.received,
            held,
            spent,
            absolved,
            waived,
        }
    }
}
