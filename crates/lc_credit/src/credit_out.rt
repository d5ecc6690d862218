//! The sending end of one channel's credit.
ghost use Rattle.std.specs.Prelude.{◌≡◌, ◌+◌, ◌-◌, ◌≤◌, ◌<◌, OnOk, IfErr, IfSome, IfNone, IsSome, None, Some, is_some};
ghost use Rattle.std.specs.Option.{option_map};
ghost use Rattle.lc_frame.specs.Kind.{max_amount, max_total};
ghost use Rattle.lc_credit.specs.declared.history.Entry.TheVariants.{Used, Returned, Taken};
ghost use Rattle.lc_credit.specs.History.{is_outgoing, last_use, Learns, Makes, waiting};
ghost use Rattle.lc_credit.specs.Rule.{TakesOut};
ghost use Rattle.lc_credit.specs.Sides.{IsIdle, IsUnfinished, IsOutgoing, LoadsOut, Holds, IsUsed, IsNotSpent, IsNotAbsolved, IsWaived, counted, given_back};
ghost use Rattle.lc_credit.specs.Channels.{SameCredit};

use crate::channel_in::{ASKED, CREDIT, Words};
use crate::rule::{AddReturned, LoadOut, SubtractUsed, SwapAsked, View};
use atomic_table::Seat;
use lc_book::Refusal;
use lc_frame::MAX_AMOUNT;
use std::alloc::Global;
use std::fmt;
use std::fmt::{Debug, Formatter};
use std::marker::Model;
use std::sync::Arc;

/// What guarantees are used for.
#[derive(Clone, Copy, Debug, PartialEq, Eq)]
pub enum Use {
    Spend,
    Absolve,
}

/// What left the credit word and is not counted yet.
#[derive(Clone, Copy, Debug, PartialEq, Eq)]
pub struct Pending {
    pub(crate) kind: Use,
    pub(crate) amount: u32,
}

/// One channel's credit, as the thread that sends there has it. All numbers count bytes of
/// messages.
///
/// A use has two halves: [`spend`](CreditOut::spend) or [`absolve`](CreditOut::absolve) takes the
/// amount out of the credit, which leaves it pending; then, by whether its frame was put,
/// [`confirm`](CreditOut::confirm) counts it or [`give_back`](CreditOut::give_back) undoes it.
///
/// [`finish`](CreditOut::finish) is the last use: it waives what the credit has, and what still
/// comes.
#[derive(Drop)]
pub struct CreditOut {
    pub(crate) words: Arc<Words, Global>,
    pub(crate) seat: Seat<(), View>,
    pub(crate) spent: u64,
    pub(crate) absolved: u64,
    // What was taken out of the credit word when the end was finished.
    pub(crate) waived: Option<u64>,
    pub(crate) pending: Option<Pending>,
}

impl Model for CreditOut {
    ghost use Rattle.std.specs.Prelude.{◌≡◌};
    ghost use Rattle.std.specs.Arc.{arc_value};
    ghost use Rattle.lc_credit.specs.Rule.{seen_of, looks_of, least_of, IsSending};
    ghost use Rattle.lc_credit.specs.Sides.{Outgoing, IsOutgoing};

    ghost Value = { Outgoing };

    ghost view = { λ c. record { credit = c.seat.table_id; seen = seen_of c.seat.me.0; looks = looks_of c.seat.me.0; spent = c.spent; absolved = c.absolved; waived = c.waived; pending = c.pending; least = least_of c.seat.me.0 } };

    ghost invariant = { λ c. (c.seat.table_id ≡ (arc_value c.words).shared.table_id) × (c.seat.table_id.words ≡ 2) × IsSending (least_of c.seat.me.0) c.seat.me × IsOutgoing (record { credit = c.seat.table_id; seen = seen_of c.seat.me.0; looks = looks_of c.seat.me.0; spent = c.spent; absolved = c.absolved; waived = c.waived; pending = c.pending; least = least_of c.seat.me.0 }) };
}

impl Debug for CreditOut {
    fn fmt<W: fmt::Write>(&self, f: &mut Formatter<W>) -> fmt::Result {
        f.debug_struct("CreditOut")
            .field("spent", &self.spent)
            .field("absolved", &self.absolved)
            .field("waived", &self.waived)
            .field("pending", &self.pending)
            .finish_non_exhaustive()
    }
}

impl CreditOut {
    // Loads the credit word.
    fn load(&mut self) -> u64
        ensures loads { LoadsOut result self.old self.new }
        ensures small { result ≤ max_total }
        ensures kept { IsOutgoing self.new }
        ensures same { SameCredit self.old self.new }
    {
        self.words.shared.load::<LoadOut>(&mut self.seat, CREDIT)
    }

    /// The guarantees held, 0 to 2^62: the credit word as it is. More may come at any time, and
    /// only this end uses them up. A finished end holds nothing, and does not look.
    pub fn held(&mut self) -> u64
        ensures holds { Holds result self.old self.new }
        ensures small { result ≤ max_total }
        ensures kept { IsOutgoing self.new }
        ensures same { SameCredit self.old self.new }
    {
        if self.is_finished() {
            return 0;
        }
        self.load()
    }

    /// Whether the end is finished: it holds and uses nothing more.
    pub fn is_finished(&self) -> bool
        ensures value { result ≡ is_some self.now.waived }
        ensures kept { IsOutgoing self.now }
    {
        self.waived.is_some()
    }

    /// What was taken out of the credit and is neither confirmed nor given back.
    pub fn pending(&self) -> Option<u32>
        ensures { result ≡ option_map (λ p. p.amount) self.now.pending }
    {
        let pending = self.pending?;
        Some(pending.amount)
    }

    // Lowers the credit word.
    fn lower(&mut self, kind: Use, n: u32)
        requires idle { IsIdle self.old }
        requires unfinished { IsUnfinished self.old }
        requires enough { n ≤ self.old.least }
        ensures makes { Makes is_outgoing self.old.seen (Used n) self.new.seen }
        ensures kept { IsOutgoing self.new }
        ensures after { self.new ≡ record self.old { seen = self.new.seen; pending = Some (record { kind = kind; amount = n }); least = self.old.least - n } }
    {
        let amount = u64::from(n);
        self.words
            .shared
            .fetch_sub::<SubtractUsed>(&mut self.seat, CREDIT, amount);
        self.pending = Some(Pending { kind, amount: n });
    }

    /// `n` bytes are to be sent: they leave the credit and are pending. Refused by 4, with the
    /// guarantees held. Nothing else lowers the credit, so what `held` answered stays enough.
    pub fn spend(&mut self, n: u32) -> Result<(), Refusal>
        requires some { 0 < n }
        requires idle { IsIdle self.old }
        requires unfinished { IsUnfinished self.old }
        ensures ok { OnOk result (IsUsed Use.Spend n self.old self.new) }
        ensures err { IfErr result (λ e. IsNotSpent e n self.old self.new) }
        ensures kept { IsOutgoing self.new }
        ensures same { SameCredit self.old self.new }
    {
        let held = self.load();
        if u64::from(n) > held {
            return Err(Refusal::NoGuarantee { held });
        }
        self.lower(Use::Spend, n);
        Ok(())
    }

    /// `n` guarantees are to be given up: they leave the credit and are pending. Refused by 6, with
    /// the guarantees held, where `n` is above them or above 2^24, the most that one frame carries.
    pub fn absolve(&mut self, n: u32) -> Result<(), Refusal>
        requires some { 0 < n }
        requires idle { IsIdle self.old }
        requires unfinished { IsUnfinished self.old }
        ensures ok { OnOk result (IsUsed Use.Absolve n self.old self.new) }
        ensures small { OnOk result (n ≤ max_amount) }
        ensures err { IfErr result (λ e. IsNotAbsolved e n self.old self.new) }
        ensures kept { IsOutgoing self.new }
        ensures same { SameCredit self.old self.new }
    {
        let held = self.load();
        if u64::from(n) > held || n > MAX_AMOUNT {
            return Err(Refusal::NotHeld { held });
        }
        self.lower(Use::Absolve, n);
        Ok(())
    }

    /// The frame of what is pending was put: it is counted as spent or as absolved.
    pub fn confirm(&mut self)
        requires { IsSome self.old.pending }
        ensures after { IfSome self.old.pending (λ p. self.new ≡ counted p self.old) }
        ensures idle { IsIdle self.new }
        ensures unfinished { IsUnfinished self.new }
        ensures same { SameCredit self.old self.new }
    {
        let Some(pending) = self.pending.take() else {
            unreachable!()
        };
        match pending.kind {
            Use::Spend => self.spent += u64::from(pending.amount),
            Use::Absolve => self.absolved += u64::from(pending.amount),
        }
    }

    /// The frame of what is pending was not put: it goes back into the credit, and the use is undone.
    pub fn give_back(&mut self)
        requires { IsSome self.old.pending }
        ensures undoes { IfSome self.old.pending (λ p. last_use self.old.seen ≡ Some p.amount) }
        ensures makes { IfSome self.old.pending (λ p. Makes is_outgoing self.old.seen (Returned p.amount) self.new.seen) }
        ensures after { IfSome self.old.pending (λ p. self.new ≡ given_back p self.new.seen self.old) }
        ensures idle { IsIdle self.new }
        ensures unfinished { IsUnfinished self.new }
        ensures same { SameCredit self.old self.new }
    {
        let Some(pending) = self.pending else {
            unreachable!()
        };
        self.words
            .shared
            .fetch_add::<AddReturned>(&mut self.seat, CREDIT, u64::from(pending.amount));
        self.pending = None;
    }

    /// The channel is finished: all that the credit has is waived, and so is what comes afterwards,
    /// which stays in the credit word until all is settled. From here on nothing is held or used.
    pub fn finish(&mut self)
        requires idle { IsIdle self.old }
        requires unfinished { IsUnfinished self.old }
        ensures waived { IsWaived self.old self.new }
        ensures kept { IsOutgoing self.new }
        ensures same { SameCredit self.old self.new }
    {
        let left = self.load();
        self.words
            .shared
            .fetch_sub::<SubtractUsed>(&mut self.seat, CREDIT, left);
        self.waived = Some(left);
    }

    // Empties the asked word. 0 says that nothing waited there, else it is the target and 1.
    fn empty_asked(&mut self) -> u64
        ensures takes { TakesOut result self.old.seen self.new.seen }
        ensures small { result ≤ max_amount + 1 }
        ensures after { self.new ≡ record self.old { seen = self.new.seen; looks = self.old.looks + 1 } }
    {
        self.words
            .shared
            .swap::<SwapAsked>(&mut self.seat, ASKED, 0)
    }

    /// The target of the last plead, 0 to 2^24, where it was not taken yet. Each call looks.
    pub fn take_asked(&mut self) -> Option<u32>
        ensures some { IfSome result (λ target. Makes is_outgoing self.old.seen (Taken target) self.new.seen) }
        ensures none { IfNone result (Learns is_outgoing self.old.seen self.new.seen × (waiting self.new.seen ≡ None)) }
        ensures small { IfSome result (λ target. target ≤ max_amount) }
        ensures after { self.new ≡ record self.old { seen = self.new.seen; looks = self.old.looks + 1 } }
        ensures same { SameCredit self.old self.new }
    {
        let asked = self.empty_asked();
        if asked == 0 {
            return None;
        }
        Some((asked - 1) as u32)
    }
}
