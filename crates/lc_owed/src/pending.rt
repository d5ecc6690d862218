//! The pending control frames of a channel, and which calls are accepted beside them.
ghost use Rattle.std.specs.Prelude.{◌≡◌, ◌+◌, ◌<◌, ◌≤◌, ◌^◌, false, OnOk};
ghost use Rattle.std.specs.Result.{result_err};
ghost use Rattle.lc_frame.specs.Kind.{max_amount};
ghost use Rattle.lc_book.specs.Server.{outstanding, room, issue_refusal, plead_refusal, limit_receiving_refusal};
ghost use Rattle.lc_book.specs.Client.{absolve_refusal};
ghost use Rattle.lc_owed.specs.Pending.{nothing_pending, beside, spared, with_issue, with_limit, with_plead, with_absolve, with_honour};
ghost use Rattle.lc_owed.specs.Due.{without};

use crate::due::Due;
use lc_book::{ClientBook, Refusal, ServerBook};
use lc_frame::MAX_TOTAL;
use lc_lines::{Aside, Control};

/// The pending control frames of a channel: of each kind one, in the order in which they are put.
#[derive(Clone, Copy)]
pub struct Pending {
    /// The guarantees that its receiver issues.
    pub issue: u32,
    /// The limit on receiving.
    pub limit: Option<u64>,
    /// The target of the plead.
    pub plead: Option<u32>,
    /// The guarantees that its sender absolves.
    pub absolve: u32,
    /// Whether its sender honours the plead that it keeps.
    pub honour: bool,
}

/// What is accepted beside what is pending.
impl Pending {
    /// Nothing is pending.
    pub fn none() -> Pending
        ensures { result ≡ nothing_pending }
    {
        Pending {
            issue: 0,
            limit: None,
            plead: None,
            absolve: 0,
            honour: false,
        }
    }

    /// The guarantees outstanding once the pending issue was put.
    pub fn outstanding(&self, book: &ServerBook) -> u64
        ensures value { result ≡ outstanding (beside book.now self.now) }
        ensures small { result < 2 ^ 33 }
    {
        // Its contract says what every book keeps.
        let _room = book.room();
        if book.is_finished() {
            0
        } else {
            book.outstanding() + u64::from(self.issue)
        }
    }

    /// The bytes of the ring that may be issued beside the pending issue.
    pub fn room(&self, book: &ServerBook) -> u64
        ensures value { result ≡ room (beside book.now self.now) }
        ensures small { result ≤ max_amount }
        ensures joined { book.now.finished ≡ false → 0 < result → self.now.issue + result ≤ max_amount }
    {
        let room = book.room();
        if book.is_finished() {
            room
        } else {
            room.saturating_sub(u64::from(self.issue))
        }
    }

    /// What the limits on receiving leave once what is pending was put.
    pub fn left(&self, book: &ServerBook) -> Option<u64>
        ensures { result ≡ (beside book.now self.now).receive_left }
    {
        if let Some(bound) = self.limit {
            return Some(bound);
        }
        match book.receive_left() {
            Some(left) => Some(left.saturating_sub(u64::from(self.issue))),
            None => None,
        }
    }

    /// Why an issue is refused: by 15, 5, 9, 10 and 12, in this order.
    pub fn judge_issue(&self, book: &ServerBook, n: u32) -> Result<(), Refusal>
        ensures answer { result_err result ≡ issue_refusal (beside book.now self.now) n }
        ensures small { OnOk result (self.now.issue + n ≤ max_amount) }
    {
        if book.is_finished() {
            return Err(Refusal::ChannelFinished);
        }
        if n == 0 {
            return Err(Refusal::ZeroAmount);
        }
        let amount = u64::from(n);
        if let Some(left) = self.left(book)
            && amount > left
        {
            return Err(Refusal::PastReceiveLimit { left });
        }
        let room = self.room(book);
        if amount > room {
            return Err(Refusal::NoRoom { room });
        }
        if book.issued() + u64::from(self.issue) + amount > MAX_TOTAL {
            return Err(Refusal::TotalReached);
        }
        Ok(())
    }

    /// Why a limit on receiving is refused: by 15, 7 and 8, in this order.
    pub fn judge_limit(&self, book: &ServerBook, bound: u64) -> Result<(), Refusal>
        ensures { result_err result ≡ limit_receiving_refusal (beside book.now self.now) bound }
    {
        if book.is_finished() {
            return Err(Refusal::ChannelFinished);
        }
        if bound > MAX_TOTAL {
            return Err(Refusal::BoundTooLarge);
        }
        if let Some(left) = self.left(book)
            && bound > left
        {
            return Err(Refusal::LimitRaised { left });
        }
        Ok(())
    }

    /// Why a plead is refused: by 15 and 11, in this order.
    pub fn judge_plead(&self, book: &ServerBook, target: u32) -> Result<(), Refusal>
        ensures { result_err result ≡ plead_refusal (beside book.now self.now) target }
    {
        if book.is_finished() {
            return Err(Refusal::ChannelFinished);
        }
        let outstanding = self.outstanding(book);
        if outstanding <= u64::from(target) {
            return Err(Refusal::NothingToAsk { outstanding });
        }
        Ok(())
    }

    /// Why an absolve is refused, beside what permits set aside, too: by 15, 5 and 6, in this order.
    pub fn judge_absolve(&self, book: &ClientBook, aside: Aside, n: u32) -> Result<(), Refusal>
        ensures answer { result_err result ≡ absolve_refusal (spared book.now aside self.now) n }
        ensures small { OnOk result (self.now.absolve + n ≤ max_amount) }
    {
        if book.is_finished() {
            return Err(Refusal::ChannelFinished);
        }
        if n == 0 {
            return Err(Refusal::ZeroAmount);
        }
        let held = book.held().saturating_sub(u64::from(self.absolve));
        let held = held.saturating_sub(aside.bytes);
        if u64::from(n) > held {
            return Err(Refusal::NotHeld { held });
        }
        Ok(())
    }
}

/// What is pending once a call is accepted, or its frame is put.
impl Pending {
    /// An issue joins the pending one.
    pub fn with_issue(self, n: u32) -> Pending
        requires { self.issue + n < 2 ^ 32 }
        ensures { result ≡ with_issue self n }
    {
        Pending {
            issue: self.issue + n,
            limit: match self.limit {
                Some(left) => Some(left.saturating_sub(u64::from(n))),
                None => None,
            },
            plead: match self.plead {
                Some(target) => Some(target.saturating_add(n)),
                None => None,
            },
            absolve: self.absolve,
            honour: self.honour,
        }
    }

    /// A limit on receiving takes the place of the pending one.
    pub fn with_limit(self, bound: u64) -> Pending
        ensures { result ≡ with_limit self bound }
    {
        Pending {
            limit: Some(bound),
            ..self
        }
    }

    /// A plead takes the place of the pending one.
    pub fn with_plead(self, target: u32) -> Pending
        ensures { result ≡ with_plead self target }
    {
        Pending {
            plead: Some(target),
            ..self
        }
    }

    /// An absolve joins the pending one.
    pub fn with_absolve(self, n: u32) -> Pending
        requires { self.absolve + n < 2 ^ 32 }
        ensures { result ≡ with_absolve self n }
    {
        Pending {
            absolve: self.absolve + n,
            ..self
        }
    }

    /// An honour is pending.
    pub fn with_honour(self) -> Pending
        ensures { result ≡ with_honour self }
    {
        Pending {
            honour: true,
            ..self
        }
    }

    /// What was due is no longer pending.
    pub fn without(self, due: Due) -> Pending
        ensures { result ≡ without self due }
    {
        match due {
            Due::Put(Control::Issue { .. }) => Pending { issue: 0, ..self },
            Due::Put(Control::LimitReceiving { .. }) => Pending {
                limit: None,
                ..self
            },
            Due::Put(Control::Plead { .. }) => Pending {
                plead: None,
                ..self
            },
            Due::Put(Control::Absolve { .. }) => Pending { absolve: 0, ..self },
            Due::Honour(_) => Pending {
                honour: false,
                ..self
            },
        }
    }
}
