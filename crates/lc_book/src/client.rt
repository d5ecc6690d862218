//! The client's book: guarantees received, spent, absolved and waived, both limits, and the plead
//! that is kept.
ghost use Rattle.std.specs.Prelude.{◌≡◌, ◌+◌, ◌<◌, ◌≤◌, ◌↔◌, if◌then◌else◌, is_ok, true, None, IsSome, IfSome, IfOk, IsTrue, OnOk};
ghost use Rattle.std.specs.Result.{result_err};
ghost use Rattle.std.specs.Option.{ForSome};
ghost use Rattle.lc_frame.specs.declared.kind.Kind.TheVariants.{Finish};
ghost use Rattle.lc_frame.specs.Kind.{has, max_amount, max_total};
ghost use Rattle.lc_book.specs.Client.{IsClient, AreClientParts, client_of_parts, new_client, waived, held, spend_refusal, spend, absolve_refusal, absolve, honour_refusal, amount_to_absolve, honour, limit_sending_refusal, limit_client, finish_refusal, finish, issued_violation, add_received, keep_plead, receive_limit_violation, note_receive_limit};

use crate::fault::{Refusal, Violation};
use crate::finish::{check_own, waived_of};
use crate::limit::{check_limit, is_bound, judge_left, judge_message, use_up};
use lc_frame::{MAX_AMOUNT, MAX_TOTAL, Version};
use std::marker::Model;

/// The book of a channel direction at its client. All numbers count bytes of messages.
#[derive(Clone, Copy, Debug, PartialEq, Eq)]
pub struct ClientBook {
    version: Version,
    received: u64,
    spent: u64,
    absolved: u64,
    send_left: Option<u64>,
    receive_left: Option<u64>,
    asked: Option<u32>,
    finished: bool,
}

impl Model for ClientBook {
    ghost use Rattle.lc_book.specs.Client.{Client, IsClient};

    ghost Value = { Client };

    ghost view = { λ b. record { version = b.version; received = b.received; spent = b.spent; absolved = b.absolved; send_left = b.send_left; receive_left = b.receive_left; asked = b.asked; finished = b.finished } };

    ghost invariant = { λ b. IsClient (record { version = b.version; received = b.received; spent = b.spent; absolved = b.absolved; send_left = b.send_left; receive_left = b.receive_left; asked = b.asked; finished = b.finished }) };

    ghost inverse = { λ b. record { version = b.version; received = b.received; spent = b.spent; absolved = b.absolved; send_left = b.send_left; receive_left = b.receive_left; asked = b.asked; finished = b.finished } };
}

/// The fields of a client's book, by name, the numbers in bytes of messages.
#[derive(Clone, Copy, Debug)]
pub struct ClientParts {
    /// The version of the stream on which messages are sent, which bounds their length.
    pub version: Version,
    /// All guarantees that arrived, 0 to 2^62.
    pub received: u64,
    /// The guarantees that messages used up.
    pub spent: u64,
    /// The guarantees that were given up.
    pub absolved: u64,
    /// The guarantees that were given up by finishing: what was held then, and all that came later.
    pub waived: u64,
    /// What may still be sent, 0 to 2^62; `None` without a limit.
    pub send_left: Option<u64>,
    /// What the server may still issue, 0 to 2^62; `None` without a limit.
    pub receive_left: Option<u64>,
    /// The target of the plead that is kept, 0 to 2^24; `None` where none is kept.
    pub asked: Option<u32>,
    /// Whether the client finished the channel.
    pub finished: bool,
}

impl ClientBook {
    /// The book of a channel on which nothing has happened, where messages go on a stream of this
    /// version.
    pub fn new(version: Version) -> ClientBook
        ensures { result ≡ new_client version }
    {
        ClientBook {
            version,
            received: 0,
            spent: 0,
            absolved: 0,
            send_left: None,
            receive_left: None,
            asked: None,
            finished: false,
        }
    }

    /// A book of these fields, `None` exactly where they break what every book keeps: what was
    /// spent, absolved and waived is at most what was received, what was received and both limits
    /// are at most 2^62, what is held and the target asked for at most 2^24. A client that finished
    /// holds nothing, keeps no plead and is not of version One; one that did not waived nothing. For
    /// tests.
    pub fn restore(parts: ClientParts) -> Option<ClientBook>
        ensures valid { IsSome result ↔ AreClientParts parts }
        ensures value { IfSome result (λ b. b ≡ client_of_parts parts) }
    {
        let ClientParts {
            version,
            received,
            spent,
            absolved,
            waived,
            send_left,
            receive_left,
            asked,
            finished,
        } = parts;
        if received > MAX_TOTAL || spent > received || absolved > received - spent {
            return None;
        }
        let unused = received - spent - absolved;
        if waived != waived_of(finished, unused) || unused - waived > u64::from(MAX_AMOUNT) {
            return None;
        }
        if finished && (asked.is_some() || !version.has_finish()) {
            return None;
        }
        if !is_bound(send_left) || !is_bound(receive_left) || !is_target(asked) {
            return None;
        }
        Some(ClientBook {
            version,
            received,
            spent,
            absolved,
            send_left,
            receive_left,
            asked,
            finished,
        })
    }

    /// The version of the stream on which messages are sent.
    pub fn version(&self) -> Version
        ensures { result ≡ self.now.version }
    {
        self.version
    }

    /// The guarantees held, 0 to 2^24: received, and neither spent, absolved nor waived.
    pub fn held(&self) -> u64
        ensures value { result ≡ held self.now }
        ensures small { result ≤ max_amount }
        ensures sum { result + self.now.spent + self.now.absolved + waived self.now ≡ self.now.received }
        ensures kept { IsClient self.now }
    {
        let unused = self.received - self.spent - self.absolved;
        if self.finished { 0 } else { unused }
    }

    /// All guarantees that arrived, 0 to 2^62.
    pub fn received(&self) -> u64
        ensures value { result ≡ self.now.received }
        ensures small { result ≤ max_total }
    {
        self.received
    }

    /// The guarantees that messages used up, 0 to 2^62.
    pub fn spent(&self) -> u64
        ensures value { result ≡ self.now.spent }
        ensures within { result + self.now.absolved ≤ self.now.received }
        ensures small { result ≤ max_total }
    {
        self.spent
    }

    /// The guarantees that were given up, 0 to 2^62.
    pub fn absolved(&self) -> u64
        ensures value { result ≡ self.now.absolved }
        ensures within { self.now.spent + result ≤ self.now.received }
        ensures small { result ≤ max_total }
    {
        self.absolved
    }

    /// The guarantees that were given up by finishing, 0 to 2^62: what was held then, and all that
    /// came later.
    pub fn waived(&self) -> u64
        ensures value { result ≡ waived self.now }
        ensures within { self.now.spent + self.now.absolved + result ≤ self.now.received }
        ensures small { result ≤ max_total }
    {
        waived_of(self.finished, self.received - self.spent - self.absolved)
    }

    /// What may still be sent, 0 to 2^62; `None` without a limit.
    pub fn send_left(&self) -> Option<u64>
        ensures value { result ≡ self.now.send_left }
        ensures small { IfSome result (λ left. left ≤ max_total) }
    {
        self.send_left
    }

    /// What the server may still issue, 0 to 2^62; `None` without a limit.
    pub fn receive_left(&self) -> Option<u64>
        ensures value { result ≡ self.now.receive_left }
        ensures small { IfSome result (λ left. left ≤ max_total) }
    {
        self.receive_left
    }

    /// The target of the plead that is kept, 0 to 2^24; `None` where none is kept.
    pub fn asked(&self) -> Option<u32>
        ensures value { result ≡ self.now.asked }
        ensures small { IfSome result (λ target. target ≤ max_amount) }
    {
        self.asked
    }

    /// Whether the client finished the channel.
    pub fn is_finished(&self) -> bool
        ensures { result ≡ self.now.finished }
    {
        self.finished
    }

    /// What `spend` would answer.
    #[inline]
    pub fn judge_spend(&self, len: u32) -> Result<(), Refusal>
        ensures { result_err result ≡ spend_refusal self.now len }
    {
        check_own(self.finished)?;
        judge_message(self.version, self.send_left, len as usize)?;
        let held = self.held();
        if u64::from(len) > held {
            return Err(Refusal::NoGuarantee { held });
        }
        Ok(())
    }

    /// A message of `len` bytes is sent. Refused by 15, 1, 2, 3 and 4, in this order.
    #[inline]
    pub fn spend(&mut self, len: u32) -> Result<(), Refusal>
        ensures answer { result_err result ≡ spend_refusal self.old len }
        ensures after { self.new ≡ (if is_ok result then spend self.old len else self.old) }
    {
        self.judge_spend(len)?;
        self.note_spent(len);
        Ok(())
    }

    /// A message of `len` bytes is sent that `judge_spend` doesn't refuse.
    #[inline]
    pub fn note_spent(&mut self, len: u32)
        requires { spend_refusal self.old len ≡ None }
        ensures { self.new ≡ spend self.old len }
    {
        self.spent += u64::from(len);
        use_up(&mut self.send_left, u64::from(len));
    }

    /// What `absolve` would answer.
    #[inline]
    pub fn judge_absolve(&self, n: u32) -> Result<(), Refusal>
        ensures answer { result_err result ≡ absolve_refusal self.now n }
        ensures small { OnOk result (n ≤ max_amount) }
    {
        check_own(self.finished)?;
        if n == 0 {
            return Err(Refusal::ZeroAmount);
        }
        let held = self.held();
        if u64::from(n) > held {
            return Err(Refusal::NotHeld { held });
        }
        Ok(())
    }

    /// `n` guarantees are given up. Refused by 15, 5 and 6, in this order.
    #[inline]
    pub fn absolve(&mut self, n: u32) -> Result<(), Refusal>
        ensures answer { result_err result ≡ absolve_refusal self.old n }
        ensures small { OnOk result (n ≤ max_amount) }
        ensures after { self.new ≡ (if is_ok result then absolve self.old n else self.old) }
    {
        self.judge_absolve(n)?;
        self.note_absolved(n);
        Ok(())
    }

    /// `n` guarantees are given up that `judge_absolve` doesn't refuse.
    #[inline]
    pub fn note_absolved(&mut self, n: u32)
        requires { absolve_refusal self.old n ≡ None }
        ensures { self.new ≡ absolve self.old n }
    {
        self.absolved += u64::from(n);
    }

    /// What `honour` would answer.
    #[inline]
    pub fn judge_honour(&self) -> Result<Option<u32>, Refusal>
        ensures refused { result_err result ≡ honour_refusal self.now }
        ensures answer { IfOk result (λ amount. amount ≡ amount_to_absolve self.now) }
        ensures range { IfOk result (λ amount. IfSome amount (λ n. (0 < n) × (n ≤ max_amount))) }
    {
        check_own(self.finished)?;
        let Some(target) = self.asked else {
            return Ok(None);
        };
        let held = self.held();
        if held <= u64::from(target) {
            return Ok(None);
        }
        Ok(Some((held - u64::from(target)) as u32))
    }

    /// The plead that is kept is honoured: where more is held than its target, the rest is
    /// absolved, and the answer is that amount. The plead is forgotten in both cases. Refused by 15.
    #[inline]
    pub fn honour(&mut self) -> Result<Option<u32>, Refusal>
        ensures refused { result_err result ≡ honour_refusal self.old }
        ensures answer { IfOk result (λ amount. amount ≡ amount_to_absolve self.old) }
        ensures range { IfOk result (λ amount. IfSome amount (λ n. (0 < n) × (n ≤ max_amount))) }
        ensures after { self.new ≡ (if is_ok result then honour self.old else self.old) }
    {
        let due = self.judge_honour()?;
        self.note_honoured(due);
        Ok(due)
    }

    /// The plead that is kept is honoured by the amount that `judge_honour` answers.
    #[inline]
    pub fn note_honoured(&mut self, due: Option<u32>)
        requires { due ≡ amount_to_absolve self.old }
        ensures { self.new ≡ honour self.old }
    {
        if let Some(amount) = due {
            self.absolved += u64::from(amount);
        }
        self.asked = None;
    }

    /// What `limit_sending` would answer.
    #[inline]
    pub fn judge_limit_sending(&self, bound: u64) -> Result<(), Refusal>
        ensures answer { result_err result ≡ limit_sending_refusal self.now bound }
        ensures small { OnOk result (bound ≤ max_total) }
    {
        check_own(self.finished)?;
        check_limit(self.send_left, bound)
    }

    /// At most `bound` bytes are sent from here on; 0 ends the channel. Refused by 15, 7 and 8, in
    /// this order.
    #[inline]
    pub fn limit_sending(&mut self, bound: u64) -> Result<(), Refusal>
        ensures answer { result_err result ≡ limit_sending_refusal self.old bound }
        ensures after { self.new ≡ (if is_ok result then limit_client self.old bound else self.old) }
    {
        self.judge_limit_sending(bound)?;
        self.note_limit_sending(bound);
        Ok(())
    }

    /// At most `bound` bytes are sent from here on, which `judge_limit_sending` doesn't refuse.
    #[inline]
    pub fn note_limit_sending(&mut self, bound: u64)
        requires { limit_sending_refusal self.old bound ≡ None }
        ensures { self.new ≡ limit_client self.old bound }
    {
        self.send_left = Some(bound);
    }

    /// What `finish` would answer.
    #[inline]
    pub fn judge_finish(&self) -> Result<(), Refusal>
        ensures answer { result_err result ≡ finish_refusal self.now }
        ensures known { OnOk result (has self.now.version Finish ≡ true) }
    {
        if !self.version.has_finish() {
            return Err(Refusal::WrongVersion);
        }
        check_own(self.finished)
    }

    /// The client sends nothing more, and gives up all guarantees that it holds or that still come.
    /// A plead that is kept is forgotten. Refused by 17 and 15, in this order.
    #[inline]
    pub fn finish(&mut self) -> Result<(), Refusal>
        ensures answer { result_err result ≡ finish_refusal self.old }
        ensures known { OnOk result (has self.old.version Finish ≡ true) }
        ensures after { self.new ≡ (if is_ok result then finish self.old else self.old) }
    {
        self.judge_finish()?;
        self.note_finished();
        Ok(())
    }

    /// The client sends nothing more, which `judge_finish` doesn't refuse.
    #[inline]
    pub fn note_finished(&mut self)
        requires { finish_refusal self.old ≡ None }
        ensures { self.new ≡ finish self.old }
    {
        self.asked = None;
        self.finished = true;
    }

    /// `n` guarantees arrive; where the client finished they are waived. Violations V5, V6 and V8, in
    /// this order.
    pub fn issued(&mut self, n: u32) -> Result<(), Violation>
        requires { n ≤ max_amount }
        ensures answer { result_err result ≡ issued_violation self.old n }
        ensures after { self.new ≡ (if is_ok result then add_received self.old n else self.old) }
    {
        let amount = u64::from(n);
        if judge_left(self.receive_left, amount).is_err() {
            return Err(Violation::IssuedPastLimit);
        }
        if self.held() + amount > u64::from(MAX_AMOUNT) {
            return Err(Violation::TooManyGuarantees);
        }
        if self.received + amount > MAX_TOTAL {
            return Err(Violation::TotalPassed);
        }
        self.received += amount;
        use_up(&mut self.receive_left, amount);
        Ok(())
    }

    /// A plead arrives, to hold at most `target`; it is kept in place of an older one, but not where
    /// the client finished.
    pub fn pleaded(&mut self, target: u32)
        requires { target ≤ max_amount }
        ensures { self.new ≡ keep_plead self.old target }
    {
        self.asked = if self.finished { None } else { Some(target) };
    }

    /// The server's limit arrives: it issues at most `bound` from there on. Violation V7.
    pub fn receiving_limited(&mut self, bound: u64) -> Result<(), Violation>
        requires { bound ≤ max_total }
        ensures answer { result_err result ≡ receive_limit_violation self.old bound }
        ensures after { self.new ≡ (if is_ok result then note_receive_limit self.old bound else self.old) }
    {
        if let Some(left) = self.receive_left
            && bound > left
        {
            return Err(Violation::ReceiveLimitRaised);
        }
        self.receive_left = Some(bound);
        Ok(())
    }
}

// Whether a target is within the profile.
fn is_target(asked: Option<u32>) -> bool
    ensures { IsTrue result ↔ ForSome asked (λ n. n ≤ max_amount) }
{
    match asked {
        Some(target) => target <= MAX_AMOUNT,
        None => true,
    }
}
