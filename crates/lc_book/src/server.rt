//! The server's book: guarantees issued, used up by messages, absolved and waived, what is buffered,
//! and both limits.
ghost use Rattle.std.specs.Prelude.{◌≡◌, ◌≤◌, ◌<◌, ◌↔◌, ◌⊎◌, if◌then◌else◌, is_ok, None, IsSome, IfSome, IsTrue, OnOk, ◌+◌};
ghost use Rattle.std.specs.Result.{result_err};
ghost use Rattle.lc_frame.specs.Bounds.{IsCapacity};
ghost use Rattle.lc_frame.specs.declared.version.Version.TheVariants.{Two};
ghost use Rattle.lc_frame.specs.Kind.{max_body, max_amount, max_total};
ghost use Rattle.lc_book.specs.Server.{IsServer, AreServerParts, server_of_parts, new_server, waived, outstanding, buffered, room, IsEnded, issue_refusal, issue, plead_refusal, limit_receiving_refusal, limit_server, note_taken, AreFreed, message_violation, add_arrived, absolve_violation, add_absolved, send_limit_violation, note_send_limit, finish_violation, note_finish};

use crate::fault::{Refusal, Violation};
use crate::finish::{check_arrival, check_own, waived_of};
use crate::limit::{check_limit, is_bound, judge_left, use_up};
use lc_frame::{MAX_TOTAL, is_capacity};
use std::marker::Model;

/// The book of a channel direction at its server. All numbers count bytes of messages.
#[derive(Clone, Copy, Debug, PartialEq, Eq)]
pub struct ServerBook {
    capacity: u32,
    issued: u64,
    arrived: u64,
    taken: u64,
    absolved: u64,
    send_left: Option<u64>,
    receive_left: Option<u64>,
    finished: bool,
}

impl Model for ServerBook {
    ghost use Rattle.lc_book.specs.Server.{Server, IsServer};

    ghost Value = { Server };

    ghost view = { λ b. record { capacity = b.capacity; issued = b.issued; arrived = b.arrived; taken = b.taken; absolved = b.absolved; send_left = b.send_left; receive_left = b.receive_left; finished = b.finished } };

    ghost invariant = { λ b. IsServer (record { capacity = b.capacity; issued = b.issued; arrived = b.arrived; taken = b.taken; absolved = b.absolved; send_left = b.send_left; receive_left = b.receive_left; finished = b.finished }) };

    ghost inverse = { λ b. record { capacity = b.capacity; issued = b.issued; arrived = b.arrived; taken = b.taken; absolved = b.absolved; send_left = b.send_left; receive_left = b.receive_left; finished = b.finished } };
}

/// The fields of a server's book, by name, in bytes of messages.
#[derive(Clone, Copy, Debug)]
pub struct ServerParts {
    /// The bytes of the receiving ring, 1 to 2^24.
    pub capacity: u32,
    /// All guarantees that were issued, 0 to 2^62.
    pub issued: u64,
    /// The bytes of the messages that arrived.
    pub arrived: u64,
    /// The bytes of the messages that were taken.
    pub taken: u64,
    /// The guarantees that the client gave up, as far as that arrived.
    pub absolved: u64,
    /// The guarantees that the client gave up by finishing, as far as that arrived.
    pub waived: u64,
    /// What the client may still send, 0 to 2^62; `None` without a limit.
    pub send_left: Option<u64>,
    /// What may still be issued, 0 to 2^62; `None` without a limit.
    pub receive_left: Option<u64>,
    /// Whether the client's Finish arrived.
    pub finished: bool,
}

impl ServerBook {
    /// The book of a channel on which nothing has happened, over a receiving ring of so many
    /// bytes. `None` where the capacity is not 1 to 2^24.
    pub fn new(capacity: u32) -> Option<ServerBook>
        ensures valid { IsSome result ↔ IsCapacity capacity }
        ensures value { IfSome result (λ b. b ≡ new_server capacity) }
    {
        if !is_capacity(capacity) {
            return None;
        }
        Some(ServerBook {
            capacity,
            issued: 0,
            arrived: 0,
            taken: 0,
            absolved: 0,
            send_left: None,
            receive_left: None,
            finished: false,
        })
    }

    /// A book of these fields, `None` exactly where they break what every book keeps: the capacity
    /// is 1 to 2^24, what arrived, was absolved and waived is at most what was issued, what was
    /// issued and both limits are at most 2^62, what was taken is at most what arrived, and what is
    /// outstanding and buffered together at most the capacity. Where the client finished nothing is
    /// outstanding, and nothing is waived where it did not. For tests.
    pub fn restore(parts: ServerParts) -> Option<ServerBook>
        ensures valid { IsSome result ↔ AreServerParts parts }
        ensures value { IfSome result (λ b. b ≡ server_of_parts parts) }
    {
        let ServerParts {
            capacity,
            issued,
            arrived,
            taken,
            absolved,
            waived,
            send_left,
            receive_left,
            finished,
        } = parts;
        if !is_capacity(capacity) || issued > MAX_TOTAL {
            return None;
        }
        if arrived > issued || absolved > issued - arrived || taken > arrived {
            return None;
        }
        let unused = issued - arrived - absolved;
        if waived != waived_of(finished, unused) {
            return None;
        }
        if (unused - waived) + (arrived - taken) > u64::from(capacity) {
            return None;
        }
        if !is_bound(send_left) || !is_bound(receive_left) {
            return None;
        }
        Some(ServerBook {
            capacity,
            issued,
            arrived,
            taken,
            absolved,
            send_left,
            receive_left,
            finished,
        })
    }

    /// The bytes of the receiving ring, 1 to 2^24.
    pub fn capacity(&self) -> u32
        ensures value { result ≡ self.now.capacity }
        ensures range { IsCapacity result }
    {
        self.capacity
    }

    /// The guarantees that were issued, and neither used up by a message that arrived, absolved nor
    /// waived, 0 to 2^24.
    pub fn outstanding(&self) -> u64
        ensures value { result ≡ outstanding self.now }
        ensures small { result ≤ max_amount }
        ensures fits { result + buffered self.now ≤ self.now.capacity }
    {
        let unused = self.issued - self.arrived - self.absolved;
        if self.finished { 0 } else { unused }
    }

    /// The guarantees that the client gave up by finishing, as far as that arrived, 0 to 2^62.
    pub fn waived(&self) -> u64
        ensures value { result ≡ waived self.now }
        ensures within { self.now.arrived + self.now.absolved + result ≤ self.now.issued }
        ensures small { result ≤ max_total }
    {
        waived_of(self.finished, self.issued - self.arrived - self.absolved)
    }

    /// The bytes that arrived and were not taken, 0 to 2^24.
    pub fn buffered(&self) -> u64
        ensures value { result ≡ buffered self.now }
        ensures small { result ≤ max_amount }
        ensures fits { result + outstanding self.now ≤ self.now.capacity }
    {
        self.arrived - self.taken
    }

    /// The bytes of the ring that are neither buffered nor promised, 0 to 2^24.
    pub fn room(&self) -> u64
        ensures value { result ≡ room self.now }
        ensures small { result ≤ max_amount }
        ensures sum { result + outstanding self.now + buffered self.now ≡ self.now.capacity }
        ensures kept { IsServer self.now }
    {
        u64::from(self.capacity) - self.outstanding() - self.buffered()
    }

    /// All guarantees that were issued, 0 to 2^62.
    pub fn issued(&self) -> u64
        ensures value { result ≡ self.now.issued }
        ensures small { result ≤ max_total }
    {
        self.issued
    }

    /// All bytes of messages that arrived, 0 to 2^62.
    pub fn arrived(&self) -> u64
        ensures value { result ≡ self.now.arrived }
        ensures small { result ≤ max_total }
    {
        self.arrived
    }

    /// The bytes of messages that were taken, 0 to 2^62.
    pub fn taken(&self) -> u64
        ensures value { result ≡ self.now.taken }
        ensures within { result + buffered self.now ≡ self.now.arrived }
    {
        self.taken
    }

    /// The guarantees that the client absolved, 0 to 2^62.
    pub fn absolved(&self) -> u64
        ensures value { result ≡ self.now.absolved }
        ensures within { self.now.arrived + result + waived self.now ≤ self.now.issued }
    {
        self.absolved
    }

    /// What the client may still send, 0 to 2^62; `None` without a limit.
    pub fn send_left(&self) -> Option<u64>
        ensures value { result ≡ self.now.send_left }
        ensures small { IfSome result (λ left. left ≤ max_total) }
    {
        self.send_left
    }

    /// What may still be issued, 0 to 2^62; `None` without a limit.
    pub fn receive_left(&self) -> Option<u64>
        ensures value { result ≡ self.now.receive_left }
        ensures small { IfSome result (λ left. left ≤ max_total) }
    {
        self.receive_left
    }

    /// Whether the client's Finish arrived.
    pub fn is_finished(&self) -> bool
        ensures { result ≡ self.now.finished }
    {
        self.finished
    }

    /// Whether the client will send nothing more: its limit on sending is used up, or it finished.
    pub fn is_ended(&self) -> bool
        ensures { IsTrue result ↔ IsEnded self.now }
    {
        self.finished || matches!(self.send_left, Some(0))
    }

    /// What `issue` would answer.
    #[inline]
    pub fn judge_issue(&self, n: u32) -> Result<(), Refusal>
        ensures answer { result_err result ≡ issue_refusal self.now n }
        ensures small { OnOk result (n ≤ max_amount) }
    {
        check_own(self.finished)?;
        if n == 0 {
            return Err(Refusal::ZeroAmount);
        }
        let amount = u64::from(n);
        if let Err(left) = judge_left(self.receive_left, amount) {
            return Err(Refusal::PastReceiveLimit { left });
        }
        let room = self.room();
        if amount > room {
            return Err(Refusal::NoRoom { room });
        }
        if self.issued + amount > MAX_TOTAL {
            return Err(Refusal::TotalReached);
        }
        Ok(())
    }

    /// `n` guarantees are issued. Refused by 15, 5, 9, 10 and 12, in this order.
    #[inline]
    pub fn issue(&mut self, n: u32) -> Result<(), Refusal>
        ensures answer { result_err result ≡ issue_refusal self.old n }
        ensures small { OnOk result (n ≤ max_amount) }
        ensures after { self.new ≡ (if is_ok result then issue self.old n else self.old) }
    {
        self.judge_issue(n)?;
        self.note_issued(n);
        Ok(())
    }

    /// `n` guarantees are issued that `judge_issue` doesn't refuse.
    #[inline]
    pub fn note_issued(&mut self, n: u32)
        requires { issue_refusal self.old n ≡ None }
        ensures { self.new ≡ issue self.old n }
    {
        self.issued += u64::from(n);
        use_up(&mut self.receive_left, u64::from(n));
    }

    /// The client is asked to absolve until it holds at most `target`. Refused by 15 and 11, in this
    /// order; the book stays as it is.
    pub fn plead(&self, target: u32) -> Result<(), Refusal>
        ensures answer { result_err result ≡ plead_refusal self.now target }
        ensures small { OnOk result (target ≤ max_amount) }
    {
        check_own(self.finished)?;
        let outstanding = self.outstanding();
        if u64::from(target) >= outstanding {
            return Err(Refusal::NothingToAsk { outstanding });
        }
        Ok(())
    }

    /// What `limit_receiving` would answer.
    #[inline]
    pub fn judge_limit_receiving(&self, bound: u64) -> Result<(), Refusal>
        ensures answer { result_err result ≡ limit_receiving_refusal self.now bound }
        ensures small { OnOk result (bound ≤ max_total) }
    {
        check_own(self.finished)?;
        check_limit(self.receive_left, bound)
    }

    /// At most `bound` guarantees are issued from here on. Refused by 15, 7 and 8, in this order.
    #[inline]
    pub fn limit_receiving(&mut self, bound: u64) -> Result<(), Refusal>
        ensures answer { result_err result ≡ limit_receiving_refusal self.old bound }
        ensures after { self.new ≡ (if is_ok result then limit_server self.old bound else self.old) }
    {
        self.judge_limit_receiving(bound)?;
        self.note_limit_receiving(bound);
        Ok(())
    }

    /// At most `bound` guarantees are issued from here on, which `judge_limit_receiving` doesn't
    /// refuse.
    #[inline]
    pub fn note_limit_receiving(&mut self, bound: u64)
        requires { limit_receiving_refusal self.old bound ≡ None }
        ensures { self.new ≡ limit_server self.old bound }
    {
        self.receive_left = Some(bound);
    }

    /// A buffered message of `len` bytes was taken.
    pub fn note_taken(&mut self, len: u32)
        requires { len ≤ buffered self.old }
        ensures after { self.new ≡ note_taken self.old len }
        ensures freed { AreFreed len self.old self.new }
    {
        self.taken += u64::from(len);
    }

    /// A message of `len` bytes arrives. Violations V9, V1 and V2, in this order.
    pub fn message(&mut self, len: u32) -> Result<(), Violation>
        requires { len ≤ max_body Two }
        ensures answer { result_err result ≡ message_violation self.old len }
        ensures after { self.new ≡ (if is_ok result then add_arrived self.old len else self.old) }
    {
        check_arrival(self.finished)?;
        let cost = u64::from(len);
        if cost > self.outstanding() {
            return Err(Violation::NotGuaranteed);
        }
        if judge_left(self.send_left, cost).is_err() {
            return Err(Violation::SentPastLimit);
        }
        self.arrived += cost;
        use_up(&mut self.send_left, cost);
        Ok(())
    }

    /// The news arrives that the client absolved `n` guarantees. Violations V9 and V3, in this order.
    pub fn was_absolved(&mut self, n: u32) -> Result<(), Violation>
        requires { n ≤ max_amount }
        ensures answer { result_err result ≡ absolve_violation self.old n }
        ensures after { self.new ≡ (if is_ok result then add_absolved self.old n else self.old) }
    {
        check_arrival(self.finished)?;
        if u64::from(n) > self.outstanding() {
            return Err(Violation::AbsolvedTooMuch);
        }
        self.absolved += u64::from(n);
        Ok(())
    }

    /// The client's limit arrives: it sends at most `bound` bytes from there on. Violations V9 and V4,
    /// in this order.
    pub fn sending_limited(&mut self, bound: u64) -> Result<(), Violation>
        requires { bound ≤ max_total }
        ensures answer { result_err result ≡ send_limit_violation self.old bound }
        ensures after { self.new ≡ (if is_ok result then note_send_limit self.old bound else self.old) }
    {
        check_arrival(self.finished)?;
        if let Some(left) = self.send_left
            && bound > left
        {
            return Err(Violation::SendLimitRaised);
        }
        self.send_left = Some(bound);
        Ok(())
    }

    /// The client's Finish arrives: it sends nothing more, and what is outstanding is waived.
    /// Violation V9.
    pub fn finished(&mut self) -> Result<(), Violation>
        ensures answer { result_err result ≡ finish_violation self.old }
        ensures after { self.new ≡ (if is_ok result then note_finish self.old else self.old) }
    {
        check_arrival(self.finished)?;
        self.finished = true;
        Ok(())
    }
}
