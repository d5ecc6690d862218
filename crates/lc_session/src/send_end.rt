//! The sending end of a channel.
ghost use Rattle.std.specs.Prelude.{◌≡◌, ◌≤◌, IfOk, IfErr, OnOk, true, is_some};
ghost use Rattle.lc_frame.specs.declared.kind.Kind.TheVariants.{Finish};
ghost use Rattle.lc_frame.specs.Kind.{has, max_total};
ghost use Rattle.lc_credit.specs.Sides.{IsUnfinished, Holds};
ghost use Rattle.lc_outbox.specs.Outbox.{IsOutbox, IsSameOutbox};
ghost use Rattle.lc_outbox.specs.Calls.{IsRefused, IsSent, IsNotSent, IsAbsolved, IsNotAbsolved, IsLimited, IsNotLimited, IsFinished, IsNotFinished};
ghost use Rattle.lc_outbox.specs.Honours.{IsHonoured, IsPutOff};

use crate::heeding::heed;
use lc_book::Refusal;
use lc_frame::Channel;
use lc_outbox::Outbox;
use lc_wake::{Waiter, Wake};
use std::marker::Model;
use std::sync::Wait;
use std::time::{Clock, Duration};

/// The sending end of a channel, which one thread has: an outbox that wakes the writing pump, and
/// what that thread waits by. All numbers count bytes of messages.
pub struct SendEnd {
    outbox: Outbox,
    waiter: Waiter,
}

// One call, wherever one is dropped.
impl Drop for SendEnd {
    fn drop(self) {
        let SendEnd {
            outbox: _,
            waiter: _,
        } = self;
    }
}

impl Model for SendEnd {
    ghost use Rattle.lc_outbox.specs.Outbox.{OutboxState};

    ghost Value = { OutboxState };

    ghost view = { λ e. e.outbox };
}

impl SendEnd {
    pub(crate) fn new(outbox: Outbox, waiter: Waiter) -> SendEnd
        ensures { result ≡ outbox }
    {
        SendEnd { outbox, waiter }
    }

    /// The channel.
    pub fn channel(&self) -> Channel
        ensures value { result ≡ self.now.channel }
        ensures kept { IsOutbox self.now }
    {
        self.outbox.channel()
    }

    /// As [`Outbox::held`].
    pub fn held(&mut self) -> u64
        ensures holds { Holds result self.old.credit self.new.credit }
        ensures small { result ≤ max_total }
        ensures after { self.new ≡ record self.old { credit = self.new.credit } }
        ensures kept { IsOutbox self.new }
        ensures same { IsSameOutbox self.old self.new }
    {
        self.outbox.held()
    }

    /// As [`Outbox::send`].
    pub fn send<R: Wait>(&mut self, rt: &R, body: &[u8]) -> Result<(), Refusal>
        ensures ok { OnOk result (IsSent body.now self.old self.new) }
        ensures unfinished { OnOk result (IsUnfinished self.old.credit) }
        ensures err { IfErr result (λ e. IsRefused e self.old self.new (IsNotSent e body.now self.old self.new)) }
        ensures kept { IsOutbox self.new }
        ensures same { IsSameOutbox self.old self.new }
    {
        let answer = self.outbox.send(rt, body);
        heed(&mut self.waiter, &answer);
        answer
    }

    /// As [`Outbox::absolve`].
    pub fn absolve<R: Wait>(&mut self, rt: &R, n: u32) -> Result<(), Refusal>
        ensures ok { OnOk result (IsAbsolved n self.old self.new) }
        ensures unfinished { OnOk result (IsUnfinished self.old.credit) }
        ensures err { IfErr result (λ e. IsRefused e self.old self.new (IsNotAbsolved e n self.old self.new)) }
        ensures kept { IsOutbox self.new }
        ensures same { IsSameOutbox self.old self.new }
    {
        let answer = self.outbox.absolve(rt, n);
        heed(&mut self.waiter, &answer);
        answer
    }

    /// As [`Outbox::honour`].
    pub fn honour<R: Wait>(&mut self, rt: &R) -> Result<Option<u32>, Refusal>
        ensures ok { IfOk result (λ amount. IsHonoured amount self.old self.new) }
        ensures unfinished { OnOk result (IsUnfinished self.old.credit) }
        ensures err { IfErr result (λ e. IsRefused e self.old self.new (IsPutOff e self.old self.new)) }
        ensures kept { IsOutbox self.new }
        ensures same { IsSameOutbox self.old self.new }
    {
        let answer = self.outbox.honour(rt);
        heed(&mut self.waiter, &answer);
        answer
    }

    /// As [`Outbox::limit`].
    pub fn limit<R: Wait>(&mut self, rt: &R, bound: u64) -> Result<(), Refusal>
        ensures ok { OnOk result (IsLimited bound self.old self.new) }
        ensures unfinished { OnOk result (IsUnfinished self.old.credit) }
        ensures err { IfErr result (λ e. IsRefused e self.old self.new (IsNotLimited e bound self.old self.new)) }
        ensures kept { IsOutbox self.new }
        ensures same { IsSameOutbox self.old self.new }
    {
        let answer = self.outbox.limit(rt, bound);
        heed(&mut self.waiter, &answer);
        answer
    }

    /// As [`Outbox::finish`].
    pub fn finish<R: Wait>(&mut self, rt: &R) -> Result<(), Refusal>
        ensures ok { OnOk result (IsFinished self.old self.new) }
        ensures known { OnOk result (has self.old.lane.version Finish ≡ true) }
        ensures unfinished { OnOk result (IsUnfinished self.old.credit) }
        ensures err { IfErr result (λ e. IsNotFinished e self.old self.new) }
        ensures kept { IsOutbox self.new }
        ensures same { IsSameOutbox self.old self.new }
    {
        let answer = self.outbox.finish(rt);
        heed(&mut self.waiter, &answer);
        answer
    }

    /// As [`Outbox::is_finished`].
    pub fn is_finished(&self) -> bool
        ensures value { result ≡ is_some self.now.credit.waived }
        ensures kept { IsOutbox self.now }
    {
        self.outbox.is_finished()
    }

    /// Sleeps until something came that concerns this end since its last wait ended, or since the
    /// session began: guarantees or a plead on its channel; where a call since then was refused by 13,
    /// the pop of a frame that this end had put, which makes room for another one; or the end of a pump's
    /// run. What calls have found meanwhile ends it too: look again after each wait. It answers
    /// [`Over`](Wake::Over) where nothing came and nothing more comes. No clause says when it ends.
    ///
    /// Nothing that comes concerns a finished end: it does not sleep, and the answer is `Over`.
    pub fn wait<R: Wait>(&mut self, rt: &R) -> Wake
        ensures same { self.new ≡ self.old }
    {
        if self.outbox.is_finished() {
            return Wake::Over;
        }
        self.waiter.wait(rt)
    }

    /// The same, and no longer than this. It may end earlier without a reason.
    pub fn wait_timeout<R: Wait + Clock>(&mut self, rt: &R, timeout: Duration) -> Wake
        ensures same { self.new ≡ self.old }
    {
        if self.outbox.is_finished() {
            return Wake::Over;
        }
        self.waiter.wait_timeout(rt, timeout)
    }

    pub(crate) fn into_outbox(self) -> Outbox
        ensures { result ≡ self }
    {
        let SendEnd { outbox, waiter: _ } = self;
        outbox
    }
}
