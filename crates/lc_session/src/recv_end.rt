//! The receiving end of a channel.
ghost use Rattle.std.specs.Prelude.{◌≡◌, IfOk, IfErr, OnOk};
ghost use Rattle.lc_frame.specs.declared.frame.Frame.TheVariants.{Issue, Plead, LimitReceiving};
ghost use Rattle.lc_peer.specs.Inbox.{IsTake};
ghost use Rattle.lc_inbox.specs.History.{book_after};
ghost use Rattle.lc_inbox.specs.Sides.{IsSameSide, HadOneTurn, IsPutBy, IsNotPutBy, IsTakeAnswer, IsNotTaken, HasLooked};

use crate::heeding::heed;
use lc_book::{Refusal, ServerBook};
use lc_frame::Channel;
use lc_inbox::InboxOut;
use lc_peer::Take;
use lc_wake::{Waiter, Wake};
use std::marker::Model;
use std::sync::Wait;
use std::time::{Clock, Duration};

/// The receiving end of a channel, which one thread has: the receiving side of its shared inbox,
/// which wakes the writing pump, and what that thread waits by. All numbers count bytes of messages.
pub struct RecvEnd {
    channel: Channel,
    inbox: InboxOut,
    waiter: Waiter,
}

// One call, wherever one is dropped.
impl Drop for RecvEnd {
    fn drop(self) {
        let RecvEnd {
            channel: _,
            inbox: _,
            waiter: _,
        } = self;
    }
}

impl Model for RecvEnd {
    ghost use Rattle.std.specs.Prelude.{◌≡◌};
    ghost use Rattle.lc_inbox.specs.Sides.{InboxSide};

    ghost Value = { InboxSide };

    ghost view = { λ e. e.inbox };

    ghost invariant = { λ e. e.channel ≡ e.inbox.key.channel };
}

impl RecvEnd {
    pub(crate) fn new(inbox: InboxOut, waiter: Waiter) -> RecvEnd
        ensures { result ≡ inbox }
    {
        RecvEnd {
            channel: inbox.channel(),
            inbox,
            waiter,
        }
    }

    /// The channel.
    pub fn channel(&self) -> Channel
        ensures { result ≡ self.now.key.channel }
    {
        self.channel
    }

    /// As [`InboxOut::issue`].
    pub fn issue<R: Wait>(&mut self, rt: &R, n: u32) -> Result<(), Refusal>
        ensures ok { OnOk result (IsPutBy (Issue self.old.key.channel n) self.old self.new) }
        ensures err { IfErr result (λ e. IsNotPutBy e (Issue self.old.key.channel n) self.old self.new) }
        ensures turn { HadOneTurn self.old self.new }
        ensures same { IsSameSide self.old self.new }
    {
        let answer = self.inbox.issue(rt, n);
        heed(&mut self.waiter, &answer);
        answer
    }

    /// As [`InboxOut::plead`].
    pub fn plead<R: Wait>(&mut self, rt: &R, target: u32) -> Result<(), Refusal>
        ensures ok { OnOk result (IsPutBy (Plead self.old.key.channel target) self.old self.new) }
        ensures err { IfErr result (λ e. IsNotPutBy e (Plead self.old.key.channel target) self.old self.new) }
        ensures turn { HadOneTurn self.old self.new }
        ensures same { IsSameSide self.old self.new }
    {
        let answer = self.inbox.plead(rt, target);
        heed(&mut self.waiter, &answer);
        answer
    }

    /// As [`InboxOut::limit`].
    pub fn limit<R: Wait>(&mut self, rt: &R, bound: u64) -> Result<(), Refusal>
        ensures ok { OnOk result (IsPutBy (LimitReceiving self.old.key.channel bound) self.old self.new) }
        ensures err { IfErr result (λ e. IsNotPutBy e (LimitReceiving self.old.key.channel bound) self.old self.new) }
        ensures turn { HadOneTurn self.old self.new }
        ensures same { IsSameSide self.old self.new }
    {
        let answer = self.inbox.limit(rt, bound);
        heed(&mut self.waiter, &answer);
        answer
    }

    /// As [`InboxOut::take_into`].
    pub fn take_into<R: Wait>(&mut self, rt: &R, buffer: &mut [u8]) -> Result<Take, Refusal>
        ensures ok { IfOk result (λ take. IsTakeAnswer take buffer.old buffer.new self.old self.new) }
        ensures range { IfOk result (λ take. IsTake take) }
        ensures err { IfErr result (λ e. IsNotTaken e buffer.old buffer.new self.old self.new) }
        ensures turn { HadOneTurn self.old self.new }
        ensures same { IsSameSide self.old self.new }
    {
        self.inbox.take_into(rt, buffer)
    }

    /// As [`InboxOut::book`].
    pub fn book<R: Wait>(&mut self, rt: &R) -> ServerBook
        ensures looks { HasLooked self.old self.new }
        ensures book { result ≡ book_after self.new.key self.new.seen }
        ensures turn { HadOneTurn self.old self.new }
        ensures same { IsSameSide self.old self.new }
    {
        self.inbox.book(rt)
    }

    /// Sleeps until something came that concerns this end since its last wait ended, or since the
    /// session began: a message, an absolving, a limit or a Finish on its channel; where a call since then
    /// was refused by 13, the pop of a frame that this end had put, which makes room for another one; or
    /// the end of a pump's run. What calls have found meanwhile ends it too: look again after each wait.
    /// It answers [`Over`](Wake::Over) where nothing came and nothing more comes. No clause says when it
    /// ends.
    pub fn wait<R: Wait>(&mut self, rt: &R) -> Wake
        ensures same { self.new ≡ self.old }
    {
        self.waiter.wait(rt)
    }

    /// The same, and no longer than this. It may end earlier without a reason.
    pub fn wait_timeout<R: Wait + Clock>(&mut self, rt: &R, timeout: Duration) -> Wake
        ensures same { self.new ≡ self.old }
    {
        self.waiter.wait_timeout(rt, timeout)
    }

    pub(crate) fn into_inbox(self) -> InboxOut
        ensures { result ≡ self }
    {
        let RecvEnd {
            channel: _,
            inbox,
            waiter: _,
        } = self;
        inbox
    }
}
