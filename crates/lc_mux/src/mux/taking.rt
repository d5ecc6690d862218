//! What arrived and is taken, and the calls that the lines take at any time.
ghost use Rattle.std.specs.Prelude.{◌≡◌, ◌++◌, true, false, None, length, IfOk, IfNone, IfSome, OnOk, OnErr};
ghost use Rattle.std.specs.Result.{result_err};
ghost use Rattle.std.specs.Option.{option_map};
ghost use Rattle.lc_ring.specs.Ring.{front, with_front};
ghost use Rattle.lc_peer.specs.Calls.{take_on};
ghost use Rattle.lc_peer.specs.Inbox.{take_answer, take_refusal};
ghost use Rattle.lc_peer.specs.Peer.{inbox};
ghost use Rattle.lc_lines.specs.Permits.{is_permit};
ghost use Rattle.lc_lines.specs.Queue.{waits};
ghost use Rattle.lc_lines.specs.Scheduler.{IsSettled, NoneIsHopeless, queue, aside, cancel, give_back};
ghost use Rattle.lc_mux.specs.Calls.{Answers, IsAnswer, take_over};
ghost use Rattle.lc_mux.specs.Flushing.{Changes, NoticesAndPuts};

use super::Mux;
use crate::end::{CallError, End};
use crate::flushing::put_unless;
use lc_frame::Channel;
use lc_lines::Notice;
use lc_peer::Take;

impl Mux {
    // Why nothing can be taken: this side aborted the session.
    fn judge_take(&self) -> Result<(), End>
        ensures { result_err result ≡ take_over self.now }
    {
        match self.end {
            Some(End::Aborted) => Err(End::Aborted),
            Some(End::Local)
            | Some(End::Remote)
            | Some(End::Cut)
            | Some(End::Transport)
            | Some(End::Violated(_))
            | Some(End::Fault(_))
            | None => Ok(()),
        }
    }

    /// Takes the first message of a channel into the front of the buffer, unless this side aborted the session. Refused
    /// where the message is longer; then nothing changed. The room that a take frees is issued by policy at the next
    /// [`Mux::write`] at the latest, in one frame with that of other takes.
    pub fn take_into(&mut self, channel: Channel, buffer: &mut [u8]) -> Result<Take, CallError>
        ensures answer { Answers (take_over self.old) (IsAnswer (take_refusal (inbox self.old.lines.scheduler.peer channel) (length buffer.old))) (result_err result) }
        ensures value { IfOk result (λ take. take ≡ take_answer (inbox self.old.lines.scheduler.peer channel)) }
        ensures refused { OnErr result ((self.new ≡ self.old) × (buffer.new ≡ buffer.old)) }
        ensures buffer { OnOk result (buffer.new ≡ with_front (front (inbox self.old.lines.scheduler.peer channel).ring) buffer.old) }
        ensures takes { OnOk result (Changes (record self.old.lines.scheduler { peer = take_on self.old.lines.scheduler.peer channel }) self.old self.new) }
        ensures rest { self.new ≡ record self.old { lines = self.new.lines; owed = self.new.owed } }
    {
        self.judge_take()?;
        // Its contract says that every channel has its books.
        let _peer = self.lines.peer();
        let take = self.lines.take_into(channel, buffer)?;
        put_unless(self.closing, &mut self.owed, &mut self.lines);
        Ok(take)
    }

    /// The first message of a channel that waits to be taken, unless this side aborted the session.
    pub fn front(&self, channel: Channel) -> Result<Option<(&[u8], &[u8])>, End>
        ensures over { result_err result ≡ take_over self.now }
        ensures whole { IfOk result (λ message. option_map (λ parts. parts.0.now ++ parts.1.now) message ≡ front (inbox self.now.lines.scheduler.peer channel).ring) }
    {
        self.judge_take()?;
        Ok(self.lines.peer().front(channel))
    }

    /// Takes the first message of a channel and drops it, unless this side aborted the session.
    pub fn pop(&mut self, channel: Channel) -> Result<Take, End>
        ensures over { result_err result ≡ take_over self.old }
        ensures value { IfOk result (λ take. take ≡ take_answer (inbox self.old.lines.scheduler.peer channel)) }
        ensures refused { OnErr result (self.new ≡ self.old) }
        ensures takes { OnOk result (Changes (record self.old.lines.scheduler { peer = take_on self.old.lines.scheduler.peer channel }) self.old self.new) }
        ensures rest { self.new ≡ record self.old { lines = self.new.lines; owed = self.new.owed } }
    {
        self.judge_take()?;
        // Its contract says that every channel has its books.
        let _peer = self.lines.peer();
        let take = self.lines.pop(channel);
        put_unless(self.closing, &mut self.owed, &mut self.lines);
        Ok(take)
    }

    /// Gives up the first call of a ticket that waits, as [`Lines::cancel`](lc_lines::Lines::cancel). Once this side closed
    /// the session no call waits.
    pub fn cancel(&mut self, channel: Channel, ticket: u64) -> bool
        ensures closing { self.old.closing ≡ true → (result ≡ false) × (self.new ≡ self.old) }
        ensures waited { self.old.closing ≡ false → result ≡ waits ticket (queue self.old.lines.scheduler channel).calls }
        ensures after { self.old.closing ≡ false → Changes (cancel self.old.lines.scheduler channel ticket) self.old self.new }
        ensures rest { self.new ≡ record self.old { lines = self.new.lines; owed = self.new.owed } }
    {
        if self.closing {
            return false;
        }
        let waited = self.lines.cancel(channel, ticket);
        put_unless(self.closing, &mut self.owed, &mut self.lines);
        waited
    }

    /// Gives back a permit of so many bytes, as [`Lines::give_back`](lc_lines::Lines::give_back). Once this side closed the
    /// session no permit is out.
    pub fn give_back(&mut self, channel: Channel, len: usize) -> bool
        ensures closing { self.old.closing ≡ true → (result ≡ false) × (self.new ≡ self.old) }
        ensures answer { self.old.closing ≡ false → result ≡ is_permit (aside self.old.lines.scheduler channel) len }
        ensures after { self.old.closing ≡ false → Changes (give_back self.old.lines.scheduler channel len) self.old self.new }
        ensures rest { self.new ≡ record self.old { lines = self.new.lines; owed = self.new.owed } }
    {
        if self.closing {
            return false;
        }
        let was_out = self.lines.give_back(channel, len);
        put_unless(self.closing, &mut self.owed, &mut self.lines);
        was_out
    }

    /// The next notice, as [`Lines::next_notice`](lc_lines::Lines::next_notice). Calls that the end or the close of the
    /// session gives up have none: their caller learns it from [`Mux::over`].
    pub fn next_notice(&mut self) -> Option<Notice>
        ensures some { IfSome result (λ notice. NoticesAndPuts notice self.old self.new) }
        ensures none { IfNone result ((self.new ≡ self.old) × (IsSettled self.new.lines.scheduler × NoneIsHopeless self.new.lines.scheduler)) }
        ensures rest { self.new ≡ record self.old { lines = self.new.lines; owed = self.new.owed } }
    {
        let notice = self.lines.next_notice()?;
        put_unless(self.closing, &mut self.owed, &mut self.lines);
        Some(notice)
    }
}
