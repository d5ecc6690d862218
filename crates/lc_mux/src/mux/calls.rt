//! The calls of senders: those of the lines, while the session takes them.
ghost use Rattle.std.specs.Prelude.{◌≡◌, None, false, length, IfOk, OnOk, OnErr};
ghost use Rattle.std.specs.Result.{result_err};
ghost use Rattle.lc_book.specs.Client.{spend_refusal};
ghost use Rattle.lc_peer.specs.Peer.{client};
ghost use Rattle.lc_lines.specs.declared.queue.Ask.TheVariants.{Offer};
ghost use Rattle.lc_lines.specs.Scheduler.{start, join, complete, complete_progress, IsCompleteAnswer, progress_of, IsCallAnswer, IsAttemptAnswer, attempt, try_send, for_good, IsReserveAnswer, reserve, try_reserve, IsReservedAnswer, IsHonoured, send_reserved, IsBoundAnswer, bound_progress, start_bound};
ghost use Rattle.lc_mux.specs.Ends.{call_over};
ghost use Rattle.lc_mux.specs.Flushing.{Changes};
ghost use Rattle.lc_mux.specs.Calls.{Answers, refusal_of, send_over, IsAnswer};

use super::Mux;
use crate::end::{CallError, End};
use crate::flushing::put_unless;
use lc_frame::Channel;
use lc_lines::{Attempt, Bound, Progress};

impl Mux {
    // Why no call is made any more: the session is over, or this side closed it.
    pub(super) fn judge_call(&self) -> Result<(), End>
        ensures answer { result_err result ≡ call_over self.now }
        ensures open { OnOk result (self.now.closing ≡ false) }
    {
        if let Some(end) = self.over() {
            return Err(end);
        }
        if self.closing {
            return Err(End::Local);
        }
        Ok(())
    }

    // Why no message of so many bytes is taken any more.
    fn judge_send(&self, channel: Channel, len: usize) -> Result<(), End>
        ensures answer { result_err result ≡ send_over self.now channel len }
        ensures open { OnOk result (self.now.closing ≡ false) }
    {
        self.judge_call()?;
        if self.input_ended && self.lines.free(channel) < len as u64 {
            return Err(End::Remote);
        }
        Ok(())
    }

    /// A call to send a message, as [`Lines::send`](lc_lines::Lines::send).
    pub fn send(
        &mut self,
        channel: Channel,
        ticket: u64,
        body: &[u8],
    ) -> Result<Progress, CallError>
        ensures answer { Answers (send_over self.old channel (length body.now)) (IsCallAnswer self.old.lines.scheduler.peer channel (length body.now)) (result_err result) }
        ensures progress { IfOk result (λ progress. progress ≡ progress_of self.old.lines.scheduler channel (length body.now)) }
        ensures refused { OnErr result (self.new ≡ self.old) }
        ensures starts { OnOk result (Changes (start self.old.lines.scheduler channel ticket body.now) self.old self.new) }
        ensures rest { self.new ≡ record self.old { lines = self.new.lines; owed = self.new.owed } }
    {
        self.judge_send(channel, body.len())?;
        let progress = self.lines.send(channel, ticket, body)?;
        put_unless(self.closing, &mut self.owed, &mut self.lines);
        Ok(progress)
    }

    /// An attempt to send a message at once, as [`Lines::try_send`](lc_lines::Lines::try_send).
    pub fn try_send(&mut self, channel: Channel, body: &[u8]) -> Result<Attempt, CallError>
        ensures answer { Answers (send_over self.old channel (length body.now)) (IsAttemptAnswer self.old.lines.scheduler channel (length body.now)) (result_err result) }
        ensures attempt { IfOk result (λ answer. answer ≡ attempt self.old.lines.scheduler channel (length body.now)) }
        ensures refused { OnErr result (self.new ≡ self.old) }
        ensures sends { OnOk result (Changes (try_send self.old.lines.scheduler channel body.now) self.old self.new) }
        ensures rest { self.new ≡ record self.old { lines = self.new.lines; owed = self.new.owed } }
    {
        self.judge_send(channel, body.len())?;
        let answer = self.lines.try_send(channel, body)?;
        put_unless(self.closing, &mut self.owed, &mut self.lines);
        Ok(answer)
    }

    /// An offer of a message of so many bytes, as [`Lines::offer`](lc_lines::Lines::offer).
    pub fn offer(&mut self, channel: Channel, ticket: u64, len: usize) -> Result<(), CallError>
        ensures answer { Answers (send_over self.old channel len) (IsCallAnswer self.old.lines.scheduler.peer channel len) (result_err result) }
        ensures refused { OnErr result (self.new ≡ self.old) }
        ensures joins { OnOk result (Changes (join self.old.lines.scheduler channel (record { ticket = ticket; ask = Offer len })) self.old self.new) }
        ensures rest { self.new ≡ record self.old { lines = self.new.lines; owed = self.new.owed } }
    {
        self.judge_send(channel, len)?;
        self.lines.offer(channel, ticket, len)?;
        put_unless(self.closing, &mut self.owed, &mut self.lines);
        Ok(())
    }

    /// The message of an offer is handed over, as [`Lines::complete`](lc_lines::Lines::complete).
    pub fn complete(
        &mut self,
        channel: Channel,
        ticket: u64,
        body: &[u8],
    ) -> Result<Progress, CallError>
        ensures answer { Answers (send_over self.old channel (length body.now)) (IsCompleteAnswer self.old.lines.scheduler channel ticket (length body.now)) (result_err result) }
        ensures progress { IfOk result (λ progress. progress ≡ complete_progress self.old.lines.scheduler channel ticket (length body.now)) }
        ensures refused { OnErr result (self.new ≡ self.old) }
        ensures completes { OnOk result (Changes (complete self.old.lines.scheduler channel ticket body.now) self.old self.new) }
        ensures rest { self.new ≡ record self.old { lines = self.new.lines; owed = self.new.owed } }
    {
        self.judge_send(channel, body.len())?;
        let progress = self.lines.complete(channel, ticket, body)?;
        put_unless(self.closing, &mut self.owed, &mut self.lines);
        Ok(progress)
    }

    /// A call to reserve a permit for a message of so many bytes, as [`Lines::reserve`](lc_lines::Lines::reserve).
    pub fn reserve(
        &mut self,
        channel: Channel,
        ticket: u64,
        len: usize,
    ) -> Result<Progress, CallError>
        ensures answer { Answers (send_over self.old channel len) (IsReserveAnswer self.old.lines.scheduler channel len) (result_err result) }
        ensures progress { IfOk result (λ progress. progress ≡ progress_of self.old.lines.scheduler channel len) }
        ensures refused { OnErr result (self.new ≡ self.old) }
        ensures reserves { OnOk result (Changes (reserve self.old.lines.scheduler channel ticket len) self.old self.new) }
        ensures rest { self.new ≡ record self.old { lines = self.new.lines; owed = self.new.owed } }
    {
        self.judge_send(channel, len)?;
        let progress = self.lines.reserve(channel, ticket, len)?;
        put_unless(self.closing, &mut self.owed, &mut self.lines);
        Ok(progress)
    }

    /// An attempt to reserve a permit at once, as [`Lines::try_reserve`](lc_lines::Lines::try_reserve).
    pub fn try_reserve(&mut self, channel: Channel, len: usize) -> Result<Attempt, CallError>
        ensures answer { Answers (send_over self.old channel len) (IsAnswer (for_good (spend_refusal (client self.old.lines.scheduler.peer channel) len))) (result_err result) }
        ensures attempt { IfOk result (λ answer. answer ≡ attempt self.old.lines.scheduler channel len) }
        ensures refused { OnErr result (self.new ≡ self.old) }
        ensures reserves { OnOk result (Changes (try_reserve self.old.lines.scheduler channel len) self.old self.new) }
        ensures rest { self.new ≡ record self.old { lines = self.new.lines; owed = self.new.owed } }
    {
        self.judge_send(channel, len)?;
        let answer = self.lines.try_reserve(channel, len)?;
        put_unless(self.closing, &mut self.owed, &mut self.lines);
        Ok(answer)
    }

    /// Sends a message by a permit of so many bytes, as [`Lines::send_reserved`](lc_lines::Lines::send_reserved).
    pub fn send_reserved(
        &mut self,
        channel: Channel,
        len: usize,
        body: &[u8],
    ) -> Result<(), CallError>
        ensures honoured { call_over self.old ≡ None → IsHonoured self.old.lines.scheduler channel len (length body.now) (refusal_of (result_err result)) }
        ensures answer { Answers (call_over self.old) (IsReservedAnswer self.old.lines.scheduler channel len (length body.now)) (result_err result) }
        ensures refused { OnErr result (self.new ≡ self.old) }
        ensures sends { OnOk result (Changes (send_reserved self.old.lines.scheduler channel len body.now) self.old self.new) }
        ensures rest { self.new ≡ record self.old { lines = self.new.lines; owed = self.new.owed } }
    {
        self.judge_call()?;
        self.lines.send_reserved(channel, len, body)?;
        put_unless(self.closing, &mut self.owed, &mut self.lines);
        Ok(())
    }

    /// A call to bound what a channel sends from here on, as [`Lines::bound`](lc_lines::Lines::bound).
    pub fn bound(
        &mut self,
        channel: Channel,
        ticket: u64,
        bound: Bound,
    ) -> Result<Progress, CallError>
        ensures answer { Answers (call_over self.old) (IsBoundAnswer self.old.lines.scheduler channel bound) (result_err result) }
        ensures progress { IfOk result (λ progress. progress ≡ bound_progress self.old.lines.scheduler channel bound) }
        ensures refused { OnErr result (self.new ≡ self.old) }
        ensures bounds { OnOk result (Changes (start_bound self.old.lines.scheduler channel ticket bound) self.old self.new) }
        ensures rest { self.new ≡ record self.old { lines = self.new.lines; owed = self.new.owed } }
    {
        self.judge_call()?;
        let progress = self.lines.bound(channel, ticket, bound)?;
        put_unless(self.closing, &mut self.owed, &mut self.lines);
        Ok(progress)
    }
}
