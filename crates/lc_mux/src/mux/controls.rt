//! Control calls, and the policies that make them: those of the pending control frames, while the session takes them.
ghost use Rattle.std.specs.Prelude.{◌≡◌, None, true, OnOk, OnErr};
ghost use Rattle.std.specs.Result.{result_err};
ghost use Rattle.lc_book.specs.Server.{room, issue_refusal, plead_refusal, limit_receiving_refusal};
ghost use Rattle.lc_book.specs.Client.{absolve_refusal, honour_refusal};
ghost use Rattle.lc_peer.specs.Peer.{client, server};
ghost use Rattle.lc_lines.specs.Scheduler.{aside};
ghost use Rattle.lc_owed.specs.Pending.{beside, spared, with_issue, with_limit, with_absolve, with_honour};
ghost use Rattle.lc_owed.specs.Owed.{pending_on, with_pending, plead, with_issue_policy, with_plead_policy};
ghost use Rattle.lc_mux.specs.Ends.{call_over};
ghost use Rattle.lc_mux.specs.Calls.{Answers, IsAnswer};
ghost use Rattle.lc_mux.specs.Flushing.{Owes};

use super::Mux;
use crate::end::CallError;
use crate::flushing::flush_unless;
use lc_frame::Channel;
use lc_owed::{IssuePolicy, Pending, PleadPolicy};

impl Mux {
    /// What is pending on a channel: control frames that were accepted and lack a slot.
    #[inline]
    pub fn owed(&self, channel: Channel) -> Pending
        ensures { result ≡ pending_on self.now.owed channel }
    {
        self.owed.pending(channel)
    }

    /// The bytes of a channel's ring that may be issued beside the pending issue.
    pub fn room(&self, channel: Channel) -> u64
        ensures { result ≡ room (beside (server self.now.lines.scheduler.peer channel) (pending_on self.now.owed channel)) }
    {
        self.owed.room(&self.lines, channel)
    }

    /// Issues guarantees, as [`Owed::issue`](lc_owed::Owed::issue).
    pub fn issue(&mut self, channel: Channel, amount: u32) -> Result<(), CallError>
        ensures answer { Answers (call_over self.old) (IsAnswer (issue_refusal (beside (server self.old.lines.scheduler.peer channel) (pending_on self.old.owed channel)) amount)) (result_err result) }
        ensures refused { OnErr result (self.new ≡ self.old) }
        ensures issues { OnOk result (Owes (with_pending self.old.owed channel (with_issue (pending_on self.old.owed channel) amount)) self.old self.new) }
        ensures rest { self.new ≡ record self.old { lines = self.new.lines; owed = self.new.owed } }
    {
        self.judge_call()?;
        self.owed.issue(&self.lines, channel, amount)?;
        flush_unless(self.closing, &mut self.owed, &mut self.lines);
        Ok(())
    }

    /// Bounds what a channel is issued from here on, as [`Owed::limit_receiving`](lc_owed::Owed::limit_receiving).
    pub fn limit_receiving(&mut self, channel: Channel, bound: u64) -> Result<(), CallError>
        ensures answer { Answers (call_over self.old) (IsAnswer (limit_receiving_refusal (beside (server self.old.lines.scheduler.peer channel) (pending_on self.old.owed channel)) bound)) (result_err result) }
        ensures refused { OnErr result (self.new ≡ self.old) }
        ensures limits { OnOk result (Owes (with_pending self.old.owed channel (with_limit (pending_on self.old.owed channel) bound)) self.old self.new) }
        ensures rest { self.new ≡ record self.old { lines = self.new.lines; owed = self.new.owed } }
    {
        self.judge_call()?;
        self.owed.limit_receiving(&self.lines, channel, bound)?;
        flush_unless(self.closing, &mut self.owed, &mut self.lines);
        Ok(())
    }

    /// Asks the sender of a channel to absolve, as [`Owed::plead`](lc_owed::Owed::plead).
    pub fn plead(&mut self, channel: Channel, target: u32) -> Result<(), CallError>
        ensures answer { Answers (call_over self.old) (IsAnswer (plead_refusal (beside (server self.old.lines.scheduler.peer channel) (pending_on self.old.owed channel)) target)) (result_err result) }
        ensures refused { OnErr result (self.new ≡ self.old) }
        ensures pleads { OnOk result (Owes (plead self.old.owed channel target) self.old self.new) }
        ensures rest { self.new ≡ record self.old { lines = self.new.lines; owed = self.new.owed } }
    {
        self.judge_call()?;
        self.owed.plead(&self.lines, channel, target)?;
        flush_unless(self.closing, &mut self.owed, &mut self.lines);
        Ok(())
    }

    /// Absolves guarantees of a channel, as [`Owed::absolve`](lc_owed::Owed::absolve).
    pub fn absolve(&mut self, channel: Channel, amount: u32) -> Result<(), CallError>
        ensures answer { Answers (call_over self.old) (IsAnswer (absolve_refusal (spared (client self.old.lines.scheduler.peer channel) (aside self.old.lines.scheduler channel) (pending_on self.old.owed channel)) amount)) (result_err result) }
        ensures refused { OnErr result (self.new ≡ self.old) }
        ensures absolves { OnOk result (Owes (with_pending self.old.owed channel (with_absolve (pending_on self.old.owed channel) amount)) self.old self.new) }
        ensures rest { self.new ≡ record self.old { lines = self.new.lines; owed = self.new.owed } }
    {
        self.judge_call()?;
        self.owed.absolve(&self.lines, channel, amount)?;
        flush_unless(self.closing, &mut self.owed, &mut self.lines);
        Ok(())
    }

    /// Honours the plead that a channel keeps, as [`Owed::honour`](lc_owed::Owed::honour).
    pub fn honour(&mut self, channel: Channel) -> Result<(), CallError>
        ensures answer { Answers (call_over self.old) (IsAnswer (honour_refusal (client self.old.lines.scheduler.peer channel))) (result_err result) }
        ensures refused { OnErr result (self.new ≡ self.old) }
        ensures honours { OnOk result (Owes (with_pending self.old.owed channel (with_honour (pending_on self.old.owed channel))) self.old self.new) }
        ensures rest { self.new ≡ record self.old { lines = self.new.lines; owed = self.new.owed } }
    {
        self.judge_call()?;
        self.owed.honour(&self.lines, channel)?;
        flush_unless(self.closing, &mut self.owed, &mut self.lines);
        Ok(())
    }

    /// Sets when a channel's receiver issues without a call, as [`Owed::set_issue_policy`](lc_owed::Owed::set_issue_policy).
    /// It holds from the next delivery, control call or [`Mux::write`] on.
    pub fn set_issue_policy(&mut self, channel: Channel, policy: IssuePolicy)
        ensures { self.new ≡ record self.old { owed = with_issue_policy self.old.owed channel policy } }
    {
        self.owed.set_issue_policy(channel, policy);
    }

    /// Sets when a channel's sender honours a plead without a call, as
    /// [`Owed::set_plead_policy`](lc_owed::Owed::set_plead_policy). It holds from the next delivery, control call or
    /// [`Mux::write`] on.
    pub fn set_plead_policy(&mut self, channel: Channel, policy: PleadPolicy)
        ensures { self.new ≡ record self.old { owed = with_plead_policy self.old.owed channel policy } }
    {
        self.owed.set_plead_policy(channel, policy);
    }
}
