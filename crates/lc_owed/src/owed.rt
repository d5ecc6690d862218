//! The pending control frames of a session, and the calls that add to them.
ghost use Rattle.std.specs.Prelude.{◌≡◌, if◌then◌else◌, is_ok, length};
ghost use Rattle.std.specs.Result.{result_err};
ghost use Rattle.lc_frame.specs.Channel.{channel_count};
ghost use Rattle.lc_book.specs.Server.{room, issue_refusal, plead_refusal, limit_receiving_refusal};
ghost use Rattle.lc_book.specs.Client.{absolve_refusal, honour_refusal};
ghost use Rattle.lc_peer.specs.Peer.{client, server};
ghost use Rattle.lc_lines.specs.Scheduler.{aside};
ghost use Rattle.lc_owed.specs.Pending.{beside, spared, with_issue, with_limit, with_absolve, with_honour};
ghost use Rattle.lc_owed.specs.Due.{without_due};
ghost use Rattle.lc_owed.specs.Owed.{new_owed, pending_on, with_pending, plead, with_issue_policy, with_plead_policy, by_policies_on, by_policies};

use crate::due::Due;
use crate::pending::Pending;
use crate::policy::{IssuePolicy, PleadPolicy, Policies};
use lc_book::Refusal;
use lc_frame::{CHANNELS, Channel};
use lc_lines::Lines;
use std::marker::Model;

/// What is pending on each channel, and the policies of each.
///
/// A call is accepted exactly where the book of its channel would accept it once all that is pending there was put; else
/// it is refused by the book's refusal, whose number is what is left beside what is pending, and nothing changes. No call
/// is refused by 13. Its frame is put by the next [`Owed::flush`] that finds a slot.
pub struct Owed {
    pending: [Pending; CHANNELS],
    policies: [Policies; CHANNELS],
    first: Channel,
}

// One call, wherever it is dropped.
impl Drop for Owed {
    fn drop(self) {
        let Owed {
            pending: _,
            policies: _,
            first: _,
        } = self;
    }
}

impl Model for Owed {
    ghost use Rattle.lc_owed.specs.Owed.{OwedState, AreOwedFields};

    ghost Value = { OwedState };

    ghost view = { λ o. record { pending = o.pending; policies = o.policies; first = o.first } };

    ghost invariant = { λ o. AreOwedFields o.pending o.policies };
}

impl Owed {
    /// Nothing is pending. All room is issued at once, and each plead is honoured at once, until other policies are set.
    pub fn new() -> Owed
        ensures { result ≡ new_owed }
    {
        Owed {
            pending: [Pending::none(); CHANNELS],
            policies: [Policies::new(); CHANNELS],
            first: Channel::Reconciliation,
        }
    }

    /// What is pending on a channel.
    #[inline]
    pub fn pending(&self, channel: Channel) -> Pending
        ensures { result ≡ pending_on self.now channel }
    {
        self.pending[channel.index()]
    }

    /// The bytes of a channel's ring that may be issued beside the pending issue.
    pub fn room(&self, lines: &Lines, channel: Channel) -> u64
        ensures { result ≡ room (beside (server lines.now.scheduler.peer channel) (pending_on self.now channel)) }
    {
        self.pending(channel).room(&lines.peer().server(channel))
    }

    /// Guarantees are issued, which joins the pending issue. It is put before a pending limit and a pending plead, which
    /// were called for earlier: so it is subtracted from that limit, and added to the target of that plead. Refused by 15,
    /// 5, 9, 10 and 12, in this order.
    pub fn issue(&mut self, lines: &Lines, channel: Channel, amount: u32) -> Result<(), Refusal>
        ensures answer { result_err result ≡ issue_refusal (beside (server lines.now.scheduler.peer channel) (pending_on self.old channel)) amount }
        ensures after { self.new ≡ (if is_ok result then with_pending self.old channel (with_issue (pending_on self.old channel) amount) else self.old) }
    {
        let pending = self.pending(channel);
        pending.judge_issue(&lines.peer().server(channel), amount)?;
        self.pending[channel.index()] = pending.with_issue(amount);
        Ok(())
    }

    /// At most so many guarantees are issued from here on, behind the pending issue. The limit takes the place of a pending
    /// one. Refused by 15, 7 and 8, in this order.
    pub fn limit_receiving(
        &mut self,
        lines: &Lines,
        channel: Channel,
        bound: u64,
    ) -> Result<(), Refusal>
        ensures answer { result_err result ≡ limit_receiving_refusal (beside (server lines.now.scheduler.peer channel) (pending_on self.old channel)) bound }
        ensures after { self.new ≡ (if is_ok result then with_pending self.old channel (with_limit (pending_on self.old channel) bound) else self.old) }
    {
        let pending = self.pending(channel);
        pending.judge_limit(&lines.peer().server(channel), bound)?;
        self.pending[channel.index()] = pending.with_limit(bound);
        Ok(())
    }

    /// The sender is asked to absolve until it holds at most so many guarantees, those of the pending issue among them. The
    /// plead takes the place of a pending one, and no policy issues above its target from then on. Refused by 15 and 11, in
    /// this order.
    pub fn plead(&mut self, lines: &Lines, channel: Channel, target: u32) -> Result<(), Refusal>
        ensures answer { result_err result ≡ plead_refusal (beside (server lines.now.scheduler.peer channel) (pending_on self.old channel)) target }
        ensures after { self.new ≡ (if is_ok result then plead self.old channel target else self.old) }
    {
        let pending = self.pending(channel);
        pending.judge_plead(&lines.peer().server(channel), target)?;
        let at = channel.index();
        self.pending[at] = pending.with_plead(target);
        self.policies[at] = Policies {
            target: Some(target),
            ..self.policies[at]
        };
        Ok(())
    }

    /// Guarantees are absolved that no permit sets aside, which joins the pending absolve. Refused by 15, 5 and 6, in this
    /// order.
    pub fn absolve(&mut self, lines: &Lines, channel: Channel, amount: u32) -> Result<(), Refusal>
        ensures answer { result_err result ≡ absolve_refusal (spared (client lines.now.scheduler.peer channel) (aside lines.now.scheduler channel) (pending_on self.old channel)) amount }
        ensures after { self.new ≡ (if is_ok result then with_pending self.old channel (with_absolve (pending_on self.old channel) amount) else self.old) }
    {
        let pending = self.pending(channel);
        let aside = lines.aside(channel);
        pending.judge_absolve(&lines.peer().client(channel), aside, amount)?;
        self.pending[channel.index()] = pending.with_absolve(amount);
        Ok(())
    }

    /// The plead that a channel keeps is honoured, once permits of the channel no longer hold what that absolves. Refused
    /// by 15.
    pub fn honour(&mut self, lines: &Lines, channel: Channel) -> Result<(), Refusal>
        ensures answer { result_err result ≡ honour_refusal (client lines.now.scheduler.peer channel) }
        ensures after { self.new ≡ (if is_ok result then with_pending self.old channel (with_honour (pending_on self.old channel)) else self.old) }
    {
        lines.peer().client(channel).judge_honour()?;
        self.pending[channel.index()] = self.pending(channel).with_honour();
        Ok(())
    }

    /// Sets when a channel's receiver issues without a call, and forgets the target of its last plead.
    pub fn set_issue_policy(&mut self, channel: Channel, policy: IssuePolicy)
        ensures { self.new ≡ with_issue_policy self.old channel policy }
    {
        let at = channel.index();
        self.policies[at] = Policies {
            issue: policy,
            target: None,
            ..self.policies[at]
        };
    }

    /// Sets when a channel's sender honours a plead without a call.
    pub fn set_plead_policy(&mut self, channel: Channel, policy: PleadPolicy)
        ensures { self.new ≡ with_plead_policy self.old channel policy }
    {
        let at = channel.index();
        self.policies[at] = Policies {
            plead: policy,
            ..self.policies[at]
        };
    }

    /// The channel that is served first.
    #[inline]
    pub fn first(&self) -> Channel
        ensures { result ≡ self.now.first }
    {
        self.first
    }

    // This channel is served first.
    pub(crate) fn serve_first(&mut self, channel: Channel)
        ensures { self.new ≡ record self.old { first = channel } }
    {
        self.first = channel;
    }

    // What was due is no longer pending.
    pub(crate) fn remove(&mut self, due: Due)
        ensures after { self.new ≡ without_due self.old due }
        ensures places { length self.old.pending ≡ channel_count }
    {
        let channel = due.channel();
        self.pending[channel.index()] = self.pending(channel).without(due);
    }

    // What is pending on a channel once its policies made their calls.
    fn by_policies_on(&self, lines: &Lines, channel: Channel) -> Pending
        ensures { result ≡ by_policies_on self.now lines.now.scheduler channel }
    {
        let peer = lines.peer();
        self.policies[channel.index()].call(
            &peer.client(channel),
            &peer.server(channel),
            self.pending(channel),
        )
    }

    // What is pending on all channels once their policies made their calls.
    fn all_by_policies(&self, lines: &Lines) -> [Pending; CHANNELS]
        ensures { result ≡ (by_policies self.now lines.now.scheduler).pending }
    {
        [
            self.by_policies_on(lines, Channel::Reconciliation),
            self.by_policies_on(lines, Channel::Data),
            self.by_policies_on(lines, Channel::Overlap),
            self.by_policies_on(lines, Channel::Capability),
            self.by_policies_on(lines, Channel::AreaOfInterest),
            self.by_policies_on(lines, Channel::PayloadRequest),
            self.by_policies_on(lines, Channel::StaticToken),
        ]
    }

    // The policies of all channels make the calls that are due by them.
    pub(crate) fn call_policies(&mut self, lines: &Lines)
        ensures { self.new ≡ by_policies self.old lines.now.scheduler }
    {
        self.pending = self.all_by_policies(lines);
    }
}
