//! Which call of a wait queue proceeds next, and which one never will.
ghost use Rattle.std.specs.Prelude.{◌≡◌, true, false, if◌then◌else◌, Some, IfSome, IfNone};
ghost use Rattle.lc_peer.specs.Questions.{needs};
ghost use Rattle.lc_lines.specs.Scheduler.{front, is_accepted_call, waits_for_bytes, is_turn, can_front_proceed, call_fits, IsSettled, is_offer_call, is_bound_call, can_call_bound, Completes, Bounds, Notifies, Steps, is_never, is_hopeless_ask, is_hopeless, NoneIsHopeless, GivesUp};

use super::judging::judge_bound;
use super::{Notice, Outcome, Scheduler};
use crate::queue::{Ask, Call};
use lc_frame::Channel;
use lc_peer::Needs;

impl Scheduler {
    // The channel, where its first call can proceed, else the other.
    #[inline]
    fn or_next(&self, channel: Channel, other: Option<Channel>) -> Option<Channel>
        ensures { result ≡ (if can_front_proceed self.now channel then Some channel else other) }
    {
        if self.can_front_proceed(channel) {
            Some(channel)
        } else {
            other
        }
    }

    // The channel whose first call proceeds next.
    fn next_channel(&self) -> Option<Channel>
        ensures proceeds { IfSome result (λ c. can_front_proceed self.now c ≡ true) }
        ensures settled { IfNone result (IsSettled self.now) }
    {
        let next = self.or_next(Channel::StaticToken, None);
        let next = self.or_next(Channel::PayloadRequest, next);
        let next = self.or_next(Channel::AreaOfInterest, next);
        let next = self.or_next(Channel::Capability, next);
        let next = self.or_next(Channel::Overlap, next);
        let next = self.or_next(Channel::Data, next);
        self.or_next(Channel::Reconciliation, next)
    }

    // Whether the first call of a channel is an offer.
    fn is_front_offer(&self, channel: Channel) -> bool
        ensures { result ≡ is_offer_call (front self.now channel) }
    {
        match self.queues[channel.index()].first_waiting() {
            Some(call) => call.is_offer(),
            None => false,
        }
    }

    // Whether the first call of a channel asks to bound what the channel sends.
    fn is_front_bound(&self, channel: Channel) -> bool
        ensures { result ≡ is_bound_call (front self.now channel) }
    {
        match self.queues[channel.index()].first_waiting() {
            Some(call) => call.is_bound(),
            None => false,
        }
    }

    // The first call of a channel is completed, which can proceed, and left its message or asks for a permit.
    fn proceed(&mut self, channel: Channel) -> Notice
        requires able { waits_for_bytes self.old channel ≡ true }
        requires accepted { is_accepted_call self.old channel (front self.old channel) ≡ true }
        requires bytes { call_fits self.old (front self.old channel) ≡ true }
        requires turn { is_turn self.old channel ≡ true }
        requires ask { is_offer_call (front self.old channel) ≡ false }
        requires bound { is_bound_call (front self.old channel) ≡ false }
        ensures { Completes result self.old self.new }
    {
        let at = channel.index();
        let Some(Call { ticket, ask }) = self.queues[at].pop() else {
            unreachable!()
        };
        match ask {
            Ask::Message(body) => self.put(channel, body),
            Ask::Permit(len) => self.grant(channel, len),
            Ask::Offer(_) | Ask::End(_) => unreachable!(),
        }
        Notice {
            channel,
            ticket,
            outcome: Outcome::Completed,
        }
    }

    // The first call of a channel is completed, whose bound can be put.
    fn proceed_by_bound(&mut self, channel: Channel) -> Notice
        requires ready { can_call_bound self.old channel (front self.old channel) ≡ true }
        ensures { Bounds result self.old self.new }
    {
        let at = channel.index();
        let Some(Call { ticket, ask }) = self.queues[at].pop() else {
            unreachable!()
        };
        match ask {
            Ask::End(bound) => self.put_bound(channel, bound),
            Ask::Message(_) | Ask::Offer(_) | Ask::Permit(_) => unreachable!(),
        }
        Notice {
            channel,
            ticket,
            outcome: Outcome::Completed,
        }
    }

    // The caller of the first call of a channel is notified, which can proceed, and is an offer.
    fn notify(&mut self, channel: Channel) -> Notice
        requires able { waits_for_bytes self.old channel ≡ true }
        requires bytes { call_fits self.old (front self.old channel) ≡ true }
        requires turn { is_turn self.old channel ≡ true }
        requires offer { is_offer_call (front self.old channel) ≡ true }
        ensures { Notifies result self.old self.new }
    {
        let at = channel.index();
        match self.queues[at].first_waiting() {
            Some(call) => {
                let ticket = call.ticket;
                self.queues[at].note_notified(true, self.left);
                Notice {
                    channel,
                    ticket,
                    outcome: Outcome::Notified,
                }
            }
            None => unreachable!(),
        }
    }

    /// The next call that can proceed is completed, or its caller is notified, if there is one.
    pub fn step(&mut self) -> Option<Notice>
        ensures steps { IfSome result (λ notice. Steps notice self.old self.new) }
        ensures settled { IfNone result (IsSettled self.old × (self.new ≡ self.old)) }
    {
        let channel = self.next_channel()?;
        if self.is_front_bound(channel) {
            Some(self.proceed_by_bound(channel))
        } else if self.is_front_offer(channel) {
            Some(self.notify(channel))
        } else {
            Some(self.proceed(channel))
        }
    }

    // Whether a message or a permit of so many bytes needs what never comes.
    fn is_never(&self, channel: Channel, len: usize) -> bool
        ensures { result ≡ is_never (needs self.now.peer channel len) }
    {
        match self.peer.needs(channel, len) {
            Needs::Never => true,
            Needs::Nothing | Needs::Guarantees(_) | Needs::Slot => false,
        }
    }

    // Whether what a call asks for will never proceed.
    fn is_call_hopeless(&self, channel: Channel, call: &Call) -> bool
        ensures { result ≡ is_hopeless_ask self.now.peer channel call.now.ask }
    {
        match &call.ask {
            Ask::Message(body) => self.is_never(channel, body.as_slice().len()),
            Ask::Offer(len) | Ask::Permit(len) => self.is_never(channel, *len),
            Ask::End(bound) => judge_bound(&self.peer.client(channel), *bound).is_err(),
        }
    }

    // Whether the first call of a channel will never proceed.
    fn is_hopeless(&self, channel: Channel) -> bool
        ensures { result ≡ is_hopeless self.now channel }
    {
        match self.queues[channel.index()].front() {
            Some(call) => self.is_call_hopeless(channel, call),
            None => false,
        }
    }

    // The channel, where its first call will never proceed, else the other.
    fn or_hopeless(&self, channel: Channel, other: Option<Channel>) -> Option<Channel>
        ensures { result ≡ (if is_hopeless self.now channel then Some channel else other) }
    {
        if self.is_hopeless(channel) {
            Some(channel)
        } else {
            other
        }
    }

    // A channel whose first call will never proceed.
    fn next_hopeless(&self) -> Option<Channel>
        ensures some { IfSome result (λ c. is_hopeless self.now c ≡ true) }
        ensures none { IfNone result (NoneIsHopeless self.now) }
    {
        let next = self.or_hopeless(Channel::StaticToken, None);
        let next = self.or_hopeless(Channel::PayloadRequest, next);
        let next = self.or_hopeless(Channel::AreaOfInterest, next);
        let next = self.or_hopeless(Channel::Capability, next);
        let next = self.or_hopeless(Channel::Overlap, next);
        let next = self.or_hopeless(Channel::Data, next);
        self.or_hopeless(Channel::Reconciliation, next)
    }

    /// Gives up a first call that will never proceed, if there is one: nothing of it was sent.
    pub fn give_up(&mut self) -> Option<Notice>
        ensures some { IfSome result (λ notice. GivesUp notice self.old self.new) }
        ensures none { IfNone result (NoneIsHopeless self.old × (self.new ≡ self.old)) }
    {
        let channel = self.next_hopeless()?;
        let at = channel.index();
        match self.queues[at].pop() {
            Some(Call { ticket, ask: _ }) => Some(Notice {
                channel,
                ticket,
                outcome: Outcome::Hopeless,
            }),
            None => unreachable!(),
        }
    }
}
