//! What a call needs: guarantees, a slot, bytes and its turn; and what a bound needs.
ghost use Rattle.std.specs.Prelude.{◌≡◌, ◌||◌, not, true};
ghost use Rattle.std.specs.Result.{result_err};
ghost use Rattle.lc_book.specs.Client.{spend_refusal};
ghost use Rattle.lc_lines.specs.Permits.{free_of};
ghost use Rattle.lc_lines.specs.Bounds.{bound_refusal};
ghost use Rattle.lc_lines.specs.Outbound.{is_shared_free, has_control_slot, fits};
ghost use Rattle.lc_frame.specs.Channel.{is_same};
ghost use Rattle.lc_lines.specs.Scheduler.{aside, unwritten, has_guarantees, most_behind, is_passed, may_share, has_place, is_accepted, is_able, waits_for_bytes, is_no_later, is_turn, can_proceed, can_bound, can_ask_proceed, can_front_proceed, for_good, goes_at_once, bounds_at_once, lack};

use super::{CONTROL_SLOTS, MOST_QUEUED, Scheduler};
use crate::permits::Aside;
use crate::queue::{Ask, Bound, Call};
use lc_book::{ClientBook, Refusal};
use lc_frame::Channel;
use lc_peer::Needs;

// The refusal of a message of so many bytes by a book.
#[inline]
fn judge_spend(book: &ClientBook, len: usize) -> Result<(), Refusal>
    ensures { result_err result ≡ spend_refusal book.now len }
{
    // A length of more than 32 bits is too long as well.
    book.judge_spend(u32::try_from(len).unwrap_or(u32::MAX))
}

// Why a call is refused at once: what its book refuses for good.
pub(super) fn judge_call(book: &ClientBook, len: usize) -> Result<(), Refusal>
    ensures { result_err result ≡ for_good (spend_refusal book.now len) }
{
    match judge_spend(book, len) {
        Ok(()) | Err(Refusal::NoGuarantee { .. }) => Ok(()),
        Err(refusal) => Err(refusal),
    }
}

// Why a bound is refused, for good.
#[inline]
pub(super) fn judge_bound(book: &ClientBook, bound: Bound) -> Result<(), Refusal>
    ensures { result_err result ≡ bound_refusal book.now bound }
{
    match bound {
        Bound::Limit(bytes) => book.judge_limit_sending(bytes),
        Bound::Finish => book.judge_finish(),
    }
}

// Whether a message of so many bytes fits beside so many that are queued.
#[inline]
fn fits(bytes: usize, len: usize) -> bool
    ensures { result ≡ fits bytes len }
{
    bytes == 0 || len <= MOST_QUEUED && bytes <= MOST_QUEUED - len
}

// The guarantees that a call may use, by the book of its channel and what permits hold there.
#[inline]
pub(super) fn free_of(book: &ClientBook, aside: Aside) -> u64
    ensures { result ≡ free_of book.now aside }
{
    let held = book.held();
    let within = match book.send_left() {
        Some(left) => left.min(held),
        None => held,
    };
    within.saturating_sub(aside.bytes)
}

impl Scheduler {
    // Whether a channel's guarantees suffice for a message of so many bytes, beside those that permits set aside, and
    // nothing else refuses it.
    #[inline]
    fn has_guarantees(&self, channel: Channel, len: usize) -> bool
        ensures { result ≡ has_guarantees self.now channel len }
    {
        let book = self.peer.client(channel);
        match judge_spend(&book, len) {
            Ok(()) => len as u64 <= free_of(&book, self.aside(channel)),
            Err(_) => false,
        }
    }

    // How many messages of other channels are queued behind one of a channel at most.
    #[inline]
    fn most_behind(&self) -> usize
        ensures { result ≡ most_behind self.now.peer }
    {
        (self.peer.slots_left() + self.peer.waiting()).saturating_sub(CONTROL_SLOTS + 1)
    }

    // Whether the first call of a channel was notified since a frame left the outbound queue, and has not come, and
    // other channels took so many turns since the channel's own last one.
    fn is_passed(&self, channel: Channel) -> bool
        ensures { result ≡ is_passed self.now channel }
    {
        let queue = &self.queues[channel.index()];
        queue.is_fresh(self.left)
            && self.most_behind() as u64 <= self.sent.saturating_sub(queue.last())
    }

    // Whether a channel is this one, or is not passed.
    #[inline]
    fn is_unpassed(&self, channel: Channel, other: Channel) -> bool
        ensures { result ≡ (is_same other channel || not (is_passed self.now other)) }
    {
        other.index() == channel.index() || !self.is_passed(other)
    }

    // Whether a channel may take a shared slot: no frame is queued, or no other channel is passed.
    #[tactic(auto, unfolding(crate::specs::Scheduler::may_share))]
    fn may_share(&self, channel: Channel) -> bool
        ensures { result ≡ may_share self.now channel }
    {
        self.peer.waiting() == 0
            || (self.is_unpassed(channel, Channel::Reconciliation)
                && self.is_unpassed(channel, Channel::Data)
                && self.is_unpassed(channel, Channel::Overlap)
                && self.is_unpassed(channel, Channel::Capability)
                && self.is_unpassed(channel, Channel::AreaOfInterest)
                && self.is_unpassed(channel, Channel::PayloadRequest)
                && self.is_unpassed(channel, Channel::StaticToken))
    }

    // Whether more slots are free than those for control frames and those that only their owners take.
    #[inline]
    fn is_shared_free(&self) -> bool
        ensures { result ≡ is_shared_free self.now.peer self.now.asides }
    {
        self.peer.slots_left().saturating_sub(self.counts.kept()) > CONTROL_SLOTS
    }

    // Whether a message or a permit of a channel has a slot: its own is free, or a shared one that it may take.
    #[inline]
    fn has_place(&self, channel: Channel) -> bool
        ensures { result ≡ has_place self.now channel }
    {
        self.counts.under_way(channel) == 0 || (self.is_shared_free() && self.may_share(channel))
    }

    // Whether a slot is free for a control frame.
    #[inline]
    pub(super) fn has_control_slot(&self) -> bool
        ensures { result ≡ has_control_slot self.now.peer self.now.asides }
    {
        self.peer.slots_left() > self.counts.kept()
    }

    // Whether a message or a permit of a channel of so many bytes waits for bytes at most.
    #[inline]
    fn is_able(&self, channel: Channel, len: usize) -> bool
        ensures { result ≡ is_able self.now channel len }
    {
        self.has_guarantees(channel, len) && self.has_place(channel)
    }

    // Whether the first call of a channel waits for bytes at most.
    #[inline]
    fn waits_for_bytes(&self, channel: Channel) -> bool
        ensures { result ≡ waits_for_bytes self.now channel }
    {
        match self.queues[channel.index()].first_waiting() {
            Some(call) => self.is_able(channel, call.len()),
            None => false,
        }
    }

    // Whether a channel sent no later than another one, where the first call of that waits for bytes at most.
    #[inline]
    fn is_no_later(&self, channel: Channel, other: Channel) -> bool
        ensures { result ≡ is_no_later self.now channel other }
    {
        if self.waits_for_bytes(other) {
            self.queues[channel.index()].last() <= self.queues[other.index()].last()
        } else {
            true
        }
    }

    // Whether no other channel that sent less recently waits for bytes alone.
    fn is_turn(&self, channel: Channel) -> bool
        ensures { result ≡ is_turn self.now channel }
    {
        self.is_no_later(channel, Channel::Reconciliation)
            && self.is_no_later(channel, Channel::Data)
            && self.is_no_later(channel, Channel::Overlap)
            && self.is_no_later(channel, Channel::Capability)
            && self.is_no_later(channel, Channel::AreaOfInterest)
            && self.is_no_later(channel, Channel::PayloadRequest)
            && self.is_no_later(channel, Channel::StaticToken)
    }

    // Whether the bytes of a message fit beside those that are queued or begun.
    #[inline]
    fn has_bytes(&self, len: usize) -> bool
        ensures { result ≡ fits (unwritten self.now) len }
    {
        fits(self.counts.bytes() + self.begun, len)
    }

    /// Whether a message or a permit of a channel of so many bytes can proceed, where it is the first that waits there.
    #[inline]
    pub fn can_proceed(&self, channel: Channel, len: usize) -> bool
        ensures value { result ≡ can_proceed self.now channel len }
        ensures accepted { result ≡ true → is_accepted self.now channel len ≡ true }
        ensures bytes { result ≡ true → fits (unwritten self.now) len ≡ true }
    {
        self.holds_all(channel, len)
    }

    // The same, as one value.
    #[inline]
    fn holds_all(&self, channel: Channel, len: usize) -> bool
        ensures { result ≡ can_proceed self.now channel len }
    {
        self.is_able(channel, len) && self.has_bytes(len) && self.is_turn(channel)
    }

    // Whether a bound can be put: no permit of its channel is out, and a slot is free for a control frame.
    #[inline]
    fn can_bound(&self, channel: Channel, bound: Bound) -> bool
        ensures { result ≡ can_bound self.now channel bound }
    {
        judge_bound(&self.peer.client(channel), bound).is_ok()
            && (self.aside(channel).permits == 0 && self.has_control_slot())
    }

    // Whether what a call asks for can proceed.
    #[inline]
    fn can_call_proceed(&self, channel: Channel, call: &Call) -> bool
        ensures { result ≡ can_ask_proceed self.now channel call.now.ask }
    {
        match &call.ask {
            Ask::Message(body) => self.can_proceed(channel, body.as_slice().len()),
            Ask::Offer(len) | Ask::Permit(len) => self.can_proceed(channel, *len),
            Ask::End(bound) => self.can_bound(channel, *bound),
        }
    }

    // Whether the first call of a channel can proceed.
    #[inline]
    pub(super) fn can_front_proceed(&self, channel: Channel) -> bool
        ensures { result ≡ can_front_proceed self.now channel }
    {
        match self.queues[channel.index()].first_waiting() {
            Some(call) => self.can_call_proceed(channel, call),
            None => false,
        }
    }

    // Whether no call of a channel waits, and a new bound can be put.
    pub(super) fn bounds_at_once(&self, channel: Channel, bound: Bound) -> bool
        ensures value { result ≡ bounds_at_once self.now channel bound }
        ensures ready { result ≡ true → can_bound self.now channel bound ≡ true }
    {
        self.queues[channel.index()].len() == 0 && self.can_bound(channel, bound)
    }

    // Whether no call of a channel waits, and a new one of so many bytes can proceed.
    pub(super) fn goes_at_once(&self, channel: Channel, len: usize) -> bool
        ensures value { result ≡ goes_at_once self.now channel len }
        ensures accepted { result ≡ true → is_accepted self.now channel len ≡ true }
        ensures bytes { result ≡ true → fits (unwritten self.now) len ≡ true }
    {
        self.queues[channel.index()].len() == 0 && self.can_proceed(channel, len)
    }

    // What a message or a permit of so many bytes lacks that does not go at once.
    pub(super) fn lack(&self, channel: Channel, len: usize) -> Needs
        ensures { result ≡ lack self.now channel len }
    {
        match self.peer.needs(channel, len) {
            Needs::Never => return Needs::Never,
            Needs::Nothing | Needs::Guarantees(_) | Needs::Slot => {}
        }
        let free = self.free(channel);
        if len as u64 <= free {
            Needs::Slot
        } else {
            Needs::Guarantees(len as u64 - free)
        }
    }
}
