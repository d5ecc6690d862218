//! The sending end of one channel.
ghost use Rattle.std.specs.Prelude.{◌≡◌, ◌<◌, ◌≤◌, [], ◌∷◌, ◌++◌, IfOk, IfErr, OnOk, OnErr, IfSome, IfNone, IsSome, Some, None, true, is_some};
ghost use Rattle.lc_frame.specs.Channel.{channel_count, number_of};
ghost use Rattle.lc_frame.specs.Frame.{IsValid, lane_of};
ghost use Rattle.lc_frame.specs.declared.kind.Kind.TheVariants.{Finish};
ghost use Rattle.lc_frame.specs.Kind.{has, max_amount, max_total};
ghost use Rattle.lc_book.specs.declared.fault.Refusal.TheVariants.{QueueFull, ChannelFinished};
ghost use Rattle.lc_queue.specs.Parts.{IsSameEnd};
ghost use Rattle.lc_credit.specs.declared.history.Entry.TheVariants.{Returned};
ghost use Rattle.lc_credit.specs.History.{is_outgoing, Makes};
ghost use Rattle.lc_credit.specs.Sides.{IsIdle, IsUnfinished, Holds, new_outgoing, counted, given_back};
ghost use Rattle.lc_credit.specs.Channels.{SameCredit};
ghost use Rattle.lc_outbox.specs.Outbox.{IsOutbox, IsSameOutbox, new_outbox};
ghost use Rattle.lc_outbox.specs.Calls.{IsRefused, IsSent, IsNotSent, IsAbsolved, IsNotAbsolved, IsLimited, IsNotLimited, IsFinished, IsNotFinished};
ghost use Rattle.lc_outbox.specs.Honours.{AnswersFor, IsMet, IsLowered, IsHonoured, IsPutOff};

use lc_book::{Refusal, after_message, check_limit};
use lc_credit::CreditOut;
use lc_frame::{Body, Channel, Frame, MAX_AMOUNT};
use lc_queue::LaneEnd;
use std::alloc::Global;
use std::fmt;
use std::fmt::{Debug, Formatter};
use std::marker::Model;
use std::sync::Wait;

/// The sending end of a channel, which one thread at a time has: the end of the lane on which the
/// channel's client puts, its credit, and what else its client has to know. All numbers count bytes
/// of messages.
///
/// That 13 comes only where nothing before it refuses, clauses say; that it comes only from a full
/// queue none does, as of [`LaneEnd::push`].
pub struct Outbox {
    alloc: Global,
    channel: Channel,
    lane: LaneEnd,
    credit: CreditOut,
    send_left: Option<u64>,
    asked: Option<u32>,
}

// One call, wherever an outbox is dropped.
impl Drop for Outbox {
    fn drop(self) {
        let Outbox {
            alloc: _,
            channel: _,
            lane: _,
            credit: _,
            send_left: _,
            asked: _,
        } = self;
    }
}

impl Model for Outbox {
    ghost use Rattle.lc_outbox.specs.Outbox.{OutboxState, IsOutbox};

    ghost Value = { OutboxState };

    ghost view = { λ o. record { channel = o.channel; lane = o.lane; credit = o.credit; send_left = o.send_left; asked = o.asked } };

    ghost invariant = { λ o. IsOutbox (record { channel = o.channel; lane = o.lane; credit = o.credit; send_left = o.send_left; asked = o.asked }) };
}

impl Debug for Outbox {
    fn fmt<W: fmt::Write>(&self, f: &mut Formatter<W>) -> fmt::Result {
        f.debug_struct("Outbox")
            .field("channel", &self.channel)
            .field("credit", &self.credit)
            .field("send_left", &self.send_left)
            .field("asked", &self.asked)
            .finish_non_exhaustive()
    }
}

// Whether there may be own events. Refused by 15.
fn check_open(credit: &CreditOut) -> Result<(), Refusal>
    ensures unfinished { OnOk result (IsUnfinished credit.now) }
    ensures finished { IfErr result (λ e. (e ≡ ChannelFinished) × IsSome credit.now.waived) }
{
    if credit.is_finished() {
        return Err(Refusal::ChannelFinished);
    }
    Ok(())
}

// Puts the frame of what is pending, and counts it; or gives it back where no slot is free.
fn put_used<R: Wait>(
    rt: &R,
    lane: &mut LaneEnd,
    credit: &mut CreditOut,
    frame: Frame,
) -> Result<(), Refusal>
    requires valid { IsValid lane.old.version frame }
    requires lane { lane_of frame ≡ lane.old.lane }
    requires pending { IsSome credit.old.pending }
    ensures put { OnOk result (lane.new ≡ record lane.old { put = lane.old.put ++ frame ∷ [] }) }
    ensures counted { OnOk result (IfSome credit.old.pending (λ p. credit.new ≡ counted p credit.old)) }
    ensures full { IfErr result (λ e. e ≡ QueueFull) }
    ensures unput { OnErr result (lane.new ≡ lane.old) }
    ensures makes { OnErr result (IfSome credit.old.pending (λ p. Makes is_outgoing credit.old.seen (Returned p.amount) credit.new.seen)) }
    ensures given_back { OnErr result (IfSome credit.old.pending (λ p. credit.new ≡ given_back p credit.new.seen credit.old)) }
    ensures same_lane { IsSameEnd lane.old lane.new }
    ensures same_credit { SameCredit credit.old credit.new }
{
    match lane.push(rt, frame) {
        Ok(()) => {
            credit.confirm();
            Ok(())
        }
        Err(_) => {
            credit.give_back();
            Err(Refusal::QueueFull)
        }
    }
}

// Takes the target that waits, if one does, in place of the one that was kept.
fn take_target(credit: &mut CreditOut, kept: Option<u32>) -> Option<u32>
    ensures answers { AnswersFor result kept credit.old credit.new }
    ensures same { SameCredit credit.old credit.new }
{
    credit.take_asked().or(kept)
}

// Takes out what is held above the target, as far as one frame can carry it.
fn lower_to(credit: &mut CreditOut, target: u32) -> Option<u32>
    requires idle { IsIdle credit.old }
    requires unfinished { IsUnfinished credit.old }
    ensures none { IfNone result (IsMet (Some target) credit.old credit.new) }
    ensures some { IfSome result (λ n. IsLowered target n credit.old credit.new) }
    ensures range { IfSome result (λ n. (0 < n) × (n ≤ max_amount)) }
    ensures same { SameCredit credit.old credit.new }
{
    let held = credit.held();
    let target = u64::from(target);
    if held <= target {
        return None;
    }
    let amount = (held - target).min(u64::from(MAX_AMOUNT)) as u32;
    match credit.absolve(amount) {
        Ok(()) => Some(amount),
        Err(_) => unreachable!(),
    }
}

impl Outbox {
    /// A new outbox, of the end of a client's lane where nothing was put, and a new credit. It takes
    /// no memory; `alloc` is for the copies of messages.
    pub fn new(alloc: Global, lane: LaneEnd, credit: CreditOut) -> Outbox
        requires client { lane.lane < channel_count }
        requires put { lane.put ≡ [] }
        requires credit { credit ≡ new_outgoing credit.credit }
        ensures channel { number_of result.channel ≡ lane.lane }
        ensures new { result ≡ new_outbox result.channel lane credit }
        ensures kept { IsOutbox result }
    {
        let Some(channel) = Channel::from_number(lane.lane()) else {
            unreachable!()
        };
        Outbox {
            alloc,
            channel,
            lane,
            credit,
            send_left: None,
            asked: None,
        }
    }

    /// The channel.
    pub fn channel(&self) -> Channel
        ensures value { result ≡ self.now.channel }
        ensures kept { IsOutbox self.now }
    {
        self.channel
    }

    /// The guarantees held, 0 to 2^62: the credit word as it is. More may come at any time, and
    /// only this outbox uses them up. A finished outbox holds nothing.
    pub fn held(&mut self) -> u64
        ensures holds { Holds result self.old.credit self.new.credit }
        ensures small { result ≤ max_total }
        ensures after { self.new ≡ record self.old { credit = self.new.credit } }
        ensures kept { IsOutbox self.new }
        ensures same { IsSameOutbox self.old self.new }
    {
        self.credit.held()
    }

    /// Whether the channel is finished: every further call that would put a frame is refused.
    pub fn is_finished(&self) -> bool
        ensures value { result ≡ is_some self.now.credit.waived }
        ensures kept { IsOutbox self.now }
    {
        self.credit.is_finished()
    }

    /// A message is sent, of 1 to `Version::max_body` bytes.
    /// Refused by 15, 1, 2, 3 and 4, by 14 where the copy of the message gets no memory, and by 13
    /// where the queue gives its frame back, in this order. After 14 and after 13 what was taken out
    /// is given back, and no clause tells the two apart.
    pub fn send<R: Wait>(&mut self, rt: &R, body: &[u8]) -> Result<(), Refusal>
        ensures ok { OnOk result (IsSent body.now self.old self.new) }
        ensures unfinished { OnOk result (IsUnfinished self.old.credit) }
        ensures err { IfErr result (λ e. IsRefused e self.old self.new (IsNotSent e body.now self.old self.new)) }
        ensures kept { IsOutbox self.new }
        ensures same { IsSameOutbox self.old self.new }
    {
        check_open(&self.credit)?;
        let left = after_message(self.lane.version(), self.send_left, body.len())?;
        self.credit.spend(body.len() as u32)?;
        let Ok(bytes) = Vec::from_slice(self.alloc, body) else {
            self.credit.give_back();
            return Err(Refusal::OutOfMemory);
        };
        let frame = Frame::Send {
            channel: self.channel,
            body: Body::from_vec(bytes),
        };
        put_used(rt, &mut self.lane, &mut self.credit, frame)?;
        self.send_left = left;
        Ok(())
    }

    /// `n` guarantees are given up. Refused by 15, 5, 6 and 13, in this order; by 6 also where `n` is
    /// above 2^24.
    pub fn absolve<R: Wait>(&mut self, rt: &R, n: u32) -> Result<(), Refusal>
        ensures ok { OnOk result (IsAbsolved n self.old self.new) }
        ensures unfinished { OnOk result (IsUnfinished self.old.credit) }
        ensures err { IfErr result (λ e. IsRefused e self.old self.new (IsNotAbsolved e n self.old self.new)) }
        ensures kept { IsOutbox self.new }
        ensures same { IsSameOutbox self.old self.new }
    {
        check_open(&self.credit)?;
        let channel = self.channel;
        if n == 0 {
            return Err(Refusal::ZeroAmount);
        }
        self.credit.absolve(n)?;
        let frame = Frame::Absolve { channel, amount: n };
        put_used(rt, &mut self.lane, &mut self.credit, frame)
    }

    /// The last plead is honoured: where more is held than its target, the rest is absolved, at most
    /// 2^24, and the answer is that amount. Refused by 15, and by 13, and then the plead is kept for
    /// the next call, unless a newer one comes.
    pub fn honour<R: Wait>(&mut self, rt: &R) -> Result<Option<u32>, Refusal>
        ensures ok { IfOk result (λ amount. IsHonoured amount self.old self.new) }
        ensures unfinished { OnOk result (IsUnfinished self.old.credit) }
        ensures err { IfErr result (λ e. IsRefused e self.old self.new (IsPutOff e self.old self.new)) }
        ensures kept { IsOutbox self.new }
        ensures same { IsSameOutbox self.old self.new }
    {
        check_open(&self.credit)?;
        self.asked = take_target(&mut self.credit, self.asked);
        let Some(target) = self.asked else {
            return Ok(None);
        };
        let Some(amount) = lower_to(&mut self.credit, target) else {
            self.asked = None;
            return Ok(None);
        };
        let frame = Frame::Absolve {
            channel: self.channel,
            amount,
        };
        match put_used(rt, &mut self.lane, &mut self.credit, frame) {
            Ok(()) => {
                self.asked = None;
                Ok(Some(amount))
            }
            Err(refusal) => Err(refusal),
        }
    }

    /// At most `bound` bytes are sent from here on; 0 ends the channel. Refused by 15, 7, 8 and 13,
    /// in this order.
    pub fn limit<R: Wait>(&mut self, rt: &R, bound: u64) -> Result<(), Refusal>
        ensures ok { OnOk result (IsLimited bound self.old self.new) }
        ensures unfinished { OnOk result (IsUnfinished self.old.credit) }
        ensures err { IfErr result (λ e. IsRefused e self.old self.new (IsNotLimited e bound self.old self.new)) }
        ensures kept { IsOutbox self.new }
        ensures same { IsSameOutbox self.old self.new }
    {
        check_open(&self.credit)?;
        check_limit(self.send_left, bound)?;
        let frame = Frame::LimitSending {
            channel: self.channel,
            bound,
        };
        match self.lane.push(rt, frame) {
            Ok(()) => {
                self.send_left = Some(bound);
                Ok(())
            }
            Err(_) => Err(Refusal::QueueFull),
        }
    }

    /// The channel is finished: nothing more is sent, and all guarantees are given up that are held
    /// or that still come. A plead that is kept is forgotten. Refused by 17, 15 and 13, in this order.
    pub fn finish<R: Wait>(&mut self, rt: &R) -> Result<(), Refusal>
        ensures ok { OnOk result (IsFinished self.old self.new) }
        ensures known { OnOk result (has self.old.lane.version Finish ≡ true) }
        ensures unfinished { OnOk result (IsUnfinished self.old.credit) }
        ensures err { IfErr result (λ e. IsNotFinished e self.old self.new) }
        ensures kept { IsOutbox self.new }
        ensures same { IsSameOutbox self.old self.new }
    {
        if !self.lane.version().has_finish() {
            return Err(Refusal::WrongVersion);
        }
        check_open(&self.credit)?;
        let frame = Frame::Finish {
            channel: self.channel,
        };
        match self.lane.push(rt, frame) {
            Ok(()) => {
                self.credit.finish();
                self.asked = None;
                Ok(())
            }
            Err(_) => Err(Refusal::QueueFull),
        }
    }

    /// The lane's end and the credit, for when the session ends.
    pub fn into_parts(self) -> (LaneEnd, CreditOut)
        ensures parts { result ≡ (self.lane, self.credit) }
        ensures kept { IsOutbox self }
    {
        let Outbox {
            alloc: _,
            channel: _,
            lane,
            credit,
            send_left: _,
            asked: _,
        } = self;
        (lane, credit)
    }
}
