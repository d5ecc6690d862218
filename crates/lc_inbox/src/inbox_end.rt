//! One channel's inbox, with the lane that its server puts on.
ghost use Rattle.std.specs.Prelude.{◌≡◌, ◌+◌, ◌<◌, ◌≤◌, [], length, if◌then◌else◌, is_ok, IfOk, IfErr, OnOk, MatchOption, Some, None};
ghost use Rattle.std.specs.Result.{result_err};
ghost use Rattle.lc_frame.specs.declared.version.Version.TheVariants.{Two};
ghost use Rattle.lc_frame.specs.Channel.{channel_count, number_of, channel_at};
ghost use Rattle.lc_frame.specs.Frame.{IsValid, lane_of, channel_of};
ghost use Rattle.lc_frame.specs.FrameRef.{frame_of};
ghost use Rattle.lc_frame.specs.Kind.{max_body};
ghost use Rattle.lc_book.specs.Server.{buffered, message_violation};
ghost use Rattle.lc_book.specs.Sums.{server_after_put};
ghost use Rattle.lc_ring.specs.Ring.{front, with_front};
ghost use Rattle.lc_peer.specs.Inbox.{new_inbox, IsInbox, IsTake, take_answer, take_first, take_refusal};
ghost use Rattle.lc_inbox.specs.Ends.{IsHeld, IsNewHeld, violation_of, refusal_of, arrive, put, IsPut, IsNotPut};
ghost use Rattle.lc_inbox.specs.Lends.{IsMadeOf, IsLent};

use crate::lent::Lent;
use lc_book::{Refusal, ServerBook, Violation};
use lc_frame::{Channel, Frame, FrameRef, Lane};
use lc_peer::{Inbox, Take};
use lc_queue::LaneEnd;
use std::marker::Model;
use std::sync::Wait;

/// An inbox with the end of the lane on which its channel's server puts. Contracts see both.
#[derive(Drop)]
pub struct InboxEnd {
    channel: Channel,
    inbox: Inbox,
    lane: LaneEnd,
}

impl Model for InboxEnd {
    ghost use Rattle.lc_inbox.specs.Ends.{Held, IsHeld};

    ghost Value = { Held };

    ghost view = { λ e. record { channel = e.channel; inbox = e.inbox; lane = e.lane } };

    ghost invariant = { λ e. IsHeld (record { channel = e.channel; inbox = e.inbox; lane = e.lane }) };
}

// What `read` makes of the first message, where one waits.
fn lend<T, F: FnOnce(&[u8], &[u8]) -> T>(inbox: &Inbox, read: F) -> Option<T>
    requires { F.IsAlwaysCallable read }
    ensures { MatchOption result (front inbox.now.ring ≡ None) (λ made. IsMadeOf F.FnOnce read made inbox.now) }
{
    match inbox.front() {
        Some((near, far)) => Some(read(near, far)),
        None => None,
    }
}

/// The channel of the lane on which a server puts.
pub(crate) fn server_of(lane: &LaneEnd) -> Channel
    requires { channel_count ≤ lane.now.lane }
    ensures { lane.now.lane ≡ channel_count + number_of result }
{
    match Lane::from_number(lane.lane()) {
        Some(Lane::Server(channel)) => channel,
        Some(Lane::Client(_)) => unreachable!(),
        None => unreachable!(),
    }
}

impl InboxEnd {
    /// A new inbox with the end of its channel's lane, where nothing was put. It takes no memory.
    pub fn new(inbox: Inbox, lane: LaneEnd) -> InboxEnd
        requires inbox { inbox ≡ new_inbox inbox.book.capacity }
        requires put { lane.put ≡ [] }
        requires server { channel_count ≤ lane.lane }
        ensures parts { (result.inbox ≡ inbox) × (result.lane ≡ lane) }
        ensures channel { lane.lane ≡ channel_count + number_of result.channel }
        ensures new { IsNewHeld result }
    {
        InboxEnd {
            channel: server_of(&lane),
            inbox,
            lane,
        }
    }

    /// The channel.
    pub fn channel(&self) -> Channel
        ensures { result ≡ self.now.channel }
    {
        self.channel
    }

    /// The lane's end.
    pub(crate) fn lane(&self) -> &LaneEnd
        ensures { result.now ≡ self.now.lane }
    {
        &self.lane
    }

    /// The inbox's book: what was issued is the sum of the Issue amounts that were put, and what is
    /// left of the limit on receiving is that of what was put.
    pub fn book(&self) -> ServerBook
        ensures value { result ≡ self.now.inbox.book }
        ensures kept { IsInbox self.now.inbox }
        ensures held { IsHeld self.now }
    {
        self.inbox.book()
    }

    /// A frame of the client arrives. Violations V9 and V1 to V4, as the inbox's book has them.
    pub(crate) fn arrive(&mut self, frame: FrameRef<'_>) -> Result<(), Violation>
        requires valid { IsValid Two (frame_of frame) }
        requires lane { lane_of (frame_of frame) ≡ number_of self.old.channel }
        ensures answer { result_err result ≡ violation_of (frame_of frame.entry) self.old.inbox.book }
        ensures after { self.new ≡ (if is_ok result then arrive (frame_of frame.entry) self.old else self.old) }
    {
        match frame {
            FrameRef::Send { body, .. } => self.inbox.message(body),
            FrameRef::Absolve { amount, .. } => self.inbox.was_absolved(amount),
            FrameRef::LimitSending { bound, .. } => self.inbox.sending_limited(bound),
            FrameRef::Finish { .. } => self.inbox.finished(),
            _ => unreachable!(),
        }
    }

    /// What is wrong with a message of so many bytes, which are more than the ring has: V9 or V1, as
    /// the inbox's book has them.
    pub(crate) fn refuse(&self, len: usize) -> Violation
        requires longer { self.now.inbox.book.capacity < len }
        requires most { len ≤ max_body Two }
        ensures { message_violation self.now.inbox.book len ≡ Some result }
    {
        let mut book = self.book();
        match book.message(len as u32) {
            Err(violation) => violation,
            Ok(()) => unreachable!(),
        }
    }

    /// Takes the first message into the front of the buffer. Refused by 16 alone.
    pub(crate) fn take_into(&mut self, buffer: &mut [u8]) -> Result<Take, Refusal>
        ensures answer { result_err result ≡ take_refusal self.old.inbox (length buffer.old) }
        ensures range { IfOk result (λ take. IsTake take) }
        ensures value { IfOk result (λ take. take ≡ take_answer self.old.inbox) }
        ensures after { self.new ≡ (if is_ok result then record self.old { inbox = take_first self.old.inbox } else self.old) }
        ensures buffer { buffer.new ≡ (if is_ok result then with_front (front self.old.inbox.ring) buffer.old else buffer.old) }
    {
        self.inbox.take_into(buffer)
    }

    /// Lends the first message in two parts, one after the other, and takes it.
    pub(crate) fn take_with<T, F: FnOnce(&[u8], &[u8]) -> T>(&mut self, read: F) -> Lent<T>
        requires { F.IsAlwaysCallable read }
        ensures answer { IsLent F.FnOnce read result self.old.inbox }
        ensures after { self.new ≡ record self.old { inbox = take_first self.old.inbox } }
    {
        let made = lend(&self.inbox, read);
        match (made, self.inbox.pop()) {
            (Some(made), _) => Lent::Read(made),
            (None, Take::Empty) => Lent::Empty,
            (None, Take::Ended) => Lent::Ended,
            (None, Take::Took(_)) => unreachable!(),
        }
    }

    // The book that a frame of the server leaves, where it may be put.
    fn judge(&self, frame: &Frame) -> Result<ServerBook, Refusal>
        requires lane { (lane_of frame.now ≡ channel_count + number_of self.now.channel) × (channel_of frame.now ≡ self.now.channel) }
        ensures answer { result_err result ≡ refusal_of frame.now self.now.inbox.book }
        ensures valid { OnOk result (IsValid self.now.lane.version frame.now) }
        ensures book { IfOk result (λ book. book ≡ server_after_put frame.now self.now.inbox.book) }
        ensures same { IfOk result (λ book. (book.capacity ≡ self.now.inbox.book.capacity) × (buffered book ≡ buffered self.now.inbox.book)) }
    {
        let mut book = self.inbox.book();
        match frame {
            Frame::Issue { amount, .. } => book.issue(*amount)?,
            Frame::Plead { target, .. } => book.plead(*target)?,
            Frame::LimitReceiving { bound, .. } => book.limit_receiving(*bound)?,
            _ => unreachable!(),
        }
        Ok(book)
    }

    /// Puts a frame of the server: an Issue is refused by 15, 5, 9, 10, 12 and 13, a Plead by 15, 11
    /// and 13, and a limit on receiving by 15, 7, 8 and 13, in this order.
    pub fn put<R: Wait>(&mut self, rt: &R, frame: Frame) -> Result<(), Refusal>
        requires lane { (lane_of frame ≡ channel_count + number_of self.old.channel) × (channel_of frame ≡ self.old.channel) }
        ensures ok { OnOk result (IsPut frame self.old self.new) }
        ensures err { IfErr result (λ e. IsNotPut e frame self.old self.new) }
    {
        let book = self.judge(&frame)?;
        match self.lane.push(rt, frame) {
            Ok(()) => {
                self.inbox.adopt(book);
                Ok(())
            }
            Err(_) => Err(Refusal::QueueFull),
        }
    }

    /// The book and the lane's end; what waits is lost.
    pub(crate) fn into_parts(self) -> (ServerBook, LaneEnd)
        ensures { (result.0 ≡ self.inbox.book) × (result.1 ≡ self.lane) }
    {
        let InboxEnd {
            channel: _,
            inbox,
            lane,
        } = self;
        (inbox.book(), lane)
    }
}
