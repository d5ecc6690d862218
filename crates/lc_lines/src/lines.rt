//! The calls of seven channels, completed or notified as soon as they can proceed.
//!
//! A `Lines` is a scheduler whose steps are taken at once: whatever changes, each call that can proceed is completed, or
//! its caller is notified, and its ticket is noticed. Notices lie in a fixed number of entries until they are taken, so
//! only a call that leaves a message or joins a wait queue asks for memory. Where the entries are full the steps go on
//! once a notice is taken.
ghost use Rattle.std.specs.Prelude.{◌≡◌, ◌<◌, ◌++◌, ◌∷◌, [], None, if◌then◌else◌, is_ok, length, IfOk, IfNone, IfSome, OnErr, OnOk};
ghost use Rattle.std.specs.Result.{result_err};
ghost use Rattle.circular_buffer.specs.Buffer.{buffer};
ghost use Rattle.lc_frame.specs.Frame.{IsValid};
ghost use Rattle.lc_frame.specs.Channel.{channel_count};
ghost use Rattle.lc_frame.specs.FrameRef.{frame_of};
ghost use Rattle.lc_frame.specs.declared.version.Version.TheVariants.{Two};
ghost use Rattle.lc_peer.specs.Inbox.{IsTake, take_answer, take_refusal};
ghost use Rattle.lc_ring.specs.Ring.{front, with_front};
ghost use Rattle.lc_peer.specs.Peer.{client, inbox};
ghost use Rattle.lc_peer.specs.Calls.{next, due, take_on};
ghost use Rattle.lc_peer.specs.Arrivals.{arrivals};
ghost use Rattle.lc_lines.specs.Queue.{waits};
ghost use Rattle.lc_lines.specs.Permits.{is_permit};
ghost use Rattle.lc_book.specs.Client.{spend_refusal};
ghost use Rattle.lc_lines.specs.declared.queue.Ask.TheVariants.{Offer};
ghost use Rattle.lc_lines.specs.Scheduler.{IsSchedulerAnswer, IsSettled, NoneIsHopeless, queue, start, join, complete, complete_progress, IsCompleteAnswer, progress_of, cancel, IsCallAnswer, IsAttemptAnswer, attempt, try_send, aside, free, for_good, IsReserveAnswer, reserve, try_reserve, IsReservedAnswer, send_reserved, give_back, frame_of_control, control_refusal, honour_refusal, honour, put_frame, take_frame, write, KeepsSlots, KeepsGuarantees, KeepsPermits, FitsBytes, IsHonoured, IsBoundAnswer, bound_progress, start_bound};
ghost use Rattle.lc_lines.specs.Closing.{is_finished, close, IsClosed};
ghost use Rattle.lc_lines.specs.Lines.{new_lines, Runs, Settles, NoticesNext, DeliversAndSettles, with_scheduler};

use crate::permits::Aside;
use crate::queue::Bound;
use crate::scheduler::{Attempt, Control, Notice, Progress, Scheduler};
use circular_buffer::HeapCircularBuffer;
use lc_book::{Refusal, Violation};
use lc_frame::{Channel, Frame, FrameRef, StreamDecoder};
use lc_peer::{Config, Delivery, Peer, PeerFault, RingIntake, Take};
use std::alloc::Global;
use std::marker::Model;

/// How many notices lie in a `Lines` at most.
pub const NOTICES: usize = 64;

/// A peer with the wait queues of its channels, in which no call that can proceed waits without having been notified.
pub struct Lines {
    scheduler: Scheduler,
    notices: HeapCircularBuffer<Notice>,
}

// One call, wherever it is dropped.
impl Drop for Lines {
    fn drop(self) {
        let Lines {
            scheduler: _,
            notices: _,
        } = self;
    }
}

impl Model for Lines {
    ghost use Rattle.lc_lines.specs.Closing.{is_finished, close, IsClosed};
    ghost use Rattle.lc_lines.specs.Lines.{LinesState, AreLinesFields};

    ghost Value = { LinesState };

    ghost view = { λ l. record { scheduler = l.scheduler; notices = l.notices.items; entries = l.notices.capacity } };

    ghost invariant = { λ l. AreLinesFields l.scheduler l.notices.items l.notices.capacity };
}

// Adds a notice, where an entry is free.
fn notify(notices: &mut HeapCircularBuffer<Notice>, notice: Notice)
    requires { length notices.old.items < notices.old.capacity }
    ensures { notices.new ≡ buffer (notices.old.items ++ notice ∷ []) notices.old.capacity }
{
    match notices.try_push_back(notice) {
        Ok(()) => {}
        Err(_) => unreachable!(),
    }
}

// Each call that can proceed is completed or notified, while entries for notices are free.
fn settle(scheduler: &mut Scheduler, notices: &mut HeapCircularBuffer<Notice>)
    ensures runs { Runs scheduler.old notices.old.items scheduler.new notices.new.items }
    ensures settled { length notices.new.items < notices.new.capacity → IsSettled scheduler.new }
    ensures entries { notices.new.capacity ≡ notices.old.capacity }
{
    'steps: while notices.len() < notices.capacity() {
        match scheduler.step() {
            Some(notice) => notify(notices, notice),
            None => return,
        }
    }
}

impl Lines {
    /// A new peer, where no call waits and no permit is out. `BadSlots` comes first, where there are fewer than
    /// [`LEAST_SLOTS`](crate::LEAST_SLOTS).
    pub fn new(alloc: Global, config: Config) -> Result<Lines, PeerFault>
        ensures answer { IsSchedulerAnswer config (result_err result) }
        ensures value { IfOk result (λ l. l ≡ new_lines config) }
    {
        let scheduler = Scheduler::new(alloc, config)?;
        let Ok(notices) = HeapCircularBuffer::with_capacity(alloc, NOTICES) else {
            return Err(PeerFault::OutOfMemory);
        };
        Ok(Lines { scheduler, notices })
    }

    /// The peer: its books, its messages and the frames that are queued.
    #[inline]
    pub fn peer(&self) -> &Peer
        ensures value { result.now ≡ self.now.scheduler.peer }
        ensures places { length self.now.scheduler.peer.channels ≡ channel_count }
        ensures slots { KeepsSlots self.now.scheduler.peer self.now.scheduler.asides }
        ensures guarantees { KeepsGuarantees self.now.scheduler.peer self.now.scheduler.asides }
        ensures permits { KeepsPermits self.now.scheduler.peer self.now.scheduler.asides }
        ensures bytes { FitsBytes self.now.scheduler.peer.waiting self.now.scheduler.begun self.now.scheduler.exempt }
    {
        self.scheduler.peer()
    }

    /// What the permits of a channel hold.
    #[inline]
    pub fn aside(&self, channel: Channel) -> Aside
        ensures { result ≡ aside self.now.scheduler channel }
    {
        self.scheduler.aside(channel)
    }

    /// The guarantees of a channel that a call may use: those held, within the limit on sending, beside those that
    /// permits set aside.
    #[inline]
    pub fn free(&self, channel: Channel) -> u64
        ensures { result ≡ free self.now.scheduler channel }
    {
        self.scheduler.free(channel)
    }

    /// A call to send a message, by a ticket of the caller's choice. Its message enters the outbound queue at once where
    /// that is possible; else the call waits with a copy of the message, and its ticket is noticed once the message
    /// entered. Refused by 15, 1, 2 and 3, and by 14 where memory is refused; then nothing changed.
    pub fn send(&mut self, channel: Channel, ticket: u64, body: &[u8]) -> Result<Progress, Refusal>
        ensures answer { IsCallAnswer self.old.scheduler.peer channel (length body.now) (result_err result) }
        ensures progress { IfOk result (λ progress. progress ≡ progress_of self.old.scheduler channel (length body.now)) }
        ensures refused { OnErr result (self.new ≡ self.old) }
        ensures starts { OnOk result (Settles (with_scheduler self.old (start self.old.scheduler channel ticket body.now)) self.new) }
        ensures settled { length self.new.notices < self.new.entries → IsSettled self.new.scheduler }
    {
        let progress = self.scheduler.send(channel, ticket, body)?;
        settle(&mut self.scheduler, &mut self.notices);
        Ok(progress)
    }

    /// An attempt to send a message at once, behind all calls of its channel that wait. Refused by 15, 1, 2 and 3, and by
    /// 14 where it can proceed and memory is refused; then nothing changed.
    pub fn try_send(&mut self, channel: Channel, body: &[u8]) -> Result<Attempt, Refusal>
        ensures answer { IsAttemptAnswer self.old.scheduler channel (length body.now) (result_err result) }
        ensures attempt { IfOk result (λ answer. answer ≡ attempt self.old.scheduler channel (length body.now)) }
        ensures refused { OnErr result (self.new ≡ self.old) }
        ensures sends { OnOk result (Settles (with_scheduler self.old (try_send self.old.scheduler channel body.now)) self.new) }
        ensures settled { length self.new.notices < self.new.entries → IsSettled self.new.scheduler }
    {
        let answer = self.scheduler.try_send(channel, body)?;
        settle(&mut self.scheduler, &mut self.notices);
        Ok(answer)
    }

    /// An offer of a message of so many bytes, by a ticket of the caller's choice: the call waits, and its ticket is
    /// noticed once the message can proceed. Then the caller hands the message over by [`Lines::complete`], or gives the
    /// call up by [`Lines::cancel`]. Refused by 15, 1, 2 and 3, and by 14 where memory is refused; then nothing changed.
    pub fn offer(&mut self, channel: Channel, ticket: u64, len: usize) -> Result<(), Refusal>
        ensures answer { IsCallAnswer self.old.scheduler.peer channel len (result_err result) }
        ensures refused { OnErr result (self.new ≡ self.old) }
        ensures joins { OnOk result (Settles (with_scheduler self.old (join self.old.scheduler channel (record { ticket = ticket; ask = Offer len }))) self.new) }
        ensures settled { length self.new.notices < self.new.entries → IsSettled self.new.scheduler }
    {
        self.scheduler.offer(channel, ticket, len)?;
        settle(&mut self.scheduler, &mut self.notices);
        Ok(())
    }

    /// The message of an offer is handed over. It is sent where the offer is the first call of its channel and the message
    /// can proceed now; else the offer waits at its place, and its ticket is noticed anew. Refused by 15, 1, 2 and 3,
    /// and by 14 where it can proceed and memory is refused; then nothing changed.
    pub fn complete(
        &mut self,
        channel: Channel,
        ticket: u64,
        body: &[u8],
    ) -> Result<Progress, Refusal>
        ensures answer { IsCompleteAnswer self.old.scheduler channel ticket (length body.now) (result_err result) }
        ensures progress { IfOk result (λ progress. progress ≡ complete_progress self.old.scheduler channel ticket (length body.now)) }
        ensures refused { OnErr result (self.new ≡ self.old) }
        ensures completes { OnOk result (Settles (with_scheduler self.old (complete self.old.scheduler channel ticket body.now)) self.new) }
        ensures settled { length self.new.notices < self.new.entries → IsSettled self.new.scheduler }
    {
        let progress = self.scheduler.complete(channel, ticket, body)?;
        settle(&mut self.scheduler, &mut self.notices);
        Ok(progress)
    }

    /// A call to reserve a permit for a message of so many bytes, by a ticket of the caller's choice. The permit is
    /// granted at once where that is possible; else the call waits, and its ticket is noticed once the permit is granted.
    /// It holds a slot and so many guarantees until it is used by [`Lines::send_reserved`] or given back by
    /// [`Lines::give_back`]. Refused by 15, 1, 2 and 3, and by 14 where it would wait and memory is refused; then
    /// nothing changed.
    pub fn reserve(
        &mut self,
        channel: Channel,
        ticket: u64,
        len: usize,
    ) -> Result<Progress, Refusal>
        ensures answer { IsReserveAnswer self.old.scheduler channel len (result_err result) }
        ensures progress { IfOk result (λ progress. progress ≡ progress_of self.old.scheduler channel len) }
        ensures refused { OnErr result (self.new ≡ self.old) }
        ensures reserves { OnOk result (Settles (with_scheduler self.old (reserve self.old.scheduler channel ticket len)) self.new) }
        ensures settled { length self.new.notices < self.new.entries → IsSettled self.new.scheduler }
    {
        let progress = self.scheduler.reserve(channel, ticket, len)?;
        settle(&mut self.scheduler, &mut self.notices);
        Ok(progress)
    }

    /// An attempt to reserve a permit at once, behind all calls of its channel that wait. Refused by 15, 1, 2 and 3; then
    /// nothing changed.
    pub fn try_reserve(&mut self, channel: Channel, len: usize) -> Result<Attempt, Refusal>
        ensures answer { result_err result ≡ for_good (spend_refusal (client self.old.scheduler.peer channel) len) }
        ensures attempt { IfOk result (λ answer. answer ≡ attempt self.old.scheduler channel len) }
        ensures refused { OnErr result (self.new ≡ self.old) }
        ensures reserves { OnOk result (Settles (with_scheduler self.old (try_reserve self.old.scheduler channel len)) self.new) }
        ensures settled { length self.new.notices < self.new.entries → IsSettled self.new.scheduler }
    {
        let answer = self.scheduler.try_reserve(channel, len)?;
        settle(&mut self.scheduler, &mut self.notices);
        Ok(answer)
    }

    /// Sends a message by a permit of so many bytes, which is used up: whatever is queued and whatever waits, the message
    /// enters the outbound queue, and the guarantees that it leaves unused are free again. Refused by 15, 1, 2 and 3, by
    /// 4 where the message is longer than the permit or no such permit is out, and by 14 where memory is refused; then
    /// nothing changed, and the permit is out still. A message of 1 byte or more that is no longer than its permit or
    /// than its version allows is refused by 14 alone.
    pub fn send_reserved(
        &mut self,
        channel: Channel,
        len: usize,
        body: &[u8],
    ) -> Result<(), Refusal>
        ensures answer { IsReservedAnswer self.old.scheduler channel len (length body.now) (result_err result) }
        ensures honoured { IsHonoured self.old.scheduler channel len (length body.now) (result_err result) }
        ensures refused { OnErr result (self.new ≡ self.old) }
        ensures sends { OnOk result (Settles (with_scheduler self.old (send_reserved self.old.scheduler channel len body.now)) self.new) }
        ensures settled { length self.new.notices < self.new.entries → IsSettled self.new.scheduler }
    {
        self.scheduler.send_reserved(channel, len, body)?;
        settle(&mut self.scheduler, &mut self.notices);
        Ok(())
    }

    /// Gives back a permit of so many bytes: its slot and its guarantees are free again. The answer is whether such a
    /// permit was out.
    pub fn give_back(&mut self, channel: Channel, len: usize) -> bool
        ensures answer { result ≡ is_permit (aside self.old.scheduler channel) len }
        ensures after { Settles (with_scheduler self.old (give_back self.old.scheduler channel len)) self.new }
        ensures settled { length self.new.notices < self.new.entries → IsSettled self.new.scheduler }
    {
        let was_out = self.scheduler.give_back(channel, len);
        settle(&mut self.scheduler, &mut self.notices);
        was_out
    }

    /// A call to bound what a channel sends from here on, by a ticket of the caller's choice: to limit its bytes, or to
    /// finish the channel. The frame of the bound is put at once where no call of the channel waits, no permit of it is
    /// out, and a slot is free for a control frame; else the call waits, and its ticket is noticed once the frame is put.
    /// So no message of an earlier call or permit follows the bound, and none of a later one precedes it. A limit is
    /// refused by 15, 7 and 8, a finish by 17 and 15, and both by 14 where the call would wait and memory is refused;
    /// then nothing changed. A call that waits is given up as hopeless once it is the first of its channel and its book
    /// refuses it: the channel was finished, or an earlier limit leaves less than this bound.
    pub fn bound(
        &mut self,
        channel: Channel,
        ticket: u64,
        bound: Bound,
    ) -> Result<Progress, Refusal>
        ensures answer { IsBoundAnswer self.old.scheduler channel bound (result_err result) }
        ensures progress { IfOk result (λ progress. progress ≡ bound_progress self.old.scheduler channel bound) }
        ensures refused { OnErr result (self.new ≡ self.old) }
        ensures bounds { OnOk result (Settles (with_scheduler self.old (start_bound self.old.scheduler channel ticket bound)) self.new) }
        ensures settled { length self.new.notices < self.new.entries → IsSettled self.new.scheduler }
    {
        let progress = self.scheduler.bound(channel, ticket, bound)?;
        settle(&mut self.scheduler, &mut self.notices);
        Ok(progress)
    }

    /// Gives up the first call of a ticket that waits: nothing of it was sent, and nothing will be. The answer is whether
    /// one waited; where none did, its message or its bound entered the outbound queue, and stays there, or its permit
    /// was granted.
    pub fn cancel(&mut self, channel: Channel, ticket: u64) -> bool
        ensures waited { result ≡ waits ticket (queue self.old.scheduler channel).calls }
        ensures after { Settles (with_scheduler self.old (cancel self.old.scheduler channel ticket)) self.new }
        ensures settled { length self.new.notices < self.new.entries → IsSettled self.new.scheduler }
    {
        let waited = self.scheduler.cancel(channel, ticket);
        settle(&mut self.scheduler, &mut self.notices);
        waited
    }

    /// Closes the channels in the direction of this side: all calls that wait and all permits are given up, and each
    /// channel is finished for which a slot is free for a control frame, by a Finish, and in version One by a limit of 0.
    /// The calls fail at once, without notices, and nothing of them is sent. A call of it after each frame that is taken
    /// finishes the other channels. It asks for no memory.
    pub fn close(&mut self)
        ensures after { self.new ≡ with_scheduler self.old (close self.old.scheduler) }
        ensures closed { IsClosed self.new.scheduler }
        ensures settled { IsSettled self.new.scheduler }
    {
        self.scheduler.close();
    }

    /// Whether this side has finished a channel, as [`Lines::close`] does it.
    pub fn is_finished(&self, channel: Channel) -> bool
        ensures { result ≡ is_finished self.now.scheduler.peer channel }
    {
        self.scheduler.is_finished(channel)
    }

    /// A control call: its frame enters the outbound queue before messages that wait. It is refused as at the peer, by 6
    /// where it absolves guarantees that permits set aside, and by 13 where no slot is free for a control frame.
    pub fn control(&mut self, control: Control) -> Result<(), Refusal>
        ensures answer { result_err result ≡ control_refusal self.old.scheduler (frame_of_control control) }
        ensures refused { OnErr result (self.new ≡ self.old) }
        ensures puts { OnOk result (Settles (with_scheduler self.old (put_frame self.old.scheduler (frame_of_control control))) self.new) }
        ensures settled { length self.new.notices < self.new.entries → IsSettled self.new.scheduler }
    {
        self.scheduler.control(control)?;
        settle(&mut self.scheduler, &mut self.notices);
        Ok(())
    }

    /// Honours the plead that a channel keeps: what is held above its target is absolved, and the answer is that amount.
    /// Refused by 15, by 6 where guarantees would be absolved that permits set aside, and by 13 where any would and no
    /// slot is free for a control frame; then the plead is kept, and nothing changed.
    pub fn honour(&mut self, channel: Channel) -> Result<Option<u32>, Refusal>
        ensures answer { result_err result ≡ honour_refusal self.old.scheduler channel }
        ensures amount { IfOk result (λ amount. amount ≡ due self.old.scheduler.peer channel) }
        ensures refused { OnErr result (self.new ≡ self.old) }
        ensures honours { OnOk result (Settles (with_scheduler self.old (honour self.old.scheduler channel)) self.new) }
        ensures settled { length self.new.notices < self.new.entries → IsSettled self.new.scheduler }
    {
        let amount = self.scheduler.honour(channel)?;
        settle(&mut self.scheduler, &mut self.notices);
        Ok(amount)
    }

    /// A frame arrives.
    pub fn arrive(&mut self, frame: FrameRef<'_>) -> Result<(), Violation>
        requires { IsValid Two (frame_of frame) }
        ensures answer { result_err result ≡ (arrivals self.old.scheduler.peer (frame_of frame.entry ∷ [])).violation }
        ensures after { Settles (with_scheduler self.old (record self.old.scheduler { peer = (arrivals self.old.scheduler.peer (frame_of frame.entry ∷ [])).peer })) self.new }
        ensures settled { length self.new.notices < self.new.entries → IsSettled self.new.scheduler }
    {
        let answer = self.scheduler.arrive(frame);
        settle(&mut self.scheduler, &mut self.notices);
        answer
    }

    /// Bytes of the other side's stream arrive, and then each call proceeds that can.
    pub fn deliver(&mut self, decoder: &mut StreamDecoder, piece: &[u8]) -> Delivery
        ensures after { DeliversAndSettles self.old decoder.old piece.now self.new decoder.new result }
        ensures settled { length self.new.notices < self.new.entries → IsSettled self.new.scheduler }
    {
        let delivery = self.scheduler.deliver(decoder, piece);
        settle(&mut self.scheduler, &mut self.notices);
        delivery
    }

    /// Bytes of the other side's stream arrive through an intake that was not given up, and then each call proceeds that
    /// can: no message that is longer than its ring is kept.
    pub fn deliver_through(&mut self, intake: &mut RingIntake, piece: &[u8]) -> Delivery
        requires rings { self.old.scheduler.peer.capacities ≡ intake.old.rings }
        requires going { intake.old.stop ≡ None }
        ensures after { DeliversAndSettles self.old intake.old.held piece.now self.new intake.new.held result }
        ensures stop { intake.new.stop ≡ result.stop }
        ensures rings { intake.new.rings ≡ intake.old.rings }
        ensures settled { length self.new.notices < self.new.entries → IsSettled self.new.scheduler }
    {
        let delivery = self.scheduler.deliver_through(intake, piece);
        settle(&mut self.scheduler, &mut self.notices);
        delivery
    }

    /// Takes the first message of a channel into the front of the buffer. Refused where the message is longer; then
    /// nothing changed.
    pub fn take_into(&mut self, channel: Channel, buffer: &mut [u8]) -> Result<Take, Refusal>
        ensures answer { result_err result ≡ take_refusal (inbox self.old.scheduler.peer channel) (length buffer.old) }
        ensures range { IfOk result (λ take. IsTake take) }
        ensures value { IfOk result (λ take. take ≡ take_answer (inbox self.old.scheduler.peer channel)) }
        ensures refused { OnErr result (self.new ≡ self.old) }
        ensures after { OnOk result (Settles (with_scheduler self.old (record self.old.scheduler { peer = take_on self.old.scheduler.peer channel })) self.new) }
        ensures buffer { buffer.new ≡ (if is_ok result then with_front (front (inbox self.old.scheduler.peer channel).ring) buffer.old else buffer.old) }
        ensures settled { length self.new.notices < self.new.entries → IsSettled self.new.scheduler }
    {
        let take = self.scheduler.take_into(channel, buffer)?;
        settle(&mut self.scheduler, &mut self.notices);
        Ok(take)
    }

    /// Takes the first message of a channel and drops it.
    pub fn pop(&mut self, channel: Channel) -> Take
        ensures range { IsTake result }
        ensures answer { result ≡ take_answer (inbox self.old.scheduler.peer channel) }
        ensures after { Settles (with_scheduler self.old (record self.old.scheduler { peer = take_on self.old.scheduler.peer channel })) self.new }
        ensures settled { length self.new.notices < self.new.entries → IsSettled self.new.scheduler }
    {
        let take = self.scheduler.pop(channel);
        settle(&mut self.scheduler, &mut self.notices);
        take
    }

    /// Takes the first frame out of the outbound queue, to be written. Its message counts as unwritten until
    /// [`Lines::note_written`] says otherwise, or the next frame is taken.
    pub fn next_out(&mut self) -> Option<Frame>
        ensures value { result ≡ next self.old.scheduler.peer }
        ensures after { Settles (with_scheduler self.old (take_frame self.old.scheduler)) self.new }
        ensures settled { length self.new.notices < self.new.entries → IsSettled self.new.scheduler }
    {
        let frame = self.scheduler.next_out();
        settle(&mut self.scheduler, &mut self.notices);
        frame
    }

    /// Of the message that was taken last at most so many bytes are not written yet.
    pub fn note_written(&mut self, left: usize)
        ensures after { Settles (with_scheduler self.old (write self.old.scheduler left)) self.new }
        ensures settled { length self.new.notices < self.new.entries → IsSettled self.new.scheduler }
    {
        self.scheduler.note_written(left);
        settle(&mut self.scheduler, &mut self.notices);
    }

    /// The next notice: of a call that was completed, or of an offer that can proceed; and where
    /// there is none of these, of a first call that will never proceed, and is given up. Where there is none at all, no
    /// call that can proceed waits without having been notified, and no first call never will.
    pub fn next_notice(&mut self) -> Option<Notice>
        ensures some { IfSome result (λ notice. NoticesNext notice self.old self.new) }
        ensures none { IfNone result ((self.new ≡ self.old) × (IsSettled self.new.scheduler × NoneIsHopeless self.new.scheduler)) }
        ensures settled { length self.new.notices < self.new.entries → IsSettled self.new.scheduler }
    {
        let notice = match self.notices.pop_front() {
            Some(notice) => notice,
            None => self.scheduler.give_up()?,
        };
        settle(&mut self.scheduler, &mut self.notices);
        Some(notice)
    }
}
