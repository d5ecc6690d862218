//! Which call proceeds next.
//!
//! A `Scheduler` is a peer with the wait queues of its seven channels, and with what permits hold. The first call of a
//! channel can proceed once its guarantees are there beside those that permits set aside, a slot is free for it (its
//! channel's own or a shared one), its bytes fit beside those that are queued, and no other channel that sent less
//! recently waits for bytes alone. A bound on what a channel sends waits in the same queue.
ghost use Rattle.std.specs.Prelude.{◌≡◌, ◌<◌, ◌^◌, ◌-◌, ◌∷◌, [], None, if◌then◌else◌, is_ok, length, IfOk};
ghost use Rattle.std.specs.Result.{result_err};
ghost use Rattle.lc_frame.specs.Channel.{channel_count};
ghost use Rattle.lc_frame.specs.FrameRef.{frame_of};
ghost use Rattle.lc_frame.specs.declared.version.Version.TheVariants.{Two};
ghost use Rattle.lc_peer.specs.Calls.{next, take_on};
ghost use Rattle.lc_peer.specs.Arrivals.{arrivals};
ghost use Rattle.lc_peer.specs.Deliveries.{Delivers};
ghost use Rattle.lc_peer.specs.Peer.{inbox};
ghost use Rattle.lc_peer.specs.Inbox.{IsTake, take_answer, take_refusal};
ghost use Rattle.lc_ring.specs.Ring.{front, with_front};
ghost use Rattle.lc_lines.specs.Fair.{AreCounted};
ghost use Rattle.lc_frame.specs.Frame.{IsValid};
ghost use Rattle.lc_lines.specs.Outbound.{message_len};
ghost use Rattle.lc_lines.specs.Scheduler.{new_scheduler, IsSchedulerAnswer, aside, free, take_frame, write, KeepsSlots, KeepsGuarantees, KeepsPermits, FitsBytes};

mod calls;
mod closing;
mod controls;
mod judging;
mod putting;
mod steps;

use crate::counts::MessageCounts;
use crate::permits::Aside;
use crate::queue::WaitQueue;
use judging::free_of;
use lc_book::{Refusal, Violation};
use lc_frame::{CHANNELS, Channel, Frame, FrameRef, StreamDecoder};
use lc_peer::{Config, Delivery, Needs, Peer, PeerFault, RingIntake, Take};
use std::alloc::Global;
use std::marker::Model;

/// How many slots messages leave free: one for a control frame on each channel.
pub const CONTROL_SLOTS: usize = 7;

/// The fewest slots of a session: those for control frames, and one of its own for each channel.
pub const LEAST_SLOTS: u32 = 14;

/// The most bytes of messages that are queued, where there is more than one.
pub const MOST_QUEUED: usize = 65_536;

/// What became of a call that waited.
#[derive(Clone, Copy)]
pub enum Outcome {
    /// Its message or its bound entered the outbound queue, or its permit was granted.
    Completed,
    /// It can proceed: its caller hands the message over.
    Notified,
    /// It will never proceed, and is given up.
    Hopeless,
}

/// What became of the call of a ticket.
#[derive(Clone, Copy)]
pub struct Notice {
    pub channel: Channel,
    pub ticket: u64,
    pub outcome: Outcome,
}

/// How far a new call came.
#[derive(Clone, Copy)]
pub enum Progress {
    /// Its message or its bound entered the outbound queue, or its permit was granted.
    Proceeded,
    /// It waits.
    Waits,
}

/// The answer of an attempt to send or to reserve.
#[derive(Clone, Copy)]
pub enum Attempt {
    /// The message entered the outbound queue, or the permit was granted.
    Succeeded,
    /// It lacks this, and nothing changed. `Needs::Slot` is a slot, bytes, or its turn.
    Lacks(Needs),
}

/// A control call: the frame of it enters the outbound queue before messages that wait.
#[derive(Clone, Copy)]
pub enum Control {
    Issue { channel: Channel, amount: u32 },
    Absolve { channel: Channel, amount: u32 },
    Plead { channel: Channel, target: u32 },
    LimitReceiving { channel: Channel, bound: u64 },
}

/// A peer with the wait queues of its channels, and with what permits hold.
pub struct Scheduler {
    alloc: Global,
    peer: Peer,
    queues: [WaitQueue; CHANNELS],
    asides: [Aside; CHANNELS],
    sent: u64,
    begun: usize,
    exempt: u64,
    left: u64,
    counts: MessageCounts,
}

// One call, wherever a scheduler is dropped.
impl Drop for Scheduler {
    fn drop(self) {
        let Scheduler {
            alloc: _,
            peer: _,
            queues: _,
            asides: _,
            sent: _,
            begun: _,
            exempt: _,
            left: _,
            counts: _,
        } = self;
    }
}

impl Model for Scheduler {
    ghost use Rattle.lc_lines.specs.Scheduler.{SchedulerState, AreSchedulerFields};

    ghost Value = { SchedulerState };

    ghost view = { λ s. record { peer = s.peer; queues = s.queues; asides = s.asides; sent = s.sent; begun = s.begun; exempt = s.exempt; left = s.left } };

    ghost invariant = { λ s. AreSchedulerFields s.peer s.queues s.asides s.sent s.begun s.exempt s.counts };
}

// The bytes of the message of a frame.
fn message_len(frame: &Frame) -> usize
    ensures { result ≡ message_len frame.now }
{
    match frame {
        Frame::Send { body, .. } => body.as_slice().len(),
        Frame::Issue { .. }
        | Frame::Absolve { .. }
        | Frame::Plead { .. }
        | Frame::LimitSending { .. }
        | Frame::LimitReceiving { .. }
        | Frame::Finish { .. } => 0,
    }
}

impl Scheduler {
    /// A new peer, where no call waits and no permit is out. `BadSlots` comes first, where there are fewer than
    /// [`LEAST_SLOTS`].
    pub fn new(alloc: Global, config: Config) -> Result<Scheduler, PeerFault>
        ensures answer { IsSchedulerAnswer config (result_err result) }
        ensures value { IfOk result (λ s. s ≡ new_scheduler config) }
    {
        if config.slots < LEAST_SLOTS {
            return Err(PeerFault::BadSlots {
                slots: config.slots,
            });
        }
        let peer = Peer::new(alloc, config)?;
        // Its contract says how many slots there may be.
        let _count = peer.waiting();
        let queues = [
            WaitQueue::new(alloc),
            WaitQueue::new(alloc),
            WaitQueue::new(alloc),
            WaitQueue::new(alloc),
            WaitQueue::new(alloc),
            WaitQueue::new(alloc),
            WaitQueue::new(alloc),
        ];
        Ok(Scheduler {
            alloc,
            peer,
            queues,
            asides: [Aside::none(); CHANNELS],
            sent: 0,
            begun: 0,
            exempt: 0,
            left: 0,
            counts: MessageCounts::new(),
        })
    }

    /// How many turns were taken so far, up to the greatest number: messages that were sent without a permit, and
    /// permits that were granted.
    pub fn sent(&self) -> u64
        ensures value { result ≡ self.now.sent }
        ensures counted { result < 2 ^ 64 - 1 → AreCounted self.now }
    {
        self.sent
    }

    /// The peer: its books, its messages and the frames that are queued.
    #[inline]
    pub fn peer(&self) -> &Peer
        ensures value { result.now ≡ self.now.peer }
        ensures places { length self.now.peer.channels ≡ channel_count }
        ensures slots { KeepsSlots self.now.peer self.now.asides }
        ensures guarantees { KeepsGuarantees self.now.peer self.now.asides }
        ensures permits { KeepsPermits self.now.peer self.now.asides }
        ensures bytes { FitsBytes self.now.peer.waiting self.now.begun self.now.exempt }
    {
        &self.peer
    }

    /// What the permits of a channel hold.
    #[inline]
    pub fn aside(&self, channel: Channel) -> Aside
        ensures { result ≡ aside self.now channel }
    {
        self.asides[channel.index()]
    }

    /// The guarantees of a channel that a call may use: those held, within the limit on sending, beside those that
    /// permits set aside.
    #[inline]
    pub fn free(&self, channel: Channel) -> u64
        ensures { result ≡ free self.now channel }
    {
        free_of(&self.peer.client(channel), self.aside(channel))
    }

    /// A frame arrives, as at the peer.
    pub fn arrive(&mut self, frame: FrameRef<'_>) -> Result<(), Violation>
        requires { IsValid Two (frame_of frame) }
        ensures answer { result_err result ≡ (arrivals self.old.peer (frame_of frame.entry ∷ [])).violation }
        ensures after { self.new ≡ record self.old { peer = (arrivals self.old.peer (frame_of frame.entry ∷ [])).peer } }
    {
        self.peer.arrive(frame)
    }

    /// Bytes of the other side's stream arrive, as at the peer.
    pub fn deliver(&mut self, decoder: &mut StreamDecoder, piece: &[u8]) -> Delivery
        ensures delivers { Delivers self.old.peer decoder.old piece.now self.new.peer decoder.new result }
        ensures rest { self.new ≡ record self.old { peer = self.new.peer } }
    {
        self.peer.deliver(decoder, piece)
    }

    /// Bytes of the other side's stream arrive through an intake that was not given up, as at the peer: no message that is
    /// longer than its ring is kept.
    pub fn deliver_through(&mut self, intake: &mut RingIntake, piece: &[u8]) -> Delivery
        requires rings { self.old.peer.capacities ≡ intake.old.rings }
        requires going { intake.old.stop ≡ None }
        ensures delivers { Delivers self.old.peer intake.old.held piece.now self.new.peer intake.new.held result }
        ensures stop { intake.new.stop ≡ result.stop }
        ensures rings { (intake.new.rings ≡ intake.old.rings) × (self.new.peer.capacities ≡ self.old.peer.capacities) }
        ensures rest { self.new ≡ record self.old { peer = self.new.peer } }
    {
        intake.deliver(&mut self.peer, &(), piece)
    }

    /// Takes the first message of a channel into the front of the buffer, as at the peer.
    pub fn take_into(&mut self, channel: Channel, buffer: &mut [u8]) -> Result<Take, Refusal>
        ensures answer { result_err result ≡ take_refusal (inbox self.old.peer channel) (length buffer.old) }
        ensures range { IfOk result (λ take. IsTake take) }
        ensures value { IfOk result (λ take. take ≡ take_answer (inbox self.old.peer channel)) }
        ensures after { self.new ≡ (if is_ok result then record self.old { peer = take_on self.old.peer channel } else self.old) }
        ensures buffer { buffer.new ≡ (if is_ok result then with_front (front (inbox self.old.peer channel).ring) buffer.old else buffer.old) }
    {
        self.peer.take_into(channel, buffer)
    }

    /// Takes the first message of a channel and drops it, as at the peer.
    pub fn pop(&mut self, channel: Channel) -> Take
        ensures range { IsTake result }
        ensures answer { result ≡ take_answer (inbox self.old.peer channel) }
        ensures after { self.new ≡ record self.old { peer = take_on self.old.peer channel } }
    {
        self.peer.pop(channel)
    }

    /// Takes the first frame out of the outbound queue, to be written. Its message counts as unwritten until
    /// [`Scheduler::note_written`] says otherwise, or the next frame is taken.
    pub fn next_out(&mut self) -> Option<Frame>
        ensures value { result ≡ next self.old.peer }
        ensures after { self.new ≡ take_frame self.old }
    {
        let frame = self.peer.next_out()?;
        let begun = message_len(&frame);
        self.counts.leave_frame(&frame);
        self.begun = begun;
        self.left = self.left.saturating_add(1);
        Some(frame)
    }

    /// Of the message that was taken last at most so many bytes are not written yet.
    pub fn note_written(&mut self, left: usize)
        ensures { self.new ≡ write self.old left }
    {
        self.begun = self.begun.min(left);
    }
}
