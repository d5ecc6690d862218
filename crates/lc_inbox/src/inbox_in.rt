//! The reading side of a shared inbox.
ghost use Rattle.std.specs.Prelude.{◌≡◌, ◌<◌, ◌≤◌, [], ◌∷◌, ◌++◌, length, OnOk, IfErr, IfSome, true, None, Some};
ghost use Rattle.lc_frame.specs.declared.version.Version.TheVariants.{Two};
ghost use Rattle.lc_frame.specs.declared.frame.Frame.TheVariants.{Send};
ghost use Rattle.lc_frame.specs.Kind.{max_body};
ghost use Rattle.lc_frame.specs.Channel.{number_of};
ghost use Rattle.lc_frame.specs.Frame.{IsValid, lane_of};
ghost use Rattle.lc_frame.specs.FrameRef.{frame_of};
ghost use Rattle.lc_inbox.specs.declared.history.Entry.TheVariants.{Heard, Refused};
ghost use Rattle.lc_inbox.specs.History.{IsLeftBy, Loan};
ghost use Rattle.lc_inbox.specs.Sides.{IsIdle, side_of, IsSameSide, HadOneTurn, IsHeard, IsViolated};

use crate::half::{Half, Turn};
use lc_book::Violation;
use lc_frame::{Channel, FrameRef};
use lc_peer::Unkept;
use std::alloc::Global;
use std::marker::{Brand, Model};
use std::sync::{Arc, Mutex, Wait};

/// A shared inbox, as the thread that reads frames has it.
#[derive(Drop)]
pub struct InboxIn {
    pub(crate) channel: Channel,
    pub(crate) turns: Arc<Mutex<()>, Global>,
    pub(crate) half: Half,
}

impl Model for InboxIn {
    ghost use Rattle.std.specs.Prelude.{◌≡◌, true};
    ghost use Rattle.lc_inbox.specs.Sides.{InboxSide, IsIdle, side_of};

    ghost Value = { InboxSide };

    ghost view = { λ i. side_of i.half };

    ghost invariant = { λ i. IsIdle true i.half × (i.half.key.channel ≡ i.channel) };
}

// Gives the inbox back, where the frame arrived.
fn give_heard(half: &mut Half, turn: Turn<'_>, frame: FrameRef<'_>)
    requires side { half.old.side ≡ true }
    requires fits { (loan : Loan) × (half.old.lent ≡ Some loan) × IsLeftBy half.old.key loan.held (loan.history ++ Heard (frame_of frame) ∷ []) }
    ensures { IfSome half.old.lent (λ loan. half.new ≡ record half.old { seen = loan.history ++ Heard (frame_of frame.entry) ∷ []; lent = None }) }
{
    half.give::<Brand, FrameRef<'_>>(turn, &frame);
}

// Gives the inbox back, where the frame was refused.
fn give_refused(half: &mut Half, turn: Turn<'_>, frame: FrameRef<'_>)
    requires side { half.old.side ≡ true }
    requires fits { (loan : Loan) × (half.old.lent ≡ Some loan) × IsLeftBy half.old.key loan.held (loan.history ++ Refused (frame_of frame) ∷ []) }
    ensures { IfSome half.old.lent (λ loan. half.new ≡ record half.old { seen = loan.history ++ Refused (frame_of frame.entry) ∷ []; lent = None }) }
{
    half.give::<Brand, FrameRef<'_>>(turn, &frame);
}

// Gives the inbox back, where a message was refused that nothing kept.
fn give_unkept(half: &mut Half, turn: Turn<'_>, channel: Channel, body: &Unkept)
    requires side { half.old.side ≡ true }
    requires fits { (loan : Loan) × (half.old.lent ≡ Some loan) × IsLeftBy half.old.key loan.held (loan.history ++ Refused (Send channel body.now.bytes) ∷ []) }
    ensures { IfSome half.old.lent (λ loan. half.new ≡ record half.old { seen = loan.history ++ Refused (Send channel body.now.bytes) ∷ []; lent = None }) }
{
    half.give::<Brand, (Channel, &Unkept)>(turn, &(channel, body));
}

// A frame arrives at the inbox.
fn arrive<R: Wait>(
    half: &mut Half,
    turns: &Mutex<()>,
    rt: &R,
    frame: FrameRef<'_>,
) -> Result<(), Violation>
    requires idle { IsIdle true half.old }
    requires valid { IsValid Two (frame_of frame) }
    requires lane { lane_of (frame_of frame) ≡ number_of half.old.key.channel }
    ensures idle { IsIdle true half.new }
    ensures same { IsSameSide (side_of half.old) (side_of half.new) }
    ensures turn { HadOneTurn (side_of half.old) (side_of half.new) }
    ensures ok { OnOk result (IsHeard (frame_of frame.entry) (side_of half.old) (side_of half.new)) }
    ensures err { IfErr result (λ v. IsViolated v (frame_of frame.entry) (side_of half.old) (side_of half.new)) }
{
    let turn = half.take(rt, turns);
    match half.inbox().arrive(frame) {
        Ok(()) => {
            give_heard(half, turn, frame);
            Ok(())
        }
        Err(violation) => {
            give_refused(half, turn, frame);
            Err(violation)
        }
    }
}

// A message came that is longer than the ring.
fn refuse<R: Wait>(
    half: &mut Half,
    turns: &Mutex<()>,
    rt: &R,
    channel: Channel,
    len: usize,
    body: &Unkept,
) -> Violation
    requires idle { IsIdle true half.old }
    requires channel { half.old.key.channel ≡ channel }
    requires longer { half.old.key.capacity < len }
    requires all { length body.now.bytes ≡ len }
    requires most { len ≤ max_body Two }
    ensures idle { IsIdle true half.new }
    ensures same { IsSameSide (side_of half.old) (side_of half.new) }
    ensures turn { HadOneTurn (side_of half.old) (side_of half.new) }
    ensures refused { IsViolated result (Send channel body.now.bytes) (side_of half.old) (side_of half.new) }
{
    let turn = half.take(rt, turns);
    let violation = half.inbox().refuse(len);
    give_unkept(half, turn, channel, body);
    violation
}

impl InboxIn {
    /// The channel.
    pub fn channel(&self) -> Channel
        ensures { result ≡ self.now.key.channel }
    {
        self.channel
    }

    /// A frame of the client arrives. Violations V9 and V1 to V4, each exactly where the book has it
    /// that the whole history up to here leaves.
    pub fn arrive<R: Wait>(&mut self, rt: &R, frame: FrameRef<'_>) -> Result<(), Violation>
        requires valid { IsValid Two (frame_of frame) }
        requires lane { lane_of (frame_of frame) ≡ number_of self.old.key.channel }
        ensures ok { OnOk result (IsHeard (frame_of frame.entry) self.old self.new) }
        ensures err { IfErr result (λ v. IsViolated v (frame_of frame.entry) self.old self.new) }
        ensures turn { HadOneTurn self.old self.new }
        ensures same { IsSameSide self.old self.new }
    {
        arrive(&mut self.half, &self.turns, rt, frame)
    }

    /// A message came of which nothing kept the `len` bytes, since it is longer than the ring: the
    /// violation that it is, V9 or V1, as [`arrive`](InboxIn::arrive) has it.
    pub fn refuse<R: Wait>(&mut self, rt: &R, len: usize, body: &Unkept) -> Violation
        requires longer { self.old.key.capacity < len }
        requires all { length body.now.bytes ≡ len }
        requires most { len ≤ max_body Two }
        ensures refused { IsViolated result (Send self.old.key.channel body.now.bytes) self.old self.new }
        ensures turn { HadOneTurn self.old self.new }
        ensures same { IsSameSide self.old self.new }
    {
        refuse(&mut self.half, &self.turns, rt, self.channel, len, body)
    }
}
