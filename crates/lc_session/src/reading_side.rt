//! Where the frames that come are for.
ghost use Rattle.std.specs.Prelude.{◌≡◌, ◌∷◌, [], ◌<◌, ◌≤◌, length, map, OnOk, IfErr};
ghost use Rattle.lc_history.specs.Places.{ChangesAt};
ghost use Rattle.lc_frame.specs.Channel.{number_of};
ghost use Rattle.lc_frame.specs.declared.version.Version.TheVariants.{Two};
ghost use Rattle.lc_frame.specs.declared.frame.Frame.TheVariants.{Send};
ghost use Rattle.lc_frame.specs.Frame.{IsValid, lane_of, channel_of};
ghost use Rattle.lc_frame.specs.FrameRef.{frame_of};
ghost use Rattle.lc_frame.specs.Kind.{max_amount, max_body};
ghost use Rattle.lc_credit.specs.Sides.{IsAdded, IsNotAdded};
ghost use Rattle.lc_inbox.specs.Sides.{IsSameSide};
ghost use Rattle.lc_peer.specs.Longer.{IsLonger};
ghost use Rattle.lc_session.specs.Channels.{channels};
ghost use Rattle.lc_session.specs.Reading.{channel_of_side, ring_of_side, rings_of, Hears, Refuses, ToCredit, ToInbox, Arrives, Violates};

use lc_book::Violation;
use lc_credit::CreditIn;
use lc_frame::{CHANNELS, Channel, FrameRef, Lane};
use lc_inbox::InboxIn;
use lc_peer::{FrameSink, RingSink, Unkept};
use lc_wake::{Pump, Wakers};
use std::alloc::Global;
use std::marker::Model;
use std::sync::{Arc, Wait};

/// The reading side of each channel's credit and inbox, with what wakes their ends.
#[derive(Drop)]
pub(crate) struct ReadingSide {
    pub(crate) credits: CreditIn,
    pub(crate) inboxes: [InboxIn; CHANNELS],
    pub(crate) wakers: Arc<Wakers, Global>,
}

impl Model for ReadingSide {
    ghost use Rattle.lc_session.specs.Reading.{ReadingSide as State, IsReadingSide};

    ghost Value = { State };

    ghost view = { λ r. record { credits = r.credits; inboxes = r.inboxes } };

    ghost invariant = { λ r. IsReadingSide (record { credits = r.credits; inboxes = r.inboxes }) };
}

// A frame arrives at an inbox.
fn hear<R: Wait>(rt: &R, inbox: &mut InboxIn, frame: FrameRef<'_>) -> Result<(), Violation>
    requires valid { IsValid Two (frame_of frame) }
    requires lane { lane_of (frame_of frame) ≡ number_of inbox.old.key.channel }
    ensures ok { OnOk result (Hears (frame_of frame.entry) inbox.old inbox.new) }
    ensures err { IfErr result (λ v. Refuses v (frame_of frame.entry) inbox.old inbox.new) }
    ensures same { IsSameSide inbox.old inbox.new }
{
    inbox.arrive(rt, frame)
}

// A frame arrives at the inbox of its channel.
fn hear_at<R: Wait>(
    rt: &R,
    inboxes: &mut [InboxIn; CHANNELS],
    channel: Channel,
    frame: FrameRef<'_>,
) -> Result<(), Violation>
    requires places { map channel_of_side inboxes.old ≡ channels }
    requires valid { IsValid Two (frame_of frame) }
    requires lane { lane_of (frame_of frame) ≡ number_of channel }
    ensures ok { OnOk result (ChangesAt (number_of channel) (Hears (frame_of frame.entry)) inboxes.old inboxes.new) }
    ensures err { IfErr result (λ v. ChangesAt (number_of channel) (Refuses v (frame_of frame.entry)) inboxes.old inboxes.new) }
    ensures places { map channel_of_side inboxes.new ≡ channels }
{
    let inbox = &mut inboxes[channel.index()];
    hear(rt, inbox, frame)
}

// A message comes to an inbox that is longer than its ring.
fn refuse<R: Wait>(
    rt: &R,
    inbox: &mut InboxIn,
    channel: Channel,
    len: usize,
    body: &Unkept,
) -> Violation
    requires channel { inbox.old.key.channel ≡ channel }
    requires longer { inbox.old.key.capacity < len }
    requires all { length body.now.bytes ≡ len }
    requires most { len ≤ max_body Two }
    ensures refused { Refuses result (Send channel body.now.bytes) inbox.old inbox.new }
    ensures same { IsSameSide inbox.old inbox.new }
{
    inbox.refuse(rt, len, body)
}

// The same to the inbox of its channel.
fn refuse_at<R: Wait>(
    rt: &R,
    inboxes: &mut [InboxIn; CHANNELS],
    channel: Channel,
    len: usize,
    body: &Unkept,
) -> Violation
    requires places { map channel_of_side inboxes.old ≡ channels }
    requires longer { IsLonger (map ring_of_side inboxes.old) channel len }
    requires all { length body.now.bytes ≡ len }
    requires most { len ≤ max_body Two }
    ensures refused { ChangesAt (number_of channel) (Refuses result (Send channel body.now.bytes)) inboxes.old inboxes.new }
    ensures places { map channel_of_side inboxes.new ≡ channels }
{
    let inbox = &mut inboxes[channel.index()];
    refuse(rt, inbox, channel, len, body)
}

impl ReadingSide {
    pub(crate) fn begin_run(&self) {
        self.wakers.begin_run(Pump::Reading);
    }

    pub(crate) fn end_run(&self) {
        self.wakers.end_run(Pump::Reading);
    }

    pub(crate) fn into_parts(self) -> (CreditIn, [InboxIn; CHANNELS])
        ensures { self ≡ record { credits = result.0; inboxes = result.1 } }
    {
        let ReadingSide {
            credits,
            inboxes,
            wakers: _,
        } = self;
        (credits, inboxes)
    }

    // Guarantees arrive on a channel.
    fn add(&mut self, channel: Channel, amount: u32) -> Result<(), Violation>
        requires { amount ≤ max_amount }
        ensures ok { OnOk result (ToCredit channel (IsAdded amount) self.old self.new) }
        ensures err { IfErr result (λ v. ToCredit channel (IsNotAdded v amount) self.old self.new) }
    {
        self.credits.add(channel, amount)?;
        self.wakers.frame_came(Lane::Client(channel));
        Ok(())
    }

    // A frame of the client's lane arrives on a channel.
    fn hear<R: Wait>(
        &mut self,
        rt: &R,
        channel: Channel,
        frame: FrameRef<'_>,
    ) -> Result<(), Violation>
        requires valid { IsValid Two (frame_of frame) }
        requires lane { lane_of (frame_of frame) ≡ number_of channel }
        ensures ok { OnOk result (ToInbox channel (Hears (frame_of frame.entry)) self.old self.new) }
        ensures err { IfErr result (λ v. ToInbox channel (Refuses v (frame_of frame.entry)) self.old self.new) }
    {
        hear_at(rt, &mut self.inboxes, channel, frame)
    }
}

impl<R: Wait> FrameSink<R> for ReadingSide {
    ghost use Rattle.lc_session.specs.Reading.{Arrives, Violates};

    ghost arrived = { Arrives };

    ghost violated = { Violates };

    fn arrive_in(&mut self, rt: &R, frame: FrameRef<'_>) -> Result<(), Violation> {
        match frame {
            FrameRef::Issue { channel, amount } => self.add(channel, amount),
            FrameRef::Plead { channel, target } => {
                self.credits.ask(channel, target);
                self.wakers.frame_came(Lane::Client(channel));
                Ok(())
            }
            FrameRef::LimitReceiving { channel, bound } => {
                self.credits.receiving_limited(channel, bound)
            }
            // The inbox tells the frames of a client from each other.
            _ => {
                let channel = frame.channel();
                self.hear(rt, channel, frame)?;
                self.wakers.frame_came(Lane::Server(channel));
                Ok(())
            }
        }
    }
}

impl<R: Wait> RingSink<R> for ReadingSide {
    ghost use Rattle.lc_session.specs.Reading.{rings_of};
    ghost use Rattle.lc_session.specs.Keeps.{arrives_rings, violates_rings};

    ghost rings = { rings_of };

    fn refuse_in(&mut self, rt: &R, channel: Channel, len: usize, body: &Unkept) -> Violation {
        refuse_at(rt, &mut self.inboxes, channel, len, body)
    }

    ghost keeps = { arrives_rings };

    ghost keeps_refused = { violates_rings };
}
