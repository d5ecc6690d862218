//! The state of one channel at a peer, in both directions.
ghost use Rattle.std.specs.Prelude.{◌≡◌, if◌then◌else◌, is_ok, map, length, None, IfOk};
ghost use Rattle.std.specs.Result.{result_err};
ghost use Rattle.lc_frame.specs.FrameRef.{frame_of};
ghost use Rattle.lc_frame.specs.declared.version.Version.TheVariants.{Two};
ghost use Rattle.lc_frame.specs.Frame.{IsValid};
ghost use Rattle.lc_frame.specs.Channel.{channel_count};
ghost use Rattle.lc_peer.specs.Peer.{new_channel};
ghost use Rattle.lc_peer.specs.Calls.{book_refusal, channel_after_put};
ghost use Rattle.lc_peer.specs.Arrivals.{violation, channel_after_arrival};

use crate::inbox::Inbox;
use lc_book::{ClientBook, Violation};
use lc_frame::{CHANNELS, FrameRef, Version};
use lc_ring::NewFault;
use std::alloc::Global;

#[derive(Drop)]
pub(crate) struct ChannelState {
    pub client: ClientBook,
    pub inbox: Inbox,
}

impl ChannelState {
    /// A frame is put on the channel that its books accept. Always inlined, since its kind is known where
    /// it is called.
    #[inline(always)]
    pub(crate) fn put(&mut self, frame: FrameRef<'_>)
        requires { book_refusal self.old.client self.old.inbox.book (frame_of frame) ≡ None }
        ensures { self.new ≡ channel_after_put (frame_of frame.entry) self.old }
    {
        match frame {
            FrameRef::Send { body, .. } => self.client.note_spent(body.len() as u32),
            FrameRef::Issue { amount, .. } => self.inbox.note_issued(amount),
            FrameRef::Absolve { amount, .. } => self.client.note_absolved(amount),
            FrameRef::Plead { .. } => {}
            FrameRef::LimitSending { bound, .. } => self.client.note_limit_sending(bound),
            FrameRef::LimitReceiving { bound, .. } => self.inbox.note_limit_receiving(bound),
            FrameRef::Finish { .. } => self.client.note_finished(),
        }
    }

    /// A frame arrives on the channel. Always inlined, so that what the scan has found of its kind is not
    /// looked for again.
    #[inline(always)]
    pub(crate) fn arrive(&mut self, frame: FrameRef<'_>) -> Result<(), Violation>
        requires { IsValid Two (frame_of frame) }
        ensures answer { result_err result ≡ violation self.old.client self.old.inbox.book (frame_of frame.entry) }
        ensures after { self.new ≡ (if is_ok result then channel_after_arrival (frame_of frame.entry) self.old else self.old) }
    {
        match frame {
            FrameRef::Send { body, .. } => self.inbox.message(body),
            FrameRef::Issue { amount, .. } => self.client.issued(amount),
            FrameRef::Absolve { amount, .. } => self.inbox.was_absolved(amount),
            FrameRef::Plead { target, .. } => {
                self.client.pleaded(target);
                Ok(())
            }
            FrameRef::LimitSending { bound, .. } => self.inbox.sending_limited(bound),
            FrameRef::LimitReceiving { bound, .. } => self.client.receiving_limited(bound),
            FrameRef::Finish { .. } => self.inbox.finished(),
        }
    }
}

/// All channels, and on none has anything happened.
pub(crate) fn new_channels(
    alloc: Global,
    version: Version,
    capacities: [u32; CHANNELS],
) -> Result<[ChannelState; CHANNELS], NewFault>
    requires { length capacities ≡ channel_count }
    ensures { IfOk result (λ states. states ≡ map (new_channel version) capacities) }
{
    let inboxes = capacities.try_map(|capacity| Inbox::new(alloc, capacity))?;
    Ok(inboxes.map(|inbox| ChannelState {
        client: ClientBook::new(version),
        inbox,
    }))
}
