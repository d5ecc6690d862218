//! What is under way on each channel, counted as messages enter and leave the outbound queue and as permits come and go.
ghost use Rattle.std.specs.Prelude.{◌≡◌, ◌+◌, ◌-◌, ◌<◌, ◌≤◌, ◌^◌, length, slice_index};
ghost use Rattle.lc_frame.specs.Channel.{channel_count, number_of};
ghost use Rattle.lc_lines.specs.Outbound.{none, no_counts, with_message, without_message, without_frame, with_grant, without_grant, without_permits, with_use, IsCounted};

use lc_frame::{CHANNELS, Channel, Frame};
use std::marker::Model;

/// How many messages of each channel are queued and permits of it out, how many of the free slots only their owners
/// take, and the bytes of all messages that are queued.
pub struct MessageCounts {
    under_way: [usize; CHANNELS],
    kept: usize,
    bytes: usize,
}

impl Drop for MessageCounts {
    fn drop(self) {
        let MessageCounts {
            under_way: _,
            kept: _,
            bytes: _,
        } = self;
    }
}

impl Model for MessageCounts {
    ghost use Rattle.std.specs.Prelude.{◌≡◌, length};
    ghost use Rattle.lc_frame.specs.Channel.{channel_count};
    ghost use Rattle.lc_lines.specs.Outbound.{Counts};

    ghost Value = { Counts };

    ghost view = { λ counts. record { under_way = counts.under_way; kept = counts.kept; bytes = counts.bytes } };
}

// 1 where there is none of something, else 0.
#[inline]
fn none(count: usize) -> usize
    ensures { result ≡ none count }
{
    if count == 0 { 1 } else { 0 }
}

impl MessageCounts {
    /// The counts of an empty queue, where no permit is out.
    pub fn new() -> MessageCounts
        ensures { result ≡ no_counts }
    {
        MessageCounts {
            under_way: [0; CHANNELS],
            kept: CHANNELS,
            bytes: 0,
        }
    }

    /// How many messages of a channel are queued, and permits of it out.
    #[inline]
    pub fn under_way(&self, channel: Channel) -> usize
        ensures { result ≡ slice_index self.now.under_way (number_of channel) }
    {
        self.under_way[channel.index()]
    }

    /// How many of the free slots only their owners take: the unused ones of the channels' own, and those of permits.
    #[inline]
    pub fn kept(&self) -> usize
        ensures { result ≡ self.now.kept }
    {
        self.kept
    }

    /// The bytes of all messages that are queued.
    #[inline]
    pub fn bytes(&self) -> usize
        ensures { result ≡ self.now.bytes }
    {
        self.bytes
    }

    /// A message of so many bytes enters the queue.
    #[inline]
    pub fn enter(&mut self, channel: Channel, len: usize)
        requires under_way { slice_index self.old.under_way (number_of channel) < 2 ^ 32 }
        requires kept { none (slice_index self.old.under_way (number_of channel)) ≤ self.old.kept }
        requires bytes { self.old.bytes + len < 2 ^ 48 }
        ensures { self.new ≡ with_message self.old channel len }
    {
        let under_way = &mut self.under_way[channel.index()];
        self.kept -= none(*under_way);
        *under_way += 1;
        self.bytes += len;
    }

    // A message of so many bytes leaves the queue.
    #[inline]
    fn leave(&mut self, channel: Channel, len: usize)
        requires under_way { 1 ≤ slice_index self.old.under_way (number_of channel) }
        requires kept { self.old.kept < 2 ^ 32 }
        requires bytes { len ≤ self.old.bytes }
        ensures { self.new ≡ without_message self.old channel len }
    {
        let under_way = &mut self.under_way[channel.index()];
        *under_way -= 1;
        self.kept += none(*under_way);
        self.bytes -= len;
    }

    /// A permit is granted.
    #[inline]
    pub fn grant(&mut self, channel: Channel)
        requires under_way { slice_index self.old.under_way (number_of channel) < 2 ^ 32 }
        requires kept { self.old.kept < 2 ^ 32 }
        ensures { self.new ≡ with_grant self.old channel }
    {
        let under_way = &mut self.under_way[channel.index()];
        self.kept = self.kept + 1 - none(*under_way);
        *under_way += 1;
    }

    /// A permit leaves its slot.
    #[inline]
    pub fn release(&mut self, channel: Channel)
        requires under_way { 1 ≤ slice_index self.old.under_way (number_of channel) }
        requires kept { (1 ≤ self.old.kept) × (self.old.kept < 2 ^ 32) }
        ensures { self.new ≡ without_grant self.old channel }
    {
        let under_way = &mut self.under_way[channel.index()];
        *under_way -= 1;
        self.kept = self.kept - 1 + none(*under_way);
    }

    /// So many permits of a channel leave their slots.
    pub fn void(&mut self, channel: Channel, permits: usize)
        requires under_way { permits ≤ slice_index self.old.under_way (number_of channel) }
        requires kept { none (slice_index self.old.under_way (number_of channel)) + permits ≤ self.old.kept + none (slice_index self.old.under_way (number_of channel) - permits) }
        requires few { self.old.kept < 2 ^ 32 }
        ensures { self.new ≡ without_permits self.old channel permits }
    {
        let under_way = &mut self.under_way[channel.index()];
        let was = none(*under_way);
        *under_way -= permits;
        self.kept = self.kept + none(*under_way) - was - permits;
    }

    /// A message of so many bytes enters the queue by a permit, whose slot it takes.
    #[inline]
    pub fn use_permit(&mut self, len: usize)
        requires kept { 1 ≤ self.old.kept }
        requires bytes { self.old.bytes + len < 2 ^ 48 }
        ensures { self.new ≡ with_use self.old len }
    {
        self.kept -= 1;
        self.bytes += len;
    }

    /// A frame leaves the queue.
    #[inline]
    pub fn leave_frame(&mut self, frame: &Frame)
        requires counted { IsCounted self.old frame.now }
        requires kept { self.old.kept < 2 ^ 32 }
        ensures { self.new ≡ without_frame self.old frame.now }
    {
        match frame {
            Frame::Send { channel, body } => self.leave(*channel, body.as_slice().len()),
            Frame::Issue { .. }
            | Frame::Absolve { .. }
            | Frame::Plead { .. }
            | Frame::LimitSending { .. }
            | Frame::LimitReceiving { .. }
            | Frame::Finish { .. } => {}
        }
    }
}
