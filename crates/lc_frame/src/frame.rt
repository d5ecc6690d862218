//! A frame of a stream.
ghost use Rattle.std.specs.Prelude.{◌≡◌, ◌<◌, ◌↔◌, IsTrue};
ghost use Rattle.lc_frame.specs.Frame.{channel_of, lane_of, IsValid};
ghost use Rattle.lc_frame.specs.Lane.{lane_count};
ghost use Rattle.lc_frame.specs.FrameRef.{frame_of};

use crate::body::Body;
use crate::channel::Channel;
use crate::frame_ref::FrameRef;
use crate::version::Version;
use std::fmt;
use std::fmt::{Debug, Formatter};

/// The longest message of either version, in bytes.
pub const MAX_BODY: usize = 1_048_576;
/// The largest amount of an Issue or an Absolve, the largest target of a Plead, and the largest
/// receiving ring, in bytes.
pub const MAX_AMOUNT: u32 = 16_777_216;
/// The largest bound of a limit, and the most guarantees of one channel and session, in bytes.
pub const MAX_TOTAL: u64 = 4_611_686_018_427_387_904;

/// A frame that owns its body. Numbers count bytes of messages.
#[derive(Drop)]
pub enum Frame {
    /// A message of the client.
    Send { channel: Channel, body: Body },
    /// The server promises room for so many bytes more.
    Issue { channel: Channel, amount: u32 },
    /// The client gives up so many guarantees.
    Absolve { channel: Channel, amount: u32 },
    /// The server asks the client to absolve until it holds at most the target.
    Plead { channel: Channel, target: u32 },
    /// The client sends at most the bound after this frame.
    LimitSending { channel: Channel, bound: u64 },
    /// The server issues at most the bound after this frame.
    LimitReceiving { channel: Channel, bound: u64 },
    /// The client sends nothing more, and gives up all guarantees that it holds or that still come.
    Finish { channel: Channel },
}

impl Debug for Frame {
    fn fmt<W: fmt::Write>(&self, f: &mut Formatter<W>) -> fmt::Result {
        self.view().fmt(f)
    }
}

impl Frame {
    /// The same frame with its body borrowed.
    #[inline]
    pub fn view(&self) -> FrameRef<'_>
        ensures { frame_of result ≡ self.now }
    {
        match self {
            Frame::Send { channel, body } => FrameRef::Send {
                channel: *channel,
                body: body.as_slice(),
            },
            Frame::Issue { channel, amount } => FrameRef::Issue {
                channel: *channel,
                amount: *amount,
            },
            Frame::Absolve { channel, amount } => FrameRef::Absolve {
                channel: *channel,
                amount: *amount,
            },
            Frame::Plead { channel, target } => FrameRef::Plead {
                channel: *channel,
                target: *target,
            },
            Frame::LimitSending { channel, bound } => FrameRef::LimitSending {
                channel: *channel,
                bound: *bound,
            },
            Frame::LimitReceiving { channel, bound } => FrameRef::LimitReceiving {
                channel: *channel,
                bound: *bound,
            },
            Frame::Finish { channel } => FrameRef::Finish { channel: *channel },
        }
    }

    /// The channel that the frame concerns.
    #[inline]
    pub fn channel(&self) -> Channel
        ensures { result ≡ channel_of self.now }
    {
        self.view().channel()
    }

    /// The lane of the frame: the channel's number for what a client puts (Send, Absolve,
    /// LimitSending, Finish), `CHANNELS` more for what a server puts.
    pub fn lane(&self) -> u8
        ensures value { result ≡ lane_of self.now }
        ensures range { result < lane_count }
    {
        self.view().lane()
    }

    /// Whether the version has the frame's kind, and its number is in the range of that: a body of
    /// 1 to `Version::max_body` bytes, an amount of 1 to `MAX_AMOUNT`, a target up to `MAX_AMOUNT`,
    /// a bound up to `MAX_TOTAL`. Only version Two has Finish.
    #[inline]
    pub fn is_valid(&self, version: Version) -> bool
        ensures { IsTrue result ↔ IsValid version self.now }
    {
        self.view().is_valid(version)
    }
}
