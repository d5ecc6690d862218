//! A frame that borrows its body.
ghost use Rattle.std.specs.Prelude.{◌≡◌, ◌<◌, ◌↔◌, IsTrue, IfOk, OnErr};
ghost use Rattle.lc_frame.specs.declared.kind.Kind.TheVariants as kinds;
ghost use Rattle.lc_frame.specs.Frame.{kind_of, channel_of, field_of, body_of, lane_of, IsValid};
ghost use Rattle.lc_frame.specs.Lane.{lane_count};
ghost use Rattle.lc_frame.specs.FrameRef.{frame_of};

use crate::body::Body;
use crate::channel::Channel;
use crate::frame::Frame;
use crate::kind::Kind;
use crate::lane::Lane;
use crate::version::Version;
use std::alloc::{AllocError, Global};

/// A frame with a borrowed body. Numbers count bytes of messages.
#[derive(Clone, Copy, Debug, PartialEq, Eq)]
pub enum FrameRef<'a> {
    /// A message of the client.
    Send { channel: Channel, body: &'a [u8] },
    /// The server promises room for so many bytes more.
    Issue { channel: Channel, amount: u32 },
    /// The client gives up so many guarantees.
    Absolve { channel: Channel, amount: u32 },
    /// The server asks the client to absolve until it holds at most the target.
    Plead { channel: Channel, target: u32 },
    /// The client sends at most the bound after this frame.
    LimitSending { channel: Channel, bound: u64 },
    /// The server issues at most the bound after this frame.
    LimitReceiving { channel: Channel, bound: u64 },
    /// The client sends nothing more, and gives up all guarantees that it holds or that still come.
    Finish { channel: Channel },
}

impl<'a> FrameRef<'a> {
    /// The same frame with a copy of the body. The error is want of memory, and only a Send takes
    /// any.
    pub fn to_frame(&self, alloc: Global) -> Result<Frame, AllocError>
        ensures value { IfOk result (λ f. f ≡ frame_of self.now) }
        ensures err { OnErr result (kind_of (frame_of self.now) ≡ kinds.Send) }
    {
        Ok(match *self {
            FrameRef::Send { channel, body } => Frame::Send {
                channel,
                body: Body::from_vec(Vec::from_slice(alloc, body)?),
            },
            FrameRef::Issue { channel, amount } => Frame::Issue { channel, amount },
            FrameRef::Absolve { channel, amount } => Frame::Absolve { channel, amount },
            FrameRef::Plead { channel, target } => Frame::Plead { channel, target },
            FrameRef::LimitSending { channel, bound } => Frame::LimitSending { channel, bound },
            FrameRef::LimitReceiving { channel, bound } => Frame::LimitReceiving { channel, bound },
            FrameRef::Finish { channel } => Frame::Finish { channel },
        })
    }

    /// The channel that the frame concerns.
    #[inline]
    pub fn channel(&self) -> Channel
        ensures { result ≡ channel_of (frame_of self.now) }
    {
        match *self {
            FrameRef::Send { channel, .. }
            | FrameRef::Issue { channel, .. }
            | FrameRef::Absolve { channel, .. }
            | FrameRef::Plead { channel, .. }
            | FrameRef::LimitSending { channel, .. }
            | FrameRef::LimitReceiving { channel, .. }
            | FrameRef::Finish { channel } => channel,
        }
    }

    /// The lane of the frame: the channel's number for what a client puts (Send, Absolve,
    /// LimitSending, Finish), `CHANNELS` more for what a server puts.
    pub fn lane(&self) -> u8
        ensures value { result ≡ lane_of (frame_of self.now) }
        ensures range { result < lane_count }
    {
        let channel = self.channel();
        match self.kind() {
            Kind::Send | Kind::Absolve | Kind::LimitSending | Kind::Finish => Lane::Client(
                channel,
            ).number(),
            Kind::Issue | Kind::Plead | Kind::LimitReceiving => Lane::Server(channel).number(),
        }
    }

    /// Whether the version has the frame's kind, and its number is in the range of that: a body of
    /// 1 to `Version::max_body` bytes, an amount of 1 to `MAX_AMOUNT`, a target up to `MAX_AMOUNT`,
    /// a bound up to `MAX_TOTAL`. Only version Two has Finish.
    #[inline]
    pub fn is_valid(&self, version: Version) -> bool
        ensures { IsTrue result ↔ IsValid version (frame_of self.now) }
    {
        let kind = self.kind();
        kind.is_in(version) && kind.allows(version, self.field())
    }

    /// What the frame does.
    #[inline]
    pub fn kind(&self) -> Kind
        ensures { result ≡ kind_of (frame_of self.now) }
    {
        match *self {
            FrameRef::Send { .. } => Kind::Send,
            FrameRef::Issue { .. } => Kind::Issue,
            FrameRef::Absolve { .. } => Kind::Absolve,
            FrameRef::Plead { .. } => Kind::Plead,
            FrameRef::LimitSending { .. } => Kind::LimitSending,
            FrameRef::LimitReceiving { .. } => Kind::LimitReceiving,
            FrameRef::Finish { .. } => Kind::Finish,
        }
    }

    // The number that the frame carries: a body's length, an amount, a target or a bound; 0 where it
    // carries none.
    #[inline]
    fn field(&self) -> u64
        ensures { result ≡ field_of (frame_of self.now) }
    {
        match *self {
            FrameRef::Send { body, .. } => body.len() as u64,
            FrameRef::Issue { amount, .. } | FrameRef::Absolve { amount, .. } => u64::from(amount),
            FrameRef::Plead { target, .. } => u64::from(target),
            FrameRef::LimitSending { bound, .. } | FrameRef::LimitReceiving { bound, .. } => bound,
            FrameRef::Finish { .. } => 0,
        }
    }

    #[inline]
    pub(crate) fn body(&self) -> &'a [u8]
        ensures { result.now ≡ body_of (frame_of self.now) }
    {
        match *self {
            FrameRef::Send { body, .. } => body,
            _ => &[],
        }
    }
}
