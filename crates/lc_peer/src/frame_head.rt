//! What is known of a frame without its message.
ghost use Rattle.std.specs.Prelude.{◌≡◌};
ghost use Rattle.lc_frame.specs.FrameRef.{frame_of};
ghost use Rattle.lc_peer.specs.Offending.{head_of};

use lc_frame::{Channel, FrameRef, Kind};

/// The first bytes of a frame: what it does, on which channel, and with which number.
#[derive(Clone, Copy, Debug, PartialEq, Eq)]
pub struct FrameHead {
    pub kind: Kind,
    pub channel: Channel,
    /// An amount, a target, a bound or the length of a message; `None` of a Finish.
    pub number: Option<u64>,
}

impl FrameHead {
    pub(crate) fn of(frame: FrameRef<'_>) -> FrameHead
        ensures { result ≡ head_of (frame_of frame.entry) }
    {
        let number = match frame {
            FrameRef::Send { body, .. } => Some(body.len() as u64),
            FrameRef::Issue { amount, .. } | FrameRef::Absolve { amount, .. } => {
                Some(u64::from(amount))
            }
            FrameRef::Plead { target, .. } => Some(u64::from(target)),
            FrameRef::LimitSending { bound, .. } | FrameRef::LimitReceiving { bound, .. } => {
                Some(bound)
            }
            FrameRef::Finish { .. } => None,
        };
        FrameHead {
            kind: frame.kind(),
            channel: frame.channel(),
            number,
        }
    }
}
