//! What the tag and the number of a frame say.
ghost use Rattle.std.specs.Prelude.{◌≡◌, ◌≤◌, length};
ghost use Rattle.lc_frame.specs.Kind.{IsInRange, header_len};
ghost use Rattle.lc_frame.specs.FrameRef.{frame_of};
ghost use Rattle.lc_frame.specs.Scan.{frame_in};

use crate::channel::Channel;
use crate::frame_ref::FrameRef;
use crate::kind::Kind;
use crate::version::Version;

/// The tag and the number of a frame, which is 0 where it has none.
#[derive(Clone, Copy)]
pub(crate) struct Head {
    pub(crate) number: u64,
    pub(crate) kind: Kind,
    pub(crate) channel: Channel,
}

impl Head {
    /// The frame with this head, whose bytes are the text.
    #[inline]
    pub(crate) fn frame_in(self, version: Version, text: &[u8]) -> FrameRef<'_>
        requires in_range { IsInRange version self.kind self.number }
        requires begins { header_len version self.kind ≤ length text.now }
        ensures { frame_of result ≡ frame_in version self text.now }
    {
        let channel = self.channel;
        match self.kind {
            Kind::Send => FrameRef::Send {
                channel,
                body: text.split_at(Kind::Send.header_len(version)).1,
            },
            Kind::Issue => FrameRef::Issue {
                channel,
                amount: self.number as u32,
            },
            Kind::Absolve => FrameRef::Absolve {
                channel,
                amount: self.number as u32,
            },
            Kind::Plead => FrameRef::Plead {
                channel,
                target: self.number as u32,
            },
            Kind::LimitSending => FrameRef::LimitSending {
                channel,
                bound: self.number,
            },
            Kind::LimitReceiving => FrameRef::LimitReceiving {
                channel,
                bound: self.number,
            },
            Kind::Finish => FrameRef::Finish { channel },
        }
    }
}
