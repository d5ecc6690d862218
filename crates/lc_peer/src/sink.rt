//! What frames arrive at.
ghost use Rattle.std.specs.Prelude.{OnOk, IfErr};
ghost use Rattle.lc_frame.specs.declared.version.Version.TheVariants.{Two};
ghost use Rattle.lc_frame.specs.Frame.{IsValid};
ghost use Rattle.lc_frame.specs.FrameRef.{frame_of};

use crate::peer::Peer;
use lc_book::Violation;
use lc_frame::FrameRef;

/// What frames arrive at, in a context: a peer, which needs none, or a side of a session that
/// threads share, which needs a runtime to wait by.
pub trait FrameSink<C> {
    ghost use Rattle.lc_frame.specs.declared.frame.Frame.{Frame as AnyFrame};
    ghost use Rattle.lc_book.specs.declared.fault.Violation.{Violation as AnyViolation};

    // What a frame that arrives leaves.
    ghost arrived: { Self → AnyFrame → Self → Type 0 };

    // What a frame that violates the rules leaves.
    ghost violated: { AnyViolation → Self → AnyFrame → Self → Type 0 };

    /// A frame arrives, which has to be valid in version Two, as one that is valid in version One is.
    fn arrive_in(&mut self, context: &C, frame: FrameRef<'_>) -> Result<(), Violation>
        requires { IsValid Two (frame_of frame) }
        ensures ok { OnOk result (arrived self.old (frame_of frame.entry) self.new) }
        ensures err { IfErr result (λ v. violated v self.old (frame_of frame.entry) self.new) };
}

impl FrameSink<()> for Peer {
    ghost use Rattle.lc_peer.specs.Sinks.{Arrives, Violates};

    ghost arrived = { Arrives };

    ghost violated = { Violates };

    #[inline(always)]
    fn arrive_in(&mut self, _context: &(), frame: FrameRef<'_>) -> Result<(), Violation> {
        self.arrive(frame)
    }
}
