//! Sinks whose rings have known sizes.
ghost use Rattle.std.specs.Prelude.{◌≡◌, ◌≤◌, length};
ghost use Rattle.lc_frame.specs.declared.version.Version.TheVariants.{Two};
ghost use Rattle.lc_frame.specs.declared.frame.Frame.TheVariants.{Send};
ghost use Rattle.lc_frame.specs.Kind.{max_body};
ghost use Rattle.lc_peer.specs.Longer.{IsLonger};

use crate::peer::Peer;
use crate::sink::FrameSink;
use crate::unkept::Unkept;
use lc_book::Violation;
use lc_frame::Channel;

/// A sink whose channels' rings keep their sizes. A message that is longer than its ring violates the
/// rules whatever happens until its end, so nothing of it has to be there then.
pub trait RingSink<C>: FrameSink<C> {
    ghost use Rattle.std.specs.Prelude.{◌≡◌, ℕ, List};
    ghost use Rattle.lc_frame.specs.declared.frame.Frame.{Frame as AnyFrame};
    ghost use Rattle.lc_book.specs.declared.fault.Violation.{Violation as AnyViolation};

    // The bytes of the channels' rings, by the channels' numbers.
    ghost rings: { Self → List ℕ };

    /// A Send came to its end whose message, of `len` bytes that nothing kept, is longer than the ring
    /// of its channel: the violation that it is.
    fn refuse_in(&mut self, context: &C, channel: Channel, len: usize, body: &Unkept) -> Violation
        requires longer { IsLonger (rings self.old) channel len }
        requires all { length body.now.bytes ≡ len }
        requires most { len ≤ max_body Two }
        ensures { Self.violated result self.old (Send channel body.now.bytes) self.new };

    ghost keeps: { (p : Self) (f : AnyFrame) (q : Self) → Self.arrived p f q → rings q ≡ rings p };

    ghost keeps_refused: { (v : AnyViolation) (p : Self) (f : AnyFrame) (q : Self) → Self.violated v p f q → rings q ≡ rings p };
}

impl RingSink<()> for Peer {
    ghost use Rattle.std.specs.Prelude.{◌≡◌};
    ghost use Rattle.std.proofs.Common.{ap};
    ghost use Rattle.lc_peer.specs.Peer.{PeerState};

    ghost rings = { λ p. p.capacities };

    fn refuse_in(
        &mut self,
        _context: &(),
        channel: Channel,
        len: usize,
        _body: &Unkept,
    ) -> Violation {
        let _ring = self.capacity(channel);
        let mut book = self.server(channel);
        match book.message(len as u32) {
            Err(violation) => violation,
            Ok(()) => unreachable!(),
        }
    }

    ghost keeps = { λ p f q arrived. ap (λ (x : PeerState). x.capacities) arrived.1 };

    ghost keeps_refused = { λ v p f q violated. ap (λ (x : PeerState). x.capacities) violated.1 };
}
