//! Intakes, as what reads a stream sees them.
ghost use Rattle.std.specs.Prelude.{◌≡◌, ◌<◌, None, All, IfSome};
ghost use Rattle.lc_frame.specs.Stored.{IsUndecided, IsSettled};
ghost use Rattle.lc_frame.specs.declared.fill.Filled.TheVariants.{Few};
ghost use Rattle.lc_frame.specs.Fill.{FilledAs, LacksMore};
ghost use Rattle.lc_peer.specs.Longer.{FitsRings};
ghost use Rattle.lc_peer.specs.Deliveries.{DeliversTo};
ghost use Rattle.lc_peer.specs.Intake.{IntakeEnds, GivesUp};

use crate::delivery::{Delivery, Stop};
use crate::intake::Intake;
use crate::ring_intake::RingIntake;
use crate::ring_sink::RingSink;
use crate::sink::FrameSink;
use lc_frame::{Fill, Filled};

/// An intake that brings frames to sinks of a type: an [`Intake`] to any, a [`RingIntake`] to those
/// whose rings it knows.
pub trait IntakeFor<C, S: FrameSink<C>> {
    ghost use Rattle.std.specs.Prelude.{ℕ, List};
    ghost use Rattle.lc_peer.specs.Intake.{IntakeState};

    // What contracts see of it.
    ghost state: { Self → IntakeState };

    // Whether an intake that was made for rings of so many bytes may bring frames to the sink.
    ghost suits: { List ℕ → S → Type 0 };

    /// Why the stream was given up, `None` while it goes on.
    fn stop(&self) -> Option<Stop>
        ensures value { result ≡ (state self.now).stop }
        ensures undecided { result ≡ None → IsUndecided (state self.now).held }
        ensures bytes { All (λ b. b < 256) (state self.now).held.bytes }
        ensures settled { IsSettled (state self.now).held };

    /// What it means that the stream ends here, as [`Intake::end`] has it.
    fn end(&self) -> Option<Stop>
        ensures { IntakeEnds result (state self.now) };

    /// The next bytes of the stream arrive at the sink, as [`Intake::deliver`] has it.
    fn deliver(&mut self, sink: &mut S, context: &C, piece: &[u8]) -> Delivery
        requires { suits (state self.old).rings sink.old }
        ensures given_up { IfSome (state self.old).stop (λ stop. GivesUp stop result × (sink.new ≡ sink.old) × (self.new ≡ self.old)) }
        ensures delivers { (state self.old).stop ≡ None → DeliversTo S.arrived S.violated sink.old (state self.old).held piece.now sink.new (state self.new).held result }
        ensures stop { (state self.new).stop ≡ result.stop }
        ensures bytes { All (λ b. b < 256) piece.now }
        ensures suits { suits (state self.new).rings sink.new }
        ensures rings { (state self.new).rings ≡ (state self.old).rings };

    /// Where more than 512 bytes are missing of what is held, has the memory behind it filled, as
    /// [`Intake::fill`] does; else, or where it keeps none of them, it does nothing.
    fn fill<R, F: Fill<R>>(&mut self, filler: &F, source: &mut R) -> Filled
        ensures held { FilledAs F.fills result source.old source.new (state self.old).held (state self.new).held }
        ensures few { result ≡ Few → FitsRings (state self.old).rings (state self.old).held → ¬ LacksMore (state self.old).held }
        ensures bytes { All (λ b. b < 256) (state self.new).held.bytes }
        ensures stop { (state self.new).stop ≡ (state self.old).stop }
        ensures rings { (state self.new).rings ≡ (state self.old).rings };
}

impl<C, S: FrameSink<C>> IntakeFor<C, S> for Intake {
    ghost use Rattle.std.specs.Prelude.{⊤};

    ghost state = { λ intake. intake };

    ghost suits = { λ rings sink. ⊤ };

    #[inline]
    fn stop(&self) -> Option<Stop> {
        Intake::stop(self)
    }

    #[inline]
    fn end(&self) -> Option<Stop> {
        Intake::end(self)
    }

    #[inline]
    fn deliver(&mut self, sink: &mut S, context: &C, piece: &[u8]) -> Delivery {
        Intake::deliver(self, sink, context, piece)
    }

    #[inline]
    fn fill<R, F: Fill<R>>(&mut self, filler: &F, source: &mut R) -> Filled {
        Intake::fill(self, filler, source)
    }
}

impl<C, S: RingSink<C>> IntakeFor<C, S> for RingIntake {
    ghost use Rattle.std.specs.Prelude.{◌≡◌};

    ghost state = { λ intake. intake };

    ghost suits = { λ rings sink. S.rings sink ≡ rings };

    #[inline]
    fn stop(&self) -> Option<Stop> {
        RingIntake::stop(self)
    }

    #[inline]
    fn end(&self) -> Option<Stop> {
        RingIntake::end(self)
    }

    #[inline]
    fn deliver(&mut self, sink: &mut S, context: &C, piece: &[u8]) -> Delivery {
        RingIntake::deliver(self, sink, context, piece)
    }

    #[inline]
    fn fill<R, F: Fill<R>>(&mut self, filler: &F, source: &mut R) -> Filled {
        RingIntake::fill(self, filler, source)
    }
}
