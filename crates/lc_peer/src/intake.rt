//! The bytes of a stream on their way in.
ghost use Rattle.std.specs.Prelude.{◌≡◌, ◌<◌, [], None, All, IfOk, IfSome};
ghost use Rattle.lc_frame.specs.Stored.{nothing_stored, IsUndecided, IsSettled};
ghost use Rattle.lc_frame.specs.declared.fill.Filled.TheVariants.{Few};
ghost use Rattle.lc_frame.specs.Fill.{FilledAs, LacksMore};
ghost use Rattle.lc_peer.specs.Deliveries.{DeliversTo};
ghost use Rattle.lc_peer.specs.Intake.{IntakeEnds, GivesUp};

use crate::delivery::{Delivery, Stop, deliver_to};
use crate::sink::FrameSink;
use lc_frame::{Fill, Filled, StreamDecoder};
use std::alloc::{AllocError, Global};
use std::marker::Model;

/// What was read of a stream of either version and is no whole frame yet, and why the stream was given up, if it was.
#[derive(Debug, Drop)]
pub struct Intake {
    decoder: StreamDecoder,
    stop: Option<Stop>,
}

impl Model for Intake {
    ghost use Rattle.std.specs.Prelude.{[], length};
    ghost use Rattle.lc_peer.specs.Intake.{IntakeState, IsOpenUnlessStopped};

    ghost Value = { IntakeState };

    ghost view = { λ intake. record { held = intake.decoder; kept = length intake.decoder.bytes; stop = intake.stop; rings = [] } };

    ghost invariant = { λ intake. IsOpenUnlessStopped intake.decoder intake.stop };
}

impl Intake {
    /// The start of a stream. It takes the memory for `MAX_FRAME` bytes here and none later; the
    /// error is want of it.
    pub fn new(alloc: Global) -> Result<Intake, AllocError>
        ensures { IfOk result (λ intake. intake ≡ record { held = nothing_stored; kept = 0; stop = None; rings = [] }) }
    {
        Ok(Intake {
            decoder: StreamDecoder::new(alloc)?,
            stop: None,
        })
    }

    /// Why the stream was given up, `None` while it goes on.
    pub fn stop(&self) -> Option<Stop>
        ensures value { result ≡ self.now.stop }
        ensures undecided { result ≡ None → IsUndecided self.now.held }
        ensures bytes { All (λ b. b < 256) self.now.held.bytes }
        ensures settled { IsSettled self.now.held }
    {
        let _stored = self.decoder.stored();
        self.stop
    }

    /// What it means that the stream ends here: why it was given up, `FrameFault::Truncated` inside
    /// a frame or a greeting, and nothing elsewhere.
    pub fn end(&self) -> Option<Stop>
        ensures { IntakeEnds result self.now }
    {
        match self.stop {
            Some(stop) => Some(stop),
            None => match self.decoder.end() {
                Ok(()) => None,
                Err(fault) => Some(Stop::Fault(fault)),
            },
        }
    }

    /// The next bytes of the stream arrive at a sink, as `Peer::deliver` has it. Where the stream was
    /// given up, none does, and the answer is the same for good.
    pub fn deliver<C, S: FrameSink<C>>(
        &mut self,
        sink: &mut S,
        context: &C,
        piece: &[u8],
    ) -> Delivery
        ensures given_up { IfSome self.old.stop (λ stop. GivesUp stop result × (sink.new ≡ sink.old) × (self.new ≡ self.old)) }
        ensures delivers { self.old.stop ≡ None → DeliversTo S.arrived S.violated sink.old self.old.held piece.now sink.new self.new.held result }
        ensures stop { self.new.stop ≡ result.stop }
        ensures rings { self.new.rings ≡ self.old.rings }
        ensures bytes { All (λ b. b < 256) piece.now }
    {
        if let Some(stop) = self.stop {
            return Delivery {
                taken: 0,
                frames: 0,
                stop: Some(stop),
            };
        }
        let delivery = deliver_to(sink, context, &mut self.decoder, piece);
        self.stop = delivery.stop;
        delivery
    }

    /// Inside a frame that lacks more than 512 bytes, has the memory where they are to be held filled
    /// with the next bytes of the stream, and holds those that were given; else it does nothing.
    #[inline]
    pub fn fill<R, F: Fill<R>>(&mut self, filler: &F, source: &mut R) -> Filled
        ensures held { FilledAs F.fills result source.old source.new self.old.held self.new.held }
        ensures few { result ≡ Few → ¬ LacksMore self.old.held }
        ensures bytes { All (λ b. b < 256) self.new.held.bytes }
        ensures stop { self.new.stop ≡ self.old.stop }
        ensures rings { self.new.rings ≡ self.old.rings }
    {
        let filled = self.decoder.fill(filler, source);
        let _stored = self.decoder.stored();
        filled
    }
}
