//! The bytes of a stream on their way to a sink whose rings have known sizes.
ghost use Rattle.std.specs.Prelude.{◌≡◌, ◌+◌, ◌<◌, ℕ, List, [], length, Some, None, All, IfOk, IfSome, IsSome};
ghost use Rattle.lc_frame.specs.declared.frame_fault.FrameFault.TheVariants.{BadTag};
ghost use Rattle.lc_frame.specs.declared.kind.Kind.TheVariants.{Send};
ghost use Rattle.lc_frame.specs.Kind.{IsInRange};
ghost use Rattle.lc_frame.specs.Stored.{Stored, nothing_stored, IsUndecided, IsSettled, HasFault};
ghost use Rattle.lc_frame.specs.declared.fill.Filled.TheVariants.{Few};
ghost use Rattle.lc_frame.specs.Fill.{FilledAs, LacksMore};
ghost use Rattle.lc_peer.specs.Deliveries.{DeliversTo};
ghost use Rattle.lc_peer.specs.Intake.{IntakeEnds, GivesUp};
ghost use Rattle.lc_peer.specs.Longer.{FitsRings, KeepsFew};
ghost use Rattle.lc_peer.specs.Offending.{ShowsHead, last_byte};
ghost use Rattle.lc_peer.specs.Skips.{stop_by, Goes};
ghost use Rattle.lc_peer.specs.RingIntake.{IsSkip, IsKept, KeepsWith, held_of};

use crate::delivery::{Delivery, Reached, Stop, deliver_up_to};
use crate::frame_head::FrameHead;
use crate::outgrown::{Outgrown, head_len};
use crate::ring_sink::RingSink;
use crate::rings::Rings;
use crate::skip::{Skip, Skipped, skip_on};
use crate::unkept::Unkept;
use lc_book::Violation;
use lc_frame::{CHANNELS, Fill, Filled, FrameFault, Kind, OutOfRange, StreamDecoder};
use std::alloc::{AllocError, Global};
use std::fmt;
use std::fmt::{Debug, Formatter};
use std::marker::Model;

/// What [`Intake`](crate::Intake) is, for one sink whose rings keep their sizes. It answers the same,
/// and of a Send that is longer than its ring it keeps at most the tag and the length, and no byte of
/// the message: it counts them to their end. So it never keeps more than the greatest ring has, and
/// the 9 bytes of the longest tag and number.
#[derive(Drop)]
pub struct RingIntake {
    decoder: StreamDecoder,
    rings: Rings,
    skip: Option<Skip>,
    stop: Option<Stop>,
}

impl Model for RingIntake {
    ghost use Rattle.std.specs.Prelude.{length};
    ghost use Rattle.lc_peer.specs.Intake.{IntakeState};
    ghost use Rattle.lc_peer.specs.RingIntake.{IsRingIntake, held_with};

    ghost Value = { IntakeState };

    ghost view = { λ i. record { held = held_with i.decoder i.skip; kept = length i.decoder.bytes; stop = i.stop; rings = i.rings } };

    ghost invariant = { λ i. IsRingIntake i.decoder i.rings i.skip i.stop };
}

// What a delivery did, and what is not kept of a Send, if it came to one that is longer than its ring.
#[derive(Drop)]
struct Went {
    delivery: Delivery,
    skip: Option<Skip>,
}

// Why a delivery stopped, by the violation that it met.
fn stop_by(violation: Option<Violation>) -> Option<Stop>
    ensures { result ≡ stop_by violation }
{
    match violation {
        Some(violation) => Some(Stop::Violated(violation)),
        None => None,
    }
}

// Where no message is on its way that is not kept.
fn deliver_kept<C, S: RingSink<C>>(
    sink: &mut S,
    context: &C,
    decoder: &mut StreamDecoder,
    rings: &Rings,
    piece: &[u8],
) -> Went
    requires rings { S.rings sink.old ≡ rings.now }
    requires kept { KeepsFew rings.now decoder.old }
    ensures goes { Goes S.FrameSink.arrived S.FrameSink.violated rings.now sink.old decoder.old piece.now sink.new decoder.new result.skip result.delivery }
    ensures kept { KeepsWith rings.now result.skip decoder.new }
{
    let _stored = decoder.stored();
    let Reached { delivery, outgrown } = deliver_up_to(
        sink,
        context,
        decoder,
        rings.as_slice(),
        rings.most(),
        piece,
    );
    match outgrown {
        None => Went {
            delivery,
            skip: None,
        },
        Some(found) => {
            let rest = piece.split_at(delivery.taken).1.split_at(found.behind).1;
            let Skipped {
                skip,
                count,
                violation,
            } = skip_on(sink, context, begun(found), rest);
            Went {
                delivery: Delivery {
                    taken: delivery.taken + (found.behind + count),
                    frames: delivery.frames,
                    stop: stop_by(violation),
                },
                skip: Some(skip),
            }
        }
    }
}

// A Send of whose message nothing came yet.
fn begun(found: Outgrown) -> Skip
    ensures fields { (result.version ≡ found.version) × (result.channel ≡ found.channel) × (result.len ≡ found.len) × (result.missing ≡ found.len) }
    ensures body { result.body.bytes ≡ [] }
{
    Skip {
        version: found.version,
        channel: found.channel,
        len: found.len,
        missing: found.len,
        body: Unkept::none(),
    }
}

// Where bytes of a message come that is not kept.
fn deliver_unkept<C, S: RingSink<C>>(sink: &mut S, context: &C, skip: Skip, piece: &[u8]) -> Went
    requires skip { IsSkip (S.rings sink.old) skip }
    requires missing { 0 < skip.missing }
    ensures goes { Goes S.FrameSink.arrived S.FrameSink.violated (S.rings sink.old) sink.old (held_of skip) piece.now sink.new nothing_stored result.skip result.delivery }
    ensures some { IsSome result.skip }
    ensures kept { (rings : List ℕ) (decoder : Stored) → KeepsWith rings (Some skip) decoder → KeepsWith rings result.skip decoder }
{
    let Skipped {
        skip,
        count,
        violation,
    } = skip_on(sink, context, skip, piece);
    Went {
        delivery: Delivery {
            taken: count,
            frames: 0,
            stop: stop_by(violation),
        },
        skip: Some(skip),
    }
}

// Inside a Send that is begun, bytes of its message come to where they are held.
fn fill_begun<R, F: Fill<R>>(decoder: &mut StreamDecoder, filler: &F, source: &mut R) -> Filled
    ensures held { FilledAs F.fills result source.old source.new decoder.old decoder.new }
    ensures kept { (rings : List ℕ) → KeepsFew rings decoder.old → KeepsFew rings decoder.new }
    ensures few { result ≡ Few → ¬ LacksMore decoder.old }
    ensures bytes { All (λ b. b < 256) decoder.new.bytes }
{
    let stored = decoder.stored();
    let Some(version) = decoder.version() else {
        return Filled::Few;
    };
    if stored < head_len(version) {
        return Filled::Few;
    }
    let filled = decoder.fill(filler, source);
    let _stored = decoder.stored();
    filled
}

// How many bytes came of a Send whose message is not kept.
fn came_of(skip: &Skip) -> usize
    requires in_range { IsInRange skip.now.version Send skip.now.len }
    requires counted { skip.now.missing + length skip.now.body.bytes ≡ skip.now.len }
    ensures { result ≡ length (held_of skip.now).bytes }
{
    let _most = skip.version.max_frame();
    head_len(skip.version) + (skip.len - skip.missing)
}

// Its head, once it is whole.
fn head_of_skip(skip: &Skip) -> Option<FrameHead>
    requires in_range { IsInRange skip.now.version Send skip.now.len }
    requires counted { skip.now.missing + length skip.now.body.bytes ≡ skip.now.len }
    ensures { ShowsHead result (held_of skip.now) }
{
    if skip.missing > 0 {
        return None;
    }
    Some(FrameHead {
        kind: Kind::Send,
        channel: skip.channel,
        number: Some(skip.len as u64),
    })
}

// The head of the frame that a decoder holds, or of a number that is out of range.
fn head_of_held(decoder: &StreamDecoder) -> Option<FrameHead>
    ensures { ShowsHead result decoder.now }
{
    if let Some(frame) = decoder.frame() {
        return Some(FrameHead::of(frame));
    }
    let OutOfRange {
        kind,
        channel,
        number,
    } = decoder.out_of_range()?;
    Some(FrameHead {
        kind,
        channel,
        number: Some(number),
    })
}

// The byte that is no tag, or that differs from a greeting, where a decoder holds one.
fn bad_byte_in(decoder: &StreamDecoder) -> Option<u8>
    ensures bad { HasFault BadTag decoder.now → result ≡ last_byte decoder.now }
    ensures none { ¬ HasFault BadTag decoder.now → result ≡ None }
{
    match decoder.fault()? {
        FrameFault::BadTag => {
            let held = decoder.bytes();
            held.get(held.len().saturating_sub(1)).copied()
        }
        FrameFault::ZeroLength | FrameFault::BadNumber | FrameFault::Truncated => None,
    }
}

impl Debug for RingIntake {
    fn fmt<W: fmt::Write>(&self, f: &mut Formatter<W>) -> fmt::Result {
        f.debug_struct("RingIntake").finish_non_exhaustive()
    }
}

impl RingIntake {
    /// The start of a stream, to a sink whose rings have so many bytes. It takes the memory for
    /// `MAX_FRAME` bytes here and none later; the error is want of it.
    pub fn new(alloc: Global, rings: [u32; CHANNELS]) -> Result<RingIntake, AllocError>
        ensures { IfOk result (λ intake. intake ≡ record { held = nothing_stored; kept = 0; stop = None; rings = rings }) }
    {
        Ok(RingIntake {
            decoder: StreamDecoder::new(alloc)?,
            rings: Rings::new(rings),
            skip: None,
            stop: None,
        })
    }

    /// Why the stream was given up, `None` while it goes on.
    pub fn stop(&self) -> Option<Stop>
        ensures value { result ≡ self.now.stop }
        ensures undecided { result ≡ None → IsUndecided self.now.held }
        ensures bytes { All (λ b. b < 256) self.now.held.bytes }
        ensures settled { IsSettled self.now.held }
    {
        let _stored = self.decoder.stored();
        self.stop
    }

    /// How many bytes of the stream are kept in memory: all that came since the last whole frame, unless
    /// they begin a message that is longer than its ring, of which at most the tag and the length are.
    pub fn kept(&self) -> usize
        ensures value { result ≡ self.now.kept }
        ensures little { IsKept self.now }
    {
        self.decoder.stored()
    }

    /// How many bytes of the stream came since the last whole frame, whether they are kept or not. A
    /// caller that counts the bytes that [`deliver`](RingIntake::deliver) took has by it the offset of
    /// the frame that broke the rules.
    pub fn begun(&self) -> usize
        ensures { result ≡ length self.now.held.bytes }
    {
        match &self.skip {
            Some(skip) => came_of(skip),
            None => self.decoder.stored(),
        }
    }

    /// The head of the frame that broke the rules, after a violation, F2 or F3; `None` where neither a
    /// whole frame nor a number that is out of range is held.
    pub fn offending(&self) -> Option<FrameHead>
        ensures { ShowsHead result self.now.held }
    {
        match &self.skip {
            Some(skip) => head_of_skip(skip),
            None => head_of_held(&self.decoder),
        }
    }

    /// The byte that is no tag, or that differs from a greeting, after `FrameFault::BadTag`.
    pub fn bad_byte(&self) -> Option<u8>
        ensures bad { HasFault BadTag self.now.held → result ≡ last_byte self.now.held }
        ensures none { ¬ HasFault BadTag self.now.held → result ≡ None }
    {
        match &self.skip {
            Some(_) => None,
            None => bad_byte_in(&self.decoder),
        }
    }

    /// What it means that the stream ends here, as [`Intake::end`](crate::Intake::end) has it.
    pub fn end(&self) -> Option<Stop>
        ensures { IntakeEnds result self.now }
    {
        match (self.stop, &self.skip) {
            (Some(stop), _) => Some(stop),
            (None, Some(_)) => Some(Stop::Fault(FrameFault::Truncated)),
            (None, None) => match self.decoder.end() {
                Ok(()) => None,
                Err(fault) => Some(Stop::Fault(fault)),
            },
        }
    }

    /// The next bytes of the stream arrive at the sink, as [`Intake::deliver`](crate::Intake::deliver)
    /// has it.
    pub fn deliver<C, S: RingSink<C>>(
        &mut self,
        sink: &mut S,
        context: &C,
        piece: &[u8],
    ) -> Delivery
        requires rings { S.rings sink.old ≡ self.old.rings }
        ensures given_up { IfSome self.old.stop (λ stop. GivesUp stop result × (sink.new ≡ sink.old) × (self.new ≡ self.old)) }
        ensures delivers { self.old.stop ≡ None → DeliversTo S.FrameSink.arrived S.FrameSink.violated sink.old self.old.held piece.now sink.new self.new.held result }
        ensures stop { self.new.stop ≡ result.stop }
        ensures bytes { All (λ b. b < 256) piece.now }
        ensures same { self.new.rings ≡ self.old.rings }
        ensures rings { S.rings sink.new ≡ S.rings sink.old }
    {
        if let Some(stop) = self.stop {
            return Delivery {
                taken: 0,
                frames: 0,
                stop: Some(stop),
            };
        }
        let went = match self.skip.take() {
            Some(skip) => deliver_unkept(sink, context, skip, piece),
            None => deliver_kept(sink, context, &mut self.decoder, &self.rings, piece),
        };
        let Went { delivery, skip } = went;
        if let Some(skip) = skip {
            self.skip = Some(skip);
        }
        self.stop = delivery.stop;
        delivery
    }

    /// Inside a Send that is begun and fits its ring, has the memory where its message is to be held
    /// filled with the next bytes of the stream, as [`Intake::fill`](crate::Intake::fill) does; else it
    /// does nothing.
    #[inline]
    pub fn fill<R, F: Fill<R>>(&mut self, filler: &F, source: &mut R) -> Filled
        ensures held { FilledAs F.fills result source.old source.new self.old.held self.new.held }
        ensures few { result ≡ Few → FitsRings self.old.rings self.old.held → ¬ LacksMore self.old.held }
        ensures bytes { All (λ b. b < 256) self.new.held.bytes }
        ensures stop { self.new.stop ≡ self.old.stop }
        ensures rings { self.new.rings ≡ self.old.rings }
    {
        match &self.skip {
            Some(_) => Filled::Few,
            None => fill_begun(&mut self.decoder, filler, source),
        }
    }
}
