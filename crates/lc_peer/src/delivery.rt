//! The bytes of a stream, delivered in pieces.
ghost use Rattle.std.specs.Prelude.{◌≡◌, ◌+◌, ◌≤◌, ℕ, List, [], length, IsTrue, false, Some, None, IfSome, IfNone, IfOk, IfErr};
ghost use Rattle.lc_frame.specs.Stored.{Stored, stored_in, fed};
ghost use Rattle.lc_frame.specs.Progress.{Feeds};
ghost use Rattle.lc_frame.specs.Begun.{BeginsAtMost};
ghost use Rattle.lc_peer.specs.Deliveries.{Delivers, DeliversTo};
ghost use Rattle.lc_peer.specs.Steps.{Steps, taken_by};
ghost use Rattle.lc_peer.specs.Longer.{FitsRings, FitsAny, FitsGreatest, KeepsFew};
ghost use Rattle.lc_peer.specs.Rings.{ReachesBy, BeginsBy, StartsBy, StartsLonger, KeepsBy};

use crate::outgrown::{Lead, Outgrown, find_in_piece, lead_up};
use crate::peer::Peer;
use crate::sink::FrameSink;
use lc_book::Violation;
use lc_frame::{Decoded, FrameFault, StreamDecoder, Version};

/// Why a delivery stopped.
#[derive(Clone, Copy, Debug, PartialEq, Eq)]
pub enum Stop {
    /// The bytes after the frames that arrived are no frame, however they go on: F1 to F3.
    /// `FrameFault::Truncated` is never met here, since a stream that stops may still go on.
    Fault(FrameFault),
    /// The frame after those that arrived breaks the rules.
    Violated(Violation),
}

/// What a delivery did.
#[must_use]
#[derive(Clone, Copy, Debug, PartialEq, Eq)]
pub struct Delivery {
    /// How many bytes of the piece were taken: all of them unless it stopped.
    pub taken: usize,
    /// How many frames arrived.
    pub frames: u64,
    /// Why it stopped, `None` where it went on to the end of the piece.
    pub stop: Option<Stop>,
}

/// What was done with what stands at the front, and how many bytes were taken for it.
#[derive(Clone, Copy)]
pub(crate) enum Step {
    Arrived(usize),
    Open(usize),
    Stopped(Stop, usize),
}

// The decoder takes the piece. Not inlined, so that the loop over the frames of a piece stays short.
#[inline(never)]
fn feed(decoder: &mut StreamDecoder, piece: &[u8]) -> usize
    ensures { Feeds decoder.old decoder.new piece.now result }
{
    decoder.feed(piece)
}

// Where the version is known and nothing is held: a frame that lies whole in the piece arrives from there.
// `None` where the frame that stands or is begun there has more than `most` bytes, and nothing is done.
#[inline(always)]
fn step_in_piece<C, S: FrameSink<C>>(
    sink: &mut S,
    context: &C,
    version: Version,
    decoder: &mut StreamDecoder,
    most: usize,
    piece: &[u8],
) -> Option<Step>
    requires { decoder.old ≡ stored_in version [] }
    ensures steps { IfSome result (λ step. Steps S.arrived S.violated step sink.old decoder.old piece.now sink.new decoder.new) }
    ensures within { IfSome result (λ step. BeginsAtMost version most piece.now) }
    ensures none { IfNone result ((sink.new ≡ sink.old) × (decoder.new ≡ decoder.old)) }
{
    let decoded = match decoder.decode_or_take(version, piece, most) {
        Some(decoded) => decoded,
        None => return None,
    };
    match decoded {
        Decoded::Whole { frame, used } => match sink.arrive_in(context, frame) {
            Ok(()) => Some(Step::Arrived(used)),
            Err(violation) => Some(Step::Stopped(Stop::Violated(violation), feed(decoder, piece))),
        },
        Decoded::More => Some(Step::Open(piece.len())),
        Decoded::Fault(fault) => Some(Step::Stopped(Stop::Fault(fault), feed(decoder, piece))),
    }
}

// The same of a frame of any length.
#[inline(never)]
fn step_in_any<C, S: FrameSink<C>>(
    sink: &mut S,
    context: &C,
    version: Version,
    decoder: &mut StreamDecoder,
    piece: &[u8],
) -> Step
    requires { decoder.old ≡ stored_in version [] }
    ensures { Steps S.arrived S.violated result sink.old decoder.old piece.now sink.new decoder.new }
{
    match step_in_piece(sink, context, version, decoder, usize::MAX, piece) {
        Some(step) => step,
        None => complete(sink, context, decoder, piece),
    }
}

// The same without a call while a whole frame stands, of which the decoder takes nothing more.
#[inline(always)]
fn feed_open(decoder: &mut StreamDecoder, piece: &[u8]) -> usize
    ensures { Feeds decoder.old decoder.new piece.now result }
{
    let _stored = decoder.stored();
    match decoder.frame() {
        Some(_frame) => 0,
        None => feed(decoder, piece),
    }
}

// After so many bytes were fed: the frame that stands arrives.
#[inline(always)]
fn settle<C, S: FrameSink<C>>(
    sink: &mut S,
    context: &C,
    decoder: &mut StreamDecoder,
    taken: usize,
) -> Step
    ensures steps { (old : Stored) (piece : List ℕ) → Feeds old decoder.old piece taken → Steps S.arrived S.violated result sink.old old piece sink.new decoder.new }
    ensures kept { (rings : List ℕ) → KeepsFew rings decoder.old → KeepsFew rings decoder.new }
{
    match decoder.frame() {
        Some(frame) => match sink.arrive_in(context, frame) {
            Ok(()) => {
                decoder.clear();
                Step::Arrived(taken)
            }
            Err(violation) => Step::Stopped(Stop::Violated(violation), taken),
        },
        None => match decoder.fault() {
            Some(fault) => Step::Stopped(Stop::Fault(fault), taken),
            None => Step::Open(taken),
        },
    }
}

// Where part of a frame or of a greeting is held, or a whole frame: it is completed there.
fn complete<C, S: FrameSink<C>>(
    sink: &mut S,
    context: &C,
    decoder: &mut StreamDecoder,
    piece: &[u8],
) -> Step
    ensures { Steps S.arrived S.violated result sink.old decoder.old piece.now sink.new decoder.new }
{
    let taken = feed_open(decoder, piece);
    settle(sink, context, decoder, taken)
}

// Where few bytes are held and few come: the frame that stands or is begun then is looked at once, both for
// what it is and for its length. `None` where it may be longer than its ring, or where more bytes are held
// or come, and nothing is done.
#[inline(always)]
fn step_in_few<C, S: FrameSink<C>>(
    sink: &mut S,
    context: &C,
    decoder: &mut StreamDecoder,
    most: usize,
    piece: &[u8],
) -> Option<Step>
    ensures steps { IfSome result (λ step. Steps S.arrived S.violated step sink.old decoder.old piece.now sink.new decoder.new) }
    ensures kept { IfSome result (λ step. (rings : List ℕ) → FitsAny most rings → KeepsFew rings decoder.old → KeepsFew rings decoder.new) }
    ensures none { IfNone result ((sink.new ≡ sink.old) × (decoder.new ≡ decoder.old)) }
{
    let _stored = decoder.stored();
    match decoder.feed_few(piece, most) {
        Some(taken) => {
            let _fed = decoder.stored();
            Some(settle(sink, context, decoder, taken))
        }
        None => None,
    }
}

// Where something is held. A piece that leaves a frame as open as it was is only taken in.
fn step_in_decoder<C, S: FrameSink<C>>(
    sink: &mut S,
    context: &C,
    decoder: &mut StreamDecoder,
    piece: &[u8],
) -> Step
    ensures steps { Steps S.arrived S.violated result sink.old decoder.old piece.now sink.new decoder.new }
    ensures kept { (rings : List ℕ) → FitsRings rings (fed decoder.old piece.now) → FitsGreatest rings (length decoder.old.bytes) → KeepsFew rings decoder.new }
{
    let _stored = decoder.stored();
    if decoder.take_part(piece) {
        return Step::Open(piece.len());
    }
    complete(sink, context, decoder, piece)
}

// Where the version is known and nothing is held: one step, or the Send at the front, if it is longer than
// its ring, of which no byte is taken.
#[inline(always)]
fn step_or_find<C, S: FrameSink<C>>(
    sink: &mut S,
    context: &C,
    version: Version,
    decoder: &mut StreamDecoder,
    rings: &[u32],
    most: usize,
    piece: &[u8],
) -> Result<Step, Outgrown>
    requires { decoder.old ≡ stored_in version [] }
    ensures steps { IfOk result (λ step. Steps S.arrived S.violated step sink.old decoder.old piece.now sink.new decoder.new) }
    ensures kept { IfOk result (λ step. FitsAny most rings.now → KeepsFew rings.now decoder.new) }
    ensures longer { IfErr result (λ o. StartsLonger rings.now decoder.old piece.now o) }
    ensures same { IfErr result (λ o. (sink.new ≡ sink.old) × (decoder.new ≡ decoder.old)) }
{
    let _stored = decoder.stored();
    match step_in_piece(sink, context, version, decoder, most, piece) {
        Some(step) => Ok(step),
        None => match find_in_piece(version, rings, piece) {
            Some(outgrown) => Err(outgrown),
            None => Ok(step_in_any(sink, context, version, decoder, piece)),
        },
    }
}

/// How far a delivery went: the first Send that is longer than its ring, if it came to one.
#[derive(Clone, Copy)]
pub(crate) struct Reached {
    pub delivery: Delivery,
    pub outgrown: Option<Outgrown>,
}

// How a delivery begins: it goes on between two frames, behind so many bytes and frames, or it has ended.
#[derive(Clone, Copy)]
enum Start {
    GoesOn { taken: usize, frames: u64 },
    Ended(Reached),
}

// How a delivery begins by its first step, in a piece of so many bytes, of which so many were taken before.
#[inline(always)]
fn start_by(step: Step, taken: usize, len: usize) -> Start
    requires { taken + taken_by step ≤ len }
    ensures { StartsBy step taken len result }
{
    let (count, frames, stop) = match step {
        Step::Arrived(count) if taken + count < len => {
            return Start::GoesOn {
                taken: taken + count,
                frames: 1,
            };
        }
        Step::Arrived(count) => (count, 1, None),
        Step::Open(count) => (count, 0, None),
        Step::Stopped(stop, count) => (count, 0, Some(stop)),
    };
    Start::Ended(Reached {
        delivery: Delivery {
            taken: taken + count,
            frames,
            stop,
        },
        outgrown: None,
    })
}

// Whether it stands between two frames: the version is known, and nothing is held.
#[inline(always)]
fn is_between(decoder: &StreamDecoder) -> bool
    ensures yes { IsTrue result → (version : Version) × (decoder.now ≡ stored_in version []) }
    ensures no { result ≡ false → (version : Version) → ¬ (decoder.now ≡ stored_in version []) }
{
    let stored = decoder.stored();
    match decoder.version() {
        Some(_) => stored == 0,
        None => false,
    }
}

// Where more is held or comes: first the bytes that a header lacks, then one step in what is held.
#[inline(always)]
fn begin_by_head<C, S: FrameSink<C>>(
    sink: &mut S,
    context: &C,
    decoder: &mut StreamDecoder,
    rings: &[u32],
    piece: &[u8],
) -> Start
    ensures { (most : ℕ) → BeginsBy result S.arrived S.violated rings.now most sink.old decoder.old piece.now sink.new decoder.new }
{
    let _stored = decoder.stored();
    let Lead { taken, outgrown } = lead_up(rings, decoder, piece);
    if let Some(outgrown) = outgrown {
        return Start::Ended(comes_to(taken, 0, outgrown));
    }
    if is_between(decoder) {
        return Start::GoesOn { taken, frames: 0 };
    }
    let step = step_in_decoder(sink, context, decoder, piece.split_at(taken).1);
    start_by(step, taken, piece.len())
}

// What is held is gone on with, up to where a delivery stands between two frames.
#[inline(always)]
fn begin<C, S: FrameSink<C>>(
    sink: &mut S,
    context: &C,
    decoder: &mut StreamDecoder,
    rings: &[u32],
    most: usize,
    piece: &[u8],
) -> Start
    ensures { BeginsBy result S.arrived S.violated rings.now most sink.old decoder.old piece.now sink.new decoder.new }
{
    let _stored = decoder.stored();
    if is_between(decoder) {
        return Start::GoesOn {
            taken: 0,
            frames: 0,
        };
    }
    match step_in_few(sink, context, decoder, most, piece) {
        Some(step) => start_by(step, 0, piece.len()),
        None => begin_by_head(sink, context, decoder, rings, piece),
    }
}

/// Delivers a piece up to the first Send that is longer than its channel's ring, where the bytes of
/// the rings are named: of that no byte behind its header is taken. A Send of at most `most` bytes is
/// known to fit its ring, whichever that is.
pub(crate) fn deliver_up_to<C, S: FrameSink<C>>(
    sink: &mut S,
    context: &C,
    decoder: &mut StreamDecoder,
    rings: &[u32],
    most: usize,
    piece: &[u8],
) -> Reached
    ensures reaches { ReachesBy result.outgrown S.arrived S.violated rings.now sink.old decoder.old piece.now sink.new decoder.new result.delivery }
    ensures kept { FitsAny most rings.now → KeepsFew rings.now decoder.old → KeepsBy result.outgrown rings.now decoder.new }
{
    let _stored = decoder.stored();
    let (mut taken, mut frames) = match begin(sink, context, decoder, rings, most, piece) {
        Start::GoesOn { taken, frames } => (taken, frames),
        Start::Ended(reached) => return reached,
    };
    let Some(version) = decoder.version() else {
        unreachable!();
    };
    'frames: loop {
        let rest = piece.split_at(taken).1;
        let step = match step_or_find(sink, context, version, decoder, rings, most, rest) {
            Ok(step) => step,
            Err(outgrown) => return comes_to(taken, frames, outgrown),
        };
        let (count, stop) = match step {
            Step::Arrived(count) if taken + count < piece.len() => {
                taken += count;
                frames += 1;
                continue 'frames;
            }
            Step::Arrived(count) => {
                frames += 1;
                (count, None)
            }
            Step::Open(count) => (count, None),
            Step::Stopped(stop, count) => (count, Some(stop)),
        };
        taken += count;
        return Reached {
            delivery: Delivery {
                taken,
                frames,
                stop,
            },
            outgrown: None,
        };
    }
}

// It came to a Send that is longer than its ring.
fn comes_to(taken: usize, frames: u64, outgrown: Outgrown) -> Reached
    ensures { result ≡ record { delivery = record { taken = taken; frames = frames; stop = None }; outgrown = Some outgrown } }
{
    Reached {
        delivery: Delivery {
            taken,
            frames,
            stop: None,
        },
        outgrown: Some(outgrown),
    }
}

/// What `Peer::deliver` does, at any sink.
pub fn deliver_to<C, S: FrameSink<C>>(
    sink: &mut S,
    context: &C,
    decoder: &mut StreamDecoder,
    piece: &[u8],
) -> Delivery
    ensures { DeliversTo S.arrived S.violated sink.old decoder.old piece.now sink.new decoder.new result }
{
    let reached = deliver_up_to(sink, context, decoder, &[], usize::MAX, piece);
    reached.delivery
}

impl Peer {
    /// Bytes of a stream of either version arrive, which may be cut anywhere: the frames of those that the decoder
    /// holds and of the piece, in order, up to the first fault or violation. It takes no memory,
    /// and a frame that lies whole in the piece is not copied on its way to the ring.
    ///
    /// After a fault every further call answers it and takes nothing. After a violation the frame
    /// stands in the decoder, and a further call judges it anew, by the books of that moment: so
    /// who holds the peer ends the session there. Bytes of the piece after those that were taken
    /// are the caller's. An empty piece is lawful: a frame that stands in the decoder arrives.
    pub fn deliver(&mut self, decoder: &mut StreamDecoder, piece: &[u8]) -> Delivery
        ensures { Delivers self.old decoder.old piece.now self.new decoder.new result }
    {
        deliver_to(self, &(), decoder, piece)
    }
}
