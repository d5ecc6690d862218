//! What is measured.
ghost use Rattle.lc_frame.specs.Frame.{IsValid};

use crate::figures::{Figure, Turns};
use crate::plan::Plan;
use crate::receiver::Receiver;
use lc_frame::{Channel, Decoded, Frame, FrameRef, StreamDecoder, Version, decode};
use std::alloc::{AllocError, Global};
use std::io;

/// The bytes that a walk goes over: few enough for the second cache.
const WALK: usize = 256 * 1024;
/// The bytes of each piece that a stream decoder is fed.
const PIECE: usize = 512;

/// A call that is measured.
#[derive(Clone, Copy)]
pub enum Operation {
    EncodeInto,
    EncodeToSlice,
    Decode,
    DecodeOwned,
    Stream512,
    Deliver512,
}

impl Operation {
    /// The first part of the figure's name.
    pub fn name(self) -> &'static str {
        match self {
            Operation::EncodeInto => "encode_into",
            Operation::EncodeToSlice => "encode_to_slice",
            Operation::Decode => "decode",
            Operation::DecodeOwned => "decode_owned",
            Operation::Stream512 => "stream512",
            Operation::Deliver512 => "deliver512",
        }
    }
}

// What the version adds to the first part of a figure's name.
fn suffix(version: Version) -> &'static str {
    match version {
        Version::One => "",
        Version::Two => "_two",
    }
}

// An operation in a version over one frame, and over as many of it as a walk has, as bytes.
#[derive(Drop)]
struct Walk<'a> {
    operation: Operation,
    version: Version,
    frame: &'a Frame,
    count: usize,
    bytes: Vec<u8>,
    out: Vec<u8>,
    slice: Vec<u8>,
    decoder: StreamDecoder,
    receiver: Receiver,
    alloc: Global,
}

impl<'a> Walk<'a> {
    // The walk over a frame, which has to be valid. The greeting went before it.
    fn new(
        alloc: Global,
        operation: Operation,
        version: Version,
        frame: &'a Frame,
    ) -> io::Result<Walk<'a>> {
        if !frame.is_valid(version) {
            return Err(io::Error::other("a frame is not valid"));
        }
        let count = (WALK / frame.encoded_len(version).max(1)).max(1);
        let mut bytes = Vec::new(alloc);
        encode_into(version, frame, count, &mut bytes)?;
        let mut decoder = StreamDecoder::new(alloc)?;
        decoder.feed(version.greeting());
        Ok(Walk {
            operation,
            version,
            frame,
            count,
            out: Vec::with_capacity(alloc, bytes.len())?,
            slice: vec![in alloc; 0u8; bytes.len()]?,
            bytes,
            decoder,
            receiver: Receiver::new(alloc, version, WALK as u32)?,
            alloc,
        })
    }

    // So many turns of the operation in the version, which is the walk's.
    #[inline(always)]
    fn go_over(&mut self, version: Version, turns: u64, sum: &mut u64) -> io::Result<()> {
        match self.operation {
            Operation::EncodeInto => {
                encode_into_turns(version, self.frame, self.count, turns, &mut self.out)?;
            }
            Operation::EncodeToSlice => {
                let out = &mut self.slice;
                encode_to_slice_turns(version, self.frame, self.count, turns, out);
            }
            Operation::Decode => {
                let mut last = FrameRef::Issue {
                    channel: Channel::Data,
                    amount: 1,
                };
                decode_turns(version, &self.bytes, turns, &mut last);
                *sum = sum.wrapping_add(weight(last));
            }
            Operation::DecodeOwned => {
                decode_owned_turns(self.alloc, version, &self.bytes, turns, sum)?;
            }
            Operation::Stream512 => stream_turns(&mut self.decoder, &self.bytes, turns, sum),
            Operation::Deliver512 => {
                deliver_turns(&mut self.receiver, &self.bytes, turns, sum)?;
            }
        }
        Ok(())
    }
}

impl Turns for Walk<'_> {
    // The version is a constant in each arm, as it is in a program that has one.
    fn run(&mut self, turns: u64, sum: &mut u64) -> io::Result<()> {
        match self.version {
            Version::One => self.go_over(Version::One, turns, sum),
            Version::Two => self.go_over(Version::Two, turns, sum),
        }
    }
}

// A number that the channel and the field of the frame have to be read for.
#[inline]
fn weight(frame: FrameRef<'_>) -> u64 {
    let number = match frame {
        FrameRef::Send { body, .. } => body.len() as u64,
        FrameRef::Issue { amount, .. } | FrameRef::Absolve { amount, .. } => u64::from(amount),
        FrameRef::Plead { target, .. } => u64::from(target),
        FrameRef::LimitSending { bound, .. } | FrameRef::LimitReceiving { bound, .. } => bound,
        FrameRef::Finish { .. } => 0,
    };
    number ^ u64::from(frame.channel().number())
}

#[inline(always)]
fn encode_into_turns(
    version: Version,
    frame: &Frame,
    count: usize,
    turns: u64,
    out: &mut Vec<u8>,
) -> Result<(), AllocError> {
    if !frame.is_valid(version) {
        return Ok(());
    }
    for _ in 0..turns {
        out.clear();
        encode_into(version, frame, count, out)?;
    }
    Ok(())
}

#[inline(always)]
fn encode_into(
    version: Version,
    frame: &Frame,
    count: usize,
    out: &mut Vec<u8>,
) -> Result<(), AllocError>
    requires { IsValid version frame.now }
{
    for _ in 0..count {
        frame.view().encode_into(version, out)?;
    }
    Ok(())
}

#[inline(always)]
fn encode_to_slice_turns(
    version: Version,
    frame: &Frame,
    count: usize,
    turns: u64,
    out: &mut [u8],
) {
    if !frame.is_valid(version) {
        return;
    }
    for _ in 0..turns {
        encode_to_slice(version, frame, count, out);
    }
}

#[inline(always)]
fn encode_to_slice(version: Version, frame: &Frame, count: usize, out: &mut [u8])
    requires { IsValid version frame.now }
{
    let mut at = 0usize;
    for _ in 0..count {
        if at > out.len() {
            break;
        }
        let Ok(used) = frame.encode_to_slice(version, &mut out[at..]) else {
            break;
        };
        at = at.wrapping_add(used);
    }
}

// Each frame is written to where the last one stood, so that all of its fields are made.
#[inline(always)]
fn decode_turns<'a>(version: Version, bytes: &'a [u8], turns: u64, last: &mut FrameRef<'a>) {
    for _ in 0..turns {
        decode_all(version, bytes, last);
    }
}

#[inline(always)]
fn decode_all<'a>(version: Version, bytes: &'a [u8], last: &mut FrameRef<'a>) {
    let mut rest = bytes;
    while let Decoded::Whole { frame, used } = decode(version, rest) {
        rest = rest.split_at(used).1;
        *last = frame;
    }
}

#[inline(always)]
fn decode_owned_turns(
    alloc: Global,
    version: Version,
    bytes: &[u8],
    turns: u64,
    sum: &mut u64,
) -> Result<(), AllocError> {
    for _ in 0..turns {
        decode_owned(alloc, version, bytes, sum)?;
    }
    Ok(())
}

#[inline(always)]
fn decode_owned(
    alloc: Global,
    version: Version,
    bytes: &[u8],
    sum: &mut u64,
) -> Result<(), AllocError> {
    let mut rest = bytes;
    while let Decoded::Whole { frame, used } = decode(version, rest) {
        let owned = frame.to_frame(alloc)?;
        rest = rest.split_at(used).1;
        *sum = sum.wrapping_add(weight(owned.view()));
    }
    Ok(())
}

#[inline(never)]
fn stream_turns(decoder: &mut StreamDecoder, bytes: &[u8], turns: u64, sum: &mut u64) {
    for _ in 0..turns {
        stream(decoder, bytes, sum);
    }
}

#[inline]
fn stream(decoder: &mut StreamDecoder, bytes: &[u8], sum: &mut u64) {
    for piece in bytes.chunks(PIECE) {
        feed_piece(decoder, piece, sum);
    }
}

#[inline]
fn feed_piece(decoder: &mut StreamDecoder, piece: &[u8], sum: &mut u64) {
    let mut rest = piece;
    for _ in 0..piece.len() {
        if rest.is_empty() {
            break;
        }
        let used = decoder.feed(rest);
        rest = rest.split_at(used).1;
        if let Some(frame) = decoder.frame() {
            *sum = sum.wrapping_add(weight(frame));
            decoder.clear();
        }
    }
}

#[inline(never)]
fn deliver_turns(
    receiver: &mut Receiver,
    bytes: &[u8],
    turns: u64,
    sum: &mut u64,
) -> io::Result<()> {
    for _ in 0..turns {
        let Some(frames) = receiver.turn(bytes, PIECE) else {
            return Err(io::Error::other("a frame did not arrive"));
        };
        *sum = sum.wrapping_add(frames);
    }
    Ok(())
}

/// Takes the figures of one operation in a version at one frame.
pub fn measure(
    rt: &HostRuntime,
    plan: &Plan,
    operation: Operation,
    version: Version,
    subject: &str,
    frame: &Frame,
) -> io::Result<()> {
    let name = format!(in rt.alloc(); "{}{}.{subject}", operation.name(), suffix(version))?;
    let mut walk = Walk::new(rt.alloc(), operation, version, frame)?;
    // A body that is lent is not touched, so its bytes per second would say nothing.
    let is_lent = matches!(operation, Operation::Decode) && frame.encoded_len(version) >= 100;
    let figure = Figure {
        name: name.as_str(),
        things: "frames",
        count: walk.count,
        bytes: if is_lent {
            None
        } else {
            Some(walk.bytes.len())
        },
    };
    figure.take(rt, plan, &mut walk)
}
