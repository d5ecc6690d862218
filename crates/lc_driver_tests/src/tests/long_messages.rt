//! Messages that are longer than any of version One, to a writer that takes all, fails, stops short or
//! takes nothing.
//!
//! They go out as short ones do, with what stands before and behind them in one write: a rest by itself
//! would wait, on a TCP connection that gathers short segments, until the first write is acknowledged.
use crate::tests::failing_link::FailingLink;
use crate::tests::{equal, ran};
use lc_driver::{Link, WriteFault};
use lc_frame::{Channel, FrameRef, Version};
use std::alloc::{AllocError, Global};
use std::process::Abort;
use test_devices::{Odd, Pipe, Plan};

const CHANNEL: Channel = Channel::Data;

const SHORT: &[u8] = b"abc";

/// One byte more than the longest message of version One.
const LONG: usize = 65_536;

/// How many bytes a write takes at most, and what happens at which of them; after how many bytes and
/// writes the writing ends, and how; and how many bytes are pending and how many frames wait then.
type Cut = ((usize, Odd, u64), (u64, u64, End), (usize, usize));

/// How a writing ends.
#[derive(Clone, Copy)]
enum End {
    Whole,
    Failed,
    Zero,
}

/// A short frame has 8 bytes and the long one 65,541, and all three go out together.
const CUTS: [Cut; 10] = [
    ((usize::MAX, Odd::Fails, 0), (65_557, 1, End::Whole), (0, 0)),
    ((usize::MAX, Odd::Fails, 1), (0, 1, End::Failed), (0, 3)),
    ((usize::MAX, Odd::Moves(0), 1), (0, 1, End::Zero), (0, 3)),
    (
        (usize::MAX, Odd::Moves(3), 1),
        (65_557, 2, End::Whole),
        (0, 0),
    ),
    ((3, Odd::Fails, 2), (3, 2, End::Failed), (5, 2)),
    ((8, Odd::Fails, 2), (8, 2, End::Failed), (0, 2)),
    ((9, Odd::Fails, 2), (9, 2, End::Failed), (65_540, 1)),
    (
        (40_000, Odd::Moves(0), 2),
        (40_000, 2, End::Zero),
        (25_549, 1),
    ),
    ((65_548, Odd::Fails, 2), (65_548, 2, End::Failed), (1, 1)),
    ((65_549, Odd::Fails, 2), (65_549, 2, End::Failed), (0, 1)),
];

fn hear(rt: &impl Abort, link: &mut Link) {
    let heard = link.peer.arrive(FrameRef::Issue {
        channel: CHANNEL,
        amount: 1_048_576,
    });
    equal(rt, "a promise", heard, Ok(()));
}

// A side of version Two that was promised room.
fn promised(rt: &impl Abort, alloc: Global) -> Option<FailingLink> {
    let mut side = FailingLink::new(alloc, Version::Two, 32, 32).ok()?;
    hear(rt, &mut side.link);
    Some(side)
}

fn send(rt: &impl Abort, side: &mut FailingLink, body: &[u8]) {
    let sent = side.link.peer.send(CHANNEL, body);
    equal(rt, "a send", sent, Ok(()));
}

// A side that wrote its greeting, at which the three messages wait.
fn greeted(rt: &impl Abort, alloc: Global, long: &[u8]) -> Option<FailingLink> {
    let mut side = promised(rt, alloc)?;
    let (greeted, _) = side.write(Plan::whole(), Pipe::of(Vec::new(alloc)));
    equal(rt, "a greeting", greeted, Ok(4));
    for body in [SHORT, long, SHORT] {
        send(rt, &mut side, body);
    }
    Some(side)
}

// The bytes of the three frames.
fn stream(alloc: Global, long: &[u8]) -> Result<Vec<u8>, AllocError> {
    let mut bytes = Vec::from_slice(alloc, b"\x11\x00\x00\x00\x03abc")?;
    bytes.extend_from_slice(b"\x11\x00\x01\x00\x00")?;
    bytes.extend_from_slice(long)?;
    bytes.extend_from_slice(b"\x11\x00\x00\x00\x03abc")?;
    Ok(bytes)
}

// A writing ends as is wanted. What it wrote, and after how many bytes.
fn cut_off(rt: &impl Abort, side: &mut FailingLink, empty: Pipe, cut: Cut) -> (Pipe, u64) {
    let ((most, odd, at), (written, calls, end), left) = cut;
    let wanted = match end {
        End::Whole => Ok(written),
        End::Failed => Err(WriteFault::Failed { written }),
        End::Zero => Err(WriteFault::Zero { written }),
    };
    let plan = Plan {
        most,
        ..Plan::odd(odd, at)
    };
    let (answer, writer) = side.write(plan, empty);
    let found = (side.link.pending(), side.link.peer.waiting());
    equal(
        rt,
        "a writing",
        (answer, writer.plan.calls),
        (wanted, calls),
    );
    equal(rt, "what is left", found, left);
    (writer.pipe, written)
}

// The writing ends as is wanted, and a further one goes on with the next byte.
fn is_cut(rt: &impl Abort, alloc: Global, (long, all): (&[u8], &[u8]), cut: Cut) -> Option<()> {
    let mut side = greeted(rt, alloc, long)?;
    let (pipe, written) = cut_off(rt, &mut side, Pipe::of(Vec::new(alloc)), cut);
    let (answer, writer) = side.write(Plan::whole(), pipe);
    let rest = 65_557_u64.saturating_sub(written);
    equal(rt, "a further writing", answer, Ok(rest));
    assert!(rt;
        writer.pipe.bytes.as_slice() == all,
        "other bytes are written"
    );
    Some(())
}

// A message whose bytes tell where they stand.
fn long(alloc: Global) -> Result<Vec<u8>, AllocError> {
    let mut long = Vec::new(alloc);
    for place in 0..LONG {
        long.push((place % 251) as u8)?;
    }
    Ok(long)
}

fn each_is_cut(rt: &impl Abort, alloc: Global) -> Option<()> {
    let long = long(alloc).ok()?;
    let all = stream(alloc, &long).ok()?;
    for &cut in &CUTS {
        is_cut(rt, alloc, (&long, &all), cut)?;
    }
    Some(())
}

#[test]
fn a_long_message_is_cut(rt: HostRuntime) {
    ran(&rt, each_is_cut(&rt, rt.alloc()));
}

/// Messages that are sent before anything is written; after how many bytes and writes all went out, with
/// the greeting of four bytes. One write has up to 1,048,581.
const WRITES: [(&[usize], u64, u64); 8] = [
    (&[65_535], 65_544, 1),
    (&[65_536], 65_545, 1),
    (&[65_536, 3], 65_553, 1),
    (&[69_580, 3], 69_597, 1),
    (&[65_536, 65_536], 131_086, 1),
    (&[262_144, 3], 262_161, 1),
    (&[524_288, 3], 524_305, 1),
    (&[1_048_576], 1_048_585, 2),
];

// What a side writes, at which messages of these lengths wait behind its greeting: after how many bytes
// and writes it ends.
fn write(rt: &impl Abort, alloc: Global, bytes: &[u8], lengths: &[usize]) -> Option<(u64, u64)> {
    let mut side = promised(rt, alloc)?;
    for &length in lengths {
        send(rt, &mut side, bytes.get(..length).unwrap_or(&[]));
    }
    let (answer, writer) = side.write(Plan::whole(), Pipe::of(Vec::new(alloc)));
    equal(rt, "a writing", answer, Ok(writer.pipe.bytes.len() as u64));
    Some((answer.ok()?, writer.plan.calls))
}

fn each_goes_out(rt: &impl Abort, alloc: Global) -> Option<()> {
    let bytes = vec![in alloc; 0x5a_u8; 1_048_576].ok()?;
    for &(lengths, written, calls) in &WRITES {
        let found = write(rt, alloc, &bytes, lengths);
        equal(rt, "what goes out", found, Some((written, calls)));
    }
    Some(())
}

#[test]
fn a_long_message_goes_out_with_what_stands_by_it(rt: HostRuntime) {
    ran(&rt, each_goes_out(&rt, rt.alloc()));
}
