//! A reader that says it gave more bytes than it wrote. The contract of a reader allows it, and what the
//! memory held that it was handed is then read as bytes of the stream.
//!
//! In a call that reads once that memory is zero. In one that reads more often a byte that was not written is
//! zero, or one of an earlier read of that very call; it is never one of a message of an earlier call.
use crate::tests::{equal, ran};
use lc_driver::{Counted, ReadEnd, read_in};
use lc_frame::{CHANNELS, Channel, FrameRef, Version};
use lc_peer::{Config, Intake, Peer, Take};
use std::alloc::{AllocError, Global};
use std::io;
use std::io::Read;
use std::process::Abort;

const CHANNEL: Channel = Channel::Data;

const CAPACITY: u32 = 65_536;

const LONGEST: usize = 4_096;

/// Lengths of messages: those of reads and of several, and some about them.
const LENGTHS: [usize; 12] = [
    1, 508, 509, 510, 1_020, 1_021, 1_022, 1_533, 1_534, 2_045, 4_000, 4_096,
];

/// How many of the bytes that it says it gave a read has written, in sixteenths: at first those of the
/// header, so all.
const WRITTEN: [usize; 8] = [16, 0, 8, 15, 1, 16, 3, 0];

// A stream of which each read after the first writes a part of what it gives. What it gave is kept, with zeros
// for what was not written.
#[derive(Drop)]
struct Lies<'a> {
    bytes: &'a [u8],
    reads: usize,
    most: usize,
    given: Vec<u8>,
}

impl<'a> Lies<'a> {
    fn new(alloc: Global, bytes: &'a [u8], most: usize) -> Lies<'a> {
        Lies {
            bytes,
            reads: 0,
            most,
            given: Vec::new(alloc),
        }
    }
}

impl Read for Lies<'_> {
    fn read(&mut self, buf: &mut [u8]) -> io::Result<usize> {
        let given = self.bytes.len().min(buf.len().min(self.most));
        let part = WRITTEN.get(self.reads % 8).copied().unwrap_or(16);
        let written = part.saturating_mul(given) / 16;
        self.reads = self.reads.saturating_add(1);
        let mut front = self.bytes.get(..written).unwrap_or(&[]);
        self.given.extend_from_slice(front)?;
        self.given.resize(
            self.given
                .len()
                .saturating_add(given.saturating_sub(written)),
            0,
        )?;
        let _written = front.read(buf)?;
        self.bytes = self.bytes.get(given..).unwrap_or(&[]);
        Ok(given)
    }
}

// A side that reads a stream.
#[derive(Drop)]
struct ReadingPeer {
    peer: Peer,
    intake: Intake,
}

impl ReadingPeer {
    fn new(alloc: Global) -> Option<ReadingPeer> {
        let config = Config {
            version: Version::Two,
            capacities: [CAPACITY; CHANNELS],
            slots: 64,
        };
        let intake = Intake::new(alloc).ok()?;
        let peer = Peer::new(alloc, config).ok()?;
        Some(ReadingPeer { peer, intake })
    }

    // Bytes come in, by calls of so many reads. How the last ends.
    fn hear(&mut self, reader: &mut Counted<Lies<'_>>, max_reads: u64) -> ReadEnd {
        for _ in 0..10_000 {
            match read_in(&mut self.peer, reader, &mut self.intake, max_reads) {
                ReadEnd::TurnsSpent => {}
                end => return end,
            }
        }
        ReadEnd::TurnsSpent
    }

    // The first message, if there is one.
    fn take(&mut self, buffer: &mut [u8; LONGEST]) -> Option<usize> {
        match self.peer.take_into(CHANNEL, buffer) {
            Ok(Take::Took(len)) => Some(len),
            _ => None,
        }
    }
}

// The bytes of a message, each of them this one.
fn frame(alloc: Global, len: usize, byte: u8) -> Result<Vec<u8>, AllocError> {
    let bytes = [byte; LONGEST];
    let body = bytes.get(..len).unwrap_or(b"a");
    let frame = FrameRef::Send {
        channel: CHANNEL,
        body,
    };
    let mut out = Vec::new(alloc);
    if frame.is_valid(Version::Two) {
        frame.encode_into(Version::Two, &mut out)?;
    }
    Ok(out)
}

// What is read in one way, and how many bytes a read gives at most.
#[derive(Clone, Copy)]
struct Round {
    len: usize,
    byte: u8,
    most: usize,
    max_reads: u64,
}

// A message comes in, and is taken.
fn hear(rt: &impl Abort, alloc: Global, side: &mut ReadingPeer, round: Round) -> Option<()> {
    let bytes = frame(alloc, round.len, round.byte).ok()?;
    let mut reader = Counted::new(Lies::new(alloc, &bytes, round.most));
    let end = side.hear(&mut reader, round.max_reads);
    equal(rt, "a reading", end, ReadEnd::Clean);
    take(rt, side, reader.into_inner().given.as_slice(), round);
    Some(())
}

// The message that was given so is taken. Its room is promised anew.
fn take(rt: &impl Abort, side: &mut ReadingPeer, given: &[u8], round: Round) {
    let mut found = [0; LONGEST];
    let taken = side.take(&mut found);
    equal(rt, "a take", taken, Some(round.len));
    is_as_given(rt, found.get(..round.len).unwrap_or(&[]), given, round);
    let room = u32::try_from(round.len).unwrap_or(0);
    equal(rt, "an issue", side.peer.issue(CHANNEL, room), Ok(()));
}

// What was not written is zero, or in a call of more reads a byte of this message.
fn is_as_given(rt: &impl Abort, found: &[u8], given: &[u8], round: Round) {
    if round.max_reads == 1 {
        assert!(rt;
            given.ends_with(found),
            "other bytes where {} are lied of",
            round.len
        );
    }
    let is_own = found.iter().all(|byte| *byte == 0 || given.contains(byte));
    assert!(rt; is_own, "bytes of another message");
}

// A side hears messages of all lengths, whose bytes tell one from another.
fn hear_all(rt: &impl Abort, alloc: Global, max_reads: u64) -> Option<()> {
    let mut side = ReadingPeer::new(alloc)?;
    greet(rt, alloc, &mut side);
    let mut byte = b' ';
    for most in [100, 512, 2_000] {
        for len in LENGTHS {
            byte = byte.wrapping_add(1);
            let round = Round {
                len,
                byte,
                most,
                max_reads,
            };
            hear(rt, alloc, &mut side, round)?;
        }
    }
    Some(())
}

// A side promises room, and the greeting comes in.
fn greet(rt: &impl Abort, alloc: Global, side: &mut ReadingPeer) {
    let mut greeting = Counted::new(Lies::new(alloc, b"LCM\x02", 512));
    let ends = (
        side.peer.issue(CHANNEL, CAPACITY),
        side.hear(&mut greeting, 1),
    );
    equal(rt, "a greeting", ends, (Ok(()), ReadEnd::Clean));
}

#[test]
fn a_call_that_reads_once_takes_zeros_for_what_was_not_written(rt: HostRuntime) {
    ran(&rt, hear_all(&rt, rt.alloc(), 1));
}

#[test]
fn no_byte_of_an_earlier_message_is_read_again(rt: HostRuntime) {
    for max_reads in [2, 3, 100] {
        ran(&rt, hear_all(&rt, rt.alloc(), max_reads));
    }
}
