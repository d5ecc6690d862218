//! Messages about as long as their rings, read by a link, of which it keeps none that is longer, and by
//! a peer whose intake keeps whatever comes: both answer the same.
use crate::tests::{equal, ran};
use lc_driver::{Counted, Failures, Link, ReadEnd, read_in};
use lc_frame::{CHANNELS, Channel, FrameRef, Version};
use lc_peer::{Config, Intake, Peer, Take, Violation};
use std::alloc::{AllocError, Global};
use std::io;
use std::io::Read;
use std::process::Abort;

/// The bytes of the rings, by the channels' numbers.
const RINGS: [u32; CHANNELS] = [1, 7, 16, 40, 90, 300, 512];

const LONGEST: usize = 1_100;

/// How much longer than one byte less than its ring a message is.
const MORE: [usize; 4] = [0, 1, 2, 514];

/// The bytes of the longest tag and length of a Send.
const HEADER: usize = 5;

// Numbers that look random.
#[derive(Clone, Copy)]
struct Made(u64);

impl Made {
    // The next of many numbers below this one.
    fn below(&mut self, most: usize) -> usize {
        self.0 = self
            .0
            .wrapping_mul(6_364_136_223_846_793_005)
            .wrapping_add(1_442_695_040_888_963_407);
        (self.0 >> 33) as usize % most.max(1)
    }

    // Whether one of so many comes.
    fn one_in(&mut self, most: usize) -> bool {
        self.below(most) == 0
    }
}

// Appends the frame, if it is one of this version.
fn append(version: Version, frame: FrameRef<'_>, out: &mut Vec<u8>) -> Result<(), AllocError> {
    if frame.is_valid(version) {
        frame.encode_into(version, out)?;
    }
    Ok(())
}

// The most bytes that one read gives: what both sides have memory for.
const GIVEN: usize = 512;

// A reader whose first reads give so many bytes together, and no more at once.
#[derive(Drop)]
struct Cut<'a> {
    bytes: &'a [u8],
    before: usize,
}

impl Read for Cut<'_> {
    fn read(&mut self, buf: &mut [u8]) -> io::Result<usize> {
        let room = buf.len().min(GIVEN);
        let most = if self.before > 0 {
            self.before.min(room)
        } else {
            room
        };
        let given = self.bytes.read(&mut buf[..most])?;
        self.before = self.before.saturating_sub(given);
        Ok(given)
    }
}

// How a reading ended, how many reads it made, and how many bytes it left.
fn came_of(end: ReadEnd, reader: Counted<Cut<'_>>) -> (ReadEnd, u64, usize) {
    (end, reader.calls(), reader.into_inner().bytes.len())
}

// A side that reads by a link, and one that keeps whatever comes.
#[derive(Drop)]
struct Sides {
    link: Link,
    peer: Peer,
    intake: Intake,
}

impl Sides {
    fn new(alloc: Global) -> Option<Sides> {
        let config = Config {
            version: Version::One,
            capacities: RINGS,
            slots: 8,
        };
        Some(Sides {
            link: Link::new(alloc, config).ok()?,
            peer: Peer::new(alloc, config).ok()?,
            intake: Intake::new(alloc).ok()?,
        })
    }

    fn issue(&mut self, channel: Channel, amount: u32) {
        let _ = self.link.peer.issue(channel, amount);
        let _ = self.peer.issue(channel, amount);
    }

    // Both read the bytes, cut after so many. What both answer.
    fn read(&mut self, rt: &impl Abort, bytes: &[u8], before: usize) -> ReadEnd {
        let mut one = Counted::new(Cut { bytes, before });
        let mut two = Counted::new(Cut { bytes, before });
        let end = self.link.read_in(&mut one, 9);
        let wanted = read_in(&mut self.peer, &mut two, &mut self.intake, 9);
        equal(
            rt,
            "a reading by a link",
            came_of(end, one),
            came_of(wanted, two),
        );
        end
    }

    // Both have the same first message. Its length.
    fn take(&mut self, rt: &impl Abort, channel: Channel) -> Option<usize> {
        let (mut one, mut two) = ([7; LONGEST], [7; LONGEST]);
        let found = self.link.peer.take_into(channel, &mut one);
        let wanted = self.peer.take_into(channel, &mut two);
        equal(rt, "a take by a link", found, wanted);
        assert!(rt; one == two, "a message of other bytes");
        match found {
            Ok(Take::Took(len)) => Some(len),
            _ => None,
        }
    }
}

// Appends a Send of so many bytes.
fn append_send(
    version: Version,
    channel: Channel,
    len: usize,
    out: &mut Vec<u8>,
) -> Result<(), AllocError> {
    let bytes = [0x5a; LONGEST];
    let body = bytes.get(..len).unwrap_or(&bytes);
    append(version, FrameRef::Send { channel, body }, out)
}

// A stream of one message.
fn stream_of(
    alloc: Global,
    version: Version,
    channel: Channel,
    len: usize,
) -> Result<Vec<u8>, AllocError> {
    let mut out = Vec::from_slice(alloc, version.greeting())?;
    append_send(version, channel, len, &mut out)?;
    Ok(out)
}

fn ring_of(channel: Channel) -> usize {
    RINGS[channel.index()] as usize
}

const NOT_GUARANTEED: ReadEnd = ReadEnd::Violated(Violation::NotGuaranteed);

// A message is longer than its ring: nothing of it is kept, and nothing more arrives.
fn is_refused(rt: &impl Abort, sides: &mut Sides, channel: Channel, end: ReadEnd) {
    equal(rt, "a longer message", end, NOT_GUARANTEED);
    let kept = sides.link.kept();
    assert!(rt; kept <= HEADER, "{kept} bytes are kept");
    let end = sides.read(rt, b"\x10\x00\x01a", 0);
    equal(rt, "a further one", end, NOT_GUARANTEED);
    equal(rt, "a take", sides.take(rt, channel), None);
}

// A message that all guarantees of its ring were issued for: it arrives, unless it is longer.
fn came(
    rt: &impl Abort,
    sides: &mut Sides,
    channel: Channel,
    len: usize,
    (bytes, before): (&[u8], usize),
) {
    sides.issue(channel, RINGS[channel.index()]);
    let end = sides.read(rt, bytes, before);
    if len > ring_of(channel) {
        is_refused(rt, sides, channel, end);
        return;
    }
    equal(rt, "a message", end, ReadEnd::Clean);
    equal(rt, "a take", sides.take(rt, channel), Some(len));
}

// The same cut after each byte.
fn came_cut_anywhere(
    rt: &impl Abort,
    alloc: Global,
    version: Version,
    channel: Channel,
    len: usize,
) -> Option<()> {
    let bytes = stream_of(alloc, version, channel, len).ok()?;
    for before in 0..bytes.len() {
        came(rt, &mut Sides::new(alloc)?, channel, len, (&bytes, before));
    }
    Some(())
}

fn messages_of(rt: &impl Abort, alloc: Global, version: Version) {
    for channel in Channel::ALL {
        for more in MORE {
            let len = ring_of(channel).saturating_sub(1).saturating_add(more);
            if len > 0 {
                ran(rt, came_cut_anywhere(rt, alloc, version, channel, len));
            }
        }
    }
}

#[test]
fn messages_about_their_ring(rt: HostRuntime) {
    messages_of(&rt, rt.alloc(), Version::One);
}

#[test]
fn messages_about_their_ring_in_two(rt: HostRuntime) {
    messages_of(&rt, rt.alloc(), Version::Two);
}

// Inside a message as long as its ring all that came of it is kept.
fn is_kept_inside(
    rt: &impl Abort,
    alloc: Global,
    version: Version,
    channel: Channel,
) -> Option<()> {
    let bytes = stream_of(alloc, version, channel, ring_of(channel)).ok()?;
    let greeting = version.greeting().len();
    for came in greeting..bytes.len() {
        let mut sides = Sides::new(alloc)?;
        let (part, _) = bytes.as_slice().split_at(came);
        let _ = sides.read(rt, part, 0);
        let kept = sides.link.kept().saturating_add(greeting);
        equal(rt, "the bytes of a message", kept, came);
    }
    Some(())
}

#[test]
fn a_message_that_fits_is_kept(rt: HostRuntime) {
    for channel in Channel::ALL {
        ran(&rt, is_kept_inside(&rt, rt.alloc(), Version::One, channel));
        ran(&rt, is_kept_inside(&rt, rt.alloc(), Version::Two, channel));
    }
}

// A stream of a Finish and a message that is longer than its ring.
fn finished_stream(alloc: Global, channel: Channel) -> Result<Vec<u8>, AllocError> {
    let version = Version::Two;
    let len = ring_of(channel).saturating_add(1);
    let mut out = Vec::from_slice(alloc, version.greeting())?;
    append(version, FrameRef::Finish { channel }, &mut out)?;
    append_send(version, channel, len, &mut out)?;
    Ok(out)
}

// After a Finish a longer message is refused as one that comes after it.
fn after_a_finish(rt: &impl Abort, alloc: Global, channel: Channel) -> Option<()> {
    let bytes = finished_stream(alloc, channel).ok()?;
    let wanted = ReadEnd::Violated(Violation::AfterFinish);
    for before in 0..bytes.len() {
        let end = Sides::new(alloc)?.read(rt, &bytes, before);
        equal(rt, "a longer message", end, wanted);
    }
    Some(())
}

#[test]
fn a_longer_message_after_a_finish(rt: HostRuntime) {
    for channel in Channel::ALL {
        ran(&rt, after_a_finish(&rt, rt.alloc(), channel));
    }
}

// Guarantees that are issued while a message is on its way count at its end, but none is enough for a
// longer one.
fn issued_meanwhile(
    rt: &impl Abort,
    alloc: Global,
    channel: Channel,
    more: usize,
) -> Option<ReadEnd> {
    let len = ring_of(channel).saturating_add(more);
    let bytes = stream_of(alloc, Version::Two, channel, len).ok()?;
    let (header, body) = bytes.as_slice().split_at(bytes.len().min(9));
    let mut sides = Sides::new(alloc)?;
    let end = sides.read(rt, header, 0);
    equal(rt, "a header", end, ReadEnd::Truncated);
    sides.issue(channel, RINGS[channel.index()]);
    Some(sides.read(rt, body, 0))
}

#[test]
fn guarantees_that_come_too_late_and_are_too_few(rt: HostRuntime) {
    for channel in Channel::ALL {
        for (more, wanted) in [(0, ReadEnd::Clean), (1, NOT_GUARANTEED)] {
            let end = issued_meanwhile(&rt, rt.alloc(), channel, more);
            equal(&rt, "a message", end, Some(wanted));
        }
    }
}

// A made frame: mostly a message about as long as its ring.
fn append_made(version: Version, made: &mut Made, out: &mut Vec<u8>) -> Result<(), AllocError> {
    let channel = Channel::ALL[made.below(7) % 7];
    let ring = ring_of(channel);
    let target = u32::try_from(made.below(9)).unwrap_or(0);
    match made.below(12) {
        0 => append(version, FrameRef::Plead { channel, target }, out),
        1 => append(version, FrameRef::Finish { channel }, out),
        2 => append_send(version, channel, ring.saturating_add(made.below(500)), out),
        _ => append_send(version, channel, made.below(ring).saturating_add(1), out),
    }
}

// Some made frames, of which the last may be cut.
fn made_stream(alloc: Global, made: &mut Made) -> Result<Vec<u8>, AllocError> {
    let version = if made.one_in(2) {
        Version::One
    } else {
        Version::Two
    };
    let mut out = Vec::from_slice(alloc, version.greeting())?;
    for _ in 0..8 {
        append_made(version, made, &mut out)?;
    }
    if made.one_in(3) {
        out.truncate(out.len().saturating_sub(made.below(300)));
    }
    Ok(out)
}

// Both read a made stream in made pieces, and issue what they can in between.
fn read_made(rt: &impl Abort, sides: &mut Sides, bytes: &[u8], made: &mut Made) {
    let mut rest = bytes;
    for _ in 0..40 {
        let most = [1, 5, 90, 700].get(made.below(4)).copied().unwrap_or(1);
        let count = made.below(most).saturating_add(1).min(rest.len());
        let (piece, later) = rest.split_at(count);
        let _ = sides.read(rt, piece, made.below(most));
        let channel = Channel::ALL[made.below(7) % 7];
        let _ = sides.take(rt, channel);
        let amount = made.below(ring_of(channel)).saturating_add(1);
        sides.issue(channel, u32::try_from(amount).unwrap_or(1));
        rest = later;
    }
}

// Sides read a made stream, for whose messages all guarantees were issued.
fn made_stream_is_read(rt: &impl Abort, alloc: Global, made: &mut Made) -> Option<()> {
    let bytes = made_stream(alloc, made).ok()?;
    let mut sides = Sides::new(alloc)?;
    for channel in Channel::ALL {
        sides.issue(channel, RINGS[channel.index()]);
    }
    read_made(rt, &mut sides, &bytes, made);
    Some(())
}

#[test]
fn made_streams_are_read_as_by_an_intake_that_keeps_all(rt: HostRuntime) {
    let mut made = Made(3);
    for _ in 0..150 {
        ran(&rt, made_stream_is_read(&rt, rt.alloc(), &mut made));
    }
}
