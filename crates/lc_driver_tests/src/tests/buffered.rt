//! Long messages to a writer that gathers what it is given: what it has passed on when the writing ends is
//! what it passed on when frames went out as many at once as fit the longest one, each time in one write.
use crate::tests::{equal, ran};
use lc_driver::{Counted, Link, WriteFault};
use lc_frame::{CHANNELS, Channel, FrameRef, Version};
use lc_peer::Config;
use std::alloc::{AllocError, Global};
use std::io;
use std::io::Write;
use std::process::Abort;
use std::test::Fail;

const CHANNEL: Channel = Channel::Data;

/// How many bytes go out at once in version Two: those of the longest frame.
const BATCH: usize = 1_048_581;

/// The tag and the length of a message.
const HEADER: usize = 5;

/// The longest message of version One, one byte and one page more, and longer ones up to the longest.
const LENGTHS: [usize; 5] = [65_535, 65_536, 69_580, 262_144, 1_048_576];

/// Sizes of a writer's buffer: those of a page and of two, and one that is longer than some of the messages.
const SIZES: [usize; 3] = [4_096, 8_192, 131_072];

/// The message behind a long one.
const SHORT: &[u8] = b"abc";

// A writer that holds what it is given as long as that has room, and passes on at once what is longer.
#[derive(Drop)]
struct Gathers {
    size: usize,
    held: Vec<u8>,
    passed: Vec<u8>,
    // How many bytes each write below had, as one number.
    writes: u64,
}

impl Gathers {
    fn new(alloc: Global, size: usize) -> Gathers {
        Gathers {
            size,
            held: Vec::new(alloc),
            passed: Vec::new(alloc),
            writes: 0,
        }
    }

    // A write below, which takes all.
    fn pass(&mut self, bytes: &[u8]) -> Result<(), AllocError> {
        self.passed.extend_from_slice(bytes)?;
        self.writes = self
            .writes
            .wrapping_mul(1_000_003)
            .wrapping_add(bytes.len() as u64);
        Ok(())
    }

    fn pass_held(&mut self) -> Result<(), AllocError> {
        let held = self.held.clone()?;
        self.pass(&held)?;
        self.held.clear();
        Ok(())
    }
}

impl Write for Gathers {
    fn write(&mut self, buf: &[u8]) -> io::Result<usize> {
        if self.held.len().saturating_add(buf.len()) > self.size && !self.held.is_empty() {
            self.pass_held()?;
        }
        if buf.len() >= self.size {
            self.pass(buf)?;
        } else {
            self.held.extend_from_slice(buf)?;
        }
        Ok(buf.len())
    }

    fn flush(&mut self) -> io::Result<()> {
        self.pass_held()?;
        Ok(())
    }
}

// Appends a message on channel 1.
fn append(body: &[u8], out: &mut Vec<u8>) -> Result<(), AllocError> {
    let len = u32::try_from(body.len()).unwrap_or(0);
    out.extend_from_slice(b"\x11")?;
    out.extend_from_slice(&len.to_be_bytes())?;
    out.extend_from_slice(body)
}

// The greeting and the messages, written as many whole frames at once as fit the longest.
fn write_batches(alloc: Global, bodies: &[&[u8]], writer: &mut Gathers) -> Option<()> {
    let mut batch = Vec::from_slice(alloc, b"LCM\x02").ok()?;
    for body in bodies {
        if batch
            .len()
            .saturating_add(HEADER)
            .saturating_add(body.len())
            > BATCH
        {
            writer.write(&batch).ok()?;
            batch.clear();
        }
        append(body, &mut batch).ok()?;
    }
    writer.write(&batch).ok()?;
    Some(())
}

// A writer of this size to which they are written so.
fn batches(alloc: Global, bodies: &[&[u8]], size: usize) -> Option<Gathers> {
    let mut writer = Gathers::new(alloc, size);
    write_batches(alloc, bodies, &mut writer)?;
    Some(writer)
}

// A new link.
fn new_link(alloc: Global) -> Option<Link> {
    let config = Config {
        version: Version::Two,
        capacities: [32; CHANNELS],
        slots: 32,
    };
    Link::new(alloc, config).ok()
}

// These messages wait, for which room was promised.
fn send(rt: &impl Abort, link: &mut Link, bodies: &[&[u8]]) {
    let heard = link.peer.arrive(FrameRef::Issue {
        channel: CHANNEL,
        amount: 4_194_304,
    });
    equal(rt, "a promise", heard, Ok(()));
    for body in bodies {
        equal(rt, "a send", link.peer.send(CHANNEL, body), Ok(()));
    }
}

// How a link writes them to a writer of this size, and the writer.
fn written(
    rt: &impl Abort,
    alloc: Global,
    bodies: &[&[u8]],
    size: usize,
) -> Option<(Result<u64, WriteFault>, Gathers)> {
    let mut link = new_link(alloc)?;
    send(rt, &mut link, bodies);
    let mut writer = Counted::new(Gathers::new(alloc, size));
    let answer = link.write_out(&mut writer);
    Some((answer, writer.into_inner()))
}

// What has passed on is the same, in the same writes, and so is what is still held.
fn are_same(rt: &impl Abort, size: usize, found: &Gathers, wanted: &Gathers) {
    let passed = (size, found.passed.len(), found.writes);
    let due = (size, wanted.passed.len(), wanted.writes);
    equal(rt, "what has passed a buffer", passed, due);
    assert!(rt; found.passed == wanted.passed, "other bytes have passed");
    assert!(rt; found.held == wanted.held, "other bytes are held");
}

fn compare(rt: &impl Abort, alloc: Global, bodies: &[&[u8]], size: usize) -> Option<()> {
    let wanted = batches(alloc, bodies, size)?;
    let (answer, found) = written(rt, alloc, bodies, size)?;
    let all = wanted.passed.len().saturating_add(wanted.held.len());
    equal(rt, "a writing", answer, Ok(all as u64));
    are_same(rt, size, &found, &wanted);
    Some(())
}

// By itself, with a short one behind, and with one before and behind.
fn compare_all(rt: &impl Abort, alloc: Global, long: &[u8], size: usize) {
    ran(rt, compare(rt, alloc, &[long], size));
    ran(rt, compare(rt, alloc, &[long, SHORT], size));
    ran(rt, compare(rt, alloc, &[SHORT, long, SHORT], size));
}

fn compare_each(rt: &impl Abort, alloc: Global, bytes: &[u8]) {
    for len in LENGTHS {
        for size in SIZES {
            compare_all(rt, alloc, bytes.get(..len).unwrap_or(&[]), size);
        }
    }
}

#[test]
fn what_has_passed_on_is_what_had(rt: HostRuntime) -> Result<(), Fail> {
    let bytes = vec![in rt.alloc(); 0x5a_u8; 1_048_576]?;
    compare_each(&rt, rt.alloc(), &bytes);
    Ok(())
}
