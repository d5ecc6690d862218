//! Streams of frames, listed.
use crate::digest::Digest;
use crate::random::{LAST_CHANNEL, Pool, Random};
use crate::scripts::version_of;
use lc_frame::{Channel, FrameRef, Version};
use std::alloc::{AllocError, Global};

/// The longest body.
const LONGEST: u32 = 2_048;

/// The bytes from which on a stream is long enough.
const ENOUGH: usize = 262_144;

// Appends some frame.
fn append_frame(
    random: &mut Random,
    pool: &Pool,
    version: Version,
    stream: &mut Vec<u8>,
) -> Result<(), AllocError> {
    let Some(channel) = Channel::from_number(random.from_to(0, LAST_CHANNEL) as u8) else {
        return Ok(());
    };
    let amount = random.from_to(0, 1_000_000);
    let frame = match random.from_to(0, 15) {
        0..=6 => {
            let most = if amount % 8 == 0 { LONGEST } else { 100 };
            let len = random.from_to(1, most) as usize;
            let body = pool.part(random, len);
            FrameRef::Send { channel, body }
        }
        7..=11 => FrameRef::Issue { channel, amount },
        12 => FrameRef::Absolve { channel, amount },
        13 => FrameRef::Plead {
            channel,
            target: amount,
        },
        14 => FrameRef::LimitSending {
            channel,
            bound: u64::from(amount),
        },
        _ => FrameRef::LimitReceiving {
            channel,
            bound: u64::from(amount),
        },
    };
    if frame.is_valid(version) {
        frame.encode_into(version, stream)?;
    }
    Ok(())
}

fn stream(
    alloc: Global,
    random: &mut Random,
    pool: &Pool,
    version: Version,
) -> Result<Vec<u8>, AllocError> {
    let mut stream = Vec::from_slice(alloc, version.greeting())?;
    for _ in 0..u64::MAX {
        if stream.len() >= ENOUGH {
            break;
        }
        append_frame(random, pool, version, &mut stream)?;
    }
    Ok(stream)
}

/// Lists so many streams.
pub fn list_all(alloc: Global, random: Random, count: u32) -> Option<Digest> {
    let mut random = random;
    let mut digest = Digest::new();
    let pool = Pool::new(alloc, &mut random, LONGEST as usize).ok()?;
    let (mut out, mut err) = (Vec::new(alloc), Vec::new(alloc));
    for number in 0..count {
        let stream = stream(alloc, &mut random, &pool, version_of(number)).ok()?;
        out.clear();
        err.clear();
        let status = lc_cli::frames(alloc, &mut stream.as_slice(), &mut out, &mut err);
        digest.add_output(status, out.as_slice(), err.as_slice());
    }
    Some(digest)
}
