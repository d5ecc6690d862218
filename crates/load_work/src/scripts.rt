//! Scripts of events between two peers, replayed and drawn.
use crate::digest::Digest;
use crate::random::{LAST_CHANNEL, Pool, Random};
use lc_chart::Command;
use lc_frame::Version;
use std::alloc::{AllocError, Global};

/// The lines of a script that is replayed.
const LONG: u32 = 20_000;

/// The lines of a script that is drawn, as many as a picture may have.
const SHORT: u32 = 2_000;

/// The bytes of each ring.
const CAPACITY: u32 = 4_096;

const DIGITS: [u8; 16] = *b"0123456789abcdef";

/// The digits of the pool.
const POOL: u32 = 66_560;

// Digits of which each body is a part.
fn digits(alloc: Global, random: &mut Random) -> Result<Pool, AllocError> {
    let mut bytes = Vec::new(alloc);
    for _ in 0..POOL {
        bytes.push(DIGITS[random.from_to(0, 15) as usize])?;
    }
    Ok(Pool::of(bytes))
}

// Writes the digits of a body, two for a byte.
fn write_body(random: &mut Random, pool: &Pool, script: &mut Vec<u8>) -> Result<(), AllocError> {
    let most = if random.from_to(0, 9) == 0 { 256 } else { 16 };
    let len = 2 * random.from_to(1, most) as usize;
    script.extend_from_slice(pool.part(random, len))
}

fn last_digit(number: u32) -> u8 {
    b'0' + (number % 10) as u8
}

// Writes a number below 10,000 behind a space.
fn write_number(number: u32, script: &mut Vec<u8>) -> Result<(), AllocError> {
    script.extend_from_slice(b" ")?;
    for unit in [1_000, 100, 10] {
        if number >= unit {
            script.push(last_digit(number / unit))?;
        }
    }
    script.push(last_digit(number))?;
    Ok(())
}

// Writes a line of some event. Most of what is sent was promised, and most of what was put arrives.
fn write_line(random: &mut Random, pool: &Pool, script: &mut Vec<u8>) -> Result<(), AllocError> {
    let side = if random.from_to(0, 1) == 0 {
        b"A "
    } else {
        b"B "
    };
    let (channel, amount) = (random.from_to(0, LAST_CHANNEL), random.from_to(1, 1_000));
    let (word, has_channel, has_amount): (&[u8], bool, bool) = match random.from_to(0, 31) {
        0..=9 => (b"send", true, false),
        10..=15 => (b"issue", true, true),
        16..=20 => (b"arrive", false, false),
        21..=22 => (b"deliver", false, true),
        23..=28 => (b"take", true, false),
        29 => (b"plead", true, true),
        30 => (b"absolve", true, true),
        _ => (b"honour", true, false),
    };
    script.extend_from_slice(side)?;
    script.extend_from_slice(word)?;
    if has_channel {
        write_number(channel, script)?;
    }
    if has_amount {
        write_number(amount, script)?;
    }
    if word == b"send".as_slice() {
        script.extend_from_slice(b" ")?;
        write_body(random, pool, script)?;
    }
    script.extend_from_slice(b"\n")
}

fn write_script(
    random: &mut Random,
    pool: &Pool,
    script: &mut Vec<u8>,
    lines: u32,
) -> Result<(), AllocError> {
    script.clear();
    for _ in 0..lines {
        write_line(random, pool, script)?;
    }
    Ok(())
}

/// The version of which the input of this number is.
pub fn version_of(number: u32) -> Version {
    if number % 2 == 0 {
        Version::One
    } else {
        Version::Two
    }
}

/// What is done with a script.
#[derive(Clone, Copy)]
pub enum Task {
    Replay,
    Draw,
}

impl Task {
    // The lines of a script.
    fn lines(self) -> u32 {
        match self {
            Task::Replay => LONG,
            Task::Draw => SHORT,
        }
    }

    // Does it: the status.
    fn run(
        self,
        alloc: Global,
        version: Version,
        mut script: &[u8],
        out: &mut Vec<u8>,
        err: &mut Vec<u8>,
    ) -> u8 {
        let capacity = CAPACITY;
        match self {
            Task::Replay => lc_cli::replay_as(alloc, capacity, version, &mut script, out, err),
            Task::Draw => {
                let command = Command::Session { capacity, version };
                lc_chart::chart(alloc, command, &mut script, out, err)
            }
        }
    }
}

/// Replays or draws so many scripts.
pub fn run_all(alloc: Global, task: Task, random: Random, count: u32) -> Option<Digest> {
    let mut random = random;
    let mut digest = Digest::new();
    let pool = digits(alloc, &mut random).ok()?;
    let (mut script, mut out, mut err) = (Vec::new(alloc), Vec::new(alloc), Vec::new(alloc));
    for number in 0..count {
        write_script(&mut random, &pool, &mut script, task.lines()).ok()?;
        out.clear();
        err.clear();
        let version = version_of(number);
        let status = task.run(alloc, version, script.as_slice(), &mut out, &mut err);
        digest.add_output(status, out.as_slice(), err.as_slice());
    }
    Some(digest)
}
