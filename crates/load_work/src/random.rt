//! Numbers and bytes that look random.
ghost use Rattle.std.specs.Prelude.{◌≤◌, ◌<◌, length};

use lc_frame::CHANNELS;
use std::alloc::{AllocError, Global};

/// The greatest number of a channel.
pub const LAST_CHANNEL: u32 = CHANNELS as u32 - 1;

/// Numbers by the method SplitMix64.
#[derive(Clone, Copy)]
pub struct Random(u64);

impl Random {
    /// The numbers that grow from this one.
    pub fn new(seed: u32) -> Random {
        Random(u64::from(seed) << 20)
    }

    /// Other numbers for each place.
    pub fn apart(self, place: u64) -> Random {
        Random(self.0 ^ (place << 56))
    }

    /// The next number.
    #[inline]
    pub fn next(&mut self) -> u64 {
        self.0 = self.0.wrapping_add(0x9e37_79b9_7f4a_7c15);
        let mut mixed = self.0;
        mixed = (mixed ^ (mixed >> 30)).wrapping_mul(0xbf58_476d_1ce4_e5b9);
        mixed = (mixed ^ (mixed >> 27)).wrapping_mul(0x94d0_49bb_1331_11eb);
        mixed ^ (mixed >> 31)
    }

    /// A number from the first up to the last.
    #[inline]
    pub fn from_to(&mut self, first: u32, last: u32) -> u32
        requires { first ≤ last }
        ensures low { first ≤ result }
        ensures high { result ≤ last }
    {
        let count = u64::from(last - first) + 1;
        let number = u64::from(first) + (self.next() >> 33) % count;
        number as u32
    }

    /// A length from the shortest up to the first of these in six of ten cases, to the second in three
    /// more, and to the last in one.
    pub fn len_from(&mut self, shortest: u32, [short, middle, long]: [u32; 3]) -> usize {
        let most = match self.from_to(0, 9) {
            0..=5 => short,
            6..=8 => middle,
            _ => long,
        };
        self.from_to(shortest, most.max(shortest)) as usize
    }
}

/// Bytes of which each message is a part.
#[derive(Drop)]
pub struct Pool(Vec<u8>);

impl Pool {
    /// A pool of which parts of so many bytes are asked for at most.
    pub fn new(alloc: Global, random: &mut Random, longest: usize) -> Result<Pool, AllocError> {
        let mut bytes = Vec::new(alloc);
        for _ in 0..(longest / 8).saturating_add(8_192) {
            bytes.extend_from_slice(&random.next().to_le_bytes())?;
        }
        Ok(Pool(bytes))
    }

    /// A pool of these bytes.
    pub fn of(bytes: Vec<u8>) -> Pool {
        Pool(bytes)
    }

    /// So many bytes from somewhere in the pool, or all that there are from there on.
    pub fn part(&self, random: &mut Random, len: usize) -> &[u8]
        ensures { length result.now ≤ len }
    {
        let start = random.from_to(0, 65_535) as usize;
        let rest = self.0.get(start..).unwrap_or(&[]);
        rest.split_at(len.min(rest.len())).0
    }
}
