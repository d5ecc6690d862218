//! The lengths of messages that wait, in about a byte for each short one.
//!
//! A length below 256 takes one byte. A longer one takes four, the highest first, which is 0, since
//! no message has 2^24 bytes; no message has 0 bytes either, so that the first byte tells the two
//! forms apart. A length never takes more bytes than its message, and laps (`laps.rt`) of as many
//! bytes as the ring has room for the lengths of all messages that fit.
ghost use Rattle.std.specs.Prelude.{◌≡◌, ◌+◌, ◌<◌, ◌≤◌, [], ◌∷◌, ◌++◌, length, drop, slice_get, IfOk, IfSome, Some};
ghost use Rattle.std.specs.List.{sum};
ghost use Rattle.std.specs.Option.{option_map};
ghost use Rattle.lc_frame.specs.Bounds.{IsCapacity};
ghost use Rattle.lc_ring.specs.Ring.{IsLength};
ghost use Rattle.lc_ring.specs.Lengths.{encoding, decoded};

use crate::laps::LapBytes;
use std::alloc::{AllocError, Global};
use std::fmt::{self, Debug, DebugList, Formatter};
use std::marker::Model;

/// The bytes of a length that does not fit in one.
const LONG: usize = 4;

/// The lengths of messages, the first first.
#[derive(Drop)]
pub(crate) struct Lengths {
    bytes: LapBytes,
}

impl Model for Lengths {
    ghost use Rattle.lc_ring.specs.Lengths.{Lengths, AreLengths, lengths_in};

    ghost Value = { Lengths };

    ghost view = { λ l. lengths_in l.bytes };

    ghost invariant = { λ l. AreLengths l.bytes };
}

impl Debug for Lengths {
    fn fmt<W: fmt::Write>(&self, f: &mut Formatter<W>) -> fmt::Result {
        let mut list = f.debug_list();
        show(&mut list, self.bytes.near());
        show(&mut list, self.bytes.far());
        list.finish()
    }
}

// Adds the lengths to a list that is shown.
fn show<W: fmt::Write>(list: &mut DebugList<W>, bytes: &[u8]) {
    let mut left = bytes;
    'lengths: while let Some((len, rest)) = decode(left) {
        list.entry(&len);
        left = rest;
    }
}

// How many bytes a length takes.
#[inline]
fn encoded_len(len: usize) -> usize
    ensures { result ≡ length (encoding len) }
{
    if len < 256 { 1 } else { LONG }
}

// The first length that bytes hold, and the bytes behind it.
#[inline]
fn decode(bytes: &[u8]) -> Option<(usize, &[u8])>
    ensures first { option_map (λ parts. parts.0) result ≡ slice_get (decoded bytes.now) 0 }
    ensures shorter { IfSome result (λ parts. length parts.1.now < length bytes.now) }
{
    let (short, rest) = bytes.split_first()?;
    if *short > 0 {
        return Some((*short as usize, rest));
    }
    let (code, rest) = bytes.split_first_chunk::<LONG>()?;
    Some((u32::from_be_bytes(*code) as usize, rest))
}

impl Lengths {
    /// No lengths, with room for those of messages that have so many bytes together. None of the
    /// memory is touched.
    pub(crate) fn new(alloc: Global, capacity: usize) -> Result<Lengths, AllocError>
        requires { IsCapacity capacity }
        ensures { IfOk result (λ lengths. lengths ≡ record { items = []; capacity = capacity }) }
    {
        Ok(Lengths {
            bytes: LapBytes::new(alloc, capacity, LONG)?,
        })
    }

    /// The first length, `None` where none waits.
    #[inline]
    pub(crate) fn front(&self) -> Option<usize>
        ensures { result ≡ slice_get self.now.items 0 }
    {
        let (len, _) = decode(self.bytes.near())?;
        Some(len)
    }

    /// Takes in the length of a message that fits.
    #[inline]
    pub(crate) fn push_back(&mut self, len: usize)
        requires is_length { IsLength len }
        requires room { sum self.old.items + len ≤ self.old.capacity }
        ensures { self.new ≡ record self.old { items = self.old.items ++ len ∷ [] } }
    {
        if len < 256 {
            self.bytes.push(&[len as u8]);
        } else {
            self.bytes.push(&(len as u32).to_be_bytes());
        }
    }

    /// Drops the first length, which is `len`.
    #[inline]
    pub(crate) fn drop_front(&mut self, len: usize)
        requires { Some len ≡ slice_get self.old.items 0 }
        ensures { self.new ≡ record self.old { items = drop 1 self.old.items } }
    {
        self.bytes.take(encoded_len(len));
    }
}
