//! Bytes that wait in a row, in one block that they go round in laps.
//!
//! What is pushed at once, as a message, lies in the block in one piece. A lap that reaches its turn
//! is over, and the next piece lies at the front of the block again; the block has room behind the
//! turn for the rest of the piece that reached it. Where no byte waits the next lap begins at once,
//! so that bytes which are soon taken lie where the last ones did, in memory that is near and
//! resident.
ghost use Rattle.std.specs.Prelude.{◌≡◌, ◌+◌, ◌≤◌, ◌++◌, length, take, drop, vec_capacity, IfOk};
ghost use Rattle.lc_frame.specs.Bounds.{IsCapacity};
ghost use Rattle.lc_ring.specs.Laps.{new_laps, IsPushed, IsTaken};

use crate::pieces::{append, copy};
use std::alloc::{AllocError, Global};
use std::fmt::{self, Debug, Formatter};
use std::marker::Model;

/// The bytes that wait, as those of a lap and of the next.
#[derive(Drop)]
pub(crate) struct LapBytes {
    // As many bytes as were ever written. What waits of the lap lies from `gone` to `end`, and what
    // waits of the next lap before `next`, over what is gone.
    block: Vec<u8>,
    gone: usize,
    end: usize,
    next: usize,
    turn: usize,
    longest: usize,
}

impl Model for LapBytes {
    ghost use Rattle.std.specs.Prelude.{drop, take, vec_capacity};
    ghost use Rattle.lc_ring.specs.Laps.{Laps, AreLaps};

    ghost Value = { Laps };

    ghost view = { λ b. record { near = drop b.gone (take b.end b.block.items); far = take b.next b.block.items; turn = b.turn; longest = b.longest } };

    ghost invariant = { λ b. AreLaps b.block.items b.gone b.end b.next b.turn b.longest (vec_capacity b.block) };
}

impl Debug for LapBytes {
    fn fmt<W: fmt::Write>(&self, f: &mut Formatter<W>) -> fmt::Result {
        f.debug_list()
            .entries(self.near().iter())
            .entries(self.far().iter())
            .finish()
    }
}

// Writes the bytes into a slice from a place on.
#[inline]
fn write(block: &mut [u8], at: usize, bytes: &[u8])
    requires { at + length bytes.now ≤ length block.old }
    ensures { block.new ≡ take at block.old ++ bytes.now ++ drop (at + length bytes.now) block.old }
{
    let (_, rest) = block.split_at_mut(at);
    let (place, _) = rest.split_at_mut(bytes.len());
    copy(place, bytes);
}

// Writes the bytes from a place on, where they go beyond all that was written before. There is room,
// so that no memory is asked for.
#[inline(never)]
fn extend(block: &mut Vec<u8>, at: usize, bytes: &[u8])
    requires { at + length bytes.now ≤ vec_capacity block.old }
    ensures items { at ≤ length block.old.items → block.new.items ≡ take at block.old.items ++ bytes.now }
    ensures capacity { vec_capacity block.old ≤ vec_capacity block.new }
{
    block.truncate(at);
    append(block, bytes);
}

// Writes the bytes into the block from a place on.
#[inline]
fn put(block: &mut Vec<u8>, at: usize, bytes: &[u8])
    requires within { at ≤ length block.old.items }
    requires room { at + length bytes.now ≤ vec_capacity block.old }
    ensures items { block.new.items ≡ take at block.old.items ++ bytes.now ++ drop (at + length bytes.now) block.old.items }
    ensures capacity { vec_capacity block.old ≤ vec_capacity block.new }
{
    if at + bytes.len() <= block.len() {
        write(block, at, bytes);
    } else {
        extend(block, at, bytes);
    }
}

impl LapBytes {
    /// No bytes, in laps of so many, for pieces of at most `longest`. None of the memory is touched.
    pub(crate) fn new(alloc: Global, turn: usize, longest: usize) -> Result<LapBytes, AllocError>
        requires { IsCapacity turn }
        ensures { IfOk result (λ laps. laps ≡ new_laps turn longest) }
    {
        Ok(LapBytes {
            block: Vec::with_capacity(alloc, turn + turn.min(longest))?,
            gone: 0,
            end: 0,
            next: 0,
            turn,
            longest,
        })
    }

    #[inline]
    pub(crate) fn turn(&self) -> usize
        ensures { result ≡ self.now.turn }
    {
        self.turn
    }

    /// The bytes that wait.
    #[inline]
    pub(crate) fn len(&self) -> usize
        ensures { result ≡ length self.now.near + length self.now.far }
    {
        self.end - self.gone + self.next
    }

    /// The bytes of the lap.
    #[inline]
    pub(crate) fn near(&self) -> &[u8]
        ensures { result.now ≡ self.now.near }
    {
        let (lap, _) = self.block.as_slice().split_at(self.end);
        lap.split_at(self.gone).1
    }

    /// The bytes of the next lap.
    #[inline]
    pub(crate) fn far(&self) -> &[u8]
        ensures { result.now ≡ self.now.far }
    {
        self.block.as_slice().split_at(self.next).0
    }

    /// The first bytes of the lap.
    #[inline]
    pub(crate) fn first(&self, len: usize) -> &[u8]
        requires { len ≤ length self.now.near }
        ensures { result.now ≡ take len self.now.near }
    {
        let (_, near) = self.block.as_slice().split_at(self.gone);
        near.split_at(len).0
    }

    /// Takes bytes in as the last, in one piece.
    #[inline]
    pub(crate) fn push(&mut self, bytes: &[u8])
        requires room { length self.old.near + length self.old.far + length bytes.now ≤ self.old.turn }
        requires at_most { length bytes.now ≤ self.old.longest }
        ensures { IsPushed self.old bytes.now self.new }
    {
        if self.end < self.turn {
            put(&mut self.block, self.end, bytes);
            self.end += bytes.len();
        } else {
            put(&mut self.block, self.next, bytes);
            self.next += bytes.len();
        }
    }

    /// Drops the first bytes of the lap.
    #[inline]
    pub(crate) fn take(&mut self, len: usize)
        requires { len ≤ length self.old.near }
        ensures { IsTaken len self.old self.new }
    {
        self.gone += len;
        if self.gone == self.end {
            self.gone = 0;
            self.end = self.next;
            self.next = 0;
        }
    }
}
