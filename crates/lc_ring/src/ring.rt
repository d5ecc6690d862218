//! A bounded list of messages.
//!
//! A `RecvRing` has the bytes of its messages in laps (`laps.rt`) and their lengths in others
//! (`lengths.rt`), which are as long, so that a ring full of messages of one byte fits. Contracts see
//! neither: they see the list of messages that the lengths cut out of the bytes (`cut` in
//! `specs/Cuts.antt`). A message goes in and comes out in one piece, copied as a slice.
//! `RecvRing::new` asks for two bytes of address space for each byte of the ring, and for the longest
//! message that fits it; a page of memory is taken by the system only once a message or a length
//! reaches it. A ring that is full for the first time has at most two resident bytes for each of its
//! capacity.
ghost use Rattle.std.specs.Prelude.{◌≡◌, ◌+◌, ◌^◌, ◌<◌, ◌≤◌, ◌↔◌, ◌++◌, min, length, Some, Err, IfOk, IfErr, IfSome, OnOk, is_ok, if◌then◌else◌};
ghost use Rattle.std.specs.Option.{option_map};
ghost use Rattle.std.specs.Result.{result_err};
ghost use Rattle.lc_frame.specs.Bounds.{IsCapacity};
ghost use Rattle.lc_frame.specs.declared.version.Version.TheVariants.{Two};
ghost use Rattle.lc_frame.specs.Kind.{max_body};
ghost use Rattle.lc_ring.specs.Ring.{new_ring, IsLength, IsRing, bytes, free, push_refusal, push, front, pop, take_answer, with_front};

use crate::laps::LapBytes;
use crate::lengths::Lengths;
use crate::pieces::copy;
use lc_frame::{BufferTooSmall, MAX_BODY, is_capacity};
use std::alloc::{AllocError, Global};
use std::fmt::{self, Debug, Formatter};
use std::marker::Model;
use thiserror::Error;

/// The message is longer than the room that is left.
#[derive(Clone, Copy, Debug, PartialEq, Eq, Error)]
#[error("the ring has room for {free} bytes")]
pub struct Full {
    /// The bytes that are free.
    pub free: usize,
}

/// Why there is no ring.
#[derive(Clone, Copy, Debug, PartialEq, Eq, Error)]
pub enum NewFault {
    /// A ring has 1 to 2^24 bytes.
    #[error("the capacity is not 1 to 2^24")]
    BadCapacity,
    /// The memory of the ring was refused.
    #[error("out of memory")]
    OutOfMemory,
}

/// The messages that came and were not taken yet, in order, in a ring of bytes. A message has 1 to
/// `MAX_BODY` bytes, a ring has room for 1 to `MAX_AMOUNT`. Contracts see the list of the messages
/// and the capacity.
pub struct RecvRing {
    bytes: LapBytes,
    lengths: Lengths,
    // The bytes up to the next cut. They count round the turn whatever the laps do, and say where a
    // message is shown in two slices.
    until_cut: usize,
}

impl Debug for RecvRing {
    fn fmt<W: fmt::Write>(&self, f: &mut Formatter<W>) -> fmt::Result {
        f.debug_struct("RecvRing")
            .field("bytes", &self.bytes)
            .field("lengths", &self.lengths)
            .finish()
    }
}

// One call, wherever a ring is dropped.
impl Drop for RecvRing {
    fn drop(self) {
        let RecvRing {
            bytes: _,
            lengths: _,
            until_cut: _,
        } = self;
    }
}

impl Model for RecvRing {
    ghost use Rattle.std.specs.Prelude.{◌≡◌, ◌≤◌};
    ghost use Rattle.lc_ring.specs.Ring.{Ring};
    ghost use Rattle.lc_ring.specs.Laps.{waiting};
    ghost use Rattle.lc_ring.specs.Cuts.{cut, AreOneRing};

    ghost Value = { Ring };

    ghost view = { λ ring. record { messages = cut ring.lengths.items (waiting ring.bytes); capacity = ring.bytes.turn } };

    ghost invariant = { λ ring. AreOneRing ring.lengths ring.bytes ring.until_cut };
}

// A ring of so many places for bytes, and as many for the bytes of lengths, so that it holds as many
// messages of one byte.
fn with_room(alloc: Global, capacity: usize) -> Result<RecvRing, AllocError>
    requires { IsCapacity capacity }
    ensures value { IfOk result (λ ring. ring ≡ new_ring capacity) }
{
    Ok(RecvRing {
        bytes: LapBytes::new(alloc, capacity, MAX_BODY)?,
        lengths: Lengths::new(alloc, capacity)?,
        until_cut: capacity,
    })
}

// The bytes up to the next cut of a turn, once so many more were taken.
#[inline]
fn cut_after(until_cut: usize, turn: usize, len: usize) -> usize
    requires ahead { (1 ≤ until_cut) × (until_cut ≤ turn) }
    requires within { len ≤ turn }
    requires fits { turn ≤ 2 ^ 24 }
    ensures { (1 ≤ result) × (result ≤ turn) }
{
    if len < until_cut {
        until_cut - len
    } else {
        until_cut + turn - len
    }
}

// A message up to the cut and from there on.
#[inline]
fn parts(message: &[u8], until_cut: usize) -> (&[u8], &[u8])
    ensures whole { result.0.now ++ result.1.now ≡ message.now }
    ensures cut { length result.0.now ≡ min (length message.now) until_cut }
{
    if message.len() <= until_cut {
        return (message, &[]);
    }
    message.split_at(until_cut)
}

impl RecvRing {
    /// An empty ring with room for so many bytes. `BadCapacity` exactly where that is not 1 to
    /// 2^24, which is found before any memory is taken. All the memory of the ring is taken here,
    /// and none of it is touched.
    pub fn new(alloc: Global, capacity: u32) -> Result<RecvRing, NewFault>
        ensures capacity { (result ≡ Err NewFault.BadCapacity) ↔ ¬ IsCapacity capacity }
        ensures value { IfOk result (λ ring. ring ≡ new_ring capacity) }
        ensures kept { IfOk result IsRing }
    {
        if !is_capacity(capacity) {
            return Err(NewFault::BadCapacity);
        }
        match with_room(alloc, capacity as usize) {
            Ok(ring) => Ok(ring),
            Err(_) => Err(NewFault::OutOfMemory),
        }
    }

    /// The bytes that there is room for, 1 to 2^24.
    #[inline]
    pub fn capacity(&self) -> usize
        ensures value { result ≡ self.now.capacity }
        ensures kept { IsRing self.now }
    {
        self.bytes.turn()
    }

    /// The bytes of the messages that wait.
    #[inline]
    pub fn bytes(&self) -> usize
        ensures value { result ≡ bytes self.now }
        ensures kept { IsRing self.now }
    {
        self.bytes.len()
    }

    /// The bytes of the room that is left.
    #[inline]
    pub fn free(&self) -> usize
        ensures value { result ≡ free self.now }
        ensures kept { IsRing self.now }
    {
        self.capacity() - self.bytes()
    }

    /// The length of the first message, `None` where none waits.
    #[inline]
    pub fn front_len(&self) -> Option<usize>
        ensures value { result ≡ option_map length (front self.now) }
        ensures range { IfSome result IsLength }
        ensures within { IfSome result (λ len. len ≤ bytes self.now) }
    {
        self.lengths.front()
    }

    // The first message in one piece, `None` where none waits.
    #[inline]
    fn first(&self) -> Option<&[u8]>
        ensures { option_map (λ message. message.now) result ≡ front self.now }
    {
        let len = self.front_len()?;
        Some(self.bytes.first(len))
    }

    /// The first message, `None` where none waits. It is the two slices, one after the other; the
    /// second is empty unless the message goes round the end of a memory of as many bytes as the
    /// ring's capacity, in which each message lies behind the one before, and the first never is.
    #[inline]
    pub fn front(&self) -> Option<(&[u8], &[u8])>
        ensures whole { option_map (λ parts. parts.0.now ++ parts.1.now) result ≡ front self.now }
        ensures first { IfSome result (λ parts. 0 < length parts.0.now) }
    {
        let message = self.first()?;
        Some(parts(message, self.until_cut))
    }

    /// Takes a message in as the last, exactly where it is no longer than what is free.
    #[inline]
    pub fn push(&mut self, message: &[u8]) -> Result<(), Full>
        requires at_least { 1 ≤ length message.now }
        requires at_most { length message.now ≤ max_body Two }
        ensures answer { result_err result ≡ push_refusal self.old (length message.now) }
        ensures after { self.new ≡ (if is_ok result then push self.old message.now else self.old) }
        ensures grows { OnOk result (bytes self.new ≡ bytes self.old + length message.now) }
    {
        let free = self.free();
        if message.len() > free {
            return Err(Full { free });
        }
        self.bytes.push(message);
        self.lengths.push_back(message.len());
        Ok(())
    }

    // Drops the first message, of which `len` is the length.
    #[inline]
    fn drop_first(&mut self, len: usize)
        requires { Some len ≡ option_map length (front self.old) }
        ensures after { self.new ≡ pop self.old }
        ensures shrinks { bytes self.new + len ≡ bytes self.old }
    {
        self.lengths.drop_front(len);
        self.bytes.take(len);
        self.until_cut = cut_after(self.until_cut, self.bytes.turn(), len);
    }

    /// Drops the first message and answers its length, `None` where none waits.
    #[inline]
    pub fn pop(&mut self) -> Option<usize>
        ensures answer { result ≡ option_map length (front self.old) }
        ensures after { self.new ≡ pop self.old }
        ensures range { IfSome result IsLength }
        ensures shrinks { IfSome result (λ len. bytes self.new + len ≡ bytes self.old) }
    {
        let len = self.front_len()?;
        self.drop_first(len);
        Some(len)
    }

    /// Takes the first message into the front of the buffer and answers its length, `None` where
    /// none waits. On an error, which is a buffer that is shorter than the message, ring and buffer
    /// stay as they are.
    #[inline(always)]
    pub fn take_into(&mut self, buffer: &mut [u8]) -> Result<Option<usize>, BufferTooSmall>
        ensures answer { result ≡ take_answer (front self.old) (length buffer.old) }
        ensures after { self.new ≡ (if is_ok result then pop self.old else self.old) }
        ensures buffer { buffer.new ≡ (if is_ok result then with_front (front self.old) buffer.old else buffer.old) }
        ensures range { IfOk result (λ taken. IfSome taken IsLength) }
        ensures need { IfErr result (λ small. IsLength small.need) }
        ensures shrinks { IfOk result (λ taken. IfSome taken (λ len. bytes self.new + len ≡ bytes self.old)) }
    {
        // A reader tells what every ring keeps.
        let _bytes = self.bytes();
        let Some(message) = self.first() else {
            return Ok(None);
        };
        let need = message.len();
        if buffer.len() < need {
            return Err(BufferTooSmall { need });
        }
        let (front, _) = buffer.split_at_mut(need);
        copy(front, message);
        self.drop_first(need);
        Ok(Some(need))
    }
}
