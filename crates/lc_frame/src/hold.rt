//! The bytes that a stream decoder holds, in memory that was taken beforehand.
ghost use Rattle.std.specs.Prelude.{◌≡◌, ◌+◌, ◌≤◌, ◌==◌, [], ◌++◌, length, take, replicate, vec_len, vec_capacity, IfOk};
ghost use Rattle.lc_frame.specs.declared.version.Version.TheVariants.{Two};
ghost use Rattle.lc_frame.specs.Kind.{max_frame};
ghost use Rattle.lc_frame.specs.Fill.{FillsFrom};

use crate::encoding::MAX_FRAME;
use crate::fill::Fill;
use std::alloc::{AllocError, Global};
use std::marker::Model;

/// A source is asked for bytes of a frame alone where more than these are missing.
pub(crate) const FILL_LEN: usize = 512;

/// The most bytes that a source is asked for at once.
pub(crate) const MOST_FILLED: usize = 4_096;

/// Up to as many bytes as a frame has. Contracts see the bytes.
#[derive(Drop)]
pub(crate) struct Hold {
    bytes: Vec<u8>,
}

impl Model for Hold {
    ghost use Rattle.std.specs.Prelude.{◌≤◌, ℕ, List, vec_capacity};
    ghost use Rattle.lc_frame.specs.declared.version.Version.TheVariants.{Two};
    ghost use Rattle.lc_frame.specs.Kind.{max_frame};

    ghost Value = { List ℕ };

    ghost view = { λ hold. hold.bytes.items };

    ghost invariant = { λ hold. max_frame Two ≤ vec_capacity hold.bytes };
}

// Puts so many zeros last.
#[inline(always)]
fn put_zeros(bytes: &mut Vec<u8>, count: usize)
    requires { vec_len bytes.old + count ≤ vec_capacity bytes.old }
    ensures zeros { bytes.new.items ≡ bytes.old.items ++ replicate count 0 }
    ensures capacity { vec_capacity bytes.old ≤ vec_capacity bytes.new }
{
    let end = bytes.len() + count;
    let _ = bytes.resize(end, 0);
}

impl Hold {
    /// Nothing, with the memory for the longest frame.
    pub(crate) fn new(alloc: Global) -> Result<Hold, AllocError>
        ensures { IfOk result (λ hold. hold ≡ []) }
    {
        Ok(Hold {
            bytes: Vec::with_capacity(alloc, MAX_FRAME)?,
        })
    }

    #[inline(always)]
    pub(crate) fn len(&self) -> usize
        ensures { result ≡ length self.now }
    {
        self.bytes.len()
    }

    #[inline(always)]
    pub(crate) fn is_empty(&self) -> bool
        ensures { result ≡ (length self.now == 0) }
    {
        self.bytes.is_empty()
    }

    #[inline(always)]
    pub(crate) fn as_slice(&self) -> &[u8]
        ensures { result.now ≡ self.now }
    {
        &self.bytes
    }

    #[inline(always)]
    pub(crate) fn append(&mut self, more: &[u8])
        requires { length self.old + length more.now ≤ max_frame Two }
        ensures { self.new ≡ self.old ++ more.now }
    {
        let _ = self.bytes.extend_from_slice(more);
    }

    #[inline(always)]
    pub(crate) fn truncate(&mut self, len: usize)
        requires { len ≤ length self.old }
        ensures { self.new ≡ take len self.old }
    {
        self.bytes.truncate(len);
    }

    #[inline(always)]
    pub(crate) fn clear(&mut self)
        ensures { self.new ≡ [] }
    {
        self.bytes.clear();
    }

    /// Has so many bytes of memory behind what is stored filled from a source, and stores what that gave.
    /// The source finds zeros there: one that says it gave more than it did gives no byte of an earlier
    /// frame.
    #[inline(always)]
    pub(crate) fn fill<R, F: Fill<R>>(
        &mut self,
        asked: usize,
        filler: &F,
        source: &mut R,
    ) -> Option<usize>
        requires { length self.old + asked ≤ max_frame Two }
        ensures { FillsFrom F.fills asked result source.old source.new self.old self.new }
    {
        let held = self.bytes.len();
        put_zeros(&mut self.bytes, asked);
        let answer = filler.fill(source, self.bytes.split_at_mut(held).1);
        match answer {
            Some(count) => self.bytes.truncate(held + count),
            None => self.bytes.truncate(held),
        }
        answer
    }
}
