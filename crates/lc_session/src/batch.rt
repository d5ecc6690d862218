//! The frames that a writing pump has popped, on their way out.
ghost use Rattle.std.specs.Prelude.{◌≡◌, ◌-◌, ◌≤◌, ◌↔◌, [], ◌∷◌, ◌++◌, length, IsTrue, IfOk};
ghost use Rattle.lc_frame.specs.declared.version.Version.TheVariants.{Two};
ghost use Rattle.lc_frame.specs.Kind.{max_frame};
ghost use Rattle.lc_frame.specs.Frame.{IsValid};
ghost use Rattle.lc_frame.specs.Encoding.{encoding};
ghost use Rattle.lc_driver.specs.Writing.{text};
ghost use Rattle.lc_session.specs.Batch.{BatchState, max_batch, new_batch, waiting_in, AreWhole, EndsAt, LetsGo};

use lc_frame::{Decoded, Frame, StreamEncoder, Version, decode};
use std::alloc::{AllocError, Global};
use std::marker::Model;

/// The bytes of frames that were popped and are not written yet, and how many of them are left of
/// the one that was begun, or of the greeting of a new stream.
#[derive(Drop)]
pub(crate) struct Batch {
    version: Version,
    encoder: StreamEncoder,
    begun: usize,
}

impl Model for Batch {
    ghost use Rattle.lc_session.specs.Batch.{BatchState, batch_of, IsBatch};

    ghost Value = { BatchState };

    ghost view = { λ batch. batch_of batch.version batch.begun batch.encoder.pending batch.encoder.room };

    ghost invariant = { λ batch. IsBatch batch.version batch.encoder batch.begun };
}

// Room for two of the longest frames: while one has room, another frame can be popped.
fn max_batch(version: Version) -> usize
    ensures value { result ≡ max_batch version }
    ensures most { result ≤ max_batch Two }
{
    2 * version.max_frame()
}

// Where the frame ends that is begun last, once so many of these bytes are written, and how many
// frames are begun by that.
fn frame_end(version: Version, bytes: &[u8], begun: usize, written: usize) -> (usize, usize)
    requires whole { AreWhole version begun bytes.now }
    requires within { written ≤ length bytes.now }
    ensures { EndsAt version begun bytes.now written result.0 result.1 }
{
    let mut end = begun;
    let mut frames = 0;
    'frames: while end < written {
        match decode(version, bytes.split_at(end).1) {
            Decoded::Whole { frame: _, used } => end += used,
            Decoded::More => unreachable!(),
            Decoded::Fault(_) => unreachable!(),
        }
        frames += 1;
    }
    (end, frames)
}

impl Batch {
    /// The start of a stream: its greeting is pending, which is nothing in version One.
    pub(crate) fn new(alloc: Global, version: Version) -> Result<Batch, AllocError>
        ensures { IfOk result (λ batch. batch ≡ new_batch version) }
    {
        let encoder = StreamEncoder::new(alloc, version, max_batch(version))?;
        let begun = encoder.pending().len();
        Ok(Batch {
            version,
            encoder,
            begun,
        })
    }

    /// All that is pending: what is left of the frame that was begun, or of the greeting, and the
    /// frames that wait.
    pub(crate) fn bytes(&self) -> &[u8]
        ensures { result.now ≡ text self.now.version self.now.begun self.now.waiting }
    {
        self.encoder.pending()
    }

    pub(crate) fn is_empty(&self) -> bool
        ensures { IsTrue result ↔ ((self.now.begun ≡ []) × (self.now.waiting ≡ [])) }
    {
        self.encoder.pending().is_empty()
    }

    /// How many bytes are left of the frame that was begun, or of the greeting.
    pub(crate) fn begun(&self) -> usize
        ensures { result ≡ length self.now.begun }
    {
        self.begun
    }

    /// How many frames wait.
    pub(crate) fn waiting(&self) -> usize
        ensures { result ≡ length self.now.waiting }
    {
        let bytes = self.bytes();
        frame_end(self.version, bytes, self.begun, bytes.len()).1
    }

    /// How many more bytes have room: all where nothing is pending.
    pub(crate) fn free(&self) -> usize
        ensures value { result ≡ self.now.free }
        ensures bound { result ≤ max_batch self.now.version }
        ensures all { self.now.begun ≡ [] → self.now.waiting ≡ [] → result ≡ max_batch self.now.version }
    {
        self.encoder.room()
    }

    /// Whether any frame has room.
    pub(crate) fn has_room(&self) -> bool
        ensures { IsTrue result ↔ (max_frame self.now.version ≤ self.now.free) }
    {
        self.encoder.room() >= self.version.max_frame()
    }

    /// All that is pending was written.
    pub(crate) fn clear(&mut self)
        ensures version { self.new.version ≡ self.old.version }
        ensures begun { self.new.begun ≡ [] }
        ensures waiting { self.new.waiting ≡ [] }
    {
        let bytes = self.encoder.pending();
        let count = bytes.len();
        self.encoder.advance(count);
        self.begun = 0;
    }

    /// The first so many bytes were written.
    pub(crate) fn note_written(&mut self, count: usize)
        requires { count ≤ length (text self.old.version self.old.begun self.old.waiting) }
        ensures { LetsGo count self.old self.new }
    {
        let bytes = self.encoder.pending();
        let (end, _) = frame_end(self.version, bytes, self.begun, count);
        self.encoder.advance(count);
        self.begun = end - count;
    }

    /// A frame waits behind the others.
    pub(crate) fn append(&mut self, frame: Frame)
        requires valid { IsValid self.old.version frame }
        requires room { max_frame self.old.version ≤ self.old.free }
        ensures version { self.new.version ≡ self.old.version }
        ensures begun { self.new.begun ≡ self.old.begun }
        ensures waiting { self.new.waiting ≡ self.old.waiting ++ frame ∷ [] }
        ensures free { self.new.free ≡ self.old.free - length (encoding self.old.version frame) }
    {
        if !self.encoder.append(self.version, frame.view()) {
            unreachable!();
        }
    }
}
