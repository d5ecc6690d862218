//! The bytes of a stream on their way out.
ghost use Rattle.std.specs.Prelude.{◌≡◌, ◌≤◌, [], length, take, drop, max, IsTrue, IfOk, vec_len, vec_capacity};
ghost use Rattle.lc_frame.specs.Kind.{max_frame};
ghost use Rattle.lc_frame.specs.Frame.{IsValid};
ghost use Rattle.lc_frame.specs.FrameRef.{frame_of};
ghost use Rattle.lc_frame.specs.Encoding.{encoding};
ghost use Rattle.lc_frame.specs.StreamEncoder.{new_encoder, IsCutTo, IsAdvanced, IsAppended};

use crate::frame_ref::FrameRef;
use crate::version::Version;
use std::alloc::{AllocError, Global};
use std::marker::Model;

/// What is to go out of a stream's greeting and frames, within a capacity. Contracts see it as the
/// capacity, the pending bytes, and how many more have room behind them.
#[derive(Debug, Drop)]
pub struct StreamEncoder {
    capacity: usize,
    buffer: Vec<u8>,
    start: usize,
}

impl Model for StreamEncoder {
    ghost use Rattle.std.specs.Prelude.{◌-◌, drop, vec_len, vec_capacity};
    ghost use Rattle.lc_frame.specs.StreamEncoder.{EncoderState, IsEncoderBuffer};

    ghost Value = { EncoderState };

    ghost view = { λ e. record { capacity = e.capacity; pending = drop e.start e.buffer.items; room = e.capacity - vec_len e.buffer } };

    ghost invariant = { λ e. IsEncoderBuffer e.capacity (vec_len e.buffer) (vec_capacity e.buffer) e.start };
}

// Where all bytes are gone out, the buffer is used from its front again.
#[inline]
fn restart(buffer: &mut Vec<u8>, start: &mut usize)
    requires { start.old ≤ vec_len buffer.old }
    ensures pending { drop start.new buffer.new.items ≡ drop start.old buffer.old.items }
    ensures within { start.new ≤ vec_len buffer.new }
    ensures len { vec_len buffer.new ≤ vec_len buffer.old }
    ensures capacity { vec_capacity buffer.old ≤ vec_capacity buffer.new }
    ensures all { start.new ≡ vec_len buffer.new → vec_len buffer.new ≡ 0 }
{
    if *start == buffer.len() {
        buffer.clear();
        *start = 0;
    }
}

impl StreamEncoder {
    /// The start of a stream: its greeting is pending, which is nothing in version One. It takes the
    /// memory for so many bytes here, or for the longest frame where that is more, and none later;
    /// the error is want of it.
    pub fn new(
        alloc: Global,
        version: Version,
        capacity: usize,
    ) -> Result<StreamEncoder, AllocError>
        ensures { IfOk result (λ encoder. encoder ≡ new_encoder version (max capacity (max_frame version))) }
    {
        let capacity = capacity.max(version.max_frame());
        let mut buffer = Vec::with_capacity(alloc, capacity)?;
        buffer.extend_from_slice(version.greeting())?;
        Ok(StreamEncoder {
            capacity,
            buffer,
            start: 0,
        })
    }

    /// The bytes that are to go out.
    #[inline]
    pub fn pending(&self) -> &[u8]
        ensures value { result.now ≡ self.now.pending }
        ensures most { length result.now ≤ self.now.capacity }
    {
        self.buffer.split_at(self.start).1
    }

    /// How many more bytes have room: all that the capacity has where none are pending.
    #[inline]
    pub fn room(&self) -> usize
        ensures value { result ≡ self.now.room }
        ensures most { result ≤ self.now.capacity }
        ensures all { self.now.pending ≡ [] → result ≡ self.now.capacity }
    {
        self.capacity - self.buffer.len()
    }

    /// The first so many bytes went out.
    #[inline]
    pub fn advance(&mut self, count: usize)
        requires { count ≤ length self.old.pending }
        ensures { IsAdvanced count self.old self.new }
    {
        self.start += count;
        restart(&mut self.buffer, &mut self.start);
    }

    /// Keeps the first so many bytes alone.
    pub fn truncate(&mut self, count: usize)
        requires { count ≤ length self.old.pending }
        ensures { IsCutTo count self.old self.new }
    {
        self.buffer.truncate(self.start + count);
        restart(&mut self.buffer, &mut self.start);
    }

    /// Puts the bytes of a frame last that is valid in the stream's version, where they have room.
    /// Whether they had.
    #[inline]
    pub fn append(&mut self, version: Version, frame: FrameRef<'_>) -> bool
        requires { IsValid version (frame_of frame) }
        ensures value { IsAppended version (frame_of frame.entry) result self.old self.new }
        ensures room { length (encoding version (frame_of frame.entry)) ≤ self.old.room → IsTrue result }
        ensures fits { IsTrue result → length (encoding version (frame_of frame.entry)) ≤ self.old.room }
        ensures all { self.old.pending ≡ [] → self.old.room ≡ self.old.capacity }
    {
        if self.room() < frame.encoded_len(version) {
            return false;
        }
        if frame.encode_into(version, &mut self.buffer).is_err() {
            unreachable!();
        }
        true
    }
}
