//! The bytes of frames on their way out.
ghost use Rattle.std.specs.Prelude.{◌≡◌, ◌≤◌, [], ◌++◌, length, take, drop, IsTrue, if◌then◌else◌, IfOk};
ghost use Rattle.lc_frame.specs.Kind.{max_frame};
ghost use Rattle.lc_frame.specs.Frame.{IsValid};
ghost use Rattle.lc_frame.specs.FrameRef.{frame_of};
ghost use Rattle.lc_frame.specs.Encoding.{encoding};
ghost use Rattle.lc_driver.specs.Outgo.{new_outgo};

use lc_frame::{FrameRef, StreamEncoder, Version};
use std::alloc::{AllocError, Global};
use std::marker::Model;

/// What is left of the frame that a writer began to take, or of the greeting of a new stream.
/// Contracts see it as the version and the pending bytes.
#[derive(Debug, Drop)]
pub struct Outgo {
    version: Version,
    encoder: StreamEncoder,
}

impl Model for Outgo {
    ghost use Rattle.std.specs.Prelude.{◌≡◌};
    ghost use Rattle.lc_frame.specs.Kind.{max_frame};
    ghost use Rattle.lc_driver.specs.Outgo.{OutgoState};

    ghost Value = { OutgoState };

    ghost view = { λ outgo. record { version = outgo.version; pending = outgo.encoder.pending } };

    ghost invariant = { λ outgo. outgo.encoder.capacity ≡ max_frame outgo.version };
}

impl Outgo {
    /// The start of a stream: its greeting is pending, which is nothing in version One. It takes the
    /// memory for the version's longest frame here and none later; the error is want of it.
    pub fn new(alloc: Global, version: Version) -> Result<Outgo, AllocError>
        ensures { IfOk result (λ outgo. outgo ≡ new_outgo version) }
    {
        let encoder = StreamEncoder::new(alloc, version, version.max_frame())?;
        Ok(Outgo { version, encoder })
    }

    /// The version of the stream.
    pub fn version(&self) -> Version
        ensures { result ≡ self.now.version }
    {
        self.version
    }

    /// How many bytes are pending.
    pub fn pending(&self) -> usize
        ensures value { result ≡ length self.now.pending }
        ensures most { result ≤ max_frame self.now.version }
    {
        self.encoder.pending().len()
    }

    pub(crate) fn bytes(&self) -> &[u8]
        ensures value { result.now ≡ self.now.pending }
    {
        self.encoder.pending()
    }

    /// Drops the first so many bytes.
    pub(crate) fn advance(&mut self, count: usize)
        requires { count ≤ length self.old.pending }
        ensures pending { self.new.pending ≡ drop count self.old.pending }
        ensures version { self.new.version ≡ self.old.version }
    {
        self.encoder.advance(count);
    }

    /// Keeps the first so many bytes alone.
    pub(crate) fn cut_back(&mut self, count: usize)
        requires { count ≤ length self.old.pending }
        ensures pending { self.new.pending ≡ take count self.old.pending }
        ensures version { self.new.version ≡ self.old.version }
    {
        self.encoder.truncate(count);
    }

    /// Puts the bytes of a frame last, where there is room for all of them. There is where nothing is pending.
    pub(crate) fn append(&mut self, frame: FrameRef<'_>) -> bool
        requires { IsValid self.old.version (frame_of frame) }
        ensures after { self.new.pending ≡ (if result then self.old.pending ++ encoding self.old.version (frame_of frame.entry) else self.old.pending) }
        ensures version { self.new.version ≡ self.old.version }
        ensures room { self.old.pending ≡ [] → IsTrue result }
    {
        self.encoder.append(self.version, frame)
    }
}
