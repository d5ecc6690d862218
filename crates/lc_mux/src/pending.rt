//! The rest of a frame that is partly written, or of the greeting.
ghost use Rattle.std.specs.Prelude.{◌≡◌, ◌≤◌, ◌++◌, [], length, take, drop, min, IfOk};
ghost use Rattle.lc_frame.specs.declared.version.Version.TheVariants.{Two};
ghost use Rattle.lc_frame.specs.Version.{greeting};
ghost use Rattle.lc_frame.specs.Kind.{max_frame};
ghost use Rattle.lc_frame.specs.Frame.{IsValid};
ghost use Rattle.lc_frame.specs.Encoding.{encoding};

use lc_frame::{Frame, MAX_FRAME, StreamEncoder, Version};
use std::alloc::{AllocError, Global};
use std::marker::Model;

/// The unwritten bytes of a frame that is partly written, or of the greeting of a new stream.
#[derive(Drop)]
pub struct Pending {
    encoder: StreamEncoder,
}

impl Model for Pending {
    ghost use Rattle.std.specs.Prelude.{◌≡◌, ℕ, List};
    ghost use Rattle.lc_frame.specs.declared.version.Version.TheVariants.{Two};
    ghost use Rattle.lc_frame.specs.Kind.{max_frame};

    ghost Value = { List ℕ };

    ghost view = { λ pending. pending.encoder.pending };

    ghost invariant = { λ pending. pending.encoder.capacity ≡ max_frame Two };
}

impl Pending {
    /// The start of a stream: its greeting is unwritten, which is nothing in version One. It takes the memory for the
    /// longest frame of either version here and none later.
    pub(crate) fn new(alloc: Global, version: Version) -> Result<Pending, AllocError>
        ensures { IfOk result (λ pending. pending ≡ greeting version) }
    {
        let encoder = StreamEncoder::new(alloc, version, MAX_FRAME)?;
        Ok(Pending { encoder })
    }

    /// How many bytes are unwritten.
    pub(crate) fn len(&self) -> usize
        ensures value { result ≡ length self.now }
        ensures most { result ≤ max_frame Two }
    {
        self.encoder.pending().len()
    }

    /// Writes as many of them as have room to the front of a buffer.
    pub(crate) fn give(&mut self, out: &mut [u8]) -> usize
        ensures count { result ≡ min (length self.old) (length out.old) }
        ensures written { out.new ≡ take result self.old ++ drop result out.old }
        ensures rest { self.new ≡ drop result self.old }
    {
        let left = self.encoder.pending();
        let count = left.len().min(out.len());
        let (front, _) = out.split_at_mut(count);
        front.copy_from_slice(left.split_at(count).0);
        self.encoder.advance(count);
        count
    }

    /// A frame of a version is begun, where nothing of another is unwritten.
    pub(crate) fn begin(&mut self, version: Version, frame: &Frame)
        requires valid { IsValid version frame.now }
        requires nothing { self.old ≡ [] }
        ensures { self.new ≡ encoding version frame.now }
    {
        if !self.encoder.append(version, frame.view()) {
            unreachable!();
        }
    }
}
