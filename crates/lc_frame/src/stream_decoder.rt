//! Finding the frames of a stream that comes in pieces.
ghost use Rattle.std.specs.Prelude.{◌≡◌, ◌<◌, ◌≤◌, ℕ, [], length, take, All, IsTrue, false, IfOk, IfSome, IfNone};
ghost use Rattle.lc_frame.specs.declared.frame.Frame.{Frame};
ghost use Rattle.lc_frame.specs.declared.frame_fault.FrameFault.{FrameFault};
ghost use Rattle.lc_frame.specs.FrameRef.{frame_of};
ghost use Rattle.lc_frame.specs.Decoded.{Decodes};
ghost use Rattle.lc_frame.specs.Stored.{nothing_stored, stored_in, IsSettled, fed, IsValidIn, encoding_in, HasFrame, HasFault, IsUndecided, IsDecided};
ghost use Rattle.lc_frame.specs.declared.fill.Filled.TheVariants.{Few};
ghost use Rattle.lc_frame.specs.Fill.{FilledAs, LacksMore};
ghost use Rattle.lc_frame.specs.StreamDecoder.{EndsAs, TakesMore};
ghost use Rattle.lc_frame.specs.declared.channel.Channel.{Channel};
ghost use Rattle.lc_frame.specs.Begun.{HasBegun, BeginsAtMost, HasBegunAtMost, TakesLonger};
ghost use Rattle.lc_frame.specs.declared.frame_fault.FrameFault.TheVariants.{ZeroLength, BadNumber};
ghost use Rattle.lc_frame.specs.Numbers.{HasNumber};
ghost use Rattle.lc_frame.specs.Progress.{Feeds};

use crate::begun::{BegunSend, begun_send};
use crate::decoded::Decoded;
use crate::fill::{Fill, Filled};
use crate::frame_fault::FrameFault;
use crate::frame_ref::FrameRef;
use crate::greeting::open;
use crate::hold::{FILL_LEN, Hold, MOST_FILLED};
use crate::out_of_range::{OutOfRange, number_in_front};
use crate::progress::{FEW, Progress, leap_within, take_in};
use crate::scan::{Scan, scan_front};
use crate::version::Version;
use std::alloc::{AllocError, Global};
use std::fmt;
use std::fmt::{Debug, Formatter};
use std::marker::Model;

/// Finds the frames of a stream that comes in pieces, and by its first bytes the version. Contracts
/// see it as the version, where it is known, and the bytes that it took since then and since its last
/// whole frame was cleared.
#[derive(Drop)]
pub struct StreamDecoder {
    buffer: Hold,
    progress: Progress,
    version: Version,
}

impl Model for StreamDecoder {
    ghost use Rattle.lc_frame.specs.Progress.{Remembers, known_version};
    ghost use Rattle.lc_frame.specs.Stored.{Stored};

    ghost Value = { Stored };

    ghost view = { λ decoder. record { version = known_version decoder.version decoder.progress; bytes = decoder.buffer } };

    ghost invariant = { λ decoder. Remembers decoder.version decoder.progress decoder.buffer };
}

impl Debug for StreamDecoder {
    fn fmt<W: fmt::Write>(&self, f: &mut Formatter<W>) -> fmt::Result {
        f.debug_struct("StreamDecoder")
            .field("version", &self.version())
            .field("held", &self.buffer.as_slice())
            .finish()
    }
}

impl StreamDecoder {
    /// A decoder at the start of a stream. It takes the memory for `MAX_FRAME` bytes here and none
    /// later; the error is want of it.
    pub fn new(alloc: Global) -> Result<StreamDecoder, AllocError>
        ensures { IfOk result (λ decoder. decoder ≡ nothing_stored) }
    {
        Ok(StreamDecoder {
            buffer: Hold::new(alloc)?,
            progress: Progress::Greeted,
            version: Version::One,
        })
    }

    /// Takes the shortest front of the piece after which a frame or a fault stands, or all of it
    /// where none comes to stand, and answers how many bytes it took. It goes past a greeting. While
    /// a whole frame stands, and after a fault, it takes 0.
    #[inline(always)]
    pub fn feed(&mut self, piece: &[u8]) -> usize
        ensures count { result ≤ length piece.now }
        ensures held { self.new ≡ fed self.old (take result piece.now) }
        ensures shortest { (k : ℕ) → k < result → IsUndecided (fed self.old (take k piece.now)) }
        ensures stop { result < length piece.now → IsDecided self.new }
        ensures stands { IsDecided self.old → result ≡ 0 }
    {
        match self.progress {
            Progress::Wants(need) => {
                if piece.len() < need - self.buffer.len() {
                    self.buffer.append(piece);
                    return piece.len();
                }
                take_in(
                    self.version,
                    &mut self.buffer,
                    &mut self.progress,
                    need,
                    piece,
                )
            }
            Progress::Whole(_) => 0,
            Progress::Fault(_) => 0,
            Progress::Greeted => {
                let start = open(&mut self.buffer, &mut self.progress, piece);
                self.version = start.version;
                start.taken
            }
            Progress::Broken => 0,
        }
    }

    /// Takes all of a piece that is too short for more to be known of what is stored, or else nothing.
    /// Whether it did.
    #[inline(always)]
    pub fn take_part(&mut self, piece: &[u8]) -> bool
        ensures took { IsTrue result → self.new ≡ fed self.old piece.now }
        ensures undecided { IsTrue result → IsUndecided self.new }
        ensures other { result ≡ false → self.new ≡ self.old }
    {
        match self.progress {
            Progress::Wants(need) => {
                let missing = need - self.buffer.len();
                if piece.len() < missing {
                    self.buffer.append(piece);
                    return true;
                }
                false
            }
            Progress::Whole(_) => false,
            Progress::Fault(_) => false,
            Progress::Greeted => false,
            Progress::Broken => false,
        }
    }

    /// Does what `feed` does where part of a frame, of few bytes, is stored and few come, and where the
    /// frame that stands or is begun then has at most `most` bytes, its tag and its number among them.
    /// Else it answers `None` and does nothing.
    #[inline(always)]
    pub fn feed_few(&mut self, piece: &[u8], most: usize) -> Option<usize>
        ensures feeds { IfSome result (λ n. Feeds self.old self.new piece.now n) }
        ensures within { IfSome result (λ n. HasBegunAtMost most self.new) }
        ensures none { IfNone result (self.new ≡ self.old) }
    {
        match self.progress {
            Progress::Wants(need) => {
                if self.buffer.len() > FEW || piece.len() > FEW {
                    return None;
                }
                leap_within(
                    self.version,
                    &mut self.buffer,
                    &mut self.progress,
                    need,
                    piece,
                    most,
                )
            }
            Progress::Whole(_) => None,
            Progress::Fault(_) => None,
            Progress::Greeted => None,
            Progress::Broken => None,
        }
    }

    /// Decodes the front of a piece, as [`decode`](crate::decode) does, where nothing is stored of a
    /// stream of this version. A piece that is `Decoded::More` is taken in as it is decoded, and nothing
    /// is taken else. Where the frame that stands or is begun there has more than `most` bytes, its tag
    /// and its number among them, the answer is `None`, and nothing is taken.
    #[inline(always)]
    pub fn decode_or_take<'a>(
        &mut self,
        version: Version,
        piece: &'a [u8],
        most: usize,
    ) -> Option<Decoded<'a>>
        requires { self.old ≡ stored_in version [] }
        ensures decodes { IfSome result (λ decoded. Decodes version decoded piece.now) }
        ensures held { IfSome result (λ decoded. TakesMore decoded self.old piece.now self.new) }
        ensures within { IfSome result (λ decoded. BeginsAtMost version most piece.now) }
        ensures none { IfNone result (self.new ≡ self.old) }
        ensures longer { IfNone result (TakesLonger version most piece.now) }
    {
        match scan_front(version, piece) {
            Scan::Whole { head, used } if used <= most => Some(Decoded::Whole {
                frame: head.frame_in(version, piece.split_at(used).0),
                used,
            }),
            Scan::Whole { .. } => None,
            Scan::Fault(fault) => Some(Decoded::Fault(fault)),
            Scan::Needs(more) if more <= most => {
                self.buffer.append(piece);
                self.progress = Progress::Wants(more);
                Some(Decoded::More)
            }
            Scan::Needs(_) => None,
        }
    }

    /// Inside a frame that lacks more than 512 bytes, has memory filled where its next bytes are stored, and
    /// stores those that were given: at most 4,096, and never the frame's last. So they need no other memory
    /// on their way.
    #[inline]
    #[tactic(auto, using(crate::proofs::Fronts::frame_fits))]
    pub fn fill<R, F: Fill<R>>(&mut self, filler: &F, source: &mut R) -> Filled
        ensures filled { FilledAs F.fills result source.old source.new self.old self.new }
        ensures few { result ≡ Few → ¬ LacksMore self.old }
    {
        match self.progress {
            Progress::Wants(need) => {
                let lacks = need - self.buffer.len();
                if lacks <= FILL_LEN {
                    return Filled::Few;
                }
                // Zeros of a constant count are written fast.
                let answer = if lacks <= MOST_FILLED {
                    self.buffer.fill(FILL_LEN, filler, source)
                } else {
                    self.buffer.fill(MOST_FILLED, filler, source)
                };
                match answer {
                    Some(count) => Filled::Took(count),
                    None => Filled::Failed,
                }
            }
            Progress::Whole(_) => Filled::Few,
            Progress::Fault(_) => Filled::Few,
            Progress::Greeted => Filled::Few,
            Progress::Broken => Filled::Few,
        }
    }

    /// The version of the stream: `None` before its first byte, and within a greeting or where one is
    /// broken.
    #[inline]
    pub fn version(&self) -> Option<Version>
        ensures { result ≡ self.now.version }
    {
        match self.progress {
            Progress::Wants(_) => Some(self.version),
            Progress::Whole(_) => Some(self.version),
            Progress::Fault(_) => Some(self.version),
            Progress::Greeted => None,
            Progress::Broken => None,
        }
    }

    /// How many bytes are stored: those that were taken since the last whole frame was cleared, and
    /// since a greeting was whole.
    #[inline]
    pub fn stored(&self) -> usize
        ensures value { result ≡ length self.now.bytes }
        ensures bytes { All (λ b. b < 256) self.now.bytes }
        ensures settled { IsSettled self.now }
    {
        let stored = self.buffer.as_slice();
        stored.len()
    }

    /// The bytes that are stored.
    #[inline]
    pub fn bytes(&self) -> &[u8]
        ensures { result.now ≡ self.now.bytes }
    {
        self.buffer.as_slice()
    }

    /// The whole frame, `None` where there is none.
    #[inline]
    pub fn frame(&self) -> Option<FrameRef<'_>>
        ensures found { IfSome result (λ f. IsValidIn self.now.version (frame_of f) × (self.now.bytes ≡ encoding_in self.now.version (frame_of f))) }
        ensures none { IfNone result ((f : Frame) → ¬ HasFrame f self.now) }
    {
        match self.progress {
            Progress::Wants(_) => None,
            Progress::Whole(head) => Some(head.frame_in(self.version, self.buffer.as_slice())),
            Progress::Fault(_) => None,
            Progress::Greeted => None,
            Progress::Broken => None,
        }
    }

    /// The Send that is begun, where no frame is whole; `None` where none is, or where its length is not
    /// there yet.
    #[inline]
    pub fn begun(&self) -> Option<BegunSend>
        ensures some { IfSome result (λ b. IsUndecided self.now × HasBegun b.channel b.len self.now) }
        ensures none { IfNone result (IsUndecided self.now → (c : Channel) (len : ℕ) → ¬ HasBegun c len self.now) }
    {
        match self.progress {
            Progress::Wants(_) => begun_send(self.version, self.buffer.as_slice()),
            Progress::Whole(_) => None,
            Progress::Fault(_) => None,
            Progress::Greeted => None,
            Progress::Broken => None,
        }
    }

    /// Drops a whole frame, and does nothing where there is none.
    #[inline]
    pub fn clear(&mut self)
        ensures whole { (f : Frame) → HasFrame f self.old → self.new ≡ record self.old { bytes = [] } }
        ensures other { ((f : Frame) → ¬ HasFrame f self.old) → self.new ≡ self.old }
        ensures fault { (e : FrameFault) → HasFault e self.old → self.new ≡ self.old }
    {
        match self.progress {
            Progress::Wants(_) => {}
            Progress::Whole(_) => {
                self.buffer.clear();
                self.progress = Progress::Wants(1);
            }
            Progress::Fault(_) => {}
            Progress::Greeted => {}
            Progress::Broken => {}
        }
    }

    /// The fault of the stream, F1 to F3, which is kept for good; `None` where there is none.
    pub fn fault(&self) -> Option<FrameFault>
        ensures found { IfSome result (λ fault. HasFault fault self.now) }
        ensures none { IfNone result ((fault : FrameFault) → ¬ HasFault fault self.now) }
    {
        match self.progress {
            Progress::Wants(_) => None,
            Progress::Whole(_) => None,
            Progress::Fault(fault) => Some(fault),
            Progress::Greeted => None,
            Progress::Broken => Some(FrameFault::BadTag),
        }
    }

    /// The number that is out of range, and what its tag names, after F2 and F3; `None` where neither
    /// stands.
    pub fn out_of_range(&self) -> Option<OutOfRange>
        ensures found { IfSome result (λ o. HasNumber o self.now) }
        ensures none { IfNone result ((¬ HasFault ZeroLength self.now) × (¬ HasFault BadNumber self.now)) }
    {
        match self.fault()? {
            FrameFault::ZeroLength | FrameFault::BadNumber => {
                number_in_front(self.version, self.buffer.as_slice())
            }
            FrameFault::BadTag | FrameFault::Truncated => None,
        }
    }

    /// What it means that the stream ends here: the fault that is kept, `Truncated` where part of a
    /// frame or of a greeting is there, which is not kept, else nothing.
    pub fn end(&self) -> Result<(), FrameFault>
        ensures { EndsAs result self.now }
    {
        match self.progress {
            Progress::Wants(_) | Progress::Greeted => {
                if self.buffer.is_empty() {
                    Ok(())
                } else {
                    Err(FrameFault::Truncated)
                }
            }
            Progress::Whole(_) => Ok(()),
            Progress::Fault(fault) => Err(fault),
            Progress::Broken => Err(FrameFault::BadTag),
        }
    }
}
