//! Decoding the frame at the front of some bytes.
ghost use Rattle.lc_frame.specs.Decoded.{Decodes};

use crate::frame_fault::FrameFault;
use crate::frame_ref::FrameRef;
use crate::scan::{Scan, scan_front};
use crate::version::Version;

/// What stands at the front of some bytes.
#[derive(Clone, Copy, Debug)]
pub enum Decoded<'a> {
    /// A valid frame, and how many bytes it has.
    Whole { frame: FrameRef<'a>, used: usize },
    /// Neither a frame nor a fault: it takes more bytes to tell.
    More,
    /// Bytes that no frame begins with.
    Fault(FrameFault),
}

/// Decodes the frame at the front of the bytes, which are those of frames of a version, behind any
/// greeting. The answer is never `FrameFault::Truncated`.
#[inline(always)]
pub fn decode(version: Version, bytes: &[u8]) -> Decoded<'_>
    ensures { Decodes version result bytes.now }
{
    match scan_front(version, bytes) {
        Scan::Whole { head, used } => Decoded::Whole {
            frame: head.frame_in(version, bytes.split_at(used).0),
            used,
        },
        Scan::Fault(fault) => Decoded::Fault(fault),
        Scan::Needs(_) => Decoded::More,
    }
}
