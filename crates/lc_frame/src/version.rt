//! The versions of the format.
ghost use Rattle.std.specs.Prelude.{◌≡◌, ◌≤◌};
ghost use Rattle.lc_frame.specs.declared.version.Version.TheVariants.{Two};
ghost use Rattle.lc_frame.specs.Version.{greeting};
ghost use Rattle.lc_frame.specs.declared.kind.Kind.TheVariants.{Finish};
ghost use Rattle.lc_frame.specs.Kind.{max_body, max_frame, has};

use crate::encoding::{MAX_FRAME, SHORT};
use crate::frame::MAX_BODY;

/// A version of the format. A stream of version Two begins with a greeting of four bytes, and the
/// length of a message has four bytes there, where it has two in version One, which has no Finish.
/// All else is one.
#[derive(Clone, Copy, Debug, PartialEq, Eq)]
pub enum Version {
    One,
    Two,
}

// The longest message of version One, in bytes.
const MAX_SHORT_BODY: usize = 65_535;

/// The bytes that a stream of version Two begins with.
pub const GREETING: [u8; 4] = [0x4c, 0x43, 0x4d, 0x02];

impl Version {
    /// The bytes in front of a stream's frames: none in version One.
    pub fn greeting(self) -> &'static [u8]
        ensures { result.now ≡ greeting self }
    {
        match self {
            Version::One => &[],
            Version::Two => &GREETING,
        }
    }

    /// The longest message, in bytes.
    #[inline]
    pub fn max_body(self) -> usize
        ensures { result ≡ max_body self }
    {
        match self {
            Version::One => MAX_SHORT_BODY,
            Version::Two => MAX_BODY,
        }
    }

    /// The longest frame, in bytes: a Send of the longest message.
    #[inline]
    pub fn max_frame(self) -> usize
        ensures value { result ≡ max_frame self }
        ensures most { result ≤ max_frame Two }
    {
        match self {
            Version::One => SHORT + MAX_SHORT_BODY,
            Version::Two => MAX_FRAME,
        }
    }

    /// Whether a client may finish a channel: whether there are frames that say so.
    #[inline]
    pub fn has_finish(self) -> bool
        ensures { result ≡ has self Finish }
    {
        matches!(self, Version::Two)
    }
}
