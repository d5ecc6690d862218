//! The kinds of frame: the table that the format rests on.
ghost use Rattle.std.specs.Prelude.{◌≡◌, ◌≤◌, ◌↔◌, IsTrue};
ghost use Rattle.lc_frame.specs.Kind.{code_of, kind_at, has, width_of, width_len, IsInRange, is_in_range, fault_of, body_len, header_len};

use crate::frame::{MAX_AMOUNT, MAX_TOTAL};
use crate::frame_fault::FrameFault;
use crate::version::Version;

/// What a frame does.
#[derive(Clone, Copy, Debug, PartialEq, Eq)]
pub enum Kind {
    // codes: begin kinds
    Send,
    Issue,
    Absolve,
    Plead,
    LimitSending,
    LimitReceiving,
    Finish,
    // codes: end
}

impl Kind {
    /// The code of the kind in a frame's tag.
    #[inline]
    pub fn code(self) -> u8
        ensures { result ≡ code_of self }
    {
        match self {
            // codes: begin codes of kinds
            Kind::Send => 1,
            Kind::Issue => 2,
            Kind::Absolve => 3,
            Kind::Plead => 4,
            Kind::LimitSending => 5,
            Kind::LimitReceiving => 6,
            Kind::Finish => 7,
            // codes: end
        }
    }

    /// The kind of a code, `None` where there is none.
    #[inline]
    pub(crate) fn from_code(code: u8) -> Option<Kind>
        ensures { result ≡ kind_at code }
    {
        match code {
            // codes: begin kinds of codes
            1 => Some(Kind::Send),
            2 => Some(Kind::Issue),
            3 => Some(Kind::Absolve),
            4 => Some(Kind::Plead),
            5 => Some(Kind::LimitSending),
            6 => Some(Kind::LimitReceiving),
            7 => Some(Kind::Finish),
            // codes: end
            _ => None,
        }
    }

    /// Whether a version has the kind.
    #[inline]
    pub(crate) fn is_in(self, version: Version) -> bool
        ensures { result ≡ has version self }
    {
        match self {
            Kind::Finish => version.has_finish(),
            _ => true,
        }
    }

    /// How many bytes the number behind the tag has.
    #[inline]
    pub(crate) fn width(self, version: Version) -> usize
        ensures { result ≡ width_len (width_of version self) }
    {
        match self {
            Kind::Send => match version {
                Version::One => size_of::<u16>(),
                Version::Two => size_of::<u32>(),
            },
            Kind::Issue | Kind::Absolve | Kind::Plead => size_of::<u32>(),
            Kind::LimitSending | Kind::LimitReceiving => size_of::<u64>(),
            Kind::Finish => 0,
        }
    }

    /// How many bytes the tag and the number have.
    #[inline]
    pub(crate) fn header_len(self, version: Version) -> usize
        ensures { result ≡ header_len version self }
    {
        1 + self.width(version)
    }

    /// How many bytes stand behind the number.
    #[inline]
    pub(crate) fn body_len(self, number: u64) -> usize
        ensures { result ≡ body_len self number }
    {
        match self {
            Kind::Send => number as usize,
            _ => 0,
        }
    }

    /// Whether a frame of this kind may carry the number.
    #[inline]
    pub(crate) fn allows(self, version: Version, number: u64) -> bool
        ensures fact { IsTrue result ↔ IsInRange version self number }
        ensures value { result ≡ is_in_range version self number }
    {
        match self {
            Kind::Send => 1 <= number && number <= version.max_body() as u64,
            Kind::Issue | Kind::Absolve => 1 <= number && number <= u64::from(MAX_AMOUNT),
            Kind::Plead => number <= u64::from(MAX_AMOUNT),
            Kind::LimitSending | Kind::LimitReceiving => number <= MAX_TOTAL,
            Kind::Finish => number == 0,
        }
    }

    /// The fault that a number out of range is.
    #[inline]
    pub(crate) fn fault_of(self, number: u64) -> FrameFault
        ensures { result ≡ fault_of self number }
    {
        match self {
            Kind::Send if number == 0 => FrameFault::ZeroLength,
            _ => FrameFault::BadNumber,
        }
    }
}
