//! Why bytes are no frame.
ghost use Rattle.std.specs.Prelude.{◌≡◌, Some};
ghost use Rattle.std.specs.Option.{option_map};
ghost use Rattle.lc_frame.specs.FrameFault.{fault_number, fault_sentence};

use std::error::Error;
use std::fmt;
use std::fmt::Display;

/// Why the bytes of a stream are no frame.
#[derive(Clone, Copy, Debug, PartialEq, Eq)]
pub enum FrameFault {
    // codes: begin faults
    /// The first byte names no kind of frame or no channel, or a byte differs from the greeting.
    BadTag,
    /// The length of a message is 0.
    ZeroLength,
    /// A number is out of its range.
    BadNumber,
    /// The stream ends within a frame or a greeting.
    Truncated,
    // codes: end
}

impl FrameFault {
    /// The fault's number, 1 to 4: it is printed as F1 to F4.
    pub fn number(self) -> u8
        ensures { result ≡ fault_number self }
    {
        match self {
            // codes: begin numbers of faults
            FrameFault::BadTag => 1,
            FrameFault::ZeroLength => 2,
            FrameFault::BadNumber => 3,
            FrameFault::Truncated => 4,
            // codes: end
        }
    }

    /// What the fault with this number says.
    pub fn sentence_of(number: u32) -> Option<&'static str>
        ensures { option_map (λ sentence. sentence.now) result ≡ fault_sentence number }
    {
        let sentence = match number {
            // codes: begin sentences of faults
            1 => "a byte names no kind or channel, or is not the greeting's",
            2 => "a message has length 0",
            3 => "a number in a frame is out of its range",
            4 => "the stream ends within a frame or a greeting",
            // codes: end
            _ => return None,
        };
        Some(sentence)
    }

    /// What the fault says.
    pub fn sentence(self) -> &'static str
        ensures { fault_sentence (fault_number self) ≡ Some result.now }
    {
        match FrameFault::sentence_of(u32::from(self.number())) {
            Some(sentence) => sentence,
            None => unreachable!(),
        }
    }
}

impl Display for FrameFault {
    fn fmt<W: fmt::Write>(&self, f: &mut fmt::Formatter<W>) -> fmt::Result {
        f.write_str(self.sentence())
    }
}

impl Error for FrameFault {}
