//! How a stream decoder takes the first bytes of a stream, which tell its version.
ghost use Rattle.std.specs.Prelude.{◌≡◌, ◌<◌, ◌≤◌, ◌+◌, length};
ghost use Rattle.lc_frame.specs.declared.version.Version.TheVariants.{Two};
ghost use Rattle.lc_frame.specs.Version.{greeting, IsGreetingPart};
ghost use Rattle.lc_frame.specs.Kind.{max_frame};
ghost use Rattle.lc_frame.specs.Progress.{IsDue, OpensAs, Opens};

use crate::hold::Hold;
use crate::progress::{Progress, resume};
use crate::version::{GREETING, Version};

/// What the first bytes of a stream are known to be, and how many of a piece were taken.
#[derive(Clone, Copy)]
pub(crate) enum Opening {
    /// The first byte begins no greeting, so the stream is of version One. None was taken.
    One,
    /// Part of a greeting, or nothing. All were taken.
    Part,
    /// A greeting.
    Whole(usize),
    /// A greeting that was begun, and then another byte.
    Broken(usize),
}

// The next byte of a greeting behind a part of it.
fn due_after(part: &Hold) -> u8
    requires { IsGreetingPart part.now }
    ensures { IsDue result part.now }
{
    GREETING[part.len()]
}

/// Takes bytes of a greeting, of which the buffer has a part.
pub(crate) fn take_greeting(buffer: &mut Hold, piece: &[u8]) -> Opening
    requires { IsGreetingPart buffer.old }
    ensures { OpensAs result buffer.old buffer.new piece.now }
{
    let mut taken = 0;
    'bytes: while taken < piece.len() {
        let byte = piece[taken];
        if byte != due_after(buffer) {
            if buffer.is_empty() {
                return Opening::One;
            }
            buffer.append(&[byte]);
            return Opening::Broken(taken + 1);
        }
        buffer.append(&[byte]);
        taken += 1;
        if buffer.len() == GREETING.len() {
            return Opening::Whole(taken);
        }
    }
    Opening::Part
}

/// The version of a stream as far as it is known, and how many bytes were taken.
#[derive(Clone, Copy)]
pub(crate) struct Start {
    pub(crate) version: Version,
    pub(crate) taken: usize,
}

/// Takes bytes at the start of a stream, past a greeting that becomes whole.
#[inline(never)]
pub(crate) fn open(buffer: &mut Hold, progress: &mut Progress, piece: &[u8]) -> Start
    requires { IsGreetingPart buffer.old }
    ensures { Opens buffer.old buffer.new piece.now result.version result.taken progress.new }
{
    match take_greeting(buffer, piece) {
        Opening::One => Start {
            version: Version::One,
            taken: resume(Version::One, buffer, progress, 1, piece),
        },
        Opening::Part => {
            *progress = Progress::Greeted;
            Start {
                version: Version::One,
                taken: piece.len(),
            }
        }
        Opening::Whole(taken) => {
            buffer.clear();
            let more = resume(Version::Two, buffer, progress, 1, piece.split_at(taken).1);
            Start {
                version: Version::Two,
                taken: taken + more,
            }
        }
        Opening::Broken(taken) => {
            *progress = Progress::Broken;
            Start {
                version: Version::One,
                taken,
            }
        }
    }
}
