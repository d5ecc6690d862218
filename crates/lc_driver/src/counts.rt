//! What a device counts.
ghost use Rattle.std.specs.Prelude.{◌≡◌};
ghost use Rattle.lc_driver.specs.Counts.{CountsCall, count_up, with_failure};

use std::io;
use std::io::ErrorKind;

/// What a device counted. At `u64::MAX` a count stays.
#[derive(Clone, Copy, Debug)]
pub struct Counts {
    /// The reads and writes that were made.
    pub calls: u64,
    /// The calls that failed.
    pub failures: u64,
    /// The reads and writes, asked for at least one byte, that succeeded and gave or took none.
    pub ends: u64,
    /// The kind of the last failure.
    pub last_failure: Option<ErrorKind>,
}

fn count_up(count: u64) -> u64
    ensures { result ≡ count_up count }
{
    count.saturating_add(1)
}

impl Counts {
    /// A read or a write, asked for so many bytes, gave this answer.
    #[inline]
    pub(crate) fn note_call(&mut self, answer: &io::Result<usize>, asked: usize)
        ensures { CountsCall answer.now asked self.old self.new }
    {
        self.calls = count_up(self.calls);
        match answer {
            Ok(count) => {
                if *count == 0 && asked > 0 {
                    self.ends = count_up(self.ends);
                }
            }
            Err(error) => self.note_failure(error),
        }
    }

    /// A call failed.
    pub(crate) fn note_failure(&mut self, error: &io::Error)
        ensures { self.new ≡ with_failure self.old error.now }
    {
        self.failures = count_up(self.failures);
        self.last_failure = Some(error.kind());
    }
}
