//! How far an exchange of messages is, as a line on a terminal.
use lc_cli::ErrorLine;
use std::io::{Stderr, Write};
use std::sync::atomic::{AtomicU64, Ordering};
use std::time::{Clock, Instant};

// After so many milliseconds the line is shown, and after so many more it is shown anew.
const FIRST: u64 = 1_000;

const NEXT: u64 = 100;

const BAR: &str = "####################";

/// How many bytes the streams of both sides have, of which each channel of each side carries so many
/// messages and their guarantees.
pub fn bytes_of(messages: u32) -> u64 {
    let messages = u64::from(messages);
    // Behind its number message k has k mod 13 bytes.
    let (rounds, rest) = (messages / 13, messages % 13);
    let mut lengths = 4 * messages + 78 * rounds;
    for number in 0..rest {
        lengths = lengths.saturating_add(number);
    }
    // A Send has three bytes more than its message, and an Issue five. One Issue comes first.
    lengths.saturating_add(8 * messages + 5).saturating_mul(14)
}

/// Counts the bytes that were read of both streams, and shows how many of all these are.
#[derive(Drop)]
pub struct Meter<R> {
    clock: R,
    err: Stderr,
    start: Option<Instant>,
    all: u64,
    read: AtomicU64,
    due: AtomicU64,
}

impl<R: Clock> Meter<R> {
    /// None of so many bytes are read yet.
    pub fn new(clock: R, err: Stderr, all: u64) -> Meter<R> {
        let start = Instant::now(&clock).ok();
        Meter {
            clock,
            err,
            start,
            all,
            read: AtomicU64::new(0),
            due: AtomicU64::new(FIRST),
        }
    }

    /// So many more are read.
    pub fn add(&self, count: usize) {
        let count = count as u64;
        let before = self.read.fetch_add(count, Ordering::SeqCst);
        if self.is_due() {
            self.show(before.saturating_add(count));
        }
    }

    // Whether the line is to be shown now: of several threads one learns that.
    fn is_due(&self) -> bool {
        let Some(passed) = self.passed() else {
            return false;
        };
        let due = self.due.load(Ordering::SeqCst);
        let next = passed.saturating_add(NEXT);
        passed >= due
            && self
                .due
                .compare_exchange(due, next, Ordering::SeqCst, Ordering::SeqCst)
                .is_ok()
    }

    // The milliseconds since the start.
    fn passed(&self) -> Option<u64> {
        let passed = self.start?.elapsed(&self.clock).ok()?;
        u64::try_from(passed.as_millis()).ok()
    }

    fn show(&self, read: u64) {
        let percent = read.saturating_mul(100).checked_div(self.all);
        let percent = percent.unwrap_or(0).min(100) as usize;
        let bar = BAR.get(..percent / 5).unwrap_or("");
        let mut line = ErrorLine::new();
        let _ = write!(line, "\r\x1b[Klcmux: [{bar:-<20}] {percent}%");
        let mut err = self.err;
        line.show(false, &mut err);
    }

    /// Clears the line, if it was shown.
    pub fn clear(&self) {
        if self.due.load(Ordering::SeqCst) > FIRST {
            let mut err = self.err;
            let _ = err.write_all(b"\r\x1b[K");
        }
    }
}
