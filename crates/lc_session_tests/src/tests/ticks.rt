//! A clock that each reading moves on: no time passes, and its readings tell how a wait went.
use lc_wake::Wake;
use std::alloc::Global;
use std::io;
use std::sync::Wait;
use std::sync::atomic::{AtomicU64, Ordering};
use std::time::{Clock, Duration};

/// A clock that goes on by a microsecond at each reading. A wait with a timeout does not read it where
/// there are news, reads it once where it was woken before it slept, and else once more for each
/// microsecond that it is to last.
#[derive(Drop)]
pub struct Ticks<R> {
    rt: R,
    readings: AtomicU64,
}

impl<R> Ticks<R> {
    /// A clock that nobody has read.
    pub fn new(rt: R) -> Ticks<R> {
        Ticks {
            rt,
            readings: AtomicU64::new(0),
        }
    }

    /// How often it was read.
    pub fn readings(&self) -> u64 {
        self.readings.load(Ordering::SeqCst)
    }

    /// How a wait went that ended like this.
    pub fn told(&self, alloc: Global, wake: Wake) -> Option<String> {
        let readings = self.readings();
        format!(in alloc; "{wake:?} {readings}").ok()
    }
}

impl<R: Wait> Wait for Ticks<R> {}

impl<R> Clock for Ticks<R> {
    fn monotonic(&self) -> io::Result<Duration> {
        let before = self.readings.fetch_add(1, Ordering::SeqCst);
        Ok(Duration::from_micros(before))
    }

    fn since_1970(&self) -> io::Result<Duration> {
        self.monotonic()
    }
}
