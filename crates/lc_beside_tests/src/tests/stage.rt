//! What the threads of two sessions share: how far the others are, and when those that are held go on.
use crate::tests::way::Way;
use lc_frame::LANES;
use lc_session::Session;
use std::sync::Wait;
use std::sync::atomic::{AtomicU64, Ordering};
use std::thread::{Threads, join};
use std::time::{Clock, Duration};
use std::{io, thread};

/// The threads of both sessions: their ends, and a pump for each direction at each side.
const THREADS: u64 = 2 * LANES as u64 + 4;

/// How many microseconds an end takes to fall asleep.
const ASLEEP: u64 = 2_000;

/// What the threads of both sessions share.
#[derive(Drop)]
pub struct Stage<'a, R> {
    pub rt: &'a R,
    pub way: Way,
    sessions: [Session; 2],
    /// How many ends are where they are held, how many directions are done, how many other threads are
    /// through; whether those that are held may go on, and how many of these are through.
    begun: AtomicU64,
    arrived: AtomicU64,
    through: AtomicU64,
    opened: AtomicU64,
    left: AtomicU64,
}

// Sleeps until a count is as large as this.
fn await_count<R: Wait + Clock>(rt: &R, count: &AtomicU64, least: u64) {
    for _ in rt.forever() {
        if count.load(Ordering::SeqCst) >= least {
            return;
        }
        thread::sleep(rt, Duration::from_micros(500));
    }
}

impl<'a, R: Wait + Clock> Stage<'a, R> {
    pub fn new(rt: &'a R, way: Way, sessions: [Session; 2]) -> Stage<'a, R> {
        Stage {
            rt,
            way,
            sessions,
            begun: AtomicU64::new(0),
            arrived: AtomicU64::new(0),
            through: AtomicU64::new(0),
            opened: AtomicU64::new(0),
            left: AtomicU64::new(0),
        }
    }

    /// All ends that are held are where they are, or asleep where that is behind a park.
    pub fn await_begun(&self) {
        await_count(self.rt, &self.begun, self.way.held.count());
        thread::sleep(self.rt, Duration::from_micros(ASLEEP));
    }

    /// Says that this thread's end is held, by a sleep of a nanosecond: by that `scripts/slow.c` knows it.
    pub fn mark(&self) {
        thread::sleep(self.rt, Duration::from_nanos(1));
    }

    pub fn begin(&self) {
        self.begun.fetch_add(1, Ordering::SeqCst);
    }

    /// An end goes on once all others are through.
    pub fn await_open(&self) {
        await_count(self.rt, &self.opened, 1);
    }

    pub fn hold(&self) {
        self.begin();
        self.await_open();
    }

    /// All messages of a direction arrived. The last one stops both sessions.
    pub fn arrive(&self) {
        let before = self.arrived.fetch_add(1, Ordering::SeqCst);
        if before.saturating_add(1) == self.way.held.directions() {
            for session in &self.sessions {
                session.stop();
            }
        }
    }

    pub fn is_through(&self) {
        self.through.fetch_add(1, Ordering::SeqCst);
    }

    /// An end that was held is through.
    pub fn has_left(&self) {
        self.left.fetch_add(1, Ordering::SeqCst);
    }
}

impl<R: Threads + Wait + Clock> Stage<'_, R> {
    /// Once all other ends and the four pumps are through, those that are held go on. `slow.c` lets a thread go
    /// on when a further one is made.
    pub fn open(&self) {
        let held = self.way.held.count();
        await_count(self.rt, &self.through, THREADS.saturating_sub(held));
        self.opened.store(1, Ordering::SeqCst);
        for _ in self.rt.forever() {
            join(self.rt, || (), || ());
            if self.left.load(Ordering::SeqCst) >= held {
                return;
            }
        }
    }
}

/// A clock whose first reading holds who reads it.
#[derive(Drop)]
pub struct Gate<'a, R> {
    stage: &'a Stage<'a, R>,
    readings: AtomicU64,
}

impl<'a, R> Gate<'a, R> {
    pub fn new(stage: &'a Stage<'a, R>) -> Gate<'a, R> {
        Gate {
            stage,
            readings: AtomicU64::new(0),
        }
    }
}

impl<R: Wait> Wait for Gate<'_, R> {}

impl<R: Wait + Clock> Clock for Gate<'_, R> {
    fn monotonic(&self) -> io::Result<Duration> {
        if self.readings.fetch_add(1, Ordering::SeqCst) == 0 {
            self.stage.hold();
        }
        self.stage.rt.monotonic()
    }

    fn since_1970(&self) -> io::Result<Duration> {
        self.monotonic()
    }
}
