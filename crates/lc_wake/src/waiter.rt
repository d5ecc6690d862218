//! How an end waits.
use crate::wakers::{Pump, Wakers};
use crossbeam_utils::sync::Parker;
use lc_frame::Lane;
use std::alloc::Global;
use std::sync::{Arc, Wait};
use std::thread;
use std::time::{Clock, Duration};

/// How often an end that found nothing yields the processor before it sleeps. What a wait takes
/// with that is in `docs/explanation/performance.md`.
const YIELDS: u32 = 1;

/// Why a wait ended. It is advice: nothing is promised of it.
#[derive(Clone, Copy, Debug, PartialEq, Eq)]
pub enum Wake {
    /// Something may have changed: look again.
    Again,
    /// Nothing came since the end's last wait, and unless a further run begins nothing more comes: the
    /// run has ended of the pump that the wait was for, or the end is finished.
    ///
    /// Where a call was refused by 13 since the last wait, the wait was for the writing pump, which makes
    /// room in the queue; else for the reading pump, by which guarantees and messages arrive. So an end
    /// whose peer has ended its stream still waits for room in the queue, and an end whose session was
    /// stopped still waits for messages.
    Over,
}

/// What an end waits by. One thread at a time has it.
pub struct Waiter {
    shared: Arc<Wakers, Global>,
    parker: Parker,
    lane: Lane,
    // The counts as they stood when its last wait ended.
    told: u64,
    freed: u64,
    // Whether it met a full queue since then.
    wants_slot: bool,
}

// One call, wherever one is dropped.
impl Drop for Waiter {
    fn drop(self) {
        let Waiter {
            shared: _,
            parker: _,
            lane: _,
            told: _,
            freed: _,
            wants_slot: _,
        } = self;
    }
}

impl Waiter {
    pub(crate) fn new(shared: Arc<Wakers, Global>, parker: Parker, lane: Lane) -> Waiter {
        Waiter {
            shared,
            parker,
            lane,
            told: 0,
            freed: 0,
            wants_slot: false,
        }
    }

    /// The end put a frame.
    pub fn frame_put(&self) {
        self.shared.frame_put();
    }

    /// The end met a full queue: its next wait is for a place there.
    pub fn met_full_queue(&mut self) {
        self.wants_slot = true;
    }

    // The pump without which the next wait is in vain.
    fn awaited(&self) -> Pump {
        if self.wants_slot {
            Pump::Writing
        } else {
            Pump::Reading
        }
    }

    // What the end was told since its last wait ended, if anything. It looks for the end of a run
    // first: what the pump did before that is found by the looks behind it.
    fn news(&self) -> Option<Wake> {
        let over = self.shared.is_over(self.awaited());
        let told = self.shared.told(self.lane) != self.told;
        let freed = self.wants_slot && self.shared.freed(self.lane) != self.freed;
        if told || freed {
            Some(Wake::Again)
        } else if over {
            Some(Wake::Over)
        } else {
            None
        }
    }

    // Yields while there are no news, a few times.
    fn yield_first(&self) -> Option<Wake> {
        for _ in 0..YIELDS {
            match self.news() {
                Some(wake) => return Some(wake),
                None => thread::yield_now(),
            }
        }
        self.news()
    }

    // Sleeps until there are news.
    fn sleep<R: Wait>(&self, rt: &R) -> Wake {
        for _ in rt.forever() {
            match self.news() {
                Some(wake) => return wake,
                None => self.parker.park(rt),
            }
        }
        unreachable!()
    }

    // Says that it wants a slot, if it does. The pump finds this behind each pop that `news` has not
    // found.
    fn ask(&self) {
        if self.wants_slot {
            self.shared.set_wants_slot(self.lane, true);
        }
    }

    // The wait has ended: what came so far is told by that. The counts are noted here alone, so
    // however often the end looks before its next wait, that misses nothing which came after a look.
    fn end_wait(&mut self) {
        if self.wants_slot {
            self.shared.set_wants_slot(self.lane, false);
            self.wants_slot = false;
        }
        self.told = self.shared.told(self.lane);
        self.freed = self.shared.freed(self.lane);
    }

    /// Sleeps until something came that concerns this end since its last wait ended, or since it was
    /// made: a frame on its channel, where it met a full queue the pop of a frame that it had put, or the
    /// end of a pump's run. What came since then, and was found by a look already, ends it too.
    pub fn wait<R: Wait>(&mut self, rt: &R) -> Wake {
        self.ask();
        let wake = match self.yield_first() {
            Some(wake) => wake,
            None => self.sleep(rt),
        };
        self.end_wait();
        wake
    }

    /// The same, and no longer than this. It may end earlier without a reason.
    pub fn wait_timeout<R: Wait + Clock>(&mut self, rt: &R, timeout: Duration) -> Wake {
        self.ask();
        if self.yield_first().is_none() {
            self.parker.park_timeout(rt, timeout);
        }
        let wake = self.news().unwrap_or(Wake::Again);
        self.end_wait();
        wake
    }
}
