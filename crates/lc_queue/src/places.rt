//! Which places of a queue are taken.
ghost use Rattle.std.specs.Prelude.{◌<◌};
ghost use Rattle.lc_frame.specs.Lane.{lane_count};

use lc_frame::{Frame, LANES};
use std::sync::Wait;
use std::sync::atomic::{AtomicU64, Ordering};

/// The places of a queue: one that is each lane's own, and `slots` that all lanes share. No clause
/// speaks of them; the crate's documentation says why they are never more than the queue has.
#[derive(Drop)]
pub(crate) struct Places {
    // How many places each lane has: the first of them is its own, the others are shared ones.
    taken: [AtomicU64; LANES],
    // How many shared places are taken.
    shared: AtomicU64,
    slots: u64,
}

impl Places {
    pub(crate) fn new(slots: u32) -> Places {
        Places {
            taken: [0; LANES].map(|count| AtomicU64::new(count)),
            shared: AtomicU64::new(0),
            slots: u64::from(slots),
        }
    }

    // Takes a shared place. It tries again only where another thread has just taken or given back one.
    fn take_shared<R: Wait>(&self, rt: &R) -> bool {
        let mut taken = self.shared.load(Ordering::SeqCst);
        for _ in rt.forever() {
            if taken >= self.slots {
                return false;
            }
            let more = taken + 1;
            match self
                .shared
                .compare_exchange(taken, more, Ordering::SeqCst, Ordering::SeqCst)
            {
                Ok(_) => return true,
                Err(now) => taken = now,
            }
        }
        unreachable!()
    }

    /// Takes a place for a frame of the lane: the lane's own, or else a shared one. Whether one was
    /// free. Only the lane's end calls it.
    pub(crate) fn take<R: Wait>(&self, rt: &R, lane: u8) -> bool
        requires { lane < lane_count }
    {
        let taken = &self.taken[usize::from(lane)];
        if taken.load(Ordering::SeqCst) == 0 {
            taken.fetch_add(1, Ordering::SeqCst);
            return true;
        }
        if !self.take_shared(rt) {
            return false;
        }
        // Where the lane's last frame was popped meanwhile, this one has the lane's own place.
        if taken.fetch_add(1, Ordering::SeqCst) == 0 {
            self.shared.fetch_sub(1, Ordering::SeqCst);
        }
        true
    }

    /// Gives back a place of the lane: a shared one, or its own if that is its last.
    pub(crate) fn give_back(&self, lane: u8)
        requires { lane < lane_count }
    {
        let taken = &self.taken[usize::from(lane)];
        if taken.fetch_sub(1, Ordering::SeqCst) > 1 {
            self.shared.fetch_sub(1, Ordering::SeqCst);
        }
    }

    /// Gives back the place of the frame that was popped, if one was.
    pub(crate) fn note_popped(&self, popped: &Option<Frame>) {
        if let Some(frame) = popped {
            self.give_back(frame.lane());
        }
    }
}
