//! What the threads of a session share to wake one another.
//!
//! # Why no wake-up is lost
//!
//! No clause says that an end or a pump that sleeps is woken, so this is the argument for it. Ends and
//! pumps share six kinds of words, each read and changed by single, sequentially consistent steps: so
//! there is one order of all steps, and "before" means in it. `unpark` leaves a token that ends the
//! next `park`, or the one that goes on; a park may also end without one, so every sleeper looks again
//! after each.
//!
//! | word | what it says |
//! |---|---|
//! | `told`, of each end | how often the end was told of something: the count rises, then the end is unparked |
//! | `freed`, of each end | how often the pump popped frames that the end had put |
//! | `wants_slot`, of each end | the end waits for a place in the queue |
//! | `over` | a bit for each pump whose run has ended |
//! | `pump_sleeps`, `stopped` | the writing pump sleeps or is about to; it was asked to stop |
//!
//! An end *notes* its `told` and `freed` when one of its waits ends, and nowhere else; at first both
//! are noted as 0. An end *wants a slot* if a call was refused by 13 since its last wait ended. A wait
//! ends where `told` is not as noted, or, if the end wants a slot, where `freed` is not as noted; it
//! answers `Over` where neither holds and the run has ended of the pump that the wait is for: the
//! writing pump where the end wants a slot, else the reading pump. Else it parks, and looks again.
//!
//! - **An end waits, the reading pump wakes it.** A frame first arrives at the inbox or credit,
//!   then `told` rises, then the end is unparked. Take any look of the end that did not find the
//!   frame: the frame arrived after it, so `told` rises after it, and so after the noting. The
//!   next wait finds the count risen; or it looks before the rise, and then the unpark comes
//!   after that look and ends the park. However many things the end looks at, one after the
//!   other, this holds of each look by itself. A frame that came after the noting and was found
//!   ends the next wait once too often. What was told before the noting had arrived before it, so
//!   every look after the wait finds it.
//! - **An end wants a slot, the writing pump pops a frame of its lane.** A push is refused only if the
//!   end's lane had a place in the queue at a step of it, which is given back behind the pop of a frame
//!   of that lane ([`lc_queue`]'s documentation). So the pump gives back a place of the lane after the
//!   refused push began. Behind the pops of that look `freed` of the end rises, and then the pump reads
//!   its `wants_slot`, and unparks it if that is set. So `freed` rises after the refused push began,
//!   and that after the noting: the next wait finds it risen. Or the wait looks before the rise, and
//!   then the end had set `wants_slot` before that look, so the pump finds it set, and the unpark comes
//!   after that look and ends the park. No other end has a part in this: an end is woken by the pops
//!   of its own lane's frames alone. Where they leave none of these in the queue, the lane's own place
//!   is free, and the next call has it; where they leave some, each further pop wakes the end again. A
//!   pop between the noting and the refused push ends the wait once too often.
//! - **The writing pump sleeps, an end puts a frame.** The pump sets `pump_sleeps`, flushes,
//!   looks at the queue and at `stopped` once more, and parks only where there is nothing. The
//!   end puts its frame, and then reads `pump_sleeps`. If it finds it not set, either the pump
//!   sets it later, and then looks at a queue that has the frame; or it never sleeps before its
//!   next look at the queue. If it finds it set, it unparks the pump, which at worst ends a later
//!   park at once.
//! - **Stop.** `stopped` is set, and then the pump is unparked, always. Its last look at
//!   `stopped` before it parks finds that; or the unpark comes after the look and ends the park.
//!   Each look at the queue reads `stopped` before it pops, as its type asks, so that `Stopped`
//!   is the answer only where the queue was found empty after the stop.
//! - **A pump's run ends.** Its bit of `over` is set, and then every end is told: an end that waits
//!   looks before its `told` rises, and then the unpark comes after that look and ends its park; or it
//!   finds it risen, and looks again. Its next wait reads `over` first, and then finds neither count
//!   risen, unless more came meanwhile: it answers `Over` if the wait is for that pump, and if it is not
//!   it parks, as the other pump still runs and wakes it.
//! - **`Over` hides nothing.** A wait reads `over` before `told` and `freed`. The pump that set the bit
//!   raises these counts before that in its run, and no more until a further one. So where the bit is
//!   set and they are as noted, all that the pump did for the end came before the noting, and every look
//!   since then has found it.
//! - **A further run begins.** Its bit is taken away, for which nobody waits. An end that slept
//!   when the last run ended was told of that, and its wait ends by `Again`.
//!
//! The yields before a park come between two looks and change nothing of this. An end that is not
//! to wait for ever needs both pumps to run, or to have ended: a thread that fails, or that can't make
//! a thread, stops the session and shuts its transport down.
ghost use Rattle.std.specs.Prelude.{◌<◌};
ghost use Rattle.lc_frame.specs.Lane.{lane_count};

use crossbeam_utils::sync::{Parker, Unparker};
use lc_frame::{CHANNELS, Lane};
use std::alloc::AllocError;
use std::sync::atomic::{AtomicBool, AtomicU64, Ordering};

/// One of the two pumps.
#[derive(Clone, Copy, Debug, PartialEq, Eq)]
pub enum Pump {
    Reading,
    Writing,
}

impl Pump {
    fn bit(self) -> u64 {
        match self {
            Pump::Reading => 1,
            Pump::Writing => 2,
        }
    }
}

/// One end, as others wake it.
#[derive(Drop)]
pub(crate) struct Waker {
    // How often it was told of something.
    told: AtomicU64,
    // How often frames that it had put were popped.
    freed: AtomicU64,
    // Whether it waits for a place in the queue.
    wants_slot: AtomicBool,
    unparker: Unparker,
}

impl Waker {
    pub(crate) fn new(parker: &Parker) -> Result<Waker, AllocError> {
        Ok(Waker {
            told: AtomicU64::new(0),
            freed: AtomicU64::new(0),
            wants_slot: AtomicBool::new(false),
            unparker: parker.unparker().clone()?,
        })
    }

    // It is told of something. The count rises first, so that who is woken finds it.
    fn tell(&self) {
        self.told.fetch_add(1, Ordering::SeqCst);
        self.unparker.unpark();
    }

    // Frames that it had put were popped. The count rises first, as above.
    fn free(&self) {
        self.freed.fetch_add(1, Ordering::SeqCst);
        if self.wants_slot.load(Ordering::SeqCst) {
            self.unparker.unpark();
        }
    }
}

/// What the threads of a session share to wake one another.
pub struct Wakers {
    sending: [Waker; CHANNELS],
    receiving: [Waker; CHANNELS],
    pump: Unparker,
    // Whether the writing pump sleeps, or is about to.
    pump_sleeps: AtomicBool,
    // A bit for each pump whose run has ended.
    over: AtomicU64,
    stopped: AtomicBool,
}

// One call, wherever they are dropped.
impl Drop for Wakers {
    fn drop(self) {
        let Wakers {
            sending: _,
            receiving: _,
            pump: _,
            pump_sleeps: _,
            over: _,
            stopped: _,
        } = self;
    }
}

impl Wakers {
    pub(crate) fn new(
        sending: [Waker; CHANNELS],
        receiving: [Waker; CHANNELS],
        pump: Unparker,
    ) -> Wakers {
        Wakers {
            sending,
            receiving,
            pump,
            pump_sleeps: AtomicBool::new(false),
            over: AtomicU64::new(0),
            stopped: AtomicBool::new(false),
        }
    }

    // The waker of the end that puts on this lane.
    fn waker(&self, lane: usize) -> &Waker
        requires { lane < lane_count }
    {
        if lane < CHANNELS {
            &self.sending[lane]
        } else {
            &self.receiving[lane - CHANNELS]
        }
    }

    /// A frame came that concerns this end.
    pub fn frame_came(&self, lane: Lane) {
        self.waker(lane.index()).tell();
    }

    /// How often the end was told of something.
    pub(crate) fn told(&self, lane: Lane) -> u64 {
        self.waker(lane.index()).told.load(Ordering::SeqCst)
    }

    /// A frame was put, which the writing pump will find before it sleeps, or is woken for.
    pub(crate) fn frame_put(&self) {
        if self.pump_sleeps.load(Ordering::SeqCst) {
            self.pump.unpark();
        }
    }

    /// The writing pump says whether it sleeps. Once it has said so, it looks once more.
    pub(crate) fn set_pump_sleeps(&self, sleeps: bool) {
        self.pump_sleeps.store(sleeps, Ordering::SeqCst);
    }

    /// How often frames were popped that the end had put.
    pub(crate) fn freed(&self, lane: Lane) -> u64 {
        self.waker(lane.index()).freed.load(Ordering::SeqCst)
    }

    /// Frames of the lane were popped: its end is woken if it waits for a place in the queue.
    pub(crate) fn note_freed(&self, lane: usize)
        requires { lane < lane_count }
    {
        self.waker(lane).free();
    }

    /// The end waits for a place in the queue, or no longer does.
    pub(crate) fn set_wants_slot(&self, lane: Lane, wants: bool) {
        let waker = self.waker(lane.index());
        waker.wants_slot.store(wants, Ordering::SeqCst);
    }

    /// A run of the pump begins.
    pub fn begin_run(&self, pump: Pump) {
        self.over.fetch_and(!pump.bit(), Ordering::SeqCst);
    }

    /// A run of the pump has ended: all ends are woken.
    pub fn end_run(&self, pump: Pump) {
        self.over.fetch_or(pump.bit(), Ordering::SeqCst);
        for waker in &self.sending {
            waker.tell();
        }
        for waker in &self.receiving {
            waker.tell();
        }
    }

    /// Whether the last run of the pump has ended.
    pub(crate) fn is_over(&self, pump: Pump) -> bool {
        self.over.load(Ordering::SeqCst) & pump.bit() != 0
    }

    /// The writing pump is asked to stop.
    pub fn stop(&self) {
        self.stopped.store(true, Ordering::SeqCst);
        self.pump.unpark();
    }

    /// Whether it was.
    pub fn is_stopped(&self) -> bool {
        self.stopped.load(Ordering::SeqCst)
    }
}
