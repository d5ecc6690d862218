//! How the writing pump waits.
ghost use Rattle.std.specs.Prelude.{◌<◌};
ghost use Rattle.lc_frame.specs.Lane.{lane_count};

use crate::wakers::{Pump, Wakers};
use crossbeam_utils::sync::Parker;
use lc_frame::LANES;
use std::alloc::Global;
use std::sync::{Arc, Wait};
use std::thread;

/// How often the pump yields the processor before it sleeps, where it finds the queue empty.
/// What a wait takes with that is in `docs/explanation/performance.md`.
const YIELDS: u32 = 1;

/// The lanes of which frames were popped.
#[derive(Clone, Copy, Debug, PartialEq, Eq)]
pub struct Popped(u64);

impl Popped {
    // Whether a frame of the lane was.
    fn has(self, lane: usize) -> bool
        requires { lane < lane_count }
    {
        self.0 & (1 << lane) != 0
    }
}

/// A look at the queue, begun: it knows whether the pump was asked to stop before. The pump hands in
/// each frame that it pops and learns that afterwards, so `Stop` comes only where the queue was found empty
/// after the stop.
#[must_use]
#[derive(Drop)]
pub struct Look {
    stopped: bool,
    popped: Popped,
}

/// What a look at the queue found.
#[must_use]
#[derive(Clone, Copy, Debug, PartialEq, Eq)]
pub enum Found {
    /// Frames of these lanes.
    Frames(Popped),
    /// Nothing.
    Nothing,
    /// Nothing, and the pump was asked to stop before.
    Stop,
}

impl Look {
    /// The look has popped a frame of the lane.
    pub fn note_popped(&mut self, lane: u8)
        requires { lane < lane_count }
    {
        self.popped.0 |= 1 << lane;
    }

    /// The look has ended.
    pub fn found(self) -> Found {
        if self.popped.0 != 0 {
            Found::Frames(self.popped)
        } else if self.stopped {
            Found::Stop
        } else {
            Found::Nothing
        }
    }
}

/// What the writing pump waits by.
#[derive(Drop)]
pub struct PumpWaiter {
    shared: Arc<Wakers, Global>,
    parker: Parker,
    yielded: u32,
}

impl PumpWaiter {
    pub(crate) fn new(shared: Arc<Wakers, Global>, parker: Parker) -> PumpWaiter {
        PumpWaiter {
            shared,
            parker,
            yielded: 0,
        }
    }

    /// A run of the pump begins, or has ended.
    pub fn begin_run(&self) {
        self.shared.begin_run(Pump::Writing);
    }

    pub fn end_run(&self) {
        self.shared.end_run(Pump::Writing);
    }

    /// Begins a look at the queue.
    pub fn look(&self) -> Look {
        Look {
            stopped: self.shared.is_stopped(),
            popped: Popped(0),
        }
    }

    /// A look has popped frames of these lanes, whose ends are woken if they wait for a place in the
    /// queue.
    pub fn note_popped(&mut self, popped: Popped) {
        self.yielded = 0;
        for lane in 0..LANES {
            if popped.has(lane) {
                self.shared.note_freed(lane);
            }
        }
    }

    /// The pump found the queue empty. It yields the processor first, and then this says that it is
    /// about to sleep: it has to look once more, and then either [`sleep`](PumpWaiter::sleep) or
    /// [`stay`](PumpWaiter::stay).
    pub fn is_to_sleep(&mut self) -> bool {
        if self.yielded < YIELDS {
            self.yielded += 1;
            thread::yield_now();
            return false;
        }
        self.yielded = 0;
        self.shared.set_pump_sleeps(true);
        true
    }

    /// Sleeps until a frame is put or the pump is asked to stop.
    pub fn sleep<R: Wait>(&self, rt: &R) {
        self.parker.park(rt);
        self.shared.set_pump_sleeps(false);
    }

    /// There is work after all.
    pub fn stay(&self) {
        self.shared.set_pump_sleeps(false);
    }
}
