//! How the threads of a session block and wake up: an eventcount for each handle. No promise of a
//! session rests on wake-ups; `wakers.rt` says why none is lost.
//!
//! A handle records the events that it was notified of when one of its waits ends, and blocks only while
//! no new event has occurred. So each event after any look at its channel or at the queue wakes it up,
//! and an event before the look causes at most one spurious wake-up. What other channels do wakes no
//! handle, and no handle waits for it.
#![tactic(auto)]

mod pump_waiter;
mod waiter;
mod wakers;
mod waking;

pub use pump_waiter::{Found, Look, Popped, PumpWaiter};
pub use waiter::{Waiter, Wake};
pub use wakers::{Pump, Wakers};
pub use waking::Waking;
