//! The send scheduler of a session: which message enters the outbound queue next.
//!
//! A call of a sender waits in the wait queue of its channel, and is identified by a ticket, a number that its
//! caller chose. It leaves its message with the call, which is then completed for it, as a blocked thread does; or it
//! is an offer, as that of a future, which can be forgotten: its caller is notified and then hands the message over;
//! or it reserves a permit, which is granted for it; or it bounds what the channel sends from there on.
//!
//! A permit holds a slot and sets guarantees aside until it is used or given back, so its message enters the queue
//! whatever is queued and whatever waits. Permits of one channel are alike: what they hold is their number and the sum
//! of their guarantees.
//!
//! A [`Scheduler`] is a peer with the seven wait queues, and takes one step at a time. A [`Lines`] is a scheduler
//! whose steps are taken at once, so no call that can proceed waits without having been notified.
//!
//! Of the slots of the outbound queue seven are for control frames alone, and one is each channel's own: it is taken
//! while a message of the channel is queued or a permit of it is out. The others are shared. So whose slots are free is
//! a function of the queue and of these numbers, and a call whose channel has nothing under way always finds a slot,
//! whatever the calls and the permits of other channels do.
//!
//! A channel is passed while its first call was notified and has not come, no frame has left the outbound queue since,
//! and as many turns of other channels followed the channel's own last one as messages can be queued behind one. Then no
//! other channel takes a shared slot, unless nothing is queued: so a burst of others does not pass a call that was
//! notified and is about to come.
#![tactic(auto)]

mod counts;
pub mod laws;
mod lines;
mod permits;
mod queue;
mod scheduler;

pub use lines::{Lines, NOTICES};
pub use permits::Aside;
pub use queue::{Ask, Bound, Call};
pub use scheduler::{
    Attempt, CONTROL_SLOTS, Control, LEAST_SLOTS, MOST_QUEUED, Notice, Outcome, Progress, Scheduler,
};
