//! One bounded queue for the frames of all threads of a session: a push end for each lane, and one
//! drain that pops. For each lane the frames popped, followed by the frames queued, are the frames
//! pushed.
//!
//! # What threads share
//!
//! | | |
//! |---|---|
//! | shared | the queue: one bounded ring of frames, in an `Arc` that each part has |
//! | shared | which of its places are taken: fifteen words, in another `Arc`, on which no clause rests |
//! | a thread's own | a `LaneEnd`, or the `Drain`: each is moved to its thread, and its calls take it by `&mut`, so one thread at a time pushes on a lane and one thread at a time pops |
//! | not in memory | what a part knows: the queue's slots and version, the frames pushed, the frames popped. It exists in proofs alone; the version is also a field of each part |
//!
//! A part makes seven kinds of step on the queue and no other: a push that succeeds or finds the queue
//! full, a pop that takes a frame or finds the queue empty, making the queue, cutting a lane's pass from
//! the drain's, and joining one to it. Each is one atomic step, and the rule of the queue holds before
//! and after it. No call retries when the queue is full or empty: the caller waits or yields. Each step
//! teaches the part that makes it a fact about that part. A pop that finds nothing teaches that all
//! frames of the ended lanes were popped; a push that finds the queue full teaches nothing about what
//! other lanes queued.
//!
//! # A place of its own for each lane
//!
//! A queue of `slots` has `slots + 14` places: one for each lane, and `slots` places shared by all
//! lanes. A frame takes its lane's own place if no frame of the lane is queued, and otherwise a shared
//! one; the push is refused if no shared place is free. So the frames of other lanes never refuse a
//! lane that has no frame queued.
//!
//! | word | meaning |
//! |---|---|
//! | `taken`, of each lane | the number of places that the lane has: its end adds one before a push, the drain subtracts one after a pop |
//! | `shared` | the number of shared places that are taken |
//!
//! A lane with *n* places has its own place and `n - 1` shared ones. Which of its frames has the own
//! place is not recorded: a lane's frames are in order, so at each pop the lane gives back a shared
//! place as long as it has one. An end adds to `shared` before it adds to `taken`, and the drain
//! subtracts from `taken` first. So `shared` is at least the sum of what the lanes have of it, and at
//! most `slots`. An end that takes a shared place, and then finds that the drain has meanwhile popped
//! its lane's last frame, has the own place and gives the shared one back.
//!
//! So all lanes together have at most `slots + 14` places. A frame has its place from before its push
//! until after its pop, and the queue has a slot for each place. So a push that has a place finds a
//! slot that is free and that the drain has released: it is not refused, and it does not wait for the
//! drain. No clause says so, and none rests on it: a push that was refused all the same would give its
//! place back.
#![tactic(auto)]

mod drain;
mod fault;
mod lane_end;
mod opening;
mod parts;
mod places;
mod rule;

pub use drain::Drain;
pub use fault::LanesFault;
pub use lane_end::LaneEnd;
pub use opening::lanes;
pub use parts::Lanes;
