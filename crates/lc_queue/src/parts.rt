//! The parts of a new queue.
use crate::drain::Drain;
use crate::lane_end::LaneEnd;
use lc_frame::LANES;

/// The parts of a new queue, each of which can go to a thread of its own.
#[derive(Debug, Drop)]
pub struct Lanes {
    /// The ends of all lanes, in the order of their numbers.
    pub ends: [LaneEnd; LANES],
    /// The drain of them all.
    pub drain: Drain,
}
