//! Ring buffers for received messages, in memory that is allocated once and never grows.
#![tactic(auto)]

mod laps;
mod lengths;
mod pieces;
mod ring;

pub use lc_frame::BufferTooSmall;
pub use ring::{Full, NewFault, RecvRing};
