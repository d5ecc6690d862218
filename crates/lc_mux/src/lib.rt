//! A session as one machine.
//!
//! A [`Mux`] is the send scheduler of a session with its pending control frames, with both of its streams, and with how
//! the session ends. It has no thread, no lock and no transport: bytes that arrive are delivered to it, and it writes bytes
//! into a buffer.
//!
//! Behind each change calls proceed that can, and then the control frames are put that are due. So between two calls no
//! control frame is pending while a slot is free for it that no permit owns. Policies make their calls where bytes arrive,
//! with a control call, and where a write begins: so the room of several takes is issued in one frame.
//!
//! A session ends in order once both sides have finished all their channels and ended their streams; an [`End`] says
//! why else it is over. The first end stays.
#![tactic(auto)]

mod end;
mod flushing;
pub mod laws;
mod mux;
mod pending;

pub use end::{CallError, End};
pub use mux::Mux;
pub use pending::Pending;
