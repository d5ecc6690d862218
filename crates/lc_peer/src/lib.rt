//! One side of a session as a value (sans I/O): every local operation, and every arriving frame, with
//! no thread, no reader and no writer.
#![tactic(auto)]

mod channel_state;
mod config;
mod delivery;
mod frame_head;
mod inbox;
mod intake;
mod intake_for;
pub mod laws;
mod outgrown;
mod peer;
mod questions;
mod ring_intake;
mod ring_sink;
mod rings;
mod sink;
mod skip;
mod unkept;

pub use config::{Config, PeerFault};
pub use delivery::{Delivery, Stop, deliver_to};
pub use frame_head::FrameHead;
pub use inbox::{Inbox, Take};
pub use intake::Intake;
pub use intake_for::IntakeFor;
pub use lc_book::{Refusal, Violation};
pub use lc_ring::NewFault;
pub use peer::Peer;
pub use questions::{Needs, Ready};
pub use ring_intake::RingIntake;
pub use ring_sink::RingSink;
pub use sink::FrameSink;
pub use unkept::Unkept;
