//! Shared by the tests of one side of a session: devices that follow a plan, the words of scripts, and
//! streams with their expected outcomes.
#![tactic(auto)]

mod devices;
mod streams;
mod words;

pub use devices::{Odd, Pipe, PipeReader, PipeWriter, Plan};
pub use streams::{FAILED_WRITES, FINISHED, HOSTILE, Hostile, THREE_FRAMES};
pub use words::{channel, number, plan_of, text};
