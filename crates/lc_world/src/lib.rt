//! Two peers whose streams keep order: every list of events gives a legal history, and every legal
//! history keeps its guarantees.
#![tactic(auto)]

mod act;
mod endpoint;
mod event;
pub mod laws;
mod world;

pub use event::{Act, Answer, Event, Side};
pub use lc_book::{Detail, Refusal, Violation};
pub use lc_ring::NewFault;
pub use world::{World, run, run_as};
