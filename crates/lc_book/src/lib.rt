//! The ledgers of one direction of a channel: what its sender (the client) may send, and what its
//! receiver (the server) may issue.
//!
//! A call is refused for the first reason that applies, in the order that its contract cites, and then
//! changes nothing. Each local operation also exists in two halves, such as `judge_spend` and
//! `note_spent`: one validates and one applies. A caller that has to reserve something else in
//! between, such as a slot for the frame, uses the halves.
#![tactic(auto)]

mod client;
mod fault;
mod finish;
pub mod laws;
mod limit;
mod server;

pub use client::{ClientBook, ClientParts};
pub use fault::{Detail, Refusal, Violation};
pub use limit::{after_message, check_limit};
pub use server::{ServerBook, ServerParts};
