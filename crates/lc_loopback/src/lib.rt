//! Two sessions in one process, over sockets: each handle and each pump runs in a thread of its own,
//! and each message is compared with the expected one.
#![tactic(auto)]

mod balance;
mod bouncing;
mod connection;
mod ends;
mod exchange;
mod fault;
mod hold;
mod message;
mod opening;
mod patience;
mod plan;
mod pumping;
mod sending;
mod stage;
mod taken;
mod taking;
mod worker;

pub use bouncing::ping_pong;
pub use lc_loopback_report::{LoopFault, LoopReport};
pub use plan::Plan;
pub use stage::{loopback, loopback_as, loopback_of};
