//! The shared values of threads, made and joined again. Each mutation test here mixes the parts of two.
#![tactic(auto)]

mod credit;
mod inbox;
mod queue;

pub use credit::settled_credits;
pub use inbox::finished_inboxes;
pub use queue::joined_queue;
