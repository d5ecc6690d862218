//! The result of a run of two sessions: what they carried, or why the run failed.
#![tactic(auto)]

mod fault;
mod report;

pub use fault::LoopFault;
pub use report::LoopReport;
