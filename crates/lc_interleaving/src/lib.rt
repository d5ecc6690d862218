//! Laws of two sessions that ran apart: what each session's own histories, together with one
//! linearization of the steps of both, say of the two sessions.
#![tactic(auto)]

pub mod laws;
mod reports;

pub use reports::finish_both;
