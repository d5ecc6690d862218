//! What contracts say of a value that two threads share: its history, in which the steps of both
//! threads have one order, and what each thread knows of it. The crate has definitions, lemmas and a
//! law, and no code that runs.
#![tactic(auto)]

pub mod laws;
