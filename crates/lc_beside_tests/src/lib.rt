//! Tests of `lc_session` while the threads of some handles are held.
#![tactic(auto)]

#[cfg(test)]
mod tests;
