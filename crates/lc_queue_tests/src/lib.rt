//! Tests of `lc_queue`, `lc_credit` and `lc_inbox`.
#![tactic(auto)]

#[cfg(test)]
mod tests;
