//! Tests of `lc_session`.
#![tactic(auto)]

#[cfg(test)]
mod tests;
