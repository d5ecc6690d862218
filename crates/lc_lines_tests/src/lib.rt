//! Tests of `lc_lines`: which call proceeds when, by worked examples of the rules of sessions.
#![tactic(auto)]

#[cfg(test)]
mod tests;
