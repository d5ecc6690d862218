//! Tests of `lc_frame` and `lc_ring` for what no clause says. Expected values come from worked examples,
//! written down as text.
#![tactic(auto)]

#[cfg(test)]
mod tests;
