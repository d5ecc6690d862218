//! Tests of `lc_book` and `lc_world` for what no clause says. Expected values come from worked examples of
//! the rules, written down as text.
#![tactic(auto)]

#[cfg(test)]
mod tests;
