//! Tests of `lc_chart`: what no clause says of the layout of a picture, of its words and of the faults.
#![tactic(auto)]

#[cfg(test)]
mod tests;
