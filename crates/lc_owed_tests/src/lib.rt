//! Tests of `lc_owed`: which control calls stay pending and which frames are put when, by worked examples.
#![tactic(auto)]

#[cfg(test)]
mod tests;
