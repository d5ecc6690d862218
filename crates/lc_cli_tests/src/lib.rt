//! Tests of `lc_cli` and `lc_loopback` for what neither a clause nor a run of `lcmux` shows: the lines
//! of answers and reports, and sessions whose devices fail.
#![tactic(auto)]

#[cfg(test)]
mod tests;
