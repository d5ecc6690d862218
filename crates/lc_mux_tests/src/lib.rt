//! Tests of `lc_mux`: two sessions over one transport, which close, are cut and are aborted.
#![tactic(auto)]

#[cfg(test)]
mod tests;
