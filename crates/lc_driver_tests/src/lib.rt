//! Tests of `lc_driver`, and of `lc_peer` what no program over a binding can call: what a peer answers to calls and
//! bytes is shown by the rows of `bindings/rows.txt`, and by the tests of the bindings beside a model.
#![tactic(auto)]

#[cfg(test)]
mod tests;
