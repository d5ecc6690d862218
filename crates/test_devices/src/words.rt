//! The words of a script's calls.
use crate::devices::{Odd, Plan};
use lc_frame::Channel;
use std::alloc::Global;
use std::fmt::Debug;

/// What a value is written as.
pub fn text<T: Debug>(alloc: Global, value: &T) -> Option<String> {
    format!(in alloc; "{value:?}").ok()
}

/// A number that a word writes.
pub fn number(word: &str) -> Option<u64> {
    word.parse::<u64>().ok()
}

/// The channel whose number a word writes.
pub fn channel(word: &str) -> Option<Channel> {
    Channel::from_number(word.parse::<u8>().ok()?)
}

// What a device does at one of its calls: `fails` or the most bytes that it moves, and the number of
// the call.
fn odd_plan(text: &str) -> Option<Plan> {
    let (what, at) = text.split_once(' ').unwrap_or((text, "0"));
    let odd = if what == "fails" {
        Odd::Fails
    } else {
        Odd::Moves(number(what)? as usize)
    };
    Some(Plan::odd(odd, number(at)?))
}

/// The most bytes of a call, or `all`, and what happens at one call, if anything does.
pub fn plan_of(text: &str) -> Option<Plan> {
    let (most, odd) = text.split_once(' ').unwrap_or((text, "fails"));
    let mut plan = odd_plan(odd)?;
    if most != "all" {
        plan.most = number(most)? as usize;
    }
    Some(plan)
}
