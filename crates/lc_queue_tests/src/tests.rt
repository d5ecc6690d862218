//! A queue of fourteen lanes, the credits of seven channels, and an inbox that two sides share. What the calls of ends
//! answer is shown by `lc_session_tests`.
mod alone;
mod carried;
mod places;
mod queue;
mod seven;
mod sleeping;

use std::alloc::Global;
use std::fmt::Debug;
use std::process::Abort;
use std::test::Fail;
use test_threads::{balances_agree, takes_what_arrives};

/// What a value is written as.
fn text<T: Debug>(alloc: Global, value: &T) -> Option<String> {
    format!(in alloc; "{value:?}").ok()
}

/// Fails where there is no text, or not the one that is wanted, and names what was compared.
fn same(rt: &impl Abort, what: &str, found: Option<String>, wanted: &str) {
    let found = found.as_deref().unwrap_or("nothing");
    assert!(rt; found == wanted, "{what}: {found}, not {wanted}");
}

#[test]
fn eight_threads_share_seven_credits(rt: HostRuntime) -> Result<(), Fail> {
    assert!(rt; balances_agree(&rt, rt.alloc(), 200)?);
    Ok(())
}

#[test]
fn one_thread_takes_what_another_reads(rt: HostRuntime) -> Result<(), Fail> {
    assert!(rt; takes_what_arrives(&rt, rt.alloc(), 10_000)?);
    Ok(())
}
