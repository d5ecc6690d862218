//! Calls in turn, and what becomes of them. A line is a call, ` => ` and its answer. The calls of a session are `issue
//! CHANNEL AMOUNT`, `limit CHANNEL BOUND`, `plead CHANNEL TARGET`, `absolve CHANNEL AMOUNT`, `honour CHANNEL`, `room
//! CHANNEL`, `issues CHANNEL POLICY MARK` (a policy: `always`, `below` or `never`) and `flush`. A frame arrives by `issued
//! CHANNEL AMOUNT`, `pleaded CHANNEL TARGET`, `received CHANNEL BYTES` and `finished CHANNEL`. The others are `take CHANNEL`,
//! `reserve CHANNEL BYTES` and `back CHANNEL BYTES` (a permit), `send CHANNEL BYTES`, `fill COUNT` (so many control frames
//! enter the queue) and `out` (the next frame is taken).
mod laws;
mod plays;

use std::alloc::Global;
use std::process::Abort;

/// Fails where there is no text, or not the one that is wanted, and names what was compared.
fn same(rt: &impl Abort, what: &str, found: Option<String>, wanted: &str) {
    let found = found.as_deref().unwrap_or("nothing");
    assert!(rt; found == wanted, "{what}: {found}, not {wanted}");
}
