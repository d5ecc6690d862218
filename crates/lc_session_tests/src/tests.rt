//! Sessions over devices in memory and over sockets.
mod desk;
mod ended;
mod ends;
mod faults;
mod held;
mod hostile;
mod lines;
mod memory;
mod sides;
mod slots;
mod staged;
mod ticks;
mod told;
mod waking;
mod worked;

use std::fmt::Debug;
use std::process::Abort;

/// Fails where there is no text, or not the one that is wanted, and names what was compared.
fn same(rt: &impl Abort, what: &str, found: Option<String>, wanted: &str) {
    let found = found.as_deref().unwrap_or("nothing");
    assert!(rt; found == wanted, "{what}: {found}, not {wanted}");
}

/// Fails where there was no memory, or no connection, for what was to run.
fn ran(rt: &impl Abort, answer: Option<()>) {
    assert!(rt; answer.is_some(), "nothing ran");
}

/// Fails where a value is not the one that is wanted, and names what was compared.
fn equal<T: Debug + Drop + PartialEq>(rt: &impl Abort, what: &str, found: T, wanted: T) {
    assert!(rt; found == wanted, "{what}: {found:?}, not {wanted:?}");
}
