//! One side of a session, over devices that follow a plan.
mod bounds;
mod buffered;
mod counted;
mod failing;
mod failing_link;
mod interrupted;
mod long_messages;
mod longer;
mod lying;
mod rounds;
mod script;
mod worked;

use std::fmt::Debug;
use std::process::Abort;

/// Fails where there is no text, or not the one that is wanted, and names what was compared.
fn same(rt: &impl Abort, what: &str, found: Option<String>, wanted: &str) {
    let found = found.as_deref().unwrap_or("nothing");
    assert!(rt; found == wanted, "{what}: {found}, not {wanted}");
}

/// Fails where there was no memory for what was to run.
fn ran(rt: &impl Abort, answer: Option<()>) {
    assert!(rt; answer.is_some(), "nothing ran");
}

/// Fails where a value is not the one that is wanted, and names what was compared.
fn equal<T: Debug + Drop + PartialEq>(rt: &impl Abort, what: &str, found: T, wanted: T) {
    assert!(rt; found == wanted, "{what}: {found:?}, not {wanted:?}");
}
