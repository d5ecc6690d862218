//! What is tested, and the comparisons that all tests make.
mod bounds;
mod laws;
mod permits;
mod plays;

use std::alloc::Global;
use std::process::Abort;

/// What is given the cases of a table.
trait Subject {
    /// Its answer to a case, as text; `None` where it has none.
    fn answer(&mut self, alloc: Global, case: &str) -> Option<String>;
}

/// A subject answers each case of a table, in turn, with what stands behind it: a line is a case,
/// ` => ` and its answer.
fn answers<S: Subject>(rt: &impl Abort, alloc: Global, subject: &mut S, table: &str) {
    for line in table.lines() {
        let (case, wanted) = line.split_once(" => ").unwrap_or((line, "an answer"));
        same(rt, line, subject.answer(alloc, case), wanted);
    }
}

/// Fails where there is no text, or not the one that is wanted, and names what was compared.
fn same(rt: &impl Abort, what: &str, found: Option<String>, wanted: &str) {
    let found = found.as_deref().unwrap_or("nothing");
    assert!(rt; found == wanted, "{what}: {found}, not {wanted}");
}
