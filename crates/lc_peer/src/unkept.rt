//! Bytes that nothing keeps.
ghost use Rattle.std.specs.Prelude.{◌≡◌, ℕ, List, [], ◌++◌};
ghost use Rattle.std.specs.Borrow.{ftrue};

use std::marker::Model;

/// Bytes that were read and then let go: only clauses know them, and it takes no memory.
#[derive(Drop)]
pub struct Unkept {
    pub ghost bytes: { List ℕ },
}

impl Model for Unkept {
    ghost also_owns = { λ _. ftrue };
}

// It owns nothing.
unsafe impl Send for Unkept {}

impl Unkept {
    /// No bytes.
    pub(crate) fn none() -> Unkept
        ensures { result.bytes ≡ [] }
    {
        Unkept {}
    }

    /// The same, and then these.
    pub(crate) fn then(&self, _more: &[u8]) -> Unkept
        ensures { result.bytes ≡ self.now.bytes ++ _more.now }
    {
        Unkept {}
    }
}
