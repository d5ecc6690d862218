//! What fills the memory of a stream decoder.
ghost use Rattle.std.specs.Prelude.{◌≤◌, ◌<◌, length, All, IfSome};

/// Fills memory from a source, as a reader that is read. A type of its own says how, so that the
/// source may be of any other.
pub trait Fill<R> {
    ghost use Rattle.std.specs.Prelude.{ℕ, List, Option};

    // What it leaves of the source, by how many bytes it gave, none where it failed, and by the memory then.
    ghost fills: { R → Option ℕ → List ℕ → R → Type 0 };

    /// Puts bytes to the front of the memory, and answers how many; `None` where that failed. The
    /// memory behind them may be changed too.
    fn fill(&self, source: &mut R, memory: &mut [u8]) -> Option<usize>
        ensures bound { IfSome result (λ n. n ≤ length memory.new) }
        ensures bytes { All (λ b. b < 256) memory.new }
        ensures fills { fills source.old result memory.new source.new };
}

/// What came of it where memory of a decoder was to be filled.
#[must_use]
#[derive(Clone, Copy, Debug, PartialEq, Eq)]
pub enum Filled {
    /// Nothing was done, since too few bytes are missing of what is stored.
    Few,
    /// It failed.
    Failed,
    /// So many bytes were given, and are stored.
    Took(usize),
}
