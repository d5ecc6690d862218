//! The bytes of a sink's rings.
ghost use Rattle.std.specs.Prelude.{◌≡◌};
ghost use Rattle.lc_peer.specs.Longer.{FitsAny};

use lc_frame::CHANNELS;
use std::marker::Model;

/// The bytes of the channels' rings, by the channels' numbers, and how many bytes a Send has at most
/// that surely fits its ring.
#[derive(Drop)]
pub(crate) struct Rings {
    sizes: [u32; CHANNELS],
    most: usize,
}

impl Model for Rings {
    ghost use Rattle.std.specs.Prelude.{ℕ, List};
    ghost use Rattle.lc_peer.specs.Longer.{FitsAny};

    ghost Value = { List ℕ };

    ghost view = { λ rings. rings.sizes };

    ghost invariant = { λ rings. FitsAny rings.most rings.sizes };
}

// The bytes of the smallest ring, with those of the shortest tag and length of a Send.
fn most_of(sizes: [u32; CHANNELS]) -> usize
    ensures { FitsAny result sizes }
{
    let [a, b, c, d, e, f, g] = sizes;
    let least = a.min(b).min(c).min(d).min(e).min(f).min(g);
    least as usize + 3
}

impl Rings {
    pub(crate) fn new(sizes: [u32; CHANNELS]) -> Rings
        ensures { result ≡ sizes }
    {
        Rings {
            sizes,
            most: most_of(sizes),
        }
    }

    #[inline(always)]
    pub(crate) fn as_slice(&self) -> &[u32]
        ensures { result.now ≡ self.now }
    {
        &self.sizes
    }

    /// A Send of at most so many bytes, its tag and its length among them, fits any of the rings.
    #[inline(always)]
    pub(crate) fn most(&self) -> usize
        ensures { FitsAny result self.now }
    {
        self.most
    }
}
