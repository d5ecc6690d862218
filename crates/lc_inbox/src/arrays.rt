//! Arrays with an element for each channel.
ghost use Rattle.std.specs.Prelude.{◌≡◌, ◌∷◌, [], length, map};
ghost use Rattle.lc_frame.specs.Channel.{channel_count};

use lc_frame::CHANNELS;

/// Seven of a kind, in order.
pub type Seven<T> = (T, T, T, T, T, T, T);

/// The seven by themselves.
pub fn apart<T>(all: [T; CHANNELS]) -> Seven<T>
    requires { length all ≡ channel_count }
    ensures { all ≡ result.0 ∷ result.1 ∷ result.2 ∷ result.3 ∷ result.4 ∷ result.5 ∷ result.6 ∷ [] }
{
    let [a, b, c, d, e, f, g] = all;
    (a, b, c, d, e, f, g)
}

/// Both at each place.
pub fn zipped<A, B>(left: [A; CHANNELS], right: [B; CHANNELS]) -> [(A, B); CHANNELS]
    requires { (length left ≡ channel_count) × (length right ≡ channel_count) }
    ensures { (map (λ pair. pair.0) result ≡ left) × (map (λ pair. pair.1) result ≡ right) }
{
    let [a, b, c, d, e, f, g] = left;
    let [h, i, j, k, l, m, n] = right;
    [(a, h), (b, i), (c, j), (d, k), (e, l), (f, m), (g, n)]
}

/// The first of each pair, and the second.
pub fn unzipped<A, B>(pairs: [(A, B); CHANNELS]) -> ([A; CHANNELS], [B; CHANNELS])
    requires { length pairs ≡ channel_count }
    ensures { (result.0 ≡ map (λ pair. pair.0) pairs) × (result.1 ≡ map (λ pair. pair.1) pairs) }
{
    let [(a, h), (b, i), (c, j), (d, k), (e, l), (f, m), (g, n)] = pairs;
    ([a, b, c, d, e, f, g], [h, i, j, k, l, m, n])
}
