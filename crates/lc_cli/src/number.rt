//! Numbers as scripts and arguments write them.
ghost use Rattle.std.specs.Prelude.{◌≡◌, ◌<◌, ◌^◌, ◌↔◌, ◌⊎◌, ℕ, Some, IfSome, IsTrue, length, slice_index};
ghost use Rattle.std.specs.Fmt.{decimal};

/// The number that a field writes: decimal digits without sign, separators or leading zeros.
/// `None` for any other field, and above 2^64 - 1.
pub(crate) fn parse_decimal(field: &str) -> Option<u64>
    ensures written { IfSome result (λ n. decimal n ≡ field.now) }
    ensures found { (n : ℕ) → n < 2 ^ 64 → decimal n ≡ field.now → result ≡ Some n }
{
    if has_prefix(field.as_bytes()) {
        return None;
    }
    field.parse().ok()
}

// Whether a plus, or a zero before more digits, comes first. `parse` reads past both.
fn has_prefix(digits: &[u8]) -> bool
    ensures { IsTrue result ↔ ((slice_index digits.now 0 ≡ 43) ⊎ ((slice_index digits.now 0 ≡ 48) × (1 < length digits.now))) }
{
    match digits {
        [] => false,
        [first, rest @ ..] => *first == b'+' || (*first == b'0' && !rest.is_empty()),
    }
}
