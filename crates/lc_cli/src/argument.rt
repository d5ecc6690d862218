//! What arguments say of the peers that a script is for.
ghost use Rattle.std.specs.Prelude.{◌≡◌, ◌∷◌, [], ℕ, Some, IfSome, IfNone};
ghost use Rattle.std.specs.Fmt.{decimal};
ghost use Rattle.lc_frame.specs.Bounds.{IsCapacity};
ghost use Rattle.lc_frame.specs.declared.version.Version.TheVariants.{Two};

use crate::number::parse_decimal;
use lc_frame::{Version, is_capacity};

/// The size in bytes of each receiving ring, 1 to 2^24; `None` where the argument is no such number.
pub fn parse_capacity(text: &str) -> Option<u32>
    ensures written { IfSome result (λ n. IsCapacity n × (decimal n ≡ text.now)) }
    ensures found { (n : ℕ) → IsCapacity n → decimal n ≡ text.now → result ≡ Some n }
{
    let capacity = u32::try_from(parse_decimal(text)?).ok()?;
    is_capacity(capacity).then_some(capacity)
}

/// The version in which peers write: an argument that names one is `2`, and where none does it is One.
pub fn parse_version(text: &str) -> Option<Version>
    ensures two { IfSome result (λ version. (version ≡ Two) × (text.now ≡ 50 ∷ [])) }
    ensures none { IfNone result (¬ text.now ≡ 50 ∷ []) }
{
    (text == "2").then_some(Version::Two)
}
