//! The bounds of what holds messages and frames.
ghost use Rattle.std.specs.Prelude.{◌≡◌, ◌↔◌, IsTrue};
ghost use Rattle.lc_frame.specs.Bounds.{IsCapacity, IsSlots, is_capacity, is_slots};

use crate::frame::MAX_AMOUNT;

/// The most frames that may wait to go out.
pub const MAX_SLOTS: u32 = 65_536;

/// Whether a receiving ring may have so many bytes: 1 to `MAX_AMOUNT`.
pub fn is_capacity(capacity: u32) -> bool
    ensures value { result ≡ is_capacity capacity }
    ensures fact { IsTrue result ↔ IsCapacity capacity }
{
    1 <= capacity && capacity <= MAX_AMOUNT
}

/// Whether so many frames may wait to go out: 1 to `MAX_SLOTS`.
pub fn is_slots(slots: u32) -> bool
    ensures value { result ≡ is_slots slots }
    ensures fact { IsTrue result ↔ IsSlots slots }
{
    1 <= slots && slots <= MAX_SLOTS
}
