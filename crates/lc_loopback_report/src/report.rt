//! What two sessions carried.

use lc_frame::CHANNELS;

/// What two sessions carried, by the client's side, 0 for A and 1 for B, and by channel.
#[derive(Clone, Copy)]
pub struct LoopReport {
    /// The messages that the other side took, each the one that was due.
    pub messages: [[u64; CHANNELS]; 2],
    /// Their bytes.
    pub bytes: [[u64; CHANNELS]; 2],
    /// Whether on each channel of both sides the guarantees held, spent, absolved and waived add up to
    /// those received, and those spent are the bytes.
    pub balanced: bool,
}
