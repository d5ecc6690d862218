//! A buffer without room.
use thiserror::Error;

/// What was to be written is longer than the buffer.
#[derive(Clone, Copy, Debug, PartialEq, Eq, Error)]
#[error("the buffer is too small: {need} bytes are needed")]
pub struct BufferTooSmall {
    /// The length in bytes that would do.
    pub need: usize,
}
