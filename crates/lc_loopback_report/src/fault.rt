//! Why a run of two sessions failed.
use thiserror::Error;

/// Why a run of two sessions failed. Where several threads did, the first of these is answered.
#[derive(Clone, Copy, Debug, PartialEq, Eq, Error)]
pub enum LoopFault {
    /// There was no memory, or no thread could be made.
    #[error("out of memory")]
    OutOfMemory,
    /// A socket failed.
    #[error("a socket failed")]
    Device,
    /// Another message came than the one that was due, the guarantees do not add up, or a stream
    /// ended in another way than after a whole frame.
    #[error("another message than the one due")]
    BadMessage,
    /// An end looked as often as it was allowed to.
    #[error("the turns are spent")]
    TurnsSpent,
    /// A pump ended while an end still waited.
    #[error("a pump ended too early")]
    Over,
}
