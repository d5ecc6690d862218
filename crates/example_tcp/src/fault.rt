//! Why a sync failed.
use lc_book::Refusal;
use std::alloc::AllocError;
use std::io;
use thiserror::Error;

/// Why a sync failed.
#[derive(Clone, Copy, Debug, Error)]
pub enum Fault {
    #[error("out of memory")]
    OutOfMemory,
    #[error("a socket failed")]
    Socket,
    /// The transport is gone, or the other side broke the rules of the session or was silent.
    #[error("the session ended too early")]
    Over,
    /// The other side keeps the rules of the session, and not those of the sync.
    #[error("the other side does not sync")]
    NoSync,
    /// A call was refused for good.
    #[error("refused: {0}")]
    Refused(Refusal),
}

impl From<AllocError> for Fault {
    fn from(_error: AllocError) -> Fault {
        Fault::OutOfMemory
    }
}

impl From<io::Error> for Fault {
    fn from(_error: io::Error) -> Fault {
        Fault::Socket
    }
}

/// The other answer where one is well, or the fault that says more. A thread that fails ends the session for
/// the others.
pub fn both<T: Drop>(one: Result<(), Fault>, other: Result<T, Fault>) -> Result<T, Fault> {
    match (one, other) {
        (Ok(()), other) => other,
        (Err(Fault::Over), Err(fault)) => Err(fault),
        (Err(fault), _) => Err(fault),
    }
}
