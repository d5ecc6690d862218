//! What a thread's work comes to.

/// How many messages were taken, and their bytes.
#[derive(Clone, Copy)]
pub(crate) struct Taken {
    pub(crate) messages: u64,
    pub(crate) bytes: u64,
}

impl Taken {
    /// Nothing was.
    pub(crate) const NOTHING: Taken = Taken {
        messages: 0,
        bytes: 0,
    };
}
