//! What contracts say of a credit's past.

/// One entry of a credit's history. Contracts speak of it; no value of it is ever made.
pub enum Entry {
    /// So much was received.
    Received(u64),
    /// So much was taken out of the credit word, to be spent, absolved or waived.
    Used(u64),
    /// So much of what was used came back, since its frame was not put.
    Returned(u64),
    /// The peer asked that no more than this be held.
    Asked(u64),
    /// The sending end took this target, to answer it.
    Taken(u64),
}
