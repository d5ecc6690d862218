//! What comes of a message that is lent.

/// What a take answers that lends the message.
#[derive(Debug, Drop)]
pub enum Lent<T> {
    /// The first message was lent and is taken; what was made of it.
    Read(T),
    /// No message waits.
    Empty,
    /// No message waits, and none will come: the client's limit on sending is used up, or it finished.
    Ended,
}
