//! What may happen between two peers, and what is answered.
use lc_book::{Refusal, Violation};
use lc_frame::{Body, Channel};

/// One of the two peers.
#[derive(Clone, Copy, Debug, PartialEq, Eq)]
pub enum Side {
    A,
    B,
}

/// What happens at a side. Numbers count bytes of messages.
#[derive(Debug, Drop)]
pub enum Act {
    /// The client sends a message.
    Send { channel: Channel, body: Body },
    /// The server issues guarantees.
    Issue { channel: Channel, amount: u32 },
    /// The server asks the client to absolve until it holds at most the target.
    Plead { channel: Channel, target: u32 },
    /// The client gives guarantees up.
    Absolve { channel: Channel, amount: u32 },
    /// The client honours the plead that it keeps.
    Honour { channel: Channel },
    /// The client bounds what it sends from here on.
    LimitSending { channel: Channel, bound: u64 },
    /// The server bounds what it issues from here on.
    LimitReceiving { channel: Channel, bound: u64 },
    /// The client sends nothing more, and gives up all guarantees that it holds or that still come.
    Finish { channel: Channel },
    /// The first frame of the other side's stream that has not arrived arrives, and what is in flight
    /// of the greeting with it.
    Arrive,
    /// So many bytes more of the other side's stream, its greeting among them, are delivered, or as
    /// many as are in flight, and each frame whose last byte is among them arrives.
    Deliver { count: u32 },
    /// The server takes the first message that waits.
    Take { channel: Channel },
}

/// An act at a side.
#[derive(Debug, Drop)]
pub struct Event {
    pub side: Side,
    pub act: Act,
}

/// What is answered.
#[derive(Debug, Drop)]
pub enum Answer {
    /// An own event was accepted, and its frame put last on the side's stream.
    Accepted,
    /// An honour absolved so many guarantees, and its frame was put.
    Absolved(u32),
    /// An honour had nothing to absolve.
    NothingToAbsolve,
    /// A frame arrived.
    Arrived,
    /// So many bytes were delivered, and so many frames arrived.
    Delivered { bytes: u64, frames: u64 },
    /// No frame is in flight, or, at a delivery, no byte.
    NothingInFlight,
    /// A frame breaks the rules; nothing arrived.
    Violated(Violation),
    /// The message that was taken.
    Took(Body),
    /// No message waits.
    Empty,
    /// No message waits, and none will come: the client's limit is used up, or it finished.
    Ended,
    /// An own event, or a take for want of memory, was refused and changed nothing.
    Refused(Refusal),
}
