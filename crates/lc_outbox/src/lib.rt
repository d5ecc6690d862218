//! The sending handle of a channel, for one thread: the lane end on which the channel's client pushes
//! its frames, together with the guarantees that the frames use up.
//!
//! An outbox refuses what a client's ledger refuses, in the same order. It reads the guarantees held
//! from the credit at each call. A refused call pushes nothing.
//!
//! # What a sending thread has
//!
//! An `Outbox` is shared with no other thread: one thread at a time calls it. It has the lane end and
//! the sending side of the channel's credit, which are its parts of the shared values, and two numbers
//! of its own: what is left of the limit on sending, and the target of a plead that it took and has not
//! answered.
//!
//! Each call has the same order. Its own numbers are validated first (`after_message`, `check_limit`, an
//! amount of 0). Then the amount is taken out of the credit word, which is the check against the
//! guarantees held. Then the frame is made and pushed, and the amount is counted or given back. So no
//! thread ever sees more guarantees held than may still be spent, and a message's body is copied only
//! once its guarantees are taken. An honour first reads the asked word and the guarantees held.
#![tactic(auto)]

mod outbox;

pub use outbox::Outbox;
