//! The inbox of a channel together with the lane of its server, shared by the reader thread and the
//! thread that receives the messages.
//!
//! What both threads do to it is one history. Each thread knows a prefix of it and all its own
//! entries. Only [`share`] and [`share_all`] allocate.
//!
//! # What threads share
//!
//! The reader thread stores the messages of a channel, and the receiving thread takes them. `share`
//! makes an `InboxIn` for the first and an `InboxOut` for the second; `share_all` does so for all seven
//! channels, from the lane ends of one queue. When both threads are done, `finish` takes both sides and
//! gives back the ledger and the lane end, and `finish_all` those of all seven channels.
//!
//! | | |
//! |---|---|
//! | shared | a slot with the `InboxEnd` (the channel's `Inbox` and its server's lane end), a word that says which side has it, and a mutex |
//! | a side's own | nothing in memory: what it knows of the inbox's history, and how many turns it had, exist in proofs alone |
//!
//! Each call takes the slot, works on the inbox in place, and gives the slot back: nothing is moved.
//! Taking and giving back are one atomic step each on the word, by which the proof knows the owner. The
//! mutex is held from before the first step to after the second, so that the other side can block; no
//! promise rests on it.
#![tactic(auto)]

mod arrays;
mod finishes;
mod half;
mod history;
mod inbox_end;
mod inbox_in;
mod inbox_out;
mod inboxes;
pub mod laws;
mod lent;
mod rule;
mod shared_inbox;

pub use arrays::{Seven, apart, unzipped, zipped};
pub use finishes::{FinishedInboxes, finish_all};
pub use inbox_end::InboxEnd;
pub use inbox_in::InboxIn;
pub use inbox_out::InboxOut;
pub use inboxes::{Inboxes, share_all};
pub use lent::Lent;
pub use shared_inbox::{SharedInbox, finish, share};
