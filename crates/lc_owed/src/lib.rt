//! The pending control frames of a session, over its send scheduler.
//!
//! A control call is accepted or refused when it is made, by the book of its channel beside what is pending there. An
//! accepted call is pending until a slot is free for its frame; calls of one kind and channel are joined to one frame. An
//! [`Owed`] is what is pending on the seven channels, with the policies by which a session issues and honours pleads. It
//! owns no scheduler: whoever owns both calls [`Owed::flush`] after each change of either. A flush puts what is due, and
//! drops what its book refuses by now.
//!
//! On a channel the issue is due first, then the limit on receiving, the plead, the absolve and the honour. The frames of
//! one direction of a channel have the effect that they would have in the order of the calls: an issue that is called for
//! behind a limit or a plead is subtracted from that limit, and added to the target of that plead.
//!
//! Three rules are simpler than they might be. An honour waits as a whole until permits of its channel no longer hold what
//! it would absolve. An absolve takes no guarantees from messages: where they have used some meanwhile, what is left is
//! absolved. And a policy makes the calls that its caller would have made, so what it issues joins the pending issue.
#![tactic(auto)]

mod due;
mod flush;
pub mod laws;
mod owed;
mod pending;
mod policy;

pub use due::Due;
pub use owed::Owed;
pub use pending::Pending;
pub use policy::{IssuePolicy, PleadPolicy, Policies};
