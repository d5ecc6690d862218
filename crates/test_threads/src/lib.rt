//! Threads over one queue, over the credits of all channels, and over one inbox.
#![tactic(auto)]

mod carrying;
mod frames;
mod order;
mod sharing;
mod taking;

pub use carrying::carries;
pub use order::keeps_order;
pub use sharing::balances_agree;
pub use taking::{hear, new_pair, takes_what_arrives};
