//! Both sides of the credits.
use lc_credit::{Balance, CreditParts, credits, settle};
use lc_frame::CHANNELS;
use std::alloc::{AllocError, Global};

/// The balances of new credits.
pub fn settled_credits(alloc: Global) -> Result<[Balance; CHANNELS], AllocError> {
    let parts: CreditParts = credits(alloc)?;
    Ok(settle(parts))
}
