//! A session with a count of its inbound bytes.
use lc_mux::Mux;

/// A session, and how many bytes of its inbound stream were taken.
#[derive(Drop)]
pub struct CMux {
    pub mux: Mux,
    // At `u64::MAX` the count stays.
    pub taken: u64,
}
