//! A session in threads: a sending and a receiving handle for each channel, a pump that reads and a
//! pump that writes.
#![tactic(auto)]

mod batch;
mod heeding;
pub mod laws;
mod parts;
mod read_pump;
mod reading_side;
mod recv_end;
mod report;
mod send_end;
mod session;
mod write_pump;

pub use parts::Parts;
pub use read_pump::ReadPump;
pub use recv_end::RecvEnd;
pub use report::{Report, finish};
pub use send_end::SendEnd;
pub use session::Session;
pub use write_pump::{WriteEnd, WritePump};
