//! The parts of a session.
use crate::read_pump::ReadPump;
use crate::recv_end::RecvEnd;
use crate::send_end::SendEnd;
use crate::session::Session;
use crate::write_pump::WritePump;
use lc_frame::CHANNELS;

/// The parts of a session, each for a thread of its own. `send_ends` and `recv_ends` have the end of
/// each channel at the place of its number.
#[derive(Drop)]
pub struct Parts {
    /// For whoever may have to stop the session.
    pub session: Session,
    /// For the threads that send.
    pub send_ends: [SendEnd; CHANNELS],
    /// For the threads that take messages.
    pub recv_ends: [RecvEnd; CHANNELS],
    /// For the thread that reads the other side's stream.
    pub read_pump: ReadPump,
    /// For the thread that writes this side's stream.
    pub write_pump: WritePump,
}
