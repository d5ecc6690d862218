//! The peer for programs in C, behind a handle.
//!
//! Each call takes the side out of the handle, works on it and puts it back. The calls require of C only
//! what the types say, which nothing tests: that a handle began as zero and is the one that the last
//! call left, and that a slice is as long as its length says.
//!
//! C keeps an `LcmuxPeer`: a mark that is 0 if the handle is empty, and a `Slot`, whose pointer is that
//! of a `Box<CPeer>`. A raw pointer may cross to C and a box may not, so `Slot` (in `handle.rt`) is a box
//! whose fields are visible. Its five functions, and the one that lends a message by its address, are the
//! only ones that are proved by hand. The contracts of all others see which side, if any, a handle has.
//! `open` takes it out, and `reach` does if the call also names a channel.
//!
//! A `CPeer` is a peer, the `RingIntake` of its inbound stream with a count of the bytes that were taken of
//! it, and `Pending`, the rest of the greeting or of a frame that is partly written. Contracts see it as a
//! `Side`. The intake knows the sizes of the peer's rings, which never change: that is the invariant of a
//! `CPeer`, and the reason why no message that is longer than its ring is stored. Inbound bytes go through
//! `RingIntake::deliver`; where they broke the rules `error.rt` says by the count. Outbound bytes go through
//! `give` (in `streams.rt`): first the pending bytes, then the queued frames one by one, each encoded into
//! the buffer of `Pending` and copied as far as there is room. So a call writes exactly as many bytes as
//! there are and have room. `Outgo` could not promise that, since it hands its bytes to a writer, of which
//! nothing is known.
//!
//! Codes are 0, the numbers of refusals, 32 to 50 for handles, configurations and takes, the number of a
//! violation plus 100, and that of a fault plus 200.
#![tactic(auto)]

mod answer;
mod asking;
mod balances;
mod c_peer;
mod error;
mod handle;
mod lend;
mod make;
mod mux;
mod next;
mod own;
mod parts;
mod peer;
mod pending;
mod reach;
mod streams;
mod take;
mod text;
mod wire;

pub use answer::LcmuxAnswer;
pub use asking::{
    LcmuxChannelReady, LcmuxReady, lcmux_peer_needs, lcmux_peer_ready, lcmux_peer_slots_left,
    lcmux_peer_wants_write, lcmux_peer_would_absolve, lcmux_peer_would_finish,
    lcmux_peer_would_honour, lcmux_peer_would_issue, lcmux_peer_would_limit_receiving,
    lcmux_peer_would_limit_sending, lcmux_peer_would_plead, lcmux_peer_would_send,
};
pub use balances::{LcmuxClient, LcmuxServer, NO_LIMIT, lcmux_peer_client, lcmux_peer_server};
pub use c_peer::CPeer;
pub use error::{LcmuxError, lcmux_peer_error};
pub use handle::Slot;
pub use lend::{LcmuxFront, LcmuxPiece, lcmux_peer_front};
pub use make::{LcmuxConfig, lcmux_peer_free, lcmux_peer_new};
pub use mux::{
    CMux, LcmuxMux, LcmuxNotice, LcmuxOwed, MuxSlot, lcmux_mux_abort, lcmux_mux_absolve,
    lcmux_mux_cancel, lcmux_mux_client, lcmux_mux_close, lcmux_mux_complete, lcmux_mux_deliver,
    lcmux_mux_end_input, lcmux_mux_error, lcmux_mux_fail, lcmux_mux_finish, lcmux_mux_free,
    lcmux_mux_front, lcmux_mux_front_len, lcmux_mux_give_back, lcmux_mux_honour,
    lcmux_mux_is_done_writing, lcmux_mux_issue, lcmux_mux_limit_receiving, lcmux_mux_limit_sending,
    lcmux_mux_new, lcmux_mux_next_notice, lcmux_mux_offer, lcmux_mux_over, lcmux_mux_owed,
    lcmux_mux_plead, lcmux_mux_pop, lcmux_mux_reserve, lcmux_mux_send, lcmux_mux_send_reserved,
    lcmux_mux_server, lcmux_mux_set_issue_policy, lcmux_mux_set_plead_policy, lcmux_mux_slots_left,
    lcmux_mux_take, lcmux_mux_try_reserve, lcmux_mux_try_send, lcmux_mux_write,
};
pub use next::{LcmuxNext, lcmux_peer_next, lcmux_peer_sent};
pub use own::{
    lcmux_peer_absolve, lcmux_peer_finish, lcmux_peer_honour, lcmux_peer_issue,
    lcmux_peer_limit_receiving, lcmux_peer_limit_sending, lcmux_peer_plead, lcmux_peer_send,
};
pub use peer::LcmuxPeer;
pub use pending::Pending;
pub use take::{lcmux_peer_front_len, lcmux_peer_pop, lcmux_peer_take};
pub use text::{lcmux_text, lcmux_version};
pub use wire::{
    LcmuxDelivery, lcmux_peer_deliver, lcmux_peer_end, lcmux_peer_pending, lcmux_peer_write,
};
