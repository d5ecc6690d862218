//! A session behind a handle: the calls of `lc_mux` for programs in C.
mod balances;
mod calls;
mod controls;
mod ending;
mod handle;
mod make;
mod reach;
mod session;
mod shown;
mod taking;
mod wire;

pub use balances::{lcmux_mux_client, lcmux_mux_server, lcmux_mux_slots_left};
pub use calls::{
    lcmux_mux_cancel, lcmux_mux_complete, lcmux_mux_finish, lcmux_mux_give_back,
    lcmux_mux_limit_sending, lcmux_mux_offer, lcmux_mux_reserve, lcmux_mux_send,
    lcmux_mux_send_reserved, lcmux_mux_try_reserve, lcmux_mux_try_send,
};
pub use controls::{
    LcmuxOwed, lcmux_mux_absolve, lcmux_mux_honour, lcmux_mux_issue, lcmux_mux_limit_receiving,
    lcmux_mux_owed, lcmux_mux_plead, lcmux_mux_set_issue_policy, lcmux_mux_set_plead_policy,
};
pub use ending::{
    lcmux_mux_abort, lcmux_mux_close, lcmux_mux_end_input, lcmux_mux_fail,
    lcmux_mux_is_done_writing, lcmux_mux_over,
};
pub use handle::MuxSlot;
pub use make::{lcmux_mux_free, lcmux_mux_new};
pub use reach::LcmuxMux;
pub use session::CMux;
pub use taking::{
    LcmuxNotice, lcmux_mux_front, lcmux_mux_front_len, lcmux_mux_next_notice, lcmux_mux_pop,
    lcmux_mux_take,
};
pub use wire::{lcmux_mux_deliver, lcmux_mux_error, lcmux_mux_write};
