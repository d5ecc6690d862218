//! Scripts and streams for a host that has only numbers and memory, such as a web page: what `lcmux`
//! prints of them, what `lcmux_chart` draws, and the state of both peers, from one buffer into another.
#![tactic(auto)]

mod exports;
mod played;
mod standing;
mod text;

pub use exports::{
    lcmux_play_chart, lcmux_play_frames, lcmux_play_places, lcmux_play_replay, lcmux_play_standing,
    lcmux_play_stream,
};
pub use played::LcmuxPlayed;
pub use text::lcmux_play_text;
