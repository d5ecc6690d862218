//! The program `lcmux` as a library, over readers, writers and arguments: it replays scripts of events
//! between two peers, lists the frames of a stream, and lets two sessions exchange messages.
#![tactic(auto)]

mod answer;
mod argument;
mod command;
mod decoding;
mod error_line;
mod fault;
mod help;
mod input;
mod listing;
mod looping;
mod number;
mod output;
mod replaying;
mod script;
mod words;

pub use answer::write_answer;
pub use argument::{parse_capacity, parse_version};
pub use command::run;
pub use error_line::{ErrorLine, has_colours, write_line};
pub use fault::{Culprit, Fault, Status};
pub use help::{Asked, VERSION};
pub use input::{MAX_INPUT, read_all};
pub use listing::{frames, list_frames, write_frame};
pub use looping::print_loopback;
pub use output::{buffered, write_decimal};
pub use replaying::{replay, replay_as, replay_text};
pub use script::parse_script;
