//! Pictures, as SVG, of a session between two peers and of a stream of frames, over readers, writers
//! and arguments.
#![tactic(auto)]

mod command;
mod drawing;
mod fault;
mod page;
mod picture;
mod session;
pub mod shapes;
mod stream;
mod words;

pub use command::{Command, chart, run};
pub use drawing::{draw_bytes, draw_script};
pub use fault::ChartFault;
pub use session::MAX_EVENTS;
pub use stream::{Frames, Placed};
pub use words::Told;
