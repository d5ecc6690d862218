//! The frames of seven logical channels over one ordered byte stream: their values, their codec, and
//! the sums of a list of frames on one channel.
#![tactic(auto)]

mod begun;
mod body;
mod bounds;
mod buffer_too_small;
mod channel;
mod decoded;
mod encoding;
mod fill;
mod frame;
mod frame_fault;
mod frame_ref;
mod greeting;
mod head;
mod hold;
mod kind;
mod lane;
pub mod laws;
mod out_of_range;
mod progress;
mod scan;
mod stream_decoder;
mod stream_encoder;
mod version;

pub use begun::{BegunSend, begun_send};
pub use body::Body;
pub use bounds::{MAX_SLOTS, is_capacity, is_slots};
pub use buffer_too_small::BufferTooSmall;
pub use channel::{CHANNELS, Channel};
pub use decoded::{Decoded, decode};
pub use encoding::MAX_FRAME;
pub use fill::{Fill, Filled};
pub use frame::{Frame, MAX_AMOUNT, MAX_BODY, MAX_TOTAL};
pub use frame_fault::FrameFault;
pub use frame_ref::FrameRef;
pub use kind::Kind;
pub use lane::{LANES, Lane};
pub use out_of_range::{OutOfRange, number_in_front};
pub use stream_decoder::StreamDecoder;
pub use stream_encoder::StreamEncoder;
pub use version::{GREETING, Version};
