//! Frames that carry a number.
ghost use Rattle.std.specs.Prelude.{◌≡◌, IfSome};
ghost use Rattle.lc_frame.specs.Frame.{lane_of, IsValid};

use lc_frame::{Frame, Lane, Version};

/// The frame of this number in a lane, by its amount; `None` where a version has no such frame.
pub fn numbered(version: Version, lane: u8, number: u32) -> Option<Frame>
    ensures { IfSome result (λ frame. IsValid version frame × (lane_of frame ≡ lane)) }
{
    let amount = number;
    let frame = match Lane::from_number(lane)? {
        Lane::Client(channel) => Frame::Absolve { channel, amount },
        Lane::Server(channel) => Frame::Issue { channel, amount },
    };
    if frame.is_valid(version) && frame.lane() == lane {
        Some(frame)
    } else {
        None
    }
}

/// The number of a frame that was made so; 0 of any other.
pub fn number_of(frame: &Frame) -> u32 {
    match frame {
        Frame::Absolve { amount, .. } | Frame::Issue { amount, .. } => *amount,
        _ => 0,
    }
}
