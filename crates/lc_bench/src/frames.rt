//! Where frames are put, and where they are taken out: the lanes of a session's queue and their
//! drain, and the kit's queue, which has no lanes.
ghost use Rattle.std.specs.Prelude.{◌≡◌, IfSome};
ghost use Rattle.lc_frame.specs.Frame.{lane_of, IsValid};

use crossbeam_queue::ArrayQueue;
use lc_frame::{Channel, Frame, Version};
use lc_queue::{Drain, LaneEnd, lanes};
use std::alloc::{AllocError, Global};
use std::io;
use std::sync::{Arc, Wait};

/// The slots of a queue.
const SLOTS: u32 = 64;

/// The first of the lanes that Issues have.
const FIRST: u8 = 7;

/// Where Issues are put.
pub trait Inlet {
    /// Puts one, and says whether there was room.
    fn put<R: Wait>(&mut self, rt: &R) -> bool;
}

/// Where they are taken out.
pub trait Outlet {
    /// Takes one, and says whether there was any.
    fn take<R: Wait>(&mut self, rt: &R) -> bool;
}

// An Issue of a lane, in a version; `None` where the lane has none.
#[inline]
fn issue_in(version: Version, lane: u8) -> Option<Frame>
    ensures { IfSome result (λ frame. IsValid version frame × (lane_of frame ≡ lane)) }
{
    let channel = Channel::from_number(lane.checked_sub(FIRST)?)?;
    let frame = Frame::Issue { channel, amount: 5 };
    if frame.is_valid(version) && frame.lane() == lane {
        Some(frame)
    } else {
        None
    }
}

impl Inlet for LaneEnd {
    fn put<R: Wait>(&mut self, rt: &R) -> bool {
        let Some(frame) = issue_in(self.version(), self.lane()) else {
            return false;
        };
        match self.push(rt, frame) {
            Ok(()) => true,
            Err(_) => false,
        }
    }
}

impl Outlet for Drain {
    fn take<R: Wait>(&mut self, rt: &R) -> bool {
        match self.pop(rt) {
            Some(_) => true,
            None => false,
        }
    }
}

/// The kit's queue, into which one thread puts frames as if into a lane.
#[derive(Drop)]
pub struct Shared {
    queue: Arc<ArrayQueue<Frame>, Global>,
    lane: u8,
}

impl Inlet for Shared {
    fn put<R: Wait>(&mut self, rt: &R) -> bool {
        let Some(frame) = issue_in(Version::One, self.lane) else {
            return false;
        };
        match self.queue.push(rt, frame) {
            Ok(()) => true,
            Err(_) => false,
        }
    }
}

impl Outlet for Shared {
    fn take<R: Wait>(&mut self, rt: &R) -> bool {
        match self.queue.pop(rt) {
            Some(_) => true,
            None => false,
        }
    }
}

/// The ends of the first so many lanes that Issues have, and the drain, of a new queue.
pub fn new_lanes(alloc: Global, count: usize) -> io::Result<(Vec<LaneEnd>, Drain)> {
    let Ok(parts) = lanes(alloc, SLOTS, Version::One) else {
        return Err(io::Error::other("no queue was made"));
    };
    let mut inlets = Vec::new(alloc);
    for end in parts.ends {
        if end.lane() >= FIRST && inlets.len() < count {
            inlets.push(end)?;
        }
    }
    Ok((inlets, parts.drain))
}

/// The same of the kit's queue.
pub fn new_shared(alloc: Global, count: u8) -> Result<(Vec<Shared>, Shared), AllocError> {
    let queue = Arc::new(alloc, ArrayQueue::new(alloc, SLOTS as usize)?)?;
    let mut inlets = Vec::new(alloc);
    for place in 0..count {
        let queue = Arc::try_clone(&queue)?;
        let lane = FIRST.wrapping_add(place);
        inlets.push(Shared { queue, lane })?;
    }
    Ok((inlets, Shared { queue, lane: FIRST }))
}
