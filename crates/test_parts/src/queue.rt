//! The ends of a queue and its drain.
ghost use Rattle.std.specs.List.{All};
ghost use Rattle.lc_queue.specs.Parts.{IsSame};

use lc_frame::{LANES, Version};
use lc_queue::{Drain, LaneEnd, LanesFault, lanes};
use std::alloc::Global;

fn join_all(drain: &mut Drain, ends: [LaneEnd; LANES])
    requires { All (λ end. IsSame drain.old.queue end.queue) ends }
{
    for end in ends {
        drain.join(end);
    }
}

/// A new queue of so many slots, all of whose lanes have ended.
pub fn joined_queue(alloc: Global, slots: u32) -> Result<Drain, LanesFault> {
    let parts = lanes(alloc, slots, Version::One)?;
    let mut drain = parts.drain;
    join_all(&mut drain, parts.ends);
    Ok(drain)
}
