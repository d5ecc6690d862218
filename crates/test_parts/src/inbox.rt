//! Both sides of seven inboxes.
ghost use Rattle.std.specs.Prelude.{IfSome};
ghost use Rattle.lc_inbox.specs.Inboxes.{AreMatched};

use lc_frame::{CHANNELS, Version};
use lc_inbox::{FinishedInboxes, Inboxes, finish_all, share_all};
use lc_queue::lanes;
use std::alloc::Global;

fn new_inboxes(alloc: Global, capacity: u32, slots: u32) -> Option<Inboxes>
    ensures { IfSome result (λ inboxes. AreMatched inboxes.incoming inboxes.outgoing) }
{
    let parts = lanes(alloc, slots, Version::One).ok()?;
    share_all(alloc, [capacity; CHANNELS], parts.ends).ok()
}

/// What new inboxes leave, over rings of so many bytes and a queue of so many slots. `None` where a number is bad, or
/// there is no memory.
pub fn finished_inboxes(alloc: Global, capacity: u32, slots: u32) -> Option<FinishedInboxes> {
    let inboxes = new_inboxes(alloc, capacity, slots)?;
    Some(finish_all(inboxes.incoming, inboxes.outgoing))
}
