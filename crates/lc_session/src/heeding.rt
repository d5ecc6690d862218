//! What the answer of an end's call means for waking.
use lc_book::Refusal;
use lc_wake::Waiter;

/// A frame that was put wakes the writing pump where it sleeps; a full queue is noted, so that the next
/// wait is for a place there.
pub(crate) fn heed<T>(waiter: &mut Waiter, answer: &Result<T, Refusal>) {
    match answer {
        Ok(_) => waiter.frame_put(),
        Err(Refusal::QueueFull) => waiter.met_full_queue(),
        Err(_) => {}
    }
}
