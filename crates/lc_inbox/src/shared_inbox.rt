//! How an inbox comes to be shared, and how that ends.
ghost use Rattle.std.specs.Prelude.{◌≡◌, true, false, IfOk};
ghost use Rattle.lc_inbox.specs.Ends.{IsNewHeld};
ghost use Rattle.lc_inbox.specs.Sides.{AreOfOne, IsNew, IsFinished, IsIdle, side_of};

use crate::half::{Half, halves};
use crate::inbox_end::InboxEnd;
use crate::inbox_in::InboxIn;
use crate::inbox_out::InboxOut;
use crate::rule::Key;
use lc_book::ServerBook;
use lc_queue::LaneEnd;
use std::alloc::{AllocError, Global};
use std::snapshot::Snapshot;
use std::sync::{Arc, Mutex};

/// The two sides of one inbox, for two threads.
#[derive(Drop)]
pub struct SharedInbox {
    /// For the thread that reads frames.
    pub incoming: InboxIn,
    /// For the thread that takes messages.
    pub outgoing: InboxOut,
}

/// Shares an inbox in which nothing has happened. No other call takes memory.
pub fn share(alloc: Global, end: InboxEnd) -> Result<SharedInbox, AllocError>
    requires { IsNewHeld end }
    ensures { IfOk result (λ shared. IsNew end.inbox.book.capacity end.lane shared.incoming shared.outgoing) }
{
    let channel = end.channel();
    let key = Key {
        channel,
        capacity: end.book().capacity(),
        lane: Snapshot::of(end.lane()),
    };
    let (reading, receiving) = halves(alloc, end, key)?;
    let Ok(turns) = Arc::new(alloc, Mutex::new(())) else {
        return Err(AllocError);
    };
    let theirs = Arc::try_clone(&turns)?;
    let incoming = InboxIn {
        channel,
        turns,
        half: reading,
    };
    let outgoing = InboxOut {
        channel,
        turns: theirs,
        half: receiving,
    };
    Ok(SharedInbox { incoming, outgoing })
}

/// Ends both sides of an inbox: the book and the lane's end, as their history leaves them. What
/// waits is lost. It waits for no one, since no other has the inbox.
pub fn finish(incoming: InboxIn, outgoing: InboxOut) -> (ServerBook, LaneEnd)
    requires one { AreOfOne incoming outgoing }
    ensures { IsFinished incoming outgoing result.0 result.1 }
{
    let InboxIn {
        channel: _,
        turns: _,
        half: reading,
    } = incoming;
    let InboxOut {
        channel: _,
        turns: _,
        half: receiving,
    } = outgoing;
    end_both(reading, receiving)
}

// Both halves of the lock end, and the inbox with them.
fn end_both(reading: Half, receiving: Half) -> (ServerBook, LaneEnd)
    requires one { reading.inbox ≡ receiving.inbox }
    requires reading { IsIdle true reading }
    requires receiving { IsIdle false receiving }
    ensures { IsFinished (side_of reading) (side_of receiving) result.0 result.1 }
{
    let end = reading.take_last(receiving);
    end.into_parts()
}
