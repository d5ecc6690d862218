//! Closing: all calls and permits are given up, and each channel is finished.
ghost use Rattle.std.specs.Prelude.{◌≡◌};
ghost use Rattle.lc_lines.specs.Outbound.{every_channel};
ghost use Rattle.lc_lines.specs.Closing.{last_bound, is_finished_in, is_finished, abandon, abandon_among, finish, close, NoneWaits, IsClosed};

use super::Scheduler;
use crate::permits::Aside;
use crate::queue::Bound;
use lc_book::ClientBook;
use lc_frame::{Channel, Version};

// The bound that finishes a channel.
fn last_bound(version: Version) -> Bound
    ensures { result ≡ last_bound version }
{
    match version {
        Version::One => Bound::Limit(0),
        Version::Two => Bound::Finish,
    }
}

// Whether the client of a version has finished its channel.
fn has_finished(version: Version, book: &ClientBook) -> bool
    ensures { result ≡ is_finished_in version book.now }
{
    match version {
        Version::One => match book.send_left() {
            Some(left) => left == 0,
            None => false,
        },
        Version::Two => book.is_finished(),
    }
}

impl Scheduler {
    /// Whether this side has finished a channel, as [`Scheduler::close`] does it.
    pub fn is_finished(&self, channel: Channel) -> bool
        ensures { result ≡ is_finished self.now.peer channel }
    {
        has_finished(self.peer.version(), &self.peer.client(channel))
    }

    // The calls and the permits of a channel are given up.
    fn abandon(&mut self, channel: Channel)
        ensures { self.new ≡ abandon self.old channel }
    {
        let at = channel.index();
        let permits = self.asides[at].permits;
        self.counts.void(channel, permits);
        self.asides[at] = Aside::none();
        self.queues[at].clear();
    }

    // All calls and permits are given up.
    fn abandon_all(&mut self)
        ensures after { self.new ≡ abandon_among self.old every_channel }
        ensures none { NoneWaits self.new }
    {
        // Its invariant says that every channel has its place.
        let _ = &self.alloc;
        self.abandon(Channel::Reconciliation);
        self.abandon(Channel::Data);
        self.abandon(Channel::Overlap);
        self.abandon(Channel::Capability);
        self.abandon(Channel::AreaOfInterest);
        self.abandon(Channel::PayloadRequest);
        self.abandon(Channel::StaticToken);
    }

    // A channel is finished, unless it was, or no slot is free for a control frame.
    fn finish(&mut self, channel: Channel)
        requires { NoneWaits self.old }
        ensures after { self.new ≡ finish self.old channel }
        ensures none { NoneWaits self.new }
    {
        let version = self.peer.version();
        let book = self.peer.client(channel);
        if has_finished(version, &book) {
            return;
        }
        if self.has_control_slot() {
            self.put_bound(channel, last_bound(version));
        }
    }

    /// All calls and permits are given up, and then each channel is finished for which a slot is free for a control frame.
    pub fn close(&mut self)
        ensures after { self.new ≡ close self.old }
        ensures closed { IsClosed self.new }
    {
        // Its invariant says that every channel has its books.
        let _ = &self.alloc;
        self.abandon_all();
        self.finish(Channel::Reconciliation);
        self.finish(Channel::Data);
        self.finish(Channel::Overlap);
        self.finish(Channel::Capability);
        self.finish(Channel::AreaOfInterest);
        self.finish(Channel::PayloadRequest);
        self.finish(Channel::StaticToken);
    }
}
