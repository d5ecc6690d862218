//! What a call leaves that proceeds: a message or a bound enters the outbound queue, or a permit is granted.
ghost use Rattle.std.specs.Prelude.{◌≡◌, ◌≤◌, true, if◌then◌else◌, is_ok, length, None, Some, IfOk, OnErr};
ghost use Rattle.std.specs.Result.{result_err};
ghost use Rattle.lc_peer.specs.Peer.{client};
ghost use Rattle.lc_peer.specs.Calls.{refusal, put};
ghost use Rattle.lc_book.specs.declared.fault.Refusal.TheVariants.{OutOfMemory};
ghost use Rattle.lc_book.specs.Client.{spend_refusal};
ghost use Rattle.lc_lines.specs.Permits.{is_permit};
ghost use Rattle.lc_lines.specs.Bounds.{frame_of_bound};
ghost use Rattle.lc_lines.specs.Outbound.{fits};
ghost use Rattle.lc_lines.specs.Scheduler.{aside, unwritten, is_accepted, can_bound, send, proceed, grant, release, send_reserved, put_frame};

use super::Scheduler;
use crate::queue::Bound;
use lc_book::Refusal;
use lc_frame::{Body, Channel};
use lc_peer::Peer;

// Puts the frame of a bound.
fn put_end(peer: &mut Peer, channel: Channel, bound: Bound) -> Result<(), Refusal>
    ensures answer { result_err result ≡ refusal peer.old (frame_of_bound channel bound) }
    ensures after { peer.new ≡ (if is_ok result then put peer.old (frame_of_bound channel bound) else peer.old) }
{
    match bound {
        Bound::Limit(bytes) => peer.limit_sending(channel, bytes),
        Bound::Finish => peer.finish(channel),
    }
}

impl Scheduler {
    // A copy of a message.
    pub(super) fn copy(&self, body: &[u8]) -> Result<Body, Refusal>
        ensures value { IfOk result (λ copy. copy ≡ body.now) }
        ensures error { OnErr result (result_err result ≡ Some OutOfMemory) }
    {
        match Vec::with_capacity(self.alloc, body.len()) {
            Ok(room) => Ok(Body::copied(room, body)),
            Err(_) => Err(Refusal::OutOfMemory),
        }
    }

    // A message enters the outbound queue, for which there are guarantees, a slot and bytes.
    pub(super) fn put(&mut self, channel: Channel, body: Body)
        requires accepted { is_accepted self.old channel (length body) ≡ true }
        requires bytes { fits (unwritten self.old) (length body) ≡ true }
        ensures { self.new ≡ send self.old channel body }
    {
        // Their contracts say what the peer keeps.
        let _book = self.peer.client(channel);
        let _count = self.peer.waiting();
        let at = channel.index();
        let sent = self.sent.saturating_add(1);
        let len = body.as_slice().len();
        self.counts.enter(channel, len);
        self.queues[at].note_sent(sent);
        self.sent = sent;
        self.exempt = 0;
        self.peer.send_owned(channel, body);
    }

    // The first call of a channel is removed, and its message enters the outbound queue.
    pub(super) fn put_first(&mut self, channel: Channel, body: Body)
        requires accepted { is_accepted self.old channel (length body) ≡ true }
        requires bytes { fits (unwritten self.old) (length body) ≡ true }
        ensures { self.new ≡ proceed self.old channel body }
    {
        let at = channel.index();
        let _ = self.queues[at].pop();
        self.put(channel, body);
    }

    // A permit is granted, for which there are guarantees and a slot.
    pub(super) fn grant(&mut self, channel: Channel, len: usize)
        requires { is_accepted self.old channel len ≡ true }
        ensures { self.new ≡ grant self.old channel len }
    {
        // Its contract says what the book keeps.
        let _book = self.peer.client(channel);
        let at = channel.index();
        let sent = self.sent.saturating_add(1);
        self.counts.grant(channel);
        self.asides[at] = self.asides[at].with_permit(len);
        self.queues[at].note_sent(sent);
        self.sent = sent;
    }

    // A message enters the outbound queue by a permit of so many bytes, which is out and no shorter.
    pub(super) fn put_reserved(&mut self, channel: Channel, len: usize, body: Body)
        requires permit { is_permit (aside self.old channel) len ≡ true }
        requires within { length body ≤ len }
        requires accepted { spend_refusal (client self.old.peer channel) (length body) ≡ None }
        ensures { self.new ≡ send_reserved self.old channel len body }
    {
        // Their contracts say what the peer keeps.
        let _book = self.peer.client(channel);
        let _count = self.peer.waiting();
        let at = channel.index();
        let body_len = body.as_slice().len();
        let exempt = self.exempt.saturating_add(1);
        self.counts.use_permit(body_len);
        self.asides[at] = self.asides[at].without_permit(len);
        self.exempt = exempt;
        self.peer.send_owned(channel, body);
    }

    // A permit of so many bytes, which is out, is out no longer.
    pub(super) fn release(&mut self, channel: Channel, len: usize)
        requires { is_permit (aside self.old channel) len ≡ true }
        ensures { self.new ≡ release self.old channel len }
    {
        let at = channel.index();
        self.counts.release(channel);
        self.asides[at] = self.asides[at].without_permit(len);
    }

    // The frame of a bound enters the outbound queue, which can be put.
    pub(super) fn put_bound(&mut self, channel: Channel, bound: Bound)
        requires { can_bound self.old channel bound ≡ true }
        ensures { self.new ≡ put_frame self.old (frame_of_bound channel bound) }
    {
        match put_end(&mut self.peer, channel, bound) {
            Ok(()) => {}
            Err(_) => unreachable!(),
        }
    }
}
