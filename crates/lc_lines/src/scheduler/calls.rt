//! The calls of senders.
ghost use Rattle.std.specs.Prelude.{◌≡◌, ◌≤◌, true, if◌then◌else◌, is_ok, length, None, Some, IfOk, OnOk, OnErr};
ghost use Rattle.std.specs.Result.{result_err};
ghost use Rattle.lc_peer.specs.Peer.{client};
ghost use Rattle.lc_book.specs.Client.{spend_refusal};
ghost use Rattle.lc_book.specs.declared.fault.Refusal.TheVariants.{OutOfMemory};
ghost use Rattle.lc_lines.specs.declared.scheduler.Progress.TheVariants.{Waits};
ghost use Rattle.lc_lines.specs.Queue.{waits};
ghost use Rattle.lc_lines.specs.declared.queue.Ask.TheVariants.{Offer};
ghost use Rattle.lc_lines.specs.Permits.{is_permit};
ghost use Rattle.lc_lines.specs.Scheduler.{queue, aside, start, progress_of, cancel, for_good, IsCallAnswer, IsAttemptAnswer, IsCompleteAnswer, attempt, try_send, reserve, try_reserve, IsReserveAnswer, reserved_refusal, IsReservedAnswer, send_reserved, give_back, join, IsBoundAnswer, bound_progress, start_bound, IsHonoured, first, is_offer_of, complete_progress, complete};

use super::judging::{judge_bound, judge_call};
use super::{Attempt, Progress, Scheduler};
use crate::queue::{Ask, Bound, Call};
use lc_book::Refusal;
use lc_frame::Channel;

impl Scheduler {
    /// A call to send a message, by a ticket of the caller's choice. Its message enters the outbound queue at once where
    /// that is possible; else the call joins its wait queue with a copy of the message. Refused by 15, 1, 2 and 3, and by
    /// 14 where memory is refused; that guarantees are missing refuses nothing.
    pub fn send(&mut self, channel: Channel, ticket: u64, body: &[u8]) -> Result<Progress, Refusal>
        ensures answer { IsCallAnswer self.old.peer channel (length body.now) (result_err result) }
        ensures progress { IfOk result (λ progress. progress ≡ progress_of self.old channel (length body.now)) }
        ensures after { self.new ≡ (if is_ok result then start self.old channel ticket body.now else self.old) }
    {
        judge_call(&self.peer.client(channel), body.len())?;
        let at_once = self.goes_at_once(channel, body.len());
        let body = self.copy(body)?;
        if at_once {
            self.put(channel, body);
            return Ok(Progress::Proceeded);
        }
        self.wait(channel, ticket, Ask::Message(body))
    }

    /// An attempt to send a message at once, behind all calls of its channel that wait. Refused by 15, 1, 2 and 3, and by
    /// 14 where it can proceed and memory is refused.
    pub fn try_send(&mut self, channel: Channel, body: &[u8]) -> Result<Attempt, Refusal>
        ensures answer { IsAttemptAnswer self.old channel (length body.now) (result_err result) }
        ensures attempt { IfOk result (λ answer. answer ≡ attempt self.old channel (length body.now)) }
        ensures after { self.new ≡ (if is_ok result then try_send self.old channel body.now else self.old) }
    {
        judge_call(&self.peer.client(channel), body.len())?;
        if !self.goes_at_once(channel, body.len()) {
            return Ok(Attempt::Lacks(self.lack(channel, body.len())));
        }
        let body = self.copy(body)?;
        self.put(channel, body);
        Ok(Attempt::Succeeded)
    }

    /// An offer of a message of so many bytes, by a ticket of the caller's choice: the call joins its wait queue, and its
    /// caller is notified once it can proceed. Refused by 15, 1, 2 and 3, and by 14 where memory is refused; that
    /// guarantees are missing refuses nothing.
    pub fn offer(&mut self, channel: Channel, ticket: u64, len: usize) -> Result<(), Refusal>
        ensures answer { IsCallAnswer self.old.peer channel len (result_err result) }
        ensures after { self.new ≡ (if is_ok result then join self.old channel (record { ticket = ticket; ask = Offer len }) else self.old) }
    {
        judge_call(&self.peer.client(channel), len)?;
        self.wait(channel, ticket, Ask::Offer(len))?;
        Ok(())
    }

    // Whether the first call of a channel is an offer of this ticket.
    fn is_offer_of(&self, channel: Channel, ticket: u64) -> bool
        ensures { result ≡ is_offer_of ticket (first self.now channel) }
    {
        match self.queues[channel.index()].front() {
            Some(call) => call.ticket == ticket && call.is_offer(),
            None => false,
        }
    }

    /// The message of an offer is handed over. It is sent where the offer is the first call of its channel and the message
    /// can proceed now; else the offer waits, and is notified anew. Refused by 15, 1, 2 and 3, and by 14 where it can
    /// proceed and memory is refused; then nothing changes.
    pub fn complete(
        &mut self,
        channel: Channel,
        ticket: u64,
        body: &[u8],
    ) -> Result<Progress, Refusal>
        ensures answer { IsCompleteAnswer self.old channel ticket (length body.now) (result_err result) }
        ensures progress { IfOk result (λ progress. progress ≡ complete_progress self.old channel ticket (length body.now)) }
        ensures after { self.new ≡ (if is_ok result then complete self.old channel ticket body.now else self.old) }
    {
        judge_call(&self.peer.client(channel), body.len())?;
        if !self.is_offer_of(channel, ticket) {
            return Ok(Progress::Waits);
        }
        if !self.can_proceed(channel, body.len()) {
            let at = channel.index();
            self.queues[at].note_notified(false, self.left);
            return Ok(Progress::Waits);
        }
        let body = self.copy(body)?;
        self.put_first(channel, body);
        Ok(Progress::Proceeded)
    }

    /// A call to reserve a permit for a message of so many bytes, by a ticket of the caller's choice. The permit is
    /// granted at once where that is possible; else the call joins its wait queue. Refused by 15, 1, 2 and 3, and by 14
    /// where it would wait and memory is refused; that guarantees are missing refuses nothing.
    pub fn reserve(
        &mut self,
        channel: Channel,
        ticket: u64,
        len: usize,
    ) -> Result<Progress, Refusal>
        ensures answer { IsReserveAnswer self.old channel len (result_err result) }
        ensures progress { IfOk result (λ progress. progress ≡ progress_of self.old channel len) }
        ensures after { self.new ≡ (if is_ok result then reserve self.old channel ticket len else self.old) }
    {
        judge_call(&self.peer.client(channel), len)?;
        if self.goes_at_once(channel, len) {
            self.grant(channel, len);
            return Ok(Progress::Proceeded);
        }
        self.wait(channel, ticket, Ask::Permit(len))
    }

    /// An attempt to reserve a permit at once, behind all calls of its channel that wait. Refused by 15, 1, 2 and 3.
    pub fn try_reserve(&mut self, channel: Channel, len: usize) -> Result<Attempt, Refusal>
        ensures answer { result_err result ≡ for_good (spend_refusal (client self.old.peer channel) len) }
        ensures attempt { IfOk result (λ answer. answer ≡ attempt self.old channel len) }
        ensures after { self.new ≡ (if is_ok result then try_reserve self.old channel len else self.old) }
    {
        judge_call(&self.peer.client(channel), len)?;
        if !self.goes_at_once(channel, len) {
            return Ok(Attempt::Lacks(self.lack(channel, len)));
        }
        self.grant(channel, len);
        Ok(Attempt::Succeeded)
    }

    // Why a message of so many bytes is refused that is sent by a permit of so many.
    fn judge_reserved(&self, channel: Channel, len: usize, n: usize) -> Result<(), Refusal>
        ensures answer { result_err result ≡ reserved_refusal self.now channel len n }
        ensures permit { OnOk result (is_permit (aside self.now channel) len ≡ true) }
        ensures within { OnOk result (n ≤ len) }
        ensures accepted { OnOk result (spend_refusal (client self.now.peer channel) n ≡ None) }
    {
        judge_call(&self.peer.client(channel), n)?;
        let permitted = self.aside(channel).permitted(len);
        if n > permitted {
            return Err(Refusal::NoGuarantee {
                held: permitted as u64,
            });
        }
        Ok(())
    }

    /// Sends a message by a permit of so many bytes, which is used up: whatever is queued and whatever waits, the message
    /// enters the outbound queue, and the guarantees that it leaves unused are free again. Refused by 15, 1, 2 and 3, by
    /// 4 where the message is longer than the permit or no such permit is out, and by 14 where memory is refused; then
    /// nothing changes, and the permit is out still.
    pub fn send_reserved(
        &mut self,
        channel: Channel,
        len: usize,
        body: &[u8],
    ) -> Result<(), Refusal>
        ensures answer { IsReservedAnswer self.old channel len (length body.now) (result_err result) }
        ensures honoured { IsHonoured self.old channel len (length body.now) (result_err result) }
        ensures after { self.new ≡ (if is_ok result then send_reserved self.old channel len body.now else self.old) }
    {
        // The invariant says that permits are honoured.
        let _ = &self.alloc;
        self.judge_reserved(channel, len, body.len())?;
        let body = self.copy(body)?;
        self.put_reserved(channel, len, body);
        Ok(())
    }

    /// Gives back a permit of so many bytes: its slot and its guarantees are free again. The answer is whether such a
    /// permit was out.
    pub fn give_back(&mut self, channel: Channel, len: usize) -> bool
        ensures answer { result ≡ is_permit (aside self.old channel) len }
        ensures after { self.new ≡ give_back self.old channel len }
    {
        if !self.aside(channel).is_permit(len) {
            return false;
        }
        self.release(channel, len);
        true
    }

    // A call joins its wait queue, as the last. Where memory is refused nothing changes.
    fn wait(&mut self, channel: Channel, ticket: u64, ask: Ask) -> Result<Progress, Refusal>
        ensures error { OnErr result (result_err result ≡ Some OutOfMemory) }
        ensures progress { IfOk result (λ progress. progress ≡ Waits) }
        ensures after { self.new ≡ (if is_ok result then join self.old channel (record { ticket = ticket; ask = ask }) else self.old) }
    {
        let at = channel.index();
        match self.queues[at].push(Call { ticket, ask }) {
            Ok(()) => Ok(Progress::Waits),
            Err(_) => Err(Refusal::OutOfMemory),
        }
    }

    /// A call to bound what a channel sends from here on, by a ticket of the caller's choice. The frame of the bound is
    /// put at once where no call of the channel waits, no permit of it is out, and a slot is free for a control frame;
    /// else the call joins its wait queue. A limit is refused by 15, 7 and 8, a finish by 17 and 15, and both by 14 where
    /// the call would wait and memory is refused.
    pub fn bound(
        &mut self,
        channel: Channel,
        ticket: u64,
        bound: Bound,
    ) -> Result<Progress, Refusal>
        ensures answer { IsBoundAnswer self.old channel bound (result_err result) }
        ensures progress { IfOk result (λ progress. progress ≡ bound_progress self.old channel bound) }
        ensures after { self.new ≡ (if is_ok result then start_bound self.old channel ticket bound else self.old) }
    {
        judge_bound(&self.peer.client(channel), bound)?;
        if self.bounds_at_once(channel, bound) {
            self.put_bound(channel, bound);
            return Ok(Progress::Proceeded);
        }
        self.wait(channel, ticket, Ask::End(bound))
    }

    /// Gives up the first call of a ticket that waits: nothing of it was sent, and nothing will be. The answer is whether
    /// one waited.
    pub fn cancel(&mut self, channel: Channel, ticket: u64) -> bool
        ensures waited { result ≡ waits ticket (queue self.old channel).calls }
        ensures after { self.new ≡ cancel self.old channel ticket }
    {
        let at = channel.index();
        self.queues[at].remove(ticket)
    }
}
