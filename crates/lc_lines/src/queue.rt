//! The wait queue of a channel.
ghost use Rattle.std.specs.Prelude.{◌≡◌, ◌++◌, ◌∷◌, [], ◌==◌, ◌&&◌, if◌then◌else◌, is_ok, length, slice_get};
ghost use Rattle.std.specs.Option.{option_copied};
ghost use Rattle.lc_lines.specs.Queue.{empty_queue, call_len, is_offer, is_bound, first_waiting, place_of, waits, without_first, without_calls, without_ticket};

use lc_frame::Body;
use std::alloc::Global;
use std::collections::VecDeque;
use std::marker::Model;

/// A bound on what a channel sends from here on.
#[derive(Clone, Copy)]
pub enum Bound {
    /// At most so many bytes.
    Limit(u64),
    /// Nothing: the channel is finished.
    Finish,
}

/// What a call that waits asks for.
#[derive(Drop)]
pub enum Ask {
    /// To send this message, which the call left behind: it is sent once it can proceed.
    Message(Body),
    /// To send a message of so many bytes: the caller is notified once it can proceed, and then hands it over.
    Offer(usize),
    /// To be granted a permit for a message of so many bytes.
    Permit(usize),
    /// To bound what the channel sends.
    End(Bound),
}

/// A call that waits, by the ticket that its caller gave it.
#[derive(Drop)]
pub struct Call {
    pub ticket: u64,
    pub ask: Ask,
}

/// The calls of a channel that wait, when the channel took its last turn, and whether the first call was notified and has not
/// come since.
pub struct WaitQueue {
    calls: VecDeque<Call>,
    last: u64,
    notified: bool,
    noted: u64,
}

impl Call {
    /// How many bytes its message has, or its permit; a bound has none.
    #[inline]
    pub fn len(&self) -> usize
        ensures { result ≡ call_len self.now }
    {
        match &self.ask {
            Ask::Message(body) => body.as_slice().len(),
            Ask::Offer(len) | Ask::Permit(len) => *len,
            Ask::End(_) => 0,
        }
    }

    /// Whether its caller hands the message over once it is notified.
    #[inline]
    pub fn is_offer(&self) -> bool
        ensures { result ≡ is_offer self.now.ask }
    {
        match &self.ask {
            Ask::Message(_) | Ask::Permit(_) | Ask::End(_) => false,
            Ask::Offer(_) => true,
        }
    }

    /// Whether it asks to bound what its channel sends.
    #[inline]
    pub fn is_bound(&self) -> bool
        ensures { result ≡ is_bound self.now.ask }
    {
        match &self.ask {
            Ask::Message(_) | Ask::Offer(_) | Ask::Permit(_) => false,
            Ask::End(_) => true,
        }
    }
}

impl Drop for WaitQueue {
    fn drop(self) {
        let WaitQueue {
            calls: _,
            last: _,
            notified: _,
            noted: _,
        } = self;
    }
}

impl Model for WaitQueue {
    ghost use Rattle.lc_lines.specs.Queue.{QueueState};

    ghost Value = { QueueState };

    ghost view = { λ queue. record { calls = queue.calls.items; last = queue.last; notified = queue.notified; noted = queue.noted } };
}

// The place of the first call of a ticket, or how many calls there are.
fn place_of(calls: &VecDeque<Call>, ticket: u64) -> usize
    ensures { result ≡ place_of ticket calls.now.items }
{
    for at in 0..calls.len() {
        if calls[at].ticket == ticket {
            return at;
        }
    }
    calls.len()
}

impl WaitQueue {
    /// A wait queue without calls, of a channel that has taken no turn.
    pub fn new(alloc: Global) -> WaitQueue
        ensures { result ≡ empty_queue }
    {
        WaitQueue {
            calls: VecDeque::new(alloc),
            last: 0,
            notified: false,
            noted: 0,
        }
    }

    /// When the channel took its last turn, counted in the turns of all channels; 0 where it has taken none.
    #[inline]
    pub fn last(&self) -> u64
        ensures { result ≡ self.now.last }
    {
        self.last
    }

    /// How many calls wait.
    #[inline]
    pub fn len(&self) -> usize
        ensures { result ≡ length self.now.calls }
    {
        self.calls.len()
    }

    /// The first call.
    #[inline]
    pub fn front(&self) -> Option<&Call>
        ensures { option_copied result ≡ slice_get self.now.calls 0 }
    {
        self.calls.front()
    }

    /// Adds a call behind all others. Where memory is refused nothing changes.
    #[inline]
    pub fn push(&mut self, call: Call) -> Result<(), Call>
        ensures after { self.new ≡ (if is_ok result then record self.old { calls = self.old.calls ++ call ∷ [] } else self.old) }
    {
        match self.calls.push_back(call) {
            Ok(()) => Ok(()),
            Err(failed) => Err(failed.value),
        }
    }

    /// Removes the first call: the next one was not notified.
    #[inline]
    pub fn pop(&mut self) -> Option<Call>
        ensures call { result ≡ slice_get self.old.calls 0 }
        ensures after { self.new ≡ without_first self.old }
    {
        self.notified = false;
        self.calls.pop_front()
    }

    /// Gives up all calls.
    pub fn clear(&mut self)
        ensures { self.new ≡ without_calls self.old }
    {
        self.notified = false;
        self.calls.clear();
    }

    /// The first call, unless it was notified and has not come since.
    #[inline]
    pub fn first_waiting(&self) -> Option<&Call>
        ensures { option_copied result ≡ first_waiting self.now }
    {
        if self.notified {
            None
        } else {
            self.calls.front()
        }
    }

    /// Notes whether the first call was notified and has not come since, where so many frames have left the outbound
    /// queue.
    #[inline]
    pub fn note_notified(&mut self, notified: bool, left: u64)
        ensures { self.new ≡ record self.old { notified = notified; noted = left } }
    {
        self.notified = notified;
        self.noted = left;
    }

    /// Whether the first call was notified and has not come since, and that was noted where so many frames had left the
    /// outbound queue.
    #[inline]
    pub fn is_fresh(&self, left: u64) -> bool
        ensures { result ≡ (self.now.notified && self.now.noted == left) }
    {
        self.notified && self.noted == left
    }

    /// Notes when the channel took a turn.
    #[inline]
    pub fn note_sent(&mut self, at: u64)
        ensures { self.new ≡ record self.old { last = at } }
    {
        self.last = at;
    }

    /// Removes the first call of a ticket. The answer is whether one waited.
    pub fn remove(&mut self, ticket: u64) -> bool
        ensures waited { result ≡ waits ticket self.old.calls }
        ensures after { self.new ≡ without_ticket ticket self.old }
    {
        let at = place_of(&self.calls, ticket);
        let waits = at < self.calls.len();
        if at == 0 {
            self.notified = false;
        }
        if waits {
            let _ = self.calls.remove(at);
        }
        waits
    }
}
