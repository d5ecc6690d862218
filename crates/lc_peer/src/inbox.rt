//! The receiving end of one channel.
ghost use Rattle.std.specs.Prelude.{◌≡◌, ◌<◌, ◌≤◌, ◌↔◌, ◌++◌, length, if◌then◌else◌, is_ok, Err, None, IfOk, IfErr, IfSome};
ghost use Rattle.std.specs.Option.{option_map};
ghost use Rattle.std.specs.Result.{result_err};
ghost use Rattle.lc_frame.specs.Bounds.{IsCapacity};
ghost use Rattle.lc_frame.specs.declared.version.Version.TheVariants.{Two};
ghost use Rattle.lc_frame.specs.Kind.{max_body, max_amount, max_total};
ghost use Rattle.lc_book.specs.Server.{buffered, AreFreed, issue_refusal, issue, limit_receiving_refusal, limit_server, message_violation, add_arrived, absolve_violation, add_absolved, send_limit_violation, note_send_limit, finish_violation, note_finish};
ghost use Rattle.lc_ring.specs.Ring.{IsLength, push, front, with_front};
ghost use Rattle.lc_peer.specs.Inbox.{new_inbox, IsInbox, IsTake, answer_by_length, note_front, take_answer, take_first, take_refusal, NamesLength, Takes};

use lc_book::{Refusal, ServerBook, Violation};
use lc_frame::BufferTooSmall;
use lc_ring::{NewFault, RecvRing};
use std::alloc::Global;
use std::marker::Model;

/// What a take answers.
#[derive(Clone, Copy, Debug, PartialEq, Eq)]
pub enum Take {
    /// The first message was taken; its length in bytes.
    Took(usize),
    /// No message waits.
    Empty,
    /// No message waits, and none will come: the client's limit on sending is used up, or it finished.
    Ended,
}

/// A server's book with the ring that holds what is buffered. Contracts see both.
#[derive(Debug, Drop)]
pub struct Inbox {
    book: ServerBook,
    ring: RecvRing,
}

impl Model for Inbox {
    ghost use Rattle.lc_peer.specs.Inbox.{InboxState, IsRingOf};

    ghost Value = { InboxState };

    ghost view = { λ inbox. record { book = inbox.book; ring = inbox.ring } };

    ghost invariant = { λ inbox. IsRingOf inbox.book inbox.ring };
}

// Counts the first message, of this length, as taken; without one it says why.
fn note(book: &mut ServerBook, len: Option<usize>) -> Take
    requires { IfSome len (λ n. IsLength n × (n ≤ buffered book.old)) }
    ensures range { IsTake result }
    ensures answer { result ≡ answer_by_length book.old len }
    ensures after { book.new ≡ note_front book.old len }
    ensures freed { IfSome len (λ n. AreFreed n book.old book.new) }
{
    match len {
        Some(len) => {
            book.note_taken(len as u32);
            Take::Took(len)
        }
        None => match (book.is_finished(), book.send_left()) {
            (true, _) | (_, Some(0)) => Take::Ended,
            _ => Take::Empty,
        },
    }
}

impl Inbox {
    /// The inbox of a channel on which nothing has happened, over a ring of so many bytes.
    /// `BadCapacity` exactly where that is not 1 to 2^24, which is found before any memory is
    /// asked for. No other call asks for any.
    pub fn new(alloc: Global, capacity: u32) -> Result<Inbox, NewFault>
        ensures capacity { (result ≡ Err NewFault.BadCapacity) ↔ ¬ IsCapacity capacity }
        ensures value { IfOk result (λ inbox. inbox ≡ new_inbox capacity) }
    {
        let ring = RecvRing::new(alloc, capacity)?;
        match ServerBook::new(capacity) {
            Some(book) => Ok(Inbox { book, ring }),
            None => Err(NewFault::BadCapacity),
        }
    }

    /// The book: all that the channel's server counts.
    #[inline]
    pub fn book(&self) -> ServerBook
        ensures value { result ≡ self.now.book }
        ensures kept { IsInbox self.now }
    {
        *self.book_in_place()
    }

    // The book, where it lies.
    #[inline]
    pub(crate) fn book_in_place(&self) -> &ServerBook
        ensures value { result.now ≡ self.now.book }
        ensures kept { IsInbox self.now }
    {
        // The readers tell what every book and every ring keeps.
        let (_room, _bytes) = (self.book.room(), self.ring.bytes());
        &self.book
    }

    // Guarantees are issued that the book doesn't refuse.
    #[inline]
    pub(crate) fn note_issued(&mut self, n: u32)
        requires { issue_refusal self.old.book n ≡ None }
        ensures { self.new ≡ record self.old { book = issue self.old.book n } }
    {
        self.book.note_issued(n);
    }

    // Receiving is limited, which the book doesn't refuse.
    #[inline]
    pub(crate) fn note_limit_receiving(&mut self, bound: u64)
        requires { limit_receiving_refusal self.old.book bound ≡ None }
        ensures { self.new ≡ record self.old { book = limit_server self.old.book bound } }
    {
        self.book.note_limit_receiving(bound);
    }

    /// Takes over a book that came from this inbox and was changed by calls of the server's own. An
    /// older copy with as many buffered bytes is taken over as well: what was counted since is lost.
    pub fn adopt(&mut self, book: ServerBook)
        requires capacity { book.capacity ≡ self.old.book.capacity }
        requires buffered { buffered book ≡ buffered self.old.book }
        ensures { self.new ≡ record self.old { book = book } }
    {
        self.book = book;
    }

    /// A message arrives, of 1 to `MAX_BODY` bytes. Violations V9, V1 and V2, in this order. The
    /// ring has room for every other.
    #[inline]
    pub fn message(&mut self, body: &[u8]) -> Result<(), Violation>
        requires at_least { 1 ≤ length body.now }
        requires at_most { length body.now ≤ max_body Two }
        ensures answer { result_err result ≡ message_violation self.old.book (length body.now) }
        ensures after { self.new ≡ (if is_ok result then record { book = add_arrived self.old.book (length body.now); ring = push self.old.ring body.now } else self.old) }
    {
        // What is outstanding fits what is free.
        let _room = self.book.room();
        self.book.message(body.len() as u32)?;
        match self.ring.push(body) {
            Ok(()) => Ok(()),
            Err(_) => unreachable!(),
        }
    }

    /// The news arrives that the client absolved `n` guarantees. Violations V9 and V3, in this order.
    #[inline]
    pub fn was_absolved(&mut self, n: u32) -> Result<(), Violation>
        requires { n ≤ max_amount }
        ensures answer { result_err result ≡ absolve_violation self.old.book n }
        ensures after { self.new ≡ (if is_ok result then record self.old { book = add_absolved self.old.book n } else self.old) }
    {
        self.book.was_absolved(n)
    }

    /// The client's limit arrives: it sends at most `bound` bytes from there on. Violations V9 and V4,
    /// in this order.
    #[inline]
    pub fn sending_limited(&mut self, bound: u64) -> Result<(), Violation>
        requires { bound ≤ max_total }
        ensures answer { result_err result ≡ send_limit_violation self.old.book bound }
        ensures after { self.new ≡ (if is_ok result then record self.old { book = note_send_limit self.old.book bound } else self.old) }
    {
        self.book.sending_limited(bound)
    }

    /// The client's Finish arrives: it sends nothing more, and what is outstanding is waived.
    /// Violation V9.
    #[inline]
    pub fn finished(&mut self) -> Result<(), Violation>
        ensures answer { result_err result ≡ finish_violation self.old.book }
        ensures after { self.new ≡ (if is_ok result then record self.old { book = note_finish self.old.book } else self.old) }
    {
        self.book.finished()
    }

    /// Takes the first message into the front of the buffer. Refused by 16 alone, where the buffer
    /// is shorter than the message; inbox and buffer are then as they were.
    #[inline]
    pub fn take_into(&mut self, buffer: &mut [u8]) -> Result<Take, Refusal>
        ensures answer { result_err result ≡ take_refusal self.old (length buffer.old) }
        ensures range { IfOk result (λ take. IsTake take) }
        ensures value { IfOk result (λ take. take ≡ take_answer self.old) }
        ensures after { self.new ≡ (if is_ok result then take_first self.old else self.old) }
        ensures takes { IfOk result (λ take. Takes take self.old self.new) }
        ensures need { IfErr result NamesLength }
        ensures buffer { buffer.new ≡ (if is_ok result then with_front (front self.old.ring) buffer.old else buffer.old) }
    {
        match self.ring.take_into(buffer) {
            Ok(len) => Ok(note(&mut self.book, len)),
            Err(BufferTooSmall { need }) => Err(Refusal::BufferTooSmall { need }),
        }
    }

    /// The first message, without a copy. It is the two slices, one after the other, cut where
    /// `RecvRing::front` cuts it. `None` where none waits.
    #[inline]
    pub fn front(&self) -> Option<(&[u8], &[u8])>
        ensures whole { option_map (λ parts. parts.0.now ++ parts.1.now) result ≡ front self.now.ring }
        ensures first { IfSome result (λ parts. 0 < length parts.0.now) }
    {
        self.ring.front()
    }

    /// Takes the first message and drops it; the answer is that of `take_into`.
    #[inline]
    pub fn pop(&mut self) -> Take
        ensures range { IsTake result }
        ensures answer { result ≡ take_answer self.old }
        ensures after { self.new ≡ take_first self.old }
        ensures takes { Takes result self.old self.new }
    {
        let len = self.ring.pop();
        note(&mut self.book, len)
    }
}
