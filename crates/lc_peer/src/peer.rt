//! One side of a session.
//!
//! A `Peer` has for each channel a `ChannelState`, the client's book and an `Inbox`, and one list
//! of the frames that wait to go out, whose places are taken when the peer is made. An own call
//! asks its channel's books, then looks for a place, and then counts the frame and puts it, so
//! that what refuses comes before what changes. An arrival is judged and kept by its channel
//! alone (`channel_state.rt`). An `Inbox` is the server's book with the ring: where the book
//! allows a message, the ring has room for it, since outstanding and buffered bytes fit the
//! capacity. In a session in threads each inbox is shared by itself (`lc_inbox`).
ghost use Rattle.std.specs.Prelude.{◌≡◌, ◌≤◌, ◌<◌, ◌↔◌, ◌-◌, ◌++◌, [], ◌∷◌, length, if◌then◌else◌, is_ok, nat_lt, IfOk, OnOk, IfErr, IsSome, IfSome, slice_get, slice_index, Some, None};
ghost use Rattle.circular_buffer.specs.Buffer.{buffer};
ghost use Rattle.lc_book.specs.declared.fault.Refusal.TheVariants.{QueueFull};
ghost use Rattle.std.specs.Option.{option_map};
ghost use Rattle.std.specs.Result.{result_err};
ghost use Rattle.lc_frame.specs.Bounds.{max_slots};
ghost use Rattle.lc_frame.specs.Channel.{number_of};
ghost use Rattle.lc_frame.specs.declared.frame.Frame.TheVariants.{Send, Issue, Absolve, Plead, LimitSending, LimitReceiving, Finish};
ghost use Rattle.lc_frame.specs.FrameRef.{frame_of};
ghost use Rattle.lc_frame.specs.declared.version.Version.TheVariants.{Two};
ghost use Rattle.lc_frame.specs.Frame.{channel_of, IsValid};
ghost use Rattle.lc_book.specs.Client.{IsClient, spend_refusal};
ghost use Rattle.lc_ring.specs.Ring.{front, with_front};
ghost use Rattle.lc_peer.specs.Inbox.{IsInbox, IsTake, take_answer, take_refusal, NamesLength};
ghost use Rattle.lc_peer.specs.Peer.{channel as at, set_channel, client, inbox, server, AreWaiting};
ghost use Rattle.lc_peer.specs.Calls.{refusal, refusal_by_books, queue_refusal, IsSendAnswer, put, due, due as due_on, honour_refusal, put_honour, channel_after_honour, take_on, TakesOn, next, without_next};
ghost use Rattle.lc_peer.specs.Arrivals.{arrivals};
ghost use Rattle.lc_peer.specs.Config.{IsNewAnswer, new_peer};

use crate::channel_state::{ChannelState, new_channels};
use crate::config::{Config, PeerFault};
use crate::inbox::Take;
use circular_buffer::HeapCircularBuffer;
use lc_book::{ClientBook, Refusal, ServerBook, Violation};
use lc_frame::{Body, CHANNELS, Channel, Frame, FrameRef, Version};
use std::alloc::Global;
use std::fmt;
use std::fmt::{Debug, Formatter};
use std::marker::Model;

/// One side of a session as one value.
pub struct Peer {
    alloc: Global,
    version: Version,
    channels: [ChannelState; CHANNELS],
    waiting: HeapCircularBuffer<Frame>,
    capacities: [u32; CHANNELS],
}

// One call, wherever a peer is dropped.
impl Drop for Peer {
    fn drop(self) {
        let Peer {
            alloc: _,
            version: _,
            channels: _,
            waiting: _,
            capacities: _,
        } = self;
    }
}

impl Model for Peer {
    ghost use Rattle.std.specs.Prelude.{◌≡◌, length};
    ghost use Rattle.lc_peer.specs.Peer.{PeerState, AreWaiting};
    ghost use Rattle.lc_peer.specs.PeerFields.{ArePeerFields};

    ghost Value = { PeerState };

    ghost view = { λ peer. record { version = peer.version; channels = peer.channels; waiting = peer.waiting.items; slots = peer.waiting.capacity; capacities = peer.capacities } };

    ghost invariant = { λ peer. ArePeerFields peer.version peer.channels peer.waiting peer.capacities };
}

// Whether one frame more may wait.
#[inline]
fn judge_slot(waiting: &HeapCircularBuffer<Frame>) -> Result<(), Refusal>
    ensures { result_err result ≡ (if nat_lt (length waiting.now.items) waiting.now.capacity then None else Some QueueFull) }
{
    if waiting.len() < waiting.capacity() {
        Ok(())
    } else {
        Err(Refusal::QueueFull)
    }
}

// Puts a frame last, where one more may wait.
#[inline]
fn push(waiting: &mut HeapCircularBuffer<Frame>, frame: Frame)
    requires { length waiting.old.items < waiting.old.capacity }
    ensures { waiting.new ≡ buffer (waiting.old.items ++ frame ∷ []) waiting.old.capacity }
{
    match waiting.try_push_back(frame) {
        Ok(()) => {}
        Err(_) => unreachable!(),
    }
}

// Judges the length of a message.
#[inline]
pub(crate) fn judge_spend(book: &ClientBook, len: usize) -> Result<(), Refusal>
    ensures { result_err result ≡ spend_refusal book.now len }
{
    // A length of more than 32 bits is too long as well.
    book.judge_spend(u32::try_from(len).unwrap_or(u32::MAX))
}

impl Debug for Peer {
    fn fmt<W: fmt::Write>(&self, f: &mut Formatter<W>) -> fmt::Result {
        f.debug_struct("Peer").finish_non_exhaustive()
    }
}

impl Peer {
    /// A peer on which nothing has happened. Faults come in this order: the first channel whose
    /// ring would not have 1 to 2^24 bytes, slots outside 1 to 65,536, want of memory. The first two are found
    /// before any memory is asked for. No other call but `send` asks for any.
    pub fn new(alloc: Global, config: Config) -> Result<Peer, PeerFault>
        ensures answer { IsNewAnswer config (result_err result) }
        ensures value { IfOk result (λ peer. peer ≡ new_peer config) }
    {
        config.judge()?;
        let Ok(channels) = new_channels(alloc, config.version, config.capacities) else {
            return Err(PeerFault::OutOfMemory);
        };
        let Ok(waiting) = HeapCircularBuffer::with_capacity(alloc, config.slots as usize) else {
            return Err(PeerFault::OutOfMemory);
        };
        Ok(Peer {
            alloc,
            version: config.version,
            channels,
            waiting,
            capacities: config.capacities,
        })
    }

    /// The version of the stream that the peer writes.
    #[inline]
    pub fn version(&self) -> Version
        ensures { result ≡ self.now.version }
    {
        self.version
    }

    /// A message is sent, of 1 to `Version::max_body` bytes.
    /// Refused by 15, 1, 2, 3 and 4, by 14 where the copy of the body gets no memory, and by 13, in
    /// this order: memory is asked for before a place is looked for, and filled after that.
    pub fn send(&mut self, channel: Channel, body: &[u8]) -> Result<(), Refusal>
        ensures answer { IsSendAnswer self.old (Send channel body.now) (result_err result) }
        ensures after { self.new ≡ (if is_ok result then put self.old (Send channel body.now) else self.old) }
    {
        judge_spend(self.client_book(channel), body.len())?;
        let Ok(room) = Vec::with_capacity(self.alloc, body.len()) else {
            return Err(Refusal::OutOfMemory);
        };
        self.judge_slot()?;
        let body = Body::copied(room, body);
        self.send_owned(channel, body);
        Ok(())
    }

    /// Moves a message into the outbound queue: its book allows it, and one more frame may wait.
    /// Nothing is copied, and no memory is asked for.
    #[inline(always)]
    pub fn send_owned(&mut self, channel: Channel, body: Body)
        requires valid { IsValid self.old.version (Send channel body) }
        requires accepted { spend_refusal (client self.old channel) (length body) ≡ None }
        requires room { queue_refusal self.old ≡ None }
        ensures { self.new ≡ put self.old (Send channel body) }
    {
        self.place(Frame::Send { channel, body });
    }

    /// `n` guarantees are given up. Refused by 15, 5, 6 and 13, in this order.
    pub fn absolve(&mut self, channel: Channel, n: u32) -> Result<(), Refusal>
        ensures answer { result_err result ≡ refusal self.old (Absolve channel n) }
        ensures after { self.new ≡ (if is_ok result then put self.old (Absolve channel n) else self.old) }
    {
        self.client_book(channel).judge_absolve(n)?;
        self.put(Frame::Absolve { channel, amount: n })
    }

    /// The plead that is kept is honoured. Refused by 15, and by 13 where something would be absolved.
    pub fn honour(&mut self, channel: Channel) -> Result<Option<u32>, Refusal>
        ensures answer { result_err result ≡ honour_refusal self.old channel }
        ensures amount { IfOk result (λ amount. amount ≡ due self.old channel) }
        ensures after { self.new ≡ (if is_ok result then put_honour self.old channel else self.old) }
    {
        let due = self.client_book(channel).judge_honour()?;
        if let Some(amount) = due {
            self.enqueue(Frame::Absolve { channel, amount })?;
        }
        self.note_honoured(channel, due);
        Ok(due)
    }

    /// At most `bound` bytes are sent from here on; 0 ends the channel. Refused by 15, 7, 8 and 13,
    /// in this order.
    pub fn limit_sending(&mut self, channel: Channel, bound: u64) -> Result<(), Refusal>
        ensures answer { result_err result ≡ refusal self.old (LimitSending channel bound) }
        ensures after { self.new ≡ (if is_ok result then put self.old (LimitSending channel bound) else self.old) }
    {
        self.client_book(channel).judge_limit_sending(bound)?;
        self.put(Frame::LimitSending { channel, bound })
    }

    /// The client sends nothing more on the channel, and gives up all guarantees that it holds or
    /// that still come. Refused by 17, 15 and 13, in this order.
    pub fn finish(&mut self, channel: Channel) -> Result<(), Refusal>
        ensures answer { result_err result ≡ refusal self.old (Finish channel) }
        ensures after { self.new ≡ (if is_ok result then put self.old (Finish channel) else self.old) }
    {
        self.client_book(channel).judge_finish()?;
        self.put(Frame::Finish { channel })
    }

    /// `n` guarantees are issued. Refused by 15, 5, 9, 10, 12 and 13, in this order.
    pub fn issue(&mut self, channel: Channel, n: u32) -> Result<(), Refusal>
        ensures answer { result_err result ≡ refusal self.old (Issue channel n) }
        ensures after { self.new ≡ (if is_ok result then put self.old (Issue channel n) else self.old) }
    {
        self.server_book(channel).judge_issue(n)?;
        self.put(Frame::Issue { channel, amount: n })
    }

    /// The client is asked to absolve until it holds at most `target`. Refused by 15, 11 and 13, in
    /// this order.
    pub fn plead(&mut self, channel: Channel, target: u32) -> Result<(), Refusal>
        ensures answer { result_err result ≡ refusal self.old (Plead channel target) }
        ensures after { self.new ≡ (if is_ok result then put self.old (Plead channel target) else self.old) }
    {
        self.server_book(channel).plead(target)?;
        self.put(Frame::Plead { channel, target })
    }

    /// At most `bound` guarantees are issued from here on. Refused by 15, 7, 8 and 13, in this order.
    pub fn limit_receiving(&mut self, channel: Channel, bound: u64) -> Result<(), Refusal>
        ensures answer { result_err result ≡ refusal self.old (LimitReceiving channel bound) }
        ensures after { self.new ≡ (if is_ok result then put self.old (LimitReceiving channel bound) else self.old) }
    {
        self.server_book(channel).judge_limit_receiving(bound)?;
        self.put(Frame::LimitReceiving { channel, bound })
    }

    // Puts a frame that its channel's books accept, where it may wait. Always inlined, since each caller
    // knows the frame's kind.
    #[inline(always)]
    fn put(&mut self, frame: Frame) -> Result<(), Refusal>
        requires valid { IsValid self.old.version frame }
        requires accepted { refusal_by_books self.old frame ≡ None }
        ensures answer { result_err result ≡ queue_refusal self.old }
        ensures after { self.new ≡ (if is_ok result then put self.old frame else self.old) }
    {
        self.judge_slot()?;
        self.place(frame);
        Ok(())
    }

    // Counts and puts a frame that its channel's books accept, where one more may wait.
    #[inline(always)]
    fn place(&mut self, frame: Frame)
        requires valid { IsValid self.old.version frame }
        requires accepted { refusal_by_books self.old frame ≡ None }
        requires room { queue_refusal self.old ≡ None }
        ensures { self.new ≡ put self.old frame }
    {
        let at = frame.channel().index();
        self.channels[at].put(frame.view());
        push(&mut self.waiting, frame);
    }

    // Puts a frame last, where it may wait.
    #[inline]
    fn enqueue(&mut self, frame: Frame) -> Result<(), Refusal>
        requires { IsValid self.old.version frame }
        ensures answer { result_err result ≡ queue_refusal self.old }
        ensures after { self.new ≡ (if is_ok result then record self.old { waiting = self.old.waiting ++ frame ∷ [] } else self.old) }
    {
        self.judge_slot()?;
        push(&mut self.waiting, frame);
        Ok(())
    }

    // The book of a channel as client honours the plead that is kept, by the amount that is due.
    #[inline]
    fn note_honoured(&mut self, channel: Channel, due: Option<u32>)
        requires { due ≡ due_on self.old channel }
        ensures { self.new ≡ set_channel self.old channel (channel_after_honour (at self.old channel)) }
    {
        let at = channel.index();
        self.channels[at].client.note_honoured(due);
    }

    /// A frame arrives, which has to be valid.
    #[inline(always)]
    pub fn arrive(&mut self, frame: FrameRef<'_>) -> Result<(), Violation>
        requires { IsValid Two (frame_of frame) }
        ensures answer { result_err result ≡ (arrivals self.old (frame_of frame.entry ∷ [])).violation }
        ensures after { self.new ≡ (arrivals self.old (frame_of frame.entry ∷ [])).peer }
        ensures rings { self.new.capacities ≡ self.old.capacities }
    {
        let at = frame.channel().index();
        self.channels[at].arrive(frame)
    }

    /// Takes the first message into the front of the buffer.
    #[inline]
    pub fn take_into(&mut self, channel: Channel, buffer: &mut [u8]) -> Result<Take, Refusal>
        ensures answer { result_err result ≡ take_refusal (inbox self.old channel) (length buffer.old) }
        ensures range { IfOk result (λ take. IsTake take) }
        ensures value { IfOk result (λ take. take ≡ take_answer (inbox self.old channel)) }
        ensures after { self.new ≡ (if is_ok result then take_on self.old channel else self.old) }
        ensures takes { IfOk result (λ take. TakesOn channel take self.old self.new) }
        ensures need { IfErr result NamesLength }
        ensures buffer { buffer.new ≡ (if is_ok result then with_front (front (inbox self.old channel).ring) buffer.old else buffer.old) }
    {
        let at = channel.index();
        self.channels[at].inbox.take_into(buffer)
    }

    /// The first message that waits on the channel.
    #[inline]
    pub fn front(&self, channel: Channel) -> Option<(&[u8], &[u8])>
        ensures whole { option_map (λ parts. parts.0.now ++ parts.1.now) result ≡ front (inbox self.now channel).ring }
        ensures first { IfSome result (λ parts. 0 < length parts.0.now) }
    {
        self.channels[channel.index()].inbox.front()
    }

    /// Takes the first message and drops it.
    #[inline]
    pub fn pop(&mut self, channel: Channel) -> Take
        ensures range { IsTake result }
        ensures answer { result ≡ take_answer (inbox self.old channel) }
        ensures after { self.new ≡ take_on self.old channel }
        ensures takes { TakesOn channel result self.old self.new }
    {
        let at = channel.index();
        self.channels[at].inbox.pop()
    }

    /// The next frame to go out.
    #[inline]
    pub fn next_out(&mut self) -> Option<Frame>
        ensures value { result ≡ next self.old }
        ensures after { self.new ≡ without_next self.old }
        ensures valid { IfSome result (IsValid self.old.version) }
    {
        self.waiting.pop_front()
    }

    /// 13 where no frame more may wait, as each own call would have it.
    #[inline]
    pub(crate) fn judge_slot(&self) -> Result<(), Refusal>
        ensures { result_err result ≡ queue_refusal self.now }
    {
        judge_slot(&self.waiting)
    }

    /// How many frames more may wait.
    #[inline]
    pub fn slots_left(&self) -> usize
        ensures { result ≡ self.now.slots - length self.now.waiting }
    {
        self.waiting.capacity() - self.waiting.len()
    }

    /// How many frames wait.
    #[inline]
    pub fn waiting(&self) -> usize
        ensures value { result ≡ length self.now.waiting }
        ensures slots { result ≤ self.now.slots }
        ensures small { result ≤ max_slots }
        ensures kept { AreWaiting self.now.version self.now.slots self.now.waiting }
    {
        self.waiting.len()
    }

    /// The frame at a place of those that wait.
    #[inline]
    pub fn waiting_frame(&self, place: usize) -> Option<FrameRef<'_>>
        ensures value { option_map frame_of result ≡ slice_get self.now.waiting place }
        ensures within { IsSome result ↔ (place < length self.now.waiting) }
        ensures valid { IfSome result (λ frame. IsValid self.now.version (frame_of frame)) }
    {
        match self.waiting.get(place) {
            Some(frame) => Some(frame.view()),
            None => None,
        }
    }

    /// How many bytes the receiving ring of a channel has.
    #[inline]
    pub fn capacity(&self, channel: Channel) -> u32
        ensures value { result ≡ slice_index self.now.capacities (number_of channel) }
        ensures ring { result ≡ (server self.now channel).capacity }
    {
        self.capacities[channel.index()]
    }

    /// The book of a channel as client.
    #[inline]
    pub fn client(&self, channel: Channel) -> ClientBook
        ensures value { result ≡ client self.now channel }
        ensures version { result.version ≡ self.now.version }
        ensures kept { IsClient result }
    {
        *self.client_book(channel)
    }

    // The same, where it lies.
    #[inline]
    pub(crate) fn client_book(&self, channel: Channel) -> &ClientBook
        ensures value { result.now ≡ client self.now channel }
        ensures version { result.now.version ≡ self.now.version }
        ensures kept { IsClient result.now }
    {
        let book = &self.channels[channel.index()].client;
        // A reader tells what every book keeps.
        let _held = book.held();
        book
    }

    /// The book of a channel as server.
    #[inline]
    pub fn server(&self, channel: Channel) -> ServerBook
        ensures value { result ≡ server self.now channel }
        ensures kept { IsInbox (inbox self.now channel) }
    {
        *self.server_book(channel)
    }

    // The same, where it lies.
    #[inline]
    pub(crate) fn server_book(&self, channel: Channel) -> &ServerBook
        ensures value { result.now ≡ server self.now channel }
        ensures kept { IsInbox (inbox self.now channel) }
    {
        self.channels[channel.index()].inbox.book_in_place()
    }
}
