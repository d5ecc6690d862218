//! The receiving side of a shared inbox.
ghost use Rattle.std.specs.Prelude.{◌≡◌, ◌+◌, [], ◌∷◌, ◌++◌, length, take, IfOk, OnOk, IfErr, IfSome, false, None, Some};
ghost use Rattle.lc_frame.specs.Channel.{channel_count, number_of};
ghost use Rattle.lc_frame.specs.Frame.{lane_of, channel_of};
ghost use Rattle.lc_frame.specs.declared.frame.Frame.TheVariants.{Issue, Plead, LimitReceiving};
ghost use Rattle.lc_peer.specs.Inbox.{IsTake};
ghost use Rattle.lc_inbox.specs.declared.history.Entry.TheVariants.{Put, Took};
ghost use Rattle.lc_inbox.specs.History.{IsLeftBy, Loan, book_after};
ghost use Rattle.lc_inbox.specs.Lends.{first_taken, IsLentBy};
ghost use Rattle.lc_inbox.specs.Sides.{IsIdle, side_of, IsSameSide, HadOneTurn, IsPutBy, IsNotPutBy, IsTakeAnswer, IsNotTaken, HasLooked};

use crate::half::{Half, Turn};
use crate::inbox_end::InboxEnd;
use crate::lent::Lent;
use lc_book::{Refusal, ServerBook};
use lc_frame::{Channel, Frame};
use lc_peer::Take;
use std::alloc::Global;
use std::marker::{Brand, Model};
use std::snapshot::Snapshot;
use std::sync::{Arc, Mutex, Wait};

/// A shared inbox, as the channel's receiving end has it.
///
/// That 13 comes only where the book has no refusal, clauses say; that it comes only from a full
/// queue none does, as of [`LaneEnd::push`](lc_queue::LaneEnd::push).
#[derive(Drop)]
pub struct InboxOut {
    pub(crate) channel: Channel,
    pub(crate) turns: Arc<Mutex<()>, Global>,
    pub(crate) half: Half,
}

impl Model for InboxOut {
    ghost use Rattle.std.specs.Prelude.{◌≡◌, false};
    ghost use Rattle.lc_inbox.specs.Sides.{InboxSide, IsIdle, side_of};

    ghost Value = { InboxSide };

    ghost view = { λ i. side_of i.half };

    ghost invariant = { λ i. IsIdle false i.half × (i.half.key.channel ≡ i.channel) };
}

// Gives the inbox back, where the frame was put.
fn give_put(half: &mut Half, turn: Turn<'_>, frame: &Snapshot<Frame>)
    requires side { half.old.side ≡ false }
    requires fits { (loan : Loan) × (half.old.lent ≡ Some loan) × IsLeftBy half.old.key loan.held (loan.history ++ Put frame.now.value ∷ []) }
    ensures { IfSome half.old.lent (λ loan. half.new ≡ record half.old { seen = loan.history ++ Put frame.now.value ∷ []; lent = None }) }
{
    half.give::<Brand, Snapshot<Frame>>(turn, frame);
}

// Gives the inbox back, out of which the first message was taken, if there was one.
fn give_first(half: &mut Half, turn: Turn<'_>, before: &Snapshot<InboxEnd>)
    requires side { half.old.side ≡ false }
    requires fits { (loan : Loan) × (half.old.lent ≡ Some loan) × IsLeftBy half.old.key loan.held (loan.history ++ first_taken before.now.value) }
    ensures { IfSome half.old.lent (λ loan. half.new ≡ record half.old { seen = loan.history ++ first_taken before.now.value; lent = None }) }
{
    half.give::<Brand, Snapshot<InboxEnd>>(turn, before);
}

// Puts a frame of the server.
fn put<R: Wait>(half: &mut Half, turns: &Mutex<()>, rt: &R, frame: Frame) -> Result<(), Refusal>
    requires idle { IsIdle false half.old }
    requires lane { (lane_of frame ≡ channel_count + number_of half.old.key.channel) × (channel_of frame ≡ half.old.key.channel) }
    ensures idle { IsIdle false half.new }
    ensures same { IsSameSide (side_of half.old) (side_of half.new) }
    ensures turn { HadOneTurn (side_of half.old) (side_of half.new) }
    ensures ok { OnOk result (IsPutBy frame (side_of half.old) (side_of half.new)) }
    ensures err { IfErr result (λ e. IsNotPutBy e frame (side_of half.old) (side_of half.new)) }
{
    let told = Snapshot::of(&frame);
    let turn = half.take(rt, turns);
    match half.inbox().put(rt, frame) {
        Ok(()) => {
            give_put(half, turn, &told);
            Ok(())
        }
        Err(refusal) => {
            half.give_same(turn);
            Err(refusal)
        }
    }
}

// Takes the first message into the buffer.
fn take_into<R: Wait>(
    half: &mut Half,
    turns: &Mutex<()>,
    rt: &R,
    buffer: &mut [u8],
) -> Result<Take, Refusal>
    requires idle { IsIdle false half.old }
    ensures idle { IsIdle false half.new }
    ensures same { IsSameSide (side_of half.old) (side_of half.new) }
    ensures turn { HadOneTurn (side_of half.old) (side_of half.new) }
    ensures ok { IfOk result (λ take. IsTakeAnswer take buffer.old buffer.new (side_of half.old) (side_of half.new)) }
    ensures range { IfOk result (λ take. IsTake take) }
    ensures err { IfErr result (λ e. IsNotTaken e buffer.old buffer.new (side_of half.old) (side_of half.new)) }
{
    let turn = half.take(rt, turns);
    let end = half.inbox();
    let before = Snapshot::of(end);
    match end.take_into(buffer) {
        Ok(take) => {
            give_first(half, turn, &before);
            Ok(take)
        }
        Err(refusal) => {
            half.give_same(turn);
            Err(refusal)
        }
    }
}

// Lends the first message, and takes it.
fn take_with<R: Wait, T, F: FnOnce(&[u8], &[u8]) -> T>(
    half: &mut Half,
    turns: &Mutex<()>,
    rt: &R,
    read: F,
) -> Lent<T>
    requires idle { IsIdle false half.old }
    requires callable { F.IsAlwaysCallable read }
    ensures idle { IsIdle false half.new }
    ensures same { IsSameSide (side_of half.old) (side_of half.new) }
    ensures turn { HadOneTurn (side_of half.old) (side_of half.new) }
    ensures answer { IsLentBy F.FnOnce read result (side_of half.old) (side_of half.new) }
{
    let turn = half.take(rt, turns);
    let end = half.inbox();
    let before = Snapshot::of(end);
    let lent = end.take_with(read);
    give_first(half, turn, &before);
    lent
}

// Reads the book.
fn book<R: Wait>(half: &mut Half, turns: &Mutex<()>, rt: &R) -> ServerBook
    requires idle { IsIdle false half.old }
    ensures idle { IsIdle false half.new }
    ensures same { IsSameSide (side_of half.old) (side_of half.new) }
    ensures turn { HadOneTurn (side_of half.old) (side_of half.new) }
    ensures looks { HasLooked (side_of half.old) (side_of half.new) }
    ensures book { result ≡ book_after half.new.key half.new.seen }
{
    let turn = half.take(rt, turns);
    let book = half.inbox().book();
    half.give_same(turn);
    book
}

impl InboxOut {
    /// The channel.
    pub fn channel(&self) -> Channel
        ensures { result ≡ self.now.key.channel }
    {
        self.channel
    }

    /// `n` guarantees are issued. Refused by 15, 5, 9, 10 and 12, each exactly where the book has it
    /// that the whole history up to here leaves, and by 13 where the queue gave the frame back.
    pub fn issue<R: Wait>(&mut self, rt: &R, n: u32) -> Result<(), Refusal>
        ensures ok { OnOk result (IsPutBy (Issue self.old.key.channel n) self.old self.new) }
        ensures err { IfErr result (λ e. IsNotPutBy e (Issue self.old.key.channel n) self.old self.new) }
        ensures turn { HadOneTurn self.old self.new }
        ensures same { IsSameSide self.old self.new }
    {
        let channel = self.channel;
        let frame = Frame::Issue { channel, amount: n };
        put(&mut self.half, &self.turns, rt, frame)
    }

    /// The client is asked to absolve until it holds at most `target`. Refused by 15 and 11, by the
    /// same book, and by 13 where the queue gave the frame back.
    pub fn plead<R: Wait>(&mut self, rt: &R, target: u32) -> Result<(), Refusal>
        ensures ok { OnOk result (IsPutBy (Plead self.old.key.channel target) self.old self.new) }
        ensures err { IfErr result (λ e. IsNotPutBy e (Plead self.old.key.channel target) self.old self.new) }
        ensures turn { HadOneTurn self.old self.new }
        ensures same { IsSameSide self.old self.new }
    {
        let channel = self.channel;
        let frame = Frame::Plead { channel, target };
        put(&mut self.half, &self.turns, rt, frame)
    }

    /// At most `bound` guarantees are issued from here on. Refused by 15, 7 and 8, by the same book,
    /// and by 13 where the queue gave the frame back.
    pub fn limit<R: Wait>(&mut self, rt: &R, bound: u64) -> Result<(), Refusal>
        ensures ok { OnOk result (IsPutBy (LimitReceiving self.old.key.channel bound) self.old self.new) }
        ensures err { IfErr result (λ e. IsNotPutBy e (LimitReceiving self.old.key.channel bound) self.old self.new) }
        ensures turn { HadOneTurn self.old self.new }
        ensures same { IsSameSide self.old self.new }
    {
        let channel = self.channel;
        let frame = Frame::LimitReceiving { channel, bound };
        put(&mut self.half, &self.turns, rt, frame)
    }

    /// Takes the first message into the front of the buffer. Refused by 16 alone, where the buffer
    /// is shorter than the message.
    pub fn take_into<R: Wait>(&mut self, rt: &R, buffer: &mut [u8]) -> Result<Take, Refusal>
        ensures ok { IfOk result (λ take. IsTakeAnswer take buffer.old buffer.new self.old self.new) }
        ensures range { IfOk result (λ take. IsTake take) }
        ensures err { IfErr result (λ e. IsNotTaken e buffer.old buffer.new self.old self.new) }
        ensures turn { HadOneTurn self.old self.new }
        ensures same { IsSameSide self.old self.new }
    {
        take_into(&mut self.half, &self.turns, rt, buffer)
    }

    /// Lends the first message to `read`, in two parts, one after the other, and takes it: one step,
    /// and no copy. The reading side waits until `read` has returned.
    pub fn take_with<R: Wait, T, F: FnOnce(&[u8], &[u8]) -> T>(
        &mut self,
        rt: &R,
        read: F,
    ) -> Lent<T>
        requires { F.IsAlwaysCallable read }
        ensures answer { IsLentBy F.FnOnce read result self.old self.new }
        ensures turn { HadOneTurn self.old self.new }
        ensures same { IsSameSide self.old self.new }
    {
        take_with(&mut self.half, &self.turns, rt, read)
    }

    /// The book, as the whole history up to here leaves it.
    pub fn book<R: Wait>(&mut self, rt: &R) -> ServerBook
        ensures looks { HasLooked self.old self.new }
        ensures book { result ≡ book_after self.new.key self.new.seen }
        ensures turn { HadOneTurn self.old self.new }
        ensures same { IsSameSide self.old self.new }
    {
        book(&mut self.half, &self.turns, rt)
    }
}
