//! The pump that writes.
ghost use Rattle.std.specs.Prelude.{◌≡◌, [], Some, IfSome, OnOk, OnErr, None};
ghost use Rattle.lc_queue.specs.Parts.{AllPopped, new_outlet};
ghost use Rattle.lc_session.specs.Batch.{new_batch};
ghost use Rattle.lc_session.specs.Pumping.{IsSamePump, Pops, Pumps, IsPumping, IsEnd, IsFault, CountsEnd, Writes, new_pumping, pumping_of};

use crate::batch::Batch;
use lc_driver::{CountedWrite, WriteFault, write_all};
use lc_queue::Drain;
use lc_wake::{Found, Look, PumpWaiter};
use std::marker::Model;
use std::sync::Wait;

/// Why a run of the writing pump ended.
#[must_use]
#[derive(Clone, Copy, Debug, PartialEq, Eq)]
pub enum WriteEnd {
    /// It was asked to stop, and found the queue empty after that.
    Stopped,
    /// A write or a flush failed.
    Failed,
    /// A write took nothing.
    Zero,
}

/// Writes the greeting, and then the frames of all lanes, several in one write where several are
/// queued. One thread has it.
pub struct WritePump {
    drain: Drain,
    batch: Batch,
    waiter: PumpWaiter,
}

// One call, wherever one is dropped.
impl Drop for WritePump {
    fn drop(self) {
        let WritePump {
            drain: _,
            batch: _,
            waiter: _,
        } = self;
    }
}

impl Model for WritePump {
    ghost use Rattle.std.specs.Prelude.{◌≡◌};
    ghost use Rattle.lc_session.specs.Pumping.{Pumping, IsPumping, pumping_of};

    ghost Value = { Pumping };

    ghost view = { λ p. pumping_of p.drain p.batch };

    ghost invariant = { λ p. IsPumping (pumping_of p.drain p.batch) × (p.batch.version ≡ p.drain.version) };
}

// Pops frames as long as any other one has room.
fn join_popped<R: Wait>(rt: &R, drain: &mut Drain, batch: &mut Batch, mut look: Look) -> Found
    requires { batch.old.version ≡ drain.old.version }
    ensures version { batch.new.version ≡ drain.new.version }
    ensures pops { Pops (pumping_of drain.old batch.old) (pumping_of drain.new batch.new) }
    ensures none { batch.new.begun ≡ [] → batch.new.waiting ≡ [] → AllPopped drain.new }
{
    // Where nothing is pending, any frame has room.
    let _free = batch.free();
    'frames: while batch.has_room() {
        match drain.pop(rt) {
            Some(frame) => {
                look.note_popped(frame.lane());
                batch.append(frame);
            }
            None => return look.found(),
        }
    }
    look.found()
}

// Writes what is pending. Why the run ends, if it does.
fn write_pending<W: CountedWrite>(writer: &mut W, batch: &mut Batch) -> Option<WriteEnd>
    ensures writes { Writes (W.contents writer.old) (W.contents writer.new) batch.old batch.new }
    ensures end { IfSome result IsFault }
    ensures counts { CountsEnd result (W.counts writer.old) (W.counts writer.new) }
{
    match write_all(writer, batch.bytes()) {
        Ok(_) => {
            batch.clear();
            None
        }
        Err(WriteFault::Failed { written }) => {
            batch.note_written(written as usize);
            Some(WriteEnd::Failed)
        }
        Err(WriteFault::Zero { written }) => {
            batch.note_written(written as usize);
            Some(WriteEnd::Zero)
        }
    }
}

impl WritePump {
    pub(crate) fn new(drain: Drain, batch: Batch, waiter: PumpWaiter) -> WritePump
        requires drain { drain ≡ new_outlet drain.queue drain.version }
        requires batch { batch ≡ new_batch drain.version }
        ensures { result ≡ new_pumping drain }
    {
        WritePump {
            drain,
            batch,
            waiter,
        }
    }

    // Looks at the queue: pops what has room, and wakes the ends that put it, if they wait for a place.
    fn join_popped<R: Wait>(&mut self, rt: &R) -> Found
        ensures pops { Pops self.old self.new }
        ensures none { self.new.begun ≡ [] → self.new.waiting ≡ [] → AllPopped self.new.drain }
    {
        let look = self.waiter.look();
        let found = join_popped(rt, &mut self.drain, &mut self.batch, look);
        if let Found::Frames(popped) = found {
            self.waiter.note_popped(popped);
        }
        found
    }

    // There is nothing to write: flushes, looks once more and sleeps until a frame is put or the pump
    // is asked to stop. Why the run ends, if it does.
    fn rest<R: Wait, W: CountedWrite>(&mut self, rt: &R, writer: &mut W) -> Option<WriteEnd>
        ensures pumps { Pumps (W.contents writer.old) (W.contents writer.new) self.old self.new }
        ensures end { IfSome result IsFault }
        ensures counts { CountsEnd result (W.counts writer.old) (W.counts writer.new) }
    {
        if !self.waiter.is_to_sleep() {
            return None;
        }
        if writer.flush_counted().is_err() {
            self.waiter.stay();
            return Some(WriteEnd::Failed);
        }
        match self.join_popped(rt) {
            Found::Nothing => self.waiter.sleep(rt),
            Found::Frames(_) | Found::Stop => self.waiter.stay(),
        }
        None
    }

    // Writes what is pending and what is queued, or rests. Why the run ends, if it does.
    fn turn<R: Wait, W: CountedWrite>(&mut self, rt: &R, writer: &mut W) -> Option<WriteEnd>
        ensures pumps { Pumps (W.contents writer.old) (W.contents writer.new) self.old self.new }
        ensures end { IfSome result (λ end. IsEnd end self.new) }
        ensures counts { CountsEnd result (W.counts writer.old) (W.counts writer.new) }
    {
        let found = self.join_popped(rt);
        if !self.batch.is_empty() {
            return write_pending(writer, &mut self.batch);
        }
        if found != Found::Stop {
            return self.rest(rt, writer);
        }
        match writer.flush_counted() {
            Ok(()) => Some(WriteEnd::Stopped),
            Err(_) => Some(WriteEnd::Failed),
        }
    }

    // Goes on until the run ends.
    fn pump<R: Wait, W: CountedWrite>(&mut self, rt: &R, writer: &mut W) -> WriteEnd
        ensures pumps { Pumps (W.contents writer.old) (W.contents writer.new) self.old self.new }
        ensures end { IsEnd result self.new }
        ensures counts { CountsEnd (Some result) (W.counts writer.old) (W.counts writer.new) }
    {
        'turns: for _ in rt.forever() {
            match self.turn(rt, writer) {
                Some(end) => return end,
                None => {}
            }
        }
        unreachable!()
    }

    /// Pops and writes until it is asked to stop, or a write or flush fails, or a write takes nothing.
    /// A further run goes on with the next byte; what was popped and not begun is written by that.
    ///
    /// It flushes before it sleeps and before it stops. It tries no failed write again. When the run
    /// ends all ends are woken, and waits for room in the queue are over.
    ///
    /// No clause says that it was asked to stop, that it flushed, or that several frames went out in
    /// one write; and that the queue was empty where it stopped they say of the lanes that have ended.
    pub fn run<R: Wait, W: CountedWrite>(&mut self, rt: &R, writer: &mut W) -> WriteEnd
        ensures pumps { Pumps (W.contents writer.old) (W.contents writer.new) self.old self.new }
        ensures end { IsEnd result self.new }
        ensures counts { CountsEnd (Some result) (W.counts writer.old) (W.counts writer.new) }
        ensures kept { IsPumping self.new }
        ensures same { IsSamePump self.old self.new }
    {
        self.waiter.begin_run();
        let end = self.pump(rt, writer);
        self.waiter.end_run();
        end
    }

    /// The drain and what is pending, when the session ends.
    pub(crate) fn into_parts(self) -> (Drain, Batch)
        ensures { self ≡ pumping_of result.0 result.1 }
    {
        let WritePump {
            drain,
            batch,
            waiter: _,
        } = self;
        (drain, batch)
    }
}
