//! One end whose thread is held in its wait while all ends are told of something: each other one wakes
//! before that is let go.
//!
//! Its thread is held by a clock, where it waits with a timeout. In a park without one nothing of a
//! caller's is called: there `scripts/threads` holds the thread, by `scripts/hold.c`, which lets it go
//! when a further thread is made.
use crate::tests::sides::{Ends, new_side};
use crate::tests::staged::{await_count, in_time};
use crate::tests::ticks::Ticks;
use crate::tests::{equal, ran};
use lc_book::Refusal;
use lc_driver::{Counted, ReadEnd};
use lc_frame::{CHANNELS, Channel, LANES, Lane};
use lc_session::{ReadPump, RecvEnd, SendEnd, Session, WriteEnd, WritePump};
use std::alloc::{AllocError, Global};
use std::io::{Read, Write};
use std::process::Abort;
use std::sync::Wait;
use std::sync::atomic::{AtomicU64, Ordering};
use std::thread::{Threads, join};
use std::time::{Clock, Duration};
use std::{io, thread};

/// All ends but one.
const OTHERS: u64 = 13;

/// How many ends wait, how many are awake again, and whether one that is held by its clock may go on.
#[derive(Drop)]
struct Watch {
    begun: AtomicU64,
    woken: AtomicU64,
    opened: AtomicU64,
}

impl Watch {
    fn new() -> Watch {
        Watch {
            begun: AtomicU64::new(0),
            woken: AtomicU64::new(0),
            opened: AtomicU64::new(0),
        }
    }

    // All ends wait, and have had time to fall asleep.
    fn await_sleep<R: Wait>(&self, rt: &R) {
        await_count(rt, &self.begun, OTHERS + 1);
        for _ in 0..1000 {
            thread::yield_now();
        }
    }

    // All have been told, and all others wake. Only then the one that is held may go on: threads are
    // made until it has woken too.
    fn open<R: Threads + Wait>(&self, rt: &R) {
        await_count(rt, &self.woken, OTHERS);
        self.opened.store(1, Ordering::SeqCst);
        for _ in rt.forever() {
            join(rt, || (), || ());
            if self.woken.load(Ordering::SeqCst) > OTHERS {
                return;
            }
        }
    }
}

/// A clock whose first reading lasts until all other ends are awake.
#[derive(Drop)]
struct Gate<'a, R> {
    rt: &'a R,
    ticks: Ticks<&'a R>,
    watch: &'a Watch,
}

impl<'a, R: Wait> Gate<'a, R> {
    fn new(rt: &'a R, watch: &'a Watch) -> Gate<'a, R> {
        Gate {
            rt,
            ticks: Ticks::new(rt),
            watch,
        }
    }
}

impl<R: Wait> Wait for Gate<'_, R> {}

impl<R: Wait> Clock for Gate<'_, R> {
    fn monotonic(&self) -> io::Result<Duration> {
        if self.ticks.readings() == 0 {
            self.watch.begun.fetch_add(1, Ordering::SeqCst);
            await_count(self.rt, &self.watch.opened, 1);
        }
        self.ticks.monotonic()
    }

    fn since_1970(&self) -> io::Result<Duration> {
        self.monotonic()
    }
}

/// Where one end is held.
#[derive(Clone, Copy)]
enum Hold {
    /// That of this lane, in its clock.
    Clock(usize),
    /// The first that comes out of its park, where `hold.c` is preloaded.
    Park,
}

impl Hold {
    fn is_by_clock(self, lane: Lane) -> bool {
        matches!(self, Hold::Clock(at) if at == lane.index())
    }
}

// An end waits, and then puts a frame if it can.
fn wait_to_send<R: Wait>(rt: &R, end: &mut SendEnd, hold: Hold, watch: &Watch) {
    if hold.is_by_clock(Lane::Client(end.channel())) {
        end.wait_timeout(&Gate::new(rt, watch), Duration::from_micros(1));
    } else {
        watch.begun.fetch_add(1, Ordering::SeqCst);
        end.wait(rt);
    }
    let _put = end.limit(rt, 9);
    watch.woken.fetch_add(1, Ordering::SeqCst);
}

fn wait_to_take<R: Wait>(rt: &R, end: &mut RecvEnd, hold: Hold, watch: &Watch) {
    if hold.is_by_clock(Lane::Server(end.channel())) {
        end.wait_timeout(&Gate::new(rt, watch), Duration::from_micros(1));
    } else {
        watch.begun.fetch_add(1, Ordering::SeqCst);
        end.wait(rt);
    }
    let _put = end.limit(rt, 9);
    watch.woken.fetch_add(1, Ordering::SeqCst);
}

fn wait_each_to_send<R>(rt: &R, ends: &mut [SendEnd; CHANNELS], hold: Hold, watch: &Watch)
where
    R: Threads + Wait + Sync,
{
    thread::for_each_mut(
        rt,
        ends,
        CHANNELS,
        &|_, end| wait_to_send(rt, end, hold, watch),
    );
}

fn wait_each_to_take<R>(rt: &R, ends: &mut [RecvEnd; CHANNELS], hold: Hold, watch: &Watch)
where
    R: Threads + Wait + Sync,
{
    thread::for_each_mut(
        rt,
        ends,
        CHANNELS,
        &|_, end| wait_to_take(rt, end, hold, watch),
    );
}

// Each end waits once, in a thread of its own.
fn wait_each<R: Threads + Wait + Sync>(rt: &R, ends: &mut Ends, hold: Hold, watch: &Watch) {
    let sending = &mut ends.sending;
    let receiving = &mut ends.receiving;
    join(
        rt,
        || wait_each_to_send(rt, sending, hold, watch),
        || wait_each_to_take(rt, receiving, hold, watch),
    );
}

// A frame for each end, first for that of this lane: an Issue for one that sends, a limit for one that
// receives.
fn frames(alloc: Global, first: usize) -> Result<Vec<u8>, AllocError> {
    let mut bytes = Vec::new(alloc);
    for step in 0..LANES {
        let lane = (first % LANES + step) % LANES;
        let channel = (lane % CHANNELS) as u8;
        if lane < 7 {
            bytes.extend_from_slice(&[0x20 | channel, 0, 0, 0, 1])?;
        } else {
            bytes.extend_from_slice(&[0x50 | channel, 0, 0, 0, 0, 0, 0, 0, 9])?;
        }
    }
    Ok(bytes)
}

/// A reader that gives its frames once all ends wait, and ends once all have woken.
#[derive(Drop)]
struct Telling<'a, R> {
    rt: &'a R,
    frames: &'a [u8],
    watch: &'a Watch,
}

impl<R: Threads + Wait> Read for Telling<'_, R> {
    fn read(&mut self, buf: &mut [u8]) -> io::Result<usize> {
        if self.frames.is_empty() {
            self.watch.open(self.rt);
        } else {
            self.watch.await_sleep(self.rt);
        }
        self.frames.read(buf)
    }
}

// The reading pump tells all ends of a frame.
fn read<R>(rt: &R, pump: &mut ReadPump, frames: &[u8], watch: &Watch)
where
    R: Threads + Wait + Abort,
{
    let mut reader = Counted::new(Telling { rt, frames, watch });
    let end = pump.run(rt, &mut reader, u64::MAX);
    equal(rt, "a reading pump", end, ReadEnd::Clean);
}

/// A writer that is written to first once all ends that want a slot were told of one: a look has popped all that
/// they had put. The session is stopped when what they put then is written.
#[derive(Drop)]
struct Resting<'a, R> {
    rt: &'a R,
    session: &'a Session,
    watch: &'a Watch,
    writes: u64,
}

impl<R: Threads + Wait> Write for Resting<'_, R> {
    fn write(&mut self, buf: &[u8]) -> io::Result<usize> {
        self.writes = self.writes.saturating_add(1);
        if self.writes == 1 {
            self.watch.open(self.rt);
        }
        Ok(buf.len())
    }

    fn flush(&mut self) -> io::Result<()> {
        if self.writes > 1 {
            self.session.stop();
        }
        Ok(())
    }
}

// The writing pump tells all ends of a slot.
fn write<R>(rt: &R, pump: &mut WritePump, session: &Session, watch: &Watch)
where
    R: Threads + Wait + Abort,
{
    watch.await_sleep(rt);
    let mut writer = Counted::new(Resting {
        rt,
        session,
        watch,
        writes: 0,
    });
    let end = pump.run(rt, &mut writer);
    equal(rt, "a writing pump", end, WriteEnd::Stopped);
}

// All slots are taken by an end, and its lane's own place.
fn fill<R: Wait + Abort>(rt: &R, end: &mut RecvEnd, slots: u32) {
    for _ in 0..=slots {
        equal(rt, "a limit", end.limit(rt, 9), Ok(()));
    }
}

// A sending end has its lane's own place, and no other.
fn meet_to_send<R: Wait + Abort>(rt: &R, end: &mut SendEnd) {
    let calls = (end.limit(rt, 9), end.limit(rt, 9));
    equal(rt, "to send", calls, (Ok(()), Err(Refusal::QueueFull)));
}

// So has a receiving one, unless all its frames are there already.
fn meet_to_take<R: Wait + Abort>(rt: &R, end: &mut RecvEnd) {
    let fills = end.channel() == Channel::Reconciliation;
    let first = if fills { Ok(()) } else { end.limit(rt, 9) };
    let calls = (first, end.limit(rt, 9));
    equal(rt, "to receive", calls, (Ok(()), Err(Refusal::QueueFull)));
}

// Each end has met that.
fn meet<R: Wait + Abort>(rt: &R, ends: &mut Ends) {
    for end in &mut ends.sending {
        meet_to_send(rt, end);
    }
    for end in &mut ends.receiving {
        meet_to_take(rt, end);
    }
}

// All others wake where one end is held while a frame comes for each, first for that of this lane.
fn tell_frames<R>(rt: &R, alloc: Global, first: usize, hold: Hold) -> Option<()>
where
    R: Threads + Wait + Abort + Sync,
{
    let frames = frames(alloc, first).ok()?;
    let mut side = new_side(alloc, 16, 1)?;
    let watch = Watch::new();
    let ends = &mut side.ends;
    let reading = &mut side.pumps.reading;
    join(
        rt,
        || wait_each(rt, ends, hold, &watch),
        || read(rt, reading, &frames, &watch),
    );
    Some(())
}

// The same over so many slots, where a frame of each end is popped.
fn tell_slots<R>(rt: &R, alloc: Global, slots: u32, hold: Hold) -> Option<()>
where
    R: Threads + Wait + Abort + Sync,
{
    let mut side = new_side(alloc, 16, slots)?;
    fill(rt, &mut side.ends.receiving[0], slots);
    meet(rt, &mut side.ends);
    let watch = Watch::new();
    let ends = &mut side.ends;
    let writing = &mut side.pumps.writing;
    let session = &side.session;
    join(
        rt,
        || wait_each(rt, ends, hold, &watch),
        || write(rt, writing, session, &watch),
    );
    Some(())
}

// Each way of telling, of which this end is told first where one can be.
fn hold_in_turn<R>(rt: &R, alloc: Global, lane: usize, hold: Hold)
where
    R: Threads + Wait + Abort + Sync,
{
    ran(rt, tell_frames(rt, alloc, lane, hold));
    ran(rt, tell_slots(rt, alloc, 1, hold));
    ran(rt, tell_slots(rt, alloc, 14, hold));
}

#[test]
fn an_end_held_by_its_clock_holds_up_no_other(rt: HostRuntime) {
    in_time(&rt, || {
        for lane in 0..LANES {
            hold_in_turn(&rt, rt.alloc(), lane, Hold::Clock(lane));
        }
    });
}

#[test]
fn an_end_held_in_its_park_holds_up_no_other(rt: HostRuntime) {
    in_time(&rt, || {
        for lane in 0..LANES {
            hold_in_turn(&rt, rt.alloc(), lane, Hold::Park);
        }
    });
}
