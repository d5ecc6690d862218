//! A session of which one channel is slow, and how long a message of any other one is on its way meanwhile.
//!
//! The ends of the slow channel say so: each sleeps a nanosecond before it does anything, by which
//! `scripts/slow.c` knows its thread. That holds the thread, stops it now and then, or keeps the processor
//! from it; it lets a thread that it holds go on when a further one is made, or after a long time.
use lc_driver::Counted;
use lc_frame::{CHANNELS, LANES, Version};
use lc_peer::{Config, Take};
use lc_session::{Parts, ReadPump, RecvEnd, SendEnd, Session, WritePump};
use lc_wake::Wake;
use std::alloc::Global;
use std::fs::Files;
use std::io::{PipeReader, PipeWriter, pipe};
use std::sync::Wait;
use std::sync::atomic::{AtomicU64, Ordering};
use std::thread;
use std::thread::{Threads, join};
use std::time::{Clock, Duration};

/// The bytes of each ring, and of a message, which says when it was to go.
const CAPACITY: u32 = 64;

const MESSAGE: usize = 8;

/// The ends and the pumps, a thread each.
const THREADS: u64 = LANES as u64 + 2;

/// The channel that is slow.
const SLOW: usize = 0;

/// What an end shares with the others: how many messages go through each other channel, how many of these
/// have carried all, and how many ends are through.
#[derive(Drop)]
struct Job {
    session: Session,
    messages: u32,
    arrived: AtomicU64,
    through: AtomicU64,
}

impl Job {
    fn new(session: Session, messages: u32) -> Job {
        Job {
            session,
            messages,
            arrived: AtomicU64::new(0),
            through: AtomicU64::new(0),
        }
    }

    // All messages of a channel arrived. The last one stops the session.
    fn arrive(&self) {
        let before = self.arrived.fetch_add(1, Ordering::SeqCst);
        if before.saturating_add(2) == CHANNELS as u64 {
            self.session.stop();
        }
    }

    fn is_through(&self) {
        self.through.fetch_add(1, Ordering::SeqCst);
    }

    // How many messages go through a channel: through the slow one as many as there is time for.
    fn messages_on(&self, channel: usize) -> u32 {
        if channel == SLOW {
            u32::MAX
        } else {
            self.messages
        }
    }
}

fn nanos<R: Clock>(rt: &R) -> u64 {
    let now = rt.monotonic().unwrap_or(Duration::ZERO);
    u64::try_from(now.as_nanos()).unwrap_or(0)
}

// Says whether the thread is slow.
fn begin<R: Clock>(rt: &R, channel: usize) {
    if channel == SLOW {
        thread::sleep(rt, Duration::from_nanos(1));
    }
}

// Sends a message as soon as it can. Whether it did.
fn send<R: Wait>(rt: &R, end: &mut SendEnd, body: &[u8]) -> bool {
    for _ in rt.forever() {
        match end.send(rt, body) {
            Ok(()) => return true,
            Err(_) => match end.wait(rt) {
                Wake::Again => {}
                Wake::Over => return false,
            },
        }
    }
    unreachable!()
}

fn issue<R: Wait>(rt: &R, end: &mut RecvEnd, amount: u32) -> bool {
    for _ in rt.forever() {
        match end.issue(rt, amount) {
            Ok(()) => return true,
            Err(_) => match end.wait(rt) {
                Wake::Again => {}
                Wake::Over => return false,
            },
        }
    }
    unreachable!()
}

fn take<R: Wait>(rt: &R, end: &mut RecvEnd, buffer: &mut [u8]) -> bool {
    for _ in rt.forever() {
        match end.take_into(rt, buffer) {
            Ok(Take::Took(_)) => return true,
            _ => match end.wait(rt) {
                Wake::Again => {}
                Wake::Over => return false,
            },
        }
    }
    unreachable!()
}

fn send_all<R: Wait + Clock>(rt: &R, end: &mut SendEnd, channel: usize, job: &Job) {
    begin(rt, channel);
    for _ in 0..job.messages_on(channel) {
        if !send(rt, end, &nanos(rt).to_be_bytes()) {
            break;
        }
    }
    job.is_through();
}

// Takes a message and issues its bytes anew. How long it was on its way.
fn carry<R: Wait + Clock>(rt: &R, end: &mut RecvEnd) -> Option<u64> {
    let mut buffer = [0; MESSAGE];
    if !take(rt, end, &mut buffer) {
        return None;
    }
    let lasted = nanos(rt).saturating_sub(u64::from_be_bytes(buffer));
    if issue(rt, end, MESSAGE as u32) {
        Some(lasted)
    } else {
        None
    }
}

// Takes all messages. How long the slowest one was on its way, unless a run ended before the last one.
fn take_all<R: Wait + Clock>(rt: &R, end: &mut RecvEnd, channel: usize, job: &Job) -> Option<u64> {
    begin(rt, channel);
    let mut longest = 0;
    if !issue(rt, end, CAPACITY) {
        return None;
    }
    for _ in 0..job.messages_on(channel) {
        longest = carry(rt, end)?.max(longest);
    }
    Some(longest)
}

// A receiving end, and what it found.
#[derive(Drop)]
struct Taker {
    end: RecvEnd,
    longest: Option<u64>,
}

impl Taker {
    fn take_all<R: Wait + Clock>(&mut self, rt: &R, channel: usize, job: &Job) {
        self.longest = take_all(rt, &mut self.end, channel, job);
        if channel != SLOW {
            job.arrive();
        }
        job.is_through();
    }
}

// Each sending end in a thread of its own.
fn send_each<R: Threads + Wait + Clock + Sync>(rt: &R, mut ends: [SendEnd; CHANNELS], job: &Job) {
    thread::for_each_mut(
        rt,
        &mut ends,
        CHANNELS,
        &|at, end| send_all(rt, end, at, job),
    );
}

// And each receiving end.
fn take_each<R>(rt: &R, mut takers: [Taker; CHANNELS], job: &Job) -> [Taker; CHANNELS]
where
    R: Threads + Wait + Clock + Sync,
{
    thread::for_each_mut(
        rt,
        &mut takers,
        CHANNELS,
        &|at, taker| taker.take_all(rt, at, job),
    );
    takers
}

// Writes until the session is stopped. The writer goes then, which ends the stream.
fn write<R: Wait>(rt: &R, mut pump: WritePump, writer: PipeWriter, job: &Job) {
    let _end = pump.run(rt, &mut Counted::new(writer));
    job.is_through();
}

fn read<R: Wait>(rt: &R, mut pump: ReadPump, reader: PipeReader, job: &Job) {
    let _end = pump.run(rt, &mut Counted::new(reader), u64::MAX);
    job.is_through();
}

// Once all but the two slow ends are through, threads are made until these are as well.
fn let_go<R: Threads + Wait + Clock>(rt: &R, job: &Job) {
    for _ in rt.forever() {
        let through = job.through.load(Ordering::SeqCst);
        if through >= THREADS {
            return;
        }
        if through >= THREADS - 2 {
            join(rt, || (), || ());
        }
        thread::sleep(rt, Duration::from_millis(1));
    }
}

// The longest that a message of a channel that is not slow was on its way.
fn longest(takers: &[Taker; CHANNELS]) -> Option<u64> {
    let mut longest = 0;
    for (channel, taker) in takers.iter().enumerate() {
        if channel != SLOW {
            longest = taker.longest?.max(longest);
        }
    }
    Some(longest)
}

// Both pumps at work, and who lets the slow ends go.
fn use_pumps<R: Threads + Wait + Clock + Sync>(
    rt: &R,
    reading: ReadPump,
    reader: PipeReader,
    writing: WritePump,
    writer: PipeWriter,
    job: &Job,
) {
    join(
        rt,
        || {
            join(
                rt,
                || read(rt, reading, reader, job),
                || write(rt, writing, writer, job),
            );
        },
        || let_go(rt, job),
    );
}

// All ends at work: what the takers found.
fn use_ends<R: Threads + Wait + Clock + Sync>(
    rt: &R,
    sending: [SendEnd; CHANNELS],
    takers: [Taker; CHANNELS],
    job: &Job,
) -> [Taker; CHANNELS] {
    let ((), takers) = join(
        rt,
        || send_each(rt, sending, job),
        || take_each(rt, takers, job),
    );
    takers
}

/// So many messages go through each channel but the slow one, of a session with so many slots. How many
/// milliseconds the slowest one took; `None` where some did not arrive.
pub fn longest_beside<R, F>(
    rt: &R,
    files: &F,
    alloc: Global,
    slots: u32,
    messages: u32,
) -> Option<u64>
where
    R: Threads + Wait + Clock + Sync,
    F: Files,
{
    let config = Config {
        version: Version::One,
        capacities: [CAPACITY; CHANNELS],
        slots,
    };
    let Parts {
        session,
        send_ends,
        recv_ends,
        read_pump,
        write_pump,
    } = Session::new(alloc, config).ok()?;
    let takers = recv_ends.map(|end| Taker { end, longest: None });
    let (reader, writer) = pipe(files).ok()?;
    let job = Job::new(session, messages);
    let (takers, ()) = join(
        rt,
        || use_ends(rt, send_ends, takers, &job),
        || use_pumps(rt, read_pump, reader, write_pump, writer, &job),
    );
    Some(longest(&takers)? / 1_000_000)
}
