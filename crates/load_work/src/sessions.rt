//! The ends of a session in threads. What the session writes goes through a pipe of the system to its
//! own reading pump, so that its ends are at both sides of the stream.
use crate::digest::Digest;
use crate::random::{Pool, Random};
use lc_book::Refusal;
use lc_driver::Counted;
use lc_frame::{CHANNELS, Version};
use lc_peer::{Config, Take};
use lc_session::{Parts, ReadPump, RecvEnd, SendEnd, Session, WritePump};
use lc_wake::Wake;
use std::alloc::Global;
use std::fs::Files;
use std::io::{BufReader, Read, Write, pipe};
use std::sync::Wait;
use std::thread;
use std::thread::{Threads, join};

/// The bytes of each ring.
pub const CAPACITY: u32 = 262_144;

/// The frames that may wait.
const SLOTS: u32 = 64;

/// The bytes that one read of the pipe or the connection asks for.
pub const READ_AHEAD: usize = 65_536;

/// The longest message of six in ten, of three more, and of the last.
const LENGTHS: [u32; 3] = [128, 2_048, 61_440];

// What the ends of a channel do: the messages grow from this number, and there are so many.
#[derive(Clone, Copy)]
struct Job {
    random: Random,
    messages: u32,
}

impl Job {
    fn on(self, channel: usize) -> Job {
        Job {
            random: self.random.apart(channel as u64),
            messages: self.messages,
        }
    }
}

/// Sends a message as soon as there are guarantees and a slot for it. Whether it did.
pub fn send<R: Wait>(rt: &R, end: &mut SendEnd, body: &[u8]) -> bool {
    for _ in rt.forever() {
        if let Ok(()) = end.send(rt, body) {
            return true;
        }
        if let Wake::Over = end.wait(rt) {
            return false;
        }
    }
    unreachable!()
}

fn send_all<R: Wait>(rt: &R, end: &mut SendEnd, pool: &Pool, job: Job) {
    let mut random = job.random;
    for _ in 0..job.messages {
        let len = random.len_from(1, LENGTHS);
        let body = pool.part(&mut random, len);
        if !send(rt, end, body) {
            return;
        }
    }
}

/// Issues so much, as soon as a slot is free. Whether it did.
pub fn issue<R: Wait>(rt: &R, end: &mut RecvEnd, amount: u32) -> bool {
    for _ in rt.forever() {
        match end.issue(rt, amount) {
            Ok(()) => return true,
            Err(Refusal::QueueFull) => {}
            Err(_) => return false,
        }
        if let Wake::Over = end.wait(rt) {
            return false;
        }
    }
    unreachable!()
}

/// Takes a message as soon as one comes. How long it is.
pub fn take<R: Wait>(rt: &R, end: &mut RecvEnd, buffer: &mut [u8]) -> Option<usize> {
    for _ in rt.forever() {
        match end.take_into(rt, buffer) {
            Ok(Take::Took(len)) => return Some(len),
            Ok(_) => {}
            Err(_) => return None,
        }
        if let Wake::Over = end.wait(rt) {
            return None;
        }
    }
    unreachable!()
}

// Takes all messages, and issues the bytes of each anew.
fn take_all<R: Wait>(rt: &R, alloc: Global, end: &mut RecvEnd, messages: u32) -> Option<Digest> {
    let [_, _, longest] = LENGTHS;
    let mut buffer = vec![in alloc; 0u8; longest as usize].ok()?;
    let mut digest = Digest::new();
    if !issue(rt, end, CAPACITY) {
        return None;
    }
    for _ in 0..messages {
        let len = take(rt, end, &mut buffer)?;
        digest.add_bytes(buffer.get(..len)?);
        if !issue(rt, end, len as u32) {
            return None;
        }
    }
    Some(digest)
}

// A receiving end, and what came of its messages.
#[derive(Drop)]
struct Taker {
    end: RecvEnd,
    digest: Option<Digest>,
}

// Each sending end in a thread of its own.
fn send_each<R: Threads + Wait + Sync>(
    rt: &R,
    ends: &mut [SendEnd; CHANNELS],
    pool: &Pool,
    job: Job,
) {
    thread::for_each_mut(
        rt,
        ends,
        CHANNELS,
        &|at, end| { send_all(rt, end, pool, job.on(at)) },
    );
}

// And each receiving end. One that fails stops the session, or others would wait for it.
fn take_each<R: Threads + Wait + Sync>(
    rt: &R,
    alloc: Global,
    session: &Session,
    takers: &mut [Taker; CHANNELS],
    job: Job,
) {
    thread::for_each_mut(
        rt,
        takers,
        CHANNELS,
        &|_, taker| {
            taker.digest = take_all(rt, alloc, &mut taker.end, job.messages);
            if taker.digest.is_none() {
                session.stop();
            }
        },
    );
}

// Writes until the session is stopped. The writer goes then, which ends the stream.
fn write_all_out<R: Wait, W: Write + Drop>(rt: &R, mut pump: WritePump, writer: W) {
    let _end = pump.run(rt, &mut Counted::new(writer));
}

// Reads until the stream ends.
fn read_all<R: Wait, D: Read + Drop>(rt: &R, mut pump: ReadPump, reader: D) {
    let _end = pump.run(rt, &mut Counted::new(reader), u64::MAX);
}

/// Both pumps at work.
pub fn use_pumps<R, D, W>(rt: &R, reading: ReadPump, reader: D, writing: WritePump, writer: W)
where
    R: Threads + Wait + Sync,
    D: Read + Drop + Send,
    W: Write + Drop + Send,
{
    join(
        rt,
        || read_all(rt, reading, reader),
        || write_all_out(rt, writing, writer),
    );
}

// All ends at work. The session is stopped once all are through.
fn use_ends<R: Threads + Wait + Sync>(
    rt: &R,
    alloc: Global,
    session: &Session,
    sending: &mut [SendEnd; CHANNELS],
    takers: &mut [Taker; CHANNELS],
    pool: &Pool,
    job: Job,
) {
    join(
        rt,
        || send_each(rt, sending, pool, job),
        || take_each(rt, alloc, session, takers, job),
    );
    session.stop();
}

/// A new session.
pub fn session(alloc: Global) -> Option<Parts> {
    let config = Config {
        version: Version::One,
        capacities: [CAPACITY; CHANNELS],
        slots: SLOTS,
    };
    Session::new(alloc, config).ok()
}

// What came of all channels.
fn sum(takers: &[Taker; CHANNELS]) -> Option<Digest> {
    let mut digest = Digest::new();
    for taker in takers {
        digest.add(taker.digest?.value());
    }
    Some(digest)
}

/// So many messages go through each channel of a session.
pub fn exchange<R, F>(
    rt: &R,
    files: &F,
    alloc: Global,
    random: Random,
    messages: u32,
) -> Option<Digest>
where
    R: Threads + Wait + Sync,
    F: Files,
{
    let mut random = random;
    let [_, _, longest] = LENGTHS;
    let pool = Pool::new(alloc, &mut random, longest as usize).ok()?;
    let job = Job { random, messages };
    let (reader, writer) = pipe(files).ok()?;
    let reader = BufReader::with_capacity(alloc, READ_AHEAD, reader).ok()?;
    let Parts {
        session,
        mut send_ends,
        recv_ends,
        read_pump,
        write_pump,
    } = session(alloc)?;
    let mut takers = recv_ends.map(|end| Taker { end, digest: None });
    join(
        rt,
        || use_pumps(rt, read_pump, reader, write_pump, writer),
        || use_ends(rt, alloc, &session, &mut send_ends, &mut takers, &pool, job),
    );
    sum(&takers)
}
