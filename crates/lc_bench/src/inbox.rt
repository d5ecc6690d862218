//! Messages of 16 bytes through the inbox of a channel, on one thread and between two: the inbox
//! that two threads share, and beside it a plain one behind a `Mutex`.
use crate::figures::{Due, Figure, Turns, middle, nanoseconds};
use crate::plan::Plan;
use lc_inbox::{InboxIn, InboxOut, SharedInbox};
use lc_peer::{Inbox, Take};
use lc_queue::Drain;
use std::alloc::Global;
use std::sync::{Arc, Mutex, Wait};
use std::thread::Threads;
use std::time::{Clock, Instant};
use std::{io, thread};
use test_threads::{hear, new_pair};

/// The bytes of a message.
const LENGTH: usize = 16;

/// The messages of a turn.
const MESSAGES: u32 = 10_000;

/// The bytes of the ring: those of a turn.
const CAPACITY: u32 = 16 * MESSAGES;

/// The turns that two threads make where time is taken.
const TURNS: u64 = 20;

/// The lane on which the shared inbox puts, and the slots of its queue.
const LANE: u8 = 8;

const SLOTS: u32 = 4;

type Message = [u8; LENGTH];

/// Where messages arrive.
trait Hearing {
    /// One does, and this says whether it was lawful.
    fn hear<R: Wait>(&mut self, rt: &R, message: &Message) -> bool;
}

/// Where messages are taken.
trait Taking {
    /// Issues the whole ring, and says whether it did.
    fn issue<R: Wait>(&mut self, rt: &R) -> bool;

    /// Takes one, and says whether one waited.
    fn take<R: Wait>(&mut self, rt: &R, buffer: &mut Message) -> bool;
}

impl Hearing for InboxIn {
    fn hear<R: Wait>(&mut self, rt: &R, message: &Message) -> bool {
        hear(rt, self, message)
    }
}

// The side that takes, and the drain of the queue on which it puts.
#[derive(Drop)]
struct Taker {
    side: InboxOut,
    drain: Drain,
}

impl Taking for Taker {
    fn issue<R: Wait>(&mut self, rt: &R) -> bool {
        self.side.issue(rt, CAPACITY).is_ok() && self.drain.pop(rt).is_some()
    }

    fn take<R: Wait>(&mut self, rt: &R, buffer: &mut Message) -> bool {
        matches!(self.side.take_into(rt, buffer), Ok(Take::Took(_)))
    }
}

// A plain inbox behind a lock.
#[derive(Drop)]
struct Locked {
    inbox: Arc<Mutex<Inbox>, Global>,
}

impl Hearing for Locked {
    fn hear<R: Wait>(&mut self, rt: &R, message: &Message) -> bool {
        self.inbox.lock(rt).message(message).is_ok()
    }
}

impl Taking for Locked {
    fn issue<R: Wait>(&mut self, rt: &R) -> bool {
        let mut inbox = self.inbox.lock(rt);
        let mut book = inbox.book();
        let answer = book.issue(CAPACITY);
        inbox.adopt(book);
        answer.is_ok()
    }

    fn take<R: Wait>(&mut self, rt: &R, buffer: &mut Message) -> bool {
        matches!(self.inbox.lock(rt).take_into(buffer), Ok(Take::Took(_)))
    }
}

// Both sides of an inbox, on one thread.
#[derive(Drop)]
struct Passing<H, T, R: Wait + Copy> {
    hearing: H,
    taking: T,
    rt: R,
}

// Each message of a turn arrives and is taken. Whether all went well.
fn pass_all<R: Wait, H: Hearing, T: Taking>(rt: &R, hearing: &mut H, taking: &mut T) -> bool {
    let mut buffer = [0; LENGTH];
    let mut went_well = true;
    for _ in 0..MESSAGES {
        went_well &= hearing.hear(rt, &[7; LENGTH]) && taking.take(rt, &mut buffer);
    }
    went_well
}

// A message arrives. A refused one would never be taken: it comes again for ever.
fn hear_one<R: Wait, H: Hearing>(rt: &R, hearing: &mut H) {
    for _ in rt.forever() {
        if hearing.hear(rt, &[7; LENGTH]) {
            return;
        }
    }
}

// The messages of a turn arrive.
fn hear_all<R: Wait, H: Hearing>(rt: &R, mut hearing: H) -> H {
    for _ in 0..MESSAGES {
        hear_one(rt, &mut hearing);
    }
    hearing
}

// Takes a message, and yields the processor while none waits.
fn take_one<R: Wait, T: Taking>(rt: &R, taking: &mut T, buffer: &mut Message) {
    for _ in rt.forever() {
        if taking.take(rt, buffer) {
            return;
        }
        thread::yield_now();
    }
}

// Takes the messages of a turn.
fn take_all<R: Wait, T: Taking>(rt: &R, taking: &mut T) {
    let mut buffer = [0; LENGTH];
    for _ in 0..MESSAGES {
        take_one(rt, taking, &mut buffer);
    }
}

impl<H: Hearing, T: Taking, R: Wait + Copy> Turns for Passing<H, T, R> {
    fn run(&mut self, turns: u64, sum: &mut u64) -> io::Result<()> {
        for _ in 0..turns {
            let issued = self.taking.issue(&self.rt);
            if !issued || !pass_all(&self.rt, &mut self.hearing, &mut self.taking) {
                return Err(io::Error::other("a message did not pass"));
            }
            *sum = sum.wrapping_add(1);
        }
        Ok(())
    }
}

// In each turn one thread lets messages arrive, and this one takes them.
fn cross<R, H, T>(rt: R, hearing: H, taking: &mut T, turns: u64) -> io::Result<H>
where
    R: Threads + Wait + Copy + Send + 'static,
    H: Hearing + Drop + Send + 'static,
    T: Taking,
{
    let mut hearing = hearing;
    for _ in 0..turns {
        if !taking.issue(&rt) {
            return Err(io::Error::other("a guarantee was refused"));
        }
        let reading = thread::spawn(&rt, move || hear_all(&rt, hearing))?;
        take_all(&rt, taking);
        hearing = reading.join(&rt);
    }
    Ok(hearing)
}

// The seconds of a turn of two threads: the middle of all repetitions.
fn seconds<R, H, T>(
    rt: R,
    host: &HostRuntime,
    plan: &Plan,
    hearing: H,
    taking: &mut T,
) -> io::Result<f64>
where
    R: Threads + Wait + Clock + Copy + Send + 'static,
    H: Hearing + Drop + Send + 'static,
    T: Taking,
{
    let mut hearing = hearing;
    let mut taken = Vec::new(host.alloc());
    for _ in 0..plan.reps {
        let start = Instant::now(&rt)?;
        hearing = cross(rt, hearing, taking, TURNS)?;
        taken.push(nanoseconds(start.elapsed(&rt)?))?;
    }
    middle(taken, TURNS)
}

fn new_shared(alloc: Global) -> io::Result<(InboxIn, Taker)> {
    let (SharedInbox { incoming, outgoing }, drain) = new_pair(alloc, LANE, CAPACITY, SLOTS)?;
    let taker = Taker {
        side: outgoing,
        drain,
    };
    Ok((incoming, taker))
}

fn new_locked(alloc: Global) -> io::Result<(Locked, Locked)> {
    let Ok(inbox) = Inbox::new(alloc, CAPACITY) else {
        return Err(io::Error::other("no inbox was made"));
    };
    let inbox = Arc::new(alloc, Mutex::new(inbox))?;
    let theirs = Arc::try_clone(&inbox)?;
    Ok((Locked { inbox }, Locked { inbox: theirs }))
}

fn figure(name: &str) -> Figure<'_> {
    Figure {
        name,
        things: "messages",
        count: MESSAGES as usize,
        bytes: None,
    }
}

// Takes the figure of an inbox on one thread.
fn measure_alone<R, H, T>(
    rt: R,
    host: &HostRuntime,
    plan: &Plan,
    name: &str,
    (hearing, taking): (H, T),
) -> io::Result<()>
where
    R: Wait + Copy,
    H: Hearing + Drop,
    T: Taking + Drop,
{
    let mut passing = Passing {
        hearing,
        taking,
        rt,
    };
    figure(name).take(host, plan, &mut passing)
}

// Takes the figure of an inbox between two threads.
fn measure_threads<R, H, T>(
    rt: R,
    host: &HostRuntime,
    plan: &Plan,
    name: &str,
    (hearing, mut taking): (H, T),
) -> io::Result<()>
where
    R: Threads + Wait + Clock + Copy + Send + 'static,
    H: Hearing + Drop + Send + 'static,
    T: Taking + Drop,
{
    let figure = figure(name);
    match figure.begin(host, plan)? {
        Due::Nothing => Ok(()),
        Due::Turns(turns) => {
            cross(rt, hearing, &mut taking, turns)?;
            Ok(())
        }
        Due::Seconds => {
            let turn = seconds(rt, host, plan, hearing, &mut taking)?;
            figure.print(host, turn)
        }
    }
}

/// Takes the figures of both inboxes.
pub fn measure_inboxes<R>(rt: R, host: &HostRuntime, plan: &Plan) -> io::Result<()>
where
    R: Threads + Wait + Clock + Copy + Send + 'static,
{
    let alloc = host.alloc();
    measure_alone(rt, host, plan, "inbox.16", new_shared(alloc)?)?;
    measure_alone(rt, host, plan, "mutex_inbox.16", new_locked(alloc)?)?;
    measure_threads(rt, host, plan, "inbox_1to1.16", new_shared(alloc)?)?;
    measure_threads(rt, host, plan, "mutex_inbox_1to1.16", new_locked(alloc)?)
}
