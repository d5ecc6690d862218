//! A writing pump that stops at each call of its writer until the other parts of its session have done
//! what a script says, so that what comes between two of its steps is no matter of luck.
//!
//! A call a line, and after `=>` what it answers, as in the scripts of `desk`. `nap-sending` and
//! `nap-receiving` wait for so many microseconds of a clock of their own, and tell how often they read
//! it. `run` is a run of the writing pump; the lines behind it name the calls of its writer, and behind
//! a colon what happens in each. `read` lets the reading pump, in a thread of its own, go on to where it
//! waits next: it has read the bytes that come, its run has ended, a further run reads, it has ended.
//! `who` names the ends whose next wait would not sleep.
use crate::tests::desk::{at_receiver, at_sender, call_of};
use crate::tests::sides::{Ends, new_side_as};
use crate::tests::{equal, ran, same};
use lc_driver::{Counted, ReadEnd};
use lc_frame::{Channel, Version};
use lc_session::{ReadPump, Session, WritePump};
use std::alloc::Global;
use std::io::{ErrorKind, Read, Write};
use std::process::Abort;
use std::str::Lines;
use std::sync::Wait;
use std::sync::atomic::{AtomicBool, AtomicU64, Ordering};
use std::thread::{Threads, join};
use std::time::{Clock, Duration};
use std::{io, thread};
use test_devices::{channel, text};

/// How far the reading pump is to go, and how far it is.
#[derive(Drop)]
struct Steps {
    asked: AtomicU64,
    reached: AtomicU64,
}

/// Waits until a count is as large as this.
pub fn await_count<R: Wait>(rt: &R, count: &AtomicU64, least: u64) {
    for _ in rt.forever() {
        if count.load(Ordering::SeqCst) >= least {
            return;
        }
        thread::yield_now();
    }
}

impl Steps {
    // The reading pump is so far, and waits until it is to go on.
    fn reach<R: Wait>(&self, rt: &R, step: u64) {
        self.reached.store(step, Ordering::SeqCst);
        await_count(rt, &self.asked, step.saturating_add(1));
    }

    // Lets the reading pump go on to where it waits next.
    fn go_on<R: Wait>(&self, rt: &R) {
        let before = self.asked.fetch_add(1, Ordering::SeqCst);
        await_count(rt, &self.reached, before.saturating_add(1));
    }
}

/// A reader that gives its bytes, and then waits at a step before it says that there are no more.
#[derive(Drop)]
struct Held<'a, R> {
    rt: &'a R,
    bytes: &'a [u8],
    steps: &'a Steps,
    step: u64,
}

impl<R: Wait> Read for Held<'_, R> {
    fn read(&mut self, buf: &mut [u8]) -> io::Result<usize> {
        let given = self.bytes.read(buf)?;
        if given == 0 {
            self.steps.reach(self.rt, self.step);
        }
        Ok(given)
    }
}

// A run of the reading pump, at whose end it waits at a step.
fn read<R: Wait + Abort>(rt: &R, pump: &mut ReadPump, steps: &Steps, bytes: &[u8], step: u64) {
    let mut reader = Counted::new(Held {
        rt,
        bytes,
        steps,
        step,
    });
    let end = pump.run(rt, &mut reader, u64::MAX);
    equal(rt, "a reading pump", end, ReadEnd::Clean);
}

// The reading pump, in two runs.
fn read_twice<R: Wait + Abort>(rt: &R, pump: &mut ReadPump, steps: &Steps, bytes: &[u8]) {
    steps.reach(rt, 0);
    read(rt, pump, steps, bytes, 1);
    steps.reach(rt, 2);
    read(rt, pump, steps, &[], 3);
    steps.reached.store(4, Ordering::SeqCst);
}

/// The writer of a session, with all of that but its pumps at hand.
#[derive(Drop)]
struct Stage<'a, R> {
    rt: &'a R,
    alloc: Global,
    script: Lines<'a>,
    ends: Ends,
    session: Session,
    steps: &'a Steps,
}

// Names an end whose wait would not sleep, by what that answers.
fn add(all: &mut String, kind: &str, at: Channel, nap: Option<String>) -> Option<()> {
    if nap?.as_str() == "Again 0" {
        let number = at.number();
        write!(all, " {kind} {number}").ok()?;
    }
    Some(())
}

// Names the ends of a channel whose wait would not sleep.
fn tell<R: Wait>(
    rt: &R,
    alloc: Global,
    ends: &mut Ends,
    at: Channel,
    all: &mut String,
) -> Option<()> {
    let sending = at_sender(rt, alloc, &mut ends.sending, at, "nap-sending", "1");
    add(all, "sending", at, sending)?;
    let receiving = at_receiver(rt, alloc, &mut ends.receiving, at, "nap-receiving", "1");
    add(all, "receiving", at, receiving)
}

// The ends whose wait would not sleep.
fn told<R: Wait>(rt: &R, alloc: Global, ends: &mut Ends) -> Option<String> {
    let mut all = String::from_str(alloc, "told").ok()?;
    for at in Channel::ALL {
        tell(rt, alloc, ends, at, &mut all)?;
    }
    Some(all)
}

impl<R: Wait + Abort> Stage<'_, R> {
    fn answer(&mut self, call: &str) -> Option<String> {
        let (rt, alloc) = (self.rt, self.alloc);
        let (verb, rest) = call.split_once(' ').unwrap_or((call, ""));
        let (first, word) = rest.split_once(' ').unwrap_or((rest, ""));
        match verb {
            "stop" => text(alloc, &self.session.stop()),
            "read" => text(alloc, &self.steps.go_on(rt)),
            "who" => told(rt, alloc, &mut self.ends),
            "issue" | "plead" | "limit-receiving" | "nap-receiving" => {
                let ends = &mut self.ends.receiving;
                at_receiver(rt, alloc, ends, channel(first)?, verb, word)
            }
            _ => {
                let ends = &mut self.ends.sending;
                at_sender(rt, alloc, ends, channel(first)?, verb, word)
            }
        }
    }

    fn act(&mut self, line: &str) {
        let (call, wanted) = call_of(line);
        let found = self.answer(call);
        same(self.rt, line, found, wanted);
    }

    // The writer is called, as the next line says, which says too what happens in that.
    fn called(&mut self, found: &str) -> io::Result<()> {
        let line = self.script.next().unwrap_or("the end of the script").trim();
        let (call, acts) = line.split_once(": ").unwrap_or((line, ""));
        let due = call.strip_suffix(" fails").unwrap_or(call);
        assert!(self.rt; found == due, "{line}: the writer was asked to {found}");
        for act in acts.split("; ") {
            if !act.is_empty() {
                self.act(act);
            }
        }
        if due.len() < call.len() {
            return Err(io::Error::from(ErrorKind::Other));
        }
        Ok(())
    }
}

impl<R: Wait + Abort> Write for Stage<'_, R> {
    fn write(&mut self, buf: &[u8]) -> io::Result<usize> {
        let bytes = hex::encode(self.alloc, buf)?;
        let call = format!(in self.alloc; "write {bytes}")?;
        self.called(call.as_str())?;
        Ok(buf.len())
    }

    fn flush(&mut self) -> io::Result<()> {
        self.called("flush")
    }
}

// All lines of a script, in turn.
fn perform<R: Wait + Abort>(rt: &R, pump: &mut WritePump, mut stage: Stage<'_, R>) {
    for _ in rt.forever() {
        let Some(line) = stage.script.next() else {
            return;
        };
        let (call, wanted) = call_of(line);
        if call == "run" {
            let alloc = stage.alloc;
            let mut writer = Counted::new(stage);
            let end = pump.run(rt, &mut writer);
            stage = writer.into_inner();
            same(rt, line, text(alloc, &end), wanted);
        } else {
            stage.act(line);
        }
    }
}

// Performs a script at a new session with so many slots, to which the bytes of these digits come.
fn play<R>(
    rt: &R,
    alloc: Global,
    version: Version,
    slots: u32,
    digits: &str,
    script: &str,
) -> Option<()>
where
    R: Threads + Wait + Abort + Sync,
{
    let bytes = hex::decode(alloc, digits).ok()?;
    let (session, ends, mut pumps) = new_side_as(alloc, version, 8, slots)?.apart();
    let reading = &mut pumps.reading;
    let writing = &mut pumps.writing;
    let steps = Steps {
        asked: AtomicU64::new(0),
        reached: AtomicU64::new(0),
    };
    let stage = Stage {
        rt,
        alloc,
        script: script.lines(),
        ends,
        session,
        steps: &steps,
    };
    join(
        rt,
        || read_twice(rt, reading, &steps, &bytes),
        || {
            perform(rt, writing, stage);
            steps.asked.store(u64::MAX, Ordering::SeqCst);
        },
    );
    Some(())
}

// Fails where what is waited for is not done in time.
fn watch<R: Clock + Abort>(rt: &R, done: &AtomicBool) {
    for _ in 0..40_000 {
        if done.load(Ordering::SeqCst) {
            return;
        }
        thread::sleep(rt, Duration::from_millis(1));
    }
    assert!(rt; false, "a pump or an end sleeps for good");
}

/// Does this, and fails where it would wait for ever.
pub fn in_time<R, F>(rt: &R, body: F)
where
    R: Threads + Clock + Abort + Sync,
    F: FnOnce() + Send,
    requires { F.IsAlwaysCallable body }
{
    let done = AtomicBool::new(false);
    join(
        rt,
        || {
            body();
            done.store(true, Ordering::SeqCst);
        },
        || watch(rt, &done),
    );
}

/// Of each: the version, the slots of the queue, the bytes that come, and the calls.
const STAGED: [(Version, u32, &str, &str); 10] = [
    // It flushes and looks once more before it sleeps, is woken by what is put then, and flushes
    // before it stops.
    (
        Version::One,
        4,
        "",
        "issue 1 5 => Ok(())
        run => Stopped
        write 2100000005
        flush: issue 2 3 => Ok(()); limit-sending 3 9 => Ok(())
        write 2200000003530000000000000009
        flush
        flush: stop => ()
        flush",
    ),
    // What was put before a stop goes out, also where both come while it is about to sleep.
    (
        Version::One,
        4,
        "",
        "run => Stopped
        flush: issue 1 5 => Ok(()); stop => ()
        write 2100000005
        flush",
    ),
    // Or while it writes.
    (
        Version::One,
        4,
        "",
        "issue 1 5 => Ok(())
        run => Stopped
        write 2100000005: issue 2 3 => Ok(()); stop => ()
        write 2200000003
        flush",
    ),
    // Ends sleep as long as they are to, unless the run has ended, and sleep again in a further run.
    (
        Version::One,
        4,
        "",
        "nap-sending 1 1 => Again 2
        nap-sending 1 3 => Again 4
        nap-receiving 1 3 => Again 4
        run => Failed
        flush fails: nap-sending 1 1 => Again 2; nap-receiving 1 1 => Again 2
        nap-sending 1 1 => Again 0
        nap-receiving 1 1 => Again 0
        nap-sending 1 1 => Again 1
        nap-sending 1 1 => Again 2
        run => Stopped
        flush: nap-sending 1 1 => Again 2; nap-receiving 1 1 => Again 1; stop => ()
        flush: nap-sending 1 1 => Again 2; nap-receiving 1 1 => Again 2
        nap-sending 1 1 => Again 0
        nap-receiving 1 1 => Again 0",
    ),
    // A write that fails ends a run as well. Only an end that wants a slot has its wait over then, until a further
    // run has begun.
    (
        Version::One,
        1,
        "",
        "issue 1 1 => Ok(())
        issue 1 1 => Ok(())
        issue 1 1 => Err(QueueFull)
        nap-receiving 1 1 => Again 2
        issue 1 1 => Err(QueueFull)
        run => Failed
        write 21000000012100000001 fails: nap-receiving 1 1 => Again 0; issue 1 1 => Ok(()); issue 1 1 => Ok(())
        issue 1 1 => Err(QueueFull)
        nap-receiving 1 1 => Again 0
        issue 1 1 => Err(QueueFull)
        nap-receiving 1 1 => Over 0
        issue 1 1 => Err(QueueFull)
        nap-receiving 1 1 => Over 0
        nap-receiving 1 1 => Again 1
        nap-receiving 1 1 => Again 2
        nap-sending 1 1 => Again 0
        nap-sending 1 1 => Again 1
        nap-sending 1 1 => Again 2
        run => Stopped
        write 2100000001210000000121000000012100000001: issue 1 1 => Ok(()); issue 1 1 => Ok(()); issue 1 1 => Err(QueueFull); nap-receiving 1 1 => Again 0; issue 1 1 => Err(QueueFull); nap-receiving 1 1 => Again 2; stop => ()
        write 21000000012100000001
        flush",
    ),
    // The same of the reading pump.
    (
        Version::One,
        4,
        "",
        "read => ()
        nap-sending 1 1 => Again 2
        read => ()
        nap-sending 1 1 => Again 0
        nap-sending 1 1 => Over 0
        nap-receiving 1 1 => Again 0
        nap-receiving 1 1 => Over 0
        read => ()
        nap-sending 1 1 => Again 1
        nap-receiving 1 1 => Again 1
        nap-sending 1 1 => Again 2
        read => ()
        nap-sending 1 1 => Again 0
        nap-sending 1 1 => Over 0",
    ),
    // Where that has ended an end that was refused a slot goes on waiting for it.
    (
        Version::One,
        1,
        "",
        "read => ()
        read => ()
        issue 1 1 => Ok(())
        issue 1 1 => Ok(())
        issue 1 1 => Err(QueueFull)
        nap-receiving 1 1 => Again 0
        issue 1 1 => Err(QueueFull)
        nap-receiving 1 1 => Again 1
        issue 1 1 => Err(QueueFull)
        nap-receiving 1 1 => Again 2
        nap-receiving 1 1 => Over 0
        run => Stopped
        write 21000000012100000001: stop => ()
        flush",
    ),
    // A run of the writing pump begins, and that of the reading pump stays over.
    (
        Version::One,
        4,
        "",
        "read => ()
        read => ()
        run => Stopped
        flush: nap-sending 1 1 => Again 0; nap-sending 1 1 => Over 0; nap-receiving 1 1 => Again 0; stop => ()
        flush
        nap-receiving 1 1 => Again 0
        nap-receiving 1 1 => Over 0",
    ),
    // And the other way round.
    (
        Version::One,
        4,
        "",
        "stop => ()
        run => Stopped
        flush
        read => ()
        nap-sending 1 1 => Again 0
        nap-sending 1 1 => Again 1
        nap-sending 1 1 => Again 2
        nap-receiving 1 1 => Again 0",
    ),
    // Nobody wakes a finished end, which does not sleep.
    (
        Version::Two,
        4,
        "",
        "finish 1 => Ok(())
        nap-sending 1 1 => Over 0
        nap-sending 2 1 => Again 2",
    ),
];

#[test]
fn a_pump_and_its_session_step_by_step(rt: HostRuntime) {
    in_time(&rt, || {
        for &(version, slots, digits, script) in &STAGED {
            ran(&rt, play(&rt, rt.alloc(), version, slots, digits, script));
        }
    });
}

/// Calls of ends of channel 1: what each needs after the channel, the kind of its end, what it answers
/// where guarantees and a plead have come, and the frame of version Two that it puts.
const CALLS: [(&str, &str, &str, &str, &str); 8] = [
    ("send", "61", "sending", "Ok(())", "110000000161"),
    ("absolve", "1", "sending", "Ok(())", "3100000001"),
    (
        "limit-sending",
        "9",
        "sending",
        "Ok(())",
        "510000000000000009",
    ),
    ("honour", "", "sending", "Ok(Some(3))", "3100000003"),
    ("finish", "", "sending", "Ok(())", "71"),
    ("issue", "1", "receiving", "Ok(())", "2100000001"),
    ("plead", "0", "receiving", "Ok(())", "4100000000"),
    (
        "limit-receiving",
        "9",
        "receiving",
        "Ok(())",
        "610000000000000009",
    ),
];

/// An Issue of 5 and a Plead down to 2.
const ASKED: &str = "21000000054100000002";

// A call puts its frame where the pump is about to sleep.
fn putting(alloc: Global, verb: &str, word: &str, answer: &str, frame: &str) -> Option<String> {
    [
        "read => ()
        issue 1 4 => Ok(())
        run => Stopped
        write 4c434d022100000004
        flush: ",
        verb,
        " 1 ",
        word,
        " => ",
        answer,
        "
        write ",
        frame,
        "
        flush
        flush: stop => ()
        flush",
    ]
    .concat(alloc)
    .ok()
}

// The pump is woken by what is put then.
fn puts<R>(rt: &R, alloc: Global, place: usize) -> Option<()>
where
    R: Threads + Wait + Abort + Sync,
{
    let &(verb, word, _, answer, frame) = CALLS.get(place)?;
    let script = putting(alloc, verb, word, answer, frame)?;
    play(rt, alloc, Version::Two, 4, ASKED, script.as_str())
}

// A call is refused for want of a slot: its lane has its own, and another lane the one that all share. The frames
// are written that have them.
fn wanting(alloc: Global, verb: &str, word: &str, kind: &str) -> Option<String> {
    [
        "read => ()
        nap-sending 1 1 => Again 0
        nap-sending 1 1 => Again 1
        issue 1 4 => Ok(())
        limit-sending 1 99 => Ok(())
        issue 2 1 => Ok(())
        issue 2 1 => Ok(())
        ",
        verb,
        " 1 ",
        word,
        " => Err(QueueFull)
        run => Stopped
        write 4c434d02210000000451000000000000006322000000012200000001: nap-",
        kind,
        " 1 1 => Again 0; nap-",
        kind,
        " 1 1 => Again 2; stop => ()
        flush",
    ]
    .concat(alloc)
    .ok()
}

// A slot that is freed is news for an end whose call was refused, before the frame is written.
fn wants<R>(rt: &R, alloc: Global, place: usize) -> Option<()>
where
    R: Threads + Wait + Abort + Sync,
{
    let &(verb, word, kind, _, _) = CALLS.get(place)?;
    let script = wanting(alloc, verb, word, kind)?;
    play(rt, alloc, Version::Two, 1, ASKED, script.as_str())
}

#[test]
fn each_call_wakes_the_pump_or_waits_for_a_slot(rt: HostRuntime) {
    in_time(&rt, || {
        for place in 0..CALLS.len() {
            ran(&rt, puts(&rt, rt.alloc(), place));
            ran(&rt, wants(&rt, rt.alloc(), place));
        }
    });
}

/// Frames of version Two, without the channel's number behind the first digit, and the kind of end
/// that each concerns. A limit on receiving concerns none.
const FRAMES: [(&str, &str, &str); 7] = [
    ("2", "00000005", " sending"),
    ("4", "00000002", " sending"),
    ("1", "000000026869", " receiving"),
    ("3", "00000001", " receiving"),
    ("5", "0000000000000009", " receiving"),
    ("7", "", " receiving"),
    ("6", "0000000000000009", ""),
];

// A stream of version Two with this frame alone.
fn stream_of(alloc: Global, kind: &str, at: &str, rest: &str) -> Option<String> {
    ["4c434d02", kind, at, rest].concat(alloc).ok()
}

// The frame comes once guarantees were issued. A limit on receiving comes before any.
fn script_of(alloc: Global, concerns: &str, at: &str) -> Option<String> {
    if concerns.is_empty() {
        return String::from_str(alloc, "read => ()\nwho => told").ok();
    }
    [
        "issue ",
        at,
        " 4 => Ok(())\nread => ()\nwho => told",
        concerns,
        " ",
        at,
    ]
    .concat(alloc)
    .ok()
}

// A frame on this channel tells the end that it concerns, and no other.
fn tells<R>(rt: &R, alloc: Global, at: Channel, frame: (&str, &str, &str)) -> Option<()>
where
    R: Threads + Wait + Abort + Sync,
{
    let (kind, rest, concerns) = frame;
    let at = text(alloc, &at.number())?;
    let digits = stream_of(alloc, kind, at.as_str(), rest)?;
    let script = script_of(alloc, concerns, at.as_str())?;
    play(rt, alloc, Version::One, 4, digits.as_str(), script.as_str())
}

#[test]
fn a_frame_tells_the_end_that_it_concerns(rt: HostRuntime) {
    in_time(&rt, || {
        for at in Channel::ALL {
            for &frame in &FRAMES {
                ran(&rt, tells(&rt, rt.alloc(), at, frame));
            }
        }
    });
}
