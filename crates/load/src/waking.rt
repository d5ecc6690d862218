//! Sessions whose waits are what is tried. What a session writes goes through a pipe of the system
//! to its own reading pump, so that its ends are at both sides of the stream.
ghost use Rattle.std.specs.Prelude.{◌≡◌, ℕ, ◌<◌, length, slice_index_or};
ghost use Rattle.std.specs.List.{AllZip};
ghost use Rattle.lc_inbox.specs.Sides.{InboxSide, IsSameSide};
ghost use Rattle.lc_outbox.specs.Outbox.{OutboxState, IsSameOutbox};
ghost use Rattle.lc_session.specs.Parts.{state_of};
ghost use Rattle.lc_session.specs.Pumping.{IsSamePump};
ghost use Rattle.lc_session.specs.Heard.{HearsMore};
ghost use Rattle.lc_session.specs.Report.{AreOfOneSession};

use lc_book::Refusal;
use lc_driver::{Counted, ReadEnd};
use lc_frame::{CHANNELS, Channel, FrameRef, Version};
use lc_peer::{Config, Take};
use lc_session::{Parts, ReadPump, RecvEnd, Report, SendEnd, Session, WritePump, finish};
use lc_wake::Wake;
use std::alloc::Global;
use std::fs::Files;
use std::io::{PipeReader, PipeWriter, Write, pipe};
use std::sync::Wait;
use std::thread;
use std::thread::{Threads, join};
use std::time::{Clock, Duration};

/// The bytes of a message.
const MESSAGE: [u8; 4] = [7; 4];

/// A session that is tried: the bytes of its rings, its slots, and how many messages go through each
/// of how many channels.
#[derive(Clone, Copy)]
pub struct Load {
    pub capacity: u32,
    pub slots: u32,
    pub channels: usize,
    pub messages: u32,
    /// Whether the ends of some channels wait with a timeout, and those of some have little to do and
    /// then never wait again.
    pub mixed: bool,
}

/// How many microseconds a wait with a timeout lasts at most.
const SHORT: u64 = 200;

/// What an end does: so many messages, and how it waits.
#[derive(Clone, Copy)]
struct Job {
    messages: u32,
    waits_shortly: bool,
}

impl Load {
    // How many messages go through a channel.
    fn messages_on(self, channel: usize) -> u32 {
        if channel >= self.channels {
            0
        } else if self.mixed && channel % 3 == 2 {
            self.messages / 4
        } else {
            self.messages
        }
    }

    fn job_on(self, channel: usize) -> Job {
        Job {
            messages: self.messages_on(channel),
            waits_shortly: self.mixed && channel % 3 == 1,
        }
    }
}

// Waits until something may have come.
fn wait_to_send<R: Wait + Clock>(rt: &R, end: &mut SendEnd, job: Job) -> Wake
    ensures { end.new ≡ end.old }
{
    if job.waits_shortly {
        end.wait_timeout(rt, Duration::from_micros(SHORT))
    } else {
        end.wait(rt)
    }
}

fn wait_to_take<R: Wait + Clock>(rt: &R, end: &mut RecvEnd, job: Job) -> Wake
    ensures { end.new ≡ end.old }
{
    if job.waits_shortly {
        end.wait_timeout(rt, Duration::from_micros(SHORT))
    } else {
        end.wait(rt)
    }
}

// Sends its messages, and waits wherever one is refused.
fn send_all<R: Wait + Clock>(rt: &R, end: &mut SendEnd, job: Job)
    ensures { IsSameOutbox end.old end.new }
{
    let mut left = job.messages;
    for _ in rt.forever() {
        if left == 0 {
            return;
        }
        match end.send(rt, &MESSAGE) {
            Ok(()) => left -= 1,
            Err(_) => match wait_to_send(rt, end, job) {
                Wake::Again => {}
                Wake::Over => return,
            },
        }
    }
}

// Issues so much, as soon as a slot is free. Whether it did.
fn issue<R: Wait + Clock>(rt: &R, end: &mut RecvEnd, amount: u32, job: Job) -> bool
    ensures { IsSameSide end.old end.new }
{
    for _ in rt.forever() {
        match end.issue(rt, amount) {
            Ok(()) => return true,
            Err(Refusal::QueueFull) => match wait_to_take(rt, end, job) {
                Wake::Again => {}
                Wake::Over => return false,
            },
            Err(_) => return false,
        }
    }
    unreachable!()
}

// Takes a message as soon as one comes, and issues its bytes anew. Whether it did.
fn take<R: Wait + Clock>(rt: &R, end: &mut RecvEnd, job: Job) -> bool
    ensures { IsSameSide end.old end.new }
{
    let mut buffer = MESSAGE;
    for _ in rt.forever() {
        match end.take_into(rt, &mut buffer) {
            Ok(Take::Took(len)) => return issue(rt, end, len as u32, job),
            Ok(_) => match wait_to_take(rt, end, job) {
                Wake::Again => {}
                Wake::Over => return false,
            },
            Err(_) => return false,
        }
    }
    unreachable!()
}

// Takes its messages.
fn take_all<R: Wait + Clock>(rt: &R, end: &mut RecvEnd, capacity: u32, job: Job)
    ensures { IsSameSide end.old end.new }
{
    let messages = job.messages;
    let mut goes_on = issue(rt, end, capacity, job);
    for _ in 0..messages {
        if goes_on {
            goes_on = take(rt, end, job);
        }
    }
}

// Each sending end in a thread of its own.
fn send_each<R: Threads + Wait + Clock + Sync>(rt: &R, ends: &mut [SendEnd; CHANNELS], load: Load)
    ensures len { length ends.new ≡ length ends.old }
    ensures same { (k : ℕ) (d : OutboxState) → k < length ends.old → IsSameOutbox (slice_index_or ends.old k d) (slice_index_or ends.new k d) }
{
    thread::for_each_mut(
        rt,
        ends,
        CHANNELS,
        &|at, end| send_all(rt, end, load.job_on(at)),
    );
}

// And each receiving end.
fn take_each<R: Threads + Wait + Clock + Sync>(rt: &R, ends: &mut [RecvEnd; CHANNELS], load: Load)
    ensures len { length ends.new ≡ length ends.old }
    ensures same { (k : ℕ) (d : InboxSide) → k < length ends.old → IsSameSide (slice_index_or ends.old k d) (slice_index_or ends.new k d) }
{
    thread::for_each_mut(
        rt,
        ends,
        CHANNELS,
        &|at, end| { take_all(rt, end, load.capacity, load.job_on(at)) },
    );
}

fn send_meanwhile<R>(rt: &R, mut ends: [SendEnd; CHANNELS], load: Load) -> [SendEnd; CHANNELS]
where
    R: Threads + Wait + Clock + Sync,
    ensures { AllZip IsSameOutbox ends result }
{
    send_each(rt, &mut ends, load);
    ends
}

fn take_meanwhile<R>(rt: &R, mut ends: [RecvEnd; CHANNELS], load: Load) -> [RecvEnd; CHANNELS]
where
    R: Threads + Wait + Clock + Sync,
    ensures { AllZip IsSameSide ends result }
{
    take_each(rt, &mut ends, load);
    ends
}

// All ends at work, and then the session is stopped.
fn use_ends<R: Threads + Wait + Clock + Sync>(
    rt: &R,
    session: &Session,
    sending: [SendEnd; CHANNELS],
    receiving: [RecvEnd; CHANNELS],
    load: Load,
) -> ([SendEnd; CHANNELS], [RecvEnd; CHANNELS])
    ensures sending { AllZip IsSameOutbox sending result.0 }
    ensures receiving { AllZip IsSameSide receiving result.1 }
{
    let ends = join(
        rt,
        || -> [SendEnd; CHANNELS]
            ensures { AllZip IsSameOutbox sending result }
        { send_meanwhile(rt, sending, load) },
        || -> [RecvEnd; CHANNELS]
            ensures { AllZip IsSameSide receiving result }
        { take_meanwhile(rt, receiving, load) },
    );
    session.stop();
    ends
}

// Writes until the session is stopped. The writer goes then, which ends the stream.
fn write_all_out<R: Wait>(rt: &R, mut pump: WritePump, writer: PipeWriter) -> WritePump
    ensures { IsSamePump pump result }
{
    let _end = pump.run(rt, &mut Counted::new(writer));
    pump
}

// Reads until the stream ends.
fn read_all<R: Wait>(rt: &R, mut pump: ReadPump, reader: PipeReader) -> ReadPump
    ensures { HearsMore pump result }
{
    let _end = pump.run(rt, &mut Counted::new(reader), u64::MAX);
    pump
}

// Both pumps at work.
fn use_pumps<R: Threads + Wait + Clock + Sync>(
    rt: &R,
    reading: ReadPump,
    reader: PipeReader,
    writing: WritePump,
    writer: PipeWriter,
) -> (ReadPump, WritePump)
    ensures reading { HearsMore reading result.0 }
    ensures writing { IsSamePump writing result.1 }
{
    join(
        rt,
        || -> ReadPump
            ensures { HearsMore reading result }
        { read_all(rt, reading, reader) },
        || -> WritePump
            ensures { IsSamePump writing result }
        { write_all_out(rt, writing, writer) },
    )
}

// All parts of a session at work.
fn use_all<R: Threads + Wait + Clock + Sync>(
    rt: &R,
    parts: Parts,
    reader: PipeReader,
    writer: PipeWriter,
    load: Load,
) -> Parts
    requires { AreOfOneSession (state_of parts) }
    ensures { AreOfOneSession (state_of result) }
{
    let Parts {
        session,
        send_ends,
        recv_ends,
        read_pump,
        write_pump,
    } = parts;
    let (pumps, ends) = join(
        rt,
        || -> (ReadPump, WritePump)
            ensures { HearsMore read_pump result.0 × IsSamePump write_pump result.1 }
        { use_pumps(rt, read_pump, reader, write_pump, writer) },
        || -> ([SendEnd; CHANNELS], [RecvEnd; CHANNELS])
            ensures { AllZip IsSameOutbox send_ends result.0 × AllZip IsSameSide recv_ends result.1 }
        { use_ends(rt, &session, send_ends, recv_ends, load) },
    );
    Parts {
        session,
        send_ends: ends.0,
        recv_ends: ends.1,
        read_pump: pumps.0,
        write_pump: pumps.1,
    }
}

// Whether so many messages went through each of so many channels.
fn is_whole(report: &Report, load: Load) -> bool {
    let mut whole = report.left == 0;
    for (channel, client) in report.clients.iter().enumerate() {
        let bytes = u64::from(load.messages_on(channel)) * MESSAGE.len() as u64;
        whole &= client.spent == bytes;
    }
    whole
}

/// Whether all messages of a session go through while its ends and its writing pump wait for each
/// other. Where a wake-up is lost there is no answer.
pub fn wakes_all<R: Threads + Wait + Clock + Sync>(
    rt: &R,
    files: &impl Files,
    alloc: Global,
    load: Load,
) -> Option<bool> {
    let Load {
        capacity,
        slots,
        ..
    } = load;
    let config = Config {
        version: Version::One,
        capacities: [capacity; CHANNELS],
        slots,
    };
    let parts = Session::new(alloc, config).ok()?;
    let (reader, writer) = pipe(files).ok()?;
    let parts = use_all(rt, parts, reader, writer, load);
    Some(is_whole(&finish(rt, parts), load))
}

// Reads once in each run, until the stream ends.
fn read_in_runs<R: Wait>(rt: &R, pump: &mut ReadPump, reader: PipeReader) {
    let mut reader = Counted::new(reader);
    for _ in rt.forever() {
        match pump.run(rt, &mut reader, 1) {
            ReadEnd::TurnsSpent => {}
            _ => return,
        }
    }
}

// Writes a frame that concerns no end, and then waits for the end of the run that reads it; and so
// in each round. How often it waited.
fn wait_for_runs<R: Wait>(rt: &R, end: &mut SendEnd, mut writer: PipeWriter, rounds: u32) -> u32 {
    let frame = FrameRef::LimitReceiving {
        channel: Channel::Data,
        bound: 0,
    };
    let mut buffer = [0; 16];
    let Ok(len) = frame.encode_to_slice(Version::One, &mut buffer) else {
        return 0;
    };
    for round in 0..rounds {
        if writer.write_all(&buffer[..len]).is_err() {
            return round;
        }
        let _wake = end.wait(rt);
    }
    rounds
}

/// Whether an end that waits is woken by the end of a run, as often as this.
pub fn wakes_at_ends<R: Threads + Wait + Clock + Sync>(
    rt: &R,
    files: &impl Files,
    alloc: Global,
    rounds: u32,
) -> Option<bool> {
    let config = Config {
        version: Version::One,
        capacities: [1; CHANNELS],
        slots: 1,
    };
    let parts = Session::new(alloc, config).ok()?;
    let (reader, writer) = pipe(files).ok()?;
    let Parts {
        mut send_ends,
        mut read_pump,
        ..
    } = parts;
    let end = &mut send_ends[0];
    let ((), waited) = join(
        rt,
        || read_in_runs(rt, &mut read_pump, reader),
        || wait_for_runs(rt, end, writer, rounds),
    );
    Some(waited == rounds)
}
