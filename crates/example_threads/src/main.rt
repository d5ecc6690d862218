//! Two sessions in one process, over two pipes of the system: Alice sends on one channel, and Bob
//! receives. Each pump and each handle has a thread of its own.
//!
//! This program has the threads of both sides, so the contract of `exchange` says what the two sessions
//! keep together, by `lc_interleaving::finish_both`.
#![tactic(auto)]

ghost use Rattle.std.specs.Prelude.{◌≡◌, IfOk};
ghost use Rattle.std.specs.List.{AllZip};
ghost use Rattle.lc_inbox.specs.Sides.{IsSameSide};
ghost use Rattle.lc_outbox.specs.Outbox.{IsSameOutbox};
ghost use Rattle.lc_session.specs.Heard.{HearsMore};
ghost use Rattle.lc_session.specs.Parts.{state_of};
ghost use Rattle.lc_session.specs.Played.{HasPlayed};
ghost use Rattle.lc_session.specs.Pumping.{IsSamePump};
ghost use Rattle.lc_session.specs.Session.{IsNewSession};
ghost use Rattle.example_threads.specs.Kept.{KeepPromisesOf, session_config};

use anyhow::{Error, anyhow};
use lc_book::Refusal;
use lc_driver::{Counted, Uninterrupted};
use lc_frame::{CHANNELS, Channel, Version};
use lc_interleaving::finish_both;
use lc_peer::{Config, Take};
use lc_session::{Parts, ReadPump, RecvEnd, Report, SendEnd, Session, WritePump};
use lc_wake::Wake;
use std::alloc::Global;
use std::fs::Files;
use std::io::{PipeReader, PipeWriter, pipe};
use std::sync::Wait;
use std::thread::{Threads, join};

/// How many messages go from Alice to Bob: the numbers from 0 on, four bytes each.
const MESSAGES: u32 = 1000;

/// The bytes of each ring.
const CAPACITY: u32 = 64;

/// What a side does on the channel.
#[derive(Clone, Copy)]
enum Role {
    Sends,
    Takes,
}

/// The channel on which they go.
const CHANNEL: Channel = Channel::Data;

/// The ends of each kind.
type Ends = ([SendEnd; CHANNELS], [RecvEnd; CHANNELS]);

// Sends a message, and waits for guarantees or a slot where it is refused for want of one. Whether
// it was sent.
fn send<R: Wait>(rt: &R, end: &mut SendEnd, body: &[u8]) -> bool
    ensures { IsSameOutbox end.old end.new }
{
    for _ in rt.forever() {
        match end.send(rt, body) {
            Ok(()) => return true,
            Err(Refusal::NoGuarantee { .. } | Refusal::QueueFull) => match end.wait(rt) {
                Wake::Again => {}
                Wake::Over => return false,
            },
            Err(_) => return false,
        }
    }
    unreachable!()
}

fn send_all<R: Wait>(rt: &R, end: &mut SendEnd)
    ensures { IsSameOutbox end.old end.new }
{
    let mut goes_on = true;
    for number in 0..MESSAGES {
        goes_on = goes_on && send(rt, end, &number.to_be_bytes());
    }
}

// Promises room, and waits for a slot where there is none. Whether it did.
fn issue<R: Wait>(rt: &R, end: &mut RecvEnd, amount: u32) -> bool
    ensures { IsSameSide end.old end.new }
{
    for _ in rt.forever() {
        match end.issue(rt, amount) {
            Ok(()) => return true,
            Err(Refusal::QueueFull) => match end.wait(rt) {
                Wake::Again => {}
                Wake::Over => return false,
            },
            Err(_) => return false,
        }
    }
    unreachable!()
}

// Takes the message of a number as soon as one comes, and promises its room anew. Whether it did.
fn take<R: Wait>(rt: &R, end: &mut RecvEnd, number: u32) -> bool
    ensures { IsSameSide end.old end.new }
{
    let mut buffer = [0; 4];
    for _ in rt.forever() {
        match end.take_into(rt, &mut buffer) {
            Ok(Take::Took(4)) if buffer == number.to_be_bytes() => return issue(rt, end, 4),
            Ok(Take::Empty) => match end.wait(rt) {
                Wake::Again => {}
                Wake::Over => return false,
            },
            _ => return false,
        }
    }
    unreachable!()
}

fn take_all<R: Wait>(rt: &R, end: &mut RecvEnd)
    ensures { IsSameSide end.old end.new }
{
    let mut goes_on = issue(rt, end, CAPACITY);
    for number in 0..MESSAGES {
        goes_on = goes_on && take(rt, end, number);
    }
}

// A side's part on the channel. When it is done the session is stopped: what is queued is still
// written, and then the side's stream ends. The other side goes on with what it holds and what arrived.
fn use_ends<R: Wait>(rt: &R, session: &Session, ends: Ends, role: Role) -> Ends
    ensures sending { AllZip IsSameOutbox ends.0 result.0 }
    ensures receiving { AllZip IsSameSide ends.1 result.1 }
{
    let (mut sending, mut receiving) = ends;
    match role {
        Role::Sends => send_all(rt, &mut sending[CHANNEL.index()]),
        Role::Takes => take_all(rt, &mut receiving[CHANNEL.index()]),
    }
    session.stop();
    (sending, receiving)
}

// Writes until the session is stopped. The writer goes then, which ends the stream.
fn write_out<R: Wait>(rt: &R, mut pump: WritePump, writer: PipeWriter) -> WritePump
    ensures { IsSamePump pump result }
{
    let _end = pump.run(rt, &mut Counted::new(Uninterrupted::new(writer)));
    pump
}

// Reads until the stream ends. The side's end goes on with what it holds guarantees for.
fn read_in<R: Wait>(rt: &R, mut pump: ReadPump, reader: PipeReader) -> ReadPump
    ensures { HearsMore pump result }
{
    let _end = pump.run(rt, &mut Counted::new(Uninterrupted::new(reader)), u64::MAX);
    pump
}

// Both pumps at work.
fn use_pumps<R: Threads + Wait + Sync>(
    rt: &R,
    pumps: (ReadPump, WritePump),
    reader: PipeReader,
    writer: PipeWriter,
) -> (ReadPump, WritePump)
    ensures reading { HearsMore pumps.0 result.0 }
    ensures writing { IsSamePump pumps.1 result.1 }
{
    let (reading, writing) = pumps;
    join(
        rt,
        || -> ReadPump
            ensures { HearsMore reading result }
        { read_in(rt, reading, reader) },
        || -> WritePump
            ensures { IsSamePump writing result }
        { write_out(rt, writing, writer) },
    )
}

// All parts of a side at work.
fn play<R: Threads + Wait + Sync>(
    rt: &R,
    parts: Parts,
    reader: PipeReader,
    writer: PipeWriter,
    role: Role,
) -> Parts
    ensures { HasPlayed (state_of parts) (state_of result) }
{
    let Parts {
        session,
        send_ends,
        recv_ends,
        read_pump,
        write_pump,
    } = parts;
    let (pumps, ends) = join(
        rt,
        || -> (ReadPump, WritePump)
            ensures { HearsMore read_pump result.0 × IsSamePump write_pump result.1 }
        { use_pumps(rt, (read_pump, write_pump), reader, writer) },
        || -> Ends
            ensures { AllZip IsSameOutbox send_ends result.0 × AllZip IsSameSide recv_ends result.1 }
        { use_ends(rt, &session, (send_ends, recv_ends), role) },
    );
    Parts {
        session,
        send_ends: ends.0,
        recv_ends: ends.1,
        read_pump: pumps.0,
        write_pump: pumps.1,
    }
}

// A new side.
fn new_side(alloc: Global) -> Result<Parts, Error>
    ensures { IfOk result (λ parts. IsNewSession session_config (state_of parts)) }
{
    let config = Config {
        version: Version::One,
        capacities: [CAPACITY; CHANNELS],
        slots: 4,
    };
    match Session::new(alloc, config) {
        Ok(parts) => Ok(parts),
        Err(_) => Err(anyhow!("out of memory")),
    }
}

// All messages go from Alice to Bob. What both sessions leave, Alice's first.
fn exchange<R: Threads + Wait + Sync>(
    rt: &R,
    files: &impl Files,
    alloc: Global,
) -> Result<(Report, Report), Error>
    ensures { IfOk result (λ reports. KeepPromisesOf reports.0 reports.1) }
{
    let (from_bob, to_alice) = pipe(files)?;
    let (from_alice, to_bob) = pipe(files)?;
    let alice = new_side(alloc)?;
    let bob = new_side(alloc)?;
    let (alice, bob) = join(
        rt,
        || -> Parts
            ensures { HasPlayed (state_of alice) (state_of result) }
        { play(rt, alice, from_bob, to_bob, Role::Sends) },
        || -> Parts
            ensures { HasPlayed (state_of bob) (state_of result) }
        { play(rt, bob, from_alice, to_alice, Role::Takes) },
    );
    Ok(finish_both(rt, alice, bob))
}

fn main(rt: HostRuntime) -> Result<(), Error> {
    let (alice, bob) = exchange(&rt, &rt, rt.alloc())?;
    let spent = alice.clients[CHANNEL.index()].spent;
    let room = bob.servers[CHANNEL.index()].room();
    println!(rt;
        "Alice sent {spent} bytes, and {} frames never went out",
        alice.left
    )?;
    println!(rt;
        "Bob has room for {room} bytes more, and {} frames never went out",
        bob.left
    )?;
    Ok(())
}
