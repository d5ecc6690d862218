//! What ends do whose peer has ended its stream: what they hold guarantees for still goes out, and what
//! arrived is still taken.
use crate::tests::sides::{Side, new_side};
use crate::tests::staged::in_time;
use crate::tests::{equal, ran};
use lc_book::Refusal;
use lc_driver::{Counted, ReadEnd};
use lc_peer::Take;
use lc_session::{ReadPump, SendEnd, Session, WriteEnd, WritePump};
use lc_wake::Wake;
use std::alloc::Global;
use std::process::Abort;
use std::sync::Wait;
use std::thread::{Threads, join};
use test_devices::{Pipe, PipeWriter, Plan};

/// How many messages of four bytes are held guarantees for, and the frame of their Issue.
const MESSAGES: u32 = 2_000;

const ISSUED: [u8; 5] = [0x21, 0, 0, 0x1f, 0x40];

/// The bytes of a frame of each: its channel, its length and the message.
const FRAME: usize = 7;

// All of a peer's stream arrives, and it ends between two frames.
fn read<R: Wait + Abort>(rt: &R, pump: &mut ReadPump, stream: &[u8]) {
    let end = pump.run(rt, &mut Counted::new(stream), u64::MAX);
    equal(rt, "a reading pump", end, ReadEnd::Clean);
}

// Sends a message as the examples do, and waits where it is refused. Whether it was sent.
fn send<R: Wait>(rt: &R, end: &mut SendEnd, body: &[u8]) -> bool {
    for _ in rt.forever() {
        match end.send(rt, body) {
            Ok(()) => return true,
            Err(Refusal::NoGuarantee { .. } | Refusal::QueueFull) => match end.wait(rt) {
                Wake::Again => {}
                Wake::Over => return false,
            },
            Err(_) => return false,
        }
    }
    unreachable!()
}

// Sends as many messages as there are guarantees for, and stops the session.
fn send_all<R: Wait + Abort>(rt: &R, end: &mut SendEnd, session: &Session) {
    let mut sent = 0u32;
    for number in 0..=MESSAGES {
        if !send(rt, end, &number.to_be_bytes()) {
            break;
        }
        sent = sent.saturating_add(1);
    }
    session.stop();
    equal(rt, "messages sent", sent, MESSAGES);
}

fn write<R: Wait + Abort>(rt: &R, alloc: Global, pump: &mut WritePump) {
    let pipe = Pipe::of(Vec::new(alloc));
    let mut writer = Counted::new(PipeWriter::new(Plan::whole(), pipe));
    let end = pump.run(rt, &mut writer);
    let written = writer.into_inner().pipe.bytes.len();
    let wanted = FRAME.saturating_mul(MESSAGES as usize);
    equal(
        rt,
        "what is written",
        (end, written),
        (WriteEnd::Stopped, wanted),
    );
}

// One thread sends, and another one writes.
fn send_and_write<R>(
    rt: &R,
    alloc: Global,
    session: &Session,
    end: &mut SendEnd,
    pump: &mut WritePump,
)
where
    R: Threads + Wait + Abort + Sync,
{
    join(rt, || send_all(rt, end, session), || write(rt, alloc, pump));
}

fn send_behind_the_end<R>(rt: &R, alloc: Global) -> Option<()>
where
    R: Threads + Wait + Abort + Sync,
{
    let (session, mut ends, mut pumps) = new_side(alloc, 8, 4)?.apart();
    read(rt, &mut pumps.reading, &ISSUED);
    let end = &mut ends.sending[1];
    send_and_write(rt, alloc, &session, end, &mut pumps.writing);
    Some(())
}

#[test]
fn all_is_sent_that_is_held_where_the_peer_has_ended(rt: HostRuntime) {
    in_time(&rt, || ran(&rt, send_behind_the_end(&rt, rt.alloc())));
}

// A message of two bytes is refused for want of guarantees until they have come, with the end of the stream.
fn wait_to_send<R: Wait + Abort>(rt: &R, side: &mut Side) {
    let end = &mut side.ends.sending[1];
    let refused = end.send(rt, b"hi");
    equal(rt, "a send", refused, Err(Refusal::NoGuarantee { held: 0 }));
    read(rt, &mut side.pumps.reading, &[0x21, 0, 0, 0, 3]);
    let found = (end.wait(rt), end.send(rt, b"hi"));
    equal(rt, "a send", found, (Wake::Again, Ok(())));
    let refused = end.send(rt, b"hi");
    equal(rt, "a send", refused, Err(Refusal::NoGuarantee { held: 1 }));
    equal(rt, "a wait", end.wait(rt), Wake::Over);
}

// A message is taken that came with the end of the stream.
fn wait_to_take<R: Wait + Abort>(rt: &R, side: &mut Side) {
    let end = &mut side.ends.receiving[1];
    let mut buffer = [0; 2];
    equal(rt, "an issue", end.issue(rt, 8), Ok(()));
    let took = end.take_into(rt, &mut buffer);
    equal(rt, "a take", took, Ok(Take::Empty));
    read(rt, &mut side.pumps.reading, &[0x11, 0, 2, b'h', b'i']);
    let found = (end.wait(rt), end.take_into(rt, &mut buffer));
    equal(rt, "a take", found, (Wake::Again, Ok(Take::Took(2))));
    let took = end.take_into(rt, &mut buffer);
    equal(rt, "a take", took, Ok(Take::Empty));
    equal(rt, "a wait", end.wait(rt), Wake::Over);
}

fn wait_at_the_end<R: Wait + Abort>(rt: &R, alloc: Global) -> Option<()> {
    wait_to_send(rt, &mut new_side(alloc, 8, 4)?);
    wait_to_take(rt, &mut new_side(alloc, 8, 4)?);
    Some(())
}

#[test]
fn no_wait_is_over_before_what_came_is_found(rt: HostRuntime) {
    in_time(&rt, || ran(&rt, wait_at_the_end(&rt, rt.alloc())));
}
