//! What ends do in threads of their own, while both pumps run: they wait where they can do nothing else.
use crate::tests::equal;
use lc_book::Refusal;
use lc_peer::Take;
use lc_session::{RecvEnd, SendEnd};
use lc_wake::Wake;
use std::process::Abort;
use std::sync::Wait;

/// Waits until something came.
pub fn wait_to_send<R: Wait + Abort>(rt: &R, end: &mut SendEnd) {
    equal(rt, "a wait to send", end.wait(rt), Wake::Again);
}

/// And so does one that receives.
pub fn wait_to_take<R: Wait + Abort>(rt: &R, end: &mut RecvEnd) {
    equal(rt, "a wait to take", end.wait(rt), Wake::Again);
}

/// Sends a message as soon as it can.
pub fn send<R: Wait + Abort>(rt: &R, end: &mut SendEnd, body: &[u8]) {
    for _ in rt.forever() {
        match end.send(rt, body) {
            Ok(()) => return,
            Err(Refusal::NoGuarantee { held: _ } | Refusal::QueueFull) => wait_to_send(rt, end),
            answer => equal(rt, "a send", answer, Ok(())),
        }
    }
}

/// Issues an amount as soon as it can.
pub fn issue<R: Wait + Abort>(rt: &R, end: &mut RecvEnd, n: u32) {
    for _ in rt.forever() {
        match end.issue(rt, n) {
            Ok(()) => return,
            answer => equal(rt, "an issue", answer, Err(Refusal::QueueFull)),
        }
        wait_to_take(rt, end);
    }
}

/// Takes the next message, which has to be this one, as soon as it is there.
pub fn take<R: Wait + Abort>(rt: &R, end: &mut RecvEnd, due: &[u8]) {
    let mut buffer = [0; 16];
    for _ in rt.forever() {
        match end.take_into(rt, &mut buffer) {
            Ok(Take::Took(len)) => {
                equal(rt, "a message", buffer.get(..len), Some(due));
                return;
            }
            answer => equal(rt, "a take", answer, Ok(Take::Empty)),
        }
        wait_to_take(rt, end);
    }
}

/// Waits until the other side sends no more.
pub fn await_end<R: Wait + Abort>(rt: &R, end: &mut RecvEnd) {
    for _ in rt.forever() {
        match end.take_into(rt, &mut []) {
            Ok(Take::Ended) => return,
            answer => equal(rt, "a take", answer, Ok(Take::Empty)),
        }
        wait_to_take(rt, end);
    }
}
