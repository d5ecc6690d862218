//! What ends do: those that are held, and the others meanwhile.
use crate::tests::stage::{Gate, Stage};
use crate::tests::way::{Place, Side, Way};
use lc_frame::Lane;
use lc_peer::Take;
use lc_session::{RecvEnd, SendEnd};
use lc_wake::Wake;
use std::process::Abort;
use std::sync::Wait;
use std::time::{Clock, Duration};

/// How many messages go through each direction of a channel beside those that are held.
const MESSAGES: u32 = 1000;

/// The bytes of a message, and of each ring.
const MESSAGE: u32 = 4;

pub const RING: u32 = 64;

/// How many microseconds a wait with a timeout lasts at most.
const SHORT: u64 = 200;

fn wait_to_send<R: Wait + Clock>(rt: &R, end: &mut SendEnd, timed: bool) -> Wake {
    if timed {
        end.wait_timeout(rt, Duration::from_micros(SHORT))
    } else {
        end.wait(rt)
    }
}

fn wait_to_take<R: Wait + Clock>(rt: &R, end: &mut RecvEnd, timed: bool) -> Wake {
    if timed {
        end.wait_timeout(rt, Duration::from_micros(SHORT))
    } else {
        end.wait(rt)
    }
}

// Sends a message as soon as it can. Whether it did.
fn send<R: Wait + Clock>(rt: &R, end: &mut SendEnd, k: u32, timed: bool) -> bool {
    for _ in rt.forever() {
        match end.send(rt, &k.to_be_bytes()) {
            Ok(()) => return true,
            Err(_) => match wait_to_send(rt, end, timed) {
                Wake::Again => {}
                Wake::Over => return false,
            },
        }
    }
    unreachable!()
}

fn issue<R: Wait + Clock>(rt: &R, end: &mut RecvEnd, amount: u32, timed: bool) -> bool {
    for _ in rt.forever() {
        match end.issue(rt, amount) {
            Ok(()) => return true,
            Err(_) => match wait_to_take(rt, end, timed) {
                Wake::Again => {}
                Wake::Over => return false,
            },
        }
    }
    unreachable!()
}

// Takes the next message, which has to be this one. Whether one came.
fn take<R: Wait + Clock + Abort>(rt: &R, end: &mut RecvEnd, k: u32, timed: bool) -> bool {
    let mut buffer = [0; 4];
    for _ in rt.forever() {
        match end.take_into(rt, &mut buffer) {
            Ok(Take::Took(_)) => {
                assert_eq!(rt; u32::from_be_bytes(buffer), k);
                return true;
            }
            _ => match wait_to_take(rt, end, timed) {
                Wake::Again => {}
                Wake::Over => return false,
            },
        }
    }
    unreachable!()
}

// All messages of a channel, or as many as there are until a run ends.
fn send_all<R: Wait + Clock>(stage: &Stage<'_, R>, end: &mut SendEnd) {
    for k in 0..MESSAGES {
        if !send(stage.rt, end, k, stage.way.timed) {
            return;
        }
    }
}

fn take_all<R: Wait + Clock + Abort>(stage: &Stage<'_, R>, end: &mut RecvEnd) {
    let (rt, timed) = (stage.rt, stage.way.timed);
    let mut goes_on = issue(rt, end, RING, timed);
    for k in 0..MESSAGES {
        goes_on = goes_on && take(rt, end, k, timed) && issue(rt, end, MESSAGE, timed);
    }
    if goes_on {
        stage.arrive();
    }
}

// An end is held at its place, where others can do what they like.
fn hold_sender<R: Wait + Clock + Abort>(stage: &Stage<'_, R>, end: &mut SendEnd) {
    let rt = stage.rt;
    stage.mark();
    match stage.way.place {
        Place::ForNews | Place::ForSlot => {
            end.wait_timeout(&Gate::new(&*stage), Duration::from_micros(SHORT));
        }
        Place::Behind => {
            stage.begin();
            end.wait(rt);
            stage.await_open();
        }
        Place::Refused => stage.hold(),
        Place::Between => {
            send(rt, end, 0, stage.way.timed);
            stage.hold();
        }
    }
    stage.has_left();
}

fn hold_taker<R: Wait + Clock + Abort>(stage: &Stage<'_, R>, end: &mut RecvEnd) {
    let (rt, timed) = (stage.rt, stage.way.timed);
    stage.mark();
    match stage.way.place {
        Place::ForNews | Place::ForSlot => {
            end.wait_timeout(&Gate::new(&*stage), Duration::from_micros(SHORT));
        }
        Place::Behind => {
            stage.begin();
            end.wait(rt);
            stage.await_open();
        }
        Place::Refused => stage.hold(),
        Place::Between => {
            issue(rt, end, RING, timed);
            take(rt, end, 0, timed);
            stage.hold();
        }
    }
    stage.has_left();
}

/// What an end does, until it is dropped. One whose messages can't all go, since an end of its direction is
/// held, may have to help that to its place first.
pub fn use_sender<R: Wait + Clock + Abort>(stage: &Stage<'_, R>, side: Side, mut end: SendEnd) {
    let Way { held, place, .. } = stage.way;
    let channel = end.channel();
    if held.has(side, Lane::Client(channel)) {
        hold_sender(stage, &mut end);
        return;
    }
    if place != Place::Between || !held.has(side.other(), Lane::Server(channel)) {
        stage.await_begun();
    }
    send_all(stage, &mut end);
    stage.is_through();
}

pub fn use_taker<R: Wait + Clock + Abort>(stage: &Stage<'_, R>, side: Side, mut end: RecvEnd) {
    let Way { held, place, .. } = stage.way;
    let channel = end.channel();
    if held.has(side, Lane::Server(channel)) {
        hold_taker(stage, &mut end);
        return;
    }
    if place != Place::Between || !held.has(side.other(), Lane::Client(channel)) {
        stage.await_begun();
    }
    take_all(stage, &mut end);
    stage.is_through();
}
