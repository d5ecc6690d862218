//! Runs what threads share under load. The arguments are words, each followed by a number:
//! `queue FRAMES` sends that many frames through each lane of a queue, `credits ROUNDS` gives that many
//! rounds of guarantees to the senders of seven channels, which use them up, and `inbox MESSAGES` stores
//! that many messages in an inbox in one thread and receives them in another.
//!
//! `ends ROUNDS`, `pump ROUNDS`, `both ROUNDS` and `over ROUNDS` have the threads of a session wait for
//! each other that often: a handle for a pump, the writing pump for a handle, all handles and the pump
//! for each other, and a handle for the end of a pump's run. `slot ROUNDS` and `slots ROUNDS` are like
//! `both`, over one slot and over 64, where some handles wait with a timeout, and some soon stop waiting
//! for good.
//!
//! `finishes MESSAGES` sends that many messages each way through each channel of two sessions, finishes
//! all channels after the last message, and receives until each has ended.
//!
//! `beside MESSAGES` sends that many messages through each of six channels beside one whose handles are
//! slow, over one slot and over 64, and reports whether a message took longer than a minute.
//! `turns SCHEDULES` runs the handles and the writing pump of a session through that many generated
//! schedules, and reports whether more frames passed a frame than the bound allows.
//!
//! `lanes SLOTS` makes a queue, and `inboxes SLOTS` seven inboxes over one, which then end: both report
//! whether there was memory.
#![tactic(auto)]

mod beside;
mod turns;
mod waking;

use crate::beside::longest_beside;
use crate::turns::go_in_turn;
use crate::waking::{Load, wakes_all, wakes_at_ends};
use lc_frame::{CHANNELS, Version};
use lc_loopback::{LoopFault, loopback_as};
use lc_queue::LanesFault;
use std::alloc::{AllocError, Global};
use std::fs::Files;
use std::net::Net;
use std::sync::Wait;
use std::thread::Threads;
use std::time::Clock;
use std::{env, io};
use test_parts::{finished_inboxes, joined_queue};
use test_threads::{balances_agree, keeps_order, takes_what_arrives};

/// The slots through which fourteen threads push.
const SLOTS: u32 = 4;

/// The bytes of each ring.
const CAPACITY: u32 = 8;

/// The milliseconds from which on a message was late.
const LATE: u64 = 60_000;

fn run_queue<R>(rt: R, alloc: Global, frames: u32) -> &'static str
where
    R: Threads + Wait + Copy + Send + 'static,
{
    match keeps_order(rt, alloc, SLOTS, frames) {
        Ok(true) => "each lane in order",
        Ok(false) => "a lane lost its order",
        Err(LanesFault::BadSlots) => "bad slots",
        Err(LanesFault::OutOfMemory) => "out of memory",
    }
}

fn run_credits<R: Threads + Sync>(rt: &R, alloc: Global, rounds: u32) -> &'static str {
    match balances_agree(rt, alloc, rounds) {
        Ok(true) => "each balance agrees",
        Ok(false) => "a balance is wrong",
        Err(AllocError) => "out of memory",
    }
}

fn run_inbox<R: Threads + Wait + Sync>(rt: &R, alloc: Global, messages: u32) -> &'static str {
    match takes_what_arrives(rt, alloc, messages) {
        Ok(true) => "each message in place",
        Ok(false) => "a message was lost",
        Err(AllocError) => "out of memory",
    }
}

// What it is that waits in a session, by the word for it.
fn load_of(what: &str, rounds: u32) -> Load {
    let (capacity, slots, channels, mixed) = match what {
        // A ring of one message: its sender waits for guarantees, and its taker for the message.
        "ends" => (4, 16, 1, false),
        // One slot: the pump waits for a frame, and who puts one for the slot.
        "pump" => (1 << 16, 1, 1, false),
        // Both, on all channels.
        "both" => (4, 1, CHANNELS, false),
        // The same with room for several messages.
        "slot" => (16, 1, CHANNELS, true),
        // Many frames at a time.
        _ => (64, 64, CHANNELS, true),
    };
    Load {
        capacity,
        slots,
        channels,
        messages: rounds / channels as u32,
        mixed,
    }
}

fn waked(answer: Option<bool>) -> &'static str {
    match answer {
        Some(true) => "all were woken",
        Some(false) => "some gave up",
        None => "no session",
    }
}

fn finish_channels<N, R>(net: &N, rt: R, alloc: Global, messages: u32) -> &'static str
where
    N: Net,
    N::Stream: Send + 'static,
    R: Threads + Wait + Copy + Send + 'static,
{
    match loopback_as(net, rt, alloc, messages, [Version::Two; 2]) {
        Ok(_) => "each channel ended",
        Err(LoopFault::OutOfMemory) => "out of memory",
        Err(_) => "a channel did not end",
    }
}

fn go_beside<R, F>(rt: &R, files: &F, alloc: Global, messages: u32) -> &'static str
where
    R: Threads + Wait + Clock + Sync,
    F: Files,
{
    for slots in [1, 64] {
        match longest_beside(rt, files, alloc, slots, messages) {
            Some(longest) if longest < LATE => {}
            Some(_) => return "one was late",
            None => return "some did not arrive",
        }
    }
    "none was late"
}

fn took_turns(answer: Option<bool>) -> &'static str {
    match answer {
        Some(true) => "each frame in turn",
        Some(false) => "a frame was passed too often",
        None => "no session",
    }
}

fn end_inboxes(alloc: Global, slots: u32) -> &'static str {
    match finished_inboxes(alloc, CAPACITY, slots) {
        Some(_) => "made and ended",
        None => "out of memory",
    }
}

fn end_lanes(alloc: Global, slots: u32) -> &'static str {
    match joined_queue(alloc, slots) {
        Ok(_) => "made and ended",
        Err(LanesFault::BadSlots) => "bad slots",
        Err(LanesFault::OutOfMemory) => "out of memory",
    }
}

// What the program says of so many rounds, if it knows the word.
fn answer_to<R, H>(rt: R, host: &H, alloc: Global, what: &str, count: u32) -> &'static str
where
    R: Threads + Wait + Clock + Copy + Send + Sync + 'static,
    H: Files + Net,
    H::Stream: Send + 'static,
{
    match what {
        "queue" => run_queue(rt, alloc, count),
        "credits" => run_credits(&rt, alloc, count),
        "inbox" => run_inbox(&rt, alloc, count),
        "lanes" => end_lanes(alloc, count),
        "inboxes" => end_inboxes(alloc, count),
        "ends" | "pump" | "both" | "slot" | "slots" => {
            waked(wakes_all(&rt, host, alloc, load_of(what, count)))
        }
        "over" => waked(wakes_at_ends(&rt, host, alloc, count)),
        "finishes" => finish_channels(host, rt, alloc, count),
        "beside" => go_beside(&rt, host, alloc, count),
        "turns" => took_turns(go_in_turn(&rt, alloc, count)),
        _ => "not known",
    }
}

fn main(rt: HostRuntime) -> io::Result<()> {
    let mut word = None;
    for argument in env::args(&rt)?.skip(1) {
        let Some(what) = word.replace(argument) else {
            continue;
        };
        let text = word.take().unwrap_or(String::new(rt.alloc()));
        let count = text.parse::<u32>().unwrap_or(0);
        let answer = answer_to(rt, &rt, rt.alloc(), what.as_str(), count);
        println!(rt; "{what}: {answer}")?;
    }
    Ok(())
}
