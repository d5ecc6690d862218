//! Scripts of calls on one side of a session: a call a line, and after `=>` what it answers.
use crate::tests::failing_link::FailingLink;
use crate::tests::same;
use lc_driver::{Link, ReadEnd};
use lc_frame::{Channel, Version};
use lc_peer::{FrameHead, Peer, Stop, Take};
use std::alloc::Global;
use std::mem::replace;
use std::process::Abort;
use test_devices::{Pipe, Plan, channel, number, plan_of, text};

// What the first message of a channel is.
fn take(alloc: Global, link: &mut Link, at: Channel) -> Option<String> {
    let mut buffer = [0; 64];
    match link.peer.take_into(at, &mut buffer) {
        Ok(Take::Took(len)) => hex::encode(alloc, buffer.get(..len as usize).unwrap_or(&[])).ok(),
        other => text(alloc, &other),
    }
}

fn write(alloc: Global, side: &mut FailingLink, plan: &str) -> Option<String> {
    let (answer, writer) = side.write(plan_of(plan)?, Pipe::of(Vec::new(alloc)));
    let bytes = hex::encode(alloc, &writer.pipe.bytes).ok()?;
    let calls = writer.plan.calls;
    let (pending, waiting) = (side.link.pending(), side.link.peer.waiting());
    format!(in alloc; "{answer:?} {bytes} calls {calls} pending {pending} waiting {waiting}").ok()
}

// What an own call answers.
fn own(alloc: Global, link: &mut Link, verb: &str, at: Channel, last: &str) -> Option<String> {
    let answer = match verb {
        "issue" => link.peer.issue(at, last.parse::<u32>().ok()?),
        "send" => link.peer.send(at, &hex::decode(alloc, last).ok()?),
        "finish" => link.peer.finish(at),
        _ => return None,
    };
    text(alloc, &answer)
}

// What a call on a channel answers.
fn on_channel(alloc: Global, link: &mut Link, verb: &str, rest: &str) -> Option<String> {
    let (first, last) = rest.split_once(' ').unwrap_or((rest, ""));
    let at = channel(first)?;
    match verb {
        "take" => take(alloc, link, at),
        "client" => client(alloc, &link.peer, at),
        "server" => server(alloc, &link.peer, at),
        _ => own(alloc, link, verb, at, last),
    }
}

// What the call of a line answers. The input is kept from one read to the next.
fn answer(alloc: Global, side: &mut FailingLink, input: &mut Pipe, call: &str) -> Option<String> {
    let (verb, rest) = call.split_once(' ').unwrap_or((call, ""));
    match verb {
        "write" => write(alloc, side, rest),
        "read" | "count" => read(alloc, side, input, verb, rest),
        "offending" => offending(alloc, &side.link),
        _ => on_channel(alloc, &mut side.link, verb, rest),
    }
}

// How much came since the last whole frame, and what is wrong with it.
fn offending(alloc: Global, link: &Link) -> Option<String> {
    let begun = link.begun();
    match (link.offending(), link.stop()) {
        (Some(head), Some(Stop::Violated(violation))) => {
            let FrameHead { kind, number, .. } = head;
            let allowed = link.peer.allowed(head.channel, violation);
            let at = head.channel.number();
            format!(in alloc; "begun {begun} {kind:?} {at} {number:?} of {allowed:?}").ok()
        }
        (head, _) => {
            let byte = link.bad_byte();
            format!(in alloc; "begun {begun} {head:?} {byte:?}").ok()
        }
    }
}

fn client(alloc: Global, peer: &Peer, at: Channel) -> Option<String> {
    let book = peer.client(at);
    let (held, left) = (book.held(), book.receive_left());
    format!(in alloc; "held {held} {left:?}").ok()
}

fn server(alloc: Global, peer: &Peer, at: Channel) -> Option<String> {
    let book = peer.server(at);
    let (outstanding, buffered) = (book.outstanding(), book.buffered());
    let left = book.send_left();
    format!(in alloc; "outstanding {outstanding} buffered {buffered} {left:?}").ok()
}

// How a reading ends, and how many reads it made. What it leaves of the input stays there.
fn read_on(
    alloc: Global,
    side: &mut FailingLink,
    input: &mut Pipe,
    plan: Plan,
    max_reads: u64,
) -> (ReadEnd, u64) {
    let empty = Pipe::of(Vec::new(alloc));
    let (end, reader) = side.read(plan, replace(input, empty), max_reads);
    *input = reader.pipe;
    (end, reader.plan.calls)
}

fn read(
    alloc: Global,
    side: &mut FailingLink,
    input: &mut Pipe,
    verb: &str,
    rest: &str,
) -> Option<String> {
    let (max_reads, plan) = rest.split_once(' ')?;
    let (end, calls) = read_on(alloc, side, input, plan_of(plan)?, number(max_reads)?);
    match verb {
        "count" => format!(in alloc; "{end:?} calls {calls}").ok(),
        _ => text(alloc, &end),
    }
}

// Each call of a script, in turn, answers what stands after it.
fn answers(rt: &impl Abort, alloc: Global, side: &mut FailingLink, input: &mut Pipe, script: &str) {
    for line in script.lines() {
        let line = line.trim();
        let (call, wanted) = line.split_once(" => ").unwrap_or((line, "an answer"));
        same(rt, call, answer(alloc, side, input, call), wanted);
    }
}

/// A new side that writes this version, whose input are the bytes of these digits, answers each line of
/// a script as it says. `None` where there is none.
pub fn run(
    rt: &impl Abort,
    alloc: Global,
    version: Version,
    digits: &str,
    script: &str,
) -> Option<()> {
    let mut input = Pipe::of(hex::decode(alloc, digits).ok()?);
    let mut side = FailingLink::new(alloc, version, 8, 4).ok()?;
    answers(rt, alloc, &mut side, &mut input, script);
    Some(())
}
