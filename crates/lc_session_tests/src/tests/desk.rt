//! A session in one thread, and the calls of a script on its parts: a call a line, and after `=>` what
//! it answers. The first word names the call, the next the channel of an end. `long` sends so many
//! zeros, and `take` may name the room of its buffer. `read` names how many reads there are at most and
//! the reader's plan, `write` the writer's; `unflushed` writes to one whose first flush fails. After the
//! calls the session ends, and further lines ask its report.
ghost use Rattle.std.specs.Prelude.{IfSome};
ghost use Rattle.lc_outbox.specs.Outbox.{IsSameOutbox};
ghost use Rattle.lc_inbox.specs.Sides.{IsSameSide};
ghost use Rattle.lc_session.specs.Parts.{state_of};
ghost use Rattle.lc_session.specs.Report.{AreOfOneSession};
ghost use Rattle.lc_session.specs.Reading.{IsSameReading};
ghost use Rattle.lc_session_tests.specs.Desks.{StaysOfOne};
ghost use Rattle.std.specs.List.{AllZip};
ghost use Rattle.lc_session.specs.Pumping.{IsSamePump};

use crate::tests::same;
use crate::tests::sides::session;
use crate::tests::ticks::Ticks;
use lc_driver::Counted;
use lc_frame::{CHANNELS, Channel, Version};
use lc_peer::{FrameHead, Take};
use lc_session::{Parts, ReadPump, RecvEnd, Report, SendEnd, WriteEnd, WritePump, finish};
use std::alloc::Global;
use std::mem::replace;
use std::process::Abort;
use std::sync::Wait;
use std::time::Duration;
use test_devices::{Odd, Pipe, PipeReader, PipeWriter, Plan, channel, number, plan_of, text};

/// The parts of a session, and the bytes that come.
#[derive(Drop)]
pub struct Desk {
    pub parts: Parts,
    pub input: Pipe,
}

/// A session that writes in a version, with rings of 8 bytes and so many slots, to which the bytes of
/// these digits come.
pub fn new_desk(alloc: Global, version: Version, slots: u32, digits: &str) -> Option<Desk>
    ensures { IfSome result (λ desk. AreOfOneSession (state_of desk.parts)) }
{
    let input = Pipe::of(hex::decode(alloc, digits).ok()?);
    let parts = session(alloc, version, 8, slots).ok()?;
    Some(Desk { parts, input })
}

// A number of microseconds.
fn micros(word: &str) -> Option<Duration> {
    Some(Duration::from_micros(number(word)?))
}

fn send<R: Wait>(rt: &R, alloc: Global, end: &mut SendEnd, digits: &str) -> Option<String>
    ensures { IsSameOutbox end.old end.new }
{
    let body = hex::decode(alloc, digits).ok()?;
    text(alloc, &end.send(rt, &body))
}

fn send_long<R: Wait>(rt: &R, alloc: Global, end: &mut SendEnd, len: &str) -> Option<String>
    ensures { IsSameOutbox end.old end.new }
{
    let body = vec![in alloc; 0_u8; len.parse::<usize>().ok()?].ok()?;
    text(alloc, &end.send(rt, &body))
}

fn absolve<R: Wait>(rt: &R, alloc: Global, end: &mut SendEnd, amount: &str) -> Option<String>
    ensures { IsSameOutbox end.old end.new }
{
    let amount = amount.parse::<u32>().ok()?;
    text(alloc, &end.absolve(rt, amount))
}

fn limit_sending<R: Wait>(rt: &R, alloc: Global, end: &mut SendEnd, bound: &str) -> Option<String>
    ensures { IsSameOutbox end.old end.new }
{
    let bound = number(bound)?;
    text(alloc, &end.limit(rt, bound))
}

fn nap_sending<R: Wait>(rt: &R, alloc: Global, end: &mut SendEnd, most: &str) -> Option<String>
    ensures { IsSameOutbox end.old end.new }
{
    let most = micros(most)?;
    let clock = Ticks::new(rt);
    let wake = end.wait_timeout(&clock, most);
    clock.told(alloc, wake)
}

// What a call of a sending end answers.
fn sends<R: Wait>(
    rt: &R,
    alloc: Global,
    end: &mut SendEnd,
    verb: &str,
    word: &str,
) -> Option<String>
    ensures { IsSameOutbox end.old end.new }
{
    match verb {
        "send" => send(rt, alloc, end, word),
        "long" => send_long(rt, alloc, end, word),
        "absolve" => absolve(rt, alloc, end, word),
        "limit-sending" => limit_sending(rt, alloc, end, word),
        "honour" => text(alloc, &end.honour(rt)),
        "finish" => text(alloc, &end.finish(rt)),
        "finished" => text(alloc, &end.is_finished()),
        "held" => text(alloc, &end.held()),
        "wait" => text(alloc, &end.wait(rt)),
        "nap-sending" => nap_sending(rt, alloc, end, word),
        _ => None,
    }
}

// What the first message of an inbox is.
fn take<R: Wait>(rt: &R, alloc: Global, end: &mut RecvEnd, room: &str) -> Option<String>
    ensures { IsSameSide end.old end.new }
{
    let mut buffer = [0; 8];
    let room = match room {
        "" => buffer.len(),
        _ => room.parse::<usize>().ok()?,
    };
    let buffer = buffer.get_mut(..room)?;
    match end.take_into(rt, buffer) {
        Ok(Take::Took(len)) => hex::encode(alloc, buffer.get(..len).unwrap_or(&[])).ok(),
        other => text(alloc, &other),
    }
}

fn server<R: Wait>(rt: &R, alloc: Global, end: &mut RecvEnd) -> Option<String>
    ensures { IsSameSide end.old end.new }
{
    let book = end.book(rt);
    let (outstanding, buffered) = (book.outstanding(), book.buffered());
    let left = book.send_left();
    format!(in alloc; "outstanding {outstanding} buffered {buffered} {left:?}").ok()
}

fn issue<R: Wait>(rt: &R, alloc: Global, end: &mut RecvEnd, amount: &str) -> Option<String>
    ensures { IsSameSide end.old end.new }
{
    let amount = amount.parse::<u32>().ok()?;
    text(alloc, &end.issue(rt, amount))
}

fn plead<R: Wait>(rt: &R, alloc: Global, end: &mut RecvEnd, target: &str) -> Option<String>
    ensures { IsSameSide end.old end.new }
{
    let target = target.parse::<u32>().ok()?;
    text(alloc, &end.plead(rt, target))
}

fn limit_receiving<R: Wait>(rt: &R, alloc: Global, end: &mut RecvEnd, bound: &str) -> Option<String>
    ensures { IsSameSide end.old end.new }
{
    let bound = number(bound)?;
    text(alloc, &end.limit(rt, bound))
}

fn nap_receiving<R: Wait>(rt: &R, alloc: Global, end: &mut RecvEnd, most: &str) -> Option<String>
    ensures { IsSameSide end.old end.new }
{
    let most = micros(most)?;
    let clock = Ticks::new(rt);
    let wake = end.wait_timeout(&clock, most);
    clock.told(alloc, wake)
}

// What a call of a receiving end answers.
fn receives<R: Wait>(
    rt: &R,
    alloc: Global,
    end: &mut RecvEnd,
    verb: &str,
    word: &str,
) -> Option<String>
    ensures { IsSameSide end.old end.new }
{
    match verb {
        "issue" => issue(rt, alloc, end, word),
        "plead" => plead(rt, alloc, end, word),
        "limit-receiving" => limit_receiving(rt, alloc, end, word),
        "take" => take(rt, alloc, end, word),
        "server" => server(rt, alloc, end),
        "nap-receiving" => nap_receiving(rt, alloc, end, word),
        _ => None,
    }
}

/// What a call of a channel's sending end answers.
pub fn at_sender<R: Wait>(
    rt: &R,
    alloc: Global,
    ends: &mut [SendEnd; CHANNELS],
    at: Channel,
    verb: &str,
    word: &str,
) -> Option<String>
    ensures { AllZip IsSameOutbox ends.old ends.new }
{
    let end = &mut ends[at.index()];
    sends(rt, alloc, end, verb, word)
}

/// What a call of a channel's receiving end answers.
pub fn at_receiver<R: Wait>(
    rt: &R,
    alloc: Global,
    ends: &mut [RecvEnd; CHANNELS],
    at: Channel,
    verb: &str,
    word: &str,
) -> Option<String>
    ensures { AllZip IsSameSide ends.old ends.new }
{
    let end = &mut ends[at.index()];
    receives(rt, alloc, end, verb, word)
}

// What a call of an end answers, behind whose verb its channel stands.
fn end<R: Wait>(rt: &R, alloc: Global, parts: &mut Parts, verb: &str, rest: &str) -> Option<String>
    ensures { StaysOfOne parts.old parts.new }
{
    let (first, word) = rest.split_once(' ').unwrap_or((rest, ""));
    let at = channel(first)?;
    match verb {
        "issue" | "plead" | "limit-receiving" | "take" | "server" => {
            at_receiver(rt, alloc, &mut parts.recv_ends, at, verb, word)
        }
        _ => at_sender(rt, alloc, &mut parts.send_ends, at, verb, word),
    }
}

// How many reads there are at most, and the reader's plan.
fn reads_of(words: &str) -> Option<(u64, Plan)> {
    let (max_reads, plan) = words.split_once(' ')?;
    Some((number(max_reads)?, plan_of(plan)?))
}

// How a run of the reading pump ends, and how many reads it made. What it leaves of the input stays.
fn read<R: Wait>(
    rt: &R,
    alloc: Global,
    pump: &mut ReadPump,
    input: &mut Pipe,
    rest: &str,
) -> Option<String>
    ensures { IsSameReading pump.old.side pump.new.side }
{
    let (max_reads, plan) = reads_of(rest)?;
    let pipe = replace(input, Pipe::of(Vec::new(alloc)));
    let mut reader = Counted::new(PipeReader { plan, pipe });
    let end = pump.run(rt, &mut reader, max_reads);
    *input = reader.into_inner().pipe;
    text(alloc, &end)
}

// How much came since the last whole frame, and what is wrong with it.
fn offending(alloc: Global, pump: &ReadPump) -> Option<String> {
    let (begun, byte) = (pump.begun(), pump.bad_byte());
    let Some(
        FrameHead {
            kind,
            channel,
            number,
        },
    ) = pump.offending()
    else {
        return format!(in alloc; "begun {begun} {byte:?}").ok();
    };
    let at = channel.number();
    format!(in alloc; "begun {begun} {kind:?} {at} {number:?} {byte:?}").ok()
}

// How a run of the writing pump ends, what it wrote, and how often it wrote and flushed.
fn write<R: Wait>(rt: &R, alloc: Global, pump: &mut WritePump, writer: PipeWriter) -> Option<String>
    ensures { IsSamePump pump.old pump.new }
{
    let mut writer = Counted::new(writer);
    let end = pump.run(rt, &mut writer);
    let writer = writer.into_inner();
    written(alloc, end, &writer)
}

// The same to a writer with this plan.
fn write_by<R: Wait>(rt: &R, alloc: Global, pump: &mut WritePump, plan: &str) -> Option<String>
    ensures { IsSamePump pump.old pump.new }
{
    let plan = plan_of(plan)?;
    write(
        rt,
        alloc,
        pump,
        PipeWriter::new(plan, Pipe::of(Vec::new(alloc))),
    )
}

fn written(alloc: Global, end: WriteEnd, writer: &PipeWriter) -> Option<String> {
    let bytes = hex::encode(alloc, &writer.pipe.bytes).ok()?;
    let (calls, flushes) = (writer.plan.calls, writer.flushes.calls);
    format!(in alloc; "{end:?} {bytes} calls {calls} flushes {flushes}").ok()
}

// A writer whose first flush fails.
fn unflushed(alloc: Global) -> PipeWriter {
    PipeWriter {
        flushes: Plan::odd(Odd::Fails, 1),
        ..PipeWriter::new(Plan::whole(), Pipe::of(Vec::new(alloc)))
    }
}

// What a call answers.
fn answer<R: Wait>(rt: &R, alloc: Global, desk: &mut Desk, call: &str) -> Option<String>
    ensures { StaysOfOne desk.old.parts desk.new.parts }
{
    let (verb, rest) = call.split_once(' ').unwrap_or((call, ""));
    let parts = &mut desk.parts;
    match verb {
        "stop" => text(alloc, &parts.session.stop()),
        "read" => read(rt, alloc, &mut parts.read_pump, &mut desk.input, rest),
        "offending" => offending(alloc, &parts.read_pump),
        "unflushed" => write(rt, alloc, &mut parts.write_pump, unflushed(alloc)),
        "write" => write_by(rt, alloc, &mut parts.write_pump, rest),
        _ => end(rt, alloc, parts, verb, rest),
    }
}

// What a report says: of a client what it received, holds, spent, absolved and waived.
fn reported(alloc: Global, report: &Report, call: &str) -> Option<String> {
    let (verb, word) = call.split_once(' ').unwrap_or((call, ""));
    if verb == "left" {
        return text(alloc, &(report.left, report.partly));
    }
    let at = channel(word)?.index();
    let client = &report.clients[at];
    let server = &report.servers[at];
    match verb {
        "client" => text(
            alloc,
            &(
                client.received,
                client.held,
                client.spent,
                client.absolved,
                client.waived,
            ),
        ),
        "server" => text(
            alloc,
            &(server.outstanding(), server.buffered(), server.issued()),
        ),
        _ => None,
    }
}

/// A line of a script: the call, and what it answers.
pub fn call_of(line: &str) -> (&str, &str) {
    let line = line.trim();
    line.split_once(" => ").unwrap_or((line, "an answer"))
}

// Each call of a script, in turn, answers what stands after it.
fn works<R: Wait + Abort>(rt: &R, alloc: Global, desk: &mut Desk, script: &str)
    ensures { StaysOfOne desk.old.parts desk.new.parts }
{
    for line in script.lines() {
        let (call, wanted) = call_of(line);
        same(rt, line, answer(rt, alloc, desk, call), wanted);
    }
}

fn reports(rt: &impl Abort, alloc: Global, report: &Report, script: &str) {
    for line in script.lines() {
        let (call, wanted) = call_of(line);
        same(rt, line, reported(alloc, report, call), wanted);
    }
}

/// A new session of version One answers each line of a script as it says, and then its report does.
/// `None` where there is none.
pub fn run<R: Wait + Abort>(
    rt: &R,
    alloc: Global,
    slots: u32,
    digits: &str,
    script: &str,
    report: &str,
) -> Option<()> {
    run_as(rt, alloc, Version::One, slots, digits, script, report)
}

/// And so does one of this version.
pub fn run_as<R: Wait + Abort>(
    rt: &R,
    alloc: Global,
    version: Version,
    slots: u32,
    digits: &str,
    script: &str,
    report: &str,
) -> Option<()> {
    let mut desk = new_desk(alloc, version, slots, digits)?;
    works(rt, alloc, &mut desk, script);
    let Desk { parts, input: _ } = desk;
    reports(rt, alloc, &finish(rt, parts), report);
    Some(())
}
