//! Two sessions that exchange messages, and what is printed of that.
use super::nets::{Trouble, Troubled};
use super::same;
use lc_cli::print_loopback;
use lc_frame::Version;
use lc_loopback::{LoopFault, LoopReport, Plan, loopback_as, loopback_of, ping_pong};
use std::alloc::Global;
use std::io::Write;
use std::net::{Net, TcpListener, TcpStream};
use std::process::Abort;
use std::sync::Wait;
use std::thread::Threads;

const TEN: &str = "A 0 messages 10 bytes 85
A 1 messages 10 bytes 85
A 2 messages 10 bytes 85
A 3 messages 10 bytes 85
A 4 messages 10 bytes 85
A 5 messages 10 bytes 85
A 6 messages 10 bytes 85
B 0 messages 10 bytes 85
B 1 messages 10 bytes 85
B 2 messages 10 bytes 85
B 3 messages 10 bytes 85
B 4 messages 10 bytes 85
B 5 messages 10 bytes 85
B 6 messages 10 bytes 85
balanced
= 0
";

// What two sessions carried, with a number of its own in each place.
const REPORT: LoopReport = LoopReport {
    messages: [[1, 2, 3, 4, 5, 6, 7], [8, 9, 10, 11, 12, 13, 14]],
    bytes: [[20, 21, 22, 23, 24, 25, 26], [30, 31, 32, 33, 34, 35, 36]],
    balanced: false,
};

const LINES: &str = "A 0 messages 1 bytes 20
A 1 messages 2 bytes 21
A 2 messages 3 bytes 22
A 3 messages 4 bytes 23
A 4 messages 5 bytes 24
A 5 messages 6 bytes 25
A 6 messages 7 bytes 26
B 0 messages 8 bytes 30
B 1 messages 9 bytes 31
B 2 messages 10 bytes 32
B 3 messages 11 bytes 33
B 4 messages 12 bytes 34
B 5 messages 13 bytes 35
B 6 messages 14 bytes 36
";

#[test]
fn a_small_plan_has_its_rings_and_slots(rt: HostRuntime) {
    let found = format!(in rt.alloc(); "{:?}", Plan::small(7)).ok();
    let wanted =
        "Plan { capacity: 32, slots: 4, messages: 7, shortest: 4, lengths: 13, issue_from: 1 }";
    same(&rt, "a small plan", found, wanted);
}

// What they exchange is the same, whatever version either writes in.
#[test]
fn sessions_of_either_version_exchange_messages(rt: HostRuntime) {
    for versions in [
        [Version::One, Version::Two],
        [Version::Two, Version::One],
        [Version::Two, Version::Two],
    ] {
        let answer = loopback_as(&rt, rt, rt.alloc(), 10, versions);
        same(&rt, "ten messages", printed(rt.alloc(), answer), TEN);
    }
}

// Rings of one message, and one slot for all lanes: ends wait for guarantees, for messages and for the slot.
const NARROW: Plan = Plan {
    capacity: 4,
    slots: 1,
    messages: 100,
    shortest: 4,
    lengths: 1,
    issue_from: 1,
};

// Nothing is issued anew before an end has taken all that there is.
const LATE: Plan = Plan {
    capacity: 32,
    slots: 4,
    messages: 1_000,
    shortest: 4,
    lengths: 13,
    issue_from: u32::MAX,
};

// Whether two sessions exchange this. Where they do, their balances agree.
fn is_exchanged<R>(rt: R, alloc: Global, plan: Plan, versions: [Version; 2]) -> bool
where
    R: Net<Listener = TcpListener, Stream = TcpStream>
        + Threads
        + Wait
        + Copy
        + Send
        + Drop
        + 'static,
{
    plan.is_lawful() && loopback_of(&rt, rt, alloc, plan, versions).is_ok()
}

#[test]
fn sessions_exchange_messages_through_one_slot(rt: HostRuntime) {
    for versions in [
        [Version::One, Version::One],
        [Version::One, Version::Two],
        [Version::Two, Version::Two],
    ] {
        let is_exchanged = is_exchanged(rt, rt.alloc(), NARROW, versions);
        assert!(&rt; is_exchanged, "{versions:?}");
    }
}

#[test]
fn sessions_exchange_messages_that_are_issued_late(rt: HostRuntime) {
    let is_exchanged = is_exchanged(rt, rt.alloc(), LATE, [Version::One, Version::Two]);
    assert!(&rt; is_exchanged, "issued late");
}

// What is printed, and the status.
fn printed(alloc: Global, answer: Result<LoopReport, LoopFault>) -> Option<String> {
    let (mut out, mut err) = (Vec::new(alloc), Vec::new(alloc));
    let status = print_loopback(alloc, answer, &mut out, &mut err);
    out.append(&mut err).ok()?;
    writeln!(out, "= {status}").ok()?;
    String::from_utf8(out).ok()
}

// What is printed behind the lines of that report.
fn ended(alloc: Global, balanced: bool) -> Option<String> {
    let shown = printed(alloc, Ok(LoopReport { balanced, ..REPORT }))?;
    String::from_str(alloc, shown.strip_prefix(LINES)?).ok()
}

#[test]
fn each_number_has_its_place(rt: HostRuntime) {
    for (balanced, end) in [(false, "= 0\n"), (true, "balanced\n= 0\n")] {
        same(&rt, "a report", ended(rt.alloc(), balanced), end);
    }
}

// Of several faults the first of these is answered.
const FAULTS: [(LoopFault, &str); 5] = [
    (LoopFault::OutOfMemory, "out of memory"),
    (LoopFault::Device, "a socket failed"),
    (LoopFault::BadMessage, "another message than the one due"),
    (LoopFault::TurnsSpent, "the turns are spent"),
    (LoopFault::Over, "a pump ended too early"),
];

#[test]
fn every_fault_has_its_sentence_and_prints_its_line_alone(rt: HostRuntime) {
    for (place, &(fault, sentence)) in FAULTS.iter().enumerate() {
        let said = format!(in rt.alloc(); "{fault}").ok();
        same(&rt, "a sentence", said, sentence);
        assert!(rt; fault as usize == place, "{fault:?}");
        let found = printed(rt.alloc(), Err(fault));
        same(&rt, "a fault", found, "lcmux: loopback failed\n= 1\n");
    }
}

/// How many messages go through each channel each way, and the versions in which both sides write.
type Exchange = (u32, [Version; 2]);

const ONES: Exchange = (100, [Version::One, Version::One]);

const MIXED: Exchange = (1, [Version::One, Version::Two]);

const REVERSED: Exchange = (1, [Version::Two, Version::One]);

const TWOS: Exchange = (1, [Version::Two, Version::Two]);

// What two sessions come to over a network in trouble.
fn troubled<R>(
    rt: R,
    alloc: Global,
    trouble: Trouble,
    at: u64,
    (count, versions): Exchange,
) -> Option<String>
where
    R: Net<Listener = TcpListener, Stream = TcpStream>
        + Threads
        + Wait
        + Copy
        + Send
        + Drop
        + 'static,
{
    let net = Troubled::new(alloc, rt, trouble, at).ok()?;
    let answer = loopback_as(&net, rt, alloc, count, versions).map(|report| report.balanced);
    format!(in alloc; "{answer:?}").ok()
}

/// A trouble, the first and the last of the calls at which it is met in turn, the exchange, and what
/// that comes to.
type Case = (Trouble, u64, u64, Exchange, &'static str);

// An exchange comes to one of these.
fn is_any(found: &str, wanted: &str) -> bool {
    wanted.split(" or ").any(|one| one == found)
}

// An exchange comes to what its case says, which is at this place of its table.
fn comes_to<R>(rt: R, alloc: Global, place: usize, (trouble, first, last, exchange, wanted): Case)
where
    R: Net<Listener = TcpListener, Stream = TcpStream>
        + Threads
        + Wait
        + Abort
        + Copy
        + Send
        + Drop
        + 'static,
{
    for at in first..=last {
        let found = troubled(rt, alloc, trouble, at, exchange);
        let found = found.as_deref().unwrap_or("nothing");
        let case = (place, at);
        assert!(rt;
            is_any(found, wanted),
            "case {case:?}: {found}, not {wanted}"
        );
    }
}

// And so does each case of a table.
fn come_to<R>(rt: R, alloc: Global, cases: &[Case])
where
    R: Net<Listener = TcpListener, Stream = TcpStream>
        + Threads
        + Wait
        + Abort
        + Copy
        + Send
        + Drop
        + 'static,
{
    for (place, case) in cases.iter().enumerate() {
        comes_to(rt, alloc, place, *case);
    }
}

const WHOLE: &str = "Ok(true)";

const FAILED: &str = "Err(Device)";

const BAD: &str = "Err(BadMessage)";

// Which fault it is depends on who finds it first: who reads, or who writes to a side that is gone.
const ANY: &str = "Err(Over) or Err(Device) or Err(BadMessage)";

// Two connections are made, by twelve calls.
const CONNECTIONS: [Case; 4] = [
    (Trouble::Refuses, 1, 12, ONES, FAILED),
    (Trouble::Refuses, 13, 13, ONES, WHOLE),
    (Trouble::Stranger, 1, 2, ONES, FAILED),
    (Trouble::Stranger, 3, 3, ONES, WHOLE),
];

#[test]
fn a_connection_that_fails_or_is_a_strangers_is_refused(rt: HostRuntime) {
    come_to(rt, rt.alloc(), &CONNECTIONS);
}

const SOCKETS: [Case; 10] = [
    (Trouble::FailsToRead, 1, 4, ONES, FAILED),
    (Trouble::FailsToRead, 20, 20, ONES, FAILED),
    (Trouble::FailsToRead, 100, 100, ONES, FAILED),
    (Trouble::FailsToWrite, 1, 4, ONES, FAILED),
    (Trouble::FailsToWrite, 20, 20, ONES, FAILED),
    (Trouble::FailsToWrite, 100, 100, ONES, FAILED),
    (Trouble::Ends, 1, 2, ONES, ANY),
    (Trouble::TakesNothing, 1, 4, ONES, FAILED),
    // A signal says nothing of the socket.
    (Trouble::InterruptsRead, 1, 4, ONES, WHOLE),
    (Trouble::InterruptsWrite, 1, 4, ONES, WHOLE),
];

#[test]
fn a_socket_that_fails_or_ends_too_early_ends_both_sessions(rt: HostRuntime) {
    come_to(rt, rt.alloc(), &SOCKETS);
}

// Each stream of version Two begins with a greeting.
const GREETINGS: [Case; 7] = [
    (Trouble::Misgreets, 1, 1, ONES, WHOLE),
    (Trouble::Misgreets, 1, 1, MIXED, ANY),
    (Trouble::Misgreets, 2, 2, MIXED, WHOLE),
    (Trouble::Misgreets, 1, 1, REVERSED, ANY),
    (Trouble::Misgreets, 2, 2, REVERSED, WHOLE),
    (Trouble::Misgreets, 1, 2, TWOS, ANY),
    (Trouble::Misgreets, 3, 3, TWOS, WHOLE),
];

#[test]
fn another_greeting_ends_both_sessions(rt: HostRuntime) {
    come_to(rt, rt.alloc(), &GREETINGS);
}

// The first four bytes of a message are its number, and the longest has sixteen.
const MESSAGES: [Case; 8] = [
    (Trouble::Changes(0), 1, 2, ONES, BAD),
    (Trouble::Changes(0), 5, 5, ONES, BAD),
    (Trouble::Changes(0), 30, 30, ONES, BAD),
    (Trouble::Changes(1), 1, 1, ONES, BAD),
    (Trouble::Changes(2), 1, 1, ONES, BAD),
    (Trouble::Changes(3), 1, 2, ONES, BAD),
    (Trouble::Changes(4), 1, 2, ONES, BAD),
    (Trouble::Changes(15), 1, 1, ONES, BAD),
];

#[test]
fn another_message_than_the_one_due_ends_both_sessions(rt: HostRuntime) {
    come_to(rt, rt.alloc(), &MESSAGES);
}

// Fourteen channels are finished where both sides write in version Two, and none elsewhere.
const FINISHES: [Case; 5] = [
    (Trouble::Adds, 1, 1, ONES, WHOLE),
    (Trouble::Adds, 1, 1, MIXED, WHOLE),
    (Trouble::Adds, 1, 1, REVERSED, WHOLE),
    (Trouble::Adds, 1, 14, TWOS, BAD),
    (Trouble::Adds, 15, 15, TWOS, WHOLE),
];

#[test]
fn a_message_more_before_the_end_ends_both_sessions(rt: HostRuntime) {
    come_to(rt, rt.alloc(), &FINISHES);
}

// What so many rounds come to over a network in trouble.
fn bounced<R>(rt: R, alloc: Global, trouble: Trouble, at: u64, turns: u32) -> Option<String>
where
    R: Net<Listener = TcpListener, Stream = TcpStream>
        + Threads
        + Wait
        + Copy
        + Send
        + Drop
        + 'static,
{
    let net = Troubled::new(alloc, rt, trouble, at).ok()?;
    let answer = ping_pong(&net, rt, alloc, 100, turns);
    format!(in alloc; "{answer:?}").ok()
}

#[test]
fn rounds_end_with_the_last_or_with_the_turns(rt: HostRuntime) {
    let turns = 50_000_000;
    same(
        &rt,
        "rounds",
        bounced(rt, rt.alloc(), Trouble::Refuses, 13, turns),
        "Ok(100)",
    );
    same(
        &rt,
        "no turn",
        bounced(rt, rt.alloc(), Trouble::Refuses, 13, 0),
        "Err(TurnsSpent)",
    );
    same(
        &rt,
        "no connection",
        bounced(rt, rt.alloc(), Trouble::Refuses, 1, turns),
        "Err(Device)",
    );
    // Who looks in vain ends with the pump that fails, long before its turns are spent.
    same(
        &rt,
        "a failed read",
        bounced(rt, rt.alloc(), Trouble::FailsToRead, 50, u32::MAX),
        "Err(Device)",
    );
}

// `scripts/threads` counts how often the end whose turns are spent has yielded.
#[test]
fn turns_are_spent_in_rounds_and_in_silence(rt: HostRuntime) {
    let found = bounced(rt, rt.alloc(), Trouble::Silences, 50, 1000);
    same(&rt, "silence", found, "Err(TurnsSpent)");
}
