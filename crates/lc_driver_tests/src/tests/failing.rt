//! A session whose devices fail, stop short or move nothing at each of their calls in turn.
use crate::tests::failing_link::FailingLink;
use crate::tests::{equal, ran};
use lc_driver::{Link, ReadEnd, WriteFault};
use lc_frame::{Channel, Version};
use lc_peer::Take;
use std::alloc::Global;
use std::io::ErrorKind;
use std::process::Abort;
use test_devices::{Odd, Pipe, Plan};

/// The messages of a session.
const MESSAGES: u8 = 20;

/// What carries the bytes of a session, both ways, and how many calls told of a failure and of a
/// write that took nothing.
#[derive(Drop)]
struct Wire {
    writing: Plan,
    reading: Plan,
    pipe: Pipe,
    failed: u32,
    empty: u32,
}

impl Wire {
    // Writes all that waits, in as many calls as it takes.
    fn write(mut self, from: &mut FailingLink) -> Wire {
        for _ in 0..4 {
            let (answer, writer) = from.write(self.writing, self.pipe);
            self.writing = writer.plan;
            self.pipe = writer.pipe;
            match answer {
                Ok(_) => return self,
                Err(WriteFault::Failed { .. }) => self.failed = self.failed.saturating_add(1),
                Err(WriteFault::Zero { .. }) => self.empty = self.empty.saturating_add(1),
            }
        }
        self
    }

    // Reads until the pipe is empty and says so.
    fn read(mut self, to: &mut FailingLink) -> Wire {
        for _ in 0..100 {
            let (end, reader) = to.read(self.reading, self.pipe, 3);
            self.reading = reader.plan;
            self.pipe = reader.pipe;
            match end {
                ReadEnd::Clean if self.pipe.read == self.pipe.bytes.len() => return self,
                ReadEnd::ReadFailed => self.failed = self.failed.saturating_add(1),
                _ => {}
            }
        }
        self
    }
}

// How many bytes a message has, each of which is its number.
fn length(number: u8) -> usize {
    1 + usize::from(number % 16)
}

fn send(rt: &impl Abort, link: &mut Link, number: u8) {
    let bytes = [number; 16];
    let body = bytes.get(..length(number)).unwrap_or(&[]);
    let sent = link.peer.send(Channel::Data, body);
    equal(rt, "a send", sent, Ok(()));
}

fn issue(rt: &impl Abort, link: &mut Link, amount: u32) {
    let issued = link.peer.issue(Channel::Data, amount);
    equal(rt, "an issue", issued, Ok(()));
}

// Takes the message of this number, if it is there, and issues as much again.
fn take(rt: &impl Abort, link: &mut Link, number: u8) -> bool {
    let mut buffer = [0; 16];
    let Ok(Take::Took(len)) = link.peer.take_into(Channel::Data, &mut buffer) else {
        return false;
    };
    let bytes = [number; 16];
    let wanted = bytes.get(..length(number));
    equal(rt, "a message", buffer.get(..len), wanted);
    issue(rt, link, u32::try_from(len).unwrap_or(0));
    true
}

// Takes what waits, and gives the number of the next message.
fn take_all(rt: &impl Abort, link: &mut Link, next: u8) -> u8 {
    for number in next..MESSAGES {
        if !take(rt, link, number) {
            return number;
        }
    }
    MESSAGES
}

// Twenty messages go from one side to another, which issues as it takes, and all that was sent is
// taken.
fn messages_go(
    rt: &impl Abort,
    client: &mut FailingLink,
    server: &mut FailingLink,
    mut wire: Wire,
) -> Wire {
    issue(rt, &mut server.link, 32);
    let mut taken = 0;
    for number in 0..MESSAGES {
        wire = wire.write(server).read(client);
        send(rt, &mut client.link, number);
        if number % 2 == 1 || number > 12 {
            wire = wire.write(client).read(server);
            taken = take_all(rt, &mut server.link, taken);
        }
    }
    equal(rt, "the messages taken", taken, MESSAGES);
    wire
}

fn session(
    rt: &impl Abort,
    alloc: Global,
    version: Version,
    kind: ErrorKind,
    (writing, reading): (Plan, Plan),
) -> Option<Wire> {
    let mut client = FailingLink::new(alloc, version, 32, 32).ok()?;
    let mut server = FailingLink::new(alloc, version, 32, 32).ok()?;
    client.kind = kind;
    server.kind = kind;
    let wire = Wire {
        writing,
        reading,
        pipe: Pipe::of(Vec::new(alloc)),
        failed: 0,
        empty: 0,
    };
    Some(messages_go(rt, &mut client, &mut server, wire))
}

/// A device, what it does at one call and how it fails there; and how many calls tell of a failure and
/// of a write that took nothing.
type OddCall = (&'static str, Odd, ErrorKind, (u32, u32));

/// Of a call that a signal interrupted none tells.
const ODD_CALLS: [OddCall; 10] = [
    ("write", Odd::Fails, ErrorKind::Other, (1, 0)),
    ("write", Odd::Fails, ErrorKind::WouldBlock, (1, 0)),
    ("write", Odd::Fails, ErrorKind::Interrupted, (0, 0)),
    ("write", Odd::Moves(1), ErrorKind::Other, (0, 0)),
    ("write", Odd::Moves(0), ErrorKind::Other, (0, 1)),
    ("read", Odd::Fails, ErrorKind::Other, (1, 0)),
    ("read", Odd::Fails, ErrorKind::WouldBlock, (1, 0)),
    ("read", Odd::Fails, ErrorKind::Interrupted, (0, 0)),
    ("read", Odd::Moves(1), ErrorKind::Other, (0, 0)),
    ("read", Odd::Moves(0), ErrorKind::Other, (0, 0)),
];

// The plans of a session whose writer or reader does something else at one call.
fn plans(device: &str, odd: Plan) -> (Plan, Plan) {
    if device == "write" {
        (odd, Plan::whole())
    } else {
        (Plan::whole(), odd)
    }
}

// Whether a session came to that call, of which it tells as is wanted.
fn was_odd(rt: &impl Abort, wire: &Wire, device: &str, at: u64, wanted: (u32, u32)) -> bool {
    let plan = if device == "write" {
        wire.writing
    } else {
        wire.reading
    };
    if plan.calls < at {
        return false;
    }
    let found = (at, wire.failed, wire.empty);
    equal(rt, device, found, (at, wanted.0, wanted.1));
    true
}

// Whether a session came to that call, which is odd; `None` where there was no memory for it.
fn is_odd(
    rt: &impl Abort,
    alloc: Global,
    version: Version,
    (device, odd, kind, wanted): OddCall,
    at: u64,
) -> Option<bool> {
    let plans = plans(device, Plan::odd(odd, at));
    let wire = session(rt, alloc, version, kind, plans)?;
    Some(was_odd(rt, &wire, device, at, wanted))
}

fn each_is_odd(rt: &impl Abort, alloc: Global, version: Version, odd_call: OddCall) -> Option<()> {
    for at in 1..100 {
        if !is_odd(rt, alloc, version, odd_call, at)? {
            break;
        }
    }
    Some(())
}

#[test]
fn each_call_fails_in_turn(rt: HostRuntime) {
    for &odd_call in &ODD_CALLS {
        ran(&rt, each_is_odd(&rt, rt.alloc(), Version::One, odd_call));
    }
}

// The first calls move the greeting.
#[test]
fn each_call_fails_in_turn_in_version_two(rt: HostRuntime) {
    for &odd_call in &ODD_CALLS {
        ran(&rt, each_is_odd(&rt, rt.alloc(), Version::Two, odd_call));
    }
}
