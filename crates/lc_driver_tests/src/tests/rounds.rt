//! Rounds of a long message and its answer over a TCP connection that gathers short segments, as one does
//! without `TCP_NODELAY`.
//!
//! What ends a message must not wait for an acknowledgement: who reads answers only when the message is
//! whole, and acknowledges late, so that all rounds behind the first few would take some 40 milliseconds. A busy
//! machine holds up some, so the fastest quarter is looked at.
use crate::tests::equal;
use lc_driver::{Counted, Link, ReadEnd};
use lc_frame::{CHANNELS, Channel, Version};
use lc_peer::{Config, Take};
use std::alloc::Global;
use std::net::{Ipv4Addr, Net, TcpListener, TcpStream};
use std::process::Abort;
use std::sync::Wait;
use std::test::Fail;
use std::thread::{Threads, join};
use std::time::{Clock, Duration, Instant};

const CHANNEL: Channel = Channel::Data;

/// The bytes of a ring, and how many guarantees the answers need in all.
const RING: u32 = 1 << 21;

/// What the last message of a round begins with, which is answered, and what any other does.
const LAST: u8 = 1;

const FIRST: u8 = 0;

const ROUNDS: u32 = 32;

/// By how many milliseconds the slowest of the fastest quarter of rounds may be longer than on a connection that sends
/// all at once.
const MOST: u128 = 20;

/// The length of a message, and whether a frame follows in the same call of `write_out`.
const CASES: [(usize, bool); 10] = [
    (65_535, false),
    (65_535, true),
    (65_536, false),
    (65_536, true),
    (69_578, false),
    (69_580, true),
    (131_072, false),
    (131_072, true),
    (139_264, false),
    (139_264, true),
];

/// One side, and its connection.
#[derive(Drop)]
struct ConnectedLink {
    link: Link,
    stream: Counted<TcpStream>,
}

impl ConnectedLink {
    fn new(alloc: Global, stream: TcpStream) -> Option<ConnectedLink> {
        let config = Config {
            version: Version::Two,
            capacities: [RING; CHANNELS],
            slots: 8,
        };
        let link = Link::new(alloc, config).ok()?;
        let stream = Counted::new(stream);
        Some(ConnectedLink { link, stream })
    }

    fn issue(&mut self, rt: &impl Abort, amount: u32) {
        let issued = self.link.peer.issue(CHANNEL, amount);
        equal(rt, "an issue", issued, Ok(()));
    }

    fn send(&mut self, rt: &impl Abort, body: &[u8]) {
        let sent = self.link.peer.send(CHANNEL, body);
        equal(rt, "a send", sent, Ok(()));
    }

    fn write(&mut self, rt: &impl Abort) {
        let written = self.link.write_out(&mut self.stream);
        assert!(rt; written.is_ok(), "not written");
    }

    // Reads once. Whether the stream goes on.
    fn read(&mut self, rt: &impl Abort) -> bool {
        match self.link.read_in(&mut self.stream, 1) {
            ReadEnd::TurnsSpent => true,
            end => {
                equal(rt, "a reading", end, ReadEnd::Clean);
                false
            }
        }
    }

    // Reads until a message can be taken. `None` at the end of the stream.
    fn take<R: Wait + Abort>(&mut self, rt: &R, buffer: &mut [u8]) -> Option<usize> {
        for _ in rt.forever() {
            match self.link.peer.take_into(CHANNEL, buffer) {
                Ok(Take::Took(len)) => return Some(len),
                answer => equal(rt, "a take", answer, Ok(Take::Empty)),
            }
            if !self.read(rt) {
                return None;
            }
        }
        unreachable!()
    }

    // Reads until so much may be sent.
    fn hear<R: Wait + Abort>(&mut self, rt: &R, amount: usize) {
        for _ in rt.forever() {
            if self.link.peer.client(CHANNEL).held() >= amount as u64 {
                return;
            }
            assert!(rt; self.read(rt), "the stream ended");
        }
    }
}

// One round of a message, and a short one behind it where that is wanted, and the answer.
fn ask<R: Wait + Abort>(rt: &R, side: &mut ConnectedLink, long: &mut [u8], behind: bool) {
    side.hear(rt, long.len() + 3);
    if let Some(first) = long.first_mut() {
        *first = if behind { FIRST } else { LAST };
    }
    side.send(rt, long);
    if behind {
        side.send(rt, &[LAST, 2, 3]);
    }
    side.write(rt);
    equal(rt, "an answer", side.take(rt, &mut [0; 1]), Some(1));
}

// How long that takes.
fn time<R: Wait + Clock + Abort>(
    rt: &R,
    side: &mut ConnectedLink,
    long: &mut [u8],
    behind: bool,
) -> Option<Duration> {
    let start = Instant::now(rt).ok()?;
    ask(rt, side, long, behind);
    start.elapsed(rt).ok()
}

// What the slowest of the fastest quarter of a case's rounds takes.
fn quarter<R: Wait + Clock + Abort>(
    rt: &R,
    alloc: Global,
    side: &mut ConnectedLink,
    (len, behind): (usize, bool),
) -> Option<Duration> {
    let mut long = vec![in alloc; FIRST; len].ok()?;
    let mut taken = Vec::new(alloc);
    for _ in 0..ROUNDS {
        taken.push(time(rt, side, &mut long, behind)?).ok()?;
    }
    taken.sort().ok()?;
    taken.get(taken.len() / 4).copied()
}

// The same of all cases.
fn ask_all<R>(rt: &R, alloc: Global, stream: TcpStream) -> Option<Vec<Duration>>
where
    R: Wait + Clock + Abort,
{
    let mut side = ConnectedLink::new(alloc, stream)?;
    side.issue(rt, RING);
    let mut quarters = Vec::new(alloc);
    for &case in &CASES {
        quarters.push(quarter(rt, alloc, &mut side, case)?).ok()?;
    }
    Some(quarters)
}

// Promises the room of a message anew, and answers it where it is the last of a round.
fn answer<R: Abort>(rt: &R, side: &mut ConnectedLink, message: &[u8]) {
    side.issue(rt, u32::try_from(message.len()).unwrap_or(0));
    if message.first() == Some(&LAST) {
        side.send(rt, &[LAST]);
        side.write(rt);
    }
}

fn answer_each<R: Wait + Abort>(rt: &R, side: &mut ConnectedLink, buffer: &mut [u8]) {
    for _ in rt.forever() {
        let Some(len) = side.take(rt, buffer) else {
            return;
        };
        answer(rt, side, buffer.get(..len).unwrap_or(&[]));
    }
}

// The side that answers, until the stream ends.
fn answer_all<R: Wait + Abort>(rt: &R, alloc: Global, stream: TcpStream) -> Option<()> {
    let mut buffer = vec![in alloc; 0_u8; 1 << 20].ok()?;
    let mut side = ConnectedLink::new(alloc, stream)?;
    side.issue(rt, RING);
    side.write(rt);
    answer_each(rt, &mut side, &mut buffer);
    Some(())
}

// The two ends of a new connection, which sends all at once or gathers short segments.
fn connection<R>(rt: &R, nodelay: bool) -> Option<(TcpStream, TcpStream)>
where
    R: Net<Listener = TcpListener, Stream = TcpStream>,
{
    let listener = TcpListener::bind(rt, (Ipv4Addr::LOCALHOST, 0u16)).ok()?;
    let here = TcpStream::connect(rt, listener.local_addr().ok()?).ok()?;
    here.set_nodelay(nodelay).ok()?;
    let (there, _) = listener.accept().ok()?;
    there.set_nodelay(nodelay).ok()?;
    Some((here, there))
}

fn play<R>(rt: &R, alloc: Global, nodelay: bool) -> Option<Vec<Duration>>
where
    R: Net<Listener = TcpListener, Stream = TcpStream> + Threads + Wait + Clock + Abort + Sync,
{
    let (here, there) = connection(rt, nodelay)?;
    let (quarters, answered) = join(
        rt,
        || ask_all(rt, alloc, here),
        || answer_all(rt, alloc, there),
    );
    answered?;
    quarters
}

// No case takes much longer.
fn compare(rt: &impl Abort, gathered: &[Duration], at_once: &[Duration]) {
    equal(rt, "the cases", gathered.len(), CASES.len());
    for (&(len, behind), (took, least)) in CASES.iter().zip(gathered.iter().zip(at_once)) {
        let longer = took.as_millis().saturating_sub(least.as_millis());
        assert!(rt; longer <= MOST, "{len} bytes, {behind}: {longer} ms longer");
    }
}

#[test]
fn no_round_waits_for_an_acknowledgement(rt: HostRuntime) -> Result<(), Fail> {
    let at_once = play(&rt, rt.alloc(), true).ok_or("no rounds")?;
    let gathered = play(&rt, rt.alloc(), false).ok_or("no rounds")?;
    compare(&rt, &gathered, &at_once);
    Ok(())
}
