//! How long a message of one channel is on its way while six others carry bulk. What the session writes goes
//! over TCP to its own reading pump.
use crate::digest::Digest;
use crate::random::{Pool, Random};
use crate::sessions::{CAPACITY, READ_AHEAD, issue, send, session, take, use_pumps};
use lc_frame::CHANNELS;
use lc_session::{Parts, RecvEnd, SendEnd, Session};
use std::alloc::Global;
use std::io::BufReader;
use std::net::{Ipv4Addr, Net, TcpListener, TcpStream};
use std::sync::Wait;
use std::sync::atomic::{AtomicBool, Ordering};
use std::thread::{Threads, join};
use std::time::{Clock, Duration};
use std::{io, thread};

/// The bytes of a message of the quiet channel, of which the first eight say when it was sent, and of a
/// message of the others.
const QUIET: usize = 16;

const BULK: usize = 61_440;

/// The channel that is quiet: the others are behind it.
const FIRST: usize = 0;

/// The nanoseconds between two messages of the quiet channel.
const PACE: u64 = 1_000_000;

/// What came of all that.
#[derive(Drop)]
pub struct Latency {
    pub digest: Digest,
    /// How long the messages of the quiet channel took, in nanoseconds, the shortest first.
    pub nanos: Vec<u64>,
}

impl Latency {
    /// The time within which so many in a hundred messages came, in microseconds.
    pub fn within(&self, percent: usize) -> u64 {
        let at = self.nanos.len().saturating_mul(percent) / 100;
        self.nanos.get(at).copied().unwrap_or(0) / 1_000
    }
}

// The nanoseconds of a clock that has just been read.
fn nanos<R: Clock>(rt: &R) -> u64 {
    let now = rt.monotonic().unwrap_or(Duration::ZERO);
    u64::try_from(now.as_nanos()).unwrap_or(0)
}

// What the threads share: the messages grow from this number, so many go through the quiet channel, and
// whether all of them have.
#[derive(Drop)]
struct Job<'a> {
    random: Random,
    pool: &'a Pool,
    messages: u32,
    done: &'a AtomicBool,
}

impl Job<'_> {
    fn is_done(&self) -> bool {
        self.done.load(Ordering::SeqCst)
    }

    fn random_on(&self, channel: usize) -> Random {
        self.random.apart(channel as u64)
    }
}

// Sends a message each millisecond, the first at once.
fn send_quiet<R: Wait + Clock>(rt: &R, end: &mut SendEnd, job: &Job<'_>) {
    let mut random = job.random_on(FIRST);
    let mut due = nanos(rt);
    for _ in 0..job.messages {
        let now = nanos(rt);
        thread::sleep(rt, Duration::from_nanos(due.saturating_sub(now)));
        due = due.max(now).saturating_add(PACE);
        let mut body = [0; QUIET];
        body[..8].copy_from_slice(&nanos(rt).to_le_bytes());
        body[8..].copy_from_slice(&random.next().to_le_bytes());
        if !send(rt, end, &body) {
            return;
        }
    }
}

// Sends messages as fast as they go, until those of the quiet channel have come.
fn send_bulk<R: Wait>(rt: &R, end: &mut SendEnd, channel: usize, job: &Job<'_>) {
    let mut random = job.random_on(channel);
    for _ in rt.forever() {
        let body = job.pool.part(&mut random, BULK);
        if job.is_done() || !send(rt, end, body) {
            return;
        }
    }
}

// Takes the messages of the quiet channel, and notes how long each took.
fn take_quiet<R: Wait + Clock>(
    rt: &R,
    alloc: Global,
    end: &mut RecvEnd,
    job: &Job<'_>,
) -> Option<Latency> {
    let mut digest = Digest::new();
    let mut times = Vec::new(alloc);
    let mut buffer = [0; QUIET];
    if !issue(rt, end, CAPACITY) {
        return None;
    }
    for _ in 0..job.messages {
        take(rt, end, &mut buffer)?;
        let now = nanos(rt);
        let (sent, rest) = buffer.split_first_chunk::<8>()?;
        times
            .push(now.saturating_sub(u64::from_le_bytes(*sent)))
            .ok()?;
        digest.add_bytes(rest);
        if !issue(rt, end, QUIET as u32) {
            return None;
        }
    }
    times.sort().ok()?;
    Some(Latency {
        digest,
        nanos: times,
    })
}

// Takes messages until a run ends. Whether each was the one due.
fn take_bulk<R: Wait>(
    rt: &R,
    alloc: Global,
    end: &mut RecvEnd,
    channel: usize,
    job: &Job<'_>,
) -> Option<bool> {
    let mut random = job.random_on(channel);
    let mut buffer = vec![in alloc; 0u8; BULK].ok()?;
    let mut goes_on = issue(rt, end, CAPACITY);
    for _ in rt.forever() {
        if !goes_on {
            return Some(true);
        }
        let Some(len) = take(rt, end, &mut buffer) else {
            return Some(true);
        };
        if buffer.as_slice() != job.pool.part(&mut random, BULK) || len != BULK {
            return Some(false);
        }
        goes_on = issue(rt, end, BULK as u32);
    }
    unreachable!()
}

// A receiving end, and what came of its messages.
#[derive(Drop)]
struct Taker {
    end: RecvEnd,
    latency: Option<Latency>,
    is_whole: bool,
}

impl Taker {
    fn new(end: RecvEnd) -> Taker {
        Taker {
            end,
            latency: None,
            is_whole: false,
        }
    }

    fn take<R: Wait + Clock>(&mut self, rt: &R, alloc: Global, channel: usize, job: &Job<'_>) {
        if channel == FIRST {
            self.latency = take_quiet(rt, alloc, &mut self.end, job);
            job.done.store(true, Ordering::SeqCst);
        } else {
            self.is_whole = take_bulk(rt, alloc, &mut self.end, channel, job) == Some(true);
        }
    }
}

// Each sending end in a thread of its own.
fn send_each<R: Threads + Wait + Clock + Sync>(
    rt: &R,
    ends: &mut [SendEnd; CHANNELS],
    job: &Job<'_>,
) {
    thread::for_each_mut(
        rt,
        ends,
        CHANNELS,
        &|at, end| {
            if at == FIRST {
                send_quiet(rt, end, job);
            } else {
                send_bulk(rt, end, at, job);
            }
        },
    );
}

// And each receiving end.
fn take_each<R: Threads + Wait + Clock + Sync>(
    rt: &R,
    alloc: Global,
    takers: &mut [Taker; CHANNELS],
    job: &Job<'_>,
) {
    thread::for_each_mut(
        rt,
        takers,
        CHANNELS,
        &|at, taker| { taker.take(rt, alloc, at, job) },
    );
}

// The writer and the reader of a new connection.
fn connection<N>(net: &N) -> io::Result<(TcpStream, TcpStream)>
where
    N: Net<Listener = TcpListener, Stream = TcpStream>,
{
    let listener = TcpListener::bind(net, (Ipv4Addr::LOCALHOST, 0u16))?;
    let writer = TcpStream::connect(net, listener.local_addr()?)?;
    writer.set_nodelay(true)?;
    let (reader, _) = listener.accept()?;
    Ok((writer, reader))
}

// What came of all channels.
fn sum(takers: [Taker; CHANNELS]) -> Option<Latency> {
    let mut came = None;
    let mut whole = 1;
    for taker in takers {
        whole = u64::saturating_add(whole, u64::from(taker.is_whole));
        came = came.or(taker.latency);
    }
    let mut came: Latency = came?;
    came.digest.add(whole);
    Some(came)
}

// All ends at work. The session is stopped once all that send are through.
fn use_ends<R: Threads + Wait + Clock + Sync>(
    rt: &R,
    alloc: Global,
    session: &Session,
    sending: &mut [SendEnd; CHANNELS],
    takers: &mut [Taker; CHANNELS],
    job: &Job<'_>,
) {
    join(
        rt,
        || {
            send_each(rt, sending, job);
            session.stop();
        },
        || take_each(rt, alloc, takers, job),
    );
}

/// So many messages go through one channel of a session, one each millisecond, while six send bulk.
pub fn measure<R, N>(
    rt: &R,
    net: &N,
    alloc: Global,
    random: Random,
    messages: u32,
) -> Option<Latency>
where
    R: Threads + Wait + Clock + Sync,
    N: Net<Listener = TcpListener, Stream = TcpStream>,
{
    let mut random = random;
    let pool = Pool::new(alloc, &mut random, BULK).ok()?;
    let (writer, reader) = connection(net).ok()?;
    let reader = BufReader::with_capacity(alloc, READ_AHEAD, reader).ok()?;
    let Parts {
        session,
        mut send_ends,
        recv_ends,
        read_pump,
        write_pump,
    } = session(alloc)?;
    let mut takers = recv_ends.map(|end| Taker::new(end));
    let done = AtomicBool::new(false);
    let job = Job {
        random,
        pool: &pool,
        messages,
        done: &done,
    };
    join(
        rt,
        || use_pumps(rt, read_pump, reader, write_pump, writer),
        || use_ends(rt, alloc, &session, &mut send_ends, &mut takers, &job),
    );
    sum(takers)
}
