//! Ends and pumps that wait, and what wakes each. One that nothing wakes would wait for ever.
use crate::tests::ends::{await_end, issue, send, take, wait_to_send, wait_to_take};
use crate::tests::lines::{Line, connection, run_both};
use crate::tests::sides::{Ends, Side, new_side};
use crate::tests::staged::{await_count, in_time};
use crate::tests::{equal, ran};
use lc_driver::{Counted, ReadEnd};
use lc_frame::{CHANNELS, Channel};
use lc_session::{ReadPump, RecvEnd, SendEnd, Session, WriteEnd, WritePump};
use lc_wake::Wake;
use std::alloc::Global;
use std::io::{ErrorKind, Read, Write};
use std::net::{Net, TcpListener, TcpStream};
use std::process::Abort;
use std::sync::Wait;
use std::sync::atomic::{AtomicU64, Ordering};
use std::thread::{Threads, join};
use std::time::{Clock, Duration};
use std::{io, thread};
use test_devices::{Pipe, PipeWriter, Plan};

/// What two sessions do in turns.
#[derive(Clone, Copy)]
enum Game {
    /// A message goes one way, and then one the other way.
    Messages,
    /// Guarantees go one way, and by a plead are absolved.
    Pleads,
}

const ROUNDS: u32 = 1000;

// Sends the message of a round and takes as many, the one that leads first.
fn bounce_once<R: Wait + Abort>(
    rt: &R,
    sending: &mut SendEnd,
    receiving: &mut RecvEnd,
    leads: bool,
    round: u32,
) {
    let body = round.to_be_bytes();
    if leads {
        send(rt, sending, &body);
    }
    take(rt, receiving, &body);
    issue(rt, receiving, 4);
    if !leads {
        send(rt, sending, &body);
    }
}

// The messages of all rounds on a channel.
fn bounce<R: Wait + Abort>(rt: &R, ends: &mut Ends, leads: bool) {
    let sending = &mut ends.sending;
    let receiving = &mut ends.receiving;
    issue(rt, &mut receiving[0], 4);
    for round in 0..ROUNDS {
        bounce_once(rt, &mut sending[0], &mut receiving[0], leads, round);
    }
}

// Waits until the plead for all guarantees is honoured.
fn honour<R: Wait + Abort>(rt: &R, sending: &mut SendEnd) {
    for _ in rt.forever() {
        match sending.honour(rt) {
            Ok(None) => wait_to_send(rt, sending),
            answer => {
                equal(rt, "an honour", answer, Ok(Some(4)));
                return;
            }
        }
    }
}

// Waits until nothing is outstanding.
fn await_absolving<R: Wait + Abort>(rt: &R, receiving: &mut RecvEnd) {
    for _ in rt.forever() {
        if receiving.book(rt).outstanding() == 0 {
            return;
        }
        wait_to_take(rt, receiving);
    }
}

// Honours a plead in each round, and sends no more then.
fn give_back<R: Wait + Abort>(rt: &R, sending: &mut SendEnd) {
    for _ in 0..ROUNDS {
        honour(rt, sending);
    }
    equal(rt, "a limit", sending.limit(rt, 0), Ok(()));
}

// Issues and pleads in each round.
fn ask_back<R: Wait + Abort>(rt: &R, receiving: &mut RecvEnd) {
    for _ in 0..ROUNDS {
        issue(rt, receiving, 4);
        equal(rt, "a plead", receiving.plead(rt, 0), Ok(()));
        await_absolving(rt, receiving);
    }
    await_end(rt, receiving);
}

// One side's part of a game.
fn play<R: Wait + Abort>(rt: &R, ends: &mut Ends, leads: bool, game: Game) {
    match game {
        Game::Messages => bounce(rt, ends, leads),
        Game::Pleads if leads => give_back(rt, &mut ends.sending[0]),
        Game::Pleads => ask_back(rt, &mut ends.receiving[0]),
    }
}

// Both sides play, and then both sessions are stopped.
fn play_both<R>(rt: &R, a: &mut Ends, b: &mut Ends, sessions: (&Session, &Session), game: Game)
where
    R: Threads + Wait + Abort + Sync,
{
    join(rt, || play(rt, a, true, game), || play(rt, b, false, game));
    sessions.0.stop();
    sessions.1.stop();
}

// Two sessions play, while all their pumps run.
fn play_over<R>(rt: &R, mut a: Side, mut b: Side, a_to_b: Line, b_to_a: Line, game: Game)
where
    R: Threads + Wait + Abort + Sync,
{
    let (a_ends, b_ends) = (&mut a.ends, &mut b.ends);
    let (a_pumps, b_pumps) = (&mut a.pumps, &mut b.pumps);
    let sessions = (&a.session, &b.session);
    join(
        rt,
        || play_both(rt, a_ends, b_ends, sessions, game),
        || run_both(rt, a_pumps, b_pumps, a_to_b, b_to_a),
    );
}

fn play_new<R>(rt: &R, alloc: Global, game: Game) -> Option<()>
where
    R: Threads + Wait + Abort + Sync + Net<Listener = TcpListener, Stream = TcpStream>,
{
    let a_to_b = Line::new(rt, alloc)?;
    let b_to_a = Line::new(rt, alloc)?;
    let a = new_side(alloc, 4, 4)?;
    let b = new_side(alloc, 4, 4)?;
    play_over(rt, a, b, a_to_b, b_to_a, game);
    Some(())
}

#[test]
fn ends_wait_for_each_other_in_turns(rt: HostRuntime) {
    for game in [Game::Messages, Game::Pleads] {
        ran(&rt, play_new(&rt, rt.alloc(), game));
    }
}

// Lets the others get so far that they sleep.
fn give_way() {
    for _ in 0..10_000 {
        thread::yield_now();
    }
}

/// A pump flushes before it sleeps, which here is twice at most, once more where a wake-up came early, and
/// before it stops. One that does not sleep flushes on and on.
const FLUSHES: u64 = 4;

// Writes all until the session is stopped.
fn write<R: Wait + Abort>(rt: &R, alloc: Global, pump: &mut WritePump, wanted: &[u8]) {
    let pipe = Pipe::of(Vec::new(alloc));
    let mut writer = Counted::new(PipeWriter::new(Plan::whole(), pipe));
    let end = pump.run(rt, &mut writer);
    let writer = writer.into_inner();
    let found = (end, writer.pipe.bytes.as_slice());
    equal(rt, "what is written", found, (WriteEnd::Stopped, wanted));
    let flushes = writer.flushes.calls;
    assert!(rt; flushes <= FLUSHES, "{flushes} flushes");
}

// A stop comes once the pump sleeps.
fn stop_late(session: Session) {
    give_way();
    session.stop();
}

fn stop_by_a_clone<R>(rt: &R, alloc: Global) -> Option<()>
where
    R: Threads + Wait + Abort + Sync,
{
    let mut side = new_side(alloc, 8, 4)?;
    let clone = side.session.try_clone().ok()?;
    let writing = &mut side.pumps.writing;
    join(rt, || stop_late(clone), || write(rt, alloc, writing, &[]));
    Some(())
}

#[test]
fn a_clone_stops_a_pump_that_sleeps(rt: HostRuntime) {
    ran(&rt, stop_by_a_clone(&rt, rt.alloc()));
}

// Issues where there is no slot yet, and stops the session.
fn issue_and_stop<R: Wait + Abort>(rt: &R, ends: &mut Ends, session: &Session) {
    issue(rt, &mut ends.receiving[Channel::Data.index()], 2);
    session.stop();
}

// The pump runs once the ends sleep.
fn write_late<R: Wait + Abort>(rt: &R, alloc: Global, pump: &mut WritePump, wanted: &[u8]) {
    give_way();
    write(rt, alloc, pump, wanted);
}

fn wait_for_a_slot<R>(rt: &R, alloc: Global) -> Option<()>
where
    R: Threads + Wait + Abort + Sync,
{
    let mut side = new_side(alloc, 8, 1)?;
    let ends = &mut side.ends;
    let writing = &mut side.pumps.writing;
    let session = &side.session;
    issue(rt, &mut ends.receiving[1], 1);
    issue(rt, &mut ends.receiving[1], 3);
    let wanted = [0x21, 0, 0, 0, 1, 0x21, 0, 0, 0, 3, 0x21, 0, 0, 0, 2];
    join(
        rt,
        || issue_and_stop(rt, ends, session),
        || write_late(rt, alloc, writing, &wanted),
    );
    Some(())
}

#[test]
fn a_freed_slot_wakes_an_end(rt: HostRuntime) {
    ran(&rt, wait_for_a_slot(&rt, rt.alloc()));
}

// Waits until the reading pump's run is over, and counts the waits that ended before.
fn sleep_sending<R: Wait>(rt: &R, end: &mut SendEnd, waits: &AtomicU64) {
    for _ in rt.forever() {
        if end.wait(rt) == Wake::Over {
            return;
        }
        waits.fetch_add(1, Ordering::SeqCst);
    }
}

fn sleep_receiving<R: Wait>(rt: &R, end: &mut RecvEnd, waits: &AtomicU64) {
    for _ in rt.forever() {
        if end.wait(rt) == Wake::Over {
            return;
        }
        waits.fetch_add(1, Ordering::SeqCst);
    }
}

fn sleep_each_sending<R: Threads + Wait + Sync>(rt: &R, ends: &mut [SendEnd; CHANNELS]) {
    let waits = AtomicU64::new(0);
    thread::for_each_mut(rt, ends, CHANNELS, &|_, end| sleep_sending(rt, end, &waits));
}

fn sleep_each_receiving<R: Threads + Wait + Sync>(rt: &R, ends: &mut [RecvEnd; CHANNELS]) {
    let waits = AtomicU64::new(0);
    thread::for_each_mut(
        rt,
        ends,
        CHANNELS,
        &|_, end| sleep_receiving(rt, end, &waits),
    );
}

// All ends wait, each in a thread of its own.
fn sleep_all<R: Threads + Wait + Sync>(rt: &R, ends: &mut Ends) {
    let sending = &mut ends.sending;
    let receiving = &mut ends.receiving;
    join(
        rt,
        || sleep_each_sending(rt, sending),
        || sleep_each_receiving(rt, receiving),
    );
}

// A run that reads to the end of the stream.
fn read<R: Wait + Abort, D: Read + Drop>(rt: &R, pump: &mut ReadPump, reader: D) {
    let mut reader = Counted::new(reader);
    let end = pump.run(rt, &mut reader, u64::MAX);
    equal(rt, "a reading pump", end, ReadEnd::Clean);
}

// It ends once the ends sleep.
fn read_late<R: Wait + Abort>(rt: &R, pump: &mut ReadPump) {
    give_way();
    read(rt, pump, b"".as_slice());
}

fn end_reading<R>(rt: &R, alloc: Global) -> Option<()>
where
    R: Threads + Wait + Abort + Sync,
{
    let mut side = new_side(alloc, 8, 4)?;
    let ends = &mut side.ends;
    let reading = &mut side.pumps.reading;
    join(rt, || sleep_all(rt, ends), || read_late(rt, reading));
    Some(())
}

// Says a limit again and again, and waits for a slot where there is none, until there will be none.
fn put_sending<R: Wait>(rt: &R, end: &mut SendEnd) {
    for _ in rt.forever() {
        if end.limit(rt, 9).is_err() && end.wait(rt) == Wake::Over {
            return;
        }
    }
}

fn put_receiving<R: Wait>(rt: &R, end: &mut RecvEnd) {
    for _ in rt.forever() {
        if end.limit(rt, 9).is_err() && end.wait(rt) == Wake::Over {
            return;
        }
    }
}

// All ends do, each in a thread of its own.
fn put_all<R: Threads + Wait + Sync>(rt: &R, ends: &mut Ends) {
    let sending = &mut ends.sending;
    let receiving = &mut ends.receiving;
    join(
        rt,
        || thread::for_each_mut(rt, sending, CHANNELS, &|_, end| put_sending(rt, end)),
        || thread::for_each_mut(rt, receiving, CHANNELS, &|_, end| put_receiving(rt, end)),
    );
}

/// A writer that is gone.
#[derive(Drop)]
struct Gone;

impl Write for Gone {
    fn write(&mut self, _buf: &[u8]) -> io::Result<usize> {
        Err(io::Error::from(ErrorKind::BrokenPipe))
    }

    fn flush(&mut self) -> io::Result<()> {
        Ok(())
    }
}

// Its run ends once the ends sleep.
fn write_in_vain<R: Wait + Abort>(rt: &R, pump: &mut WritePump) {
    give_way();
    let end = pump.run(rt, &mut Counted::new(Gone));
    equal(rt, "a writing pump", end, WriteEnd::Failed);
}

fn end_writing<R>(rt: &R, alloc: Global) -> Option<()>
where
    R: Threads + Wait + Abort + Sync,
{
    let mut side = new_side(alloc, 8, 4)?;
    let ends = &mut side.ends;
    let writing = &mut side.pumps.writing;
    join(rt, || put_all(rt, ends), || write_in_vain(rt, writing));
    Some(())
}

#[test]
fn the_end_of_a_run_wakes_all_ends(rt: HostRuntime) {
    ran(&rt, end_reading(&rt, rt.alloc()));
    ran(&rt, end_writing(&rt, rt.alloc()));
}

// Each kind of end waits so long at most, and this is how that ends.
fn wait_each<R: Wait + Clock + Abort>(rt: &R, ends: &mut Ends, timeout: Duration, wake: Wake) {
    let sent = ends.sending[0].wait_timeout(rt, timeout);
    equal(rt, "a wait to send", sent, wake);
    let took = ends.receiving[0].wait_timeout(rt, timeout);
    equal(rt, "a wait to take", took, wake);
}

fn wait_in_time<R: Wait + Clock + Abort>(rt: &R, alloc: Global) -> Option<()> {
    let mut side = new_side(alloc, 8, 4)?;
    let ends = &mut side.ends;
    wait_each(rt, ends, Duration::from_millis(1), Wake::Again);
    read(rt, &mut side.pumps.reading, b"".as_slice());
    wait_each(rt, ends, Duration::MAX, Wake::Again);
    wait_each(rt, ends, Duration::MAX, Wake::Over);
    Some(())
}

#[test]
fn a_wait_ends_in_time(rt: HostRuntime) {
    ran(&rt, wait_in_time(&rt, rt.alloc()));
}

// It is told of the end of a run. Each further wait is over until another run has begun.
fn await_run<R: Wait + Clock>(rt: &R, end: &mut SendEnd) {
    end.wait_timeout(rt, Duration::MAX);
    for _ in rt.forever() {
        if end.wait_timeout(rt, Duration::from_millis(1)) == Wake::Again {
            return;
        }
    }
}

// Once a further run has begun, guarantees come in it, of which the end is told.
fn await_guarantees<R>(rt: &R, end: &mut SendEnd, mut writer: TcpStream)
where
    R: Wait + Clock + Abort,
{
    await_run(rt, end);
    let written = writer.write_all(&[0x21, 0, 0, 0, 5]);
    assert!(rt; written.is_ok());
    wait_to_send(rt, end);
    drop(writer);
}

fn run_again<R>(rt: &R, alloc: Global) -> Option<()>
where
    R: Threads + Wait + Clock + Abort + Sync + Net<Listener = TcpListener, Stream = TcpStream>,
{
    let (writer, reader) = connection(rt).ok()?;
    let mut side = new_side(alloc, 8, 4)?;
    let ends = &mut side.ends;
    let reading = &mut side.pumps.reading;
    read(rt, reading, b"".as_slice());
    join(
        rt,
        || await_guarantees(rt, &mut ends.sending[1], writer),
        || read(rt, reading, reader),
    );
    Some(())
}

#[test]
fn a_further_run_is_not_over(rt: HostRuntime) {
    ran(&rt, run_again(&rt, rt.alloc()));
}

/// How many frames a paced reader gives.
const PACED: u64 = 10;

/// A reader that gives a frame again and again, once its run has begun. Before each it lets the others get
/// on, and finds that as many waits have ended as frames were given, and one for the end of an earlier run.
#[derive(Drop)]
struct Paced<'a, R> {
    rt: &'a R,
    frame: &'a [u8],
    given: u64,
    begun: &'a AtomicU64,
    waits: &'a AtomicU64,
}

impl<R: Wait + Abort> Read for Paced<'_, R> {
    fn read(&mut self, buf: &mut [u8]) -> io::Result<usize> {
        self.begun.store(1, Ordering::SeqCst);
        await_count(self.rt, self.waits, self.given.saturating_add(1));
        for _ in 0..10 {
            thread::yield_now();
        }
        let waits = self.waits.load(Ordering::SeqCst);
        assert!(self.rt;
            waits == self.given.saturating_add(1),
            "{waits} waits ended of 1 and {}",
            self.given
        );
        if self.given == PACED {
            return Ok(0);
        }
        self.given = self.given.saturating_add(1);
        let mut frame = self.frame;
        frame.read(buf)
    }
}

// An end of channel 1 waits for frames that come one by one. A run ended before it waits, so its first wait
// leaves the token of that, which is no reason to end the next one.
fn wait_for_each<'a, R>(rt: &'a R, alloc: Global, frame: &'a [u8], sends: bool) -> Option<()>
where
    R: Threads + Wait + Abort + Sync,
{
    let mut side = new_side(alloc, 8, 4)?;
    let ends = &mut side.ends;
    let reading = &mut side.pumps.reading;
    let (begun, waits) = (AtomicU64::new(0), AtomicU64::new(0));
    read(rt, reading, b"".as_slice());
    let reader = Paced {
        rt,
        frame,
        given: 0,
        begun: &begun,
        waits: &waits,
    };
    join(
        rt,
        || {
            await_count(rt, &begun, 1);
            if sends {
                sleep_sending(rt, &mut ends.sending[1], &waits);
            } else {
                sleep_receiving(rt, &mut ends.receiving[1], &waits);
            }
        },
        || read(rt, reading, reader),
    );
    Some(())
}

#[test]
fn each_frame_ends_one_wait(rt: HostRuntime) {
    in_time(&rt, || {
        let limit = [0x51, 0, 0, 0, 0, 0, 0, 0, 9];
        ran(
            &rt,
            wait_for_each(&rt, rt.alloc(), &[0x21, 0, 0, 0, 1], true),
        );
        ran(&rt, wait_for_each(&rt, rt.alloc(), &limit, false));
    });
}
