//! Made schedules of a session's fourteen ends and its writing pump, and how many frames of others go before an
//! end's own. At each moment one of them is let go on, by a number that was made: an end makes one call, the pump
//! writes what it has and looks at the queue again. An end that is told of a slot makes its call before any other
//! end does: so what is counted is what the session itself does, and not how late a thread is. A frame has gone
//! once the pump has popped it.
//!
//! A queue has fourteen places beside its `slots`. So between an accepted call and its frame at most `slots + 13`
//! frames of others go. A call is refused only while a frame of its own lane is queued; the end is told as soon as
//! the pump has popped one, and its next call is accepted. Until that pop at most `slots + 13` of others go; those
//! popped in the same look and those queued behind it are as many again; and the thirteen other ends may be told
//! by that look and call first.
use lc_driver::Counted;
use lc_frame::{CHANNELS, Channel, Decoded, FrameRef, LANES, Lane, Version, decode};
use lc_peer::Config;
use lc_session::{Parts, ReadPump, RecvEnd, SendEnd, Session, WritePump};
use std::alloc::Global;
use std::io::{Read, Write};
use std::sync::atomic::{AtomicU64, Ordering};
use std::sync::{Mutex, Wait};
use std::thread::{Threads, join};
use std::time::{Clock, Duration};
use std::{io, thread};

/// What an end or the pump is at, as its word says.
const READY: u64 = 0;

const GOES: u64 = 1;

const ASLEEP: u64 = 2;

const TOLD: u64 = 3;

/// The pump's place behind the ends'.
const PUMP: usize = LANES;

const ALL: usize = LANES + 1;

/// All ends but one.
const OTHERS: u64 = LANES as u64 - 1;

/// Longer than a schedule takes, in seconds.
const LONG: u64 = 3_600;

/// The guarantees of a channel, and a limit that limits nothing.
const GUARANTEES: u32 = 1 << 24;

const ENOUGH: u64 = 1 << 40;

/// The calls of a schedule.
const CALLS: u32 = 40;

/// The slots of the sessions that are tried, and in how many ways a schedule is made: over each, with messages of
/// both lengths.
const SLOTS: [u32; 6] = [1, 3, 5, 8, 14, 64];

const WAYS: u32 = 12;

/// A long message: the pump has no room for three. So many schedules use up less than the guarantees.
const LONG_MESSAGE: usize = 61_440;

const LONG_SCHEDULES: u32 = 50;

// The bits of a word by which who sleeps on it is woken.
fn low_half(word: u64) -> u32 {
    u32::try_from(word & 0xffff_ffff).unwrap_or(0)
}

/// What the threads share.
#[derive(Drop)]
struct Stage {
    words: [AtomicU64; ALL],
    /// How often a word was changed by who it is of.
    reports: AtomicU64,
    /// Whether all guarantees have come, and whether the schedules are over.
    heard: AtomicU64,
    over: AtomicU64,
    /// The lanes of the frames of the last write.
    written: Mutex<Vec<u8>>,
}

impl Stage {
    fn new(alloc: Global) -> Stage {
        Stage {
            words: [0; ALL].map(|word| AtomicU64::new(word)),
            reports: AtomicU64::new(0),
            heard: AtomicU64::new(0),
            over: AtomicU64::new(0),
            written: Mutex::new(Vec::new(alloc)),
        }
    }

    fn word(&self, place: usize) -> u64 {
        match self.words.get(place) {
            Some(word) => word.load(Ordering::SeqCst),
            None => READY,
        }
    }

    fn set(&self, place: usize, at: u64) {
        if let Some(word) = self.words.get(place) {
            word.store(at, Ordering::SeqCst);
            word.wake_all();
        }
    }

    // Who goes on at a place says what it is at.
    fn report(&self, place: usize, at: u64) {
        self.set(place, at);
        self.reports.fetch_add(1, Ordering::SeqCst);
        self.reports.wake_all();
    }

    // Waits until who is at a place may go on. Whether it is to.
    fn await_turn<R: Wait>(&self, rt: &R, place: usize) -> bool {
        for _ in rt.forever() {
            let at = self.word(place);
            if self.over.load(Ordering::SeqCst) != 0 {
                return false;
            }
            if at == GOES {
                return true;
            }
            if let Some(word) = self.words.get(place) {
                word.park(rt, low_half(at));
            }
        }
        unreachable!()
    }

    // Whether no end sleeps.
    fn are_awake(&self) -> bool {
        let mut awake = true;
        for place in 0..LANES {
            awake &= self.word(place) != ASLEEP;
        }
        awake
    }

    // Waits until who is at a place has gone on to where it waits next: what it is at then.
    fn await_place<R: Wait>(&self, rt: &R, place: usize) -> u64 {
        for _ in rt.forever() {
            let seen = self.reports.load(Ordering::SeqCst);
            let at = self.word(place);
            if at != GOES {
                return at;
            }
            self.reports.park(rt, low_half(seen));
        }
        unreachable!()
    }

    // Waits until the pump, which slept, has popped a frame. A wake-up that came when it had found one by itself
    // may end its sleep once too often, and then it says once more that it sleeps.
    fn await_written<R: Wait>(&self, rt: &R) {
        for _ in rt.forever() {
            let seen = self.reports.load(Ordering::SeqCst);
            if self.word(PUMP) == READY {
                return;
            }
            self.reports.park(rt, low_half(seen));
        }
    }

    // Waits until the end at a place does not sleep.
    fn await_awake<R: Wait>(&self, rt: &R, place: usize) {
        for _ in rt.forever() {
            let seen = self.reports.load(Ordering::SeqCst);
            if self.word(place) != ASLEEP {
                return;
            }
            self.reports.park(rt, low_half(seen));
        }
    }

    fn await_guarantees<R: Wait>(&self, rt: &R) {
        for _ in rt.forever() {
            let seen = self.reports.load(Ordering::SeqCst);
            if self.heard.load(Ordering::SeqCst) != 0 {
                return;
            }
            self.reports.park(rt, low_half(seen));
        }
    }

    // Lets who is at a place go on to where it waits next: what it is at then.
    fn let_go<R: Wait>(&self, rt: &R, place: usize) -> u64 {
        self.set(place, GOES);
        self.await_place(rt, place)
    }

    fn end(&self) {
        self.over.store(1, Ordering::SeqCst);
        for place in 0..ALL {
            self.set(place, GOES);
        }
    }
}

/// A clock whose first reading says that the end at a place sleeps.
#[derive(Drop)]
struct Bed<'a, R> {
    rt: &'a R,
    stage: &'a Stage,
    place: usize,
    readings: AtomicU64,
}

impl<'a, R> Bed<'a, R> {
    fn new(rt: &'a R, stage: &'a Stage, place: usize) -> Bed<'a, R> {
        Bed {
            rt,
            stage,
            place,
            readings: AtomicU64::new(0),
        }
    }

    fn has_slept(&self) -> bool {
        self.readings.load(Ordering::SeqCst) > 0
    }
}

impl<R: Wait> Wait for Bed<'_, R> {}

impl<R: Wait + Clock> Clock for Bed<'_, R> {
    fn monotonic(&self) -> io::Result<Duration> {
        if self.readings.fetch_add(1, Ordering::SeqCst) == 0 {
            self.stage.report(self.place, ASLEEP);
        }
        self.rt.monotonic()
    }

    fn since_1970(&self) -> io::Result<Duration> {
        self.monotonic()
    }
}

// In its first turn an end lets two waits end: by the guarantees that came, and by the token that these left.
fn settle<R: Wait + Clock>(rt: &R, stage: &Stage, end: &mut SendEnd, place: usize) {
    if stage.await_turn(rt, place) {
        for _ in 0..2 {
            end.wait_timeout(rt, Duration::ZERO);
        }
        stage.report(place, READY);
    }
}

// Sends a message, or sleeps where there is no slot: what the end is at then. A wait that ends at once, by what was
// popped before the call, is no sleep.
fn send<R: Wait + Clock>(rt: &R, stage: &Stage, end: &mut SendEnd, message: &[u8]) -> u64 {
    for _ in rt.forever() {
        if end.send(rt, message).is_ok() {
            return READY;
        }
        let bed = Bed::new(rt, stage, Lane::Client(end.channel()).index());
        end.wait_timeout(&bed, Duration::from_secs(LONG));
        if bed.has_slept() {
            return TOLD;
        }
    }
    unreachable!()
}

// Says a limit again, or sleeps.
fn limit<R: Wait + Clock>(rt: &R, stage: &Stage, end: &mut RecvEnd) -> u64 {
    for _ in rt.forever() {
        if end.limit(rt, ENOUGH).is_ok() {
            return READY;
        }
        let bed = Bed::new(rt, stage, Lane::Server(end.channel()).index());
        end.wait_timeout(&bed, Duration::from_secs(LONG));
        if bed.has_slept() {
            return TOLD;
        }
    }
    unreachable!()
}

// Sends a message in each further turn.
fn use_sender<R: Wait + Clock>(rt: &R, stage: &Stage, end: &mut SendEnd, message: &[u8]) {
    let place = Lane::Client(end.channel()).index();
    settle(rt, stage, end, place);
    for _ in rt.forever() {
        if !stage.await_turn(rt, place) {
            return;
        }
        stage.report(place, send(rt, stage, end, message));
    }
}

// Says a limit in each turn.
fn use_taker<R: Wait + Clock>(rt: &R, stage: &Stage, end: &mut RecvEnd) {
    let place = Lane::Server(end.channel()).index();
    for _ in rt.forever() {
        if !stage.await_turn(rt, place) {
            return;
        }
        stage.report(place, limit(rt, stage, end));
    }
}

// Each end in a thread of its own.
fn use_ends<R: Threads + Wait + Clock + Sync>(
    rt: &R,
    stage: &Stage,
    mut sending: [SendEnd; CHANNELS],
    mut receiving: [RecvEnd; CHANNELS],
    message: &[u8],
) {
    join(
        rt,
        || {
            thread::for_each_mut(
                rt,
                &mut sending,
                CHANNELS,
                &|_, end| use_sender(rt, stage, end, message),
            );
        },
        || {
            thread::for_each_mut(
                rt,
                &mut receiving,
                CHANNELS,
                &|_, end| use_taker(rt, stage, end),
            );
        },
    );
}

/// A writer that waits for its turn at each write, and says where it is flushed that the pump is about to sleep.
#[derive(Drop)]
struct Desk<'a, R> {
    rt: &'a R,
    stage: &'a Stage,
}

// The lanes of all frames of a write, in order.
fn lanes(mut bytes: &[u8], lanes: &mut Vec<u8>) -> io::Result<()> {
    lanes.clear();
    for _ in 0..u64::MAX {
        let Decoded::Whole { frame, used } = decode(Version::One, bytes) else {
            return Ok(());
        };
        lanes.push(frame.lane())?;
        bytes = bytes.get(used..).unwrap_or(&[]);
    }
    Ok(())
}

impl<R: Wait> Write for Desk<'_, R> {
    fn write(&mut self, buf: &[u8]) -> io::Result<usize> {
        lanes(buf, &mut self.stage.written.lock(self.rt))?;
        self.stage.report(PUMP, READY);
        self.stage.await_turn(self.rt, PUMP);
        Ok(buf.len())
    }

    fn flush(&mut self) -> io::Result<()> {
        self.stage.report(PUMP, ASLEEP);
        Ok(())
    }
}

/// A reader that gives its bytes, and ends when the schedules have.
#[derive(Drop)]
struct Source<'a, R> {
    rt: &'a R,
    stage: &'a Stage,
    bytes: &'a [u8],
}

impl<R: Wait + Clock> Read for Source<'_, R> {
    fn read(&mut self, buf: &mut [u8]) -> io::Result<usize> {
        if self.bytes.is_empty() {
            self.stage.heard.store(1, Ordering::SeqCst);
            self.stage.reports.fetch_add(1, Ordering::SeqCst);
            self.stage.reports.wake_all();
        }
        for _ in self.rt.forever() {
            if !self.bytes.is_empty() || self.stage.over.load(Ordering::SeqCst) != 0 {
                break;
            }
            thread::sleep(self.rt, Duration::from_millis(1));
        }
        self.bytes.read(buf)
    }
}

/// Numbers that look random, by the method SplitMix64.
#[derive(Clone, Copy)]
struct Random(u64);

impl Random {
    // A number below another one.
    fn below(&mut self, count: usize) -> usize {
        self.0 = self.0.wrapping_add(0x9e37_79b9_7f4a_7c15);
        let mut mixed = self.0;
        mixed = (mixed ^ (mixed >> 30)).wrapping_mul(0xbf58_476d_1ce4_e5b9);
        mixed = (mixed ^ (mixed >> 27)).wrapping_mul(0x94d0_49bb_1331_11eb);
        mixed ^= mixed >> 31;
        mixed.checked_rem(count as u64).unwrap_or(0) as usize
    }
}

/// A frame that is on its way: its lane, how many frames of others had gone at the end's call, and how many more
/// of these may go before it.
#[derive(Clone, Copy)]
struct Due {
    lane: usize,
    before: u64,
    most: u64,
}

/// What is known of all frames.
#[derive(Drop)]
struct Ledger {
    /// How many frames of others may be queued beside one.
    beside: u64,
    /// How many frames have gone, in all and of each lane, and how many were put there.
    gone: u64,
    own: [u64; LANES],
    put: [u64; LANES],
    /// Of an end that was refused, what had gone of others at its first call since its last frame.
    refused: [Option<u64>; LANES],
    /// The frames that were put and have not gone, behind so many that have.
    due: Vec<Due>,
    next: usize,
}

impl Ledger {
    fn new(alloc: Global, slots: u32) -> Ledger {
        Ledger {
            beside: u64::from(slots).saturating_add(OTHERS),
            gone: 0,
            own: [0; LANES],
            put: [0; LANES],
            refused: [None; LANES],
            due: Vec::new(alloc),
            next: 0,
        }
    }

    // How many frames of others than this lane have gone.
    fn others(&self, lane: usize) -> u64 {
        self.gone
            .saturating_sub(self.own.get(lane).copied().unwrap_or(0))
    }

    // An end's call was refused for want of a slot. Whether it may be: a frame of its lane is queued.
    fn refuse(&mut self, lane: usize) -> bool {
        let others = self.others(lane);
        if let Some(refused) = self.refused.get_mut(lane) {
            *refused = Some(refused.unwrap_or(others));
        }
        self.put.get(lane) > self.own.get(lane)
    }

    // How many frames of others may go before one whose call was refused first, or was not.
    fn most(&self, was_refused: bool) -> u64 {
        if was_refused {
            self.beside.saturating_mul(2).saturating_add(OTHERS)
        } else {
            self.beside
        }
    }

    // An end put a frame. Whether there was memory to note it.
    fn put(&mut self, lane: usize) -> bool {
        let first = match self.refused.get_mut(lane) {
            Some(refused) => refused.take(),
            None => None,
        };
        let due = Due {
            lane,
            before: first.unwrap_or(self.others(lane)),
            most: self.most(first.is_some()),
        };
        if let Some(put) = self.put.get_mut(lane) {
            *put = put.saturating_add(1);
        }
        if self.next == self.due.len() {
            self.due.clear();
            self.next = 0;
        }
        self.due.push(due).is_ok()
    }

    // A frame went. Whether it is the next one, and no more than may went before it.
    fn go(&mut self, lane: usize) -> bool {
        let Some(&due) = self.due.get(self.next) else {
            return false;
        };
        let passed = self.others(lane).saturating_sub(due.before);
        self.next = self.next.saturating_add(1);
        self.gone = self.gone.saturating_add(1);
        if let Some(own) = self.own.get_mut(lane) {
            *own = own.saturating_add(1);
        }
        due.lane == lane && passed <= due.most
    }
}

/// Who lets the others go on.
#[derive(Drop)]
struct Maker<'a, R> {
    rt: &'a R,
    stage: &'a Stage,
    random: Random,
    ledger: Ledger,
}

impl<R: Wait + Clock> Maker<'_, R> {
    // One of the places where something is at this, if any: ends, and the pump where it may be.
    fn some_at(&mut self, at: u64, with_pump: bool) -> Option<usize> {
        let most = if with_pump { ALL } else { LANES };
        let first = self.random.below(most);
        for step in 0..most {
            let place = first.saturating_add(step).checked_rem(most).unwrap_or(0);
            if self.stage.word(place) == at {
                return Some(place);
            }
        }
        None
    }

    // What the pump popped has gone: whether all went in turn. The ends that had put it are told, if they sleep.
    fn note_written(&mut self) -> bool {
        let mut in_turn = true;
        for &lane in self.stage.written.lock(self.rt).iter() {
            let lane = usize::from(lane);
            in_turn &= self.ledger.go(lane);
            self.stage.await_awake(self.rt, lane);
        }
        in_turn
    }

    // The pump goes on: it writes what it popped, or is about to sleep, and then no end waits for a slot.
    fn let_pump_go(&mut self) -> bool {
        if self.stage.let_go(self.rt, PUMP) == READY {
            self.note_written()
        } else {
            self.stage.are_awake()
        }
    }

    // An end makes a call, which is not refused where it was told. Where the pump sleeps a frame wakes it.
    fn let_end_go(&mut self, place: usize) -> bool {
        let rests = self.stage.word(PUMP) == ASLEEP;
        let was_told = self.stage.word(place) == TOLD;
        match self.stage.let_go(self.rt, place) {
            READY if rests => {
                let noted = self.ledger.put(place);
                self.stage.await_written(self.rt);
                noted && self.note_written()
            }
            READY => self.ledger.put(place),
            _ => self.ledger.refuse(place) && !was_told,
        }
    }

    // A schedule: who is told goes first, and else any end or the pump. Whether all went in turn.
    fn make(&mut self) -> bool {
        let pumps = self.random.below(8);
        for _ in 0..CALLS {
            let place = match self.some_at(TOLD, false) {
                Some(told) => Some(told),
                None => {
                    let with_pump = self.random.below(8) <= pumps;
                    let chosen = self.some_at(READY, with_pump);
                    chosen.or(self.some_at(READY, true))
                }
            };
            let in_turn = match place {
                Some(PUMP) => self.let_pump_go(),
                Some(place) => self.let_end_go(place),
                None => false,
            };
            if !in_turn {
                return false;
            }
        }
        true
    }

    fn make_all(&mut self, schedules: u32) -> bool {
        // The pump is about to sleep before anything was put.
        self.stage.await_place(self.rt, PUMP);
        self.stage.await_guarantees(self.rt);
        for channel in Channel::ALL {
            self.stage.let_go(self.rt, Lane::Client(channel).index());
        }
        for _ in 0..schedules {
            if !self.make() {
                return false;
            }
        }
        true
    }
}

// Guarantees for all sending ends.
fn guarantees(alloc: Global) -> Option<Vec<u8>> {
    let mut bytes = Vec::new(alloc);
    for channel in Channel::ALL {
        let frame = FrameRef::Issue {
            channel,
            amount: GUARANTEES,
        };
        let mut buffer = [0; 8];
        let len = frame.encode_to_slice(Version::One, &mut buffer).ok()?;
        bytes.extend_from_slice(buffer.get(..len)?).ok()?;
    }
    Some(bytes)
}

fn write<R: Wait>(rt: &R, stage: &Stage, mut pump: WritePump) {
    let _end = pump.run(rt, &mut Counted::new(Desk { rt, stage }));
}

fn read<R: Wait + Clock>(rt: &R, stage: &Stage, mut pump: ReadPump, bytes: &[u8]) {
    let _end = pump.run(rt, &mut Counted::new(Source { rt, stage, bytes }), u64::MAX);
}

// Both pumps at work.
fn use_pumps<R: Threads + Wait + Clock + Sync>(
    rt: &R,
    stage: &Stage,
    reading: ReadPump,
    bytes: &[u8],
    writing: WritePump,
) {
    join(
        rt,
        || read(rt, stage, reading, bytes),
        || write(rt, stage, writing),
    );
}

/// The schedules of a session: its slots, how long its messages are, and from which number on they are made.
#[derive(Clone, Copy)]
struct Course {
    slots: u32,
    message: usize,
    schedules: u32,
    seed: u32,
}

// Makes all schedules, and ends them. Whether all frames went in turn.
fn direct<R: Wait + Clock>(
    rt: &R,
    alloc: Global,
    stage: &Stage,
    session: &Session,
    course: Course,
) -> bool {
    let mut maker = Maker {
        rt,
        stage,
        random: Random(u64::from(course.seed)),
        ledger: Ledger::new(alloc, course.slots),
    };
    let in_turn = maker.make_all(course.schedules);
    stage.end();
    session.stop();
    in_turn
}

// All schedules of a session. Whether all frames went in turn.
fn make_with<R>(rt: &R, alloc: Global, course: Course) -> Option<bool>
where
    R: Threads + Wait + Clock + Sync,
{
    let config = Config {
        version: Version::One,
        capacities: [1; CHANNELS],
        slots: course.slots,
    };
    let Parts {
        session,
        send_ends,
        recv_ends,
        read_pump,
        write_pump,
    } = Session::new(alloc, config).ok()?;
    let bytes = guarantees(alloc)?;
    let message = vec![in alloc; 0u8; course.message].ok()?;
    let stage = Stage::new(alloc);
    stage.set(PUMP, GOES);
    let (in_turn, ()) = join(
        rt,
        || direct(rt, alloc, &stage, &session, course),
        || {
            join(
                rt,
                || use_ends(rt, &stage, send_ends, recv_ends, &message),
                || use_pumps(rt, &stage, read_pump, &bytes, write_pump),
            );
        },
    );
    Some(in_turn)
}

// The same with long messages, in sessions of a few schedules each.
fn make_long<R>(rt: &R, alloc: Global, slots: u32, schedules: u32) -> Option<bool>
where
    R: Threads + Wait + Clock + Sync,
{
    let mut in_turn = true;
    for session in 0..schedules.div_ceil(LONG_SCHEDULES) {
        let course = Course {
            slots,
            message: LONG_MESSAGE,
            schedules: LONG_SCHEDULES.min(schedules),
            seed: slots.saturating_add(session.saturating_mul(100)),
        };
        in_turn &= make_with(rt, alloc, course)?;
    }
    Some(in_turn)
}

/// Whether all frames go in turn, in so many made schedules, of messages of one byte and of long ones.
pub fn go_in_turn<R>(rt: &R, alloc: Global, schedules: u32) -> Option<bool>
where
    R: Threads + Wait + Clock + Sync,
{
    let mut in_turn = true;
    let schedules = schedules / WAYS;
    for slots in SLOTS {
        let course = Course {
            slots,
            message: 1,
            schedules,
            seed: slots,
        };
        in_turn &= make_with(rt, alloc, course)?;
        in_turn &= make_long(rt, alloc, slots, schedules)?;
    }
    Some(in_turn)
}
