//! Ends that wait side by side, and a pump, all in one thread: one end waits while the other's clock is
//! read, and what wakes them comes while its own is read.
use crate::tests::equal;
use crate::tests::staged::in_time;
use crate::tests::ticks::Ticks;
use lc_frame::{CHANNELS, Channel, LANES, Lane};
use lc_wake::{Found, Pump, PumpWaiter, Waiter, Wake, Wakers, Waking};
use std::alloc::Global;
use std::io;
use std::process::Abort;
use std::sync::{Arc, Mutex, Wait};
use std::test::Fail;
use std::time::{Clock, Duration};

/// What comes while ends sleep.
#[derive(Clone, Copy)]
enum News {
    /// A look of the pump pops a frame of each of these lanes.
    Popped(&'static [Lane]),
    /// The pump is about to sleep.
    Rests,
    /// A frame that concerns an end.
    Came(Lane),
    /// The end of a pump's run.
    Ended(Pump),
}

/// A clock at whose first reading there are news.
#[derive(Drop)]
struct Busy<'a, R> {
    rt: &'a R,
    ticks: Ticks<&'a R>,
    news: News,
    pump: &'a Mutex<PumpWaiter>,
    wakers: &'a Wakers,
}

/// A look of the pump pops a frame of each of these lanes.
pub fn pop_frames(pump: &mut PumpWaiter, lanes: &[Lane]) {
    let mut look = pump.look();
    for lane in lanes {
        look.note_popped(lane.number());
    }
    if let Found::Frames(popped) = look.found() {
        pump.note_popped(popped);
    }
}

// The pump goes on until it is about to sleep.
fn rest(pump: &mut PumpWaiter) {
    for _ in 0..10 {
        if pump.is_to_sleep() {
            return;
        }
    }
}

impl<'a, R: Wait> Busy<'a, R> {
    fn new(rt: &'a R, pump: &'a Mutex<PumpWaiter>, wakers: &'a Wakers, news: News) -> Busy<'a, R> {
        Busy {
            rt,
            ticks: Ticks::new(rt),
            news,
            pump,
            wakers,
        }
    }

    fn come(&self) {
        let mut pump = self.pump.lock(self.rt);
        match self.news {
            News::Popped(lanes) => pop_frames(&mut pump, lanes),
            News::Rests => rest(&mut pump),
            News::Came(end) => self.wakers.frame_came(end),
            News::Ended(pump) => self.wakers.end_run(pump),
        }
    }
}

impl<R: Wait> Wait for Busy<'_, R> {}

impl<R: Wait> Clock for Busy<'_, R> {
    fn monotonic(&self) -> io::Result<Duration> {
        if self.ticks.readings() == 0 {
            self.come();
        }
        self.ticks.monotonic()
    }

    fn since_1970(&self) -> io::Result<Duration> {
        self.monotonic()
    }
}

/// A clock at whose first reading another end waits, by a clock of its own.
#[derive(Drop)]
struct Beside<'a, R> {
    ticks: Ticks<&'a R>,
    others: &'a Mutex<[Waiter; CHANNELS]>,
    clock: Busy<'a, R>,
}

// The receiving end of channel 0 waits.
fn wait_second<R: Wait>(rt: &R, others: &Mutex<[Waiter; CHANNELS]>, clock: &Busy<'_, R>) {
    let mut others = others.lock(rt);
    others[0].met_full_queue();
    others[0].wait_timeout(clock, Duration::from_micros(1));
}

impl<R: Wait> Wait for Beside<'_, R> {}

impl<R: Wait> Clock for Beside<'_, R> {
    fn monotonic(&self) -> io::Result<Duration> {
        if self.ticks.readings() == 0 {
            wait_second(self.clock.rt, self.others, &self.clock);
        }
        self.ticks.monotonic()
    }

    fn since_1970(&self) -> io::Result<Duration> {
        self.monotonic()
    }
}

// Ends at the two sides of the border between the kinds of lanes.
const FIRST: Lane = Lane::Client(Channel::StaticToken);

const SECOND: Lane = Lane::Server(Channel::Reconciliation);

// The other ends of their channels.
const BESIDE_FIRST: Lane = Lane::Server(Channel::StaticToken);

const BESIDE_SECOND: Lane = Lane::Client(Channel::Reconciliation);

/// Whether the first of two ends met a full queue, as the second did, what comes while both wait, and how
/// often each reads its clock: once where it was woken, twice where it was not, and never where it did not sleep.
const ROUNDS: [(bool, News, (u64, u64)); 17] = [
    // A pop of its own lane's frame wakes an end that wants a slot.
    (true, News::Popped(&[FIRST]), (1, 2)),
    (true, News::Popped(&[SECOND]), (2, 1)),
    (true, News::Popped(&[SECOND, FIRST]), (1, 1)),
    // And no other end, nor one that wants none, as this one since its last wait.
    (true, News::Popped(&[BESIDE_FIRST, BESIDE_SECOND]), (2, 2)),
    (false, News::Popped(&[FIRST, SECOND]), (2, 1)),
    (true, News::Rests, (2, 2)),
    // A frame that comes wakes an end whatever that wants.
    (true, News::Came(FIRST), (1, 2)),
    (false, News::Came(FIRST), (1, 2)),
    (true, News::Came(SECOND), (2, 1)),
    (true, News::Came(BESIDE_FIRST), (2, 2)),
    (true, News::Came(BESIDE_SECOND), (2, 2)),
    // Where nothing more is read an end still waits for a slot, and for nothing else.
    (true, News::Ended(Pump::Reading), (1, 1)),
    (true, News::Popped(&[FIRST]), (1, 2)),
    (false, News::Popped(&[SECOND]), (0, 0)),
    (true, News::Popped(&[SECOND]), (2, 1)),
    // Where nothing more is written it waits for none.
    (true, News::Ended(Pump::Writing), (1, 1)),
    (true, News::Popped(&[FIRST]), (0, 0)),
];

// What two ends that wait side by side share.
struct Shared {
    others: Mutex<[Waiter; CHANNELS]>,
    pump: Mutex<PumpWaiter>,
    wakers: Arc<Wakers, Global>,
}

// One call, wherever it is dropped.
impl Drop for Shared {
    fn drop(self) {
        let Shared {
            others: _,
            pump: _,
            wakers: _,
        } = self;
    }
}

impl Shared {
    fn clock<'a, R: Wait>(&'a self, rt: &'a R, news: News) -> Busy<'a, R> {
        Busy::new(rt, &self.pump, &self.wakers, news)
    }

    // A round in which the first end waits, and the second while it does: how often each read its clock.
    fn wait_both<R: Wait>(&self, rt: &R, first: &mut Waiter, news: News) -> (u64, u64) {
        let clock = Beside {
            ticks: Ticks::new(rt),
            others: &self.others,
            clock: self.clock(rt, news),
        };
        first.wait_timeout(&clock, Duration::from_micros(1));
        (clock.ticks.readings(), clock.clock.ticks.readings())
    }
}

// All rounds, in turn.
fn wait_in_rounds<R: Wait + Abort>(rt: &R, first: &mut Waiter, shared: &Shared) {
    for &(wants, news, wanted) in &ROUNDS {
        if wants {
            first.met_full_queue();
        }
        let found = shared.wait_both(rt, first, news);
        equal(rt, "a round", found, wanted);
    }
}

// Two ends wait side by side.
fn wait_beside<R: Wait + Abort>(rt: &R, waking: Waking) {
    let Waking {
        mut sending,
        receiving,
        pump,
        wakers,
    } = waking;
    let shared = Shared {
        others: Mutex::new(receiving),
        pump: Mutex::new(pump),
        wakers,
    };
    wait_in_rounds(rt, &mut sending[6], &shared);
}

// A pump is about to sleep twice: a frame is put, and then it is asked to stop, after a look began.
fn sleep_twice<R: Wait + Abort>(rt: &R, waking: Waking) {
    let Waking {
        mut sending,
        receiving: _,
        mut pump,
        wakers,
    } = waking;
    rest(&mut pump);
    sending[1].frame_put();
    pump.sleep(rt);
    rest(&mut pump);
    let early = pump.look();
    wakers.stop();
    pump.sleep(rt);
    let found = (early.found(), pump.look().found());
    equal(rt, "an empty queue", found, (Found::Nothing, Found::Stop));
    let mut late = pump.look();
    late.note_popped(13);
    assert!(rt; matches!(late.found(), Found::Frames(_)));
}

// An end waits, and nothing comes: it yields once before it sleeps.
fn wait_in_vain<R: Wait + Abort>(rt: &R, end: &mut Waiter) {
    let wake = end.wait_timeout(&Ticks::new(rt), Duration::from_micros(1));
    assert_eq!(rt; wake, Wake::Again);
}

// An end is refused as often as there are ends, and more: each wait yields once, that of any end.
// `scripts/threads` counts the yields.
fn wait_beside_refused<R: Wait + Abort>(rt: &R, waking: Waking) {
    let Waking {
        mut sending,
        mut receiving,
        pump: _,
        wakers: _,
    } = waking;
    let (refused, end) = (&mut sending[3], &mut receiving[5]);
    for _ in 0..3 * LANES {
        refused.met_full_queue();
    }
    wait_in_vain(rt, end);
    wait_in_vain(rt, refused);
    wait_in_vain(rt, end);
}

#[test]
fn an_end_yields_once_whoever_is_refused(rt: HostRuntime) -> Result<(), Fail> {
    wait_beside_refused(&rt, Waking::new(rt.alloc())?);
    Ok(())
}

#[test]
fn what_wakes_ends_and_a_pump(rt: HostRuntime) -> Result<(), Fail> {
    let (ends, pump) = (Waking::new(rt.alloc())?, Waking::new(rt.alloc())?);
    in_time(&rt, || {
        wait_beside(&rt, ends);
        sleep_twice(&rt, pump);
    });
    Ok(())
}
