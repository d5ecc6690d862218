//! Many ends that sleep and are told of something all at once: each of them wakes.
use crate::tests::slots::pop_frames;
use crate::tests::staged::{await_count, in_time};
use lc_frame::{CHANNELS, Channel, Lane};
use lc_wake::{PumpWaiter, Waiter, Wakers, Waking};
use std::sync::Wait;
use std::sync::atomic::{AtomicU64, Ordering};
use std::test::Fail;
use std::thread;
use std::thread::{Threads, join};

const ROUNDS: u64 = 1000;

const ENDS: u64 = 14;

/// In how many rounds all ends were told, or are about to be; how often an end began a round, and how
/// often one was through it.
#[derive(Drop)]
struct Rounds {
    told: AtomicU64,
    begun: AtomicU64,
    ended: AtomicU64,
}

// Waits until it is told, since a wait may end once too often.
fn await_round<R: Wait>(rt: &R, end: &mut Waiter, rounds: &Rounds, round: u64) {
    for _ in rt.forever() {
        if rounds.told.load(Ordering::SeqCst) > round {
            return;
        }
        end.met_full_queue();
        let _wake = end.wait(rt);
    }
}

fn wait_in_rounds<R: Wait>(rt: &R, end: &mut Waiter, rounds: &Rounds) {
    for round in 0..ROUNDS {
        rounds.begun.fetch_add(1, Ordering::SeqCst);
        await_round(rt, end, rounds, round);
        rounds.ended.fetch_add(1, Ordering::SeqCst);
    }
}

// All ends are told: that a frame of each was popped, or that one came for each.
fn tell_all(pump: &mut PumpWaiter, wakers: &Wakers, round: u64) {
    for channel in Channel::ALL {
        for lane in [Lane::Client(channel), Lane::Server(channel)] {
            if round % 2 == 0 {
                pop_frames(pump, &[lane]);
            } else {
                wakers.frame_came(lane);
            }
        }
    }
}

// Tells all ends in each round once, after all have begun it, and goes on when all are through.
fn tell_in_rounds<R: Wait>(rt: &R, pump: &mut PumpWaiter, wakers: &Wakers, rounds: &Rounds) {
    for round in 0..ROUNDS {
        let all = ENDS * (round + 1);
        await_count(rt, &rounds.begun, all);
        // So that sometimes all sleep, and sometimes some or none.
        for _ in 0..round % 5 * 10 {
            thread::yield_now();
        }
        rounds.told.store(round + 1, Ordering::SeqCst);
        tell_all(pump, wakers, round);
        await_count(rt, &rounds.ended, all);
    }
}

fn wait_each<R: Threads + Wait + Sync>(rt: &R, ends: &mut [Waiter; CHANNELS], rounds: &Rounds) {
    thread::for_each_mut(
        rt,
        ends,
        CHANNELS,
        &|_, end| wait_in_rounds(rt, end, rounds),
    );
}

// All ends wait in threads of their own, beside the one that tells them.
fn run<R: Threads + Wait + Sync>(rt: &R, waking: Waking) {
    let Waking {
        mut sending,
        mut receiving,
        mut pump,
        wakers,
    } = waking;
    let rounds = Rounds {
        told: AtomicU64::new(0),
        begun: AtomicU64::new(0),
        ended: AtomicU64::new(0),
    };
    join(
        rt,
        || {
            join(
                rt,
                || wait_each(rt, &mut sending, &rounds),
                || wait_each(rt, &mut receiving, &rounds),
            );
        },
        || tell_in_rounds(rt, &mut pump, &wakers, &rounds),
    );
}

#[test]
fn all_that_are_told_wake(rt: HostRuntime) -> Result<(), Fail> {
    let waking = Waking::new(rt.alloc())?;
    in_time(&rt, || run(&rt, waking));
    Ok(())
}
