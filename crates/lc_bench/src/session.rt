//! Two sessions over sockets, which are made anew in each turn, with their connections and threads.
use crate::figures::{Due, Figure, middle, nanoseconds};
use crate::plan::Plan;
use lc_frame::{CHANNELS, Version};
use lc_loopback::{loopback_of, ping_pong};
use std::io;
use std::sync::Wait;
use std::thread::Threads;
use std::time::{Clock, Instant};

/// The rounds of a turn of `ping_pong`: in each a message there and one back.
const ROUNDS: u32 = 2_000;

// What both sides do in a turn.
#[derive(Clone, Copy)]
enum Game {
    // So many rounds, in which a player may look as often as it likes.
    PingPong,
    // Messages on all channels, both ways, each compared with the one that was due.
    Exchange(lc_loopback::Plan),
}

// So many messages on each channel and way, as many of each length as of another, at the sizes that
// engines use. Half a ring is issued at once, as windows are given back.
fn exchange(shortest: u32, lengths: u32, messages: u32) -> lc_loopback::Plan {
    lc_loopback::Plan {
        capacity: 262_144,
        slots: 64,
        messages,
        shortest,
        lengths,
        issue_from: 131_072,
    }
}

// Whether both sides came to the end of a turn.
fn is_played<R>(rt: R, host: &HostRuntime, game: Game) -> bool
where
    R: Threads + Wait + Copy + Send + 'static,
{
    let alloc = host.alloc();
    match game {
        Game::PingPong => ping_pong(host, rt, alloc, ROUNDS, u32::MAX).is_ok(),
        Game::Exchange(plan) => {
            plan.is_lawful() && loopback_of(host, rt, alloc, plan, [Version::One; 2]).is_ok()
        }
    }
}

fn play<R>(rt: R, host: &HostRuntime, game: Game) -> io::Result<()>
where
    R: Threads + Wait + Copy + Send + 'static,
{
    if is_played(rt, host, game) {
        Ok(())
    } else {
        Err(io::Error::other("the sessions failed"))
    }
}

// The seconds of a turn.
fn seconds<R>(rt: R, host: &HostRuntime, plan: &Plan, game: Game) -> io::Result<f64>
where
    R: Threads + Wait + Clock + Copy + Send + 'static,
{
    let mut taken = Vec::new(host.alloc());
    for _ in 0..plan.reps {
        let start = Instant::now(&rt)?;
        play(rt, host, game)?;
        taken.push(nanoseconds(start.elapsed(&rt)?))?;
    }
    middle(taken, 1)
}

fn measure<R>(
    rt: R,
    host: &HostRuntime,
    plan: &Plan,
    figure: Figure<'_>,
    game: Game,
) -> io::Result<()>
where
    R: Threads + Wait + Clock + Copy + Send + 'static,
{
    match figure.begin(host, plan)? {
        Due::Nothing => Ok(()),
        Due::Turns(turns) => {
            for _ in 0..turns {
                play(rt, host, game)?;
            }
            Ok(())
        }
        Due::Seconds => figure.print(host, seconds(rt, host, plan, game)?),
    }
}

/// Takes the figures of two sessions: of rounds, and of messages of each length.
pub fn measure_sessions<R>(rt: R, host: &HostRuntime, plan: &Plan) -> io::Result<()>
where
    R: Threads + Wait + Clock + Copy + Send + 'static,
{
    let rounds = Figure {
        name: "ping_pong",
        things: "rounds",
        count: ROUNDS as usize,
        bytes: None,
    };
    measure(rt, host, plan, rounds, Game::PingPong)?;
    let exchanges = [
        ("session.small", 10, exchange(4, 13, 19_500)),
        ("session.1k", 1_024, exchange(1_024, 1, 6_000)),
        ("session.60k", 61_440, exchange(61_440, 1, 200)),
    ];
    for (name, mean, exchange) in &exchanges {
        let count = (exchange.messages as usize).saturating_mul(2 * CHANNELS);
        let figure = Figure {
            name,
            things: "messages",
            count,
            bytes: Some(count.saturating_mul(*mean)),
        };
        measure(rt, host, plan, figure, Game::Exchange(*exchange))?;
    }
    Ok(())
}
