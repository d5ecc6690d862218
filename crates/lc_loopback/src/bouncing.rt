//! The exchange by turns on one channel.
use crate::connection::{Wires, connect_both};
use crate::fault::fault_among;
use crate::hold::Hold;
use crate::opening::{Opened, open};
use crate::patience::Patience;
use crate::plan::Plan;
use crate::pumping::{join_pump_outcomes, start_pumps};
use crate::sending::send;
use crate::taken::Taken;
use crate::taking::{Owed, issue, take};
use crate::worker::{Outcome, Part, Worker, join_outcome, start};
use lc_frame::{CHANNELS, Version};
use lc_loopback_report::LoopFault;
use lc_session::{Parts, ReadPump, RecvEnd, SendEnd, WritePump};
use std::alloc::Global;
use std::io::{Read, Write};
use std::net::Net;
use std::sync::Wait;
use std::thread::Threads;

// Both ends of a channel in one thread.
#[derive(Drop)]
struct Player {
    sending: SendEnd,
    receiving: RecvEnd,
}

// The sessions of the game, its rounds, and how often a player may look in vain.
#[derive(Clone, Copy)]
struct Game {
    plan: Plan,
    rounds: u32,
    turns: u32,
}

impl Part for Player {
    ghost same = { λ _ _. Unit {0} };

    ghost gives = { λ _ _ _. Unit {0} };
}

impl Worker<Game> for Player {
    fn work<R: Wait>(&mut self, rt: &R, hold: &Hold, game: Game) -> Outcome {
        let turns = game.turns;
        let mut patience = Patience::Polls { turns, hold };
        let mut buffer = [0; 4];
        let mut owed = Owed::new(game.plan.issue_from);
        issue(rt, &mut self.receiving, game.plan.capacity, &mut patience)?;
        for round in 0..game.rounds {
            let body = round.to_be_bytes();
            send(rt, &mut self.sending, &body, &mut patience)?;
            take(
                rt,
                &mut self.receiving,
                &body,
                &mut buffer,
                &mut owed,
                &mut patience,
            )?;
        }
        Ok(Taken::NOTHING)
    }
}

// The first of these ends. The others are let go.
fn first<E: Drop>(ends: [E; CHANNELS]) -> E {
    let [first, ..] = ends;
    first
}

// What a side needs here: its player, and its pumps.
type Team = (Player, (ReadPump, WritePump));

// The parts that are not needed are let go.
fn team_of(parts: Parts) -> Team {
    let Parts {
        session: _,
        send_ends,
        recv_ends,
        read_pump,
        write_pump,
    } = parts;
    let player = Player {
        sending: first(send_ends),
        receiving: first(recv_ends),
    };
    (player, (read_pump, write_pump))
}

// Both players play, until both are joined.
fn play<R>(rt: R, hold: &Hold, a: Player, b: Player, game: Game) -> [Outcome; 2]
where
    R: Threads + Wait + Copy + Send + 'static,
{
    let a_playing = start(rt, hold, a, game);
    let b_playing = start(rt, hold, b, game);
    let a_played = join_outcome(&rt, a_playing);
    let b_played = join_outcome(&rt, b_playing);
    [a_played, b_played]
}

// Both sides play, until all threads are joined. It answers the rounds.
fn play_all<R, O, I>(
    rt: R,
    hold: &Hold,
    a: Team,
    b: Team,
    wires: Wires<O, I>,
    game: Game,
) -> Result<u32, LoopFault>
where
    R: Threads + Wait + Copy + Send + 'static,
    O: Write + Send + Drop + 'static,
    I: Read + Send + Drop + 'static,
{
    let (a_player, a_pumps) = a;
    let (b_player, b_pumps) = b;
    let (a_pumping, b_pumping) = start_pumps(rt, hold, a_pumps, b_pumps, wires);
    let played = play(rt, hold, a_player, b_player, game);
    hold.stop();
    let a_pumped = join_pump_outcomes(&rt, a_pumping);
    let b_pumped = join_pump_outcomes(&rt, b_pumping);
    let fault = fault_among(Ok(()), &played);
    let fault = fault_among(fault, &a_pumped);
    fault_among(fault, &b_pumped)?;
    Ok(game.rounds)
}

// Both sessions are new, and play over these connections.
fn bounce<R, O, I>(rt: R, alloc: Global, wires: Wires<O, I>, game: Game) -> Result<u32, LoopFault>
where
    R: Threads + Wait + Copy + Send + 'static,
    O: Write + Send + Drop + 'static,
    I: Read + Send + Drop + 'static,
{
    match open(alloc, game.plan, Version::One, Version::One) {
        Ok(Opened { a, b, hold }) => play_all(rt, &hold, team_of(a), team_of(b), wires, game),
        Err(fault) => Err(fault),
    }
}

/// Exchanges so many rounds on the first channel between two sessions: in each, both sides send its
/// number, and then take the other's. An end that has nothing to do yields the processor and looks
/// again, `turns` times in all on each side. It answers the rounds.
pub fn ping_pong<N, R>(
    net: &N,
    rt: R,
    alloc: Global,
    rounds: u32,
    turns: u32,
) -> Result<u32, LoopFault>
where
    N: Net,
    N::Stream: Send + 'static,
    R: Threads + Wait + Copy + Send + 'static,
{
    let wires = connect_both(net, alloc)?;
    let plan = Plan::small(rounds);
    let game = Game {
        plan,
        rounds,
        turns,
    };
    bounce(rt, alloc, wires, game)
}
