//! The exchange on all channels.
ghost use Rattle.std.specs.Prelude.{◌≡◌, ◌∷◌, [], IfOk, Ok, map};
ghost use Rattle.lc_frame.specs.declared.version.Version.TheVariants.{One};
ghost use Rattle.lc_session.specs.Parts.{state_of};
ghost use Rattle.lc_session.specs.Session.{IsNewSession};
ghost use Rattle.lc_loopback.specs.Plan.{IsPlan, config_of, small_plan};
ghost use Rattle.lc_loopback.specs.Ends.{end_of_sender, end_of_taker};
ghost use Rattle.lc_loopback.specs.Played.{messages_of, bytes_of, Exchanged, BeganNew, IsReportOf, CameTo, TwoRan};

use crate::balance::agree;
use crate::connection::{Wires, connect_both};
use crate::ends::{Back, join_ends, recv_ends_of, send_ends_of, start_ends};
use crate::exchange::Exchange;
use crate::fault::fault_among;
use crate::hold::Hold;
use crate::opening::{Opened, open};
use crate::plan::Plan;
use crate::pumping::{join_pumps, start_pumps};
use crate::sending::Sender;
use crate::taken::Taken;
use crate::taking::Taker;
use crate::worker::{Done, Outcome};
use lc_credit::Balance;
use lc_frame::{CHANNELS, Version};
use lc_interleaving::finish_both;
use lc_loopback_report::{LoopFault, LoopReport};
use lc_session::{Parts, ReadPump, Session, WritePump};
use std::alloc::Global;
use std::io::{Read, Write};
use std::net::Net;
use std::sync::Wait;
use std::thread::Threads;

// A side whose threads are joined.
#[derive(Drop)]
struct Played {
    parts: Parts,
    sent: [Outcome; CHANNELS],
    took: [Outcome; CHANNELS],
    pumped: [Outcome; 2],
}

impl Played {
    fn new(
        session: Session,
        ends: (Back<Sender>, Back<Taker>),
        pumps: (Done<ReadPump>, Done<WritePump>),
    ) -> Played
        ensures sent { result.sent ≡ ends.0.outcomes }
        ensures took { result.took ≡ ends.1.outcomes }
        ensures parts { state_of result.parts ≡ record { sending = map end_of_sender ends.0.workers; receiving = map end_of_taker ends.1.workers; reading = pumps.0.worker; writing = pumps.1.worker } }
    {
        let (senders, takers) = ends;
        let (reading, writing) = pumps;
        let Back {
            workers: senders,
            outcomes: sent,
        } = senders;
        let Back {
            workers: takers,
            outcomes: took,
        } = takers;
        let Done {
            worker: read_pump,
            outcome: read,
        } = reading;
        let Done {
            worker: write_pump,
            outcome: wrote,
        } = writing;
        let parts = Parts {
            session,
            send_ends: send_ends_of(senders),
            recv_ends: recv_ends_of(takers),
            read_pump,
            write_pump,
        };
        Played {
            parts,
            sent,
            took,
            pumped: [read, wrote],
        }
    }

    // The first of this side's faults, with the other side's before it.
    fn fault_after(&self, before: Result<(), LoopFault>) -> Result<(), LoopFault> {
        let before = fault_among(before, &self.sent);
        let before = fault_among(before, &self.took);
        fault_among(before, &self.pumped)
    }
}

// What each came to, where all came to something.
fn all_of(outcomes: [Outcome; CHANNELS]) -> Result<[Taken; CHANNELS], LoopFault>
    ensures { IfOk result (λ all. outcomes ≡ map Ok all) }
{
    outcomes.try_map(|outcome| outcome)
}

fn messages_of(all: [Taken; CHANNELS]) -> [u64; CHANNELS]
    ensures { result ≡ map messages_of all }
{
    all.map(|taken| taken.messages)
}

fn bytes_of(all: [Taken; CHANNELS]) -> [u64; CHANNELS]
    ensures { result ≡ map bytes_of all }
{
    all.map(|taken| taken.bytes)
}

// Both sides exchange this on each channel, until all threads are joined.
fn play<R, O, I>(
    rt: R,
    hold: &Hold,
    a: Parts,
    b: Parts,
    wires: Wires<O, I>,
    exchange: Exchange,
) -> (Played, Played)
where
    R: Threads + Wait + Copy + Send + 'static,
    O: Write + Send + Drop + 'static,
    I: Read + Send + Drop + 'static,
    ensures a { Exchanged exchange.plan (state_of a) (state_of result.0.parts) result.0.sent result.0.took }
    ensures b { Exchanged exchange.plan (state_of b) (state_of result.1.parts) result.1.sent result.1.took }
{
    let a_pumps = (a.read_pump, a.write_pump);
    let b_pumps = (b.read_pump, b.write_pump);
    let (a_pumping, b_pumping) = start_pumps(rt, hold, a_pumps, b_pumps, wires);
    let a_playing = start_ends(rt, hold, a.send_ends, a.recv_ends, exchange);
    let b_playing = start_ends(rt, hold, b.send_ends, b.recv_ends, exchange);
    let a_ends = join_ends(&rt, a_playing);
    let b_ends = join_ends(&rt, b_playing);
    hold.stop();
    let a_pumps = join_pumps(&rt, a_pumping);
    let b_pumps = join_pumps(&rt, b_pumping);
    let a = Played::new(a.session, a_ends, a_pumps);
    let b = Played::new(b.session, b_ends, b_pumps);
    (a, b)
}

// The report, where the guarantees that each side spent are what the other took.
fn judge(
    a_clients: [Balance; CHANNELS],
    b_clients: [Balance; CHANNELS],
    a_took: [Taken; CHANNELS],
    b_took: [Taken; CHANNELS],
) -> Result<LoopReport, LoopFault>
    ensures { IfOk result (λ report. IsReportOf a_clients b_clients a_took b_took report) }
{
    let (a_bytes, b_bytes) = (bytes_of(a_took), bytes_of(b_took));
    if !agree(a_clients, b_bytes) || !agree(b_clients, a_bytes) {
        return Err(LoopFault::BadMessage);
    }
    Ok(LoopReport {
        messages: [messages_of(b_took), messages_of(a_took)],
        bytes: [b_bytes, a_bytes],
        balanced: true,
    })
}

// What both sides come to, once their threads are joined.
fn conclude<R: Wait>(
    rt: &R,
    a: Played,
    b: Played,
    plan: Plan,
    versions: (Version, Version),
) -> Result<LoopReport, LoopFault>
    requires a { BeganNew plan versions.0 (state_of a.parts) a.sent a.took }
    requires b { BeganNew plan versions.1 (state_of b.parts) b.sent b.took }
    ensures { IfOk result (λ report. CameTo plan versions.0 versions.1 (state_of a.parts) (state_of b.parts) report) }
{
    let fault = b.fault_after(a.fault_after(Ok(())));
    let (a_outcomes, b_outcomes) = ((a.sent, a.took), (b.sent, b.took));
    let (a_report, b_report) = finish_both(rt, a.parts, b.parts);
    fault?;
    let (a_sent, b_sent) = (all_of(a_outcomes.0)?, all_of(b_outcomes.0)?);
    let (a_took, b_took) = (all_of(a_outcomes.1)?, all_of(b_outcomes.1)?);
    judge(a_report.clients, b_report.clients, a_took, b_took)
}

/// Exchanges so many messages on each channel and in each direction between two sessions, over a
/// connection each way, and compares each with the one that was due. Every end and every pump has a
/// thread of its own; whatever fails, all of them end and are joined.
pub fn loopback<N, R>(net: &N, rt: R, alloc: Global, count: u32) -> Result<LoopReport, LoopFault>
where
    N: Net,
    N::Stream: Send + 'static,
    R: Threads + Wait + Copy + Send + 'static,
    ensures { IfOk result (λ report. TwoRan (small_plan count) (One ∷ One ∷ []) report) }
{
    loopback_as(net, rt, alloc, count, [Version::One; 2])
}

// The versions of both sides.
fn both(versions: [Version; 2]) -> (Version, Version)
    ensures { versions ≡ result.0 ∷ result.1 ∷ [] }
{
    let [a, b] = versions;
    (a, b)
}

/// As [`loopback`], where A writes in the first of these versions and B in the second. Where both are
/// Two each sending end finishes its channel behind its last message, and each receiving end goes on
/// until the channel has ended.
pub fn loopback_as<N, R>(
    net: &N,
    rt: R,
    alloc: Global,
    count: u32,
    versions: [Version; 2],
) -> Result<LoopReport, LoopFault>
where
    N: Net,
    N::Stream: Send + 'static,
    R: Threads + Wait + Copy + Send + 'static,
    ensures { IfOk result (λ report. TwoRan (small_plan count) versions report) }
{
    loopback_of(net, rt, alloc, Plan::small(count), versions)
}

/// As [`loopback_as`], by a plan of the caller's.
pub fn loopback_of<N, R>(
    net: &N,
    rt: R,
    alloc: Global,
    plan: Plan,
    versions: [Version; 2],
) -> Result<LoopReport, LoopFault>
where
    N: Net,
    N::Stream: Send + 'static,
    R: Threads + Wait + Copy + Send + 'static,
    requires { IsPlan plan }
    ensures { IfOk result (λ report. TwoRan plan versions report) }
{
    let versions = both(versions);
    let wires = connect_both(net, alloc)?;
    match open(alloc, plan, versions.0, versions.1) {
        Ok(opened) => {
            let Opened { a, b, hold } = opened;
            let exchange = Exchange::of(alloc, plan, versions);
            let (a, b) = play(rt, &hold, a, b, wires, exchange);
            conclude(&rt, a, b, plan, versions)
        }
        Err(fault) => Err(fault),
    }
}
