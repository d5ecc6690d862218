//! The ends of a side, each in a thread of its own.
ghost use Rattle.std.specs.Prelude.{◌≡◌, IfOk, map};
ghost use Rattle.std.specs.List.{AllZip};
ghost use Rattle.lc_loopback.specs.Played.{EachGave};
ghost use Rattle.lc_loopback.specs.Ends.{sender_with, taker_with, end_of_sender, end_of_taker, IsSameSender, IsSameTaker, SenderGives, TakerGives};

use crate::exchange::Exchange;
use crate::hold::Hold;
use crate::sending::Sender;
use crate::taking::Taker;
use crate::worker::{Done, Outcome, Part, Work, join, start};
use lc_frame::CHANNELS;
use lc_inbox::unzipped;
use lc_session::{RecvEnd, SendEnd};
use std::sync::Wait;
use std::thread::Threads;

/// The ends of a side at work.
#[derive(Drop)]
pub(crate) struct Playing {
    senders: [Work<Sender>; CHANNELS],
    takers: [Work<Taker>; CHANNELS],
}

/// Parts that are back, and what their work came to.
#[derive(Drop)]
pub(crate) struct Back<W> {
    pub(crate) workers: [W; CHANNELS],
    pub(crate) outcomes: [Outcome; CHANNELS],
}

// A part that is back, and what its work came to.
fn join_one<R: Threads, W: Part>(rt: &R, work: Work<W>) -> (W, Outcome)
    ensures same { W.same work result.0 }
    ensures gave { IfOk result.1 (λ n. W.gives work n result.0) }
{
    let Done { worker, outcome } = join(rt, work);
    (worker, outcome)
}

fn join_senders<R: Threads>(rt: &R, works: [Work<Sender>; CHANNELS]) -> Back<Sender>
    ensures same { AllZip IsSameSender works result.workers }
    ensures gave { EachGave SenderGives works result.outcomes result.workers }
{
    let (workers, outcomes) = unzipped(works.map(|work| join_one(rt, work)));
    Back { workers, outcomes }
}

fn join_takers<R: Threads>(rt: &R, works: [Work<Taker>; CHANNELS]) -> Back<Taker>
    ensures same { AllZip IsSameTaker works result.workers }
    ensures gave { EachGave TakerGives works result.outcomes result.workers }
{
    let (workers, outcomes) = unzipped(works.map(|work| join_one(rt, work)));
    Back { workers, outcomes }
}

fn start_senders<R>(
    rt: R,
    hold: &Hold,
    ends: [SendEnd; CHANNELS],
    exchange: Exchange,
) -> [Work<Sender>; CHANNELS]
where
    R: Threads + Wait + Copy + Send + 'static,
    ensures { result ≡ map (sender_with exchange) ends }
{
    ends.map(|end| start(rt, hold, Sender { end, exchange }, ()))
}

fn start_takers<R>(
    rt: R,
    hold: &Hold,
    ends: [RecvEnd; CHANNELS],
    exchange: Exchange,
) -> [Work<Taker>; CHANNELS]
where
    R: Threads + Wait + Copy + Send + 'static,
    ensures { result ≡ map (taker_with exchange) ends }
{
    ends.map(|end| start(rt, hold, Taker { end, exchange }, ()))
}

/// Each end sends or takes its part of the exchange.
pub(crate) fn start_ends<R>(
    rt: R,
    hold: &Hold,
    senders: [SendEnd; CHANNELS],
    takers: [RecvEnd; CHANNELS],
    exchange: Exchange,
) -> Playing
where
    R: Threads + Wait + Copy + Send + 'static,
    ensures senders { result.senders ≡ map (sender_with exchange) senders }
    ensures takers { result.takers ≡ map (taker_with exchange) takers }
{
    let senders = start_senders(rt, hold, senders, exchange);
    let takers = start_takers(rt, hold, takers, exchange);
    Playing { senders, takers }
}

/// Waits for all of them.
pub(crate) fn join_ends<R: Threads>(rt: &R, playing: Playing) -> (Back<Sender>, Back<Taker>)
    ensures senders { AllZip IsSameSender playing.senders result.0.workers }
    ensures takers { AllZip IsSameTaker playing.takers result.1.workers }
    ensures sent { EachGave SenderGives playing.senders result.0.outcomes result.0.workers }
    ensures took { EachGave TakerGives playing.takers result.1.outcomes result.1.workers }
{
    let senders = join_senders(rt, playing.senders);
    let takers = join_takers(rt, playing.takers);
    (senders, takers)
}

/// The sending ends that are back.
pub(crate) fn send_ends_of(senders: [Sender; CHANNELS]) -> [SendEnd; CHANNELS]
    ensures { result ≡ map end_of_sender senders }
{
    senders.map(|sender| sender.end)
}

/// The receiving ends that are back.
pub(crate) fn recv_ends_of(takers: [Taker; CHANNELS]) -> [RecvEnd; CHANNELS]
    ensures { result ≡ map end_of_taker takers }
{
    takers.map(|taker| taker.end)
}
