//! What a sending end does.
ghost use Rattle.std.specs.Prelude.{◌≡◌, ◌++◌, ◌∷◌, [], OnOk};
ghost use Rattle.lc_frame.specs.Stream.{messages};
ghost use Rattle.lc_outbox.specs.Outbox.{IsSameOutbox};
ghost use Rattle.lc_loopback.specs.Played.{PutsAll};
ghost use Rattle.lc_loopback.specs.Ends.{IsSameSender, SenderGives};

use crate::exchange::Exchange;
use crate::fault::judge;
use crate::hold::Hold;
use crate::message::Message;
use crate::patience::Patience;
use crate::taken::Taken;
use crate::worker::{Outcome, Part, Worker};
use lc_loopback_report::LoopFault;
use lc_session::SendEnd;
use std::sync::Wait;

/// A sending end with its job.
#[derive(Drop)]
pub(crate) struct Sender {
    pub(crate) end: SendEnd,
    pub(crate) exchange: Exchange,
}

impl Part for Sender {
    ghost same = { IsSameSender };

    ghost gives = { SenderGives };
}

/// Sends a message as soon as there are guarantees and a slot for it.
pub(crate) fn send<R: Wait>(
    rt: &R,
    end: &mut SendEnd,
    body: &[u8],
    patience: &mut Patience<'_>,
) -> Result<(), LoopFault>
    ensures same { IsSameOutbox end.old end.new }
    ensures put { OnOk result (messages end.old.channel end.new.lane.put ≡ messages end.old.channel end.old.lane.put ++ body.now ∷ []) }
{
    for _ in rt.forever() {
        match end.send(rt, body) {
            Ok(()) => return Ok(()),
            Err(refusal) => judge(refusal)?,
        }
        patience.pause(rt, end)?;
    }
    unreachable!()
}

// Finishes the channel as soon as there is a slot for that, where it is to be finished.
fn finish<R: Wait>(rt: &R, end: &mut SendEnd, finishes: bool) -> Result<(), LoopFault>
    ensures same { IsSameOutbox end.old end.new }
    ensures put { OnOk result (messages end.old.channel end.new.lane.put ≡ messages end.old.channel end.old.lane.put) }
{
    if !finishes {
        return Ok(());
    }
    for _ in rt.forever() {
        match end.finish(rt) {
            Ok(()) => return Ok(()),
            Err(refusal) => judge(refusal)?,
        }
        Patience::Sleeps.pause(rt, end)?;
    }
    unreachable!()
}

// Sends all messages, and finishes where that is asked for.
fn send_all<R: Wait>(rt: &R, end: &mut SendEnd, exchange: Exchange) -> Result<(), LoopFault>
    ensures same { IsSameOutbox end.old end.new }
    ensures put { OnOk result (PutsAll exchange.plan end.old end.new) }
{
    let mut message = Message::new(exchange, end.channel())?;
    for number in 0..exchange.plan.messages {
        message.turn_to(number);
        send(rt, end, message.as_slice(), &mut Patience::Sleeps)?;
    }
    finish(rt, end, exchange.finishes)
}

impl Worker<()> for Sender {
    fn work<R: Wait>(&mut self, rt: &R, _hold: &Hold, (): ()) -> Outcome {
        send_all(rt, &mut self.end, self.exchange)?;
        Ok(Taken::NOTHING)
    }
}
