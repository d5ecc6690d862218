//! The calls of ends, each made again until it is accepted. An end stays the same end of its session.
ghost use Rattle.lc_inbox.specs.Sides.{IsSameSide};
ghost use Rattle.lc_outbox.specs.Outbox.{IsSameOutbox};

use crate::fault::Fault;
use lc_book::Refusal;
use lc_peer::Take;
use lc_session::{RecvEnd, SendEnd};
use lc_wake::Wake;
use std::sync::Wait;

// The fault that a refusal is, unless what the end waits for may lift it. What is refused behind a wait
// that is over is refused for good.
fn fault_of(refusal: Refusal, wake: Wake) -> Option<Fault> {
    if wake == Wake::Over {
        return Some(Fault::Over);
    }
    match refusal {
        Refusal::NoGuarantee { .. } | Refusal::QueueFull => None,
        _ => Some(Fault::Refused(refusal)),
    }
}

/// Sends a message as soon as the other side has room for it, which it says by guarantees.
pub fn send<R: Wait>(rt: &R, end: &mut SendEnd, body: &[u8]) -> Result<(), Fault>
    ensures { IsSameOutbox end.old end.new }
{
    let mut wake = Wake::Again;
    for _ in rt.forever() {
        let Err(refusal) = end.send(rt, body) else {
            return Ok(());
        };
        if let Some(fault) = fault_of(refusal, wake) {
            return Err(fault);
        }
        wake = end.wait(rt);
    }
    unreachable!()
}

/// Says that no more messages come on the end's channel.
pub fn end_sending<R: Wait>(rt: &R, end: &mut SendEnd) -> Result<(), Fault>
    ensures { IsSameOutbox end.old end.new }
{
    let mut wake = Wake::Again;
    for _ in rt.forever() {
        let Err(refusal) = end.limit(rt, 0) else {
            return Ok(());
        };
        if let Some(fault) = fault_of(refusal, wake) {
            return Err(fault);
        }
        wake = end.wait(rt);
    }
    unreachable!()
}

/// Promises the other side room for so many bytes. On a channel that it finished it wants none, and
/// once the writing pump has ended none can be promised.
pub fn issue<R: Wait>(rt: &R, end: &mut RecvEnd, amount: u32) -> Result<(), Fault>
    ensures { IsSameSide end.old end.new }
{
    let mut wake = Wake::Again;
    for _ in rt.forever() {
        let Err(refusal) = end.issue(rt, amount) else {
            return Ok(());
        };
        if wake == Wake::Over || refusal == Refusal::ChannelFinished {
            return Ok(());
        }
        if let Some(fault) = fault_of(refusal, wake) {
            return Err(fault);
        }
        wake = end.wait(rt);
    }
    unreachable!()
}

/// Takes the next message, promises its room anew, and says how long it is. `None` where no message
/// will come.
pub fn take<R: Wait>(rt: &R, end: &mut RecvEnd, buffer: &mut [u8]) -> Result<Option<usize>, Fault>
    ensures { IsSameSide end.old end.new }
{
    let mut wake = Wake::Again;
    for _ in rt.forever() {
        // The error is that it is longer than any that this side's rules allow.
        match end.take_into(rt, buffer).or(Err(Fault::NoSync))? {
            Take::Took(len) => {
                issue(rt, end, len as u32)?;
                return Ok(Some(len));
            }
            Take::Ended => return Ok(None),
            Take::Empty if wake == Wake::Over => return Err(Fault::Over),
            Take::Empty => wake = end.wait(rt),
        }
    }
    unreachable!()
}
