//! What a receiving end does.
ghost use Rattle.std.specs.Prelude.{◌≡◌, ◌+◌, ◌<◌, ◌≤◌, ◌⊎◌, ◌∷◌, [], ◌++◌, IfOk, IfSome, OnOk};
ghost use Rattle.lc_frame.specs.declared.version.Version.TheVariants.{Two};
ghost use Rattle.lc_frame.specs.Kind.{max_body};
ghost use Rattle.lc_inbox.specs.History.{took};
ghost use Rattle.lc_inbox.specs.Sides.{IsSameSide};
ghost use Rattle.lc_loopback.specs.Played.{TakesAll, TakesNext};
ghost use Rattle.lc_loopback.specs.Ends.{IsSameTaker, TakerGives};

use crate::exchange::Exchange;
use crate::fault::judge;
use crate::hold::Hold;
use crate::message::{Message, bytes};
use crate::patience::Patience;
use crate::taken::Taken;
use crate::worker::{Outcome, Part, Worker};
use lc_book::Refusal;
use lc_loopback_report::LoopFault;
use lc_peer::Take;
use lc_session::RecvEnd;
use std::sync::Wait;

/// A receiving end with its job.
#[derive(Drop)]
pub(crate) struct Taker {
    pub(crate) end: RecvEnd,
    pub(crate) exchange: Exchange,
}

impl Part for Taker {
    ghost same = { IsSameTaker };

    ghost gives = { TakerGives };
}

/// Issues guarantees as soon as there is a slot for the frame. On a channel that is finished nobody
/// wants them.
pub(crate) fn issue<R: Wait>(
    rt: &R,
    end: &mut RecvEnd,
    amount: u32,
    patience: &mut Patience<'_>,
) -> Result<(), LoopFault>
    ensures same { IsSameSide end.old end.new }
    ensures took { took end.new.seen ≡ took end.old.seen }
{
    for _ in rt.forever() {
        match end.issue(rt, amount) {
            Ok(()) | Err(Refusal::ChannelFinished) => return Ok(()),
            Err(refusal) => judge(refusal)?,
        }
        patience.pause(rt, end)?;
    }
    unreachable!()
}

/// What a receiving end took and has not issued anew.
#[derive(Drop)]
pub(crate) struct Owed {
    bytes: u32,
    issue_from: u32,
}

impl Owed {
    /// Nothing. From so many bytes on all are issued.
    pub(crate) const fn new(issue_from: u32) -> Owed
        ensures { result ≡ record { bytes = 0; issue_from = issue_from } }
    {
        Owed {
            bytes: 0,
            issue_from,
        }
    }

    fn issue<R: Wait>(
        &mut self,
        rt: &R,
        end: &mut RecvEnd,
        patience: &mut Patience<'_>,
    ) -> Result<(), LoopFault>
        ensures same { IsSameSide end.old end.new }
        ensures took { took end.new.seen ≡ took end.old.seen }
        ensures none { OnOk result (self.new.bytes ≡ 0) }
        ensures kept { self.new.issue_from ≡ self.old.issue_from }
    {
        issue(rt, end, self.bytes, patience)?;
        self.bytes = 0;
        Ok(())
    }

    // So many more were taken: fewer than a ring has in all.
    fn add<R: Wait>(
        &mut self,
        rt: &R,
        end: &mut RecvEnd,
        len: u32,
        patience: &mut Patience<'_>,
    ) -> Result<(), LoopFault>
        ensures same { IsSameSide end.old end.new }
        ensures took { took end.new.seen ≡ took end.old.seen }
        ensures later { self.old.bytes + len < self.old.issue_from → (end.new ≡ end.old) × (self.new.bytes ≡ self.old.bytes + len) }
        ensures owed { OnOk result (self.new.bytes < self.old.issue_from ⊎ (self.new.bytes ≡ 0)) }
        ensures kept { self.new.issue_from ≡ self.old.issue_from }
    {
        self.bytes = self.bytes.saturating_add(len);
        if self.bytes < self.issue_from {
            return Ok(());
        }
        self.issue(rt, end, patience)
    }
}

// Takes the next message as soon as one is there, and says how long it is. `None` where the channel
// has ended. It does not wait while it owes anything.
fn next<R: Wait>(
    rt: &R,
    end: &mut RecvEnd,
    buffer: &mut [u8],
    owed: &mut Owed,
    patience: &mut Patience<'_>,
) -> Result<Option<usize>, LoopFault>
    ensures range { IfOk result (λ next. IfSome next (λ len. len ≤ max_body Two)) }
    ensures same { IsSameSide end.old end.new }
    ensures took { IfOk result (λ next. TakesNext next buffer.new end.old end.new) }
{
    for _ in rt.forever() {
        match end.take_into(rt, buffer) {
            Ok(Take::Took(len)) => return Ok(Some(len)),
            Ok(Take::Ended) => return Ok(None),
            Ok(Take::Empty) if owed.bytes > 0 => owed.issue(rt, end, patience)?,
            Ok(Take::Empty) => patience.pause(rt, end)?,
            Err(_) => return Err(LoopFault::BadMessage),
        }
    }
    unreachable!()
}

/// Takes the message that is due as soon as one is there, and issues its bytes anew, or owes them.
pub(crate) fn take<R: Wait>(
    rt: &R,
    end: &mut RecvEnd,
    due: &[u8],
    buffer: &mut [u8],
    owed: &mut Owed,
    patience: &mut Patience<'_>,
) -> Result<(), LoopFault>
    ensures same { IsSameSide end.old end.new }
    ensures took { OnOk result (took end.new.seen ≡ took end.old.seen ++ due.now ∷ []) }
{
    match next(rt, end, buffer, owed, patience)? {
        Some(len) if buffer.get(..len) == Some(due) => owed.add(rt, end, len as u32, patience),
        _ => Err(LoopFault::BadMessage),
    }
}

// Waits until the channel has ended, where it is finished. No message more is due.
fn end_taking<R: Wait>(
    rt: &R,
    end: &mut RecvEnd,
    buffer: &mut [u8],
    owed: &mut Owed,
    finishes: bool,
) -> Result<(), LoopFault>
    ensures same { IsSameSide end.old end.new }
    ensures took { OnOk result (took end.new.seen ≡ took end.old.seen) }
{
    if !finishes {
        return Ok(());
    }
    match next(rt, end, buffer, owed, &mut Patience::Sleeps)? {
        Some(_) => Err(LoopFault::BadMessage),
        None => Ok(()),
    }
}

// Takes all messages, and counts their bytes. Where the channel is finished it goes on until it has
// ended.
#[tactic(auto, using(crate::proofs::Takes::took_none, crate::proofs::Takes::took_all))]
fn take_all<R: Wait>(rt: &R, end: &mut RecvEnd, exchange: Exchange) -> Outcome
    ensures same { IsSameSide end.old end.new }
    ensures took { IfOk result (λ n. TakesAll exchange.plan end.old n end.new) }
{
    let Exchange {
        alloc,
        plan,
        finishes,
    } = exchange;
    let mut message = Message::new(exchange, end.channel())?;
    let mut buffer = bytes(alloc, 0, plan.shortest + plan.lengths)?;
    let mut taken = 0u64;
    let mut owed = Owed::new(plan.issue_from);
    issue(rt, end, plan.capacity, &mut Patience::Sleeps)?;
    for number in 0..plan.messages {
        message.turn_to(number);
        let due = message.as_slice();
        take(rt, end, due, &mut buffer, &mut owed, &mut Patience::Sleeps)?;
        taken += due.len() as u64;
    }
    end_taking(rt, end, &mut buffer, &mut owed, finishes)?;
    Ok(Taken {
        messages: u64::from(plan.messages),
        bytes: taken,
    })
}

impl Worker<()> for Taker {
    fn work<R: Wait>(&mut self, rt: &R, _hold: &Hold, (): ()) -> Outcome {
        take_all(rt, &mut self.end, self.exchange)
    }
}
