//! How a session ends.
ghost use Rattle.std.specs.Prelude.{◌≡◌, ◌++◌, length, map, List};
ghost use Rattle.std.specs.List.{AllByRecursion};
ghost use Rattle.lc_frame.specs.declared.frame.Frame.{Frame as AnyFrame};
ghost use Rattle.lc_queue.specs.Parts.{IsSame, AllPopped, lane_of_end};
ghost use Rattle.lc_outbox.specs.Outbox.{IsOutbox};
ghost use Rattle.lc_session.specs.Report.{PutsOn, credit_of_outbox, AreOfOneSession, IsReport};
ghost use Rattle.lc_session.specs.Ending.{Joins, lane_of_outbox, PopsAll};
ghost use Rattle.lc_session.specs.Parts.{state_of};

use crate::parts::Parts;
use crate::recv_end::RecvEnd;
use crate::send_end::SendEnd;
use lc_book::ServerBook;
use lc_credit::{Balance, CreditOut, CreditParts, settle};
use lc_frame::CHANNELS;
use lc_inbox::{InboxOut, finish_all, unzipped};
use lc_queue::{Drain, LaneEnd};
use std::sync::Wait;

/// What a session leaves.
#[derive(Clone, Copy, Debug)]
pub struct Report {
    /// What became of the guarantees that came, by channel.
    pub clients: [Balance; CHANNELS],
    /// The books of the receiving ends, by channel.
    pub servers: [ServerBook; CHANNELS],
    /// How many frames were put and not begun.
    pub left: u64,
    /// How many bytes are left of the frame that was begun, or of the greeting.
    pub partly: u64,
}

// The ends of the lanes and of the credits that sending ends have.
fn lanes_and_credits(ends: [SendEnd; CHANNELS]) -> ([LaneEnd; CHANNELS], [CreditOut; CHANNELS])
    ensures lanes { result.0 ≡ map lane_of_outbox ends }
    ensures credits { result.1 ≡ map credit_of_outbox ends }
    ensures kept { AllByRecursion IsOutbox ends }
{
    unzipped(ends.map(|end| end.into_outbox().into_parts()))
}

// Ends these lanes.
fn join_lanes(drain: &mut Drain, lanes: [LaneEnd; CHANNELS])
    requires { AllByRecursion (λ l. IsSame drain.old.queue l.queue) lanes }
    ensures { Joins drain.old lanes drain.new }
{
    for lane in lanes {
        drain.join(lane);
    }
}

// The receiving sides of the inboxes.
fn inboxes_of(ends: [RecvEnd; CHANNELS]) -> [InboxOut; CHANNELS]
    ensures { result ≡ ends }
{
    ends.map(|end| end.into_inbox())
}

// Pops what is left in the queue, of which all lanes have ended, and counts it together with the
// frames that wait already. After 2^64 frames it would not return.
fn pop_all<R: Wait>(rt: &R, drain: &mut Drain, waiting: u64) -> u64
    ensures { PopsAll waiting result drain.old drain.new }
{
    'frames: for left in waiting..u64::MAX {
        match drain.pop(rt) {
            Some(frame) => drop(frame),
            None => return left,
        }
    }
    for _ in rt.forever() {}
    unreachable!()
}

/// Ends a session whose threads have given its parts back: it takes what is left out of the queue,
/// and says what became of all guarantees. What waits in the inboxes is lost.
///
/// It waits for no other thread, since none has a part of the session any more.
pub fn finish<R: Wait>(rt: &R, parts: Parts) -> Report
    requires { AreOfOneSession (state_of parts) }
    ensures { IsReport (state_of parts) result.clients result.servers result.left result.partly }
{
    let Parts {
        session: _,
        send_ends,
        recv_ends,
        read_pump,
        write_pump,
    } = parts;
    let (mut drain, batch) = write_pump.into_parts();
    let (incoming, inboxes) = read_pump.into_parts();
    let (lanes, outgoing) = lanes_and_credits(send_ends);
    join_lanes(&mut drain, lanes);
    let ended = finish_all(inboxes, inboxes_of(recv_ends));
    let servers = ended.books;
    join_lanes(&mut drain, ended.lanes);
    let left = pop_all(rt, &mut drain, batch.waiting() as u64);
    Report {
        clients: settle(CreditParts { incoming, outgoing }),
        servers,
        left,
        partly: batch.begun() as u64,
    }
}
