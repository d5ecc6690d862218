//! How a session is made and stopped.
ghost use Rattle.std.specs.Prelude.{◌≡◌, ◌<◌, [], length, take, map, None, IfOk};
ghost use Rattle.std.specs.Result.{result_err};
ghost use Rattle.lc_frame.specs.declared.version.Version.{Version};
ghost use Rattle.lc_frame.specs.Channel.{channel_count, number_of};
ghost use Rattle.lc_peer.specs.Config.{config_fault, IsNewAnswer};
ghost use Rattle.lc_queue.specs.Parts.{QueueId, new_ends, new_outlet};
ghost use Rattle.lc_credit.specs.Sides.{new_outgoing};
ghost use Rattle.lc_credit.specs.Channels.{credit_out};
ghost use Rattle.lc_outbox.specs.Outbox.{new_outbox};
ghost use Rattle.lc_session.specs.Channels.{channels};
ghost use Rattle.lc_session.specs.Reading.{channel_of_side, ring_of_side};
ghost use Rattle.lc_session.specs.Batch.{new_batch};
ghost use Rattle.lc_session.specs.Pumping.{new_pumping};
ghost use Rattle.lc_session.specs.Session.{new_outboxes, IsNewSession};
ghost use Rattle.lc_session.specs.Parts.{state_of};

use crate::batch::Batch;
use crate::parts::Parts;
use crate::read_pump::ReadPump;
use crate::reading_side::ReadingSide;
use crate::recv_end::RecvEnd;
use crate::send_end::SendEnd;
use crate::write_pump::WritePump;
use lc_credit::{CreditOut, CreditParts, credits};
use lc_frame::CHANNELS;
use lc_inbox::{InboxOut, Inboxes, share_all, zipped};
use lc_outbox::Outbox;
use lc_peer::{Config, PeerFault, RingIntake};
use lc_queue::{Drain, LaneEnd, lanes};
use lc_wake::{Waiter, Wakers, Waking};
use std::alloc::{AllocError, Global};
use std::sync::Arc;

/// Who has this can stop the session's writing pump. It can be cloned, for any thread that may fail.
/// Contracts see nothing of it, and no clause speaks of its two calls.
pub struct Session {
    wakers: Arc<Wakers, Global>,
}

// One call, wherever one is dropped.
impl Drop for Session {
    fn drop(self) {
        let Session { wakers: _ } = self;
    }
}

// A new sending end of the lane's channel.
fn send_end(alloc: Global, lane: LaneEnd, credit: CreditOut, waiter: Waiter) -> SendEnd
    requires client { lane.lane < channel_count }
    requires put { lane.put ≡ [] }
    requires credit { credit ≡ new_outgoing credit.credit }
    ensures channel { number_of result.channel ≡ lane.lane }
    ensures new { result ≡ new_outbox result.channel lane credit }
{
    SendEnd::new(Outbox::new(alloc, lane, credit), waiter)
}

// The new sending ends of all channels.
fn send_ends(
    alloc: Global,
    lanes: [LaneEnd; CHANNELS],
    credits: [CreditOut; CHANNELS],
    waiters: [Waiter; CHANNELS],
) -> [SendEnd; CHANNELS]
    requires lanes { (queue : QueueId) × (version : Version) × (lanes ≡ take channel_count (new_ends queue version)) }
    requires credits { credits ≡ map new_outgoing (map credit_out credits) }
    ensures { result ≡ new_outboxes channels lanes credits }
{
    let parts = zipped(zipped(lanes, credits), waiters);
    parts.map(|((lane, credit), waiter)| send_end(alloc, lane, credit, waiter))
}

// The new receiving ends of all channels.
fn recv_ends(inboxes: [InboxOut; CHANNELS], waiters: [Waiter; CHANNELS]) -> [RecvEnd; CHANNELS]
    ensures { result ≡ inboxes }
{
    zipped(inboxes, waiters).map(|(inbox, waiter)| RecvEnd::new(inbox, waiter))
}

// What the ends share with the pumps.
#[derive(Drop)]
struct Shared {
    inboxes: Inboxes,
    credits: CreditParts,
    waking: Waking,
}

// What the pumps have of their own.
#[derive(Drop)]
struct Streams {
    intake: RingIntake,
    drain: Drain,
    batch: Batch,
}

// The parts of a session, put together.
fn put_together(alloc: Global, session: Session, shared: Shared, streams: Streams) -> Parts
    requires clients { (queue : QueueId) × (version : Version) × (shared.inboxes.clients ≡ take channel_count (new_ends queue version)) }
    requires credits { shared.credits.outgoing ≡ map new_outgoing (map credit_out shared.credits.outgoing) }
    requires incoming { map channel_of_side shared.inboxes.incoming ≡ channels }
    requires rings { map ring_of_side shared.inboxes.incoming ≡ streams.intake.rings }
    requires drain { streams.drain ≡ new_outlet streams.drain.queue streams.drain.version }
    requires batch { streams.batch ≡ new_batch streams.drain.version }
    ensures sending { result.send_ends ≡ new_outboxes channels shared.inboxes.clients shared.credits.outgoing }
    ensures receiving { result.recv_ends ≡ shared.inboxes.outgoing }
    ensures reading { result.read_pump ≡ record { side = record { credits = shared.credits.incoming; inboxes = shared.inboxes.incoming }; intake = streams.intake } }
    ensures writing { result.write_pump ≡ new_pumping streams.drain }
{
    let Shared {
        inboxes,
        credits,
        waking,
    } = shared;
    let side = ReadingSide {
        credits: credits.incoming,
        inboxes: inboxes.incoming,
        wakers: waking.wakers,
    };
    Parts {
        session,
        send_ends: send_ends(alloc, inboxes.clients, credits.outgoing, waking.sending),
        recv_ends: recv_ends(inboxes.outgoing, waking.receiving),
        read_pump: ReadPump::new(side, streams.intake),
        write_pump: WritePump::new(streams.drain, streams.batch, waking.pump),
    }
}

// The parts of a session of a lawful configuration. The error is want of memory.
fn make(alloc: Global, config: Config) -> Result<Parts, AllocError>
    requires lawful { config_fault config ≡ None }
    requires rings { length config.capacities ≡ channel_count }
    ensures { IfOk result (λ parts. IsNewSession config (state_of parts)) }
{
    let batch = Batch::new(alloc, config.version)?;
    let waking = Waking::new(alloc)?;
    let wakers = Arc::try_clone(&waking.wakers)?;
    let credits = credits(alloc)?;
    let intake = RingIntake::new(alloc, config.capacities)?;
    let Ok(lanes) = lanes(alloc, config.slots, config.version) else {
        return Err(AllocError);
    };
    let (drain, ends) = (lanes.drain, lanes.ends);
    let Ok(inboxes) = share_all(alloc, config.capacities, ends) else {
        return Err(AllocError);
    };
    let shared = Shared {
        inboxes,
        credits,
        waking,
    };
    let streams = Streams {
        intake,
        drain,
        batch,
    };
    Ok(put_together(alloc, Session { wakers }, shared, streams))
}

impl Session {
    /// The parts of a new session: rings of the capacities, and a queue of the frames that wait to go
    /// out, in the version, with one place for each of the fourteen lanes and `slots` that they share. What arrives may be of either. Faults come in this order: the first
    /// channel whose ring would not have 1 to 2^24 bytes, slots that are not 1 to 65,536, want of
    /// memory. It takes all the memory of the session; of all later calls only `SendEnd::send` takes
    /// some, for its copy of the message.
    pub fn new(alloc: Global, config: Config) -> Result<Parts, PeerFault>
        ensures answer { IsNewAnswer config (result_err result) }
        ensures new { IfOk result (λ parts. IsNewSession config (state_of parts)) }
    {
        config.judge()?;
        match make(alloc, config) {
            Ok(parts) => Ok(parts),
            Err(AllocError) => Err(PeerFault::OutOfMemory),
        }
    }

    /// Asks the writing pump to stop, once it has written all that is queued then. A reading pump
    /// ends by its transport.
    pub fn stop(&self) {
        self.wakers.stop();
    }

    /// Another hold of the same session.
    pub fn try_clone(&self) -> Result<Session, AllocError> {
        let wakers = Arc::try_clone(&self.wakers)?;
        Ok(Session { wakers })
    }
}
