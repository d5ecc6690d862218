//! The inboxes of seven channels.
ghost use Rattle.std.specs.Prelude.{◌≡◌, ◌∷◌, [], IfOk, take, drop, length};
ghost use Rattle.std.specs.List.{All, AllZip};
ghost use Rattle.std.specs.Result.{result_err};
ghost use Rattle.lc_frame.specs.declared.version.Version.{Version};
ghost use Rattle.lc_frame.specs.Channel.{channel_count};
ghost use Rattle.lc_frame.specs.Lane.{lane_count};
ghost use Rattle.lc_queue.specs.Parts.{QueueId, new_ends};
ghost use Rattle.lc_inbox.specs.Inboxes.{IsServerEnd, IsNewShared, AreNew, AreMatched, IsSharingAnswer};

use crate::arrays::unzipped;
use crate::inbox_end::{InboxEnd, server_of};
use crate::inbox_in::InboxIn;
use crate::inbox_out::InboxOut;
use crate::shared_inbox::{SharedInbox, share};
use lc_frame::{CHANNELS, LANES, Version};
use lc_peer::{Config, Inbox, PeerFault};
use lc_queue::LaneEnd;
use std::alloc::{AllocError, Global};

/// The inboxes of seven channels, each at the place of its channel's number.
#[derive(Drop)]
pub struct Inboxes {
    /// For the thread that reads frames.
    pub incoming: [InboxIn; CHANNELS],
    /// For the threads that take messages.
    pub outgoing: [InboxOut; CHANNELS],
    /// The ends of the lanes on which the clients put.
    pub clients: [LaneEnd; CHANNELS],
}

// The ends of the first seven lanes, on which clients put, and those of the others.
fn split(
    alloc: Global,
    ends: [LaneEnd; LANES],
) -> Result<([LaneEnd; CHANNELS], [LaneEnd; CHANNELS]), AllocError>
    requires { length ends ≡ lane_count }
    ensures { IfOk result (λ halves. (halves.0 ≡ take channel_count ends) × (halves.1 ≡ drop channel_count ends)) }
{
    let mut clients = Vec::from_array(alloc, ends)?;
    let servers = clients.split_off(CHANNELS)?;
    let Ok(clients) = <[LaneEnd; CHANNELS]>::try_from(clients) else {
        unreachable!()
    };
    let Ok(servers) = <[LaneEnd; CHANNELS]>::try_from(servers) else {
        unreachable!()
    };
    Ok((clients, servers))
}

// A new inbox of the lane's channel, shared.
fn share_one(
    alloc: Global,
    capacities: &[u32; CHANNELS],
    lane: LaneEnd,
) -> Result<(InboxIn, InboxOut), AllocError>
    requires { IsServerEnd lane }
    ensures { IfOk result (λ shared. IsNewShared capacities.now lane shared) }
{
    let capacity = capacities[server_of(&lane).index()];
    let Ok(inbox) = Inbox::new(alloc, capacity) else {
        return Err(AllocError);
    };
    let SharedInbox { incoming, outgoing } = share(alloc, InboxEnd::new(inbox, lane))?;
    Ok((incoming, outgoing))
}

// The inbox of each lane.
fn share_each(
    alloc: Global,
    capacities: &[u32; CHANNELS],
    lanes: [LaneEnd; CHANNELS],
) -> Result<[(InboxIn, InboxOut); CHANNELS], AllocError>
    requires { All IsServerEnd lanes }
    ensures { IfOk result (λ all. AllZip (IsNewShared capacities.now) lanes all) }
{
    let mut all = Vec::with_capacity(alloc, CHANNELS)?;
    for lane in lanes {
        all.push(share_one(alloc, capacities, lane)?)?;
    }
    match <[(InboxIn, InboxOut); CHANNELS]>::try_from(all) {
        Ok(all) => Ok(all),
        Err(_) => unreachable!(),
    }
}

// The same with memory, where each capacity is one.
fn share_all_of(
    alloc: Global,
    capacities: &[u32; CHANNELS],
    ends: [LaneEnd; LANES],
) -> Result<Inboxes, AllocError>
    requires { (queue : QueueId) × (version : Version) × (ends ≡ new_ends queue version) }
    ensures new { IfOk result (λ inboxes. AreNew capacities.now (drop channel_count ends) inboxes.incoming inboxes.outgoing) }
    ensures matched { IfOk result (λ inboxes. AreMatched inboxes.incoming inboxes.outgoing) }
    ensures clients { IfOk result (λ inboxes. inboxes.clients ≡ take channel_count ends) }
{
    let (clients, servers) = split(alloc, ends)?;
    let (incoming, outgoing) = unzipped(share_each(alloc, capacities, servers)?);
    Ok(Inboxes {
        incoming,
        outgoing,
        clients,
    })
}

/// Shares seven new inboxes: that of a channel has the channel's capacity, and puts on the lane of
/// its server. Faults come in this order: the first channel whose ring would not have 1 to 2^24
/// bytes, which is found before any memory is asked for, then want of memory.
pub fn share_all(
    alloc: Global,
    capacities: [u32; CHANNELS],
    ends: [LaneEnd; LANES],
) -> Result<Inboxes, PeerFault>
    requires { (queue : QueueId) × (version : Version) × (ends ≡ new_ends queue version) }
    ensures answer { IsSharingAnswer capacities (result_err result) }
    ensures new { IfOk result (λ inboxes. AreNew capacities (drop channel_count ends) inboxes.incoming inboxes.outgoing) }
    ensures matched { IfOk result (λ inboxes. AreMatched inboxes.incoming inboxes.outgoing) }
    ensures clients { IfOk result (λ inboxes. inboxes.clients ≡ take channel_count ends) }
{
    // One slot is as many as a peer may have, so that a capacity alone can be at fault.
    Config {
        version: Version::One,
        capacities,
        slots: 1,
    }
    .judge()?;
    match share_all_of(alloc, &capacities, ends) {
        Ok(inboxes) => Ok(inboxes),
        Err(AllocError) => Err(PeerFault::OutOfMemory),
    }
}
