//! An event at one of two ends.
ghost use Rattle.std.specs.Prelude.{◌≡◌, ◌+◌, ◌≤◌, ◌<◌, length, IfOk, IsSome, IfSome, OnErr, OnOk, Some, None};
ghost use Rattle.std.specs.Option.{option_map};
ghost use Rattle.std.specs.Result.{result_err};
ghost use Rattle.lc_frame.specs.Frame.{IsValid};
ghost use Rattle.lc_frame.specs.FrameRef.{frame_of};
ghost use Rattle.lc_ring.specs.Ring.{front};
ghost use Rattle.lc_peer.specs.Peer.{inbox};
ghost use Rattle.lc_peer.specs.Calls.{queue_refusal};
ghost use Rattle.lc_world.specs.declared.event.Answer.{Answer};
ghost use Rattle.lc_world.specs.declared.event.Act.TheVariants as acts;
ghost use Rattle.lc_world.specs.State.{size};
ghost use Rattle.lc_world.specs.Answers.{own_frame, judged, frame_put};
ghost use Rattle.lc_world.specs.Calls.{own_channel, honour_returned, Called};
ghost use Rattle.lc_world.specs.Delivery.{text_of};
ghost use Rattle.lc_world.specs.Endpoint.{line_of, AreInStep, Acts, Brings};

use crate::endpoint::{Endpoint, go_out};
use crate::event::{Act, Answer};
use lc_book::Refusal;
use lc_frame::{Body, Channel, Decoded, FrameRef, MAX_AMOUNT, Version, decode};
use lc_peer::{Peer, Take};
use std::alloc::{AllocError, Global};

// The frame that an event puts where it is accepted.
fn own_frame(act: &Act) -> Option<FrameRef<'_>>
    ensures { option_map frame_of result ≡ own_frame act.now }
{
    match *act {
        Act::Send { channel, ref body } => {
            let body = body.as_slice();
            Some(FrameRef::Send { channel, body })
        }
        Act::Issue { channel, amount } => Some(FrameRef::Issue { channel, amount }),
        Act::Plead { channel, target } => Some(FrameRef::Plead { channel, target }),
        Act::Absolve { channel, amount } => Some(FrameRef::Absolve { channel, amount }),
        Act::LimitSending { channel, bound } => Some(FrameRef::LimitSending { channel, bound }),
        Act::LimitReceiving { channel, bound } => Some(FrameRef::LimitReceiving { channel, bound }),
        Act::Finish { channel } => Some(FrameRef::Finish { channel }),
        Act::Honour { .. } | Act::Arrive | Act::Deliver { .. } | Act::Take { .. } => None,
    }
}

// How many bytes the frame of an own event has at most; an honour's is an absolving, all of which
// have one length.
fn room(version: Version, channel: Channel, act: &Act) -> usize
    ensures { (answer : Answer) → IfSome (frame_put act.now answer) (λ f. IsValid version f → size version f ≤ result) }
{
    let amount = MAX_AMOUNT;
    let frame = own_frame(act).unwrap_or(FrameRef::Absolve { channel, amount });
    frame.encoded_len(version).min(version.max_frame())
}

fn judged(judgement: Result<(), Refusal>) -> Answer
    ensures { result ≡ judged (result_err judgement) }
{
    match judgement {
        Ok(()) => Answer::Accepted,
        Err(refusal) => Answer::Refused(refusal),
    }
}

fn honoured(judgement: Result<Option<u32>, Refusal>) -> Answer
    ensures { result ≡ honour_returned judgement }
{
    match judgement {
        Ok(Some(amount)) => Answer::Absolved(amount),
        Ok(None) => Answer::NothingToAbsolve,
        Err(refusal) => Answer::Refused(refusal),
    }
}

// An own event is a call of the peer, which has a free slot.
fn call(peer: &mut Peer, channel: Channel, act: &Act) -> Answer
    requires own { own_channel act.now ≡ Some channel }
    requires free { queue_refusal peer.old ≡ None }
    ensures { Called peer.old peer.new act.now result }
{
    match act {
        Act::Send { body, .. } => judged(peer.send(channel, body.as_slice())),
        Act::Issue { amount, .. } => judged(peer.issue(channel, *amount)),
        Act::Plead { target, .. } => judged(peer.plead(channel, *target)),
        Act::Absolve { amount, .. } => judged(peer.absolve(channel, *amount)),
        Act::Honour { .. } => honoured(peer.honour(channel)),
        Act::LimitSending { bound, .. } => judged(peer.limit_sending(channel, *bound)),
        Act::LimitReceiving { bound, .. } => judged(peer.limit_receiving(channel, *bound)),
        Act::Finish { .. } => judged(peer.finish(channel)),
        Act::Arrive | Act::Deliver { .. } | Act::Take { .. } => unreachable!(),
    }
}

// An own event: the room of its frame on the stream is taken before anything is judged.
fn own_event(me: &mut Endpoint, peer: &Endpoint, channel: Channel, act: &Act) -> Answer
    requires own { own_channel act.now ≡ Some channel }
    requires in_step { AreInStep me.old peer.now }
    ensures { Acts me.old peer.now me.new peer.now act.now result }
{
    let version = me.peer.version();
    if me.stream.reserve(room(version, channel, act)).is_err() {
        return Answer::Refused(Refusal::OutOfMemory);
    }
    let answer = call(&mut me.peer, channel, act);
    go_out(&mut me.peer, &mut me.stream);
    answer
}

// So many of the bytes in flight are delivered; it answers how many frames arrive.
fn bring(me: &mut Endpoint, peer: &mut Endpoint, count: usize) -> u64
    requires in_step { AreInStep me.old peer.old }
    requires within { peer.old.delivered + count ≤ length peer.old.stream.items }
    ensures { Brings me.old peer.old me.new peer.new count result }
{
    let end = peer.delivered + count;
    let piece = &peer.stream[peer.delivered..end];
    let delivery = me.peer.deliver(&mut me.decoder, piece);
    match delivery.stop {
        None => {}
        // No frame that two peers put violates, and what they put is no fault.
        Some(_) => unreachable!(),
    }
    peer.delivered = end;
    delivery.frames
}

// So many of the bytes in flight, or all of them.
fn deliver(me: &mut Endpoint, peer: &mut Endpoint, count: u32) -> Answer
    requires { AreInStep me.old peer.old }
    ensures { Acts me.old peer.old me.new peer.new (acts.Deliver count) result }
{
    if peer.delivered >= peer.stream.len() {
        return Answer::NothingInFlight;
    }
    let len = (count as usize).min(peer.stream.len() - peer.delivered);
    let frames = bring(me, peer, len);
    Answer::Delivered {
        bytes: len as u64,
        frames,
    }
}

// Where on the other end's stream the first frame in flight begins: behind the greeting, and behind
// the frames that arrived.
fn first_place(me: &Endpoint, peer: &Endpoint) -> usize
    requires { AreInStep me.now peer.now }
    ensures { result ≡ length (text_of (line_of peer.now me.now).version (line_of peer.now me.now).arrived) }
{
    let greeting = peer.peer.version().greeting().len();
    let stored = me.decoder.stored();
    if peer.delivered - stored < greeting {
        greeting
    } else {
        peer.delivered - stored
    }
}

// The bytes that are missing of the first frame in flight, and of the greeting before it.
fn arrive(me: &mut Endpoint, peer: &mut Endpoint) -> Answer
    requires { AreInStep me.old peer.old }
    ensures { Acts me.old peer.old me.new peer.new acts.Arrive result }
{
    let first = first_place(me, peer);
    if first >= peer.stream.len() {
        return Answer::NothingInFlight;
    }
    match decode(peer.peer.version(), &peer.stream[first..]) {
        Decoded::Whole { used, .. } => {
            bring(me, peer, first + used - peer.delivered);
            Answer::Arrived
        }
        Decoded::More => unreachable!(),
        Decoded::Fault(_) => unreachable!(),
    }
}

// A copy of the first message that waits.
fn waiting(alloc: Global, peer: &Peer, channel: Channel) -> Result<Option<Body>, AllocError>
    ensures value { IfOk result (λ body. body ≡ front (inbox peer.now channel).ring) }
    ensures err { OnErr result (IsSome (front (inbox peer.now channel).ring)) }
{
    match peer.front(channel) {
        Some((first, rest)) => {
            let mut bytes = Vec::with_capacity(alloc, first.len() + rest.len())?;
            bytes.extend_from_slice(first)?;
            bytes.extend_from_slice(rest)?;
            Ok(Some(Body::from_vec(bytes)))
        }
        None => Ok(None),
    }
}

// The first message that waits on the channel is taken.
fn take(alloc: Global, me: &mut Endpoint, peer: &Endpoint, channel: Channel) -> Answer
    requires { AreInStep me.old peer.now }
    ensures { Acts me.old peer.now me.new peer.now (acts.Take channel) result }
{
    let body = match waiting(alloc, &me.peer, channel) {
        Ok(body) => body,
        Err(_) => return Answer::Refused(Refusal::OutOfMemory),
    };
    let take = me.peer.pop(channel);
    match body {
        Some(body) => Answer::Took(body),
        None => match take {
            Take::Took(_) => unreachable!(),
            Take::Empty => Answer::Empty,
            Take::Ended => Answer::Ended,
        },
    }
}

/// An event at the first end.
pub(crate) fn act(alloc: Global, me: &mut Endpoint, peer: &mut Endpoint, act: &Act) -> Answer
    requires { AreInStep me.old peer.old }
    ensures { Acts me.old peer.old me.new peer.new act.now result }
{
    match act {
        Act::Send { channel, .. }
        | Act::Issue { channel, .. }
        | Act::Plead { channel, .. }
        | Act::Absolve { channel, .. }
        | Act::Honour { channel }
        | Act::LimitSending { channel, .. }
        | Act::LimitReceiving { channel, .. }
        | Act::Finish { channel } => own_event(me, peer, *channel, act),
        Act::Arrive => arrive(me, peer),
        Act::Deliver { count } => deliver(me, peer, *count),
        Act::Take { channel } => take(alloc, me, peer, *channel),
    }
}
