//! What the calls of a peer would answer, and what there is to do, behind its handle. Nothing changes.
ghost use Rattle.std.specs.Prelude.{◌≡◌, map};
ghost use Rattle.lc_frame.specs.declared.frame.Frame.TheVariants.{Issue, Absolve, Plead, LimitSending, LimitReceiving, Finish};
ghost use Rattle.lc_frame.specs.Channel.{channel_at};
ghost use Rattle.lc_peer.specs.Questions.{needs, ready_on};
ghost use Rattle.lc_c.specs.Answers.{answer_of};
ghost use Rattle.lc_c.specs.Reach.{answered};
ghost use Rattle.lc_c.specs.Calls.{frame_answer, honour_answer};
ghost use Rattle.lc_c.specs.Asking.{would_send_answer, needs_shown, ready_shown, told, slots_answer, wants_answer, ReadyBehind};

use crate::answer::{DONE, LcmuxAnswer, NEVER, NO_PEER, answer, only, refused, sized};
use crate::balances::flag;
use crate::own::honoured;
use crate::peer::{LcmuxPeer, open};
use crate::reach::{Target, reach};
use lc_book::Refusal;
use lc_frame::{CHANNELS, Channel};
use lc_peer::{Needs, Peer, Ready};
use std::alloc::Global;

/// The size of [`LcmuxReady`].
const READY_SIZE: u64 = 288;

/// What there is to do on a channel: 1 where it is so, else 0.
#[repr(C)]
#[derive(Clone, Copy)]
pub struct LcmuxChannelReady {
    pub message: u64,
    pub ended: u64,
    pub plead: u64,
    pub finished: u64,
    pub finished_there: u64,
}

/// What there is to do on each channel, by their numbers.
#[repr(C)]
#[derive(Clone, Copy)]
pub struct LcmuxReady {
    /// The bytes of the caller's struct, which may be of a later version.
    pub size: u64,
    pub channels: [LcmuxChannelReady; CHANNELS],
}

/// What a send of so many bytes would answer, but for code 14. Codes 15, 1, 2, 3, 4 and 13.
#[unsafe(no_mangle)]
pub extern "C" fn lcmux_peer_would_send(
    alloc: Global,
    peer: &mut LcmuxPeer,
    channel: u32,
    len: usize,
) -> LcmuxAnswer
    ensures answer { result ≡ would_send_answer peer.old.slot.held (channel_at channel) len }
    ensures same { peer.new.slot.held ≡ peer.old.slot.held }
{
    match reach(peer, alloc, channel) {
        Target::Barred(answer) => answer,
        Target::At(side, channel) => {
            let judged = side.peer.would_send(channel, len);
            *peer = LcmuxPeer::of(side);
            answer(judged)
        }
    }
}

/// What `lcmux_peer_issue` would answer.
#[unsafe(no_mangle)]
pub extern "C" fn lcmux_peer_would_issue(
    alloc: Global,
    peer: &mut LcmuxPeer,
    channel: u32,
    amount: u32,
) -> LcmuxAnswer
    ensures answer { result ≡ frame_answer peer.old.slot.held (channel_at channel) (λ c. Issue c amount) }
    ensures same { peer.new.slot.held ≡ peer.old.slot.held }
{
    match reach(peer, alloc, channel) {
        Target::Barred(answer) => answer,
        Target::At(side, channel) => {
            let judged = side.peer.would_issue(channel, amount);
            *peer = LcmuxPeer::of(side);
            answer(judged)
        }
    }
}

/// What `lcmux_peer_absolve` would answer.
#[unsafe(no_mangle)]
pub extern "C" fn lcmux_peer_would_absolve(
    alloc: Global,
    peer: &mut LcmuxPeer,
    channel: u32,
    amount: u32,
) -> LcmuxAnswer
    ensures answer { result ≡ frame_answer peer.old.slot.held (channel_at channel) (λ c. Absolve c amount) }
    ensures same { peer.new.slot.held ≡ peer.old.slot.held }
{
    match reach(peer, alloc, channel) {
        Target::Barred(answer) => answer,
        Target::At(side, channel) => {
            let judged = side.peer.would_absolve(channel, amount);
            *peer = LcmuxPeer::of(side);
            answer(judged)
        }
    }
}

/// What `lcmux_peer_plead` would answer.
#[unsafe(no_mangle)]
pub extern "C" fn lcmux_peer_would_plead(
    alloc: Global,
    peer: &mut LcmuxPeer,
    channel: u32,
    target: u32,
) -> LcmuxAnswer
    ensures answer { result ≡ frame_answer peer.old.slot.held (channel_at channel) (λ c. Plead c target) }
    ensures same { peer.new.slot.held ≡ peer.old.slot.held }
{
    match reach(peer, alloc, channel) {
        Target::Barred(answer) => answer,
        Target::At(side, channel) => {
            let judged = side.peer.would_plead(channel, target);
            *peer = LcmuxPeer::of(side);
            answer(judged)
        }
    }
}

/// What `lcmux_peer_limit_sending` would answer.
#[unsafe(no_mangle)]
pub extern "C" fn lcmux_peer_would_limit_sending(
    alloc: Global,
    peer: &mut LcmuxPeer,
    channel: u32,
    bound: u64,
) -> LcmuxAnswer
    ensures answer { result ≡ frame_answer peer.old.slot.held (channel_at channel) (λ c. LimitSending c bound) }
    ensures same { peer.new.slot.held ≡ peer.old.slot.held }
{
    match reach(peer, alloc, channel) {
        Target::Barred(answer) => answer,
        Target::At(side, channel) => {
            let judged = side.peer.would_limit_sending(channel, bound);
            *peer = LcmuxPeer::of(side);
            answer(judged)
        }
    }
}

/// What `lcmux_peer_limit_receiving` would answer.
#[unsafe(no_mangle)]
pub extern "C" fn lcmux_peer_would_limit_receiving(
    alloc: Global,
    peer: &mut LcmuxPeer,
    channel: u32,
    bound: u64,
) -> LcmuxAnswer
    ensures answer { result ≡ frame_answer peer.old.slot.held (channel_at channel) (λ c. LimitReceiving c bound) }
    ensures same { peer.new.slot.held ≡ peer.old.slot.held }
{
    match reach(peer, alloc, channel) {
        Target::Barred(answer) => answer,
        Target::At(side, channel) => {
            let judged = side.peer.would_limit_receiving(channel, bound);
            *peer = LcmuxPeer::of(side);
            answer(judged)
        }
    }
}

/// What `lcmux_peer_finish` would answer.
#[unsafe(no_mangle)]
pub extern "C" fn lcmux_peer_would_finish(
    alloc: Global,
    peer: &mut LcmuxPeer,
    channel: u32,
) -> LcmuxAnswer
    ensures answer { result ≡ frame_answer peer.old.slot.held (channel_at channel) Finish }
    ensures same { peer.new.slot.held ≡ peer.old.slot.held }
{
    match reach(peer, alloc, channel) {
        Target::Barred(answer) => answer,
        Target::At(side, channel) => {
            let judged = side.peer.would_finish(channel);
            *peer = LcmuxPeer::of(side);
            answer(judged)
        }
    }
}

/// What `lcmux_peer_honour` would answer.
#[unsafe(no_mangle)]
pub extern "C" fn lcmux_peer_would_honour(
    alloc: Global,
    peer: &mut LcmuxPeer,
    channel: u32,
) -> LcmuxAnswer
    ensures answer { result ≡ honour_answer peer.old.slot.held (channel_at channel) }
    ensures same { peer.new.slot.held ≡ peer.old.slot.held }
{
    match reach(peer, alloc, channel) {
        Target::Barred(answer) => answer,
        Target::At(side, channel) => {
            let judged = side.peer.would_honour(channel);
            *peer = LcmuxPeer::of(side);
            honoured(judged)
        }
    }
}

pub(crate) fn needs_shown(needs: Needs) -> LcmuxAnswer
    ensures { result ≡ needs_shown needs }
{
    match needs {
        Needs::Nothing => only(DONE),
        Needs::Guarantees(missing) => LcmuxAnswer {
            code: u32::from(Refusal::NoGuarantee { held: 0 }.number()),
            number: missing,
        },
        Needs::Slot => refused(Refusal::QueueFull),
        Needs::Never => only(NEVER),
    }
}

/// What a message of so many bytes needs before it can be sent: nothing, with code 0; so many
/// guarantees more, the number, with code 4; a place to wait in, with 13; what never comes, with 50.
#[unsafe(no_mangle)]
pub extern "C" fn lcmux_peer_needs(
    alloc: Global,
    peer: &mut LcmuxPeer,
    channel: u32,
    len: usize,
) -> LcmuxAnswer
    ensures answer { result ≡ answered peer.old.slot.held (channel_at channel) (λ side c. needs_shown (needs side.peer c len)) }
    ensures same { peer.new.slot.held ≡ peer.old.slot.held }
{
    match reach(peer, alloc, channel) {
        Target::Barred(answer) => answer,
        Target::At(side, channel) => {
            let needs = side.peer.needs(channel, len);
            *peer = LcmuxPeer::of(side);
            needs_shown(needs)
        }
    }
}

// An answer that is a number.
pub(crate) fn told(number: u64) -> LcmuxAnswer
    ensures { result ≡ told number }
{
    LcmuxAnswer { code: DONE, number }
}

/// The number is how many frames more may wait to go out.
#[unsafe(no_mangle)]
pub extern "C" fn lcmux_peer_slots_left(alloc: Global, peer: &mut LcmuxPeer) -> LcmuxAnswer
    ensures answer { result ≡ slots_answer peer.old.slot.held }
    ensures same { peer.new.slot.held ≡ peer.old.slot.held }
{
    match open(peer, alloc) {
        None => only(NO_PEER),
        Some(side) => {
            let slots = side.peer.slots_left();
            *peer = LcmuxPeer::of(side);
            told(slots as u64)
        }
    }
}

/// The number is 1 where there is anything to write, else 0.
#[unsafe(no_mangle)]
pub extern "C" fn lcmux_peer_wants_write(alloc: Global, peer: &mut LcmuxPeer) -> LcmuxAnswer
    ensures answer { result ≡ wants_answer peer.old.slot.held }
    ensures same { peer.new.slot.held ≡ peer.old.slot.held }
{
    match open(peer, alloc) {
        None => only(NO_PEER),
        Some(side) => {
            let wants = side.pending.len() > 0 || side.peer.waiting() > 0;
            *peer = LcmuxPeer::of(side);
            told(flag(wants))
        }
    }
}

fn ready_shown(ready: Ready) -> LcmuxChannelReady
    ensures { result ≡ ready_shown ready }
{
    LcmuxChannelReady {
        message: flag(ready.message),
        ended: flag(ready.ended),
        plead: flag(ready.plead),
        finished: flag(ready.finished),
        finished_there: flag(ready.finished_there),
    }
}

fn all_shown(peer: &Peer) -> [LcmuxChannelReady; CHANNELS]
    ensures { result ≡ map ready_shown (map (ready_on peer.now) Channel.ALL) }
{
    peer.ready().map(ready_shown)
}

/// What there is to do on each channel. Code 39, where the struct is too short, and stays as it was.
#[unsafe(no_mangle)]
pub extern "C" fn lcmux_peer_ready(
    alloc: Global,
    peer: &mut LcmuxPeer,
    ready: &mut LcmuxReady,
) -> LcmuxAnswer
    ensures ready { ReadyBehind Channel.ALL peer.old.slot.held ready.old ready.new result }
    ensures same { peer.new.slot.held ≡ peer.old.slot.held }
{
    match open(peer, alloc) {
        None => only(NO_PEER),
        Some(side) => {
            let answer = sized(ready.size, READY_SIZE);
            if ready.size >= READY_SIZE {
                ready.channels = all_shown(&side.peer);
            }
            *peer = LcmuxPeer::of(side);
            answer
        }
    }
}
