//! Messages out of a peer, behind its handle.
ghost use Rattle.std.specs.Prelude.{◌≡◌, length};
ghost use Rattle.lc_frame.specs.Channel.{channel_at};
ghost use Rattle.lc_c.specs.Reach.{answered};
ghost use Rattle.lc_c.specs.Takes.{take_shown, take_answer, take_after, filled, front_answer, pop_after};

use crate::answer::{DONE, EMPTY, ENDED, LcmuxAnswer, only, refused};
use crate::peer::LcmuxPeer;
use crate::reach::{Target, reach};
use lc_frame::Channel;
use lc_peer::{Peer, Take};
use std::alloc::Global;

// What a take answers: the number is the length of the message that was taken.
pub(crate) fn shown(take: Take) -> LcmuxAnswer
    ensures { result ≡ take_shown take }
{
    match take {
        Take::Took(len) => LcmuxAnswer {
            code: DONE,
            number: len as u64,
        },
        Take::Empty => only(EMPTY),
        Take::Ended => only(ENDED),
    }
}

/// The first message of a channel goes to the front of `buffer`, and the number is its length. Codes
/// 16, where the buffer is shorter than the number, 48 and 49.
#[unsafe(no_mangle)]
pub extern "C" fn lcmux_peer_take(
    alloc: Global,
    peer: &mut LcmuxPeer,
    channel: u32,
    buffer: &mut [u8],
) -> LcmuxAnswer
    ensures answer { result ≡ take_answer peer.old.slot.held (channel_at channel) (length buffer.old) }
    ensures after { peer.new.slot.held ≡ take_after peer.old.slot.held (channel_at channel) (length buffer.old) }
    ensures buffer { buffer.new ≡ filled peer.old.slot.held (channel_at channel) buffer.old }
{
    match reach(peer, alloc, channel) {
        Target::Barred(answer) => answer,
        Target::At(mut side, channel) => {
            let taken = side.peer.take_into(channel, buffer);
            *peer = LcmuxPeer::of(side);
            match taken {
                Ok(take) => shown(take),
                Err(refusal) => refused(refusal),
            }
        }
    }
}

// What a take would answer that has room.
pub(crate) fn front(peer: &Peer, channel: Channel) -> LcmuxAnswer
    ensures { result ≡ front_answer peer.now channel }
{
    match peer.front(channel) {
        Some((first, rest)) => shown(Take::Took(first.len() + rest.len())),
        None => {
            if peer.server(channel).is_ended() {
                shown(Take::Ended)
            } else {
                shown(Take::Empty)
            }
        }
    }
}

/// The number is the length of the first message of a channel, which stays. Codes 48 and 49.
#[unsafe(no_mangle)]
pub extern "C" fn lcmux_peer_front_len(
    alloc: Global,
    peer: &mut LcmuxPeer,
    channel: u32,
) -> LcmuxAnswer
    ensures answer { result ≡ answered peer.old.slot.held (channel_at channel) (λ side c. front_answer side.peer c) }
    ensures same { peer.new.slot.held ≡ peer.old.slot.held }
{
    match reach(peer, alloc, channel) {
        Target::Barred(answer) => answer,
        Target::At(side, channel) => {
            let answer = front(&side.peer, channel);
            *peer = LcmuxPeer::of(side);
            answer
        }
    }
}

/// The first message of a channel is dropped, and the number is its length. Codes 48 and 49.
#[unsafe(no_mangle)]
pub extern "C" fn lcmux_peer_pop(alloc: Global, peer: &mut LcmuxPeer, channel: u32) -> LcmuxAnswer
    ensures answer { result ≡ answered peer.old.slot.held (channel_at channel) (λ side c. front_answer side.peer c) }
    ensures after { peer.new.slot.held ≡ pop_after peer.old.slot.held (channel_at channel) }
{
    match reach(peer, alloc, channel) {
        Target::Barred(answer) => answer,
        Target::At(mut side, channel) => {
            let take = side.peer.pop(channel);
            *peer = LcmuxPeer::of(side);
            shown(take)
        }
    }
}
