//! A message of a peer, behind its handle, where it lies.
ghost use Rattle.std.specs.Prelude.{◌≡◌, ◌+◌, ◌<◌, length};
ghost use denote.RawPtr.{block_ptr};
ghost use Rattle.lc_frame.specs.Channel.{channel_at};
ghost use Rattle.lc_c.specs.Reach.{answered};
ghost use Rattle.lc_c.specs.Takes.{front_answer};

use crate::answer::LcmuxAnswer;
use crate::peer::LcmuxPeer;
use crate::reach::{Target, reach};
use crate::take::front;
use lc_frame::Channel;
use lc_peer::Peer;
use std::alloc::Global;

/// Bytes where they lie.
#[repr(C)]
#[derive(Clone, Copy)]
pub struct LcmuxPiece {
    pub bytes: *const u8,
    pub len: usize,
}

/// A message where it lies: the bytes of one piece, and then those of another.
#[repr(C)]
#[derive(Clone, Copy)]
pub struct LcmuxFront {
    pub first: LcmuxPiece,
    pub rest: LcmuxPiece,
}

impl LcmuxPiece {
    // A pointer is proved by hand. What lies at it no contract of an export can say, since the memory
    // stays the peer's.
    pub(crate) fn of(bytes: &[u8]) -> LcmuxPiece
        ensures { (result.bytes ≡ block_ptr bytes.entry.ref_ptr.0 bytes.entry.ref_ptr.1) × (result.len ≡ length bytes.now) }
    {
        LcmuxPiece {
            bytes: bytes.as_ptr(),
            len: bytes.len(),
        }
    }
}

impl LcmuxFront {
    // Each piece is where its slice lies, and as long.
    pub(crate) fn of(first: &[u8], rest: &[u8]) -> LcmuxFront
        ensures first { (result.first.bytes ≡ block_ptr first.entry.ref_ptr.0 first.entry.ref_ptr.1) × (result.first.len ≡ length first.now) }
        ensures rest { (result.rest.bytes ≡ block_ptr rest.entry.ref_ptr.0 rest.entry.ref_ptr.1) × (result.rest.len ≡ length rest.now) }
    {
        LcmuxFront {
            first: LcmuxPiece::of(first),
            rest: LcmuxPiece::of(rest),
        }
    }
}

// The first message of a channel where it lies, and no byte where none waits.
pub(crate) fn lend(peer: &Peer, channel: Channel) -> LcmuxFront
    ensures message { result.first.len + result.rest.len ≡ (front_answer peer.now channel).number }
    ensures first { 0 < result.rest.len → 0 < result.first.len }
{
    match peer.front(channel) {
        Some((first, rest)) => LcmuxFront::of(first, rest),
        None => LcmuxFront::of(&[], &[]),
    }
}

/// The first message of a channel, which stays, is lent where it lies, and the number is its length.
/// Codes 48 and 49, with which both pieces are empty, as with those of a handle and a channel.
#[unsafe(no_mangle)]
pub extern "C" fn lcmux_peer_front(
    alloc: Global,
    peer: &mut LcmuxPeer,
    channel: u32,
    message: &mut LcmuxFront,
) -> LcmuxAnswer
    ensures answer { result ≡ answered peer.old.slot.held (channel_at channel) (λ side c. front_answer side.peer c) }
    ensures message { message.new.first.len + message.new.rest.len ≡ result.number }
    ensures first { 0 < result.number → 0 < message.new.first.len }
    ensures same { peer.new.slot.held ≡ peer.old.slot.held }
{
    match reach(peer, alloc, channel) {
        Target::Barred(answer) => {
            *message = LcmuxFront::of(&[], &[]);
            answer
        }
        Target::At(side, channel) => {
            let answer = front(&side.peer, channel);
            *message = lend(&side.peer, channel);
            *peer = LcmuxPeer::of(side);
            answer
        }
    }
}
