//! The streams of a peer, behind its handle.
ghost use Rattle.std.specs.Prelude.{◌≡◌};
ghost use Rattle.lc_c.specs.Streams.{stop_code, shown, DeliversAt, DeliversBehind, WritesBehind, pending_answer, EndsBehind};

use crate::answer::{DONE, LcmuxAnswer, NO_PEER, only};
use crate::c_peer::CPeer;
use crate::peer::{LcmuxPeer, open};
use crate::streams::{count, give};
use lc_peer::{Delivery, Stop};
use std::alloc::Global;

/// What a delivery did.
#[repr(C)]
#[derive(Clone, Copy)]
pub struct LcmuxDelivery {
    pub code: u32,
    /// How many bytes of the piece were taken: all of them unless it stopped.
    pub taken: usize,
    /// How many frames arrived.
    pub frames: u64,
}

pub(crate) fn code_of(stop: Option<Stop>) -> u32
    ensures { result ≡ stop_code stop }
{
    match stop {
        Some(Stop::Violated(violation)) => 100 + u32::from(violation.number()),
        Some(Stop::Fault(fault)) => 200 + u32::from(fault.number()),
        None => DONE,
    }
}

pub(crate) fn shown(delivery: Delivery) -> LcmuxDelivery
    ensures { result ≡ shown delivery }
{
    LcmuxDelivery {
        code: code_of(delivery.stop),
        taken: delivery.taken,
        frames: delivery.frames,
    }
}

// A piece of the stream is delivered, unless the stream was given up.
fn deliver(side: &mut CPeer, piece: &[u8]) -> Delivery
    ensures { DeliversAt side.old.intake.stop piece.now side.old side.new result }
{
    let delivery = side.intake.deliver(&mut side.peer, &(), piece);
    side.taken = side.taken.saturating_add(delivery.taken as u64);
    delivery
}

/// The next bytes of the stream, of either version, arrive. Codes 101 to 109 for a violation, 201 to
/// 203 for a fault, which are kept.
#[unsafe(no_mangle)]
pub extern "C" fn lcmux_peer_deliver(
    alloc: Global,
    peer: &mut LcmuxPeer,
    piece: &[u8],
) -> LcmuxDelivery
    ensures { DeliversBehind peer.old.slot.held piece.now peer.new.slot.held result }
{
    match open(peer, alloc) {
        None => LcmuxDelivery {
            code: NO_PEER,
            taken: 0,
            frames: 0,
        },
        Some(mut side) => {
            let delivery = deliver(&mut side, piece);
            *peer = LcmuxPeer::of(side);
            shown(delivery)
        }
    }
}

/// The next bytes that go out are written to the front of `buffer`, as many as there are and have
/// room; the number is how many.
#[unsafe(no_mangle)]
pub extern "C" fn lcmux_peer_write(
    alloc: Global,
    peer: &mut LcmuxPeer,
    buffer: &mut [u8],
) -> LcmuxAnswer
    ensures { WritesBehind peer.old.slot.held buffer.old peer.new.slot.held buffer.new result }
{
    match open(peer, alloc) {
        None => only(NO_PEER),
        Some(mut side) => {
            let count = give(&mut side, buffer);
            *peer = LcmuxPeer::of(side);
            LcmuxAnswer {
                code: DONE,
                number: count as u64,
            }
        }
    }
}

/// The number is how many bytes a write with room for all would give.
#[unsafe(no_mangle)]
pub extern "C" fn lcmux_peer_pending(alloc: Global, peer: &mut LcmuxPeer) -> LcmuxAnswer
    ensures answer { result ≡ pending_answer peer.old.slot.held }
    ensures same { peer.new.slot.held ≡ peer.old.slot.held }
{
    match open(peer, alloc) {
        None => only(NO_PEER),
        Some(side) => {
            let count = count(&side);
            *peer = LcmuxPeer::of(side);
            LcmuxAnswer {
                code: DONE,
                number: count as u64,
            }
        }
    }
}

/// What it means that the stream ends here: 0 between two frames, 204 inside one or inside a greeting,
/// and the code of the delivery that stopped, where one did.
#[unsafe(no_mangle)]
pub extern "C" fn lcmux_peer_end(alloc: Global, peer: &mut LcmuxPeer) -> LcmuxAnswer
    ensures answer { EndsBehind peer.old.slot.held result }
    ensures same { peer.new.slot.held ≡ peer.old.slot.held }
{
    match open(peer, alloc) {
        None => only(NO_PEER),
        Some(side) => {
            let code = code_of(side.intake.end());
            *peer = LcmuxPeer::of(side);
            only(code)
        }
    }
}
