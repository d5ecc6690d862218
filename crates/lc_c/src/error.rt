//! What broke the rules of a peer's inbound stream, and where, behind its handle.
ghost use Rattle.std.specs.Prelude.{◌≡◌, Option};
ghost use Rattle.lc_frame.specs.declared.channel.Channel.{Channel};
ghost use Rattle.lc_peer.specs.declared.delivery.Stop.{Stop};
ghost use Rattle.lc_c.specs.Balances.{or_no_limit};
ghost use Rattle.lc_c.specs.Errors.{allowed_by, with_head, ShowsError, ErrorBehind};

use crate::answer::{LcmuxAnswer, NO_PEER, only, sized};
use crate::balances::{NO_LIMIT, or_no_limit};
use crate::peer::{LcmuxPeer, open};
use crate::wire::code_of;
use lc_frame::Channel;
use lc_peer::{FrameHead, Peer, RingIntake, Stop};
use std::alloc::Global;

/// The size of [`LcmuxError`].
pub(crate) const ERROR_SIZE: u64 = 64;

/// What broke the rules of the inbound stream, and where; [`NO_LIMIT`] stands for what is not there.
#[repr(C)]
#[derive(Clone, Copy)]
pub struct LcmuxError {
    /// The bytes of the caller's struct, which may be of a later version.
    pub size: u64,
    /// The code of the delivery that stopped, 0 while the stream goes on.
    pub code: u64,
    /// The offset of the frame that broke the rules, or of the frame that comes next.
    pub offset: u64,
    pub kind: u64,
    pub channel: u64,
    pub number: u64,
    /// How much the frame might have carried.
    pub allowed: u64,
    /// The byte of a bad tag, or that differs from a greeting.
    pub byte: u64,
}

// How much a frame of the channel might have carried that violates the rules.
fn allowed_by(peer: &Peer, channel: Channel, stop: Option<Stop>) -> Option<u64>
    ensures { result ≡ allowed_by peer.now channel stop }
{
    match stop {
        Some(Stop::Violated(violation)) => peer.allowed(channel, violation),
        Some(Stop::Fault(_)) => None,
        None => None,
    }
}

fn byte_or_none(byte: Option<u8>) -> u64
    ensures { result ≡ or_no_limit byte }
{
    match byte {
        Some(byte) => u64::from(byte),
        None => NO_LIMIT,
    }
}

// The same error of a frame.
fn with_head(error: LcmuxError, head: FrameHead, allowed: Option<u64>) -> LcmuxError
    ensures { result ≡ with_head error head allowed }
{
    LcmuxError {
        kind: u64::from(head.kind.code()),
        channel: u64::from(head.channel.number()),
        number: or_no_limit(head.number),
        allowed: or_no_limit(allowed),
        ..error
    }
}

/// The error of an inbound stream, of which so many bytes were taken.
pub(crate) fn error_shown(size: u64, peer: &Peer, intake: &RingIntake, taken: u64) -> LcmuxError
    ensures { ShowsError size peer.now intake.now taken result }
{
    let stop = intake.stop();
    let error = LcmuxError {
        size,
        code: u64::from(code_of(stop)),
        offset: taken.saturating_sub(intake.begun() as u64),
        kind: NO_LIMIT,
        channel: NO_LIMIT,
        number: NO_LIMIT,
        allowed: NO_LIMIT,
        byte: byte_or_none(intake.bad_byte()),
    };
    match intake.offending() {
        Some(head) => with_head(error, head, allowed_by(peer, head.channel, stop)),
        None => error,
    }
}

/// Why the inbound stream was given up, and where. Where it was not, the code is 0, and the offset is
/// that of the frame that comes next, or of the one that the end of the stream cuts. Code 39, where the
/// struct is too short, and stays as it was.
#[unsafe(no_mangle)]
pub extern "C" fn lcmux_peer_error(
    alloc: Global,
    peer: &mut LcmuxPeer,
    error: &mut LcmuxError,
) -> LcmuxAnswer
    ensures error { ErrorBehind peer.old.slot.held error.old error.new result }
    ensures same { peer.new.slot.held ≡ peer.old.slot.held }
{
    match open(peer, alloc) {
        None => only(NO_PEER),
        Some(side) => {
            let answer = sized(error.size, ERROR_SIZE);
            if error.size >= ERROR_SIZE {
                *error = error_shown(error.size, &side.peer, &side.intake, side.taken);
            }
            *peer = LcmuxPeer::of(side);
            answer
        }
    }
}
