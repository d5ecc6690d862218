//! Making a peer behind a handle, and freeing it.
ghost use Rattle.std.specs.Prelude.{◌≡◌, None, IfOk, is_some, if◌then◌else◌};
ghost use Rattle.std.specs.Result.{result_err};
ghost use Rattle.lc_peer.specs.Config.{IsNewAnswer, config_fault};
ghost use Rattle.lc_c.specs.Answers.{only, done, no_peer, is_done};
ghost use Rattle.lc_c.specs.Make.{fault_answer, new_c_peer, MakeAnswers, made, version_at, config_of};

use crate::answer::{
    BAD_CAPACITY, BAD_SLOTS, BAD_VERSION, DONE, HAS_PEER, LcmuxAnswer, NO_PEER, only, refused,
};
use crate::c_peer::CPeer;
use crate::peer::{LcmuxPeer, open};
use crate::pending::Pending;
use lc_book::Refusal;
use lc_frame::{CHANNELS, Version};
use lc_peer::{Config, Peer, PeerFault, RingIntake};
use std::alloc::Global;

/// The bounds of a peer.
#[repr(C)]
#[derive(Clone, Copy)]
pub struct LcmuxConfig {
    /// The version of the format that goes out: 1 or 2. Either may come.
    pub version: u32,
    /// How many frames may wait to go out, 1 to 65,536.
    pub slots: u32,
    /// The bytes of each channel's receiving ring, 1 to 2^24, by the channel's number.
    pub capacities: [u32; CHANNELS],
}

// The version of a number.
fn version_at(number: u32) -> Option<Version>
    ensures { result ≡ version_at number }
{
    match number {
        1 => Some(Version::One),
        2 => Some(Version::Two),
        _ => None,
    }
}

/// The configuration that C hands in, where there is a version of its number.
pub(crate) fn config_of(config: &LcmuxConfig) -> Option<Config>
    ensures { result ≡ config_of config.now }
{
    let version = version_at(config.version)?;
    Some(Config {
        version,
        capacities: config.capacities,
        slots: config.slots,
    })
}

/// Why there is no peer, or no session.
pub(crate) fn fault_answer(fault: PeerFault) -> LcmuxAnswer
    ensures { result ≡ fault_answer fault }
{
    match fault {
        PeerFault::BadCapacity { channel, .. } => LcmuxAnswer {
            code: BAD_CAPACITY,
            number: u64::from(channel.number()),
        },
        PeerFault::BadSlots { .. } => only(BAD_SLOTS),
        PeerFault::OutOfMemory => refused(Refusal::OutOfMemory),
    }
}

// A side on which nothing has happened.
fn new_c_peer(alloc: Global, config: Config) -> Result<Box<CPeer>, PeerFault>
    ensures answer { IsNewAnswer config (result_err result) }
    ensures value { IfOk result (λ side. side.value ≡ new_c_peer config) }
{
    let peer = Peer::new(alloc, config)?;
    let Ok(intake) = RingIntake::new(alloc, config.capacities) else {
        return Err(PeerFault::OutOfMemory);
    };
    let Ok(pending) = Pending::new(alloc, config.version) else {
        return Err(PeerFault::OutOfMemory);
    };
    let side = CPeer {
        peer,
        intake,
        taken: 0,
        pending,
    };
    match Box::new(alloc, side) {
        Ok(side) => Ok(side),
        Err(_) => Err(PeerFault::OutOfMemory),
    }
}

/// Makes a peer on which nothing has happened behind an empty handle. Codes 33, 35, 36, whose number
/// is the first channel of such a ring, 37 and 14, in this order; the handle is then as it was.
#[unsafe(no_mangle)]
pub extern "C" fn lcmux_peer_new(
    alloc: Global,
    config: &LcmuxConfig,
    peer: &mut LcmuxPeer,
) -> LcmuxAnswer
    ensures answer { MakeAnswers config_fault peer.old.slot.held config.now result }
    ensures after { peer.new.slot.held ≡ made new_c_peer (is_done result) peer.old.slot.held config.now }
{
    match open(peer, alloc) {
        Some(side) => {
            *peer = LcmuxPeer::of(side);
            return only(HAS_PEER);
        }
        None => {}
    }
    let bounds = match config_of(config) {
        Some(bounds) => bounds,
        None => return only(BAD_VERSION),
    };
    match new_c_peer(alloc, bounds) {
        Ok(side) => {
            *peer = LcmuxPeer::of(side);
            only(DONE)
        }
        Err(fault) => fault_answer(fault),
    }
}

/// Takes the peer out of the handle, which stays empty, and drops it. Code 32, where it was empty.
#[unsafe(no_mangle)]
pub extern "C" fn lcmux_peer_free(alloc: Global, peer: &mut LcmuxPeer) -> LcmuxAnswer
    ensures answer { result ≡ only (if is_some peer.old.slot.held then done else no_peer) }
    ensures empty { peer.new.slot.held ≡ None }
{
    match open(peer, alloc) {
        Some(_side) => only(DONE),
        None => only(NO_PEER),
    }
}
