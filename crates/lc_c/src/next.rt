//! The frame that goes out next, behind the handle of its peer, where it lies.
ghost use Rattle.std.specs.Prelude.{◌≡◌, ◌+◌, ◌≤◌, ◌∷◌, [], length, take, IfSome, IfNone};
ghost use Rattle.std.specs.Int.{w16, w32, to_be_bytes};
ghost use Rattle.lc_frame.specs.declared.frame.Frame.TheVariants.{Send};
ghost use Rattle.lc_frame.specs.Kind.{max_body};
ghost use Rattle.lc_frame.specs.Frame.{body_of, IsValid};
ghost use Rattle.lc_frame.specs.FrameRef.{frame_of};
ghost use Rattle.lc_frame.specs.Encoding.{encoding};
ghost use Rattle.lc_c.specs.Streams.{GivesOut, next_body, next_bytes, next_shown, next_answer, next_of, body_of_next, SentBehind};

use crate::answer::{DONE, EMPTY, LcmuxAnswer, NO_PEER, only};
use crate::c_peer::CPeer;
use crate::lend::LcmuxPiece;
use crate::peer::{LcmuxPeer, open};
use lc_frame::{Channel, FrameRef, Version};
use std::alloc::Global;

/// The bytes of the longest tag and number.
const HEADER: usize = 9;

/// A frame that goes out next, where it lies: the first so many bytes of the header, and then those of
/// the piece, which is empty unless the frame carries a message.
#[repr(C)]
#[derive(Clone, Copy)]
pub struct LcmuxNext {
    pub header: [u8; HEADER],
    pub header_len: usize,
    pub message: LcmuxPiece,
}

impl LcmuxNext {
    fn none() -> LcmuxNext
        ensures { (result.header_len ≡ 0) × (result.message.len ≡ 0) }
    {
        LcmuxNext {
            header: [0; HEADER],
            header_len: 0,
            message: LcmuxPiece::of(&[]),
        }
    }

    // A frame that is valid in its version.
    fn of(version: Version, frame: FrameRef<'_>) -> LcmuxNext
        requires { IsValid version (frame_of frame) }
        ensures message { result.message.len ≡ length (body_of (frame_of frame.entry)) }
        ensures len { result.header_len + result.message.len ≡ length (encoding version (frame_of frame.entry)) }
        ensures header { take result.header_len result.header ≡ take result.header_len (encoding version (frame_of frame.entry)) }
    {
        match frame {
            FrameRef::Send { channel, body } => LcmuxNext::of_message(version, channel, body),
            _ => LcmuxNext::of_short(version, frame),
        }
    }

    fn of_message(version: Version, channel: Channel, message: &[u8]) -> LcmuxNext
        requires { length message.now ≤ max_body version }
        ensures message { result.message.len ≡ length message.now }
        ensures len { result.header_len + result.message.len ≡ length (encoding version (Send channel message.now)) }
        ensures header { take result.header_len result.header ≡ take result.header_len (encoding version (Send channel message.now)) }
    {
        let tag = 16 + channel.number();
        let (header, header_len) = match version {
            Version::One => short(tag, message.len() as u16),
            Version::Two => long(tag, message.len() as u32),
        };
        LcmuxNext {
            header,
            header_len,
            message: LcmuxPiece::of(message),
        }
    }

    // A frame that carries no message.
    fn of_short(version: Version, frame: FrameRef<'_>) -> LcmuxNext
        requires valid { IsValid version (frame_of frame) }
        requires short { length (encoding version (frame_of frame)) ≤ 9 }
        ensures message { result.message.len ≡ 0 }
        ensures len { result.header_len + result.message.len ≡ length (encoding version (frame_of frame.entry)) }
        ensures header { take result.header_len result.header ≡ take result.header_len (encoding version (frame_of frame.entry)) }
    {
        let mut header = [0; HEADER];
        match frame.encode_to_slice(version, &mut header) {
            Ok(header_len) => LcmuxNext {
                header,
                header_len,
                message: LcmuxPiece::of(&[]),
            },
            Err(_) => unreachable!(),
        }
    }
}

// A tag and a number of 16 bits.
fn short(tag: u8, number: u16) -> ([u8; HEADER], usize)
    ensures { (result.1 ≡ 3) × (take 3 result.0 ≡ tag ∷ to_be_bytes w16 number) }
{
    let n = number.to_be_bytes();
    ([tag, n[0], n[1], 0, 0, 0, 0, 0, 0], 3)
}

// A tag and a number of 32 bits.
fn long(tag: u8, number: u32) -> ([u8; HEADER], usize)
    ensures { (result.1 ≡ 5) × (take 5 result.0 ≡ tag ∷ to_be_bytes w32 number) }
{
    let n = number.to_be_bytes();
    ([tag, n[0], n[1], n[2], n[3], 0, 0, 0, 0], 5)
}

// The frame that goes out next, where nothing is left of what was begun before it.
fn next(side: &CPeer) -> Option<FrameRef<'_>>
    ensures some { IfSome result (λ f. encoding side.now.peer.version (frame_of f) ≡ next_bytes side.now) }
    ensures body { IfSome result (λ f. body_of (frame_of f) ≡ next_body side.now) }
    ensures valid { IfSome result (λ f. IsValid side.now.peer.version (frame_of f)) }
    ensures none { IfNone result (next_bytes side.now ≡ []) }
    ensures no_body { IfNone result (next_body side.now ≡ []) }
{
    if side.pending.len() > 0 {
        return None;
    }
    side.peer.waiting_frame(0)
}

// How many bytes it has.
fn next_len(side: &CPeer) -> usize
    ensures { result ≡ length (next_bytes side.now) }
{
    match next(side) {
        Some(frame) => frame.encoded_len(side.peer.version()),
        None => 0,
    }
}

// The same where it lies.
fn lend(side: &CPeer) -> LcmuxNext
    ensures len { result.header_len + result.message.len ≡ length (next_bytes side.now) }
    ensures message { result.message.len ≡ length (next_body side.now) }
    ensures header { take result.header_len result.header ≡ take result.header_len (next_bytes side.now) }
{
    match next(side) {
        Some(frame) => LcmuxNext::of(side.peer.version(), frame),
        None => LcmuxNext::none(),
    }
}

// It went out whole.
fn drop_next(side: &mut CPeer) -> usize
    ensures count { result ≡ length (next_bytes side.old) }
    ensures gives { GivesOut result side.old side.new }
{
    if side.pending.len() > 0 {
        return 0;
    }
    let version = side.peer.version();
    let count = match side.peer.waiting_frame(0) {
        Some(frame) => frame.encoded_len(version),
        None => return 0,
    };
    let _gone = side.peer.next_out();
    count
}

fn shown(count: usize) -> LcmuxAnswer
    ensures { result ≡ next_shown count }
{
    if count == 0 {
        return only(EMPTY);
    }
    LcmuxAnswer {
        code: DONE,
        number: count as u64,
    }
}

/// Lends the frame that goes out next, which stays; the number is how many bytes it has. Code 48 where
/// none waits or something is left of what was begun before it, with which nothing is lent, as with that
/// of a handle.
#[unsafe(no_mangle)]
pub extern "C" fn lcmux_peer_next(
    alloc: Global,
    peer: &mut LcmuxPeer,
    next: &mut LcmuxNext,
) -> LcmuxAnswer
    ensures answer { result ≡ next_answer peer.old.slot.held }
    ensures len { next.new.header_len + next.new.message.len ≡ result.number }
    ensures message { next.new.message.len ≡ length (body_of_next peer.old.slot.held) }
    ensures header { take next.new.header_len next.new.header ≡ take next.new.header_len (next_of peer.old.slot.held) }
    ensures same { peer.new.slot.held ≡ peer.old.slot.held }
{
    match open(peer, alloc) {
        None => {
            *next = LcmuxNext::none();
            only(NO_PEER)
        }
        Some(side) => {
            *next = lend(&side);
            let count = next_len(&side);
            *peer = LcmuxPeer::of(side);
            shown(count)
        }
    }
}

/// The frame that `lcmux_peer_next` lends went out, which is dropped; the answer is that of
/// `lcmux_peer_next`.
#[unsafe(no_mangle)]
pub extern "C" fn lcmux_peer_sent(alloc: Global, peer: &mut LcmuxPeer) -> LcmuxAnswer
    ensures answer { result ≡ next_answer peer.old.slot.held }
    ensures after { SentBehind peer.old.slot.held peer.new.slot.held }
{
    match open(peer, alloc) {
        None => only(NO_PEER),
        Some(mut side) => {
            let count = drop_next(&mut side);
            *peer = LcmuxPeer::of(side);
            shown(count)
        }
    }
}
