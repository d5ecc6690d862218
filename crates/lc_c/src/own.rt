//! The own calls of a peer, behind its handle.
ghost use Rattle.std.specs.Prelude.{◌≡◌, ℕ, Option, IfOk};
ghost use Rattle.std.specs.Result.{result_err};
ghost use Rattle.lc_frame.specs.declared.frame.Frame.TheVariants.{Send, Issue, Absolve, Plead, LimitSending, LimitReceiving, Finish};
ghost use Rattle.lc_frame.specs.Channel.{channel_at};
ghost use Rattle.lc_c.specs.Answers.{is_done};
ghost use Rattle.lc_c.specs.Calls.{frame_answer, frame_after, SendAnswers, honoured, honour_answer, honour_after};

use crate::answer::{DONE, LcmuxAnswer, answer, only, refused};
use crate::peer::LcmuxPeer;
use crate::reach::{Target, reach};
use lc_book::Refusal;
use std::alloc::Global;

/// A message is sent, of 1 to 65,535 bytes in version 1 and to 1,048,576 in version 2. Codes 15, 1,
/// 2, 3, 4, 14 and 13, in this order.
#[unsafe(no_mangle)]
pub extern "C" fn lcmux_peer_send(
    alloc: Global,
    peer: &mut LcmuxPeer,
    channel: u32,
    body: &[u8],
) -> LcmuxAnswer
    ensures answer { SendAnswers peer.old.slot.held (channel_at channel) body.now result }
    ensures after { peer.new.slot.held ≡ frame_after (is_done result) peer.old.slot.held (channel_at channel) (λ c. Send c body.now) }
{
    match reach(peer, alloc, channel) {
        Target::Barred(answer) => answer,
        Target::At(mut side, channel) => {
            let judged = side.peer.send(channel, body);
            *peer = LcmuxPeer::of(side);
            answer(judged)
        }
    }
}

/// `amount` guarantees are issued. Codes 15, 5, 9, 10, 12 and 13, in this order.
#[unsafe(no_mangle)]
pub extern "C" fn lcmux_peer_issue(
    alloc: Global,
    peer: &mut LcmuxPeer,
    channel: u32,
    amount: u32,
) -> LcmuxAnswer
    ensures answer { result ≡ frame_answer peer.old.slot.held (channel_at channel) (λ c. Issue c amount) }
    ensures after { peer.new.slot.held ≡ frame_after (is_done result) peer.old.slot.held (channel_at channel) (λ c. Issue c amount) }
{
    match reach(peer, alloc, channel) {
        Target::Barred(answer) => answer,
        Target::At(mut side, channel) => {
            let judged = side.peer.issue(channel, amount);
            *peer = LcmuxPeer::of(side);
            answer(judged)
        }
    }
}

/// `amount` guarantees are given up. Codes 15, 5, 6 and 13, in this order.
#[unsafe(no_mangle)]
pub extern "C" fn lcmux_peer_absolve(
    alloc: Global,
    peer: &mut LcmuxPeer,
    channel: u32,
    amount: u32,
) -> LcmuxAnswer
    ensures answer { result ≡ frame_answer peer.old.slot.held (channel_at channel) (λ c. Absolve c amount) }
    ensures after { peer.new.slot.held ≡ frame_after (is_done result) peer.old.slot.held (channel_at channel) (λ c. Absolve c amount) }
{
    match reach(peer, alloc, channel) {
        Target::Barred(answer) => answer,
        Target::At(mut side, channel) => {
            let judged = side.peer.absolve(channel, amount);
            *peer = LcmuxPeer::of(side);
            answer(judged)
        }
    }
}

/// The client is asked to absolve until it holds at most `target`. Codes 15, 11 and 13, in this order.
#[unsafe(no_mangle)]
pub extern "C" fn lcmux_peer_plead(
    alloc: Global,
    peer: &mut LcmuxPeer,
    channel: u32,
    target: u32,
) -> LcmuxAnswer
    ensures answer { result ≡ frame_answer peer.old.slot.held (channel_at channel) (λ c. Plead c target) }
    ensures after { peer.new.slot.held ≡ frame_after (is_done result) peer.old.slot.held (channel_at channel) (λ c. Plead c target) }
{
    match reach(peer, alloc, channel) {
        Target::Barred(answer) => answer,
        Target::At(mut side, channel) => {
            let judged = side.peer.plead(channel, target);
            *peer = LcmuxPeer::of(side);
            answer(judged)
        }
    }
}

/// At most `bound` bytes are sent from here on; 0 ends the channel. Codes 15, 7, 8 and 13, in this
/// order.
#[unsafe(no_mangle)]
pub extern "C" fn lcmux_peer_limit_sending(
    alloc: Global,
    peer: &mut LcmuxPeer,
    channel: u32,
    bound: u64,
) -> LcmuxAnswer
    ensures answer { result ≡ frame_answer peer.old.slot.held (channel_at channel) (λ c. LimitSending c bound) }
    ensures after { peer.new.slot.held ≡ frame_after (is_done result) peer.old.slot.held (channel_at channel) (λ c. LimitSending c bound) }
{
    match reach(peer, alloc, channel) {
        Target::Barred(answer) => answer,
        Target::At(mut side, channel) => {
            let judged = side.peer.limit_sending(channel, bound);
            *peer = LcmuxPeer::of(side);
            answer(judged)
        }
    }
}

/// At most `bound` guarantees are issued from here on. Codes 15, 7, 8 and 13, in this order.
#[unsafe(no_mangle)]
pub extern "C" fn lcmux_peer_limit_receiving(
    alloc: Global,
    peer: &mut LcmuxPeer,
    channel: u32,
    bound: u64,
) -> LcmuxAnswer
    ensures answer { result ≡ frame_answer peer.old.slot.held (channel_at channel) (λ c. LimitReceiving c bound) }
    ensures after { peer.new.slot.held ≡ frame_after (is_done result) peer.old.slot.held (channel_at channel) (λ c. LimitReceiving c bound) }
{
    match reach(peer, alloc, channel) {
        Target::Barred(answer) => answer,
        Target::At(mut side, channel) => {
            let judged = side.peer.limit_receiving(channel, bound);
            *peer = LcmuxPeer::of(side);
            answer(judged)
        }
    }
}

/// Nothing more is sent, and all guarantees that are held or still come are given up. Codes 17, 15 and
/// 13, in this order.
#[unsafe(no_mangle)]
pub extern "C" fn lcmux_peer_finish(
    alloc: Global,
    peer: &mut LcmuxPeer,
    channel: u32,
) -> LcmuxAnswer
    ensures answer { result ≡ frame_answer peer.old.slot.held (channel_at channel) (λ c. Finish c) }
    ensures after { peer.new.slot.held ≡ frame_after (is_done result) peer.old.slot.held (channel_at channel) (λ c. Finish c) }
{
    match reach(peer, alloc, channel) {
        Target::Barred(answer) => answer,
        Target::At(mut side, channel) => {
            let judged = side.peer.finish(channel);
            *peer = LcmuxPeer::of(side);
            answer(judged)
        }
    }
}

// What an honour answers.
pub(crate) fn honoured(judged: Result<Option<u32>, Refusal>) -> LcmuxAnswer
    ensures { (amount : Option ℕ) → IfOk judged (λ told. told ≡ amount) → result ≡ honoured (result_err judged) amount }
{
    match judged {
        Ok(Some(amount)) => LcmuxAnswer {
            code: DONE,
            number: u64::from(amount),
        },
        Ok(None) => only(DONE),
        Err(refusal) => refused(refusal),
    }
}

/// The plead that is kept is honoured. The number is what was absolved, 0 where there was nothing to
/// absolve. Codes 15 and 13, in this order.
#[unsafe(no_mangle)]
pub extern "C" fn lcmux_peer_honour(
    alloc: Global,
    peer: &mut LcmuxPeer,
    channel: u32,
) -> LcmuxAnswer
    ensures answer { result ≡ honour_answer peer.old.slot.held (channel_at channel) }
    ensures after { peer.new.slot.held ≡ honour_after peer.old.slot.held (channel_at channel) }
{
    match reach(peer, alloc, channel) {
        Target::Barred(answer) => answer,
        Target::At(mut side, channel) => {
            let judged = side.peer.honour(channel);
            *peer = LcmuxPeer::of(side);
            honoured(judged)
        }
    }
}
