//! The calls of senders, behind the handle of a session.
ghost use Rattle.std.specs.Prelude.{◌≡◌};
ghost use Rattle.lc_frame.specs.Channel.{channel_at};
ghost use Rattle.lc_lines.specs.declared.queue.Bound.TheVariants.{Limit, Finish};
ghost use Rattle.lc_c.specs.Reach.{Called};
ghost use Rattle.lc_c.specs.MuxCalls.{Sends, TriesSend, Offers, Completes, Reserves, TriesReserve, SendsReserved, Bounds, Cancels, GivesBack};

use super::reach::{LcmuxMux, reach};
use super::shown::{attempt_shown, call_shown, progress_shown};
use crate::answer::LcmuxAnswer;
use crate::asking::told;
use crate::balances::flag;
use crate::reach::Target;
use lc_lines::Bound;
use std::alloc::Global;

/// A call to send a message, by a ticket of the caller's choice. Its message enters the outbound queue at once where
/// that is possible; else code 51: the call waits with a copy of the message, and its ticket is noticed once the
/// message entered. Codes 15, 1, 2, 3 and 14, in this order, behind those of the session's end.
#[unsafe(no_mangle)]
#[tactic(auto, using(crate::proofs::Called::called_barred))]
pub extern "C" fn lcmux_mux_send(
    alloc: Global,
    mux: &mut LcmuxMux,
    channel: u32,
    ticket: u64,
    body: &[u8],
) -> LcmuxAnswer
    ensures { Called mux.old.slot.held (channel_at channel) (Sends ticket body.now) mux.new.slot.held result }
{
    match reach(mux, alloc, channel) {
        Target::Barred(answer) => answer,
        Target::At(mut session, channel) => {
            let said = session.mux.send(channel, ticket, body);
            *mux = LcmuxMux::of(session);
            progress_shown(said)
        }
    }
}

/// An attempt to send a message at once, behind all calls of its channel that wait. Codes 4, whose number is how many
/// guarantees are missing, 13, where it lacks a slot, bytes or its turn, and 50: what it lacks, and nothing changed.
/// Before them 15, 1, 2, 3 and 14, behind those of the session's end.
#[unsafe(no_mangle)]
#[tactic(auto, using(crate::proofs::Called::called_barred))]
pub extern "C" fn lcmux_mux_try_send(
    alloc: Global,
    mux: &mut LcmuxMux,
    channel: u32,
    body: &[u8],
) -> LcmuxAnswer
    ensures { Called mux.old.slot.held (channel_at channel) (TriesSend body.now) mux.new.slot.held result }
{
    match reach(mux, alloc, channel) {
        Target::Barred(answer) => answer,
        Target::At(mut session, channel) => {
            let said = session.mux.try_send(channel, body);
            *mux = LcmuxMux::of(session);
            attempt_shown(said)
        }
    }
}

/// An offer of a message of so many bytes: the call waits, and its ticket is noticed once the message can be sent. Then
/// it is handed over by `lcmux_mux_complete`, or the offer is given up by `lcmux_mux_cancel`. Codes 15, 1, 2, 3 and 14,
/// in this order, behind those of the session's end.
#[unsafe(no_mangle)]
#[tactic(auto, using(crate::proofs::Called::called_barred))]
pub extern "C" fn lcmux_mux_offer(
    alloc: Global,
    mux: &mut LcmuxMux,
    channel: u32,
    ticket: u64,
    len: usize,
) -> LcmuxAnswer
    ensures { Called mux.old.slot.held (channel_at channel) (Offers ticket len) mux.new.slot.held result }
{
    match reach(mux, alloc, channel) {
        Target::Barred(answer) => answer,
        Target::At(mut session, channel) => {
            let said = session.mux.offer(channel, ticket, len);
            *mux = LcmuxMux::of(session);
            call_shown(said)
        }
    }
}

/// The message of an offer is handed over. Code 51, where the offer is not the first call of its channel or can not
/// proceed now: it waits at its place, and its ticket is noticed anew. Codes 15, 1, 2, 3 and 14, in this order, behind
/// those of the session's end.
#[unsafe(no_mangle)]
#[tactic(auto, using(crate::proofs::Called::called_barred))]
pub extern "C" fn lcmux_mux_complete(
    alloc: Global,
    mux: &mut LcmuxMux,
    channel: u32,
    ticket: u64,
    body: &[u8],
) -> LcmuxAnswer
    ensures { Called mux.old.slot.held (channel_at channel) (Completes ticket body.now) mux.new.slot.held result }
{
    match reach(mux, alloc, channel) {
        Target::Barred(answer) => answer,
        Target::At(mut session, channel) => {
            let said = session.mux.complete(channel, ticket, body);
            *mux = LcmuxMux::of(session);
            progress_shown(said)
        }
    }
}

/// A call to reserve a permit for a message of so many bytes. Code 51, where it waits: its ticket is noticed once the
/// permit is granted. Codes 15, 1, 2, 3 and 14, in this order, behind those of the session's end.
#[unsafe(no_mangle)]
#[tactic(auto, using(crate::proofs::Called::called_barred))]
pub extern "C" fn lcmux_mux_reserve(
    alloc: Global,
    mux: &mut LcmuxMux,
    channel: u32,
    ticket: u64,
    len: usize,
) -> LcmuxAnswer
    ensures { Called mux.old.slot.held (channel_at channel) (Reserves ticket len) mux.new.slot.held result }
{
    match reach(mux, alloc, channel) {
        Target::Barred(answer) => answer,
        Target::At(mut session, channel) => {
            let said = session.mux.reserve(channel, ticket, len);
            *mux = LcmuxMux::of(session);
            progress_shown(said)
        }
    }
}

/// An attempt to reserve a permit at once. What it lacks is answered as by `lcmux_mux_try_send`. Codes 15, 1, 2 and 3,
/// in this order, behind those of the session's end.
#[unsafe(no_mangle)]
#[tactic(auto, using(crate::proofs::Called::called_barred))]
pub extern "C" fn lcmux_mux_try_reserve(
    alloc: Global,
    mux: &mut LcmuxMux,
    channel: u32,
    len: usize,
) -> LcmuxAnswer
    ensures { Called mux.old.slot.held (channel_at channel) (TriesReserve len) mux.new.slot.held result }
{
    match reach(mux, alloc, channel) {
        Target::Barred(answer) => answer,
        Target::At(mut session, channel) => {
            let said = session.mux.try_reserve(channel, len);
            *mux = LcmuxMux::of(session);
            attempt_shown(said)
        }
    }
}

/// A message is sent by a permit of so many bytes, which is used up. Codes 15, 1, 2 and 3, 4, where the message is longer
/// than the permit or no such permit is out, and 14, behind those of the session's end; the permit is out still.
#[unsafe(no_mangle)]
#[tactic(auto, using(crate::proofs::Called::called_barred))]
pub extern "C" fn lcmux_mux_send_reserved(
    alloc: Global,
    mux: &mut LcmuxMux,
    channel: u32,
    len: usize,
    body: &[u8],
) -> LcmuxAnswer
    ensures { Called mux.old.slot.held (channel_at channel) (SendsReserved len body.now) mux.new.slot.held result }
{
    match reach(mux, alloc, channel) {
        Target::Barred(answer) => answer,
        Target::At(mut session, channel) => {
            let said = session.mux.send_reserved(channel, len, body);
            *mux = LcmuxMux::of(session);
            call_shown(said)
        }
    }
}

/// At most `bound` bytes are sent on a channel behind the calls that wait there and the permits that are out. Code 51,
/// where there are any: the ticket is noticed once the limit entered the outbound queue. Codes 15, 7, 8 and 14, in this
/// order, behind those of the session's end.
#[unsafe(no_mangle)]
#[tactic(auto, using(crate::proofs::Called::called_barred))]
pub extern "C" fn lcmux_mux_limit_sending(
    alloc: Global,
    mux: &mut LcmuxMux,
    channel: u32,
    ticket: u64,
    bound: u64,
) -> LcmuxAnswer
    ensures { Called mux.old.slot.held (channel_at channel) (Bounds ticket (Limit bound)) mux.new.slot.held result }
{
    match reach(mux, alloc, channel) {
        Target::Barred(answer) => answer,
        Target::At(mut session, channel) => {
            let said = session.mux.bound(channel, ticket, Bound::Limit(bound));
            *mux = LcmuxMux::of(session);
            progress_shown(said)
        }
    }
}

/// Nothing more is sent on a channel behind the calls that wait there and the permits that are out. Code 51, where there
/// are any: the ticket is noticed once the end entered the outbound queue. Codes 15 and 14, in this order, behind those
/// of the session's end.
#[unsafe(no_mangle)]
#[tactic(auto, using(crate::proofs::Called::called_barred))]
pub extern "C" fn lcmux_mux_finish(
    alloc: Global,
    mux: &mut LcmuxMux,
    channel: u32,
    ticket: u64,
) -> LcmuxAnswer
    ensures { Called mux.old.slot.held (channel_at channel) (Bounds ticket Finish) mux.new.slot.held result }
{
    match reach(mux, alloc, channel) {
        Target::Barred(answer) => answer,
        Target::At(mut session, channel) => {
            let said = session.mux.bound(channel, ticket, Bound::Finish);
            *mux = LcmuxMux::of(session);
            progress_shown(said)
        }
    }
}

/// The first waiting call of a ticket is given up. The number is 1 where there was one, else 0.
#[unsafe(no_mangle)]
#[tactic(auto, using(crate::proofs::Called::called_barred))]
pub extern "C" fn lcmux_mux_cancel(
    alloc: Global,
    mux: &mut LcmuxMux,
    channel: u32,
    ticket: u64,
) -> LcmuxAnswer
    ensures { Called mux.old.slot.held (channel_at channel) (Cancels ticket) mux.new.slot.held result }
{
    match reach(mux, alloc, channel) {
        Target::Barred(answer) => answer,
        Target::At(mut session, channel) => {
            let said = session.mux.cancel(channel, ticket);
            *mux = LcmuxMux::of(session);
            told(flag(said))
        }
    }
}

/// A permit of so many bytes is given back. The number is 1 where such a permit was out, else 0.
#[unsafe(no_mangle)]
#[tactic(auto, using(crate::proofs::Called::called_barred))]
pub extern "C" fn lcmux_mux_give_back(
    alloc: Global,
    mux: &mut LcmuxMux,
    channel: u32,
    len: usize,
) -> LcmuxAnswer
    ensures { Called mux.old.slot.held (channel_at channel) (GivesBack len) mux.new.slot.held result }
{
    match reach(mux, alloc, channel) {
        Target::Barred(answer) => answer,
        Target::At(mut session, channel) => {
            let said = session.mux.give_back(channel, len);
            *mux = LcmuxMux::of(session);
            told(flag(said))
        }
    }
}
