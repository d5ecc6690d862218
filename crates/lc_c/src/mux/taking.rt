//! Messages out of a session, and its notices, behind its handle.
ghost use Rattle.std.specs.Prelude.{◌≡◌, ◌+◌, ◌<◌, None};
ghost use Rattle.lc_frame.specs.Channel.{channel_at};
ghost use Rattle.lc_c.specs.Answers.{only, no_peer};
ghost use Rattle.lc_c.specs.Reach.{answered, Called, CalledAlone, IsBarred};
ghost use Rattle.lc_c.specs.MuxAnswers.{popped_shown};
ghost use Rattle.lc_c.specs.MuxTakes.{Takes, Pops, front_answer, outcome_code, notice_shown, NoticesNext};

use super::reach::{LcmuxMux, open, reach};
use super::session::CMux;
use super::shown::{end_code, popped_shown, taken_shown};
use crate::answer::{DONE, LcmuxAnswer, NEVER, NO_NOTICE, NO_PEER, NOTIFIED, only, sized};
use crate::lend::LcmuxFront;
use crate::reach::Target;
use crate::{lend, take};
use lc_frame::Channel;
use lc_lines::{Notice, Outcome};
use lc_mux::Mux;
use std::alloc::Global;

/// The size of [`LcmuxNotice`].
const NOTICE_SIZE: u64 = 32;

/// What became of a call that waited.
#[repr(C)]
#[derive(Clone, Copy)]
pub struct LcmuxNotice {
    /// The bytes of the caller's struct, which may be of a later version.
    pub size: u64,
    pub ticket: u64,
    pub channel: u64,
    /// 0, where it was completed; 53, where its message can be sent; 50, where it will never proceed.
    pub outcome: u64,
}

/// The first message of a channel goes to the front of `buffer`, and the number is its length. Codes 67, where this side
/// aborted the session, 16, where the buffer is shorter than the number, 48 and 49.
#[unsafe(no_mangle)]
#[tactic(auto, using(crate::proofs::Called::called_barred))]
pub extern "C" fn lcmux_mux_take(
    alloc: Global,
    mux: &mut LcmuxMux,
    channel: u32,
    buffer: &mut [u8],
) -> LcmuxAnswer
    ensures takes { Called mux.old.slot.held (channel_at channel) (Takes buffer.old buffer.new) mux.new.slot.held result }
    ensures barred { IsBarred mux.old.slot.held (channel_at channel) → buffer.new ≡ buffer.old }
{
    match reach(mux, alloc, channel) {
        Target::Barred(answer) => answer,
        Target::At(mut session, channel) => {
            let said = session.mux.take_into(channel, buffer);
            *mux = LcmuxMux::of(session);
            taken_shown(said)
        }
    }
}

/// The first message of a channel is dropped, and the number is its length. Codes 67, where this side aborted the
/// session, 48 and 49.
#[unsafe(no_mangle)]
#[tactic(auto, using(crate::proofs::Called::called_barred))]
pub extern "C" fn lcmux_mux_pop(alloc: Global, mux: &mut LcmuxMux, channel: u32) -> LcmuxAnswer
    ensures { Called mux.old.slot.held (channel_at channel) Pops mux.new.slot.held result }
{
    match reach(mux, alloc, channel) {
        Target::Barred(answer) => answer,
        Target::At(mut session, channel) => {
            let said = session.mux.pop(channel);
            *mux = LcmuxMux::of(session);
            popped_shown(said)
        }
    }
}

// What a take would answer that has room.
fn front(mux: &Mux, channel: Channel) -> LcmuxAnswer
    ensures { result ≡ front_answer mux.now channel }
{
    match mux.front(channel) {
        Ok(_) => take::front(mux.peer(), channel),
        Err(end) => only(end_code(end)),
    }
}

/// The number is the length of the first message of a channel, which stays. Codes 67, where this side aborted the
/// session, 48 and 49.
#[unsafe(no_mangle)]
pub extern "C" fn lcmux_mux_front_len(
    alloc: Global,
    mux: &mut LcmuxMux,
    channel: u32,
) -> LcmuxAnswer
    ensures answer { result ≡ answered mux.old.slot.held (channel_at channel) (λ session c. front_answer session.mux c) }
    ensures same { mux.new.slot.held ≡ mux.old.slot.held }
{
    match reach(mux, alloc, channel) {
        Target::Barred(answer) => answer,
        Target::At(session, channel) => {
            let answer = front(&session.mux, channel);
            *mux = LcmuxMux::of(session);
            answer
        }
    }
}

// The first message of a channel where it lies, and no byte where none can be taken.
fn lend(mux: &Mux, channel: Channel) -> LcmuxFront
    ensures message { result.first.len + result.rest.len ≡ (front_answer mux.now channel).number }
    ensures first { 0 < result.rest.len → 0 < result.first.len }
{
    match mux.front(channel) {
        Ok(_) => lend::lend(mux.peer(), channel),
        Err(_) => LcmuxFront::of(&[], &[]),
    }
}

/// The first message of a channel, which stays, is lent where it lies, and the number is its length. Codes 67, where
/// this side aborted the session, 48 and 49, with which both pieces are empty, as with those of a handle and a channel.
#[unsafe(no_mangle)]
pub extern "C" fn lcmux_mux_front(
    alloc: Global,
    mux: &mut LcmuxMux,
    channel: u32,
    message: &mut LcmuxFront,
) -> LcmuxAnswer
    ensures answer { result ≡ answered mux.old.slot.held (channel_at channel) (λ session c. front_answer session.mux c) }
    ensures message { message.new.first.len + message.new.rest.len ≡ result.number }
    ensures first { 0 < result.number → 0 < message.new.first.len }
    ensures same { mux.new.slot.held ≡ mux.old.slot.held }
{
    match reach(mux, alloc, channel) {
        Target::Barred(answer) => {
            *message = LcmuxFront::of(&[], &[]);
            answer
        }
        Target::At(session, channel) => {
            let answer = front(&session.mux, channel);
            *message = lend(&session.mux, channel);
            *mux = LcmuxMux::of(session);
            answer
        }
    }
}

fn outcome_code(outcome: Outcome) -> u32
    ensures { result ≡ outcome_code outcome }
{
    match outcome {
        Outcome::Completed => DONE,
        Outcome::Notified => NOTIFIED,
        Outcome::Hopeless => NEVER,
    }
}

fn notice_shown(size: u64, notice: Notice) -> LcmuxNotice
    ensures { result ≡ notice_shown size notice }
{
    LcmuxNotice {
        size,
        ticket: notice.ticket,
        channel: u64::from(notice.channel.number()),
        outcome: u64::from(outcome_code(notice.outcome)),
    }
}

// The next notice, where the struct has room for it.
fn next_notice(session: &mut CMux, notice: &mut LcmuxNotice) -> LcmuxAnswer
    ensures { NoticesNext notice.old notice.new session.old session.new result }
{
    if notice.size < NOTICE_SIZE {
        return sized(notice.size, NOTICE_SIZE);
    }
    match session.mux.next_notice() {
        Some(next) => {
            *notice = notice_shown(notice.size, next);
            only(DONE)
        }
        None => only(NO_NOTICE),
    }
}

/// The next notice: what became of a call that waited. Code 39, where the struct is too short, and 52, where no notice is
/// there; the struct then stays as it was.
#[unsafe(no_mangle)]
pub extern "C" fn lcmux_mux_next_notice(
    alloc: Global,
    mux: &mut LcmuxMux,
    notice: &mut LcmuxNotice,
) -> LcmuxAnswer
    ensures next { CalledAlone (only no_peer) mux.old.slot.held (NoticesNext notice.old notice.new) mux.new.slot.held result }
    ensures nowhere { mux.old.slot.held ≡ None → notice.new ≡ notice.old }
{
    match open(mux, alloc) {
        None => only(NO_PEER),
        Some(mut session) => {
            let answer = next_notice(&mut session, notice);
            *mux = LcmuxMux::of(session);
            answer
        }
    }
}
