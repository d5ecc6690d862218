//! How a session ends, behind its handle.
ghost use Rattle.std.specs.Prelude.{◌≡◌};
ghost use Rattle.std.specs.Option.{option_map};
ghost use Rattle.lc_mux.specs.declared.end.End.TheVariants.{Aborted, Transport};
ghost use Rattle.lc_mux.specs.Ends.{over, close, end_by, end_input, is_done_writing};
ghost use Rattle.lc_c.specs.Answers.{only, done};
ghost use Rattle.lc_c.specs.Asking.{told};
ghost use Rattle.lc_c.specs.Balances.{flag};
ghost use Rattle.lc_c.specs.Reach.{answered_alone};
ghost use Rattle.lc_c.specs.MuxAnswers.{over_code};
ghost use Rattle.lc_c.specs.MuxEnds.{with_mux};

use super::reach::{LcmuxMux, open};
use super::shown::over_code;
use crate::answer::{DONE, LcmuxAnswer, NO_PEER, only};
use crate::asking::told;
use crate::balances::flag;
use std::alloc::Global;

/// The session is closed, unless it is over: no message is accepted from then on, and the calls that wait and the
/// permits are given up, without notices. What entered the outbound queue is written, and each channel is finished.
#[unsafe(no_mangle)]
pub extern "C" fn lcmux_mux_close(alloc: Global, mux: &mut LcmuxMux) -> LcmuxAnswer
    ensures answer { result ≡ answered_alone mux.old.slot.held (λ session. only done) }
    ensures after { mux.new.slot.held ≡ option_map (with_mux close) mux.old.slot.held }
{
    match open(mux, alloc) {
        None => only(NO_PEER),
        Some(mut session) => {
            session.mux.close();
            *mux = LcmuxMux::of(session);
            only(DONE)
        }
    }
}

/// The session is aborted, unless it is over: nothing is written from then on, and nothing can be taken.
#[unsafe(no_mangle)]
pub extern "C" fn lcmux_mux_abort(alloc: Global, mux: &mut LcmuxMux) -> LcmuxAnswer
    ensures answer { result ≡ answered_alone mux.old.slot.held (λ session. only done) }
    ensures after { mux.new.slot.held ≡ option_map (with_mux (end_by Aborted)) mux.old.slot.held }
{
    match open(mux, alloc) {
        None => only(NO_PEER),
        Some(mut session) => {
            session.mux.abort();
            *mux = LcmuxMux::of(session);
            only(DONE)
        }
    }
}

/// The transport failed, so the session is over, unless it was.
#[unsafe(no_mangle)]
pub extern "C" fn lcmux_mux_fail(alloc: Global, mux: &mut LcmuxMux) -> LcmuxAnswer
    ensures answer { result ≡ answered_alone mux.old.slot.held (λ session. only done) }
    ensures after { mux.new.slot.held ≡ option_map (with_mux (end_by Transport)) mux.old.slot.held }
{
    match open(mux, alloc) {
        None => only(NO_PEER),
        Some(mut session) => {
            session.mux.fail();
            *mux = LcmuxMux::of(session);
            only(DONE)
        }
    }
}

/// The inbound stream ended: in order, where it ended between two frames and the peer has finished all channels; else
/// the session is cut.
#[unsafe(no_mangle)]
pub extern "C" fn lcmux_mux_end_input(alloc: Global, mux: &mut LcmuxMux) -> LcmuxAnswer
    ensures answer { result ≡ answered_alone mux.old.slot.held (λ session. only done) }
    ensures after { mux.new.slot.held ≡ option_map (with_mux end_input) mux.old.slot.held }
{
    match open(mux, alloc) {
        None => only(NO_PEER),
        Some(mut session) => {
            session.mux.end_input();
            *mux = LcmuxMux::of(session);
            only(DONE)
        }
    }
}

/// Why the session is over: the code of its end, and 0 where it is not.
#[unsafe(no_mangle)]
pub extern "C" fn lcmux_mux_over(alloc: Global, mux: &mut LcmuxMux) -> LcmuxAnswer
    ensures answer { result ≡ answered_alone mux.old.slot.held (λ session. only (over_code (over session.mux))) }
    ensures same { mux.new.slot.held ≡ mux.old.slot.held }
{
    match open(mux, alloc) {
        None => only(NO_PEER),
        Some(session) => {
            let end = session.mux.over();
            *mux = LcmuxMux::of(session);
            only(over_code(end))
        }
    }
}

/// The number is 1 where the outbound stream ends here, else 0: this side closed the session, has finished all channels,
/// and has written all bytes.
#[unsafe(no_mangle)]
pub extern "C" fn lcmux_mux_is_done_writing(alloc: Global, mux: &mut LcmuxMux) -> LcmuxAnswer
    ensures answer { result ≡ answered_alone mux.old.slot.held (λ session. told (flag (is_done_writing session.mux))) }
    ensures same { mux.new.slot.held ≡ mux.old.slot.held }
{
    match open(mux, alloc) {
        None => only(NO_PEER),
        Some(session) => {
            let is_done = session.mux.is_done_writing();
            *mux = LcmuxMux::of(session);
            told(flag(is_done))
        }
    }
}
