//! Making a session behind a handle, and freeing it.
ghost use Rattle.std.specs.Prelude.{◌≡◌, None, IfOk, is_some, if◌then◌else◌};
ghost use Rattle.std.specs.Result.{result_err};
ghost use Rattle.lc_lines.specs.Scheduler.{IsSchedulerAnswer, scheduler_fault};
ghost use Rattle.lc_c.specs.Answers.{only, done, no_peer, is_done};
ghost use Rattle.lc_c.specs.Make.{MakeAnswers, made};
ghost use Rattle.lc_c.specs.MuxMake.{new_c_mux};

use super::reach::{LcmuxMux, open};
use super::session::CMux;
use crate::answer::{BAD_VERSION, DONE, HAS_PEER, LcmuxAnswer, NO_PEER, only};
use crate::make::{LcmuxConfig, config_of, fault_answer};
use lc_mux::Mux;
use lc_peer::{Config, PeerFault};
use std::alloc::Global;

// A session on which nothing has happened.
fn new_c_mux(alloc: Global, config: Config) -> Result<Box<CMux>, PeerFault>
    ensures answer { IsSchedulerAnswer config (result_err result) }
    ensures value { IfOk result (λ session. session.value ≡ new_c_mux config) }
{
    let mux = Mux::new(alloc, config)?;
    match Box::new(alloc, CMux { mux, taken: 0 }) {
        Ok(session) => Ok(session),
        Err(_) => Err(PeerFault::OutOfMemory),
    }
}

/// Makes a session on which nothing has happened behind an empty handle. It issues all room at once and
/// honours each plead at once, unless other policies are set before the first call that changes it. Codes 33,
/// 35, 37, where there are fewer than 14 slots, and then those of `lcmux_peer_new`; the handle is then as it
/// was.
#[unsafe(no_mangle)]
pub extern "C" fn lcmux_mux_new(
    alloc: Global,
    config: &LcmuxConfig,
    mux: &mut LcmuxMux,
) -> LcmuxAnswer
    ensures answer { MakeAnswers scheduler_fault mux.old.slot.held config.now result }
    ensures after { mux.new.slot.held ≡ made new_c_mux (is_done result) mux.old.slot.held config.now }
{
    match open(mux, alloc) {
        Some(session) => {
            *mux = LcmuxMux::of(session);
            return only(HAS_PEER);
        }
        None => {}
    }
    let bounds = match config_of(config) {
        Some(bounds) => bounds,
        None => return only(BAD_VERSION),
    };
    match new_c_mux(alloc, bounds) {
        Ok(session) => {
            *mux = LcmuxMux::of(session);
            only(DONE)
        }
        Err(fault) => fault_answer(fault),
    }
}

/// Takes the session out of the handle, which stays empty, and drops it. Code 32, where it was empty.
#[unsafe(no_mangle)]
pub extern "C" fn lcmux_mux_free(alloc: Global, mux: &mut LcmuxMux) -> LcmuxAnswer
    ensures answer { result ≡ only (if is_some mux.old.slot.held then done else no_peer) }
    ensures empty { mux.new.slot.held ≡ None }
{
    match open(mux, alloc) {
        Some(_session) => only(DONE),
        None => only(NO_PEER),
    }
}
