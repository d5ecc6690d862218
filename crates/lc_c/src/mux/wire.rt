//! The streams of a session, behind its handle.
ghost use Rattle.std.specs.Prelude.{◌≡◌, None, IfOk, OnErr};
ghost use Rattle.std.specs.Result.{result_err};
ghost use Rattle.lc_mux.specs.Ends.{input_over, end_of_stop};
ghost use Rattle.lc_mux.specs.Flushing.{DeliversAndFlushes};
ghost use Rattle.lc_c.specs.Answers.{only, no_peer};
ghost use Rattle.lc_c.specs.Errors.{MuxErrorBehind};
ghost use Rattle.lc_c.specs.Streams.{count_on};
ghost use Rattle.lc_c.specs.Reach.{CalledAlone};
ghost use Rattle.lc_c.specs.MuxStreams.{DeliversTo, Writes, nowhere};

use super::reach::{LcmuxMux, open};
use super::session::CMux;
use super::shown::delivery_shown;
use crate::answer::{LcmuxAnswer, NO_PEER, only, sized};
use crate::asking::told;
use crate::error::{ERROR_SIZE, LcmuxError, error_shown};
use crate::wire::LcmuxDelivery;
use lc_mux::End;
use lc_peer::Delivery;
use std::alloc::Global;

// A piece of the stream is delivered, unless none is taken any more.
fn deliver(session: &mut CMux, piece: &[u8]) -> Result<Delivery, End>
    ensures over { result_err result ≡ input_over session.old.mux }
    ensures refused { OnErr result (session.new ≡ session.old) }
    ensures delivers { IfOk result (λ d. DeliversAndFlushes piece.now d session.old.mux session.new.mux) }
    ensures stop { IfOk result (λ d. session.new.mux.intake.stop ≡ d.stop) }
    ensures end { IfOk result (λ d. session.new.mux.end ≡ end_of_stop d.stop) }
    ensures taken { IfOk result (λ d. session.new.taken ≡ count_on d.taken session.old.taken) }
    ensures rest { session.new.mux ≡ record session.old.mux { lines = session.new.mux.lines; owed = session.new.mux.owed; intake = session.new.mux.intake; end = session.new.mux.end } }
{
    let delivery = session.mux.deliver(piece)?;
    session.taken = session.taken.saturating_add(delivery.taken as u64);
    Ok(delivery)
}

/// The next bytes of the stream, of either version, arrive, and then each call proceeds that can. Codes 101 to 109 for a
/// violation, 201 to 203 for a fault, which end the session. Where the session is over no byte is taken, and the code is
/// that of its end; and 65, where the peer ended its stream in order.
#[unsafe(no_mangle)]
pub extern "C" fn lcmux_mux_deliver(
    alloc: Global,
    mux: &mut LcmuxMux,
    piece: &[u8],
) -> LcmuxDelivery
    ensures { CalledAlone nowhere mux.old.slot.held (DeliversTo piece.now) mux.new.slot.held result }
{
    match open(mux, alloc) {
        None => LcmuxDelivery {
            code: NO_PEER,
            taken: 0,
            frames: 0,
        },
        Some(mut session) => {
            let said = deliver(&mut session, piece);
            *mux = LcmuxMux::of(session);
            delivery_shown(said)
        }
    }
}

/// Control frames that are due are put, and the next bytes that go out are written to the front of `buffer`, as many as
/// there are and have room; the number is how many. Behind each frame that leaves the outbound queue each call proceeds
/// that can. Where the session is over nothing is written.
#[unsafe(no_mangle)]
pub extern "C" fn lcmux_mux_write(
    alloc: Global,
    mux: &mut LcmuxMux,
    buffer: &mut [u8],
) -> LcmuxAnswer
    ensures writes { CalledAlone (only no_peer) mux.old.slot.held (Writes buffer.old buffer.new) mux.new.slot.held result }
    ensures nowhere { mux.old.slot.held ≡ None → buffer.new ≡ buffer.old }
{
    match open(mux, alloc) {
        None => only(NO_PEER),
        Some(mut session) => {
            let count = session.mux.write(buffer);
            *mux = LcmuxMux::of(session);
            told(count as u64)
        }
    }
}

/// Why the inbound stream was given up, and where, as `lcmux_peer_error`. Code 39, where the struct is too short, and stays
/// as it was.
#[unsafe(no_mangle)]
pub extern "C" fn lcmux_mux_error(
    alloc: Global,
    mux: &mut LcmuxMux,
    error: &mut LcmuxError,
) -> LcmuxAnswer
    ensures error { MuxErrorBehind mux.old.slot.held error.old error.new result }
    ensures same { mux.new.slot.held ≡ mux.old.slot.held }
{
    match open(mux, alloc) {
        None => only(NO_PEER),
        Some(session) => {
            let answer = sized(error.size, ERROR_SIZE);
            if error.size >= ERROR_SIZE {
                let (peer, intake) = (session.mux.peer(), session.mux.intake());
                *error = error_shown(error.size, peer, intake, session.taken);
            }
            *mux = LcmuxMux::of(session);
            answer
        }
    }
}
