//! What the calls of a session answer, as C reads it.
ghost use Rattle.std.specs.Prelude.{◌≡◌};
ghost use Rattle.std.specs.Result.{result_err};
ghost use Rattle.lc_c.specs.MuxAnswers.{end_code, over_code, error_shown, call_shown, progress_shown, attempt_shown, taken_shown, popped_shown, delivery_shown};

use crate::answer::{
    ABORTED, CLOSED_HERE, CLOSED_THERE, CUT, DONE, LcmuxAnswer, TRANSPORT_FAILED, WAITS, only,
    refused,
};
use crate::asking::needs_shown;
use crate::take;
use crate::wire::{self, LcmuxDelivery};
use lc_lines::{Attempt, Progress};
use lc_mux::{CallError, End};
use lc_peer::{Delivery, Take};

/// The code of an end.
pub(crate) fn end_code(end: End) -> u32
    ensures { result ≡ end_code end }
{
    match end {
        End::Local => CLOSED_HERE,
        End::Remote => CLOSED_THERE,
        End::Cut => CUT,
        End::Aborted => ABORTED,
        End::Transport => TRANSPORT_FAILED,
        End::Violated(violation) => 100 + u32::from(violation.number()),
        End::Fault(fault) => 200 + u32::from(fault.number()),
    }
}

/// The code of the end of a session, and 0 where it goes on.
pub(crate) fn over_code(end: Option<End>) -> u32
    ensures { result ≡ over_code end }
{
    match end {
        None => DONE,
        Some(end) => end_code(end),
    }
}

fn error_shown(error: CallError) -> LcmuxAnswer
    ensures { result ≡ error_shown error }
{
    match error {
        CallError::Refused(refusal) => refused(refusal),
        CallError::Over(end) => only(end_code(end)),
    }
}

/// The answer of a call that is made or not.
pub(crate) fn call_shown(said: Result<(), CallError>) -> LcmuxAnswer
    ensures { result ≡ call_shown (result_err said) }
{
    match said {
        Ok(()) => only(DONE),
        Err(error) => error_shown(error),
    }
}

/// The answer of a call that proceeds or waits.
pub(crate) fn progress_shown(said: Result<Progress, CallError>) -> LcmuxAnswer
    ensures { result ≡ progress_shown said }
{
    match said {
        Ok(Progress::Proceeded) => only(DONE),
        Ok(Progress::Waits) => only(WAITS),
        Err(error) => error_shown(error),
    }
}

/// The answer of an attempt.
pub(crate) fn attempt_shown(said: Result<Attempt, CallError>) -> LcmuxAnswer
    ensures { result ≡ attempt_shown said }
{
    match said {
        Ok(Attempt::Succeeded) => only(DONE),
        Ok(Attempt::Lacks(lacks)) => needs_shown(lacks),
        Err(error) => error_shown(error),
    }
}

/// The answer of a take.
pub(crate) fn taken_shown(said: Result<Take, CallError>) -> LcmuxAnswer
    ensures { result ≡ taken_shown said }
{
    match said {
        Ok(take) => take::shown(take),
        Err(error) => error_shown(error),
    }
}

/// The answer of a pop.
pub(crate) fn popped_shown(said: Result<Take, End>) -> LcmuxAnswer
    ensures { result ≡ popped_shown said }
{
    match said {
        Ok(take) => take::shown(take),
        Err(end) => only(end_code(end)),
    }
}

/// The answer of a delivery.
pub(crate) fn delivery_shown(said: Result<Delivery, End>) -> LcmuxDelivery
    ensures { result ≡ delivery_shown said }
{
    match said {
        Ok(delivery) => wire::shown(delivery),
        Err(end) => LcmuxDelivery {
            code: end_code(end),
            taken: 0,
            frames: 0,
        },
    }
}
