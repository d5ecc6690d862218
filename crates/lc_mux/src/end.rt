//! Why a session is over, and why a call is not made.
ghost use Rattle.std.specs.Prelude.{◌≡◌};
ghost use Rattle.lc_mux.specs.Ends.{end_of_stop};

use lc_book::{Refusal, Violation};
use lc_frame::FrameFault;
use lc_peer::Stop;

/// Why a session is over, or takes some calls no more.
#[derive(Clone, Copy)]
pub enum End {
    /// This side closed the session.
    Local,
    /// The peer closed the session: it finished all its channels, and ended its stream between two frames.
    Remote,
    /// The peer's stream ended while channels of the peer were unfinished, or within a frame.
    Cut,
    /// This side aborted the session.
    Aborted,
    /// A read or a write of the transport failed, as the driver of the session said.
    Transport,
    /// A frame of the peer broke a rule.
    Violated(Violation),
    /// The peer's stream broke the framing.
    Fault(FrameFault),
}

/// Why a call is not made. Nothing changed.
#[derive(Clone, Copy)]
pub enum CallError {
    /// The call is refused.
    Refused(Refusal),
    /// The session takes no such call any more.
    Over(End),
}

impl From<Refusal> for CallError {
    ghost use Rattle.std.specs.Prelude.{◌≡◌};
    ghost use Rattle.lc_mux.specs.declared.end.CallError.TheVariants.{Refused};

    ghost from_gives = { λ refusal error. error ≡ Refused refusal };

    fn from(refusal: Refusal) -> CallError {
        CallError::Refused(refusal)
    }
}

impl From<End> for CallError {
    ghost use Rattle.std.specs.Prelude.{◌≡◌};
    ghost use Rattle.lc_mux.specs.declared.end.CallError.TheVariants.{Over};

    ghost from_gives = { λ end error. error ≡ Over end };

    fn from(end: End) -> CallError {
        CallError::Over(end)
    }
}

// The end of a session whose inbound stream was given up.
pub(crate) fn end_of_stop(stop: Option<Stop>) -> Option<End>
    ensures { result ≡ end_of_stop stop }
{
    match stop {
        None => None,
        Some(Stop::Violated(violation)) => Some(End::Violated(violation)),
        Some(Stop::Fault(fault)) => Some(End::Fault(fault)),
    }
}
