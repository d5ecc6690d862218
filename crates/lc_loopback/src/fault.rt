//! Which faults end a run, and which comes first.
use crate::worker::Outcome;
use lc_book::Refusal;
use lc_loopback_report::LoopFault;

/// Whether the call may be made again once something came; else the fault that its refusal is.
pub(crate) fn judge(refusal: Refusal) -> Result<(), LoopFault> {
    match refusal {
        Refusal::NoGuarantee { .. } | Refusal::QueueFull => Ok(()),
        Refusal::OutOfMemory => Err(LoopFault::OutOfMemory),
        _ => Err(LoopFault::BadMessage),
    }
}

// The one of two that comes first.
fn first_of(one: LoopFault, other: LoopFault) -> LoopFault {
    if (other as u8) < (one as u8) {
        other
    } else {
        one
    }
}

/// The first fault among these and one before.
pub(crate) fn fault_among(
    before: Result<(), LoopFault>,
    outcomes: &[Outcome],
) -> Result<(), LoopFault> {
    let mut first = before;
    for outcome in outcomes {
        first = match (first, *outcome) {
            (Err(one), Err(other)) => Err(first_of(one, other)),
            (Ok(()), Err(fault)) => Err(fault),
            (_, Ok(_)) => first,
        };
    }
    first
}
