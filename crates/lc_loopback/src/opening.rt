//! Two new sessions, and the connections between them.
ghost use Rattle.std.specs.Prelude.{◌≡◌, IfOk};
ghost use Rattle.lc_session.specs.Parts.{state_of};
ghost use Rattle.lc_session.specs.Session.{IsNewSession};
ghost use Rattle.lc_loopback.specs.Plan.{config_of};

use crate::hold::Hold;
use crate::plan::Plan;
use lc_frame::Version;
use lc_loopback_report::LoopFault;
use lc_session::{Parts, Session};
use std::alloc::Global;

/// Two new sessions, and a hold of both.
#[derive(Drop)]
pub(crate) struct Opened {
    pub(crate) a: Parts,
    pub(crate) b: Parts,
    pub(crate) hold: Hold,
}

fn hold_both(alloc: Global, a: Parts, b: Parts) -> Result<Opened, LoopFault>
    ensures a { IfOk result (λ opened. opened.a ≡ a) }
    ensures b { IfOk result (λ opened. opened.b ≡ b) }
{
    match Hold::new(alloc, &a.session, &b.session) {
        Ok(hold) => Ok(Opened { a, b, hold }),
        Err(_) => Err(LoopFault::OutOfMemory),
    }
}

fn open_second(alloc: Global, a: Parts, plan: Plan, version: Version) -> Result<Opened, LoopFault>
    ensures a { IfOk result (λ opened. opened.a ≡ a) }
    ensures b { IfOk result (λ opened. IsNewSession (config_of plan version) (state_of opened.b)) }
{
    match Session::new(alloc, plan.config(version)) {
        Ok(b) => hold_both(alloc, a, b),
        Err(_) => Err(LoopFault::OutOfMemory),
    }
}

/// Two new sessions of a plan: each side writes in its version. All the memory that both sessions
/// need is taken here, but for the bodies of messages.
pub(crate) fn open(
    alloc: Global,
    plan: Plan,
    a_version: Version,
    b_version: Version,
) -> Result<Opened, LoopFault>
    ensures a { IfOk result (λ opened. IsNewSession (config_of plan a_version) (state_of opened.a)) }
    ensures b { IfOk result (λ opened. IsNewSession (config_of plan b_version) (state_of opened.b)) }
{
    match Session::new(alloc, plan.config(a_version)) {
        Ok(a) => open_second(alloc, a, plan, b_version),
        Err(_) => Err(LoopFault::OutOfMemory),
    }
}
