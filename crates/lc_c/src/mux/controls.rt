//! Control calls, and the policies that make them, behind the handle of a session.
ghost use Rattle.std.specs.Prelude.{◌≡◌};
ghost use Rattle.lc_frame.specs.Channel.{channel_at};
ghost use Rattle.lc_owed.specs.Owed.{with_issue_policy, with_plead_policy, pending_on};
ghost use Rattle.lc_c.specs.Answers.{only, done, sized, filled};
ghost use Rattle.lc_c.specs.Reach.{Called, answered, changed, given};
ghost use Rattle.lc_c.specs.MuxControls.{Issues, LimitsReceiving, Pleads, Absolves, Honours, issue_policy, plead_policy, with_owed, owed_size, owed_shown};

use super::reach::{LcmuxMux, reach};
use super::session::CMux;
use super::shown::call_shown;
use crate::answer::{DONE, LcmuxAnswer, only, sized};
use crate::balances::{flag, or_no_limit, or_no_plead};
use crate::reach::Target;
use lc_frame::Channel;
use lc_owed::{IssuePolicy, PleadPolicy};
use std::alloc::Global;

/// The size of [`LcmuxOwed`].
const OWED_SIZE: u64 = 56;

/// What is pending on a channel: control frames that were accepted and lack a slot.
#[repr(C)]
#[derive(Clone, Copy)]
pub struct LcmuxOwed {
    /// The bytes of the caller's struct, which may be of a later version.
    pub size: u64,
    pub issue: u64,
    pub limit_receiving: u64,
    pub plead: u64,
    pub absolve: u64,
    pub honour: u64,
    /// How much may be issued beside it.
    pub room: u64,
}

/// `amount` guarantees are issued, beside those that are pending. Codes 15, 5, 9, 10 and 12, in this order, behind those of
/// the session's end.
#[unsafe(no_mangle)]
#[tactic(auto, using(crate::proofs::Called::called_barred))]
pub extern "C" fn lcmux_mux_issue(
    alloc: Global,
    mux: &mut LcmuxMux,
    channel: u32,
    amount: u32,
) -> LcmuxAnswer
    ensures { Called mux.old.slot.held (channel_at channel) (Issues amount) mux.new.slot.held result }
{
    match reach(mux, alloc, channel) {
        Target::Barred(answer) => answer,
        Target::At(mut session, channel) => {
            let said = session.mux.issue(channel, amount);
            *mux = LcmuxMux::of(session);
            call_shown(said)
        }
    }
}

/// At most `bound` guarantees are issued from here on, behind those that are pending. Codes 15, 7 and 8, in this order,
/// behind those of the session's end.
#[unsafe(no_mangle)]
#[tactic(auto, using(crate::proofs::Called::called_barred))]
pub extern "C" fn lcmux_mux_limit_receiving(
    alloc: Global,
    mux: &mut LcmuxMux,
    channel: u32,
    bound: u64,
) -> LcmuxAnswer
    ensures { Called mux.old.slot.held (channel_at channel) (LimitsReceiving bound) mux.new.slot.held result }
{
    match reach(mux, alloc, channel) {
        Target::Barred(answer) => answer,
        Target::At(mut session, channel) => {
            let said = session.mux.limit_receiving(channel, bound);
            *mux = LcmuxMux::of(session);
            call_shown(said)
        }
    }
}

/// The sender is asked to absolve until it holds at most `target`, and no policy issues above that. Codes 15 and 11, in
/// this order, behind those of the session's end.
#[unsafe(no_mangle)]
#[tactic(auto, using(crate::proofs::Called::called_barred))]
pub extern "C" fn lcmux_mux_plead(
    alloc: Global,
    mux: &mut LcmuxMux,
    channel: u32,
    target: u32,
) -> LcmuxAnswer
    ensures { Called mux.old.slot.held (channel_at channel) (Pleads target) mux.new.slot.held result }
{
    match reach(mux, alloc, channel) {
        Target::Barred(answer) => answer,
        Target::At(mut session, channel) => {
            let said = session.mux.plead(channel, target);
            *mux = LcmuxMux::of(session);
            call_shown(said)
        }
    }
}

/// `amount` guarantees are given up that no permit sets aside. Codes 15, 5 and 6, in this order, behind those of the
/// session's end.
#[unsafe(no_mangle)]
#[tactic(auto, using(crate::proofs::Called::called_barred))]
pub extern "C" fn lcmux_mux_absolve(
    alloc: Global,
    mux: &mut LcmuxMux,
    channel: u32,
    amount: u32,
) -> LcmuxAnswer
    ensures { Called mux.old.slot.held (channel_at channel) (Absolves amount) mux.new.slot.held result }
{
    match reach(mux, alloc, channel) {
        Target::Barred(answer) => answer,
        Target::At(mut session, channel) => {
            let said = session.mux.absolve(channel, amount);
            *mux = LcmuxMux::of(session);
            call_shown(said)
        }
    }
}

/// The plead that is kept is honoured, once permits no longer hold what that gives up. Code 15, behind those of the
/// session's end.
#[unsafe(no_mangle)]
#[tactic(auto, using(crate::proofs::Called::called_barred))]
pub extern "C" fn lcmux_mux_honour(alloc: Global, mux: &mut LcmuxMux, channel: u32) -> LcmuxAnswer
    ensures { Called mux.old.slot.held (channel_at channel) Honours mux.new.slot.held result }
{
    match reach(mux, alloc, channel) {
        Target::Barred(answer) => answer,
        Target::At(mut session, channel) => {
            let said = session.mux.honour(channel);
            *mux = LcmuxMux::of(session);
            call_shown(said)
        }
    }
}

// The policy of a mark.
fn issue_policy(low_water: u32) -> IssuePolicy
    ensures { result ≡ issue_policy low_water }
{
    match low_water {
        0 => IssuePolicy::ByCaller,
        u32::MAX => IssuePolicy::AtOnce,
        _ => IssuePolicy::LowWater(low_water),
    }
}

/// Room of a channel is issued without a call, from the next change of the session on, while fewer guarantees are
/// outstanding than `low_water`; with 2^32 - 1 whatever is outstanding, and with 0 by calls alone.
#[unsafe(no_mangle)]
pub extern "C" fn lcmux_mux_set_issue_policy(
    alloc: Global,
    mux: &mut LcmuxMux,
    channel: u32,
    low_water: u32,
) -> LcmuxAnswer
    ensures answer { result ≡ answered mux.old.slot.held (channel_at channel) (λ session c. only done) }
    ensures after { mux.new.slot.held ≡ changed mux.old.slot.held (channel_at channel) (λ session c. with_owed session (with_issue_policy session.mux.owed c (issue_policy low_water))) }
{
    match reach(mux, alloc, channel) {
        Target::Barred(answer) => answer,
        Target::At(mut session, channel) => {
            session
                .mux
                .set_issue_policy(channel, issue_policy(low_water));
            *mux = LcmuxMux::of(session);
            only(DONE)
        }
    }
}

// The policy of a flag.
fn plead_policy(at_once: u32) -> PleadPolicy
    ensures { result ≡ plead_policy at_once }
{
    if at_once == 0 {
        PleadPolicy::ByCaller
    } else {
        PleadPolicy::AtOnce
    }
}

/// A plead of a channel is honoured without a call, from the next change of the session on, as soon as it is kept; with 0
/// by calls alone.
#[unsafe(no_mangle)]
pub extern "C" fn lcmux_mux_set_plead_policy(
    alloc: Global,
    mux: &mut LcmuxMux,
    channel: u32,
    at_once: u32,
) -> LcmuxAnswer
    ensures answer { result ≡ answered mux.old.slot.held (channel_at channel) (λ session c. only done) }
    ensures after { mux.new.slot.held ≡ changed mux.old.slot.held (channel_at channel) (λ session c. with_owed session (with_plead_policy session.mux.owed c (plead_policy at_once))) }
{
    match reach(mux, alloc, channel) {
        Target::Barred(answer) => answer,
        Target::At(mut session, channel) => {
            session.mux.set_plead_policy(channel, plead_policy(at_once));
            *mux = LcmuxMux::of(session);
            only(DONE)
        }
    }
}

fn owed_shown(size: u64, session: &CMux, channel: Channel) -> LcmuxOwed
    ensures { result ≡ owed_shown size session.now.mux channel }
{
    let pending = session.mux.owed(channel);
    LcmuxOwed {
        size,
        issue: u64::from(pending.issue),
        limit_receiving: or_no_limit(pending.limit),
        plead: or_no_plead(pending.plead),
        absolve: u64::from(pending.absolve),
        honour: flag(pending.honour),
        room: session.mux.room(channel),
    }
}

/// What is pending on a channel. Code 39, where the struct is too short, and stays as it was.
#[unsafe(no_mangle)]
#[tactic(auto, using(crate::proofs::Barred::given_barred))]
pub extern "C" fn lcmux_mux_owed(
    alloc: Global,
    mux: &mut LcmuxMux,
    channel: u32,
    owed: &mut LcmuxOwed,
) -> LcmuxAnswer
    ensures answer { result ≡ answered mux.old.slot.held (channel_at channel) (λ session c. sized owed.old.size owed_size) }
    ensures owed { owed.new ≡ given mux.old.slot.held (channel_at channel) (λ session c. filled owed.old.size owed_size (owed_shown owed.old.size session.mux c) owed.old) owed.old }
    ensures same { mux.new.slot.held ≡ mux.old.slot.held }
{
    match reach(mux, alloc, channel) {
        Target::Barred(answer) => answer,
        Target::At(session, channel) => {
            let answer = sized(owed.size, OWED_SIZE);
            if owed.size >= OWED_SIZE {
                *owed = owed_shown(owed.size, &session, channel);
            }
            *mux = LcmuxMux::of(session);
            answer
        }
    }
}
