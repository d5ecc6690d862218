//! What a picture says of answers that no replay brings about.
use super::same;
use lc_chart::Told;
use lc_world::{Answer, Violation};

const VIOLATIONS: [(Violation, &str); 9] = [
    (
        Violation::NotGuaranteed,
        "violation V1: a message longer than the guarantees outstanding",
    ),
    (
        Violation::SentPastLimit,
        "violation V2: a message beyond the limit on sending",
    ),
    (
        Violation::AbsolvedTooMuch,
        "violation V3: more guarantees absolved than are outstanding",
    ),
    (
        Violation::SendLimitRaised,
        "violation V4: a limit on sending that raises an earlier one",
    ),
    (
        Violation::IssuedPastLimit,
        "violation V5: guarantees beyond the limit on receiving",
    ),
    (
        Violation::TooManyGuarantees,
        "violation V6: more than 2^24 guarantees held",
    ),
    (
        Violation::ReceiveLimitRaised,
        "violation V7: a limit on receiving that raises an earlier one",
    ),
    (
        Violation::TotalPassed,
        "violation V8: more than 2^62 guarantees on one channel",
    ),
    (
        Violation::AfterFinish,
        "violation V9: a frame of the client behind its Finish",
    ),
];

#[test]
fn violations_are_told_by_number_and_sentence(rt: HostRuntime) {
    for (violation, wanted) in &VIOLATIONS {
        let answer = Answer::Violated(*violation);
        let told = format!(in rt.alloc(); "{}", Told(&answer)).ok();
        same(&rt, wanted, told, wanted);
    }
}
