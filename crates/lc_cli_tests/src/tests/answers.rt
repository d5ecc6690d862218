//! The lines of the answers that no session gives, and of all others with the largest number.
use super::same;
use lc_cli::write_answer;
use lc_world::{Answer, Refusal, Violation};
use std::alloc::Global;

fn line(alloc: Global, answer: &Answer) -> Option<String> {
    let mut out = Vec::new(alloc);
    write_answer(answer, &mut out).ok()?;
    String::from_utf8(out).ok()
}

const LARGEST: u64 = u64::MAX;

const REFUSALS: [(Refusal, &str); 13] = [
    (
        Refusal::PastSendLimit { left: LARGEST },
        "refused 3 left 18446744073709551615\n",
    ),
    (
        Refusal::NoGuarantee { held: LARGEST - 1 },
        "refused 4 held 18446744073709551614\n",
    ),
    (
        Refusal::NotHeld { held: LARGEST - 2 },
        "refused 6 held 18446744073709551613\n",
    ),
    (
        Refusal::LimitRaised { left: LARGEST - 3 },
        "refused 8 left 18446744073709551612\n",
    ),
    (
        Refusal::PastReceiveLimit { left: LARGEST - 4 },
        "refused 9 left 18446744073709551611\n",
    ),
    (
        Refusal::NoRoom { room: LARGEST - 5 },
        "refused 10 room 18446744073709551610\n",
    ),
    (
        Refusal::NothingToAsk {
            outstanding: LARGEST - 6,
        },
        "refused 11 outstanding 18446744073709551609\n",
    ),
    (Refusal::TotalReached, "refused 12\n"),
    (Refusal::QueueFull, "refused 13\n"),
    (Refusal::OutOfMemory, "refused 14\n"),
    (Refusal::ChannelFinished, "refused 15\n"),
    (
        Refusal::BufferTooSmall { need: usize::MAX },
        "refused 16 need 18446744073709551615\n",
    ),
    (Refusal::WrongVersion, "refused 17\n"),
];

const VIOLATIONS: [(Violation, &str); 9] = [
    (Violation::NotGuaranteed, "violation V1\n"),
    (Violation::SentPastLimit, "violation V2\n"),
    (Violation::AbsolvedTooMuch, "violation V3\n"),
    (Violation::SendLimitRaised, "violation V4\n"),
    (Violation::IssuedPastLimit, "violation V5\n"),
    (Violation::TooManyGuarantees, "violation V6\n"),
    (Violation::ReceiveLimitRaised, "violation V7\n"),
    (Violation::TotalPassed, "violation V8\n"),
    (Violation::AfterFinish, "violation V9\n"),
];

#[test]
fn refusals_have_their_lines(rt: HostRuntime) {
    for (refusal, wanted) in &REFUSALS {
        let answer = Answer::Refused(*refusal);
        same(&rt, wanted, line(rt.alloc(), &answer), wanted);
    }
}

#[test]
fn violations_have_their_lines(rt: HostRuntime) {
    for (violation, wanted) in &VIOLATIONS {
        let answer = Answer::Violated(*violation);
        same(&rt, wanted, line(rt.alloc(), &answer), wanted);
    }
}

#[test]
fn the_largest_numbers_have_their_lines(rt: HostRuntime) {
    let absolved = Answer::Absolved(u32::MAX);
    let wanted = "absolved 4294967295\n";
    same(&rt, wanted, line(rt.alloc(), &absolved), wanted);
    let delivered = Answer::Delivered {
        bytes: LARGEST,
        frames: LARGEST - 1,
    };
    let wanted = "delivered 18446744073709551615 bytes 18446744073709551614 frames\n";
    same(&rt, wanted, line(rt.alloc(), &delivered), wanted);
}
