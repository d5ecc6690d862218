//! The numbers and the texts of refusals and violations.
use super::same;
use lc_book::{Refusal, Violation};
use std::alloc::Global;
use std::fmt::Display;
use std::process::Abort;

// codes: begin refusals
const REFUSALS: [(Refusal, &str); 17] = [
    (Refusal::EmptyBody, "1 the message is empty"),
    (Refusal::BodyTooLong, "2 the message is too long"),
    (
        Refusal::PastSendLimit { left: 7 },
        "3 the message is longer than the limit on sending leaves (left 7)",
    ),
    (
        Refusal::NoGuarantee { held: 7 },
        "4 the message is longer than the guarantees that are held (held 7)",
    ),
    (Refusal::ZeroAmount, "5 the amount is zero"),
    (
        Refusal::NotHeld { held: 7 },
        "6 more would be absolved than is held (held 7)",
    ),
    (Refusal::BoundTooLarge, "7 the bound is above 2^62"),
    (
        Refusal::LimitRaised { left: 7 },
        "8 the bound is above what an earlier limit leaves (left 7)",
    ),
    (
        Refusal::PastReceiveLimit { left: 7 },
        "9 more would be issued than the limit on receiving leaves (left 7)",
    ),
    (
        Refusal::NoRoom { room: 7 },
        "10 more would be issued than the receiving ring has room for (room 7)",
    ),
    (
        Refusal::NothingToAsk { outstanding: 7 },
        "11 the target is not below the guarantees outstanding (outstanding 7)",
    ),
    (
        Refusal::TotalReached,
        "12 the guarantees of one channel would pass 2^62",
    ),
    (Refusal::QueueFull, "13 the outgoing queue is full"),
    (Refusal::OutOfMemory, "14 out of memory"),
    (Refusal::ChannelFinished, "15 the channel is finished"),
    (
        Refusal::BufferTooSmall { need: 7 },
        "16 the buffer is too small (need 7)",
    ),
    (
        Refusal::WrongVersion,
        "17 version 1 of the format cannot finish a channel",
    ),
];
// codes: end

// codes: begin violations
const VIOLATIONS: [(Violation, &str); 9] = [
    (
        Violation::NotGuaranteed,
        "1 a message longer than the guarantees outstanding",
    ),
    (
        Violation::SentPastLimit,
        "2 a message beyond the limit on sending",
    ),
    (
        Violation::AbsolvedTooMuch,
        "3 more guarantees absolved than are outstanding",
    ),
    (
        Violation::SendLimitRaised,
        "4 a limit on sending that raises an earlier one",
    ),
    (
        Violation::IssuedPastLimit,
        "5 guarantees beyond the limit on receiving",
    ),
    (
        Violation::TooManyGuarantees,
        "6 more than 2^24 guarantees held",
    ),
    (
        Violation::ReceiveLimitRaised,
        "7 a limit on receiving that raises an earlier one",
    ),
    (
        Violation::TotalPassed,
        "8 more than 2^62 guarantees on one channel",
    ),
    (
        Violation::AfterFinish,
        "9 a frame of the client behind its Finish",
    ),
];
// codes: end

// Compares a number and the text of its error.
fn reads<E: Display>(rt: &impl Abort, alloc: Global, number: u8, error: &E, wanted: &str) {
    let found = format!(in alloc; "{number} {error}").ok();
    same(rt, wanted, found, wanted);
}

#[test]
fn refusals_have_their_numbers_and_texts(rt: HostRuntime) {
    for (refusal, wanted) in &REFUSALS {
        reads(&rt, rt.alloc(), refusal.number(), refusal, wanted);
    }
}

#[test]
fn violations_have_their_numbers_and_texts(rt: HostRuntime) {
    for (violation, wanted) in &VIOLATIONS {
        reads(&rt, rt.alloc(), violation.number(), violation, wanted);
    }
}
