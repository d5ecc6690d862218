//! The numbers and the texts of faults, and the text of a buffer that is too small.
use super::same;
use lc_frame::{BufferTooSmall, FrameFault};
use std::alloc::Global;
use std::fmt::Display;
use std::process::Abort;

// codes: begin faults
const FRAME_FAULTS: [(FrameFault, &str); 4] = [
    (
        FrameFault::BadTag,
        "1 a byte names no kind or channel, or is not the greeting's",
    ),
    (FrameFault::ZeroLength, "2 a message has length 0"),
    (
        FrameFault::BadNumber,
        "3 a number in a frame is out of its range",
    ),
    (
        FrameFault::Truncated,
        "4 the stream ends within a frame or a greeting",
    ),
];
// codes: end

// Compares a number and the text of its error.
fn reads<E: Display>(rt: &impl Abort, alloc: Global, number: u8, error: &E, wanted: &str) {
    let found = format!(in alloc; "{number} {error}").ok();
    same(rt, wanted, found, wanted);
}

#[test]
fn faults_have_their_numbers_and_texts(rt: HostRuntime) {
    for (fault, wanted) in &FRAME_FAULTS {
        reads(&rt, rt.alloc(), fault.number(), fault, wanted);
    }
}

#[test]
fn a_small_buffer_has_its_text(rt: HostRuntime) {
    let found = format!(in rt.alloc(); "{}", BufferTooSmall { need: 65_538 }).ok();
    let wanted = "the buffer is too small: 65538 bytes are needed";
    same(&rt, "an error", found, wanted);
}
