//! What the numbers of refusals, violations and faults mean, in words.
ghost use Rattle.lc_play.specs.Played.{StaysIfShort};

use crate::exports::BAD;
use crate::played::{LcmuxPlayed, hand_out};
use lc_book::{Refusal, Violation};
use lc_frame::FrameFault;

fn sentence(code: u32) -> Option<&'static str> {
    match code {
        0..=99 => Refusal::sentence_of(code),
        100..=199 => Violation::sentence_of(code - 100),
        _ => FrameFault::sentence_of(code - 200),
    }
}

/// The sentence of a refusal's number, of 100 more than a violation's, or of 200 more than a fault's.
/// Status 2 where there is none.
#[unsafe(no_mangle)]
pub extern "C" fn lcmux_play_text(code: u32, out: &mut [u8]) -> LcmuxPlayed
    ensures short { StaysIfShort result out.old out.new }
{
    match sentence(code) {
        Some(sentence) => hand_out(0, sentence.as_bytes(), &[], out),
        None => hand_out(BAD, &[], &[], out),
    }
}
