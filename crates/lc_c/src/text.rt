//! What the codes mean, in words.
ghost use Rattle.std.specs.Prelude.{◌≡◌, Some, length};
ghost use Rattle.std.specs.Option.{option_map};
ghost use Rattle.lc_c.specs.Texts.{version, own_sentence, sentence, text_answer, text_in};

use crate::answer::{DONE, LcmuxAnswer, NO_CODE, only, refused};
use lc_book::{Refusal, Violation};
use lc_frame::FrameFault;

/// The version of this library: 65,536 times the first number, and 256 times the second, and the
/// third.
#[unsafe(no_mangle)]
pub extern "C" fn lcmux_version() -> u32
    ensures { result ≡ version 0 1 0 }
{
    256
}

// The sentence of a code that is done, or of handles, configurations and takes.
fn own_sentence(code: u32) -> Option<&'static str>
    ensures { option_map (λ sentence. sentence.now) result ≡ own_sentence code }
{
    let sentence = match code {
        // codes: begin sentences of results
        0 => "done",
        32 => "the handle is empty",
        33 => "the handle has a peer already",
        34 => "there is no such channel",
        35 => "there is no such version of the format",
        36 => "a capacity is not 1 to 2^24",
        37 => "the slots are not 1 to 65,536",
        38 => "there is no such code",
        39 => "a struct is shorter than its size has to be",
        48 => "no message waits",
        49 => "no message waits, and none will come",
        50 => "the message can never be sent",
        51 => "the call waits",
        52 => "no notice is there",
        53 => "the offered message can be sent",
        64 => "this side closed the session",
        65 => "the peer closed the session",
        66 => "the stream ended before the peer finished",
        67 => "the session was aborted",
        68 => "the transport failed",
        // codes: end
        _ => return None,
    };
    Some(sentence)
}

#[tactic(auto, unfolding(crate::specs::Texts::sentence))]
fn sentence(code: u32) -> Option<&'static str>
    ensures { option_map (λ sentence. sentence.now) result ≡ sentence code }
{
    match code {
        1..=31 => Refusal::sentence_of(code),
        0..=99 => own_sentence(code),
        100..=199 => Violation::sentence_of(code - 100),
        _ => FrameFault::sentence_of(code - 200),
    }
}

// A sentence and a zero byte go to the front of a buffer.
fn tell(sentence: &str, buffer: &mut [u8]) -> LcmuxAnswer
    ensures answer { result ≡ text_answer (Some sentence.now) (length buffer.old) }
    ensures buffer { buffer.new ≡ text_in (Some sentence.now) buffer.old }
{
    let len = sentence.len();
    if buffer.len() <= len {
        return refused(Refusal::BufferTooSmall { need: len + 1 });
    }
    let (front, rest) = buffer.split_at_mut(len);
    front.copy_from_slice(sentence.as_bytes());
    rest[0] = 0;
    LcmuxAnswer {
        code: DONE,
        number: len as u64,
    }
}

/// The sentence of a code and a zero byte go to the front of `buffer`, and the number is the
/// sentence's length. Codes 38, and 16, whose number is the length of a buffer that would do.
#[unsafe(no_mangle)]
pub extern "C" fn lcmux_text(code: u32, buffer: &mut [u8]) -> LcmuxAnswer
    ensures answer { result ≡ text_answer (sentence code) (length buffer.old) }
    ensures buffer { buffer.new ≡ text_in (sentence code) buffer.old }
{
    match sentence(code) {
        Some(sentence) => tell(sentence, buffer),
        None => only(NO_CODE),
    }
}
