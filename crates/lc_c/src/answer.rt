//! What calls answer: one table of codes for all of them.
ghost use Rattle.std.specs.Prelude.{◌≡◌, false, is_ok};
ghost use Rattle.std.specs.Result.{result_err};
ghost use Rattle.lc_c.specs.Answers.{answer_of, is_done, only, number_in, refusal_answer, sized};

use lc_book::Refusal;

/// What a call answers: a code of the table, and the number that goes with it, or 0.
#[repr(C)]
#[derive(Clone, Copy)]
pub struct LcmuxAnswer {
    pub code: u32,
    pub number: u64,
}

// codes: begin results
pub(crate) const DONE: u32 = 0;

/// The handle is empty.
pub(crate) const NO_PEER: u32 = 32;

/// The handle has a peer already.
pub(crate) const HAS_PEER: u32 = 33;

/// No channel has this number.
pub(crate) const NO_CHANNEL: u32 = 34;

/// No such version of the format.
pub(crate) const BAD_VERSION: u32 = 35;

/// The ring of the channel whose number comes with it would not have 1 to 2^24 bytes.
pub(crate) const BAD_CAPACITY: u32 = 36;

/// Not 1 to 65,536 frames might wait.
pub(crate) const BAD_SLOTS: u32 = 37;

/// There is no such code.
pub(crate) const NO_CODE: u32 = 38;

/// The caller's struct is shorter than that of this version, whose size comes with it.
pub(crate) const BAD_SIZE: u32 = 39;

/// No message waits.
pub(crate) const EMPTY: u32 = 48;

/// No message waits, and none will come.
pub(crate) const ENDED: u32 = 49;

/// The message can never be sent.
pub(crate) const NEVER: u32 = 50;

/// The call waits, and its ticket is noticed.
pub(crate) const WAITS: u32 = 51;

/// No notice is there.
pub(crate) const NO_NOTICE: u32 = 52;

/// The message of an offer can be sent.
pub(crate) const NOTIFIED: u32 = 53;

/// This side closed the session.
pub(crate) const CLOSED_HERE: u32 = 64;

/// The peer closed the session.
pub(crate) const CLOSED_THERE: u32 = 65;

/// The peer's stream ended before all its channels were finished.
pub(crate) const CUT: u32 = 66;

/// This side aborted the session.
pub(crate) const ABORTED: u32 = 67;

/// A read or a write of the transport failed.
pub(crate) const TRANSPORT_FAILED: u32 = 68;
// codes: end

/// A code alone.
pub(crate) fn only(code: u32) -> LcmuxAnswer
    ensures { result ≡ only code }
{
    LcmuxAnswer { code, number: 0 }
}

/// The answer of a call that fills a struct of `needed` bytes if the caller's is as long.
pub(crate) fn sized(size: u64, needed: u64) -> LcmuxAnswer
    ensures { result ≡ sized size needed }
{
    if size < needed {
        return LcmuxAnswer {
            code: BAD_SIZE,
            number: needed,
        };
    }
    only(DONE)
}

// The number that a refusal carries.
fn number_in(refusal: Refusal) -> u64
    ensures { result ≡ number_in refusal }
{
    match refusal.detail() {
        Some(detail) => detail.value,
        None => 0,
    }
}

/// The answer of a call that is refused.
pub(crate) fn refused(refusal: Refusal) -> LcmuxAnswer
    ensures value { result ≡ refusal_answer refusal }
    ensures done { is_done result ≡ false }
{
    LcmuxAnswer {
        code: u32::from(refusal.number()),
        number: number_in(refusal),
    }
}

/// The answer of a call.
pub(crate) fn answer(judged: Result<(), Refusal>) -> LcmuxAnswer
    ensures value { result ≡ answer_of (result_err judged) }
    ensures done { is_done result ≡ is_ok judged }
{
    match judged {
        Ok(()) => only(DONE),
        Err(refusal) => refused(refusal),
    }
}
