//! What is left of a limit, on sending or on receiving.
ghost use Rattle.std.specs.Prelude.{◌≡◌, ◌<◌, ◌≤◌, ◌↔◌, if◌then◌else◌, false, Some, None, IfOk, OnOk, IsTrue};
ghost use Rattle.std.specs.Option.{ForSome};
ghost use Rattle.std.specs.Result.{result_err};
ghost use Rattle.lc_frame.specs.Kind.{max_body, max_total};
ghost use Rattle.lc_book.specs.Limit.{is_past, less, left_of, limit_refusal};
ghost use Rattle.lc_book.specs.Client.{message_refusal};

use crate::fault::Refusal;
use lc_frame::{MAX_TOTAL, Version};

/// What a limit on sending of which `left` is left leaves after a message of `len` bytes in a stream
/// of the version, whatever guarantees are held. Refused by 1, 2 and 3, in this order.
pub fn after_message(
    version: Version,
    left: Option<u64>,
    len: usize,
) -> Result<Option<u64>, Refusal>
    ensures answer { result_err result ≡ message_refusal version left len }
    ensures value { IfOk result (λ after. after ≡ less left len) }
    ensures range { OnOk result ((0 < len) × (len ≤ max_body version)) }
{
    judge_message(version, left, len)?;
    let mut after = left;
    use_up(&mut after, len as u64);
    Ok(after)
}

/// Whether a message of `len` bytes may go on a stream of the version where `left` is left of a limit
/// on sending. Refused by 1, 2 and 3, in this order.
#[inline]
pub(crate) fn judge_message(version: Version, left: Option<u64>, len: usize) -> Result<(), Refusal>
    ensures answer { result_err result ≡ message_refusal version left len }
    ensures range { OnOk result ((0 < len) × (len ≤ max_body version)) }
{
    if len == 0 {
        return Err(Refusal::EmptyBody);
    }
    if len > version.max_body() {
        return Err(Refusal::BodyTooLong);
    }
    match judge_left(left, len as u64) {
        Ok(()) => Ok(()),
        Err(left) => Err(Refusal::PastSendLimit { left }),
    }
}

/// Whether a side may limit itself to `bound` bytes, where `left` is left of its limit so far.
/// Refused by 7 and 8, in this order.
pub fn check_limit(left: Option<u64>, bound: u64) -> Result<(), Refusal>
    ensures answer { result_err result ≡ limit_refusal left bound }
    ensures small { OnOk result (bound ≤ max_total) }
{
    if bound > MAX_TOTAL {
        return Err(Refusal::BoundTooLarge);
    }
    match left {
        Some(left) if bound > left => Err(Refusal::LimitRaised { left }),
        _ => Ok(()),
    }
}

/// Whether `n` bytes are within what is left of a limit, as an error what is left where they are not.
#[inline]
pub(crate) fn judge_left(left: Option<u64>, n: u64) -> Result<(), u64>
    ensures { result_err result ≡ (if is_past left n then Some (left_of left) else None) }
{
    match left {
        Some(left) if n > left => Err(left),
        _ => Ok(()),
    }
}

/// Takes `n` bytes off what is left of a limit. Where there is none, nothing is written.
#[inline]
pub(crate) fn use_up(left: &mut Option<u64>, n: u64)
    requires { is_past left.old n ≡ false }
    ensures { left.new ≡ less left.old n }
{
    if let Some(left) = left {
        *left -= n;
    }
}

/// Whether a limit is within the profile.
pub(crate) fn is_bound(left: Option<u64>) -> bool
    ensures { IsTrue result ↔ ForSome left (λ n. n ≤ max_total) }
{
    match left {
        Some(left) => left <= MAX_TOTAL,
        None => true,
    }
}
