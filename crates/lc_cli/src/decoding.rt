//! Reading bytes that are written as text.
ghost use Rattle.std.specs.Prelude.{◌≡◌, ◌<◌, ◌≤◌, ◌*◌, ◌%◌, ℕ, Ok, Err, None, IfOk, MatchOption, MatchBool, length, slice_index, true, false};
ghost use Rattle.hex.specs.Hex.{decode_of, decode_pairs, hex_digit_value, is_hex_digit, pair_value};
ghost use Rattle.hex.specs.declared.error.FromHexError.{FromHexError};

use std::alloc::{AllocError, Global};

// The value of each digit in either case, and 255 for any other byte. A look-up guesses at no branch.
static VALUES: [u8; 256] = [
    255, 255, 255, 255, 255, 255, 255, 255, 255, 255, 255, 255, 255, 255, 255, 255, 255, 255, 255,
    255, 255, 255, 255, 255, 255, 255, 255, 255, 255, 255, 255, 255, 255, 255, 255, 255, 255, 255,
    255, 255, 255, 255, 255, 255, 255, 255, 255, 255, 0, 1, 2, 3, 4, 5, 6, 7, 8, 9, 255, 255, 255,
    255, 255, 255, 255, 10, 11, 12, 13, 14, 15, 255, 255, 255, 255, 255, 255, 255, 255, 255, 255,
    255, 255, 255, 255, 255, 255, 255, 255, 255, 255, 255, 255, 255, 255, 255, 255, 10, 11, 12, 13,
    14, 15, 255, 255, 255, 255, 255, 255, 255, 255, 255, 255, 255, 255, 255, 255, 255, 255, 255,
    255, 255, 255, 255, 255, 255, 255, 255, 255, 255, 255, 255, 255, 255, 255, 255, 255, 255, 255,
    255, 255, 255, 255, 255, 255, 255, 255, 255, 255, 255, 255, 255, 255, 255, 255, 255, 255, 255,
    255, 255, 255, 255, 255, 255, 255, 255, 255, 255, 255, 255, 255, 255, 255, 255, 255, 255, 255,
    255, 255, 255, 255, 255, 255, 255, 255, 255, 255, 255, 255, 255, 255, 255, 255, 255, 255, 255,
    255, 255, 255, 255, 255, 255, 255, 255, 255, 255, 255, 255, 255, 255, 255, 255, 255, 255, 255,
    255, 255, 255, 255, 255, 255, 255, 255, 255, 255, 255, 255, 255, 255, 255, 255, 255, 255, 255,
    255, 255, 255, 255, 255, 255, 255, 255, 255, 255, 255, 255, 255, 255, 255, 255, 255, 255, 255,
    255, 255, 255,
];

// The value of a digit in either case, and 255 for any other byte.
#[inline(always)]
fn value(digit: u8) -> u8
    ensures { MatchOption (hex_digit_value digit) (result ≡ 255) (λ v. (result ≡ v) × (v < 16)) }
{
    VALUES[digit as usize]
}

// The byte of two digits.
#[inline(always)]
fn pair(high: u8, low: u8) -> Option<u8>
    ensures { MatchOption result
        ((i : ℕ) → (e : FromHexError) × (pair_value high low i ≡ Err e))
        (λ byte. (i : ℕ) → pair_value high low i ≡ Ok byte) }
{
    let (first, second) = (value(high), value(low));
    if first >= 16 || second >= 16 {
        return None;
    }
    Some(first * 16 + second)
}

/// How many digits the bytes begin with.
#[inline]
pub(crate) fn digit_count(bytes: &[u8]) -> usize
    ensures within { result ≤ length bytes.now }
    ensures digits { (k : ℕ) → k < result → is_hex_digit (slice_index bytes.now k) ≡ true }
    ensures end { result < length bytes.now → is_hex_digit (slice_index bytes.now result) ≡ false }
{
    'digits: for place in 0..bytes.len() {
        if value(bytes[place]) >= 16 {
            return place;
        }
    }
    bytes.len()
}

// Whether the text is pairs of digits, whose bytes are then put.
fn decode_into(text: &[u8], bytes: &mut [u8]) -> bool
    requires { length text.now ≡ 2 * length bytes.old }
    ensures { MatchBool result (decode_pairs 0 text.now ≡ Ok bytes.new)
        ((e : FromHexError) × (decode_pairs 0 text.now ≡ Err e)) }
{
    'bytes: for place in 0..bytes.len() {
        let Some(byte) = pair(text[2 * place], text[2 * place + 1]) else {
            return false;
        };
        bytes[place] = byte;
    }
    true
}

/// The bytes that a text writes in hexadecimal, in either case. `None` for any other text, for one of
/// an odd length before memory is asked for.
pub(crate) fn decode(alloc: Global, text: &[u8]) -> Result<Option<Vec<u8>>, AllocError>
    ensures read { IfOk result (λ found. MatchOption found
        ((e : FromHexError) × (decode_of text.now ≡ Err e))
        (λ bytes. decode_of text.now ≡ Ok bytes.items)) }
    ensures odd { length text.now % 2 ≡ 1 → result ≡ Ok None }
{
    if text.len() % 2 != 0 {
        return Ok(None);
    }
    let mut bytes = vec![in alloc; 0u8; text.len() / 2]?;
    let is_text = decode_into(text, bytes.as_mut_slice());
    Ok(is_text.then_some(bytes))
}
