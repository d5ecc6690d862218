//! Writing bytes as text.
ghost use Rattle.std.specs.Prelude.{◌≡◌, ◌<◌, ◌≤◌, ◌*◌, [], ◌∷◌, ◌++◌, IfErr, OnOk, length, drop, slice_index};
ghost use Rattle.std.specs.Io.KnownBytes.{Appends};
ghost use Rattle.std.specs.Fmt.{decimal};
ghost use Rattle.hex.specs.Hex.{encode_lower, lower_digits};

use crate::fault::Fault;
use std::alloc::Global;
use std::io;
use std::io::{BufWriter, Write};

// The bytes that are turned into text at a time: few, since room for their digits is made, and
// cleared, for each message.
const PIECE: usize = 256;

/// A writer that hands on to this one what it gathered. Its making alone asks for memory.
pub fn buffered<W: Write>(alloc: Global, out: &mut W) -> Result<BufWriter<&mut W>, Fault>
    ensures { IfErr result (λ fault. fault ≡ Fault.OutOfMemory) }
{
    BufWriter::new(alloc, out).or(Err(Fault::OutOfMemory))
}

// The lower case digit of a number below 16. It is reckoned, so that many are at once.
#[inline(always)]
fn digit(number: u8) -> u8
    requires { number < 16 }
    ensures { result ≡ slice_index lower_digits number }
{
    if number < 10 {
        b'0' + number
    } else {
        b'a' - 10 + number
    }
}

// Puts the digits of the bytes, two for each.
#[inline]
fn encode(bytes: &[u8], digits: &mut [u8])
    requires { length digits.old ≡ 2 * length bytes.now }
    ensures { digits.new ≡ encode_lower bytes.now }
{
    'bytes: for place in 0..bytes.len() {
        let byte = bytes[place];
        digits[2 * place] = digit(byte >> 4);
        digits[2 * place + 1] = digit(byte & 0x0f);
    }
}

// Writes the bytes in lower case hexadecimal. Takes no memory.
fn write_hex<W: Write>(bytes: &[u8], out: &mut W) -> io::Result<()>
    ensures { OnOk result (Appends (W.contents out.old) (W.contents out.new) (encode_lower bytes.now)) }
{
    let mut digits = [0u8; 2 * PIECE];
    let mut rest = bytes;
    while !rest.is_empty() {
        let (piece, others) = rest.split_at(rest.len().min(PIECE));
        let text = &mut digits[..2 * piece.len()];
        encode(piece, text);
        out.write_all(text)?;
        rest = others;
    }
    Ok(())
}

/// Writes the bytes in lower case hexadecimal, and a line feed. Takes no memory.
pub fn write_hex_line<W: Write>(bytes: &[u8], out: &mut W) -> io::Result<()>
    ensures { OnOk result (Appends (W.contents out.old) (W.contents out.new)
        (encode_lower bytes.now ++ (10 ∷ []))) }
{
    write_hex(bytes, out)?;
    out.write_all(b"\n")
}

// The digits of the longest number.
const DECIMAL: usize = 20;

// Puts the digits of the number last, and says where they begin.
#[inline]
fn put_decimal(number: u64, digits: &mut [u8]) -> usize
    requires { length digits.old ≡ 20 }
    ensures within { result ≤ length digits.new }
    ensures digits { drop result digits.new ≡ decimal number }
{
    let mut rest = number;
    let mut first = DECIMAL;
    'digits: while rest >= 10 {
        first -= 1;
        digits[first] = b'0' + (rest % 10) as u8;
        rest /= 10;
    }
    first -= 1;
    digits[first] = b'0' + rest as u8;
    first
}

/// Writes the number in decimal digits, all at once. Takes no memory.
#[inline]
pub fn write_decimal<W: Write>(number: u64, out: &mut W) -> io::Result<()>
    ensures { OnOk result (Appends (W.contents out.old) (W.contents out.new) (decimal number)) }
{
    let mut digits = [0u8; DECIMAL];
    let first = put_decimal(number, &mut digits);
    out.write_all(&digits[first..])
}
