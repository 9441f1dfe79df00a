//! Bytes as hexadecimal text.

#![tactic(auto)]

ghost use Rattle.std.specs.Prelude.{◌≡◌, ◌≢◌, ◌*◌, ◌<◌, ◌≤◌, ◌↔◌, Some, true, false, length, is_ok, IsErrOf, IfOk, if◌then◌else◌, string_bytes};
ghost use Rattle.std.specs.Fmt.{WritesOnOk};
ghost use Rattle.hexadecimal.specs.Hex.{hex, hex_digit, is_digit, are_digits, digit_value, unhex, writes_bytes, not_hex_text, HexRoundTrip};
ghost use Rattle.hexadecimal.specs.declared.NotHex;

use std::alloc::{AllocError, Global};
use std::error::Error;
use std::{fmt, str};

/// The bytes whose digits are written at once: a write for each byte would cost more than its digits.
const PIECE: usize = 64;

/// The digit of a number below 16.
fn digit(n: u8) -> u8
    requires { n < 16 }
    ensures { result ≡ hex_digit n }
{
    if n < 10 { b'0' + n } else { b'a' + (n - 10) }
}

/// Writes a piece of the bytes, two digits to each.
fn write_piece<W: fmt::Write>(piece: &[u8], f: &mut fmt::Formatter<W>) -> fmt::Result
    requires { length piece.now ≤ PIECE }
    ensures { WritesOnOk W.write_str_gives f.old result (hex piece.now) f.new }
{
    let mut digits = [0; 2 * PIECE];
    for (i, b) in piece.iter().enumerate() {
        digits[2 * i] = digit(*b / 16);
        digits[2 * i + 1] = digit(*b % 16);
    }
    let text = str::from_utf8(&digits[..2 * piece.len()]).unwrap();
    f.write_str(text)
}

/// Bytes that print as hexadecimal text: two digits to each byte, the high one first.
#[derive(Clone, Copy, Debug)]
pub struct Hex<'a>(pub &'a [u8]);

impl fmt::Display for Hex<'_> {
    ghost output = { λ h. Some (hex h.0.now) };

    fn fmt<W: fmt::Write>(&self, f: &mut fmt::Formatter<W>) -> fmt::Result {
        for piece in self.0.chunks(PIECE) {
            write_piece(piece, f)?;
        }
        Ok(())
    }
}

/// Bytes as hexadecimal text.
pub fn hex_text(heap: Global, bytes: &[u8]) -> Result<String, AllocError>
    ensures { IfOk result (λ t. string_bytes t ≡ hex bytes.now) }
{
    Hex(bytes).to_string(heap)
}

/// Why a text does not write the bytes that are asked for.
#[derive(Clone, Copy, Debug, PartialEq, Eq)]
pub enum NotHex {
    /// It has not two characters for each byte.
    Length,
    /// A character is no digit 0 to 9 or a to f.
    Digit,
}

impl fmt::Display for NotHex {
    ghost output = { λ r. Some (not_hex_text r) };

    fn fmt<W: fmt::Write>(&self, f: &mut fmt::Formatter<W>) -> fmt::Result {
        match self {
            NotHex::Length => f.write_str("not two digits for each byte"),
            NotHex::Digit => f.write_str("a character is no digit 0 to 9 or a to f"),
        }
    }
}

impl Error for NotHex {}

/// Whether a character is a digit 0 to 9 or a to f.
fn is_digit(c: u8) -> bool
    ensures { result ≡ is_digit c }
{
    matches!(c, b'0'..=b'9' | b'a'..=b'f')
}

/// Whether each character is such a digit.
fn are_digits(text: &[u8]) -> bool
    ensures { result ≡ are_digits text.now }
{
    text.iter().all(|c| is_digit(*c))
}

// no `Option`, since each character is looked at before a byte is written, and a second look would take as long
/// The number of such a digit.
fn digit_value(c: u8) -> u8
    requires { is_digit c ≡ true }
    ensures value { result ≡ digit_value c }
    ensures small { result < 16 }
{
    if c < b'a' { c - b'0' } else { c - b'a' + 10 }
}

/// Fills a slice with the bytes that a text writes; a text that does not write exactly so many bytes leaves the slice
/// as it is. Its length is looked at first.
pub fn read_hex(text: &[u8], into: &mut [u8]) -> Result<(), NotHex>
    ensures answer { is_ok result ≡ writes_bytes (length into.old) text.now }
    ensures length { IsErrOf result NotHex.Length ↔ (length text.now ≢ 2 * length into.old) }
    ensures digit { IsErrOf result NotHex.Digit ↔ ((length text.now ≡ 2 * length into.old) × (are_digits text.now ≡ false)) }
    ensures after { into.new ≡ (if writes_bytes (length into.old) text.now then unhex text.now else into.old) }
{
    if text.len() != 2 * into.len() {
        return Err(NotHex::Length);
    }
    if !are_digits(text) {
        return Err(NotHex::Digit);
    }
    let (pairs, _) = text.as_chunks::<2>();
    // kept: by index, since after a `zip` with `into.iter_mut()` a proof knows nothing of the bytes
    for (i, [high, low]) in pairs.iter().enumerate() {
        into[i] = digit_value(*high) * 16 + digit_value(*low);
    }
    Ok(())
}

/// Carries the theorem that bytes read back from their text, and that no other text writes them.
#[tactic(auto, using(crate::proofs::Back::back, crate::proofs::Back::only))]
pub fn hex_round_trip()
    ensures { HexRoundTrip }
{}
