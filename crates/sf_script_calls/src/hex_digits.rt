//! Hex digits.
ghost use Rattle.std.specs.Prelude.{◌≡◌, ◌<◌, IsTrue, IfOk, length};
ghost use Rattle.std.specs.List.{list_all};
ghost use Rattle.sf_script_calls.specs.Payloads.{is_hex_digit, hex_value, hex_byte, hex_bytes};

use crate::number::is_digit;
use sf_types::Mem;
use std::alloc::Global;

/// Pairs of hex digits `0-9a-f` in a line.
#[derive(Clone, Copy)]
pub struct HexDigits<'a> {
    digits: &'a [u8],
    ghost are_hex: { IsTrue (list_all is_hex_digit digits.now) },
}

// Whether a byte is a hex digit.
pub fn is_hex_digit(byte: u8) -> bool
    ensures { result ≡ is_hex_digit byte }
{
    is_digit(byte) || matches!(byte, b'a'..=b'f')
}

// The value of a hex digit.
fn hex_value(digit: u8) -> u8
    requires { IsTrue (is_hex_digit digit) }
    ensures value { result ≡ hex_value digit }
    ensures below { result < 16 }
{
    if is_digit(digit) {
        digit - b'0'
    } else {
        digit - 87
    }
}

// The byte of two hex digits.
pub fn hex_byte(high: u8, low: u8) -> u8
    requires high { IsTrue (is_hex_digit high) }
    requires low { IsTrue (is_hex_digit low) }
    ensures { result ≡ hex_byte high low }
{
    16 * hex_value(high) + hex_value(low)
}

// Whether each byte is a hex digit.
pub fn are_hex_digits(bytes: &[u8]) -> bool
    ensures { result ≡ list_all is_hex_digit bytes.now }
{
    bytes.iter().all(|byte| is_hex_digit(*byte))
}

impl<'a> HexDigits<'a> {
    // Digits that are hex digits.
    pub(crate) fn new(digits: &'a [u8]) -> HexDigits<'a>
        requires { IsTrue (list_all is_hex_digit digits.now) }
        ensures { result.digits.now ≡ digits.now }
    {
        HexDigits { digits }
    }

    // The number of the bytes that the digits spell.
    pub(crate) fn byte_count(self) -> u64
        ensures { result ≡ length (hex_bytes self.entry.digits.now) }
    {
        self.digits.len() as u64 / 2
    }

    // The bytes that the digits spell.
    pub(crate) fn bytes(self, alloc: Global) -> Mem<Vec<u8>>
        ensures { IfOk result (λ bytes. bytes.items ≡ hex_bytes self.entry.digits.now) }
    {
        hex_bytes(alloc, self.digits)
    }
}

// The bytes that hex digits spell.
fn hex_bytes(alloc: Global, digits: &[u8]) -> Mem<Vec<u8>>
    requires { IsTrue (list_all is_hex_digit digits.now) }
    ensures { IfOk result (λ bytes. bytes.items ≡ hex_bytes digits.now) }
{
    let mut bytes = Vec::new(alloc);
    let mut rest = digits;
    while let [high, low, after @ ..] = rest {
        bytes.push(hex_byte(*high, *low))?;
        rest = after;
    }
    Ok(bytes)
}
