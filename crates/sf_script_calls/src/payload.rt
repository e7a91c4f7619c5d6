//! Payloads.
ghost use Rattle.std.specs.Prelude.{◌≡◌, option_map, length, IfOk};
ghost use Rattle.std.specs.List.{list_all};
ghost use Rattle.sf_script_calls.specs.Payloads.{is_text_byte, bytes_of, text_of, hex_of, star_byte_of, copies_of, payload_of};
ghost use Rattle.sf_script_calls.specs.Views.{payload_view};

use crate::hex_digits::{HexDigits, are_hex_digits, hex_byte, is_hex_digit};
use crate::number::number_of;
use sf_types::{Blob, Mem};
use std::alloc::Global;

/// How a payload is spelled in a line.
#[derive(Clone, Copy)]
pub enum SpelledPayload<'a> {
    /// The bytes between two quotes.
    Text(&'a [u8]),
    /// Pairs of hex digits.
    Hex(HexDigits<'a>),
    /// So many copies of a byte.
    Copies(u64, u8),
}

// Whether a byte may stand in a text.
fn is_text_byte(byte: u8) -> bool
    ensures { result ≡ is_text_byte byte }
{
    (32..=126).contains(&byte) && byte != b'"'
}

/// Whether each byte may stand in a text: 0x20 to 0x7E without the quote.
pub fn are_text_bytes(bytes: &[u8]) -> bool
    ensures { result ≡ list_all is_text_byte bytes.now }
{
    bytes.iter().all(|byte| is_text_byte(*byte))
}

// A payload that is spelled as a text.
#[tactic(auto, unfolding(crate::specs::Payloads::text_of))]
fn text_of(text: &[u8]) -> Option<SpelledPayload<'_>>
    ensures { option_map payload_view result ≡ text_of text.now }
{
    if text.len() < 3 || text[0] != b'"' || text[text.len() - 1] != b'"' {
        return None;
    }
    let inner = &text[1..text.len() - 1];
    if are_text_bytes(inner) {
        Some(SpelledPayload::Text(inner))
    } else {
        None
    }
}

// A payload that is spelled in hex digits.
#[tactic(auto, unfolding(crate::specs::Payloads::hex_of))]
fn hex_of(text: &[u8]) -> Option<SpelledPayload<'_>>
    ensures { option_map payload_view result ≡ hex_of text.now }
{
    if text.len() < 3 || text[0] != b'x' {
        return None;
    }
    let digits = &text[1..];
    if digits.len() % 2 == 0 && are_hex_digits(digits) {
        Some(SpelledPayload::Hex(HexDigits::new(digits)))
    } else {
        None
    }
}

// The byte of a star, an x and two hex digits.
#[tactic(auto, unfolding(crate::specs::Payloads::star_byte_of))]
fn star_byte_of(text: &[u8]) -> Option<u8>
    ensures { result ≡ star_byte_of text.now }
{
    if text.len() != 4 || text[0] != b'*' || text[1] != b'x' {
        return None;
    }
    let high = text[2];
    let low = text[3];
    if is_hex_digit(high) && is_hex_digit(low) {
        Some(hex_byte(high, low))
    } else {
        None
    }
}

// A payload that is spelled as copies of a byte.
#[tactic(auto, unfolding(crate::specs::Payloads::copies_of))]
fn copies_of(text: &[u8]) -> Option<SpelledPayload<'_>>
    ensures { option_map payload_view result ≡ copies_of text.now }
{
    let place = text.len().saturating_sub(4);
    let number = number_of(&text[..place])?;
    let byte = star_byte_of(&text[place..])?;
    if 1 <= number {
        Some(SpelledPayload::Copies(number, byte))
    } else {
        None
    }
}

// The payload that a text spells.
#[tactic(auto, unfolding(crate::specs::Payloads::payload_of))]
pub fn payload_of(text: &[u8]) -> Option<SpelledPayload<'_>>
    ensures { option_map payload_view result ≡ payload_of text.now }
{
    if let Some(payload) = text_of(text) {
        return Some(payload);
    }
    if let Some(payload) = hex_of(text) {
        return Some(payload);
    }
    copies_of(text)
}

// The number of bytes of a payload.
pub fn length_of(payload: SpelledPayload) -> u64
    ensures { result ≡ length (bytes_of (payload_view payload.entry)) }
{
    match payload {
        SpelledPayload::Text(bytes) => bytes.len() as u64,
        SpelledPayload::Hex(hex) => hex.byte_count(),
        SpelledPayload::Copies(number, _) => number,
    }
}

// The bytes of a payload.
pub fn bytes_of(alloc: Global, payload: SpelledPayload) -> Mem<Blob>
    ensures { IfOk result (λ bytes. bytes ≡ bytes_of (payload_view payload.entry)) }
{
    match payload {
        SpelledPayload::Text(bytes) => Blob::new(alloc, bytes),
        SpelledPayload::Hex(hex) => Blob::from_vec(hex.bytes(alloc)?),
        SpelledPayload::Copies(number, byte) => {
            Blob::from_vec(vec![in alloc; byte; number as usize]?)
        }
    }
}
