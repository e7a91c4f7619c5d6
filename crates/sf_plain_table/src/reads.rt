//! What is read of a value.
ghost use Rattle.std.specs.Prelude.{◌≡◌, ◌∷◌, [], bytes_eq, nat_eq, drop, IfOk};
ghost use Rattle.sf_types.specs.Values.Marks.{strip};
ghost use Rattle.sf_types.specs.Values.Edits.{part};
ghost use Rattle.sf_types.specs.Calls.LocatorCalls.{read_bytes, matches_at, match_offset};

use crate::edits;
use crate::results::bytes_in;
use crate::value::Value;
use sf_types::{Blob, Mem};
use std::alloc::Global;

/// The bytes of a value from an offset on, so many or up to the end.
pub fn read_bytes(alloc: Global, value: &Value, amount: u64, offset: u64) -> Mem<Blob>
    ensures { IfOk result (λ bytes. bytes ≡ read_bytes value.now amount offset) }
{
    let bytes = bytes_in(alloc, &value.bytes)?;
    Blob::new(alloc, edits::part(&bytes, amount, offset))
}

// Whether a pattern stands whole at an offset.
fn matches_at(bytes: &[u8], pattern: &[u8], offset: u64) -> bool
    ensures { result ≡ matches_at bytes.now pattern.now offset }
{
    edits::behind(bytes, offset.saturating_sub(1)).starts_with(pattern)
}

// The least offset from one on at which a pattern stands whole, or 0.
fn first_match(bytes: &[u8], pattern: &[u8], offset: u64) -> u64
    ensures { result ≡ match_offset bytes.now pattern.now offset }
{
    let end = bytes.len() as u64 + 1;
    for at in offset..end {
        if matches_at(bytes, pattern, at) {
            return at;
        }
    }
    0
}

/// The least offset from one on at which a pattern stands whole in a value, or 0.
pub fn match_offset(alloc: Global, value: &Value, pattern: &Blob, offset: u64) -> Mem<u64>
    ensures { IfOk result (λ at. at ≡ match_offset (strip value.now) pattern.now offset) }
{
    let bytes = bytes_in(alloc, &value.bytes)?;
    Ok(first_match(&bytes, pattern.as_bytes(), offset))
}

/// Whether parts of two values are equal, each the bytes from its offset, so many or up to the end.
pub fn are_equal(
    alloc: Global,
    left: &Value,
    right: &Value,
    amount: u64,
    left_offset: u64,
    right_offset: u64,
) -> Mem<bool>
    ensures { IfOk result (λ equal. equal ≡ bytes_eq (part (strip left.now) amount left_offset) (part (strip right.now) amount right_offset)) }
{
    let left = bytes_in(alloc, &left.bytes)?;
    let right = bytes_in(alloc, &right.bytes)?;
    Ok(edits::part(&left, amount, left_offset) == edits::part(&right, amount, right_offset))
}
