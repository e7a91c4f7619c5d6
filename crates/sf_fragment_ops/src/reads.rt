//! What is read of values.
ghost use Rattle.std.specs.Prelude.{◌≡◌, ◌≤◌, length, bytes_eq, IfOk};
ghost use Rattle.sf_types.specs.Values.Marks.{size_of, strip};
ghost use Rattle.sf_types.specs.Values.Edits.{part};
ghost use Rattle.sf_types.specs.Calls.Refusals.{first_refusal};
ghost use Rattle.sf_types.specs.Calls.Arguments.{read_arguments, compare_arguments};
ghost use Rattle.sf_types.specs.Calls.LocatorCalls.{read_bytes};
ghost use Rattle.sf_chunk_map.specs.Contents.{window};
ghost use Rattle.sf_fragment_ops.specs.EditCalls.{answered};

use crate::comparison::are_equal;
use crate::faults;
use sf_chunk_map::Map;
use sf_types::{Blob, Fault, Mem};
use std::alloc::Global;

// The bytes of a value from one on, so many or up to the end.
pub fn bytes_from(alloc: Global, value: &Map, at: u64, amount: u64) -> Mem<Blob>
    requires { at ≤ size_of value.now }
    ensures { IfOk result (λ bytes. bytes ≡ window at amount (strip value.now)) }
{
    let count = amount.min(value.len() - at) as usize;
    let mut bytes = Vec::from_elem(alloc, 0u8, count)?;
    value.read_into(at, &mut bytes);
    Blob::from_vec(bytes)
}

/// The bytes of a value from an offset on, amount of them or up to the end, or how Read is refused. It costs in proportion to
/// those bytes, to their pieces and to the depth of the tree.
pub fn read(alloc: Global, value: &Map, amount: u64, offset: u64) -> Mem<Result<Blob, Fault>>
    ensures { IfOk result (λ answer. answer ≡ answered (first_refusal (read_arguments amount offset (size_of value.now))) (read_bytes value.now amount offset)) }
{
    if let Some(fault) = faults::read_fault(amount, offset, value.len()) {
        return Ok(Err(fault));
    }
    Ok(Ok(bytes_from(alloc, value, offset - 1, amount)?))
}

// How many bytes a part has.
fn part_len(value: &Map, amount: u64, offset: u64) -> u64
    ensures { result ≡ length (part (strip value.now) amount offset) }
{
    amount.min(value.len().saturating_sub(offset.saturating_sub(1)))
}

/// Whether parts of two values are equal, each the bytes from its offset, amount of them or up to the end, or how Compare is
/// refused. It takes no memory. It costs in proportion to the bytes compared, and to the depth of each tree for each piece of
/// the two parts.
pub fn compare(
    left: &Map,
    right: &Map,
    amount: u64,
    left_offset: u64,
    right_offset: u64,
) -> Result<bool, Fault>
    ensures { result ≡ answered (first_refusal (compare_arguments amount left_offset right_offset)) (bytes_eq (part (strip left.now) amount left_offset) (part (strip right.now) amount right_offset)) }
{
    if let Some(fault) = faults::compare_fault(amount, left_offset, right_offset) {
        return Err(fault);
    }
    let len = part_len(left, amount, left_offset);
    if len != part_len(right, amount, right_offset) {
        return Ok(false);
    }
    if len == 0 {
        return Ok(true);
    }
    Ok(are_equal(left, left_offset - 1, right, right_offset - 1, len))
}
