//! How the arguments of a call are refused.
ghost use Rattle.std.specs.Prelude.{◌≡◌, ◌+◌, ◌-◌, ◌∷◌, []};
ghost use Rattle.sf_types.specs.declared.reply.Fault.TheVariants as faults;
ghost use Rattle.sf_types.specs.Calls.Refusals.{first_refusal};
ghost use Rattle.sf_types.specs.Calls.Arguments.{argument_refusals, read_arguments, instr_arguments, compare_arguments, write_arguments, write_append_arguments, append_arguments, copy_arguments, erase_arguments, trim_arguments, insert_arguments, delete_arguments, move_arguments, replace_arguments, is_read_out_of_range, is_buffer_out_of_range, is_part_out_of_range, is_target_out_of_range, is_too_long, copied_count};

use sf_types::{BUFFER_BYTES, Blob, Call, Fault, OBJECT_BYTES};

// ArgOutOfRange, or else another fault, where its test holds.
fn first_fault(out_of_range: bool, is_other: bool, other: Fault) -> Option<Fault>
    ensures { result ≡ first_refusal ((out_of_range, faults.ArgOutOfRange) ∷ (is_other, other) ∷ []) }
{
    if out_of_range {
        Some(Fault::ArgOutOfRange)
    } else if is_other {
        Some(other)
    } else {
        None
    }
}

// ArgOutOfRange, where its test holds.
fn range_fault(out_of_range: bool) -> Option<Fault>
    ensures { result ≡ first_refusal ((out_of_range, faults.ArgOutOfRange) ∷ []) }
{
    if out_of_range {
        Some(Fault::ArgOutOfRange)
    } else {
        None
    }
}

// Whether an amount that is read, or its offset, is out of range.
fn is_read_out_of_range(amount: u64, offset: u64) -> bool
    ensures { result ≡ is_read_out_of_range amount offset }
{
    amount == 0 || BUFFER_BYTES < amount || offset == 0
}

// Whether a buffer is out of range.
fn is_buffer_out_of_range(buffer: &Blob) -> bool
    ensures { result ≡ is_buffer_out_of_range buffer.now }
{
    buffer.len() == 0 || BUFFER_BYTES < buffer.len() as u64
}

// Whether a part is out of range.
fn is_part_out_of_range(amount: u64, offset: u64, size: u64) -> bool
    ensures { result ≡ is_part_out_of_range amount offset size }
{
    let end = u128::from(offset).saturating_sub(1) + u128::from(amount);
    amount == 0 || offset == 0 || u128::from(size) < end
}

// Whether an offset before a byte or behind the last one is out of range.
fn is_target_out_of_range(offset: u64, size: u64) -> bool
    ensures { result ≡ is_target_out_of_range offset size }
{
    offset == 0 || u128::from(size) + 1 < u128::from(offset)
}

// Whether an object of so many bytes is too long.
fn is_too_long(size: u128) -> bool
    ensures { result ≡ is_too_long size }
{
    u128::from(OBJECT_BYTES) < size
}

// The sum of the bytes before an offset and of some more.
fn end_of(offset: u64, bytes: u64) -> u128
    ensures { result ≡ offset - 1 + bytes }
{
    u128::from(offset).saturating_sub(1) + u128::from(bytes)
}

// How Read is refused in a value of so many bytes.
pub fn read_fault(amount: u64, offset: u64, size: u64) -> Option<Fault>
    ensures { result ≡ first_refusal (read_arguments amount offset size) }
{
    first_fault(
        is_read_out_of_range(amount, offset),
        size < offset,
        Fault::NoData,
    )
}

// How Instr is refused.
pub fn instr_fault(pattern: &Blob, offset: u64) -> Option<Fault>
    ensures { result ≡ first_refusal (instr_arguments pattern.now offset) }
{
    range_fault(is_buffer_out_of_range(pattern) || offset == 0)
}

// How Compare is refused.
pub fn compare_fault(amount: u64, left_offset: u64, right_offset: u64) -> Option<Fault>
    ensures { result ≡ first_refusal (compare_arguments amount left_offset right_offset) }
{
    range_fault(amount == 0 || left_offset == 0 || right_offset == 0)
}

// How Write is refused.
fn write_fault(offset: u64, buffer: &Blob) -> Option<Fault>
    ensures { result ≡ first_refusal (write_arguments offset buffer.now) }
{
    first_fault(
        is_buffer_out_of_range(buffer) || offset == 0,
        is_too_long(end_of(offset, buffer.len() as u64)),
        Fault::TooLong,
    )
}

// How WriteAppend is refused.
fn write_append_fault(buffer: &Blob, size: u64) -> Option<Fault>
    ensures { result ≡ first_refusal (write_append_arguments buffer.now size) }
{
    first_fault(
        is_buffer_out_of_range(buffer),
        is_too_long(u128::from(size) + buffer.len() as u128),
        Fault::TooLong,
    )
}

// How Append is refused, where the source has so many bytes.
fn append_fault(size: u64, source: u64) -> Option<Fault>
    ensures { result ≡ first_refusal (append_arguments size source) }
{
    if is_too_long(u128::from(size) + u128::from(source)) {
        Some(Fault::TooLong)
    } else {
        None
    }
}

// How many bytes Copy takes from a source of so many bytes.
fn copied_count(amount: u64, offset: u64, source: u64) -> u64
    ensures { result ≡ copied_count amount offset source }
{
    amount.min(source.saturating_sub(offset.saturating_sub(1)))
}

// How Copy is refused, where the source has so many bytes.
fn copy_fault(amount: u64, to: u64, from: u64, source: u64) -> Option<Fault>
    ensures { result ≡ first_refusal (copy_arguments amount to from source) }
{
    if amount == 0 || to == 0 || from == 0 {
        return Some(Fault::ArgOutOfRange);
    }
    if source < from {
        return Some(Fault::SourcePastEnd);
    }
    if is_too_long(end_of(to, copied_count(amount, from, source))) {
        Some(Fault::TooLong)
    } else {
        None
    }
}

// How Erase is refused.
fn erase_fault(amount: u64, offset: u64) -> Option<Fault>
    ensures { result ≡ first_refusal (erase_arguments amount offset) }
{
    range_fault(amount == 0 || offset == 0)
}

// How Trim is refused.
fn trim_fault(len: u64, size: u64) -> Option<Fault>
    ensures { result ≡ first_refusal (trim_arguments len size) }
{
    if 0 < size && size < len {
        Some(Fault::TrimPastEnd)
    } else {
        None
    }
}

// How FragInsert is refused.
fn insert_fault(offset: u64, buffer: &Blob, size: u64) -> Option<Fault>
    ensures { result ≡ first_refusal (insert_arguments offset buffer.now size) }
{
    first_fault(
        is_buffer_out_of_range(buffer) || is_target_out_of_range(offset, size),
        is_too_long(u128::from(size) + buffer.len() as u128),
        Fault::TooLong,
    )
}

// How FragDelete is refused.
fn delete_fault(amount: u64, offset: u64, size: u64) -> Option<Fault>
    ensures { result ≡ first_refusal (delete_arguments amount offset size) }
{
    range_fault(is_part_out_of_range(amount, offset, size))
}

// How FragMove is refused.
fn move_fault(amount: u64, from: u64, to: u64, size: u64) -> Option<Fault>
    ensures { result ≡ first_refusal (move_arguments amount from to size) }
{
    range_fault(is_part_out_of_range(amount, from, size) || is_target_out_of_range(to, size))
}

// How FragReplace is refused.
fn replace_fault(old_amount: u64, offset: u64, buffer: &Blob, size: u64) -> Option<Fault>
    ensures { result ≡ first_refusal (replace_arguments old_amount offset buffer.now size) }
{
    let size_after = u128::from(size.saturating_sub(old_amount)) + buffer.len() as u128;
    first_fault(
        is_buffer_out_of_range(buffer) || is_part_out_of_range(old_amount, offset, size),
        is_too_long(size_after),
        Fault::TooLong,
    )
}

/// The first refusal of a call's arguments, where the value that it works on and its source have so many bytes.
pub fn argument_fault(call: &Call, size: u64, source: u64) -> Option<Fault>
    ensures { result ≡ first_refusal (argument_refusals call.now size source) }
{
    match call {
        Call::Read { amount, offset, .. } => read_fault(*amount, *offset, size),
        Call::Instr {
            pattern,
            offset,
            ..
        } => instr_fault(pattern, *offset),
        Call::Compare {
            amount,
            left_offset,
            right_offset,
            ..
        } => compare_fault(*amount, *left_offset, *right_offset),
        Call::Write { offset, bytes, .. } => write_fault(*offset, bytes),
        Call::WriteAppend { bytes, .. } => write_append_fault(bytes, size),
        Call::Append { .. } => append_fault(size, source),
        Call::Copy {
            amount,
            to_offset,
            from_offset,
            ..
        } => copy_fault(*amount, *to_offset, *from_offset, source),
        Call::Erase { amount, offset, .. } => erase_fault(*amount, *offset),
        Call::Trim { length, .. } => trim_fault(*length, size),
        Call::FragInsert { offset, bytes, .. } => insert_fault(*offset, bytes, size),
        Call::FragDelete { amount, offset, .. } => delete_fault(*amount, *offset, size),
        Call::FragMove {
            amount,
            from_offset,
            to_offset,
            ..
        } => move_fault(*amount, *from_offset, *to_offset, size),
        Call::FragReplace {
            old_amount,
            offset,
            bytes,
            ..
        } => replace_fault(*old_amount, *offset, bytes, size),
        _ => None,
    }
}
