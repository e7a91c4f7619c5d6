//! The calls that edit bytes, each with its refusals.
ghost use Rattle.std.specs.Prelude.{◌≡◌, ◌≤◌, ◌++◌, length, None, Some, IfOk, OnOk, OnErr};
ghost use Rattle.sf_types.specs.Values.Marks.{zero_byte, fresh_bytes, size_of};
ghost use Rattle.sf_types.specs.Values.Edits as edits;
ghost use Rattle.sf_types.specs.Calls.Refusals.{first_refusal};
ghost use Rattle.sf_types.specs.Calls.Arguments.{write_arguments, write_append_arguments, append_arguments, copy_arguments, erase_arguments, trim_arguments, insert_arguments, delete_arguments, move_arguments, replace_arguments};
ghost use Rattle.sf_types.specs.declared.limits.TheConstants.{OBJECT_BYTES as OBJECT_SIZE};
ghost use Rattle.sf_fragment_ops.specs.EditCalls.{with_bytes, edited, answered};

use crate::{faults, places};
use sf_chunk_map::Map;
use sf_types::{Blob, Fault, Mem, TryCopy};
use std::alloc::Global;

/// What an edit is answered: a fault of its arguments, or else its number where it has one.
pub type Answer = Result<Option<u64>, Fault>;

// The fresh bytes of a buffer.
fn fresh(alloc: Global, buffer: &Blob) -> Mem<Map>
    requires { length buffer.now ≤ OBJECT_SIZE }
    ensures { IfOk result (λ map. map.bytes ≡ fresh_bytes buffer.now) }
{
    Map::of_blob(alloc, buffer.copy()?)
}

// Write.
pub fn write(alloc: Global, value: &mut Map, offset: u64, buffer: &Blob) -> Mem<Answer>
    ensures value { OnOk result (value.new ≡ edited (first_refusal (write_arguments offset buffer.now)) value.old (with_bytes value.old (edits.put zero_byte value.old.bytes offset (fresh_bytes buffer.now)))) }
    ensures answer { IfOk result (λ answer. answer ≡ answered (first_refusal (write_arguments offset buffer.now)) None) }
    ensures err { OnErr result (value.new ≡ value.old) }
{
    if let Some(fault) = faults::write_fault(offset, buffer) {
        return Ok(Err(fault));
    }
    places::put(alloc, value, offset, fresh(alloc, buffer)?)?;
    Ok(Ok(None))
}

// WriteAppend.
pub fn write_append(alloc: Global, value: &mut Map, buffer: &Blob) -> Mem<Answer>
    ensures value { OnOk result (value.new ≡ edited (first_refusal (write_append_arguments buffer.now (size_of value.old))) value.old (with_bytes value.old (value.old.bytes ++ fresh_bytes buffer.now))) }
    ensures answer { IfOk result (λ answer. answer ≡ answered (first_refusal (write_append_arguments buffer.now (size_of value.old))) None) }
    ensures err { OnErr result (value.new ≡ value.old) }
{
    if let Some(fault) = faults::write_append_fault(buffer, value.len()) {
        return Ok(Err(fault));
    }
    places::add_last(value, fresh(alloc, buffer)?)?;
    Ok(Ok(None))
}

// Append.
pub fn append(value: &mut Map, source: &Map) -> Mem<Answer>
    ensures value { OnOk result (value.new ≡ edited (first_refusal (append_arguments (size_of value.old) (size_of source.now))) value.old (with_bytes value.old (value.old.bytes ++ source.now.bytes))) }
    ensures answer { IfOk result (λ answer. answer ≡ answered (first_refusal (append_arguments (size_of value.old) (size_of source.now))) None) }
    ensures err { OnErr result (value.new ≡ value.old) }
{
    if let Some(fault) = faults::append_fault(value.len(), source.len()) {
        return Ok(Err(fault));
    }
    places::add_last(value, source.copy()?)?;
    Ok(Ok(None))
}

// Copy.
pub fn copy(
    alloc: Global,
    value: &mut Map,
    source: &Map,
    amount: u64,
    to: u64,
    from: u64,
) -> Mem<Answer>
    ensures value { OnOk result (value.new ≡ edited (first_refusal (copy_arguments amount to from (size_of source.now))) value.old (with_bytes value.old (edits.put zero_byte value.old.bytes to (edits.part source.now.bytes amount from)))) }
    ensures answer { IfOk result (λ answer. answer ≡ answered (first_refusal (copy_arguments amount to from (size_of source.now))) None) }
    ensures err { OnErr result (value.new ≡ value.old) }
{
    if let Some(fault) = faults::copy_fault(amount, to, from, source.len()) {
        return Ok(Err(fault));
    }
    let count = faults::copied_count(amount, from, source.len());
    places::put(alloc, value, to, source.slice(from - 1, count)?)?;
    Ok(Ok(None))
}

// Erase.
pub fn erase(alloc: Global, value: &mut Map, amount: u64, offset: u64) -> Mem<Answer>
    ensures value { OnOk result (value.new ≡ edited (first_refusal (erase_arguments amount offset)) value.old (with_bytes value.old (edits.erase zero_byte value.old.bytes amount offset))) }
    ensures answer { IfOk result (λ answer. answer ≡ answered (first_refusal (erase_arguments amount offset)) (Some (edits.erased_count value.old.bytes amount offset))) }
    ensures err { OnErr result (value.new ≡ value.old) }
{
    if let Some(fault) = faults::erase_fault(amount, offset) {
        return Ok(Err(fault));
    }
    let count = places::erase(alloc, value, amount, offset)?;
    Ok(Ok(Some(count)))
}

// Trim.
pub fn trim(alloc: Global, value: &mut Map, len: u64) -> Mem<Answer>
    ensures value { OnOk result (value.new ≡ edited (first_refusal (trim_arguments len (size_of value.old))) value.old (with_bytes value.old (edits.trim value.old.bytes len))) }
    ensures answer { IfOk result (λ answer. answer ≡ answered (first_refusal (trim_arguments len (size_of value.old))) None) }
    ensures err { OnErr result (value.new ≡ value.old) }
{
    if let Some(fault) = faults::trim_fault(len, value.len()) {
        return Ok(Err(fault));
    }
    places::trim(alloc, value, len)?;
    Ok(Ok(None))
}

// FragInsert.
pub fn frag_insert(alloc: Global, value: &mut Map, offset: u64, buffer: &Blob) -> Mem<Answer>
    ensures value { OnOk result (value.new ≡ edited (first_refusal (insert_arguments offset buffer.now (size_of value.old))) value.old (with_bytes value.old (edits.insert value.old.bytes offset (fresh_bytes buffer.now)))) }
    ensures answer { IfOk result (λ answer. answer ≡ answered (first_refusal (insert_arguments offset buffer.now (size_of value.old))) None) }
    ensures err { OnErr result (value.new ≡ value.old) }
{
    if let Some(fault) = faults::insert_fault(offset, buffer, value.len()) {
        return Ok(Err(fault));
    }
    places::insert(value, offset, fresh(alloc, buffer)?)?;
    Ok(Ok(None))
}

// FragDelete.
pub fn frag_delete(alloc: Global, value: &mut Map, amount: u64, offset: u64) -> Mem<Answer>
    ensures value { OnOk result (value.new ≡ edited (first_refusal (delete_arguments amount offset (size_of value.old))) value.old (with_bytes value.old (edits.delete value.old.bytes amount offset))) }
    ensures answer { IfOk result (λ answer. answer ≡ answered (first_refusal (delete_arguments amount offset (size_of value.old))) None) }
    ensures err { OnErr result (value.new ≡ value.old) }
{
    if let Some(fault) = faults::delete_fault(amount, offset, value.len()) {
        return Ok(Err(fault));
    }
    places::delete(alloc, value, amount, offset)?;
    Ok(Ok(None))
}

// FragMove.
pub fn frag_move(value: &mut Map, amount: u64, from: u64, to: u64) -> Mem<Answer>
    ensures value { OnOk result (value.new ≡ edited (first_refusal (move_arguments amount from to (size_of value.old))) value.old (with_bytes value.old (edits.move value.old.bytes amount from to))) }
    ensures answer { IfOk result (λ answer. answer ≡ answered (first_refusal (move_arguments amount from to (size_of value.old))) None) }
    ensures err { OnErr result (value.new ≡ value.old) }
{
    if let Some(fault) = faults::move_fault(amount, from, to, value.len()) {
        return Ok(Err(fault));
    }
    places::move_part(value, amount, from, to)?;
    Ok(Ok(None))
}

// FragReplace.
pub fn frag_replace(
    alloc: Global,
    value: &mut Map,
    old_amount: u64,
    offset: u64,
    buffer: &Blob,
) -> Mem<Answer>
    ensures value { OnOk result (value.new ≡ edited (first_refusal (replace_arguments old_amount offset buffer.now (size_of value.old))) value.old (with_bytes value.old (edits.replace value.old.bytes old_amount offset (fresh_bytes buffer.now)))) }
    ensures answer { IfOk result (λ answer. answer ≡ answered (first_refusal (replace_arguments old_amount offset buffer.now (size_of value.old))) None) }
    ensures err { OnErr result (value.new ≡ value.old) }
{
    if let Some(fault) = faults::replace_fault(old_amount, offset, buffer, value.len()) {
        return Ok(Err(fault));
    }
    places::replace(value, old_amount, offset, fresh(alloc, buffer)?)?;
    Ok(Ok(None))
}
