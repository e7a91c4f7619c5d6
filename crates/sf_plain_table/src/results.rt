//! What a writing call makes of a value.
ghost use Rattle.std.specs.Prelude.{◌≡◌, ◌++◌, map, IfOk};
ghost use Rattle.sf_types.specs.Values.Marks.{fresh_bytes, bytes_in};
ghost use Rattle.sf_types.specs.Calls.WritingCalls.{result_bytes, result_choice, result_value, write_reply};

use crate::edits;
use crate::marked::Marked;
use crate::value::Value;
use sf_types::{Blob, Call, Choice, Mem, Reply};
use std::alloc::Global;

/// The bytes of a buffer, all of them fresh.
pub fn fresh_bytes(alloc: Global, buffer: &Blob) -> Mem<Vec<Marked>>
    ensures { IfOk result (λ marked. marked.items ≡ fresh_bytes buffer.now) }
{
    let bytes = buffer.as_bytes();
    let mut marked = Vec::new(alloc);
    for byte in bytes {
        marked.push(Marked::fresh(*byte))?;
    }
    Ok(marked)
}

/// Marked bytes without their marks.
pub fn bytes_in(alloc: Global, marked: &[Marked]) -> Mem<Vec<u8>>
    ensures { IfOk result (λ bytes. bytes.items ≡ bytes_in marked.now) }
{
    let mut bytes = Vec::new(alloc);
    for m in marked {
        bytes.push(m.byte)?;
    }
    Ok(bytes)
}

// A value's bytes and others behind them.
fn longer(mut bytes: Vec<Marked>, others: &[Marked]) -> Mem<Vec<Marked>>
    ensures { IfOk result (λ all. all.items ≡ bytes.items ++ others.now) }
{
    bytes.extend_from_slice(others)?;
    Ok(bytes)
}

// The bytes that a writing call makes of a value's and its source's.
fn result_bytes(call: &Call, mut v: Vec<Marked>, source: &[Marked]) -> Mem<Vec<Marked>>
    ensures { IfOk result (λ made. made.items ≡ result_bytes call.now v.items source.now) }
{
    let alloc = *v.allocator();
    match call {
        Call::Write { offset, bytes, .. } => {
            edits::put(Marked::zero(), &mut v, *offset, &fresh_bytes(alloc, bytes)?)?;
            Ok(v)
        }
        Call::WriteAppend { bytes, .. } => longer(v, &fresh_bytes(alloc, bytes)?),
        Call::Append { .. } => longer(v, source),
        Call::Copy {
            amount,
            to_offset,
            from_offset,
            ..
        } => {
            let copied = edits::part(source, *amount, *from_offset);
            edits::put(Marked::zero(), &mut v, *to_offset, copied)?;
            Ok(v)
        }
        Call::Erase { amount, offset, .. } => {
            edits::erase(Marked::zero(), &mut v, *amount, *offset)?;
            Ok(v)
        }
        Call::Trim { length, .. } => {
            edits::trim(&mut v, *length);
            Ok(v)
        }
        Call::FragInsert { offset, bytes, .. } => {
            edits::insert(&mut v, *offset, &fresh_bytes(alloc, bytes)?)?;
            Ok(v)
        }
        Call::FragDelete { amount, offset, .. } => {
            edits::delete(&mut v, *amount, *offset)?;
            Ok(v)
        }
        Call::FragMove {
            amount,
            from_offset,
            to_offset,
            ..
        } => {
            edits::shift(&mut v, *amount, *from_offset, *to_offset)?;
            Ok(v)
        }
        Call::FragReplace {
            old_amount,
            offset,
            bytes,
            ..
        } => {
            edits::replace(&mut v, *old_amount, *offset, &fresh_bytes(alloc, bytes)?)?;
            Ok(v)
        }
        _ => Ok(v),
    }
}

// The choice after a writing call.
fn result_choice(call: &Call, before: Choice) -> Choice
    ensures { result ≡ result_choice call.now before }
{
    match call {
        Call::SetOptions { share, .. } => { if *share { Choice::Share } else { Choice::Keep } }
        _ => before,
    }
}

/// The value that a writing call makes of a row's value and its source's.
pub fn result_value(call: &Call, value: Value, source: &Value) -> Mem<Value>
    ensures { IfOk result (λ made. made ≡ result_value call.now value source.now) }
{
    let Value { bytes, choice } = value;
    Ok(Value {
        bytes: result_bytes(call, bytes, &source.bytes)?,
        choice: result_choice(call, choice),
    })
}

/// The reply to a writing call that is done on a value.
pub fn write_reply(call: &Call, value: &Value) -> Reply
    ensures { result ≡ write_reply call.now value.now }
{
    match call {
        Call::Erase { amount, offset, .. } => {
            Reply::Number(edits::part(&value.bytes, *amount, *offset).len() as u64)
        }
        _ => Reply::Done,
    }
}
