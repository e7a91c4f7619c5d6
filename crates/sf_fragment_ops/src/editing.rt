//! An edit by its call.
ghost use Rattle.std.specs.Prelude.{◌≡◌, IsTrue, IsSome, IfOk, OnOk, OnErr};
ghost use Rattle.std.specs.Option.{option_copied};
ghost use Rattle.sf_types.specs.Calls.WritingCalls.{result_value};
ghost use Rattle.sf_fragment_ops.specs.EditCalls.{is_edit, is_sourced, source_or_empty, edit_refusal, edited, answered, edit_number};
ghost use Rattle.sf_fragment_ops.specs.EditedValues.{edited_value};

use crate::calls::{
    Answer, append, copy, erase, frag_delete, frag_insert, frag_move, frag_replace, trim, write,
    write_append,
};
use sf_chunk_map::Map;
use sf_types::{Call, Fault, Mem, TryCopy};
use std::alloc::Global;

/// Edits a value in place, as one of the ten calls that edit bytes does. Append and Copy take bytes from the source, which has to
/// be given for them. Where a fault of the arguments refuses the call, and after want of memory, the value is as before.
pub fn edit_in(alloc: Global, value: &mut Map, call: &Call, source: Option<&Map>) -> Mem<Answer>
    requires edit { IsTrue (is_edit call.now) }
    requires source { IsTrue (is_sourced call.now) → IsSome source }
    ensures value { OnOk result (value.new ≡ edited (edit_refusal call.now value.old (source_or_empty (option_copied source.entry))) value.old (result_value call.now value.old (source_or_empty (option_copied source.entry)))) }
    ensures answer { IfOk result (λ answer. answer ≡ answered (edit_refusal call.now value.old (source_or_empty (option_copied source.entry))) (edit_number call.now value.old)) }
    ensures err { OnErr result (value.new ≡ value.old) }
{
    match (call, source) {
        (Call::Write { offset, bytes, .. }, _) => write(alloc, value, *offset, bytes),
        (Call::WriteAppend { bytes, .. }, _) => write_append(alloc, value, bytes),
        (Call::Append { .. }, Some(source)) => append(value, source),
        (
            Call::Copy {
                amount,
                to_offset,
                from_offset,
                ..
            },
            Some(source),
        ) => copy(alloc, value, source, *amount, *to_offset, *from_offset),
        (Call::Erase { amount, offset, .. }, _) => erase(alloc, value, *amount, *offset),
        (Call::Trim { length, .. }, _) => trim(alloc, value, *length),
        (Call::FragInsert { offset, bytes, .. }, _) => frag_insert(alloc, value, *offset, bytes),
        (Call::FragDelete { amount, offset, .. }, _) => frag_delete(alloc, value, *amount, *offset),
        (
            Call::FragMove {
                amount,
                from_offset,
                to_offset,
                ..
            },
            _,
        ) => frag_move(value, *amount, *from_offset, *to_offset),
        (
            Call::FragReplace {
                old_amount,
                offset,
                bytes,
                ..
            },
            _,
        ) => frag_replace(alloc, value, *old_amount, *offset, bytes),
        _ => unreachable!(),
    }
}

/// What an edit made of a value, and its number where it has one.
#[derive(Drop)]
pub struct Edited {
    pub map: Map,
    pub number: Option<u64>,
}

/// Edits a copy of a value, as `edit_in` does.
pub fn edit(
    alloc: Global,
    value: &Map,
    call: &Call,
    source: Option<&Map>,
) -> Mem<Result<Edited, Fault>>
    requires edit { IsTrue (is_edit call.now) }
    requires source { IsTrue (is_sourced call.now) → IsSome source }
    ensures { IfOk result (λ answer. answer ≡ answered (edit_refusal call.now value.now (source_or_empty (option_copied source.entry))) (edited_value call.now value.now (source_or_empty (option_copied source.entry)))) }
{
    let mut map = value.copy()?;
    match edit_in(alloc, &mut map, call, source)? {
        Ok(number) => Ok(Ok(Edited { map, number })),
        Err(fault) => Ok(Err(fault)),
    }
}
