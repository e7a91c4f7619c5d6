//! Values with their fresh bytes stored.
ghost use Rattle.std.specs.Prelude.{◌≡◌, ◌++◌, take, drop, length, IfOk, OnOk};
ghost use Rattle.std.specs.List.Sorted.{IsStrictlySortedBy};
ghost use Rattle.std.specs.Map.{keys_of};
ghost use Rattle.sf_types.specs.Values.Names.{name_cmp};
ghost use Rattle.sf_types.specs.Space.Cuts.{stored_bytes, settle_contents, settle_segments, settle_value, settle};
ghost use Rattle.sf_plain_table.specs.Inside.Settlings.{marked_content, settled_segment, segment_count, settled_state, state_count};

use crate::cuts::{contents_of_segment, contents_of_value};
use crate::edits::{behind, front};
use crate::marked::{Mark, Marked};
use crate::results::fresh_bytes;
use crate::rows::{RowState, Rows};
use crate::segments::{Segment, segments_of};
use crate::value::Value;
use crate::versions::map_of;
use sf_types::{Blob, Mem, Name, TryCopy};
use std::alloc::Global;
use std::collections::VecDeque;

// The bytes of a whole content as stored by its birth.
fn stored_bytes(alloc: Global, birth: u128, content: &Blob) -> Mem<Vec<Marked>>
    ensures { IfOk result (λ marked. marked.items ≡ stored_bytes birth content.now) }
{
    let bytes = content.as_bytes();
    let mut marked = Vec::new(alloc);
    for index in 0..bytes.len() {
        marked.push(Marked {
            byte: bytes[index],
            mark: Mark::Stored {
                birth,
                index: index as u64,
            },
        })?;
    }
    Ok(marked)
}

// A content stored by the first of some births, and fresh where there is none.
fn marked_content(alloc: Global, content: &Blob, births: &[u128]) -> Mem<Vec<Marked>>
    ensures { IfOk result (λ marked. marked.items ≡ marked_content content.now births.now) }
{
    match births.first() {
        Some(birth) => stored_bytes(alloc, *birth, content),
        None => fresh_bytes(alloc, content),
    }
}

// Contents, each stored by its birth.
fn settled_contents(alloc: Global, contents: &[Blob], births: &[u128]) -> Mem<Vec<Marked>>
    ensures { IfOk result (λ marked. marked.items ≡ settle_contents contents.now births.now) }
{
    let mut marked = Vec::new(alloc);
    let mut rest = births;
    for content in contents {
        marked.append(&mut marked_content(alloc, content, rest)?)?;
        rest = behind(rest, 1);
    }
    Ok(marked)
}

// The bytes of a segment with its contents stored by the first of some births.
fn settled_segment(alloc: Global, segment: &Segment, births: &[u128]) -> Mem<Vec<Marked>>
    ensures { IfOk result (λ marked. marked.items ≡ settled_segment segment.now births.now) }
{
    if !segment.is_stretch() {
        return segment.marked(alloc);
    }
    let contents = contents_of_segment(alloc, segment)?;
    settled_contents(alloc, &contents, front(births, contents.len() as u64))
}

// How many contents a segment makes.
fn segment_count(alloc: Global, segment: &Segment) -> Mem<u64>
    ensures { IfOk result (λ count. count ≡ segment_count segment.now) }
{
    Ok(contents_of_segment(alloc, segment)?.len() as u64)
}

// Segments with their contents stored by births.
fn settled_segments(
    alloc: Global,
    mut segments: VecDeque<Segment>,
    births: &[u128],
) -> Mem<Vec<Marked>>
    ensures { IfOk result (λ marked. marked.items ≡ settle_segments segments.items births.now) }
{
    let mut marked = Vec::new(alloc);
    let mut rest = births;
    while let Some(segment) = segments.pop_front() {
        marked.append(&mut settled_segment(alloc, &segment, rest)?)?;
        rest = behind(rest, segment_count(alloc, &segment)?);
    }
    Ok(marked)
}

/// A value settled by the births of its cuts.
pub fn settle_value(alloc: Global, value: &Value, births: &[u128]) -> Mem<Value>
    ensures { IfOk result (λ settled. settled ≡ settle_value value.now births.now) }
{
    let segments = segments_of(alloc, &value.bytes)?;
    Ok(Value {
        bytes: settled_segments(alloc, segments, births)?,
        choice: value.choice,
    })
}

// How many births the value of a row takes.
fn state_count(alloc: Global, state: &RowState) -> Mem<u64>
    ensures { IfOk result (λ count. count ≡ state_count state.now) }
{
    match state.value() {
        Some(value) => Ok(contents_of_value(alloc, value)?.len() as u64),
        None => Ok(0),
    }
}

// What is said of a row, with its value settled by the first of some births.
fn settled_state(alloc: Global, state: &RowState, births: &[u128]) -> Mem<RowState>
    ensures { IfOk result (λ settled. settled ≡ settled_state state.now births.now) }
{
    match state.value() {
        Some(value) => {
            let count = contents_of_value(alloc, value)?.len() as u64;
            let settled = settle_value(alloc, value, front(births, count))?;
            Ok(RowState::new(Some(settled)))
        }
        None => Ok(RowState::new(None)),
    }
}

// The entries of rows, settled by the births of their cuts.
fn settled_entries(alloc: Global, rows: &Rows, births: &[u128]) -> Mem<Vec<(Name, RowState)>>
    ensures settled { IfOk result (λ entries. entries.items ≡ settle rows.now births.now) }
    ensures ordered { IsStrictlySortedBy name_cmp (keys_of rows.now) }
{
    let mut entries = Vec::new(alloc);
    let mut rest = births;
    for (name, state) in rows.as_map() {
        entries.push((name.copy()?, settled_state(alloc, state, rest)?))?;
        rest = behind(rest, state_count(alloc, state)?);
    }
    Ok(entries)
}

/// The rows settled by the births of their cuts.
pub fn settle(alloc: Global, rows: &Rows, births: &[u128]) -> Mem<Rows>
    ensures { IfOk result (λ settled. settled ≡ settle rows.now births.now) }
{
    let entries = settled_entries(alloc, rows, births)?;
    map_of(alloc, entries)
}
