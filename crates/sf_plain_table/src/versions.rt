//! What rows hold after some commits.
ghost use Rattle.std.specs.Prelude.{◌≡◌, [], unwrap_or, IfOk, OnOk};
ghost use Rattle.std.specs.Option.{option_copied};
ghost use Rattle.std.specs.List.Sorted.{IsStrictlySortedBy};
ghost use Rattle.std.specs.Map.{keys_of};
ghost use Rattle.sf_types.specs.Values.Names.{name_cmp};
ghost use Rattle.sf_types.specs.Inside.NameMaps.{get};
ghost use Rattle.sf_types.specs.Table.Versions.{value_or_absent, last_change, overlay, merged_commits};

use crate::rows::{RowState, Rows};
use crate::value::Value;
use sf_types::{Mem, Name, NameMap, TryCopy};
use std::alloc::Global;

// What a commit says of a row, or what those before it say where it doesn't name the row.
fn value_over<'a>(rows: &'a Rows, earlier: Option<&'a Value>, row: &Name) -> Option<&'a Value>
    ensures { option_copied result ≡ unwrap_or (get rows.now row.now) (option_copied earlier.entry) }
{
    match rows.get(row) {
        Some(state) => state.value(),
        None => earlier,
    }
}

/// The value of a row after some commits. None where it is absent.
pub fn value_after<'a>(commits: &'a [Rows], row: &Name) -> Option<&'a Value>
    ensures { option_copied result ≡ value_or_absent (last_change commits.now row.now) }
{
    let mut value = None;
    for rows in commits {
        value = value_over(rows, value, row);
    }
    value
}

// The entries of a map, as copies.
fn entries_of(alloc: Global, rows: &Rows) -> Mem<Vec<(Name, RowState)>>
    ensures { IfOk result (λ entries. entries.items ≡ rows.now) }
{
    let mut entries = Vec::new(alloc);
    for (name, state) in rows.as_map() {
        entries.push((name.copy()?, state.copy()?))?;
    }
    Ok(entries)
}

// Puts entries over a map, the first one last.
fn put_entries(merged: &mut Rows, entries: Vec<(Name, RowState)>) -> Mem<()>
    ensures { OnOk result (merged.new ≡ overlay merged.old entries.items) }
{
    let mut left = entries;
    while let Some((name, state)) = left.pop() {
        merged.insert(name, state)?;
    }
    Ok(())
}

/// The map of entries whose names rise.
#[tactic(auto, using(crate::proofs::CommitLemmas::overlay_rising))]
pub fn map_of(alloc: Global, entries: Vec<(Name, RowState)>) -> Mem<Rows>
    requires { IsStrictlySortedBy name_cmp (keys_of entries.items) }
    ensures { IfOk result (λ rows. rows ≡ entries.items) }
{
    let mut rows = NameMap::new(alloc);
    put_entries(&mut rows, entries)?;
    Ok(rows)
}

/// All commits in one map, each over those before it.
pub fn merged_commits(alloc: Global, commits: &[Rows]) -> Mem<Rows>
    ensures { IfOk result (λ merged. merged ≡ merged_commits [] commits.now) }
{
    let mut merged = NameMap::new(alloc);
    for rows in commits {
        put_entries(&mut merged, entries_of(alloc, rows)?)?;
    }
    Ok(merged)
}

/// Copies of commits, in order.
pub fn copied_commits(alloc: Global, commits: &[Rows]) -> Mem<Vec<Rows>>
    ensures { IfOk result (λ copied. copied.items ≡ commits.now) }
{
    let mut copied = Vec::new(alloc);
    for rows in commits {
        copied.push(rows.copy()?)?;
    }
    Ok(copied)
}
