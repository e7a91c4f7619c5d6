//! What rows hold: values and absences by name.
ghost use Rattle.std.specs.Prelude.{◌≡◌, List, ℕ, Some, IsTrue, IfOk, OnOk};
ghost use Rattle.std.specs.Option.{option_copied};
ghost use Rattle.std.specs.List.{All};
ghost use Rattle.std.specs.List.Sorted.{IsStrictlySortedBy};
ghost use Rattle.std.specs.Map.{keys_of};
ghost use Rattle.sf_types.specs.Values.Names.{name_cmp};
ghost use Rattle.sf_types.specs.Inside.NameMaps.{get, has, with_entry};
ghost use Rattle.sf_types.specs.Table.Versions.{value_or_absent, later_change, present_values};
ghost use Rattle.sf_types.specs.Orders.RowEnds.{row_ends};
ghost use Rattle.sf_model.specs.Changes.{KeepsValues, KeepsNames};

use crate::value::Value;
use sf_types::{List, Mem, Name, NameMap, RowEnd, RowList, TryCopy};
use std::alloc::Global;

/// What a commit or a transaction says of rows: a row has a value, or is absent.
pub type Rows = NameMap<Name, Option<Value>>;

/// A row's name, and its value or absence.
pub type Change = (Name, Option<Value>);

/// The value that is said of a row, or none where it is absent or isn't named.
pub fn value_in<'a>(rows: &'a Rows, row: &Name) -> Option<&'a Value>
    ensures { option_copied result ≡ value_or_absent (get rows.now row.now) }
{
    match rows.get(row) {
        Some(said) => said.as_ref(),
        None => None,
    }
}

fn copied_value(value: &Option<Value>) -> Mem<Option<Value>>
    ensures { IfOk result (λ copied. copied ≡ value.now) }
{
    match value {
        Some(value) => Ok(Some(value.copy()?)),
        None => Ok(None),
    }
}

/// The entries of a map, as copies.
pub fn changes_of(alloc: Global, rows: &Rows) -> Mem<Vec<Change>>
    ensures { IfOk result (λ changes. changes.items ≡ rows.now) }
{
    let mut changes = Vec::new(alloc);
    for (name, value) in rows.as_map() {
        changes.push((name.copy()?, copied_value(value)?))?;
    }
    Ok(changes)
}

// Names a row, which is absent where it wasn't named before.
fn name_row(rows: &mut Rows, row: &Name) -> Mem<()>
    ensures same { KeepsValues rows.old rows.new }
    ensures keeps { KeepsNames rows.old rows.new }
    ensures there { OnOk result (IsTrue (has rows.new row.now)) }
{
    match rows.get(row) {
        Some(_) => Ok(()),
        None => {
            rows.insert(row.copy()?, None)?;
            Ok(())
        }
    }
}

/// Names the rows of all changes, so that `apply_changes` wants no memory. It changes nothing of what is said.
pub fn name_rows(rows: &mut Rows, changes: &[Change]) -> Mem<()>
    ensures same { KeepsValues rows.old rows.new }
    ensures there { OnOk result (All (λ change. IsTrue (has rows.new change.0)) changes.now) }
{
    for (name, _) in changes {
        name_row(rows, name)?;
    }
    Ok(())
}

/// Says what the changes say, each of a row that is named. It takes no memory.
pub fn apply_changes(rows: &mut Rows, changes: Vec<Change>)
    requires { All (λ change. IsTrue (has rows.old change.0)) changes.items }
    ensures { (q : List ℕ) → get rows.new q ≡ later_change (get rows.old q) (get changes.items q) }
{
    let mut left = changes;
    while let Some((name, value)) = left.pop() {
        apply_change(rows, name, value);
    }
}

// Says one change of a row that is named.
fn apply_change(rows: &mut Rows, name: Name, value: Option<Value>)
    requires { IsTrue (has rows.old name) }
    ensures { rows.new ≡ with_entry rows.old name value }
{
    rows.replace(name, value);
}

/// What is told of each row that is present, in byte order of names.
pub fn rows_present(alloc: Global, rows: &Rows) -> Mem<RowList>
    ensures ends { IfOk result (λ ends. ends ≡ row_ends (present_values rows.now)) }
    ensures ordered { IsStrictlySortedBy name_cmp (keys_of rows.now) }
{
    let mut ends = List::new(alloc);
    for (name, said) in rows.as_map() {
        if let Some(value) = said {
            ends.push(RowEnd {
                name: name.copy()?,
                len: value.len(),
                sum: value.sum(),
            })?;
        }
    }
    Ok(ends)
}
