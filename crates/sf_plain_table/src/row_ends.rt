//! What is told of the rows that are present.
ghost use Rattle.std.specs.Prelude.{◌≡◌, IfOk};
ghost use Rattle.sf_types.specs.Table.Versions.{present_values};
ghost use Rattle.sf_types.specs.Orders.RowEnds.{row_end, row_ends, row_ends_of};

use crate::results::bytes_in;
use crate::rows::Rows;
use crate::table::Table;
use crate::value::Value;
use crate::versions::merged_commits;
use sf_types::{List, Mem, Name, RowEnd, RowList, TryCopy, sum_of};
use std::alloc::Global;

// A row that is present: its name, its length and the digest of its bytes.
fn row_end(alloc: Global, name: &Name, value: &Value) -> Mem<RowEnd>
    ensures { IfOk result (λ end. end ≡ row_end (name.now, value.now)) }
{
    let bytes = bytes_in(alloc, &value.bytes)?;
    Ok(RowEnd {
        name: name.copy()?,
        len: value.len(),
        sum: sum_of(&bytes),
    })
}

// What is told of each row of a map that is present.
fn rows_present(alloc: Global, rows: &Rows) -> Mem<RowList>
    ensures { IfOk result (λ ends. ends ≡ row_ends (present_values rows.now)) }
{
    let mut ends = List::new(alloc);
    for (name, state) in rows.as_map() {
        if let Some(value) = state.value() {
            ends.push(row_end(alloc, name, value)?)?;
        }
    }
    Ok(ends)
}

impl Table {
    /// What is told of each row that is present, in byte order of names.
    pub fn rows(&self) -> Mem<RowList>
        ensures { IfOk result (λ rows. rows ≡ row_ends_of self.now) }
    {
        rows_present(self.alloc, &merged_commits(self.alloc, &self.commits)?)
    }
}
