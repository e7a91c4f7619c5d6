//! A session's working values as the changes that a commit makes of them.
ghost use Rattle.std.specs.Prelude.{◌≡◌, ◌+◌, ◌++◌, false, take, slice_get, IfOk, OnOk};
ghost use Rattle.std.specs.List.{list_any};
ghost use Rattle.std.specs.Option.{option_copied, option_map_or};
ghost use Rattle.sf_types.specs.Space.Due.{has_fresh};

use crate::values::SessionValues;
use sf_chunk_map::Map;
use sf_types::{Mem, TryCopy};
use sf_versions::{Change, ChangeList};

// A copy of a row's value, or its absence.
fn copy_of(value: Option<&Map>) -> Mem<Option<Map>>
    ensures { IfOk result (λ copied. copied ≡ option_copied value.entry) }
{
    match value {
        Some(map) => Ok(Some(map.copy()?)),
        None => Ok(None),
    }
}

impl SessionValues {
    // Puts a copy of the k-th row's working value behind those of the rows before.
    fn copy_row(&self, k: usize, changes: &mut ChangeList) -> Mem<()>
        requires { changes.old ≡ take k self.now.held.working }
        ensures { OnOk result (changes.new ≡ take (k + 1) self.now.held.working) }
    {
        // The names rise.
        let _count = self.row_count();
        let Some((row, value)) = self.row(k) else {
            return Ok(());
        };
        let name = row.copy()?;
        let value = copy_of(value)?;
        changes.push(Change { name, value })?;
        Ok(())
    }

    /// A copy of the working values, as the changes that a commit makes of them.
    pub fn changes(&self) -> Mem<ChangeList>
        ensures { IfOk result (λ changes. changes ≡ self.now.held.working) }
    {
        let mut changes = ChangeList::new(self.allocator());
        for k in 0..self.row_count() {
            self.copy_row(k, &mut changes)?;
        }
        Ok(changes)
    }

    // Whether the k-th row's working value has a fresh byte.
    fn is_fresh_at(&self, k: usize) -> bool
        ensures { result ≡ option_map_or (λ row. has_fresh row.1) (slice_get self.now.held.working k) false }
    {
        match self.row(k) {
            Some((_, Some(map))) => map.fresh() > 0,
            _ => false,
        }
    }

    /// Whether some working value has a fresh byte: then a commit is due.
    pub fn has_fresh(&self) -> bool
        ensures { result ≡ list_any (λ row. has_fresh row.1) self.now.held.working }
    {
        for k in 0..self.row_count() {
            if self.is_fresh_at(k) {
                return true;
            }
        }
        false
    }
}
