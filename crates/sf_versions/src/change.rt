//! Changes of rows, as a commit makes them.
ghost use Rattle.std.specs.Prelude.{◌≡◌, [], ◌∷◌, ◌++◌, length, slice_get, All, OnOk, OnErr};
ghost use Rattle.std.specs.Option.{option_copied};
ghost use Rattle.std.specs.Map.{keys_of};
ghost use Rattle.std.specs.List.Sorted.{IsStrictlySortedBy};
ghost use Rattle.std.specs.declared.cmp.Ordering.TheVariants.{Less};
ghost use Rattle.sf_types.specs.Values.Names.{name_cmp};

use sf_chunk_map::Map;
use sf_types::{Mem, Name, TryCopy};
use std::alloc::Global;
use std::marker::Model;

/// A change of a row, seen as an entry of the rules' `Rows`: the row's name, and its value, None where it is made absent.
#[derive(Drop)]
pub struct Change {
    pub name: Name,
    pub value: Option<Map>,
}

impl Model for Change {
    ghost use Rattle.std.specs.Prelude.{ℕ, List, Option};
    ghost use Rattle.sf_types.specs.Values.Marks.{Value as RowValue};

    ghost Value = { List ℕ × Option RowValue };

    ghost view = { λ change. (change.name, change.value) };
}

impl TryCopy for Change {
    fn copy(&self) -> Mem<Change> {
        let value = match &self.value {
            Some(map) => Some(map.copy()?),
            None => None,
        };
        Ok(Change {
            name: self.name.copy()?,
            value,
        })
    }
}

/// The changes of a commit, seen as the rules' `Rows`: their names rise in byte order, each once.
#[derive(Drop)]
pub struct ChangeList {
    changes: Vec<Change>,
}

impl Model for ChangeList {
    ghost use Rattle.std.specs.Map.{keys_of};
    ghost use Rattle.std.specs.List.Sorted.{IsStrictlySortedBy};
    ghost use Rattle.sf_types.specs.Values.Names.{name_cmp};
    ghost use Rattle.sf_types.specs.Table.Parts.{Rows};

    ghost Value = { Rows };

    ghost view = { λ list. list.changes.items };

    ghost invariant = { λ list. IsStrictlySortedBy name_cmp (keys_of list.changes.items) };
}

impl ChangeList {
    /// No changes. It takes no memory.
    pub fn new(alloc: Global) -> ChangeList
        ensures { result ≡ [] }
    {
        ChangeList {
            changes: Vec::new(alloc),
        }
    }

    /// Puts a change last, whose name comes after all before.
    pub fn push(&mut self, change: Change) -> Mem<()>
        requires { All (λ other. name_cmp other.0 change.0 ≡ Less) self.old }
        ensures ok { OnOk result (self.new ≡ self.old ++ change ∷ []) }
        ensures err { OnErr result (self.new ≡ self.old) }
    {
        self.changes.push(change)?;
        Ok(())
    }

    /// The number of changes, whose names rise in byte order.
    pub fn len(&self) -> usize
        ensures len { result ≡ length self.now }
        ensures rising { IsStrictlySortedBy name_cmp (keys_of self.now) }
    {
        self.changes.len()
    }

    /// The change at a place, counted from 0. None exactly where the place isn't below `len()`.
    pub fn get(&self, at: usize) -> Option<&Change>
        ensures { option_copied result ≡ slice_get self.now at }
    {
        self.changes.get(at)
    }

    /// The vector of the changes.
    pub fn into_vec(self) -> Vec<Change>
        ensures changes { result.items ≡ self }
        ensures rising { IsStrictlySortedBy name_cmp (keys_of self) }
    {
        let ChangeList { changes } = self;
        changes
    }
}

impl TryCopy for ChangeList {
    fn copy(&self) -> Mem<ChangeList> {
        let mut changes = Vec::with_capacity(*self.changes.allocator(), self.changes.len())?;
        for change in &self.changes {
            changes.push(change.copy()?)?;
        }
        Ok(ChangeList { changes })
    }
}
