//! Savepoints of a session.
ghost use Rattle.std.specs.Prelude.{◌≡◌, IfOk};
ghost use Rattle.std.specs.List.{list_any};
ghost use Rattle.sf_types.specs.Inside.Births.{rising_births};
ghost use Rattle.sf_types.specs.Inside.NameMaps.{is_same_name};
ghost use Rattle.sf_session_values.specs.ValueBirths.{births_of_rows};

use sf_birth_union::BirthUnion;
use sf_session_values::add_change_births;
use sf_sorted_map::SortedMap;
use sf_types::{Births, LocName, Mem, Name};
use sf_versions::ChangeList;
use std::alloc::Global;
use std::marker::Model;

/// A savepoint, seen as that of the table: its name, its epoch, the working values at its moment, and the rows that the
/// session had locked then. It keeps the births of its working values.
#[derive(Drop)]
pub struct Savepoint {
    pub name: LocName,
    pub epoch: u64,
    pub working: ChangeList,
    pub(crate) births: Births,
    pub locked: SortedMap<Name, ()>,
}

impl Model for Savepoint {
    ghost use Rattle.std.specs.Prelude.{◌≡◌};
    ghost use Rattle.std.specs.Map.{keys_of};
    ghost use Rattle.sf_types.specs.Inside.Births.{rising_births};
    ghost use Rattle.sf_types.specs.Table.Parts.{Savepoint as TableSavepoint};
    ghost use Rattle.sf_session_values.specs.ValueBirths.{births_of_rows};

    ghost Value = { TableSavepoint };

    ghost view = { λ s. record { name = s.name; epoch = s.epoch; working = s.working; locked = keys_of s.locked.held } };

    ghost invariant = { λ s. s.births ≡ rising_births (births_of_rows s.working) };
}

/// The births of the values that changes give to rows.
pub fn births_of_changes(alloc: Global, changes: &ChangeList) -> Mem<Births>
    ensures { IfOk result (λ births. births ≡ rising_births (births_of_rows changes.now)) }
{
    let mut births = BirthUnion::new(alloc);
    add_change_births(changes, &mut births)?;
    births.into_births()
}

impl Savepoint {
    /// Whether the session had locked a row at the savepoint's moment. It costs in proportion to the logarithm of how many rows it
    /// had locked.
    pub fn names_row(&self, row: &Name) -> bool
        ensures { result ≡ list_any (is_same_name row.now) self.now.locked }
    {
        self.locked.get(row).is_some()
    }
}
