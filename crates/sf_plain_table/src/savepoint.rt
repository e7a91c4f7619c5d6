//! Savepoints.
ghost use Rattle.std.specs.Prelude.{◌≡◌};

use crate::copies::copies;
use crate::rows::Rows;
use sf_types::{LocName, Mem, Name, TryCopy};
use std::marker::Model;

/// A savepoint, seen as that of the rules: its name, its epoch, the working values at its moment, and the rows that the session
/// had locked then.
#[derive(Drop)]
pub struct Savepoint {
    pub name: LocName,
    pub epoch: u64,
    pub working: Rows,
    pub locked: Vec<Name>,
}

impl Model for Savepoint {
    ghost use Rattle.sf_types.specs.Table.Parts.{Savepoint as TableSavepoint};

    ghost Value = { TableSavepoint };

    ghost view = { λ s. record { name = s.name; epoch = s.epoch; working = s.working; locked = s.locked.items } };
}

impl TryCopy for Savepoint {
    fn copy(&self) -> Mem<Savepoint> {
        Ok(Savepoint {
            name: self.name.copy()?,
            epoch: self.epoch,
            working: self.working.copy()?,
            locked: copies(*self.locked.allocator(), &self.locked)?,
        })
    }
}
