//! Locators.
ghost use Rattle.std.specs.Prelude.{◌≡◌};
ghost use Rattle.sf_types.specs.Calls.Savepoints.{lost_locator};

use crate::value::Value;
use sf_types::{Exact, Mem, Name, TryCopy};
use std::alloc::{AllocError, Global};
use std::marker::Model;

/// A locator, seen as that of the rules. The transaction's number is 0 for none.
#[derive(Drop)]
pub struct Locator {
    pub row: Name,
    pub value: Value,
    pub transaction: u64,
    pub epoch: u64,
    pub is_dirty: bool,
    pub is_lost: bool,
    pub is_read_only: bool,
}

impl Model for Locator {
    ghost use Rattle.sf_types.specs.Table.Parts.{Locator as TableLocator};

    ghost Value = { TableLocator };

    ghost view = { λ l. record {
      row = l.row;
      value = l.value;
      transaction = l.transaction;
      epoch = l.epoch;
      is_dirty = l.is_dirty;
      is_lost = l.is_lost;
      is_read_only = l.is_read_only;
    } };
}

impl Locator {
    /// Makes the locator lost, with an empty value.
    pub fn lose(&mut self, alloc: Global)
        ensures { self.new ≡ lost_locator self.old }
    {
        self.value = Value::empty(alloc);
        self.is_lost = true;
    }
}

impl Clone for Locator {
    ghost is_clone = { λ locator copied. copied ≡ locator };

    fn clone(&self) -> Result<Locator, AllocError> {
        Ok(Locator {
            row: self.row.clone()?,
            value: self.value.clone()?,
            transaction: self.transaction,
            epoch: self.epoch,
            is_dirty: self.is_dirty,
            is_lost: self.is_lost,
            is_read_only: self.is_read_only,
        })
    }
}

impl Exact for Locator {
    ghost exact = { λ locator copied is. is };
}

impl TryCopy for Locator {
    fn copy(&self) -> Mem<Locator> {
        Ok(self.clone()?)
    }
}
