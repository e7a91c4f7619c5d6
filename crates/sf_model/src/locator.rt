//! Locators.
ghost use Rattle.std.specs.Prelude.{◌≡◌};

use crate::value::Value;
use sf_types::{Exact, Name, TryCopy};
use std::alloc::AllocError;
use std::marker::Model;

/// A locator, seen as that of the table.
#[derive(Drop)]
pub struct Locator {
    pub row: Name,
    pub value: Value,
    pub transaction: u64,
    pub epoch: u64,
    pub is_dirty: bool,
    pub is_lost: bool,
    pub is_read_only: bool,
}

impl Model for Locator {
    ghost use Rattle.sf_types.specs.Table.Parts.{Locator as LocatorPart};

    ghost Value = { LocatorPart };

    ghost view = { λ l. record {
      row = l.row;
      value = l.value;
      transaction = l.transaction;
      epoch = l.epoch;
      is_dirty = l.is_dirty;
      is_lost = l.is_lost;
      is_read_only = l.is_read_only;
    } };
}

impl Clone for Locator {
    ghost is_clone = { λ locator copied. copied ≡ locator };

    fn clone(&self) -> Result<Locator, AllocError> {
        Ok(Locator {
            row: self.row.clone()?,
            value: self.value.clone()?,
            transaction: self.transaction,
            epoch: self.epoch,
            is_dirty: self.is_dirty,
            is_lost: self.is_lost,
            is_read_only: self.is_read_only,
        })
    }
}

impl Exact for Locator {
    ghost exact = { λ value copied is. is };
}
