//! Locators, through which a session reads and writes a row's value.
ghost use Rattle.std.specs.Prelude.{◌≡◌};
ghost use Rattle.sf_types.specs.Calls.Savepoints.{lost_locator};
ghost use Rattle.sf_locators.specs.Inside.LocatorFaults.{fault_through};

use sf_chunk_map::Map;
use sf_types::{Fault, Mem, Name, TryCopy};
use std::alloc::Global;
use std::marker::Model;

/// A locator, seen as that of the table: its row, its own value, the number of the transaction in which it may be written
/// through (0 for any), the session's epoch when it was written through, whether it was written through in the open
/// transaction, whether it lost its value to a rollback, and whether it may only be read.
#[derive(Drop)]
pub struct Locator {
    pub row: Name,
    pub map: Map,
    pub txn: u64,
    pub epoch: u64,
    pub dirty: bool,
    pub lost: bool,
    pub read_only: bool,
}

impl Model for Locator {
    ghost use Rattle.sf_types.specs.Table.Parts.{Locator as TableLocator};

    ghost Value = { TableLocator };

    ghost view = { λ l. record {
      row = l.row;
      value = l.map;
      transaction = l.txn;
      epoch = l.epoch;
      is_dirty = l.dirty;
      is_lost = l.lost;
      is_read_only = l.read_only;
    } };
}

impl Locator {
    // Takes the value away, and leaves an empty one. It takes no memory.
    pub(crate) fn lose(&mut self, alloc: Global)
        ensures { self.new ≡ lost_locator self.old }
    {
        self.map = Map::empty(alloc);
        self.lost = true;
    }

    // The first fault of a write through this locator, in a transaction with this number (0 for none), where the session
    // holds the row's lock or doesn't.
    pub(crate) fn write_fault(&self, txn: u64, held: bool) -> Option<Fault>
        ensures { result ≡ fault_through self.now txn held }
    {
        if self.lost {
            Some(Fault::Lost)
        } else if self.read_only {
            Some(Fault::ReadOnly)
        } else if self.txn != 0 && self.txn != txn {
            Some(Fault::SpansTransactions)
        } else if !held {
            Some(Fault::RowNotLocked)
        } else {
            None
        }
    }
}

impl TryCopy for Locator {
    fn copy(&self) -> Mem<Locator> {
        Ok(Locator {
            row: self.row.copy()?,
            map: self.map.copy()?,
            txn: self.txn,
            epoch: self.epoch,
            dirty: self.dirty,
            lost: self.lost,
            read_only: self.read_only,
        })
    }
}
