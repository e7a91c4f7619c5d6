//! A session's own part.
ghost use Rattle.std.specs.Prelude.{◌≡◌, ◌≤◌, ◌<◌, [], ◌++◌, OnOk, OnErr};
ghost use Rattle.std.specs.Option.{option_copied};
ghost use Rattle.sf_types.specs.Inside.NameMaps.{get};
ghost use Rattle.sf_types.specs.Table.Parts.{new_session};
ghost use Rattle.sf_types.specs.Table.Sessions.{transaction_number, row_value};
ghost use Rattle.sf_types.specs.Halves.Own.{Own, has_lock, held_value};
ghost use Rattle.sf_own_part.specs.Readiness.{IsReady};

use crate::savepoint::Savepoint;
use sf_chunk_map::Map;
use sf_locators::Locators;
use sf_session_values::SessionValues;
use sf_sorted_map::SortedMap;
use sf_types::{Mem, Name, OutOfMemory};
use std::alloc::Global;
use std::marker::Model;

/// A session's own part, seen as the rules' `Own`, with room for more working values, locators and locked rows.
#[derive(Drop)]
pub struct OwnPart {
    pub(crate) opened: u64,
    pub(crate) is_open: bool,
    pub(crate) values: SessionValues,
    pub(crate) epoch: u64,
    pub(crate) savepoints: Vec<Savepoint>,
    pub(crate) ended: bool,
    pub(crate) rows: SortedMap<Name, Option<Map>>,
    pub(crate) alloc: Global,
}

impl Model for OwnPart {
    ghost use Rattle.std.specs.Prelude.{min, None};
    ghost use Rattle.sf_types.specs.Rooms.{Roomy};
    ghost use Rattle.sf_types.specs.Halves.Own.{Own};

    ghost Value = { Roomy Own };

    ghost view = { λ own. record {
      held = record {
        part = record {
          opened = own.opened;
          is_open = own.is_open;
          working = own.values.held.working;
          locators = own.values.held.locators;
          promise = None;
          epoch = own.epoch;
          savepoints = own.savepoints.items;
          has_ended = own.ended;
        };
        rows = own.rows.held;
      };
      spare = min own.values.spare own.rows.spare;
    } };
}

impl OwnPart {
    /// The own part of a session that has made no call. It takes no memory.
    pub fn new(alloc: Global) -> OwnPart
        ensures { result.held ≡ record { part = new_session; rows = [] } }
    {
        OwnPart {
            opened: 0,
            is_open: false,
            values: SessionValues::new(alloc),
            epoch: 0,
            savepoints: Vec::new(alloc),
            ended: false,
            rows: SortedMap::new(alloc),
            alloc,
        }
    }

    /// Makes the own part ready for one call more: there is room for one working value, locator and locked row, and neither
    /// the transactions nor the epochs that a session can count are used up, which takes 2^64 - 1 calls; they are answered as want
    /// of memory. Nothing that is held changes.
    pub fn make_ready(&mut self) -> Mem<()>
        ensures held { self.new.held ≡ self.old.held }
        ensures ready { OnOk result (IsReady self.new) }
    {
        if self.opened == u64::MAX || self.epoch == u64::MAX {
            return Err(OutOfMemory);
        }
        self.values.make_room(1)?;
        self.rows.make_room(1)
    }

    /// Whether the session has ended.
    pub fn has_ended(&self) -> bool
        ensures { result ≡ self.now.held.part.has_ended }
    {
        self.ended
    }

    /// The locators.
    pub fn locators(&self) -> &Locators
        ensures { result.now.held ≡ self.now.held.part.locators }
    {
        self.values.locators()
    }

    /// The number of the open transaction, or 0.
    pub fn transaction_number(&self) -> u64
        ensures { result ≡ transaction_number self.now.held.part }
    {
        if self.is_open { self.opened } else { 0 }
    }

    /// Whether the session holds a row's lock.
    pub fn has_lock(&self, row: &Name) -> bool
        ensures { result ≡ has_lock self.now.held row.now }
    {
        self.rows.get(row).is_some()
    }

    /// What a row holds whose lock the session holds. None where it is absent, or the session doesn't hold the lock.
    pub fn held_value(&self, row: &Name) -> Option<&Map>
        ensures { option_copied result ≡ held_value self.now.held row.now }
    {
        match self.rows.get(row) {
            Some(Some(map)) => Some(map),
            _ => None,
        }
    }

    /// The value of a row in the session's transaction: its working value where it has one, else what it holds.
    pub fn row_value(&self, row: &Name) -> Option<&Map>
        ensures { option_copied result ≡ row_value self.now.held.part (held_value self.now.held row.now) row.now }
    {
        match self.values.working(row) {
            Some(value) => value,
            None => self.held_value(row),
        }
    }
}
