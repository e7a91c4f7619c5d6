//! The part of one session.
ghost use Rattle.std.specs.Prelude.{◌≡◌, IfOk, OnOk};
ghost use Rattle.std.specs.Option.{option_copied};
ghost use Rattle.sf_types.specs.Table.Parts.{new_session};
ghost use Rattle.sf_types.specs.Table.Sessions.{with_transaction, transaction_number, row_value, lacks_room};
ghost use Rattle.sf_types.specs.Calls.LocatorCalls.{locator_named};

use crate::copies::copies;
use crate::locator::Locator;
use crate::promise::{Promise, copied_promise};
use crate::rows::Rows;
use crate::savepoint::Savepoint;
use crate::value::Value;
use sf_types::{LocName, Mem, Name, NameMap, OutOfMemory, SESSION_LOCATORS, TryCopy};
use std::alloc::Global;
use std::marker::Model;

/// The part of one session, seen as that of the rules. The open transaction, where there is one, has the number of
/// transactions opened so far.
#[derive(Drop)]
pub struct Session {
    pub opened: u64,
    pub is_open: bool,
    pub working: Rows,
    pub locators: NameMap<LocName, Locator>,
    pub promise: Option<Promise>,
    pub epoch: u64,
    pub savepoints: Vec<Savepoint>,
    pub has_ended: bool,
    pub alloc: Global,
}

impl Model for Session {
    ghost use Rattle.sf_types.specs.Table.Parts.{Session as TableSession};

    ghost Value = { TableSession };

    ghost view = { λ s. record {
      opened = s.opened;
      is_open = s.is_open;
      working = s.working;
      locators = s.locators;
      promise = s.promise;
      epoch = s.epoch;
      savepoints = s.savepoints.items;
      has_ended = s.has_ended;
    } };
}

impl Session {
    /// A session that has made no call. It takes no memory.
    pub fn new(alloc: Global) -> Session
        ensures { result ≡ new_session }
    {
        Session {
            opened: 0,
            is_open: false,
            working: NameMap::new(alloc),
            locators: NameMap::new(alloc),
            promise: None,
            epoch: 0,
            savepoints: Vec::new(alloc),
            has_ended: false,
            alloc,
        }
    }

    /// The row's value for the session, where the row holds `current`.
    pub fn row_value<'a>(&'a self, current: Option<&'a Value>, row: &Name) -> Option<&'a Value>
        ensures { option_copied result ≡ row_value self.now (option_copied current.entry) row.now }
    {
        match self.working.get(row) {
            Some(state) => state.value(),
            None => current,
        }
    }

    /// The locator of a name. None exactly where it isn't there.
    pub fn locator(&self, at: &LocName) -> Option<&Locator>
        ensures { option_copied result ≡ locator_named self.now at.now }
    {
        self.locators.get(at)
    }

    /// Whether a locator of that name can't be set.
    pub fn lacks_room(&self, to: &LocName) -> bool
        ensures { result ≡ lacks_room self.now to.now }
    {
        let is_there = self.locators.get(to).is_some();
        !is_there && SESSION_LOCATORS <= self.locators.len()
    }

    /// The number of the open transaction, or 0.
    pub fn transaction_number(&self) -> u64
        ensures { result ≡ transaction_number self.now }
    {
        if self.is_open { self.opened } else { 0 }
    }

    /// Opens a transaction where none is open. A counter that stands at its end is one for which there is no memory.
    pub fn open_transaction(&mut self) -> Mem<()>
        ensures { OnOk result (self.new ≡ with_transaction self.old) }
    {
        if !self.is_open {
            self.opened = self.opened.checked_add(1).ok_or(OutOfMemory)?;
            self.is_open = true;
        }
        Ok(())
    }
}

impl TryCopy for Session {
    fn copy(&self) -> Mem<Session> {
        Ok(Session {
            opened: self.opened,
            is_open: self.is_open,
            working: self.working.copy()?,
            locators: self.locators.copy()?,
            promise: copied_promise(self.promise.as_ref())?,
            epoch: self.epoch,
            savepoints: copies(self.alloc, &self.savepoints)?,
            has_ended: self.has_ended,
            alloc: self.alloc,
        })
    }
}
