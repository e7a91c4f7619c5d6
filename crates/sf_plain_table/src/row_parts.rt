//! What row calls make of a session's part.
ghost use Rattle.std.specs.Prelude.{◌≡◌, Some, None, IfOk, OnOk};
ghost use Rattle.sf_types.specs.Calls.RowCalls.{after_insert, after_delete, after_lock, after_select, after_select_as_of, row_locator};

use crate::locator::Locator;
use crate::rows::RowState;
use crate::session::Session;
use crate::value::Value;
use sf_types::{LocName, Mem, Name, TryCopy};

impl Session {
    // What Insert does to the part.
    fn insert_row(&mut self, row: Name) -> Mem<()>
        ensures { OnOk result (self.new ≡ after_insert self.old row) }
    {
        self.open_transaction()?;
        let empty = Value::empty(self.alloc);
        self.working.insert(row, RowState::new(Some(empty)))?;
        Ok(())
    }

    // What Delete does to the part.
    fn delete_row(&mut self, row: Name) -> Mem<()>
        ensures { OnOk result (self.new ≡ after_delete self.old row) }
    {
        self.open_transaction()?;
        self.working.insert(row, RowState::new(None))?;
        Ok(())
    }

    // The locator of a row's value, of a transaction.
    fn row_locator(&self, row: Name, value: Value, transaction: u64) -> Locator
        ensures { result ≡ row_locator self.now row value transaction }
    {
        let is_dirty = self.working.get(&row).is_some();
        Locator {
            row,
            value,
            transaction,
            epoch: self.epoch,
            is_dirty,
            is_lost: false,
            is_read_only: false,
        }
    }

    // What Lock does to the part, where the row has this value.
    fn lock_row(&mut self, to: LocName, row: Name, value: Value) -> Mem<()>
        ensures { OnOk result (self.new ≡ after_lock self.old to row value) }
    {
        self.open_transaction()?;
        let locator = self.row_locator(row, value, self.opened);
        self.locators.insert(to, locator)?;
        Ok(())
    }

    // What Select does to the part, where the row has this value.
    fn select_row(&mut self, to: LocName, row: Name, value: Value) -> Mem<()>
        ensures { OnOk result (self.new ≡ after_select self.old to row value) }
    {
        let locator = self.row_locator(row, value, self.transaction_number());
        self.locators.insert(to, locator)?;
        Ok(())
    }

    // What SelectAsOf does to the part, where the row had this value.
    fn select_old_row(&mut self, to: LocName, row: Name, value: Value) -> Mem<()>
        ensures { OnOk result (self.new ≡ after_select_as_of self.old to row value) }
    {
        let locator = Locator {
            row,
            value,
            transaction: 0,
            epoch: self.epoch,
            is_dirty: false,
            is_lost: false,
            is_read_only: true,
        };
        self.locators.insert(to, locator)?;
        Ok(())
    }

    // Insert on the part itself.
    fn into_inserted(mut self, row: Name) -> Mem<Session>
        ensures { IfOk result (λ part. part ≡ after_insert self row) }
    {
        match self.insert_row(row) {
            Ok(()) => Ok(self),
            Err(error) => Err(error),
        }
    }

    /// The part after an Insert.
    pub fn inserted(&self, row: &Name) -> Mem<Session>
        ensures { IfOk result (λ part. part ≡ after_insert self.now row.now) }
    {
        let name = row.copy()?;
        let part = self.copy()?;
        part.into_inserted(name)
    }

    // Delete on the part itself.
    fn into_deleted(mut self, row: Name) -> Mem<Session>
        ensures { IfOk result (λ part. part ≡ after_delete self row) }
    {
        match self.delete_row(row) {
            Ok(()) => Ok(self),
            Err(error) => Err(error),
        }
    }

    /// The part after a Delete.
    pub fn deleted(&self, row: &Name) -> Mem<Session>
        ensures { IfOk result (λ part. part ≡ after_delete self.now row.now) }
    {
        let name = row.copy()?;
        let part = self.copy()?;
        part.into_deleted(name)
    }

    // Lock on the part itself.
    fn into_locked(mut self, to: LocName, row: Name, value: Value) -> Mem<Session>
        ensures { IfOk result (λ part. part ≡ after_lock self to row value) }
    {
        match self.lock_row(to, row, value) {
            Ok(()) => Ok(self),
            Err(error) => Err(error),
        }
    }

    /// The part after a Lock of a row with this value.
    pub fn locked(&self, to: &LocName, row: &Name, value: &Value) -> Mem<Session>
        ensures { IfOk result (λ part. part ≡ after_lock self.now to.now row.now value.now) }
    {
        let to = to.copy()?;
        let name = row.copy()?;
        let copied = value.copy()?;
        let part = self.copy()?;
        part.into_locked(to, name, copied)
    }

    // Select on the part itself.
    fn into_selected(mut self, to: LocName, row: Name, value: Value) -> Mem<Session>
        ensures { IfOk result (λ part. part ≡ after_select self to row value) }
    {
        match self.select_row(to, row, value) {
            Ok(()) => Ok(self),
            Err(error) => Err(error),
        }
    }

    /// The part after a Select of a row with this value.
    pub fn selected(&self, to: &LocName, row: &Name, value: &Value) -> Mem<Session>
        ensures { IfOk result (λ part. part ≡ after_select self.now to.now row.now value.now) }
    {
        let to = to.copy()?;
        let name = row.copy()?;
        let copied = value.copy()?;
        let part = self.copy()?;
        part.into_selected(to, name, copied)
    }

    // SelectAsOf on the part itself.
    fn into_selected_old(mut self, to: LocName, row: Name, value: Value) -> Mem<Session>
        ensures { IfOk result (λ part. part ≡ after_select_as_of self to row value) }
    {
        match self.select_old_row(to, row, value) {
            Ok(()) => Ok(self),
            Err(error) => Err(error),
        }
    }

    /// The part after a SelectAsOf of a row that had this value.
    pub fn selected_old(&self, to: &LocName, row: &Name, value: &Value) -> Mem<Session>
        ensures { IfOk result (λ part. part ≡ after_select_as_of self.now to.now row.now value.now) }
    {
        let to = to.copy()?;
        let name = row.copy()?;
        let copied = value.copy()?;
        let part = self.copy()?;
        part.into_selected_old(to, name, copied)
    }
}
