//! Row calls.
ghost use Rattle.std.specs.Prelude.{◌≡◌, IsTrue, IfOk};
ghost use Rattle.sf_types.specs.Table.Sessions.{has_session, session_of};
ghost use Rattle.sf_types.specs.Calls.RowCalls.{insert_call, delete_call, lock_call, select_call, select_as_of_call};

use crate::table::Table;
use sf_types::{Fault, LocName, Mem, Name, Reply};

impl Table {
    /// Insert.
    pub fn insert(&mut self, s: u16, row: &Name) -> Mem<Reply>
        requires { IsTrue (has_session self.old s) }
        ensures { IfOk result (λ reply. (self.new, reply) ≡ insert_call self.old s (session_of self.old s) row.now) }
    {
        if self.is_busy(s, row) {
            return Ok(Reply::Refused(Fault::Busy));
        }
        if self.is_present(s, row) {
            return Ok(Reply::Refused(Fault::Duplicate));
        }
        let part = self.part(s).inserted(row)?;
        self.put_part(s, part);
        self.take_lock(s, row)?;
        Ok(Reply::Done)
    }

    /// Delete.
    pub fn delete(&mut self, s: u16, row: &Name) -> Mem<Reply>
        requires { IsTrue (has_session self.old s) }
        ensures { IfOk result (λ reply. (self.new, reply) ≡ delete_call self.old s (session_of self.old s) row.now) }
    {
        if self.is_busy(s, row) {
            return Ok(Reply::Refused(Fault::Busy));
        }
        if self.is_absent(s, row) {
            return Ok(Reply::Refused(Fault::NoSuchRow));
        }
        let part = self.part(s).deleted(row)?;
        self.put_part(s, part);
        self.take_lock(s, row)?;
        Ok(Reply::Done)
    }

    /// Lock.
    pub fn lock(&mut self, s: u16, to: &LocName, row: &Name) -> Mem<Reply>
        requires { IsTrue (has_session self.old s) }
        ensures { IfOk result (λ reply. (self.new, reply) ≡ lock_call self.old s (session_of self.old s) to.now row.now) }
    {
        if self.part(s).lacks_room(to) {
            return Ok(Reply::Refused(Fault::TooManyLocators));
        }
        if self.is_busy(s, row) {
            return Ok(Reply::Refused(Fault::Busy));
        }
        let Some(value) = self.row_value(s, row) else {
            return Ok(Reply::Refused(Fault::NoSuchRow));
        };
        let part = self.part(s).locked(to, row, value)?;
        self.put_part(s, part);
        self.take_lock(s, row)?;
        Ok(Reply::Done)
    }

    /// Select.
    pub fn select(&mut self, s: u16, to: &LocName, row: &Name) -> Mem<Reply>
        requires { IsTrue (has_session self.old s) }
        ensures { IfOk result (λ reply. (self.new, reply) ≡ select_call self.old s (session_of self.old s) to.now row.now) }
    {
        if self.part(s).lacks_room(to) {
            return Ok(Reply::Refused(Fault::TooManyLocators));
        }
        let Some(value) = self.row_value(s, row) else {
            return Ok(Reply::Refused(Fault::NoSuchRow));
        };
        let part = self.part(s).selected(to, row, value)?;
        self.put_part(s, part);
        Ok(Reply::Done)
    }

    /// SelectAsOf.
    pub fn select_as_of(&mut self, s: u16, to: &LocName, row: &Name, n: u64) -> Mem<Reply>
        requires { IsTrue (has_session self.old s) }
        ensures { IfOk result (λ reply. (self.new, reply) ≡ select_as_of_call self.old s (session_of self.old s) to.now row.now n) }
    {
        if self.part(s).lacks_room(to) {
            return Ok(Reply::Refused(Fault::TooManyLocators));
        }
        if self.commit_count() < n {
            return Ok(Reply::Refused(Fault::FutureCommit));
        }
        if n < self.floor {
            return Ok(Reply::Refused(Fault::TooOld));
        }
        let Some(value) = self.value_at(row, n) else {
            return Ok(Reply::Refused(Fault::NoSuchRow));
        };
        let part = self.part(s).selected_old(to, row, value)?;
        self.put_part(s, part);
        Ok(Reply::Done)
    }
}
