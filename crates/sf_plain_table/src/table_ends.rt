//! The ends of transactions, and rollbacks to savepoints.
ghost use Rattle.std.specs.Prelude.{◌≡◌, ◌+◌, IsTrue, IfOk};
ghost use Rattle.sf_types.specs.Table.Sessions.{has_session, session_of};
ghost use Rattle.sf_types.specs.Calls.Savepoints.{rollback_to_call};
ghost use Rattle.sf_types.specs.Calls.TransactionEnds.{floor_after, commit_call, rollback_call, end_call};

use crate::session::Session;
use crate::table::Table;
use sf_types::{Fault, LocName, Mem, Options, Reply, TryCopy};

// The floor after the commit that makes the number of commits `count`.
fn floor_after(options: &Options, floor: u64, count: u64) -> u64
    ensures { result ≡ floor_after options.now floor count }
{
    if options.max {
        floor
    } else {
        floor.max(count.saturating_sub(u64::from(options.retention)))
    }
}

impl Table {
    /// Commit of a session whose part this is.
    pub fn commit(&mut self, s: u16, part: Session) -> Mem<Reply>
        requires { IsTrue (has_session self.old s) }
        ensures { IfOk result (λ reply. (self.new, reply) ≡ commit_call self.old s part) }
    {
        let mut part = part;
        if !part.is_open {
            part.erase_savepoints();
            self.put_part(s, part);
            return Ok(Reply::Committed(self.commit_count()));
        }
        let working = part.commit();
        self.put_part(s, part);
        self.commits.push(working)?;
        let count = self.commits.len() as u64;
        self.floor = floor_after(&self.options, self.floor, count);
        self.locks.release_all(s);
        Ok(Reply::Committed(count))
    }

    /// Rollback.
    pub fn roll_back(&mut self, s: u16) -> Mem<Reply>
        requires { IsTrue (has_session self.old s) }
        ensures { IfOk result (λ reply. (self.new, reply) ≡ rollback_call self.old s (session_of self.old s)) }
    {
        let mut part = self.part(s).copy()?;
        part.roll_back();
        self.put_part(s, part);
        self.locks.release_all(s);
        Ok(Reply::Done)
    }

    /// End.
    pub fn end(&mut self, s: u16) -> Mem<Reply>
        requires { IsTrue (has_session self.old s) }
        ensures { IfOk result (λ reply. (self.new, reply) ≡ end_call self.old s (session_of self.old s)) }
    {
        let mut part = self.part(s).copy()?;
        part.end();
        self.put_part(s, part);
        self.locks.release_all(s);
        Ok(Reply::Ended)
    }

    /// RollbackTo.
    pub fn roll_back_to(&mut self, s: u16, name: &LocName) -> Mem<Reply>
        requires { IsTrue (has_session self.old s) }
        ensures { IfOk result (λ reply. (self.new, reply) ≡ rollback_to_call self.old s (session_of self.old s) name.now) }
    {
        let Some(savepoint) = self.part(s).savepoint_named(name) else {
            return Ok(Reply::Refused(Fault::NoSavepoint));
        };
        let savepoint = savepoint.copy()?;
        let mut part = self.part(s).copy()?;
        part.roll_back_to(&savepoint)?;
        self.put_part(s, part);
        self.locks.release_others(s, &savepoint.locked);
        Ok(Reply::Done)
    }
}
