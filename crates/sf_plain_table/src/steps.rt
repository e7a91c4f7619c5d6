//! One call of a session that flushes nothing.
ghost use Rattle.std.specs.Prelude.{◌≡◌, IsTrue, IfOk};
ghost use Rattle.std.specs.Option.{option_map};
ghost use Rattle.sf_types.specs.Table.Sessions.{has_session, session_of, locked_rows};
ghost use Rattle.sf_types.specs.Calls.LocatorCalls.{locator_named, assign_call, free_call, length_call, read_call, instr_call, compare_call};
ghost use Rattle.sf_types.specs.Calls.Savepoints.{savepoint_call};
ghost use Rattle.sf_types.specs.Calls.TransactionEnds.{commit_call};
ghost use Rattle.sf_types.specs.Calls.Steps.{part_step, write_step, step};

use crate::part_steps::PartStep;
use crate::table::Table;
use sf_types::{Blob, Call, Fault, LocName, Mem, Name, Reply, TryCopy};

impl Table {
    // Puts a session's part after a call into the table.
    fn finish(&mut self, s: u16, done: PartStep) -> Reply
        requires { IsTrue (has_session self.old s) }
        ensures { (self.new, result) ≡ part_step self.old s done }
    {
        let (part, reply) = done;
        self.put_part(s, part);
        reply
    }

    fn assign(&mut self, s: u16, to: &LocName, from: &LocName) -> Mem<Reply>
        requires { IsTrue (has_session self.old s) }
        ensures { IfOk result (λ reply. (self.new, reply) ≡ part_step self.old s (assign_call (session_of self.old s) to.now from.now)) }
    {
        let done = self.part(s).assigned(to, from)?;
        Ok(self.finish(s, done))
    }

    fn free(&mut self, s: u16, at: &LocName) -> Mem<Reply>
        requires { IsTrue (has_session self.old s) }
        ensures { IfOk result (λ reply. (self.new, reply) ≡ part_step self.old s (free_call (session_of self.old s) at.now)) }
    {
        let done = self.part(s).freed(at)?;
        Ok(self.finish(s, done))
    }

    fn length(&mut self, s: u16, at: &LocName) -> Mem<Reply>
        requires { IsTrue (has_session self.old s) }
        ensures { IfOk result (λ reply. (self.new, reply) ≡ part_step self.old s (length_call (session_of self.old s) at.now)) }
    {
        let done = self.part(s).measured(at)?;
        Ok(self.finish(s, done))
    }

    fn read(&mut self, s: u16, at: &LocName, amount: u64, offset: u64) -> Mem<Reply>
        requires { IsTrue (has_session self.old s) }
        ensures { IfOk result (λ reply. (self.new, reply) ≡ part_step self.old s (read_call (session_of self.old s) at.now amount offset)) }
    {
        let done = self.part(s).read_from(at, amount, offset)?;
        Ok(self.finish(s, done))
    }

    fn instr(&mut self, s: u16, at: &LocName, pattern: &Blob, offset: u64) -> Mem<Reply>
        requires { IsTrue (has_session self.old s) }
        ensures { IfOk result (λ reply. (self.new, reply) ≡ part_step self.old s (instr_call (session_of self.old s) at.now pattern.now offset)) }
    {
        let done = self.part(s).searched(at, pattern, offset)?;
        Ok(self.finish(s, done))
    }

    fn compare(
        &mut self,
        s: u16,
        left: &LocName,
        right: &LocName,
        amount: u64,
        left_offset: u64,
        right_offset: u64,
    ) -> Mem<Reply>
        requires { IsTrue (has_session self.old s) }
        ensures { IfOk result (λ reply. (self.new, reply) ≡ part_step self.old s (compare_call (session_of self.old s) left.now right.now amount left_offset right_offset)) }
    {
        let part = self.part(s);
        let done = part.compared(left, right, amount, left_offset, right_offset)?;
        Ok(self.finish(s, done))
    }

    fn set_savepoint(&mut self, s: u16, name: &LocName) -> Mem<Reply>
        requires { IsTrue (has_session self.old s) }
        ensures { IfOk result (λ reply. (self.new, reply) ≡ part_step self.old s (savepoint_call (session_of self.old s) (locked_rows self.old.locks s) name.now)) }
    {
        let locked = self.locks.rows_of(s)?;
        let done = self.part(s).saved(locked, name)?;
        Ok(self.finish(s, done))
    }

    /// The row of a locator, or none where there is no such locator.
    pub fn row_of(&self, s: u16, at: &LocName) -> Mem<Option<Name>>
        requires { IsTrue (has_session self.now s) }
        ensures { IfOk result (λ row. row ≡ option_map (λ l. l.row) (locator_named (session_of self.now s) at.now)) }
    {
        match self.part(s).locator(at) {
            Some(locator) => Ok(Some(locator.row.copy()?)),
            None => Ok(None),
        }
    }

    fn write(&mut self, s: u16, at: &LocName, call: &Call) -> Mem<Reply>
        requires { IsTrue (has_session self.old s) }
        ensures { IfOk result (λ reply. (self.new, reply) ≡ write_step self.old s (session_of self.old s) at.now call.now) }
    {
        let Some(row) = self.row_of(s, at)? else {
            return Ok(Reply::Refused(Fault::UnknownLocator));
        };
        let is_held = self.holds(s, &row);
        let current = self.current_value(&row);
        let done = self.part(s).written(is_held, current, at, call)?;
        Ok(self.finish(s, done))
    }

    fn commit_own(&mut self, s: u16) -> Mem<Reply>
        requires { IsTrue (has_session self.old s) }
        ensures { IfOk result (λ reply. (self.new, reply) ≡ commit_call self.old s (session_of self.old s)) }
    {
        let part = self.part(s).copy()?;
        self.commit(s, part)
    }

    /// A call of a session that flushes nothing.
    pub fn step(&mut self, s: u16, call: &Call) -> Mem<Reply>
        requires { IsTrue (has_session self.old s) }
        ensures { IfOk result (λ reply. (self.new, reply) ≡ step self.old s call.now) }
    {
        match call {
            Call::Insert { row } => self.insert(s, row),
            Call::Delete { row } => self.delete(s, row),
            Call::Lock { to, row } => self.lock(s, to, row),
            Call::Select { to, row } => self.select(s, to, row),
            Call::SelectAsOf { to, row, commit } => self.select_as_of(s, to, row, *commit),
            Call::Assign { to, from } => self.assign(s, to, from),
            Call::Free { at } => self.free(s, at),
            Call::Length { at } => self.length(s, at),
            Call::Read { at, amount, offset } => self.read(s, at, *amount, *offset),
            Call::Instr {
                at,
                pattern,
                offset,
            } => self.instr(s, at, pattern, *offset),
            Call::Compare {
                left,
                right,
                amount,
                left_offset,
                right_offset,
            } => { self.compare(s, left, right, *amount, *left_offset, *right_offset) }
            Call::Write { at, .. } => self.write(s, at, call),
            Call::WriteAppend { at, .. } => self.write(s, at, call),
            Call::Append { at, .. } => self.write(s, at, call),
            Call::Copy { at, .. } => self.write(s, at, call),
            Call::Erase { at, .. } => self.write(s, at, call),
            Call::Trim { at, .. } => self.write(s, at, call),
            Call::FragInsert { at, .. } => self.write(s, at, call),
            Call::FragDelete { at, .. } => self.write(s, at, call),
            Call::FragMove { at, .. } => self.write(s, at, call),
            Call::FragReplace { at, .. } => self.write(s, at, call),
            Call::SetOptions { at, .. } => self.write(s, at, call),
            Call::Savepoint { name } => self.set_savepoint(s, name),
            Call::RollbackTo { name } => self.roll_back_to(s, name),
            Call::Commit => self.commit_own(s),
            Call::Rollback => self.roll_back(s),
            Call::End => self.end(s),
        }
    }
}
