//! Calls that change their session's part alone, on a copy of it.
ghost use Rattle.std.specs.Prelude.{◌≡◌, IfOk};
ghost use Rattle.std.specs.Option.{option_copied};
ghost use Rattle.sf_types.specs.Calls.LocatorCalls.{assign_call, free_call, length_call, read_call, instr_call, compare_call};
ghost use Rattle.sf_types.specs.Calls.WritingCalls.{write_call};
ghost use Rattle.sf_types.specs.Calls.Savepoints.{savepoint_call};

use crate::session::Session;
use crate::value::Value;
use sf_types::{Blob, Call, LocName, Mem, Name, Reply, TryCopy};

/// A session's part after a call, and the reply.
pub type PartStep = (Session, Reply);

impl Session {
    fn into_assigned(mut self, to: &LocName, from: &LocName) -> Mem<PartStep>
        ensures { IfOk result (λ done. done ≡ assign_call self to.now from.now) }
    {
        match self.assign(to, from) {
            Ok(reply) => Ok((self, reply)),
            Err(error) => Err(error),
        }
    }

    /// Assign.
    pub fn assigned(&self, to: &LocName, from: &LocName) -> Mem<PartStep>
        ensures { IfOk result (λ done. done ≡ assign_call self.now to.now from.now) }
    {
        let part = self.copy()?;
        part.into_assigned(to, from)
    }

    /// Free.
    pub fn freed(&self, at: &LocName) -> Mem<PartStep>
        ensures { IfOk result (λ done. done ≡ free_call self.now at.now) }
    {
        let mut part = self.copy()?;
        let reply = part.free(at);
        Ok((part, reply))
    }

    /// Length.
    pub fn measured(&self, at: &LocName) -> Mem<PartStep>
        ensures { IfOk result (λ done. done ≡ length_call self.now at.now) }
    {
        let part = self.copy()?;
        Ok((part, self.length(at)))
    }

    /// Read.
    pub fn read_from(&self, at: &LocName, amount: u64, offset: u64) -> Mem<PartStep>
        ensures { IfOk result (λ done. done ≡ read_call self.now at.now amount offset) }
    {
        let reply = self.read(at, amount, offset)?;
        let part = self.copy()?;
        Ok((part, reply))
    }

    /// Instr.
    pub fn searched(&self, at: &LocName, pattern: &Blob, offset: u64) -> Mem<PartStep>
        ensures { IfOk result (λ done. done ≡ instr_call self.now at.now pattern.now offset) }
    {
        let reply = self.instr(at, pattern, offset)?;
        let part = self.copy()?;
        Ok((part, reply))
    }

    /// Compare.
    pub fn compared(
        &self,
        left: &LocName,
        right: &LocName,
        amount: u64,
        left_offset: u64,
        right_offset: u64,
    ) -> Mem<PartStep>
        ensures { IfOk result (λ done. done ≡ compare_call self.now left.now right.now amount left_offset right_offset) }
    {
        let reply = self.compare(left, right, amount, left_offset, right_offset)?;
        let part = self.copy()?;
        Ok((part, reply))
    }

    fn into_saved(mut self, locked: Vec<Name>, name: &LocName) -> Mem<PartStep>
        ensures { IfOk result (λ done. done ≡ savepoint_call self locked.items name.now) }
    {
        match self.set_savepoint(locked, name) {
            Ok(reply) => Ok((self, reply)),
            Err(error) => Err(error),
        }
    }

    /// Savepoint, where these rows are locked by the session.
    pub fn saved(&self, locked: Vec<Name>, name: &LocName) -> Mem<PartStep>
        ensures { IfOk result (λ done. done ≡ savepoint_call self.now locked.items name.now) }
    {
        let part = self.copy()?;
        part.into_saved(locked, name)
    }

    fn into_written(
        mut self,
        is_held: bool,
        current: Option<&Value>,
        at: &LocName,
        call: &Call,
    ) -> Mem<PartStep>
        ensures { IfOk result (λ done. done ≡ write_call self is_held (option_copied current.entry) at.now call.now) }
    {
        match self.write(is_held, current, at, call) {
            Ok(reply) => Ok((self, reply)),
            Err(error) => Err(error),
        }
    }

    /// A writing call that flushes nothing.
    pub fn written(
        &self,
        is_held: bool,
        current: Option<&Value>,
        at: &LocName,
        call: &Call,
    ) -> Mem<PartStep>
        ensures { IfOk result (λ done. done ≡ write_call self.now is_held (option_copied current.entry) at.now call.now) }
    {
        let part = self.copy()?;
        part.into_written(is_held, current, at, call)
    }
}
