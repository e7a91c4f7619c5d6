//! Calls through locators that write nothing, by a session's own part.
ghost use Rattle.std.specs.Prelude.{◌≡◌, ◌≤◌, [], ◌∷◌, IfOk, OnOk, OnErr};
ghost use Rattle.sf_types.specs.Calls.LocatorCalls.{assign_call, free_call, length_call, read_call, instr_call, compare_call};

use crate::own_part::OwnPart;
use sf_fragment_ops::{compare, instr, read};
use sf_types::{Blob, Fault, LocName, Mem, Reply, TryCopy};

impl OwnPart {
    /// Assign. It takes memory for the copy alone.
    pub fn assign(&mut self, to: &LocName, from: &LocName) -> Mem<Reply>
        requires { 1 ≤ self.old.spare }
        ensures own { OnOk result (self.new.held ≡ record self.old.held { part = (assign_call self.old.held.part to.now from.now).0 }) }
        ensures reply { IfOk result (λ reply. reply ≡ (assign_call self.old.held.part to.now from.now).1) }
        ensures err { OnErr result (self.new ≡ self.old) }
    {
        if let Some(fault) = self.locator_fault(from, None) {
            return Ok(Reply::Refused(fault));
        }
        if !self.values.locators().has_room(to) {
            return Ok(Reply::Refused(Fault::TooManyLocators));
        }
        let Some(locator) = self.values.locators().get(from) else {
            return Ok(Reply::Refused(Fault::UnknownLocator));
        };
        let copied = locator.copy()?;
        let to = to.copy()?;
        self.values.set_locator(to, copied);
        Ok(Reply::Done)
    }

    /// Free. It takes no memory.
    pub fn free(&mut self, at: &LocName) -> Reply
        ensures own { self.new.held ≡ record self.old.held { part = (free_call self.old.held.part at.now).0 } }
        ensures reply { result ≡ (free_call self.old.held.part at.now).1 }
    {
        if self.values.locators().get(at).is_none() {
            return Reply::Refused(Fault::UnknownLocator);
        }
        self.values.free_locator(at);
        Reply::Done
    }

    /// Length: a look at the locator. It takes no memory.
    pub fn length(&self, at: &LocName) -> Reply
        ensures { (self.now.held.part, result) ≡ length_call self.now.held.part at.now }
    {
        if let Some(fault) = self.locator_fault(at, None) {
            return Reply::Refused(fault);
        }
        match self.values.locators().get(at) {
            Some(locator) => Reply::Number(locator.map.len()),
            None => Reply::Refused(Fault::UnknownLocator),
        }
    }

    /// Read: a walk to its offset, and the bytes.
    pub fn read(&self, at: &LocName, amount: u64, offset: u64) -> Mem<Reply>
        ensures { IfOk result (λ reply. (self.now.held.part, reply) ≡ read_call self.now.held.part at.now amount offset) }
    {
        if let Some(fault) = self.locator_fault(at, None) {
            return Ok(Reply::Refused(fault));
        }
        let Some(locator) = self.values.locators().get(at) else {
            return Ok(Reply::Refused(Fault::UnknownLocator));
        };
        match read(self.alloc, &locator.map, amount, offset)? {
            Ok(bytes) => Ok(Reply::Bytes(bytes)),
            Err(fault) => Ok(Reply::Refused(fault)),
        }
    }

    /// Instr.
    pub fn instr(&self, at: &LocName, pattern: &Blob, offset: u64) -> Mem<Reply>
        ensures { IfOk result (λ reply. (self.now.held.part, reply) ≡ instr_call self.now.held.part at.now pattern.now offset) }
    {
        if let Some(fault) = self.locator_fault(at, None) {
            return Ok(Reply::Refused(fault));
        }
        let Some(locator) = self.values.locators().get(at) else {
            return Ok(Reply::Refused(Fault::UnknownLocator));
        };
        match instr(self.alloc, &locator.map, pattern, offset)? {
            Ok(position) => Ok(Reply::Number(position)),
            Err(fault) => Ok(Reply::Refused(fault)),
        }
    }

    /// Compare. It takes no memory.
    pub fn compare(
        &self,
        left: &LocName,
        right: &LocName,
        amount: u64,
        left_offset: u64,
        right_offset: u64,
    ) -> Reply
        ensures { (self.now.held.part, result) ≡ compare_call self.now.held.part left.now right.now amount left_offset right_offset }
    {
        if let Some(fault) = self.locator_fault(left, Some(right)) {
            return Reply::Refused(fault);
        }
        let locators = self.values.locators();
        let (Some(left), Some(right)) = (locators.get(left), locators.get(right)) else {
            return Reply::Refused(Fault::UnknownLocator);
        };
        match compare(&left.map, &right.map, amount, left_offset, right_offset) {
            Ok(equal) => Reply::Equal(equal),
            Err(fault) => Reply::Refused(fault),
        }
    }
}
