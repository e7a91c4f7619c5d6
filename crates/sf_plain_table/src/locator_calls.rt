//! Calls through locators that write nothing.
ghost use Rattle.std.specs.Prelude.{◌≡◌, [], ◌∷◌, IfOk};
ghost use Rattle.std.specs.Option.{option_copied, option_map_or};
ghost use Rattle.sf_types.specs.Calls.Refusals.{first_refusal};
ghost use Rattle.sf_types.specs.Calls.LocatorCalls.{locator_refusals, assign_call, free_call, length_call, read_call, instr_call, compare_call};

use crate::session::Session;
use crate::{faults, reads};
use sf_types::{Blob, Fault, LocName, Mem, Reply, TryCopy};

impl Session {
    /// The first refusal of a call that names one locator, or two: one isn't there, then one is lost.
    pub fn locator_fault(&self, at: &LocName, other: Option<&LocName>) -> Option<Fault>
        ensures { result ≡ first_refusal (locator_refusals self.now (at.now ∷ option_map_or (λ from. from ∷ []) (option_copied other.entry) [])) }
    {
        let Some(locator) = self.locator(at) else {
            return Some(Fault::UnknownLocator);
        };
        let is_other_lost = match other {
            None => false,
            Some(other) => match self.locator(other) {
                None => return Some(Fault::UnknownLocator),
                Some(other) => other.is_lost,
            },
        };
        if locator.is_lost || is_other_lost {
            Some(Fault::Lost)
        } else {
            None
        }
    }

    /// Assign.
    pub fn assign(&mut self, to: &LocName, from: &LocName) -> Mem<Reply>
        ensures { IfOk result (λ reply. (self.new, reply) ≡ assign_call self.old to.now from.now) }
    {
        if let Some(fault) = self.locator_fault(from, None) {
            return Ok(Reply::Refused(fault));
        }
        if self.lacks_room(to) {
            return Ok(Reply::Refused(Fault::TooManyLocators));
        }
        let Some(locator) = self.locators.get(from) else {
            return Ok(Reply::Refused(Fault::UnknownLocator));
        };
        let copied = locator.copy()?;
        self.locators.insert(to.copy()?, copied)?;
        Ok(Reply::Done)
    }

    /// Free. It takes no memory.
    pub fn free(&mut self, at: &LocName) -> Reply
        ensures { (self.new, result) ≡ free_call self.old at.now }
    {
        if self.locators.get(at).is_none() {
            return Reply::Refused(Fault::UnknownLocator);
        }
        self.locators.remove(at);
        Reply::Done
    }

    /// Length. It takes no memory.
    pub fn length(&self, at: &LocName) -> Reply
        ensures { (self.now, result) ≡ length_call self.now at.now }
    {
        if let Some(fault) = self.locator_fault(at, None) {
            return Reply::Refused(fault);
        }
        match self.locator(at) {
            Some(locator) => Reply::Number(locator.value.len()),
            None => Reply::Refused(Fault::UnknownLocator),
        }
    }

    /// Read.
    pub fn read(&self, at: &LocName, amount: u64, offset: u64) -> Mem<Reply>
        ensures { IfOk result (λ reply. (self.now, reply) ≡ read_call self.now at.now amount offset) }
    {
        if let Some(fault) = self.locator_fault(at, None) {
            return Ok(Reply::Refused(fault));
        }
        let Some(locator) = self.locator(at) else {
            return Ok(Reply::Refused(Fault::UnknownLocator));
        };
        if let Some(fault) = faults::read_fault(amount, offset, locator.value.len()) {
            return Ok(Reply::Refused(fault));
        }
        let bytes = reads::read_bytes(self.alloc, &locator.value, amount, offset)?;
        Ok(Reply::Bytes(bytes))
    }

    /// Instr.
    pub fn instr(&self, at: &LocName, pattern: &Blob, offset: u64) -> Mem<Reply>
        ensures { IfOk result (λ reply. (self.now, reply) ≡ instr_call self.now at.now pattern.now offset) }
    {
        if let Some(fault) = self.locator_fault(at, None) {
            return Ok(Reply::Refused(fault));
        }
        let Some(locator) = self.locator(at) else {
            return Ok(Reply::Refused(Fault::UnknownLocator));
        };
        if let Some(fault) = faults::instr_fault(pattern, offset) {
            return Ok(Reply::Refused(fault));
        }
        let at = reads::match_offset(self.alloc, &locator.value, pattern, offset)?;
        Ok(Reply::Number(at))
    }

    /// Compare.
    pub fn compare(
        &self,
        left: &LocName,
        right: &LocName,
        amount: u64,
        left_offset: u64,
        right_offset: u64,
    ) -> Mem<Reply>
        ensures { IfOk result (λ reply. (self.now, reply) ≡ compare_call self.now left.now right.now amount left_offset right_offset) }
    {
        if let Some(fault) = self.locator_fault(left, Some(right)) {
            return Ok(Reply::Refused(fault));
        }
        let (Some(left), Some(right)) = (self.locator(left), self.locator(right)) else {
            return Ok(Reply::Refused(Fault::UnknownLocator));
        };
        if let Some(fault) = faults::compare_fault(amount, left_offset, right_offset) {
            return Ok(Reply::Refused(fault));
        }
        let equal = reads::are_equal(
            self.alloc,
            &left.value,
            &right.value,
            amount,
            left_offset,
            right_offset,
        )?;
        Ok(Reply::Equal(equal))
    }
}
