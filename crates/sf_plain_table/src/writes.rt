//! Writing calls of a session.
ghost use Rattle.std.specs.Prelude.{◌≡◌, [], ◌∷◌, ◌++◌, not, is_none, unwrap_or, None, IsSome, IfOk, OnOk};
ghost use Rattle.std.specs.Option.{option_copied};
ghost use Rattle.sf_types.specs.Values.Marks.{empty_value};
ghost use Rattle.sf_types.specs.declared.reply.Fault.TheVariants as faults;
ghost use Rattle.sf_types.specs.Table.Sessions.{row_value};
ghost use Rattle.sf_types.specs.Calls.Refusals.{first_refusal};
ghost use Rattle.sf_types.specs.Calls.LocatorCalls.{locator_named};
ghost use Rattle.sf_types.specs.Calls.WritingCalls.{spans_transactions, writing_refusals, writing_refusal, names_in, source_value, old_value, result_of, after_write, write_call};

use crate::faults::argument_fault;
use crate::locator::Locator;
use crate::names::source_name;
use crate::results::{result_value, write_reply};
use crate::rows::{RowState, copied_or_empty};
use crate::session::Session;
use crate::value::Value;
use sf_types::{Call, Fault, LocName, Mem, Reply, TryCopy};

impl Session {
    // Whether a locator belongs to another transaction than the open one.
    fn spans_transactions(&self, locator: &Locator) -> bool
        ensures { result ≡ spans_transactions self.now locator.now }
    {
        let number = locator.transaction;
        number != 0 && number != self.transaction_number()
    }

    // How writing through a locator that is there and not lost is refused.
    fn written_fault(
        &self,
        locator: &Locator,
        is_held: bool,
        current: Option<&Value>,
    ) -> Option<Fault>
        ensures { result ≡ first_refusal (
            (locator.now.is_read_only, faults.ReadOnly)
            ∷ (spans_transactions self.now locator.now, faults.SpansTransactions)
            ∷ (not is_held, faults.RowNotLocked)
            ∷ (is_none (row_value self.now (option_copied current.entry) locator.now.row), faults.NoSuchRow)
            ∷ []) }
    {
        if locator.is_read_only {
            return Some(Fault::ReadOnly);
        }
        if self.spans_transactions(locator) {
            return Some(Fault::SpansTransactions);
        }
        if !is_held {
            return Some(Fault::RowNotLocked);
        }
        match self.row_value(current, &locator.row) {
            Some(_) => None,
            None => Some(Fault::NoSuchRow),
        }
    }

    // The first refusal of a writing call before those of its arguments.
    #[tactic(auto, using(crate::proofs::RefusalLemmas::refused_first, crate::proofs::RefusalLemmas::refused_then))]
    fn write_fault(
        &self,
        call: &Call,
        at: &LocName,
        is_held: bool,
        current: Option<&Value>,
    ) -> Option<Fault>
        ensures fault { result ≡ first_refusal (writing_refusals self.now is_held (option_copied current.entry) at.now (names_in at.now call.now)) }
        ensures there { result ≡ None → IsSome (locator_named self.now at.now) }
    {
        if let Some(fault) = self.locator_fault(at, source_name(call)) {
            return Some(fault);
        }
        match self.locator(at) {
            Some(locator) => self.written_fault(locator, is_held, current),
            None => Some(Fault::UnknownLocator),
        }
    }

    /// The value that a writing call works on: that of the row of a locator that is there.
    pub fn old_value(&self, current: Option<&Value>, at: &LocName) -> Mem<Value>
        requires { IsSome (locator_named self.now at.now) }
        ensures { IfOk result (λ value. value ≡ old_value self.now (option_copied current.entry) at.now) }
    {
        let Some(locator) = self.locator(at) else {
            unreachable!();
        };
        copied_or_empty(self.alloc, self.row_value(current, &locator.row))
    }

    // The own value of the source locator of Append and Copy, and the empty one for other calls.
    fn source_value(&self, call: &Call) -> Mem<Value>
        ensures { IfOk result (λ value. value ≡ source_value self.now call.now) }
    {
        let Some(from) = source_name(call) else {
            return Ok(Value::empty(self.alloc));
        };
        match self.locator(from) {
            Some(locator) => locator.value.copy(),
            None => Ok(Value::empty(self.alloc)),
        }
    }

    /// The first refusal of a writing call before that for want of space, where the session holds the lock of its locator's row
    /// or not, and that row holds `current`.
    #[tactic(auto, using(crate::proofs::RefusalLemmas::refused_first, crate::proofs::RefusalLemmas::refused_then))]
    pub fn writing_fault(
        &self,
        is_held: bool,
        current: Option<&Value>,
        at: &LocName,
        call: &Call,
    ) -> Mem<Option<Fault>>
        ensures fault { IfOk result (λ fault. fault ≡ writing_refusal self.now is_held (option_copied current.entry) at.now call.now) }
        ensures there { IfOk result (λ fault. fault ≡ None → IsSome (locator_named self.now at.now)) }
    {
        if let Some(fault) = self.write_fault(call, at, is_held, current) {
            return Ok(Some(fault));
        }
        let size = self.old_value(current, at)?.len();
        let source_size = self.source_value(call)?.len();
        Ok(argument_fault(call, size, source_size))
    }

    /// The value that a writing call makes, through a locator that is there.
    pub fn result_of(&self, current: Option<&Value>, at: &LocName, call: &Call) -> Mem<Value>
        requires { IsSome (locator_named self.now at.now) }
        ensures { IfOk result (λ value. value ≡ result_of self.now (option_copied current.entry) at.now call.now) }
    {
        let source = self.source_value(call)?;
        result_value(call, self.old_value(current, at)?, &source)
    }

    /// Makes a value the working one of a locator's row, and the locator's own.
    pub fn put_written(&mut self, at: &LocName, value: Value) -> Mem<()>
        requires { IsSome (locator_named self.old at.now) }
        ensures { OnOk result (self.new ≡ after_write self.old at.now value) }
    {
        let Some(locator) = self.locators.get(at) else {
            unreachable!();
        };
        let row = locator.row.copy()?;
        let written = Locator {
            row: locator.row.copy()?,
            value: value.copy()?,
            transaction: self.transaction_number(),
            epoch: self.epoch,
            is_dirty: true,
            is_lost: locator.is_lost,
            is_read_only: locator.is_read_only,
        };
        self.working.insert(row, RowState::new(Some(value)))?;
        self.locators.insert(at.copy()?, written)?;
        Ok(())
    }

    /// A writing call that flushes nothing, where the session holds the lock of its locator's row or not, and that row holds
    /// `current`.
    pub fn write(
        &mut self,
        is_held: bool,
        current: Option<&Value>,
        at: &LocName,
        call: &Call,
    ) -> Mem<Reply>
        ensures { IfOk result (λ reply. (self.new, reply) ≡ write_call self.old is_held (option_copied current.entry) at.now call.now) }
    {
        if let Some(fault) = self.writing_fault(is_held, current, at, call)? {
            return Ok(Reply::Refused(fault));
        }
        let reply = write_reply(call, &self.old_value(current, at)?);
        let made = self.result_of(current, at, call)?;
        self.put_written(at, made)?;
        Ok(reply)
    }
}
