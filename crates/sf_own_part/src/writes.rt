//! Writing calls by a session's own part.
ghost use Rattle.std.specs.Prelude.{◌≡◌, ◌≤◌, [], ◌∷◌, true, IsTrue, IsSome, Some, None, IfOk};
ghost use Rattle.std.specs.Option.{option_copied, option_map, option_map_or};
ghost use Rattle.sf_types.specs.Inside.NameMaps.{get, has};
ghost use Rattle.sf_types.specs.Calls.Refusals.{first_refusal};
ghost use Rattle.sf_types.specs.Calls.LocatorCalls.{locator_refusals};
ghost use Rattle.sf_types.specs.Calls.WritingCalls.{written_name, source_name, source_value, writing_refusals, names_in, after_write};
ghost use Rattle.sf_types.specs.Halves.Own.{has_lock, held_value};
ghost use Rattle.sf_fragment_ops.specs.EditCalls.{answered, edit_refusal, is_sourced, source_or_empty};
ghost use Rattle.sf_own_part.specs.OwnWrites.{write_refusal, written};
ghost use Rattle.sf_own_part.specs.Inside.Sources.{has_source, written_value};

use crate::names::source_name;
use crate::own_part::OwnPart;
use sf_chunk_map::Map;
use sf_fragment_ops::{Edited, edit};
use sf_types::{Call, Choice, Fault, LocName, Mem, Name, TryCopy};

/// What a writing call writes: its result, through a locator and into that locator's row, and the number that it answers where
/// it answers one.
#[derive(Drop)]
pub struct Written {
    pub at: LocName,
    pub row: Name,
    pub map: Map,
    pub number: Option<u64>,
}

impl OwnPart {
    // The first refusal of a call that names one locator, or two: one isn't there, then one is lost.
    pub(crate) fn locator_fault(&self, at: &LocName, other: Option<&LocName>) -> Option<Fault>
        ensures fault { result ≡ first_refusal (locator_refusals self.now.held.part (at.now ∷ option_map_or (λ from. from ∷ []) (option_copied other.entry) [])) }
        ensures other { result ≡ None → IsTrue (option_map_or (has self.now.held.part.locators) (option_copied other.entry) true) }
    {
        let locators = self.values.locators();
        let Some(locator) = locators.get(at) else {
            return Some(Fault::UnknownLocator);
        };
        let is_other_lost = match other {
            None => false,
            Some(other) => match locators.get(other) {
                None => return Some(Fault::UnknownLocator),
                Some(other) => other.lost,
            },
        };
        if locator.lost || is_other_lost {
            Some(Fault::Lost)
        } else {
            None
        }
    }

    // The first refusal of a writing call before those of its arguments, where its locator belongs to this row.
    fn write_fault(&self, call: &Call, at: &LocName, row: &Name) -> Option<Fault>
        requires { option_map (λ l. l.row) (get self.now.held.part.locators at.now) ≡ Some row.now }
        ensures fault { result ≡ first_refusal (writing_refusals self.now.held.part (has_lock self.now.held row.now) (held_value self.now.held row.now) at.now (names_in at.now call.now)) }
        ensures source { result ≡ None → IsTrue (has_source self.now.held.part call.now) }
    {
        if let Some(fault) = self.locator_fault(at, source_name(call)) {
            return Some(fault);
        }
        let locators = self.values.locators();
        let fault = locators.check_write(at, self.transaction_number(), self.has_lock(row));
        if fault.is_some() {
            return fault;
        }
        match self.row_value(row) {
            Some(_) => None,
            None => Some(Fault::NoSuchRow),
        }
    }

    // The own value of the source locator of Append and Copy. None for other calls.
    fn source(&self, call: &Call) -> Option<&Map>
        requires { IsTrue (has_source self.now.held.part call.now) }
        ensures value { source_or_empty (option_copied result) ≡ source_value self.now.held.part call.now }
        ensures there { IsTrue (is_sourced call.now) → IsSome result }
    {
        match source_name(call) {
            Some(from) => match self.values.locators().get(from) {
                Some(locator) => Some(&locator.map),
                None => None,
            },
            None => None,
        }
    }

    // The result of a writing call on a value, or how its arguments are refused.
    fn edited(&self, call: &Call, value: &Map) -> Mem<Result<Edited, Fault>>
        requires writes { IsSome (written_name call.now) }
        requires source { IsTrue (has_source self.now.held.part call.now) }
        ensures { IfOk result (λ answer. answer ≡ answered (edit_refusal call.now value.now (source_value self.now.held.part call.now)) (written_value self.now.held.part call.now value.now)) }
    {
        if let Call::SetOptions { share, .. } = call {
            let choice = if *share { Choice::Share } else { Choice::Keep };
            let map = value.copy()?.with_choice(choice);
            return Ok(Ok(Edited { map, number: None }));
        }
        edit(self.alloc, value, call, self.source(call))
    }

    /// What a writing call writes, made on a copy of its row's value, or its first refusal before that for want of space. `at` is
    /// the name of the locator through which it writes.
    pub fn prepare_write(&self, call: &Call, at: &LocName) -> Mem<Result<Written, Fault>>
        requires { written_name call.now ≡ Some at.now }
        ensures { IfOk result (λ answer. answer ≡ answered (write_refusal self.now.held at.now call.now) (written self.now.held at.now call.now)) }
    {
        let Some(locator) = self.values.locators().get(at) else {
            return Ok(Err(Fault::UnknownLocator));
        };
        let row = &locator.row;
        if let Some(fault) = self.write_fault(call, at, row) {
            return Ok(Err(fault));
        }
        let Some(value) = self.row_value(row) else {
            return Ok(Err(Fault::NoSuchRow));
        };
        match self.edited(call, value)? {
            Ok(Edited { map, number }) => Ok(Ok(Written {
                at: at.copy()?,
                row: row.copy()?,
                map,
                number,
            })),
            Err(fault) => Ok(Err(fault)),
        }
    }

    /// What a writing call that isn't refused makes of the session's part. It takes no memory.
    pub fn write(&mut self, written: Written)
        requires room { 1 ≤ self.old.spare }
        requires row { option_map (λ l. l.row) (get self.old.held.part.locators written.at) ≡ Some written.row }
        ensures held { self.new.held ≡ record self.old.held { part = after_write self.old.held.part written.at written.map } }
    {
        let Written { at, row, map, .. } = written;
        let txn = self.transaction_number();
        self.values.write(at, row, map, txn, self.epoch);
    }
}
