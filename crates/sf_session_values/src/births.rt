//! The births of a session's values, added to others.
ghost use Rattle.std.specs.Prelude.{◌≡◌, ◌++◌, [], false, slice_get, OnOk};
ghost use Rattle.std.specs.Option.{option_copied, option_map_or};
ghost use Rattle.std.specs.Ordering.{is_eq};
ghost use Rattle.sf_types.specs.Inside.Births.{rising_births};
ghost use Rattle.sf_types.specs.Calls.Savepoints.{with_losses};
ghost use Rattle.sf_session_values.specs.ValueBirths.{rows_beside, locators_beside, is_lost, births_of_rows, births_of_locators};
ghost use Rattle.sf_session_values.specs.Inside.EntryBirths.{births_of_value, births_of_row, births_of_row_through, births_of_locator, births_kept};

use crate::values::SessionValues;
use sf_birth_union::BirthUnion;
use sf_chunk_map::Map;
use sf_locators::Locator;
use sf_types::{Births, LocName, Mem, Name};
use sf_versions::ChangeList;
use std::cmp::Ordering;

// Whether a name is the one that is left out.
fn is_left_out<N: Ord>(except: Option<&N>, name: &N) -> bool
    ensures { result ≡ option_map_or (λ other. is_eq (N.cmp other name.now)) (option_copied except.entry) false }
{
    match except {
        Some(other) => other.cmp(name) == Ordering::Equal,
        None => false,
    }
}

// Whether a rollback, to a savepoint with this epoch where there is one, loses a locator.
fn is_lost(since: Option<u64>, locator: &Locator) -> bool
    ensures { result ≡ is_lost since locator.now }
{
    match since {
        Some(epoch) => locator.dirty && epoch <= locator.epoch,
        None => locator.dirty,
    }
}

// Adds the births of a row's value, where the row is present.
fn add_value(value: Option<&Map>, into: &mut BirthUnion) -> Mem<()>
    ensures { OnOk result (into.new ≡ into.old ++ births_of_value (option_copied value.entry)) }
{
    match value {
        Some(map) => into.add(&map.births()?),
        None => Ok(()),
    }
}

// Adds the births of the k-th of some changes, where there is one.
fn add_change(changes: &ChangeList, k: usize, into: &mut BirthUnion) -> Mem<()>
    ensures { OnOk result (into.new ≡ into.old ++ option_map_or (λ row. births_of_value row.1) (slice_get changes.now k) []) }
{
    let Some(change) = changes.get(k) else {
        return Ok(());
    };
    add_value(change.value.as_ref(), into)
}

/// Adds the births of the values that changes give to rows. After want of memory any of them may have been added.
pub fn add_change_births(changes: &ChangeList, into: &mut BirthUnion) -> Mem<()>
    ensures { OnOk result (into.new ≡ into.old ++ births_of_rows changes.now) }
{
    for k in 0..changes.len() {
        add_change(changes, k, into)?;
    }
    Ok(())
}

impl SessionValues {
    // Adds the births of the k-th row's working value, where there is one, unless the row is left out.
    fn add_row(&self, k: usize, except: Option<&Name>, into: &mut BirthUnion) -> Mem<()>
        ensures { OnOk result (into.new ≡ into.old ++ option_map_or (births_of_row (option_copied except.entry)) (slice_get self.now.held.working k) []) }
    {
        let Some((row, value)) = self.row(k) else {
            return Ok(());
        };
        if is_left_out(except, row) {
            return Ok(());
        }
        add_value(value, into)
    }

    /// Adds the births of the rows' working values, but those of one row where one is named. After want of memory any of them
    /// may have been added.
    pub fn add_row_births(&self, except: Option<&Name>, into: &mut BirthUnion) -> Mem<()>
        ensures { OnOk result (into.new ≡ into.old ++ births_of_rows (rows_beside (option_copied except.entry) self.now.held.working)) }
    {
        for k in 0..self.row_count() {
            self.add_row(k, except, into)?;
        }
        Ok(())
    }

    // Adds the births of the k-th locator's value, where there is one, unless the locator is left out.
    fn add_locator(&self, k: usize, except: Option<&LocName>, into: &mut BirthUnion) -> Mem<()>
        ensures { OnOk result (into.new ≡ into.old ++ option_map_or (births_of_locator (option_copied except.entry)) (slice_get self.now.held.locators k) []) }
    {
        let Some((at, locator)) = self.locators().entry(k) else {
            return Ok(());
        };
        if is_left_out(except, at) {
            return Ok(());
        }
        into.add(&locator.map.births()?)
    }

    /// Adds the births of the locators' values, but those of one locator where one is named. After want of memory any of them
    /// may have been added.
    pub fn add_locator_births(&self, except: Option<&LocName>, into: &mut BirthUnion) -> Mem<()>
        ensures { OnOk result (into.new ≡ into.old ++ births_of_locators (locators_beside (option_copied except.entry) self.now.held.locators)) }
    {
        for k in 0..self.locators().len() {
            self.add_locator(k, except, into)?;
        }
        Ok(())
    }

    // Adds the births of the k-th locator's value, where there is one, unless a rollback loses the locator.
    fn add_kept(&self, k: usize, since: Option<u64>, into: &mut BirthUnion) -> Mem<()>
        ensures { OnOk result (into.new ≡ into.old ++ option_map_or (births_kept since) (slice_get self.now.held.locators k) []) }
    {
        let Some((_, locator)) = self.locators().entry(k) else {
            return Ok(());
        };
        if is_lost(since, locator) {
            return Ok(());
        }
        into.add(&locator.map.births()?)
    }

    /// Adds the births of the values that a rollback leaves to the locators: a rollback to a savepoint with this epoch, or the end of
    /// the transaction. After want of memory any of them may have been added.
    pub fn add_kept_births(&self, since: Option<u64>, into: &mut BirthUnion) -> Mem<()>
        ensures { OnOk result (into.new ≡ into.old ++ births_of_locators (with_losses (is_lost since) self.now.held.locators)) }
    {
        for k in 0..self.locators().len() {
            self.add_kept(k, since, into)?;
        }
        Ok(())
    }

    // Adds the births of the working value of a locator's row, unless the row is left out.
    fn add_row_through(&self, at: &LocName, except: Option<&Name>, into: &mut BirthUnion) -> Mem<()>
        ensures { OnOk result (into.new ≡ into.old ++ births_of_row_through self.now.held (option_copied except.entry) at.now) }
    {
        let Some(locator) = self.locators().get(at) else {
            return Ok(());
        };
        if is_left_out(except, &locator.row) {
            return Ok(());
        }
        match self.working(&locator.row) {
            Some(value) => add_value(value, into),
            None => Ok(()),
        }
    }

    // Adds the births of rows' own values, and those of the working value of a locator's row, where one is named.
    fn add_own(
        &self,
        births: &Births,
        row: Option<&Name>,
        at: Option<&LocName>,
        into: &mut BirthUnion,
    ) -> Mem<()>
        ensures { OnOk result (into.new ≡ (into.old ++ births.now) ++ option_map_or (births_of_row_through self.now.held (option_copied row.entry)) (option_copied at.entry) []) }
    {
        into.add(births)?;
        match at {
            Some(at) => self.add_row_through(at, row, into),
            None => Ok(()),
        }
    }

    /// Adds births, so that they are those there before, those of the rows' working values and those of the locators' values, but
    /// for those of one row and of one locator where these are named. It costs in proportion to the births of the rows, and to the
    /// locators with their births. After want of memory any of them may have been added.
    pub fn add_births_beside(
        &self,
        row: Option<&Name>,
        at: Option<&LocName>,
        into: &mut BirthUnion,
    ) -> Mem<()>
        ensures { OnOk result (rising_births into.new ≡ rising_births ((into.old ++ births_of_rows (rows_beside (option_copied row.entry) self.now.held.working)) ++ births_of_locators (locators_beside (option_copied at.entry) self.now.held.locators))) }
    {
        // The names of both maps rise.
        let _counts = (self.rows.len(), self.locators.len());
        match self.rows.own_births(row)? {
            Some(births) => self.add_own(&births, row, at, into)?,
            None => self.add_row_births(row, into)?,
        }
        self.add_locator_births(at, into)?;
        Ok(())
    }
}
