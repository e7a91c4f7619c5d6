//! The births that a session's values name, and those that it holds after a call.
ghost use Rattle.std.specs.Prelude.{◌≡◌, ◌++◌, [], true, slice_get, flat_map, unwrap_or, IsSome, IfOk, OnOk};
ghost use Rattle.std.specs.Option.{option_copied, option_map_or};
ghost use Rattle.sf_types.specs.Inside.Births.{rising_births};
ghost use Rattle.sf_types.specs.Inside.NameMaps.{get};
ghost use Rattle.sf_types.specs.Calls.Savepoints.{savepoint_named, savepoints_up_to, no_savepoint, after_rollback_to};
ghost use Rattle.sf_types.specs.Calls.TransactionEnds.{after_commit, after_rollback};
ghost use Rattle.sf_types.specs.Calls.WritingCalls.{written_name};
ghost use Rattle.sf_types.specs.Space.Reach.{session_births};
ghost use Rattle.sf_types.specs.Halves.Own.{is_event};
ghost use Rattle.sf_types.specs.Halves.Asks.{kept_births};
ghost use Rattle.sf_session_values.specs.ValueBirths.{births_of_rows, births_of_locators};
ghost use Rattle.sf_own_part.specs.Inside.PartBirths.{part_beside, part_after_commit, births_kept_by};

use crate::own_part::OwnPart;
use crate::savepoint::Savepoint;
use crate::savepoints::position_of;
use sf_birth_union::BirthUnion;
use sf_session_values::add_change_births;
use sf_types::{Births, Call, LocName, Mem, Name};

// Adds the births that the k-th savepoint keeps, where there is one.
fn add_savepoint(savepoints: &[Savepoint], k: usize, into: &mut BirthUnion) -> Mem<()>
    ensures { OnOk result (into.new ≡ into.old ++ option_map_or (λ x. rising_births (births_of_rows x.working)) (slice_get savepoints.now k) []) }
{
    match savepoints.get(k) {
        Some(savepoint) => into.add(&savepoint.births),
        None => Ok(()),
    }
}

// Adds the births that savepoints keep.
fn add_savepoints(savepoints: &[Savepoint], into: &mut BirthUnion) -> Mem<()>
    ensures { OnOk result (into.new ≡ into.old ++ births_kept_by savepoints.now) }
{
    for k in 0..savepoints.len() {
        add_savepoint(savepoints, k, into)?;
    }
    Ok(())
}

// The savepoints up to the one of a name, and that one. All where none has the name.
fn up_to<'a>(savepoints: &'a [Savepoint], name: &[u8]) -> &'a [Savepoint]
    ensures { result.now ≡ savepoints_up_to name.now savepoints.now }
{
    match position_of(savepoints, name) {
        Some(at) => &savepoints[..at + 1],
        None => savepoints,
    }
}

impl OwnPart {
    // The births of the session's values but those of one row's working value and of one locator, where these are named.
    fn births_beside(&self, row: Option<&Name>, at: Option<&LocName>) -> Mem<Births>
        ensures { IfOk result (λ births. births ≡ session_births (part_beside (option_copied row.entry) (option_copied at.entry) self.now.held.part)) }
    {
        let mut births = BirthUnion::new(self.alloc);
        self.values.add_births_beside(row, at, &mut births)?;
        add_savepoints(&self.savepoints, &mut births)?;
        births.into_births()
    }

    /// The births that the session's values name: working values, and those of locators and savepoints.
    pub fn births(&self) -> Mem<Births>
        ensures { IfOk result (λ births. births ≡ session_births self.now.held.part) }
    {
        self.births_beside(None, None)
    }

    // The births after a rollback to a savepoint.
    fn births_since(&self, savepoint: &Savepoint) -> Mem<Births>
        ensures { IfOk result (λ births. births ≡ session_births (after_rollback_to self.now.held.part savepoint.now)) }
    {
        let mut births = BirthUnion::new(self.alloc);
        add_change_births(&savepoint.working, &mut births)?;
        self.values
            .add_kept_births(Some(savepoint.epoch), &mut births)?;
        let left = up_to(&self.savepoints, savepoint.name.as_bytes());
        add_savepoints(left, &mut births)?;
        births.into_births()
    }

    // The births after a rollback to a savepoint that stands for none. It has no name.
    fn births_since_none(&self) -> Mem<Births>
        ensures { IfOk result (λ births. births ≡ session_births (after_rollback_to self.now.held.part no_savepoint)) }
    {
        let mut births = BirthUnion::new(self.alloc);
        self.values.add_kept_births(Some(0), &mut births)?;
        add_savepoints(up_to(&self.savepoints, &[]), &mut births)?;
        births.into_births()
    }

    // The births after a RollbackTo, which is refused where no savepoint has the name.
    fn births_rolled_back_to(&self, name: &LocName) -> Mem<Births>
        ensures { IfOk result (λ births. births ≡ session_births (after_rollback_to self.now.held.part (unwrap_or (savepoint_named self.now.held.part name.now) no_savepoint))) }
    {
        match self.savepoint_named(name) {
            Some(savepoint) => self.births_since(savepoint),
            None => self.births_since_none(),
        }
    }

    // The births of the locators' values.
    fn locator_births(&self) -> Mem<Births>
        ensures { IfOk result (λ births. births ≡ rising_births (births_of_locators self.now.held.part.locators)) }
    {
        let mut births = BirthUnion::new(self.alloc);
        self.values.add_locator_births(None, &mut births)?;
        births.into_births()
    }

    // The births of the session's values but those of savepoints.
    fn births_beside_savepoints(&self) -> Mem<Births>
        ensures { IfOk result (λ births. births ≡ session_births (record self.now.held.part { savepoints = [] })) }
    {
        let mut births = BirthUnion::new(self.alloc);
        self.values.add_row_births(None, &mut births)?;
        self.values.add_locator_births(None, &mut births)?;
        births.into_births()
    }

    // The births after a Commit. Where no transaction is open it leaves the working values, of which there are none in a session of
    // the store.
    fn births_committed(&self) -> Mem<Births>
        ensures { IfOk result (λ births. births ≡ session_births (part_after_commit self.now.held.part)) }
    {
        if self.is_open {
            self.locator_births()
        } else {
            self.births_beside_savepoints()
        }
    }

    // The births after a rollback.
    fn births_rolled_back(&self) -> Mem<Births>
        ensures { IfOk result (λ births. births ≡ session_births (after_rollback self.now.held.part)) }
    {
        let mut births = BirthUnion::new(self.alloc);
        self.values.add_kept_births(None, &mut births)?;
        births.into_births()
    }

    /// The births that the session holds after an event that isn't refused, beside those of the value that the call is given.
    pub fn kept_births(&self, call: &Call) -> Mem<Births>
        requires { is_event call.now ≡ true }
        ensures { IfOk result (λ births. births ≡ kept_births self.now.held call.now) }
    {
        // The names of both maps rise.
        let _counts = (self.values.row_count(), self.values.locators().len());
        match call {
            Call::Insert { row } => self.births_beside(Some(row), None),
            Call::Delete { row } => self.births_beside(Some(row), None),
            Call::Lock { to, .. } => self.births_beside(None, Some(to)),
            Call::Select { to, .. } => self.births_beside(None, Some(to)),
            Call::SelectAsOf { to, .. } => self.births_beside(None, Some(to)),
            Call::RollbackTo { name } => self.births_rolled_back_to(name),
            Call::Commit => self.births_committed(),
            Call::Rollback => self.births_rolled_back(),
            _ => Ok(Births::new(self.alloc)),
        }
    }

    /// The births that the session holds after a writing call through a locator that is there, beside those of what it writes.
    pub fn births_beside_write(&self, call: &Call, at: &LocName) -> Mem<Births>
        requires name { written_name call.now ≡ Some at.now }
        requires there { IsSome (get self.now.held.part.locators at.now) }
        ensures { IfOk result (λ births. births ≡ kept_births self.now.held call.now) }
    {
        match self.values.locators().get(at) {
            Some(locator) => self.births_beside(Some(&locator.row), Some(at)),
            None => Ok(Births::new(self.alloc)),
        }
    }
}
