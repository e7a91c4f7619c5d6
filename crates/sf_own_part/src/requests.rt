//! What a session asks of the store beside an event, by its own part, and whether a call is due.
ghost use Rattle.std.specs.Prelude.{◌≡◌, ◌+◌, ◌++◌, ◌∷◌, [], true, not, is_none, is_some, map, filter, slice_get, if◌then◌else◌, IfOk, OnOk};
ghost use Rattle.std.specs.List.{list_any};
ghost use Rattle.std.specs.Option.{option_map_or};
ghost use Rattle.sf_types.specs.declared.reply.Fault.TheVariants as fault;
ghost use Rattle.sf_types.specs.Inside.NameMaps.{get, is_same_name};
ghost use Rattle.sf_types.specs.Table.Sessions.{lacks_room};
ghost use Rattle.sf_types.specs.Halves.Own.{is_event, own_due};
ghost use Rattle.sf_types.specs.Halves.Asks.{Known as KnownRequest, Current as CurrentRequest, request_by_working, request_of};
ghost use Rattle.sf_versions.specs.Asks.{request_of_part};
ghost use Rattle.sf_own_part.specs.Ends.{IsPrepared};
ghost use Rattle.sf_own_part.specs.Inside.Unlocking.{unlocked};

use crate::answers::Prepared;
use crate::own_part::OwnPart;
use crate::savepoint::Savepoint;
use sf_types::{Call, Fault, List, LocName, Mem, Name, TryCopy};
use sf_versions::Part;

impl OwnPart {
    // The request of Insert: the row has to be absent.
    fn request_of_insert(&self, row: &Name) -> Part
        ensures { request_of_part result ≡ request_by_working (get self.now.held.part.working row.now) is_some fault.Duplicate }
    {
        match self.values.working(row) {
            Some(Some(_)) => Part::Known(Fault::Duplicate),
            Some(None) => Part::Working,
            None => Part::Current,
        }
    }

    // The request of a row call for which the row has to be present.
    fn request_of_present(&self, row: &Name) -> Part
        ensures { request_of_part result ≡ request_by_working (get self.now.held.part.working row.now) is_none fault.NoSuchRow }
    {
        match self.values.working(row) {
            Some(Some(_)) => Part::Working,
            Some(None) => Part::Known(Fault::NoSuchRow),
            None => Part::Current,
        }
    }

    // The request of Lock and Select, which set a locator to a present row.
    fn request_of_locator(&self, to: &LocName, row: &Name) -> Part
        ensures { request_of_part result ≡ (if lacks_room self.now.held.part to.now then KnownRequest fault.TooManyLocators
            else request_by_working (get self.now.held.part.working row.now) is_none fault.NoSuchRow) }
    {
        if self.values.locators().has_room(to) {
            self.request_of_present(row)
        } else {
            Part::Known(Fault::TooManyLocators)
        }
    }

    // Puts the name of the k-th locked row behind others, unless a savepoint names the row.
    fn add_unlocked(&self, k: usize, savepoint: &Savepoint, names: &mut List<Name>) -> Mem<()>
        ensures { OnOk result (names.new ≡ names.old ++ option_map_or (unlocked savepoint.now.locked) (slice_get self.now.held.rows k) []) }
    {
        let Some((name, _)) = self.rows.entry(k) else {
            return Ok(());
        };
        if savepoint.names_row(name) {
            return Ok(());
        }
        names.push(name.copy()?)
    }

    // The locked rows that a savepoint doesn't name, in byte order.
    fn unlocked_by(&self, savepoint: &Savepoint) -> Mem<List<Name>>
        ensures { IfOk result (λ names. names ≡ filter (λ row. not (list_any (is_same_name row) savepoint.now.locked)) (map (λ e. e.0) self.now.held.rows)) }
    {
        let mut names = List::new(self.alloc);
        for k in 0..self.rows.len() {
            self.add_unlocked(k, savepoint, &mut names)?;
        }
        Ok(names)
    }

    /// What the store needs of an event beside the call. It copies what it names: the rows that a RollbackTo unlocks, and the
    /// working values of a Commit.
    pub fn request(&self, call: &Call) -> Mem<Part>
        requires { is_event call.now ≡ true }
        ensures { IfOk result (λ part. request_of_part part ≡ request_of self.now.held call.now) }
    {
        match call {
            Call::Insert { row } => Ok(self.request_of_insert(row)),
            Call::Delete { row } => Ok(self.request_of_present(row)),
            Call::Lock { to, row } => Ok(self.request_of_locator(to, row)),
            Call::Select { to, row } => Ok(self.request_of_locator(to, row)),
            Call::SelectAsOf { to, .. } => Ok(self.request_of_old_value(to)),
            Call::RollbackTo { name } => match self.savepoint_named(name) {
                Some(savepoint) => Ok(Part::Unlock(self.unlocked_by(savepoint)?)),
                None => Ok(Part::Known(Fault::NoSavepoint)),
            },
            Call::Commit => Ok(Part::Commit(self.values.changes()?)),
            Call::Rollback => Ok(Part::Rollback),
            _ => Ok(Part::End),
        }
    }

    // The request of SelectAsOf.
    fn request_of_old_value(&self, to: &LocName) -> Part
        ensures { request_of_part result ≡ (if lacks_room self.now.held.part to.now then KnownRequest fault.TooManyLocators else CurrentRequest) }
    {
        if self.values.locators().has_room(to) {
            Part::Current
        } else {
            Part::Known(Fault::TooManyLocators)
        }
    }

    /// Whether a call is due in a store that gathers up to this threshold, by what was prepared for its end: a Commit where some
    /// working value has fresh bytes, and a writing call that isn't refused and whose result has as many fresh bytes. It costs a
    /// look for a writing call, and one for each working value for a Commit.
    pub fn is_due(&self, gather: u32, call: &Call, prepared: &Prepared) -> bool
        requires { IsPrepared self.now.held call.now prepared.now }
        ensures { result ≡ own_due gather self.now.held call.now }
    {
        if let Call::Commit = call {
            return self.values.has_fresh();
        }
        match prepared {
            Prepared::Written(written) => written.map.fresh() >= u64::from(gather),
            _ => false,
        }
    }
}
