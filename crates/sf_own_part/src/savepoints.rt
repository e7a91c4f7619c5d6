//! Savepoints, and what a rollback to one makes of a session's own part.
ghost use Rattle.std.specs.Prelude.{◌≡◌, ◌+◌, ◌++◌, ◌∷◌, [], ◌&&◌, not, nat_le, length, map, filter, take, is_none, unwrap_or, Some, IfOk, OnOk, OnErr};
ghost use Rattle.std.specs.Option.{option_copied};
ghost use Rattle.std.specs.List.{list_any, position};
ghost use Rattle.std.specs.Map.{keys_of};
ghost use Rattle.sf_types.specs.declared.limits.TheConstants.{SESSION_SAVEPOINTS as SESSION_SAVEPOINTS_MOST};
ghost use Rattle.sf_types.specs.Inside.NameMaps.{is_same_name};
ghost use Rattle.sf_types.specs.Table.Parts.{Savepoint as TableSavepoint};
ghost use Rattle.sf_types.specs.Calls.Savepoints.{savepoint_call, savepoint_named, no_savepoint, after_rollback_to};
ghost use Rattle.sf_own_part.specs.Readiness.{IsReady};

use crate::own_part::OwnPart;
use crate::savepoint::{Savepoint, births_of_changes};
use sf_room_map::KeyTest;
use sf_session_values::RestoredRows;
use sf_sorted_map::SortedMap;
use sf_types::{Fault, LocName, Mem, Name, Reply, SESSION_SAVEPOINTS, TryCopy};
use sf_versions::ChangeList;

// A test of rows: whether a savepoint names them.
#[derive(Drop)]
struct IsLocked<'a> {
    savepoint: &'a Savepoint,
}

impl<'a> KeyTest<Name> for IsLocked<'a> {
    ghost use Rattle.std.specs.List.{list_any, position};
    ghost use Rattle.sf_types.specs.declared.limits.TheConstants.{SESSION_SAVEPOINTS as SESSION_SAVEPOINTS_MOST};
    ghost use Rattle.sf_types.specs.Inside.NameMaps.{is_same_name};

    ghost passes = { λ test name. list_any (is_same_name name) test.savepoint.now.locked };

    fn passes(&self, name: &Name) -> bool {
        self.savepoint.names_row(name)
    }
}

// The place of the savepoint of a name, counted from 0.
pub fn position_of(savepoints: &[Savepoint], name: &[u8]) -> Option<usize>
    ensures { result ≡ position (λ x. is_same_name name.now x.name) savepoints.now }
{
    savepoints
        .iter()
        .position(|savepoint| *name == *savepoint.name.as_bytes())
}

// Puts a savepoint last, in the place of one of its name.
fn put_last(savepoints: &mut Vec<Savepoint>, savepoint: Savepoint) -> Mem<()>
    ensures ok { OnOk result (savepoints.new.items ≡ filter (λ x. not (is_same_name savepoint.name x.name)) savepoints.old.items ++ savepoint ∷ []) }
    ensures err { OnErr result (savepoints.new.items ≡ savepoints.old.items) }
{
    savepoints.reserve(1)?;
    savepoints.retain(|other| savepoint.name != other.name);
    savepoints.push_reserved(savepoint);
    Ok(())
}

impl OwnPart {
    // Whether a savepoint of a name can't be set: the name is new, and the session has as many as it may have.
    fn has_no_room_for(&self, name: &LocName) -> bool
        ensures { result ≡ (is_none (savepoint_named self.now.held.part name.now) && nat_le SESSION_SAVEPOINTS_MOST (length self.now.held.part.savepoints)) }
    {
        self.savepoint_named(name).is_none() && self.savepoints.len() >= SESSION_SAVEPOINTS
    }

    /// The savepoint of a name. None exactly where there is none.
    pub fn savepoint_named(&self, name: &LocName) -> Option<&Savepoint>
        ensures { option_copied result ≡ savepoint_named self.now.held.part name.now }
    {
        self.savepoints
            .iter()
            .find(|savepoint| *name == savepoint.name)
    }

    // Puts the name of the k-th locked row behind those before it.
    fn copy_locked(&self, k: usize, names: &mut Vec<(Name, ())>) -> Mem<()>
        requires { keys_of names.old.items ≡ take k (keys_of self.now.held.rows) }
        ensures { OnOk result (keys_of names.new.items ≡ take (k + 1) (keys_of self.now.held.rows)) }
    {
        match self.rows.entry(k) {
            Some((name, _)) => {
                names.push((name.copy()?, ()))?;
                Ok(())
            }
            None => Ok(()),
        }
    }

    // The names of the locked rows.
    fn locked(&self) -> Mem<SortedMap<Name, ()>>
        ensures { IfOk result (λ names. keys_of names.held ≡ keys_of self.now.held.rows) }
    {
        let mut names = Vec::with_capacity(self.alloc, self.rows.len())?;
        for k in 0..self.rows.len() {
            self.copy_locked(k, &mut names)?;
        }
        Ok(SortedMap::from_entries(names))
    }

    /// Savepoint.
    pub fn set_savepoint(&mut self, name: &LocName) -> Mem<Reply>
        requires { IsReady self.old }
        ensures own { OnOk result (self.new.held ≡ record self.old.held { part = (savepoint_call self.old.held.part (map (λ e. e.0) self.old.held.rows) name.now).0 }) }
        ensures reply { IfOk result (λ reply. reply ≡ (savepoint_call self.old.held.part (map (λ e. e.0) self.old.held.rows) name.now).1) }
        ensures err { OnErr result (self.new ≡ self.old) }
    {
        if self.has_no_room_for(name) {
            return Ok(Reply::Refused(Fault::TooManySavepoints));
        }
        let working = self.values.changes()?;
        let births = births_of_changes(self.alloc, &working)?;
        let savepoint = Savepoint {
            name: name.copy()?,
            epoch: self.epoch + 1,
            working,
            births,
            locked: self.locked()?,
        };
        put_last(&mut self.savepoints, savepoint)?;
        self.epoch += 1;
        Ok(Reply::Done)
    }

    /// The working values of a savepoint, made anew, or none where there is no savepoint of that name.
    pub fn restored(&self, name: &LocName) -> Mem<RestoredRows>
        ensures { IfOk result (λ rows. rows ≡ (unwrap_or (savepoint_named self.now.held.part name.now) no_savepoint).working) }
    {
        match self.savepoint_named(name) {
            Some(savepoint) => RestoredRows::of(self.alloc, &savepoint.working),
            None => RestoredRows::of(self.alloc, &ChangeList::new(self.alloc)),
        }
    }

    /// What a RollbackTo makes of the own part, by the working values of its savepoint. It takes no memory.
    pub fn roll_back_to(&mut self, name: &LocName, rows: RestoredRows)
        ensures { (x : TableSavepoint) → savepoint_named self.old.held.part name.now ≡ Some x → rows ≡ x.working
            → self.new.held ≡ record {
              part = after_rollback_to self.old.held.part x;
              rows = filter (λ e. list_any (is_same_name e.0) x.locked) self.old.held.rows;
            } }
    {
        let Some(at) = position_of(&self.savepoints, name.as_bytes()) else {
            return;
        };
        let savepoint = &self.savepoints[at];
        self.values.roll_back_to(savepoint.epoch, rows);
        self.rows.retain(&IsLocked { savepoint });
        self.savepoints.truncate(at + 1);
    }
}
