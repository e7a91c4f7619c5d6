//! Savepoints of a session.
ghost use Rattle.std.specs.Prelude.{◌≡◌, ◌++◌, ◌∷◌, [], ◌&&◌, not, nat_le, length, filter, is_none, Some, None, IfOk, OnOk};
ghost use Rattle.std.specs.Option.{option_copied};
ghost use Rattle.std.specs.List.{position};
ghost use Rattle.sf_types.specs.declared.limits.TheConstants.{SESSION_SAVEPOINTS as MOST_SAVEPOINTS};
ghost use Rattle.sf_types.specs.Inside.NameMaps.{is_same_name};
ghost use Rattle.sf_types.specs.Calls.Savepoints.{savepoint_call, savepoint_named, savepoints_up_to, with_losses, is_since, after_rollback_to};

use crate::savepoint::Savepoint;
use crate::session::Session;
use sf_types::{Fault, LocName, Mem, Name, OutOfMemory, Reply, SESSION_SAVEPOINTS, TryCopy};

// Puts a savepoint last, in the place of one of its name.
fn put_last(savepoints: &mut Vec<Savepoint>, savepoint: Savepoint) -> Mem<()>
    ensures { OnOk result (savepoints.new.items ≡ filter (λ x. not (is_same_name savepoint.name x.name)) savepoints.old.items ++ savepoint ∷ []) }
{
    savepoints.reserve(1)?;
    savepoints.retain(|other| savepoint.name != other.name);
    savepoints.push_reserved(savepoint);
    Ok(())
}

// The place of the savepoint of a name, counted from 0.
fn position_of(savepoints: &[Savepoint], name: &LocName) -> Option<usize>
    ensures { result ≡ position (λ x. is_same_name name.now x.name) savepoints.now }
{
    savepoints
        .iter()
        .position(|savepoint| *name == savepoint.name)
}

impl Session {
    /// The savepoint of a name. None exactly where there is none.
    pub fn savepoint_named(&self, name: &LocName) -> Option<&Savepoint>
        ensures { option_copied result ≡ savepoint_named self.now name.now }
    {
        self.savepoints
            .iter()
            .find(|savepoint| *name == savepoint.name)
    }

    // Whether a savepoint of a name can't be set: the name is new, and the session has as many as it may have.
    fn has_no_room_for(&self, name: &LocName) -> bool
        ensures { result ≡ (is_none (savepoint_named self.now name.now) && nat_le MOST_SAVEPOINTS (length self.now.savepoints)) }
    {
        self.savepoint_named(name).is_none() && self.savepoints.len() >= SESSION_SAVEPOINTS
    }

    /// Savepoint, where these rows are locked by the session. A counter that stands at its end is one for which there is no
    /// memory.
    pub fn set_savepoint(&mut self, locked: Vec<Name>, name: &LocName) -> Mem<Reply>
        ensures { IfOk result (λ reply. (self.new, reply) ≡ savepoint_call self.old locked.items name.now) }
    {
        if self.has_no_room_for(name) {
            return Ok(Reply::Refused(Fault::TooManySavepoints));
        }
        let epoch = self.epoch.checked_add(1).ok_or(OutOfMemory)?;
        let savepoint = Savepoint {
            name: name.copy()?,
            epoch,
            working: self.working.copy()?,
            locked,
        };
        put_last(&mut self.savepoints, savepoint)?;
        self.epoch = epoch;
        Ok(Reply::Done)
    }

    // Makes the dirty locators lost whose epoch is at least that of a savepoint.
    fn lose_since(&mut self, savepoint: &Savepoint)
        ensures { self.new ≡ record self.old { locators = with_losses (is_since savepoint.now) self.old.locators } }
    {
        let alloc = self.alloc;
        let epoch = savepoint.epoch;
        self.locators.retain(|_, locator| {
            if locator.is_dirty && epoch <= locator.epoch {
                locator.lose(alloc);
            }
            true
        });
    }

    // Erases the savepoints behind the one of a name.
    fn erase_later(&mut self, name: &LocName)
        ensures { self.new ≡ record self.old { savepoints = savepoints_up_to name.now self.old.savepoints } }
    {
        if let Some(at) = position_of(&self.savepoints, name) {
            self.savepoints.truncate(at + 1);
        }
    }

    /// What RollbackTo does to the part, by its savepoint.
    pub fn roll_back_to(&mut self, savepoint: &Savepoint) -> Mem<()>
        ensures { OnOk result (self.new ≡ after_rollback_to self.old savepoint.now) }
    {
        self.working = savepoint.working.copy()?;
        self.lose_since(savepoint);
        self.erase_later(&savepoint.name);
        Ok(())
    }
}
