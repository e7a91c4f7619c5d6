//! Row locks.
ghost use Rattle.std.specs.Prelude.{◌≡◌, [], OnOk, OnErr, IfOk, not, if◌then◌else◌};
ghost use Rattle.sf_types.specs.Inside.NameMaps.{without_entry};
ghost use Rattle.sf_types.specs.Table.Sessions.{holds_lock, is_busy, with_lock, without_locks};

use sf_types::{Mem, Name, NameMap};
use std::alloc::Global;
use std::marker::Model;

/// The locked rows, each with the number of the session that holds its lock, seen as a finite map.
#[derive(Drop)]
pub struct Locks {
    holders: NameMap<Name, u16>,
}

impl Model for Locks {
    ghost use Rattle.std.specs.Prelude.{ℕ, List};

    ghost Value = { List (List ℕ × ℕ) };

    ghost view = { λ l. l.holders };
}

impl Locks {
    /// No locks. It takes no memory.
    pub fn new(alloc: Global) -> Locks
        ensures { result ≡ [] }
    {
        Locks {
            holders: NameMap::new(alloc),
        }
    }

    /// Whether a session holds a row's lock.
    pub fn holds(&self, session: u16, row: &Name) -> bool
        ensures { result ≡ holds_lock self.now session row.now }
    {
        match self.holders.get(row) {
            Some(holder) => *holder == session,
            None => false,
        }
    }

    /// Whether another session holds a row's lock.
    pub fn is_busy(&self, session: u16, row: &Name) -> bool
        ensures { result ≡ is_busy self.now session row.now }
    {
        match self.holders.get(row) {
            Some(holder) => *holder != session,
            None => false,
        }
    }

    /// Takes a lock that no other session holds, and answers whether it is new.
    pub fn take(&mut self, session: u16, row: Name) -> Mem<bool>
        ensures locks { OnOk result (self.new ≡ with_lock self.old session row) }
        ensures is_new { IfOk result (λ is_new. is_new ≡ not (holds_lock self.old session row)) }
        ensures err { OnErr result (self.new ≡ self.old) }
    {
        if self.holds(session, &row) {
            return Ok(false);
        }
        self.holders.insert(row, session)?;
        Ok(true)
    }

    /// Gives back a lock that was taken, where it was new.
    pub fn give_back(&mut self, row: &Name, is_new: bool)
        ensures { self.new ≡ (if is_new then without_entry self.old row.now else self.old) }
    {
        if is_new {
            self.holders.remove(row);
        }
    }

    /// Takes the locks of a session away. It walks all locks.
    pub fn release_all(&mut self, session: u16)
        ensures { self.new ≡ without_locks self.old session }
    {
        self.holders.retain(|_, holder| *holder != session);
    }
}
