//! Row locks.
ghost use Rattle.std.specs.Prelude.{◌≡◌, [], IfOk, OnOk};
ghost use Rattle.std.specs.List.{list_any};
ghost use Rattle.sf_types.specs.Inside.NameMaps.{is_same_name};
ghost use Rattle.sf_types.specs.Table.Sessions.{holds_lock, is_busy, with_lock, without_locks, locked_rows};
ghost use Rattle.sf_types.specs.Calls.Savepoints.{without_later_locks};

use sf_types::{Exact, Mem, Name, NameMap, TryCopy};
use std::alloc::{AllocError, Global};
use std::marker::Model;

/// The session that holds a lock, seen as its number.
#[derive(Drop)]
pub struct LockHolder {
    session: u16,
}

impl Model for LockHolder {
    ghost use Rattle.std.specs.Prelude.{ℕ};

    ghost Value = { ℕ };

    ghost view = { λ holder. holder.session };
}

impl Clone for LockHolder {
    ghost is_clone = { λ holder copied. copied ≡ holder };

    fn clone(&self) -> Result<LockHolder, AllocError> {
        Ok(LockHolder {
            session: self.session,
        })
    }
}

impl Exact for LockHolder {
    ghost exact = { λ holder copied is. is };
}

/// The locked rows, each with the session that holds its lock, seen as a finite map.
#[derive(Drop)]
pub struct Locks {
    holders: NameMap<Name, LockHolder>,
    alloc: Global,
}

impl Model for Locks {
    ghost use Rattle.std.specs.Prelude.{ℕ, List};

    ghost Value = { List (List ℕ × ℕ) };

    ghost view = { λ l. l.holders };
}

// Whether a row is among some rows.
fn is_among(row: &Name, rows: &[Name]) -> bool
    ensures { result ≡ list_any (is_same_name row.now) rows.now }
{
    rows.iter().any(|other| *row == *other)
}

impl Locks {
    /// No locks. It takes no memory.
    pub fn new(alloc: Global) -> Locks
        ensures { result ≡ [] }
    {
        Locks {
            holders: NameMap::new(alloc),
            alloc,
        }
    }

    /// Whether a session holds a row's lock.
    pub fn holds(&self, session: u16, row: &Name) -> bool
        ensures { result ≡ holds_lock self.now session row.now }
    {
        match self.holders.get(row) {
            Some(holder) => holder.session == session,
            None => false,
        }
    }

    /// Whether another session holds a row's lock.
    pub fn is_busy(&self, session: u16, row: &Name) -> bool
        ensures { result ≡ is_busy self.now session row.now }
    {
        match self.holders.get(row) {
            Some(holder) => holder.session != session,
            None => false,
        }
    }

    /// Takes a lock for a session. One that it holds already stays.
    pub fn take(&mut self, session: u16, row: Name) -> Mem<()>
        ensures { OnOk result (self.new ≡ with_lock self.old session row) }
    {
        if !self.holds(session, &row) {
            self.holders.insert(row, LockHolder { session })?;
        }
        Ok(())
    }

    /// The rows that a session has locked, in byte order of names.
    pub fn rows_of(&self, session: u16) -> Mem<Vec<Name>>
        ensures { IfOk result (λ rows. rows.items ≡ locked_rows self.now session) }
    {
        let mut rows = Vec::new(self.alloc);
        for (row, holder) in self.holders.as_map() {
            if holder.session == session {
                rows.push(row.copy()?)?;
            }
        }
        Ok(rows)
    }

    /// Releases the locks of a session. It takes no memory.
    pub fn release_all(&mut self, session: u16)
        ensures { self.new ≡ without_locks self.old session }
    {
        self.holders.retain(|_, holder| holder.session != session);
    }

    /// Releases the locks of a session on rows that aren't among some. It takes no memory.
    pub fn release_others(&mut self, session: u16, kept: &[Name])
        ensures { self.new ≡ without_later_locks self.old session kept.now }
    {
        self.holders.retain(|row, holder| holder.session != session || is_among(row, kept));
    }
}

impl TryCopy for Locks {
    fn copy(&self) -> Mem<Locks> {
        Ok(Locks {
            holders: self.holders.copy()?,
            alloc: self.alloc,
        })
    }
}
