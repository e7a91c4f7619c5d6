//! The whole table.
ghost use Rattle.std.specs.Prelude.{◌≡◌, is_some, is_none, IsTrue, IfOk, OnOk};
ghost use Rattle.std.specs.Option.{option_copied};
ghost use Rattle.sf_types.specs.Table.Parts.{opening_table};
ghost use Rattle.sf_types.specs.Table.Sessions.{has_session, session_of, with_session, row_value, holds_lock, is_busy, with_lock};
ghost use Rattle.sf_types.specs.Table.Versions.{commit_count, current_value, value_at};

use crate::content::Content;
use crate::copies::copies;
use crate::edits::front;
use crate::locks::Locks;
use crate::rows::Rows;
use crate::session::Session;
use crate::value::Value;
use crate::versions::{copied_commits, value_after};
use sf_types::{Mem, Name, Options, TryCopy};
use std::alloc::Global;
use std::marker::Model;

/// The whole table, seen as that of the rules.
#[derive(Drop)]
pub struct Table {
    pub options: Options,
    pub contents: Vec<Content>,
    pub commits: Vec<Rows>,
    pub floor: u64,
    pub locks: Locks,
    pub sessions: Vec<Session>,
    pub alloc: Global,
}

impl Model for Table {
    ghost use Rattle.sf_types.specs.Table.Parts.{Table as RulesTable};

    ghost Value = { RulesTable };

    ghost view = { λ t. record {
      options = t.options;
      contents = t.contents.items;
      commits = t.commits.items;
      floor = t.floor;
      locks = t.locks;
      sessions = t.sessions.items;
    } };
}

impl Table {
    /// The opening table of a store with these options and so many sessions.
    pub fn new(alloc: Global, options: Options, sessions: u16) -> Mem<Table>
        ensures { IfOk result (λ table. table ≡ opening_table options sessions) }
    {
        let mut parts = Vec::new(alloc);
        for _ in 0..sessions {
            parts.push(Session::new(alloc))?;
        }
        Ok(Table {
            options,
            contents: Vec::new(alloc),
            commits: Vec::new(alloc),
            floor: 0,
            locks: Locks::new(alloc),
            sessions: parts,
            alloc,
        })
    }

    /// Whether there is a session of that number.
    pub fn has_session(&self, s: u16) -> bool
        ensures { result ≡ has_session self.now s }
    {
        1 <= s && s as usize <= self.sessions.len()
    }

    /// A session's part.
    pub fn part(&self, s: u16) -> &Session
        requires { IsTrue (has_session self.now s) }
        ensures { result.now ≡ session_of self.now s }
    {
        &self.sessions[s as usize - 1]
    }

    /// Gives a session another part.
    pub fn put_part(&mut self, s: u16, part: Session)
        requires { IsTrue (has_session self.old s) }
        ensures { self.new ≡ with_session self.old s part }
    {
        self.sessions[s as usize - 1] = part;
    }

    /// Whether a row is present for a session.
    pub fn is_present(&self, s: u16, row: &Name) -> bool
        requires { IsTrue (has_session self.now s) }
        ensures { result ≡ is_some (row_value (session_of self.now s) (current_value self.now row.now) row.now) }
    {
        self.row_value(s, row).is_some()
    }

    /// Whether a row is absent for a session.
    pub fn is_absent(&self, s: u16, row: &Name) -> bool
        requires { IsTrue (has_session self.now s) }
        ensures { result ≡ is_none (row_value (session_of self.now s) (current_value self.now row.now) row.now) }
    {
        self.row_value(s, row).is_none()
    }

    /// Whether another session holds a row's lock.
    pub fn is_busy(&self, s: u16, row: &Name) -> bool
        ensures { result ≡ is_busy self.now.locks s row.now }
    {
        self.locks.is_busy(s, row)
    }

    /// Whether a session holds a row's lock.
    pub fn holds(&self, s: u16, row: &Name) -> bool
        ensures { result ≡ holds_lock self.now.locks s row.now }
    {
        self.locks.holds(s, row)
    }

    /// Takes a row's lock for a session. One that it holds already stays.
    pub fn take_lock(&mut self, s: u16, row: &Name) -> Mem<()>
        ensures { OnOk result (self.new ≡ record self.old { locks = with_lock self.old.locks s row.now }) }
    {
        self.locks.take(s, row.copy()?)
    }

    /// The number of commits.
    pub fn commit_count(&self) -> u64
        ensures { result ≡ commit_count self.now }
    {
        self.commits.len() as u64
    }

    /// What a row holds. None where it is absent.
    pub fn current_value(&self, row: &Name) -> Option<&Value>
        ensures { option_copied result ≡ current_value self.now row.now }
    {
        value_after(&self.commits, row)
    }

    /// What a row held after the first n commits. None where it was absent.
    pub fn value_at(&self, row: &Name, n: u64) -> Option<&Value>
        ensures { option_copied result ≡ value_at self.now row.now n }
    {
        value_after(front(&self.commits, n), row)
    }

    /// The row's value for a session.
    pub fn row_value(&self, s: u16, row: &Name) -> Option<&Value>
        requires { IsTrue (has_session self.now s) }
        ensures { option_copied result ≡ row_value (session_of self.now s) (current_value self.now row.now) row.now }
    {
        self.part(s).row_value(self.current_value(row), row)
    }
}

impl TryCopy for Table {
    fn copy(&self) -> Mem<Table> {
        Ok(Table {
            options: self.options,
            contents: copies(self.alloc, &self.contents)?,
            commits: copied_commits(self.alloc, &self.commits)?,
            floor: self.floor,
            locks: self.locks.copy()?,
            sessions: copies(self.alloc, &self.sessions)?,
            alloc: self.alloc,
        })
    }
}
