//! The plain table.
ghost use Rattle.std.specs.Prelude.{◌≡◌, ◌+◌, ◌-◌, ◌<◌, ◌≤◌, ◌^◌, length, IsTrue, Some, true, false, is_some, IfOk, OnOk, OnErr, not, ◌↔◌, max, if◌then◌else◌};
ghost use Rattle.std.specs.Option.{option_copied, option_map};
ghost use Rattle.sf_types.specs.Limits.{IsInRange};
ghost use Rattle.sf_types.specs.Table.Parts.{opening_table};
ghost use Rattle.sf_types.specs.Table.Versions.{commit_count, current_value};
ghost use Rattle.sf_types.specs.Orders.RowEnds.{row_ends_of};
ghost use Rattle.sf_types.specs.Table.Sessions.{has_session, session_of, row_value, holds_lock, is_busy, with_lock, without_locks};
ghost use Rattle.sf_types.specs.Inside.NameMaps.{without_entry};
ghost use Rattle.sf_types.specs.Calls.RowCalls.{after_insert, after_lock, insert_call, lock_call};
ghost use Rattle.sf_types.specs.Calls.LocatorCalls.{locator_named, length_call, read_call};
ghost use Rattle.sf_types.specs.Calls.TransactionEnds.{floor_after, commit_call, end_call};
ghost use Rattle.sf_types.specs.declared.call.Call.TheVariants as calls;
ghost use Rattle.sf_types.specs.declared.reply.Fault.{Fault as Refusal};
ghost use Rattle.sf_types.specs.declared.reply.Reply.TheVariants as replies;
ghost use Rattle.sf_types.specs.Calls.Steps.{part_step, write_step, step};
ghost use Rattle.sf_model.specs.Provisional.{has_step, never_due};
ghost use Rattle.sf_types.specs.Orders.Histories.{IsLegalWhere, entry_effect};

use crate::locks::Locks;
use crate::rows::{Rows, apply_changes, changes_of, name_rows, rows_present, value_in};
use crate::session::Session;
use crate::value::Value;
use sf_types::{
    Call, Fault, Kind, LocName, Mem, Name, NameMap, Options, Reply, RowList, Token, TryCopy,
};
use std::alloc::Global;
use std::marker::Model;

/// The table in a running form, seen as the table. Today it follows the provisional rule `never_due` in the place of
/// `is_due`: no call flushes, so no contents are given out, and no promise stands.
#[derive(Drop)]
pub struct Plain {
    options: Options,
    commits: Vec<Rows>,
    // What each row holds, in one map.
    current: Rows,
    floor: u64,
    locks: Locks,
    sessions: Vec<Session>,
    alloc: Global,
}

impl Model for Plain {
    ghost use Rattle.std.specs.Prelude.{[]};
    ghost use Rattle.sf_types.specs.Table.Parts.{Table};

    ghost Value = { Table };

    ghost use Rattle.sf_model.specs.Index.{HoldsCurrent};

    ghost view = { λ p. record {
      options = p.options;
      contents = [];
      commits = p.commits.items;
      floor = p.floor;
      locks = p.locks;
      sessions = p.sessions.items;
    } };

    ghost invariant = { λ p. HoldsCurrent p.current p.commits.items };
}

// Insert of a row that isn't busy and isn't present, or nothing.
fn insert_into(locks: &mut Locks, part: &mut Session, session: u16, row: &Name) -> Mem<()>
    requires { is_busy locks.old session row.now ≡ false }
    ensures locks { OnOk result (locks.new ≡ with_lock locks.old session row.now) }
    ensures part { OnOk result (part.new ≡ after_insert part.old row.now) }
    ensures err_locks { OnErr result (locks.new ≡ locks.old) }
    ensures err_part { OnErr result (part.new ≡ part.old) }
{
    let name = row.copy()?;
    let is_new = locks.take(session, row.copy()?)?;
    match part.insert_row(name) {
        Ok(()) => Ok(()),
        Err(error) => {
            locks.give_back(row, is_new);
            Err(error)
        }
    }
}

// Lock of a row that isn't busy and has this value, or nothing.
fn lock_into(
    locks: &mut Locks,
    part: &mut Session,
    session: u16,
    to: &LocName,
    row: &Name,
    value: Value,
) -> Mem<()>
    requires { is_busy locks.old session row.now ≡ false }
    ensures locks { OnOk result (locks.new ≡ with_lock locks.old session row.now) }
    ensures part { OnOk result (part.new ≡ after_lock part.old to.now row.now value) }
    ensures err_locks { OnErr result (locks.new ≡ locks.old) }
    ensures err_part { OnErr result (part.new ≡ part.old) }
{
    let name = row.copy()?;
    let at = to.copy()?;
    let is_new = locks.take(session, row.copy()?)?;
    match part.lock_row(at, name, value) {
        Ok(()) => Ok(()),
        Err(error) => {
            locks.give_back(row, is_new);
            Err(error)
        }
    }
}

// The floor after the commit that makes the number of commits `count`.
fn floor_after(options: &Options, floor: u64, count: u64) -> u64
    ensures { result ≡ floor_after options.now floor count }
{
    if options.max {
        floor
    } else {
        floor.max(count.saturating_sub(u64::from(options.retention)))
    }
}

impl Plain {
    /// The opening table of a store with these options and 1 to 16 sessions.
    pub fn new(alloc: Global, options: Options, sessions: u16) -> Mem<Plain>
        requires options { IsInRange options }
        requires some { 1 ≤ sessions }
        requires few { sessions ≤ 16 }
        ensures { IfOk result (λ plain. plain ≡ opening_table options sessions) }
    {
        let mut parts = Vec::new(alloc);
        for _ in 0..sessions {
            parts.push(Session::new(alloc))?;
        }
        Ok(Plain {
            options,
            commits: Vec::new(alloc),
            current: NameMap::new(alloc),
            floor: 0,
            locks: Locks::new(alloc),
            sessions: parts,
            alloc,
        })
    }

    /// The number of commits.
    pub fn now(&self) -> u64
        ensures { result ≡ commit_count self.now }
    {
        self.commits.len() as u64
    }

    /// What is told of each row that is present, in byte order of names.
    pub fn rows(&self) -> Mem<RowList>
        ensures { IfOk result (λ rows. rows ≡ row_ends_of self.now) }
    {
        let rows = rows_present(self.alloc, &self.current)?;
        Ok(rows)
    }

    // What a row holds.
    fn current_value(&self, row: &Name) -> Option<&Value>
        ensures { option_copied result ≡ current_value self.now row.now }
    {
        value_in(&self.current, row)
    }

    // The row's value for a session.
    fn row_value(&self, session: u16, row: &Name) -> Option<&Value>
        requires { IsTrue (has_session self.now session) }
        ensures { option_copied result ≡ row_value (session_of self.now session) (current_value self.now row.now) row.now }
    {
        let part = &self.sessions[session as usize - 1];
        part.row_value(self.current_value(row), row)
    }

    // Whether the row is present for a session.
    fn is_present(&self, session: u16, row: &Name) -> bool
        requires { IsTrue (has_session self.now session) }
        ensures { result ≡ is_some (row_value (session_of self.now session) (current_value self.now row.now) row.now) }
    {
        self.row_value(session, row).is_some()
    }

    fn insert(&mut self, session: u16, row: &Name) -> Mem<Reply>
        requires { IsTrue (has_session self.old session) }
        ensures ok { IfOk result (λ reply. (self.new, reply) ≡ insert_call self.old session (session_of self.old session) row.now) }
        ensures err { OnErr result (self.new ≡ self.old) }
    {
        if self.locks.is_busy(session, row) {
            return Ok(Reply::Refused(Fault::Busy));
        }
        if self.is_present(session, row) {
            return Ok(Reply::Refused(Fault::Duplicate));
        }
        let part = &mut self.sessions[session as usize - 1];
        insert_into(&mut self.locks, part, session, row)?;
        Ok(Reply::Done)
    }

    // A session's part.
    fn part(&self, session: u16) -> &Session
        requires { IsTrue (has_session self.now session) }
        ensures { result.now ≡ session_of self.now session }
    {
        &self.sessions[session as usize - 1]
    }

    // A copy of the row's value for a session.
    fn copied_row_value(&self, session: u16, row: &Name) -> Mem<Option<Value>>
        requires { IsTrue (has_session self.now session) }
        ensures { IfOk result (λ value. value ≡ row_value (session_of self.now session) (current_value self.now row.now) row.now) }
    {
        match self.row_value(session, row) {
            Some(value) => Ok(Some(value.copy()?)),
            None => Ok(None),
        }
    }

    fn lock(&mut self, session: u16, to: &LocName, row: &Name) -> Mem<Reply>
        requires { IsTrue (has_session self.old session) }
        ensures ok { IfOk result (λ reply. (self.new, reply) ≡ lock_call self.old session (session_of self.old session) to.now row.now) }
        ensures err { OnErr result (self.new ≡ self.old) }
    {
        if self.part(session).lacks_room(to) {
            return Ok(Reply::Refused(Fault::TooManyLocators));
        }
        if self.locks.is_busy(session, row) {
            return Ok(Reply::Refused(Fault::Busy));
        }
        let Some(value) = self.copied_row_value(session, row)? else {
            return Ok(Reply::Refused(Fault::NoSuchRow));
        };
        let part = &mut self.sessions[session as usize - 1];
        lock_into(&mut self.locks, part, session, to, row, value)?;
        Ok(Reply::Done)
    }

    fn length(&self, session: u16, at: &LocName) -> Reply
        requires { IsTrue (has_session self.now session) }
        ensures { (self.now, result) ≡ part_step self.now session (length_call (session_of self.now session) at.now) }
    {
        self.part(session).length(at)
    }

    fn read(&self, session: u16, at: &LocName, amount: u64, offset: u64) -> Mem<Reply>
        requires { IsTrue (has_session self.now session) }
        ensures { IfOk result (λ reply. (self.now, reply) ≡ part_step self.now session (read_call (session_of self.now session) at.now amount offset)) }
    {
        let reply = self.part(session).read(at, amount, offset)?;
        Ok(reply)
    }

    // The row of a locator, or none where there is no such locator.
    fn row_of(&self, session: u16, at: &LocName) -> Mem<Option<Name>>
        requires { IsTrue (has_session self.now session) }
        ensures { IfOk result (λ row. row ≡ option_map (λ l. l.row) (locator_named (session_of self.now session) at.now)) }
    {
        match self.part(session).locator(at) {
            Some(locator) => Ok(Some(locator.row.copy()?)),
            None => Ok(None),
        }
    }

    fn write_append(&mut self, session: u16, at: &LocName, buffer: &[u8]) -> Mem<Reply>
        requires { IsTrue (has_session self.old session) }
        ensures ok { IfOk result (λ reply. (self.new, reply) ≡ write_step self.old session (session_of self.old session) at.now (calls.WriteAppend at.now buffer.now)) }
        ensures err { OnErr result (self.new ≡ self.old) }
    {
        let Some(row) = self.row_of(session, at)? else {
            return Ok(Reply::Refused(Fault::UnknownLocator));
        };
        let is_held = self.locks.holds(session, &row);
        let current = value_in(&self.current, &row);
        let part = &mut self.sessions[session as usize - 1];
        let reply = part.write_append(is_held, current, at, buffer)?;
        Ok(reply)
    }

    fn end(&mut self, session: u16) -> Reply
        requires { IsTrue (has_session self.old session) }
        ensures { (self.new, result) ≡ end_call self.old session (session_of self.old session) }
    {
        let part = &mut self.sessions[session as usize - 1];
        part.end();
        self.locks.release_all(session);
        Reply::Ended
    }

    fn commit(&mut self, session: u16) -> Mem<Reply>
        requires { IsTrue (has_session self.old session) }
        ensures ok { IfOk result (λ reply. (self.new, reply) ≡ commit_call self.old session (session_of self.old session)) }
        ensures err { OnErr result (self.new ≡ self.old) }
    {
        if !self.part(session).is_open() {
            return Ok(Reply::Committed(self.now()));
        }
        let part = &mut self.sessions[session as usize - 1];
        let changes = changes_of(self.alloc, part.working())?;
        self.commits.reserve(1)?;
        name_rows(&mut self.current, &changes)?;
        // From here on nothing wants memory.
        self.commits.push_reserved(part.commit());
        apply_changes(&mut self.current, changes);
        self.locks.release_all(session);
        let count = self.commits.len() as u64;
        self.floor = floor_after(&self.options, self.floor, count);
        Ok(Reply::Committed(count))
    }

    /// Whether an entry with this token and call is legal now.
    pub fn legal(&self, token: Token, _call: &Call) -> bool
        ensures { IsTrue result ↔ IsLegalWhere (never_due self.now token.session _call.now) self.now token.session token.kind _call.now }
    {
        let session = token.session;
        if session == 0 || session as usize > self.sessions.len() {
            return false;
        }
        let part = &self.sessions[session as usize - 1];
        if part.has_ended() || part.has_promise() {
            return false;
        }
        match token.kind {
            Kind::Call => true,
            Kind::Promise | Kind::Cancel => false,
        }
    }

    /// One legal entry: the reply, and the table after it. The answer is none exactly for a promise and a cancel, and
    /// neither is legal today. After a refusal and after want of memory the table is as before.
    pub fn step(&mut self, token: Token, call: &Call) -> Mem<Option<Reply>>
        requires legal { IsLegalWhere (never_due self.old token.session call.now) self.old token.session token.kind call.now }
        requires built { IsTrue (has_step call.now) }
        ensures ok { IfOk result (λ answer. (self.new, answer) ≡ entry_effect self.old token.session token.kind call.now) }
        ensures refused { IfOk result (λ answer. (fault : Refusal) → answer ≡ Some (replies.Refused fault) → self.new ≡ self.old) }
        ensures err { OnErr result (self.new ≡ self.old) }
    {
        // No promise stands today, and no call is due.
        if self.part(token.session).has_promise() {
            unreachable!();
        }
        match token.kind {
            Kind::Call => {
                let reply = self.call(token.session, call)?;
                Ok(Some(reply))
            }
            Kind::Promise | Kind::Cancel => unreachable!(),
        }
    }

    // One call of a session that has a step.
    fn call(&mut self, session: u16, call: &Call) -> Mem<Reply>
        requires session { IsTrue (has_session self.old session) }
        requires built { IsTrue (has_step call.now) }
        ensures ok { IfOk result (λ reply. (self.new, reply) ≡ step self.old session call.now) }
        ensures err { OnErr result (self.new ≡ self.old) }
    {
        match call {
            Call::Insert { row } => self.insert(session, row),
            Call::Lock { to, row } => self.lock(session, to, row),
            Call::WriteAppend { at, bytes } => self.write_append(session, at, bytes.as_bytes()),
            Call::Length { at } => Ok(self.length(session, at)),
            Call::Read { at, amount, offset } => self.read(session, at, *amount, *offset),
            Call::Commit => self.commit(session),
            Call::End => Ok(self.end(session)),
            _ => unreachable!(),
        }
    }
}
