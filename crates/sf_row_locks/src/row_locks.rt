//! Locks of rows, by row and by session.
ghost use Rattle.std.specs.Prelude.{◌≡◌, ◌+◌, ◌≤◌, [], not, None, Some, IfOk, OnOk};
ghost use Rattle.std.specs.Bool.{OnTrue, OnFalse};
ghost use Rattle.sf_types.specs.Rooms.{MakesRoom, GrowsWithin};
ghost use Rattle.sf_types.specs.Inside.NameMaps.{get, with_entry, without_entry};
ghost use Rattle.sf_types.specs.Table.Sessions.{is_busy, without_locks};
ghost use Rattle.sf_types.specs.Halves.Asks.{without_row_locks};
ghost use Rattle.sf_row_locks.specs.Locks.{locks_asked, locks_added, locks_released};
ghost use Rattle.sf_row_locks.specs.Inside.Slots.{slot_of, row_in, row_count, locks_in, AreSlotted, ReleasesOne};

use crate::slot::Slot;
use sf_room_map::{RoomMap, RowKey};
use sf_types::{Mem, Name};
use std::alloc::Global;
use std::marker::Model;

/// Locks of rows, seen as a finite map from names to sessions, with room for more. The rows of each session stand beside the
/// map, numbered from 0, so that all of them can be released without a look at the others.
#[derive(Drop)]
pub struct RowLocks {
    locks: RoomMap<RowKey, Slot>,
    rows: RoomMap<Slot, RowKey>,
    counts: RoomMap<u16, u64>,
}

impl Model for RowLocks {
    ghost use Rattle.std.specs.Prelude.{ℕ, min};
    ghost use Rattle.sf_types.specs.Rooms.{Roomy};
    ghost use Rattle.sf_types.specs.Inside.NameMaps.{NameMap};
    ghost use Rattle.sf_row_locks.specs.Inside.Slots.{locks_in, AreSlotted};

    ghost Value = { Roomy (NameMap ℕ) };

    ghost view = { λ l. record { held = locks_in l.locks.held; spare = min (min l.locks.spare l.rows.spare) l.counts.spare } };

    ghost invariant = { λ l. AreSlotted l.locks.held l.rows.held l.counts.held };
}

// The number of rows of a session.
fn row_count(counts: &RoomMap<u16, u64>, session: u16) -> u64
    ensures { result ≡ row_count counts.now.held session }
{
    match counts.get(&session) {
        Some(count) => *count,
        None => 0,
    }
}

// Puts a row that nobody has locked behind the rows of a session. It takes no memory.
fn add_row(
    locks: &mut RoomMap<RowKey, Slot>,
    rows: &mut RoomMap<Slot, RowKey>,
    counts: &mut RoomMap<u16, u64>,
    row: RowKey,
    session: u16,
)
    requires slotted { AreSlotted locks.old.held rows.old.held counts.old.held }
    requires new { slot_of locks.old.held row ≡ None }
    requires locks_room { 1 ≤ locks.old.spare }
    requires rows_room { 1 ≤ rows.old.spare }
    requires counts_room { 1 ≤ counts.old.spare }
    ensures slotted { AreSlotted locks.new.held rows.new.held counts.new.held }
    ensures locks { locks_in locks.new.held ≡ with_entry (locks_in locks.old.held) row session }
    ensures locks_spare { locks.old.spare ≤ locks.new.spare + 1 }
    ensures rows_spare { rows.old.spare ≤ rows.new.spare + 1 }
    ensures counts_spare { counts.old.spare ≤ counts.new.spare + 1 }
{
    // A session has no more rows than there are slots, so that one more can be counted.
    let _rows = rows.len();
    let at = row_count(counts, session);
    let slot = Slot { session, at };
    rows.insert_within(slot, row.again());
    locks.insert_within(row, slot);
    counts.insert_within(session, at + 1);
}

// Takes out the row in a slot. The last row of its session moves into the slot, so that the slots stay without a gap. It takes
// no memory.
fn drop_row(
    locks: &mut RoomMap<RowKey, Slot>,
    rows: &mut RoomMap<Slot, RowKey>,
    counts: &mut RoomMap<u16, u64>,
    row: &RowKey,
    slot: Slot,
)
    requires slotted { AreSlotted locks.old.held rows.old.held counts.old.held }
    requires row { row_in rows.old.held slot ≡ Some row.now }
    ensures slotted { AreSlotted locks.new.held rows.new.held counts.new.held }
    ensures locks { locks_in locks.new.held ≡ without_entry (locks_in locks.old.held) row.now }
    ensures locks_spare { locks.old.spare ≤ locks.new.spare }
    ensures rows_spare { rows.old.spare ≤ rows.new.spare }
    ensures counts_spare { counts.old.spare ≤ counts.new.spare }
{
    let last = Slot {
        session: slot.session,
        at: row_count(counts, slot.session) - 1,
    };
    let Some(moved) = rows.remove(&last) else {
        unreachable!();
    };
    locks.remove(row);
    if slot.at != last.at {
        locks.replace(&moved, slot);
        rows.replace(&slot, moved);
    }
    counts.replace(&slot.session, last.at);
}

impl RowLocks {
    /// No locks.
    pub fn new(alloc: Global) -> Mem<RowLocks>
        ensures { IfOk result (λ locks. locks.held ≡ []) }
    {
        Ok(RowLocks {
            locks: RoomMap::new(alloc),
            rows: RoomMap::new(alloc),
            counts: RoomMap::new(alloc),
        })
    }

    /// Makes room for so many locks more, which `take` then adds without memory.
    pub fn make_room(&mut self, locks: u64) -> Mem<()>
        ensures { MakesRoom self.old self.new locks result }
    {
        self.locks.make_room(locks)?;
        self.rows.make_room(locks)?;
        self.counts.make_room(locks)?;
        Ok(())
    }

    /// The session that holds a row's lock. None exactly where nobody does.
    pub fn holder(&self, name: &Name) -> Option<u16>
        ensures { result ≡ get self.now.held name.now }
    {
        match self.locks.get(&RowKey::of(name)) {
            Some(slot) => Some(slot.session),
            None => None,
        }
    }

    /// Takes a row's lock for a session. False exactly where another session holds it; then, and where the session holds it
    /// already, nothing changes. After want of memory nothing has changed.
    pub fn take(&mut self, name: Name, session: u16) -> Mem<bool>
        ensures taken { IfOk result (λ taken. taken ≡ not (is_busy self.old.held session name)) }
        ensures held { OnOk result (self.new.held ≡ locks_asked self.old.held session name) }
        ensures room { GrowsWithin self.old self.new (locks_added self.old.held name) (locks_added self.old.held name) result }
    {
        if let Some(holder) = self.holder(&name) {
            return Ok(holder == session);
        }
        self.make_room(1)?;
        add_row(
            &mut self.locks,
            &mut self.rows,
            &mut self.counts,
            RowKey::of(&name),
            session,
        );
        Ok(true)
    }

    /// Releases a row's lock where this session holds it. It takes no memory.
    pub fn release(&mut self, name: &Name, session: u16)
        ensures held { self.new.held ≡ locks_released self.old.held session name.now }
        ensures spare { self.old.spare ≤ self.new.spare }
    {
        let row = RowKey::of(name);
        let Some(slot) = self.locks.get(&row) else {
            return;
        };
        let slot = *slot;
        if slot.session == session {
            drop_row(
                &mut self.locks,
                &mut self.rows,
                &mut self.counts,
                &row,
                slot,
            );
        }
    }

    /// Releases those of some rows' locks that this session holds. It takes no memory, and time in proportion to the number of the
    /// rows.
    pub fn release_listed(&mut self, names: &[Name], session: u16)
        ensures held { self.new.held ≡ without_row_locks self.old.held session names.now }
        ensures spare { self.old.spare ≤ self.new.spare }
    {
        for name in names {
            // The names of the locks rise.
            let _ = self.locks.len();
            self.release(name, session);
        }
    }

    // Releases the last row that a session has locked. False exactly where it has none.
    fn release_last(&mut self, session: u16) -> bool
        ensures released { OnTrue result (ReleasesOne self.old.held self.new.held session) }
        ensures none { OnFalse result (without_locks self.old.held session ≡ self.old.held) }
        ensures unchanged { OnFalse result (self.new.held ≡ self.old.held) }
        ensures spare { self.old.spare ≤ self.new.spare }
    {
        let count = row_count(&self.counts, session);
        if count == 0 {
            return false;
        }
        let slot = Slot {
            session,
            at: count - 1,
        };
        let Some(row) = self.rows.get(&slot) else {
            unreachable!();
        };
        let row = row.again();
        drop_row(
            &mut self.locks,
            &mut self.rows,
            &mut self.counts,
            &row,
            slot,
        );
        true
    }

    /// Releases all locks of a session. It takes no memory, and time in proportion to the session's locks.
    pub fn release_all(&mut self, session: u16)
        ensures held { self.new.held ≡ without_locks self.old.held session }
        ensures spare { self.old.spare ≤ self.new.spare }
    {
        while self.release_last(session) {}
    }
}
