//! Versions that were displaced, in the order in which they leave.
ghost use Rattle.std.specs.Prelude.{◌≡◌, ◌+◌, ◌≤◌, ◌<◌, [], ◌∷◌, ◌++◌, length, drop, slice_get, All, IfOk, OnOk};
ghost use Rattle.std.specs.List.Sorted.{IsNonDecreasingBy};
ghost use Rattle.std.specs.Option.{option_copied};
ghost use Rattle.sf_types.specs.Rooms.{MakesRoom, GrowsWithin};
ghost use Rattle.sf_retention.specs.Notes.{due_pairs, note_of};

use sf_types::{List, Mem, Name, TryCopy};
use std::alloc::Global;
use std::collections::VecDeque;
use std::marker::Model;

/// A version that was displaced: its row, the number of the commit that made it, and the number of the commit from which on
/// it is the row's value no longer.
#[derive(Drop)]
pub struct Note {
    pub row: Name,
    pub from: u64,
    pub until: u64,
}

/// A version: its row and the number of the commit that made it.
#[derive(Drop)]
pub struct Pair {
    pub name: Name,
    pub from: u64,
}

/// Versions, in order.
pub type PairList = List<Pair>;

/// Displaced versions, with room for more. They are seen as their list, in which `until` never falls, and the number of
/// notes that can still be taken without memory.
#[derive(Drop)]
pub struct Retention {
    notes: VecDeque<Note>,
    alloc: Global,
}

impl Model for Retention {
    ghost use Rattle.std.specs.Prelude.{◌-◌, List};
    ghost use Rattle.std.specs.VecDeque.{deque_capacity, deque_len};
    ghost use Rattle.std.specs.List.Sorted.{IsNonDecreasingBy};
    ghost use Rattle.sf_types.specs.Rooms.{Roomy};
    ghost use Rattle.sf_retention.specs.declared.retention.Note.{Note};

    ghost Value = { Roomy (List Note) };

    ghost view = { λ r. record { held = r.notes.items; spare = deque_capacity r.notes - deque_len r.notes } };

    ghost invariant = { λ r. IsNonDecreasingBy (λ note. note.until) r.notes.items };
}

impl Retention {
    /// No notes.
    pub fn new(alloc: Global) -> Mem<Retention>
        ensures { IfOk result (λ retention. retention.held ≡ []) }
    {
        Ok(Retention {
            notes: VecDeque::new(alloc),
            alloc,
        })
    }

    /// Makes room for so many notes more, which `note` then takes without memory.
    pub fn make_room(&mut self, notes: u64) -> Mem<()>
        ensures { MakesRoom self.old self.new notes result }
    {
        self.notes.reserve(notes as usize)?;
        Ok(())
    }

    /// The number of notes.
    pub fn len(&self) -> usize
        ensures { result ≡ length self.now.held }
    {
        self.notes.len()
    }

    /// The note that stands behind so many others. None exactly where there are no more. Along the notes `until` never falls.
    pub fn get(&self, at: usize) -> Option<&Note>
        ensures note { option_copied result ≡ slice_get self.now.held at }
        ensures rising { IsNonDecreasingBy (λ note. note.until) self.now.held }
    {
        self.notes.get(at)
    }

    /// Notes that the version that commit `from` gave a row was displaced by commit `until`, which is at least that of every
    /// note before. After want of memory nothing has changed.
    pub fn note(&mut self, name: Name, from: u64, until: u64) -> Mem<()>
        requires { All (λ note. note.until ≤ until) self.old.held }
        ensures held { OnOk result (self.new.held ≡ self.old.held ++ note_of name from until ∷ []) }
        ensures room { GrowsWithin self.old self.new 1 1 result }
    {
        let row = name;
        self.notes.push_back(Note { row, from, until })?;
        Ok(())
    }

    /// Notes a displaced version as `note` does, within the room. It takes no memory.
    pub fn note_within(&mut self, name: Name, from: u64, until: u64)
        requires until { All (λ note. note.until ≤ until) self.old.held }
        requires room { 1 ≤ self.old.spare }
        ensures held { self.new.held ≡ self.old.held ++ note_of name from until ∷ [] }
        ensures spare { self.old.spare ≤ self.new.spare + 1 }
    {
        // There is room, so that it takes no memory.
        let _noted = self.note(name, from, until);
    }

    /// The versions that were displaced by commit `floor` at the latest, in the order of their notes. It takes time in
    /// proportion to their number.
    pub fn due(&self, floor: u64) -> Mem<PairList>
        ensures { IfOk result (λ pairs. pairs ≡ due_pairs self.now.held floor) }
    {
        let mut pairs = List::new(self.alloc);
        for note in self.notes.iter() {
            if note.until > floor {
                break;
            }
            pairs.push(Pair {
                name: note.row.copy()?,
                from: note.from,
            })?;
        }
        Ok(pairs)
    }

    /// Takes the first `count` notes away. It takes no memory.
    pub fn done(&mut self, count: usize)
        requires { count ≤ length self.old.held }
        ensures held { self.new.held ≡ drop count self.old.held }
        ensures spare { self.old.spare ≤ self.new.spare }
    {
        for _ in 0..count {
            self.notes.pop_front();
        }
    }
}
