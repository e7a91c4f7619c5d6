//! A store on one thread.
ghost use Rattle.std.specs.Prelude.{◌≡◌, ◌-◌, ◌≤◌, ◌<◌, ◌^◌, ℕ, map, length, min, IfOk, OnOk, OnErr};
ghost use Rattle.sf_types.specs.Limits.{IsInRange};
ghost use Rattle.sf_types.specs.declared.limits.TheConstants.{STORE_SESSIONS};
ghost use Rattle.sf_types.specs.Orders.Transcripts.{placed_block_count};
ghost use Rattle.sf_types.specs.Orders.RowEnds.{row_ends_of};
ghost use Rattle.sf_types.specs.Space.Placings.{all_blocks};
ghost use Rattle.sf_types.specs.Table.Versions.{commit_count};
ghost use Rattle.sf_types.specs.Play.Turns.{empty_stage};
ghost use Rattle.sf_book.specs.Books.{listed_place};
ghost use Rattle.sf_session.specs.Cores.{new_core};
ghost use Rattle.sf_plain_store.specs.Stores.{IsAtHomeIn, stage_of};
ghost use Rattle.sf_plain_store.specs.Turns.{KeepsCores, store_after_reclaim};

use crate::due_calls::{DueCall, no_due_calls};
use sf_block_space::FreeRuns;
use sf_book::Book;
use sf_types::{Closed, History, List, Mem, Options, PlaceList, Runs, TryCopy};
use std::alloc::Global;
use std::marker::Model;

/// A store on one thread, which never waits: its Book, its free blocks, and what it keeps for the due call of each session.
#[derive(Drop)]
pub struct PlainStore {
    pub(crate) book: Book,
    pub(crate) free: FreeRuns,
    pub(crate) due_calls: Vec<DueCall>,
    pub(crate) alloc: Global,
}

impl Model for PlainStore {
    ghost use Rattle.sf_plain_store.specs.Inside.Bodies.{IsStore, store_of};
    ghost use Rattle.sf_plain_store.specs.Stores.{StoreView};

    ghost Value = { StoreView };

    ghost view = { λ s. store_of s.book s.free.held s.due_calls.items };

    ghost invariant = { λ s. IsStore s.book s.free.held s.due_calls.items };
}

// The number of blocks of all places.
pub fn placed_blocks(places: &PlaceList) -> u64
    requires { placed_block_count places.now < 2 ^ 64 }
    ensures { result ≡ placed_block_count places.now }
{
    let mut blocks = 0u64;
    for place in places.as_slice() {
        blocks += place.runs.block_count();
    }
    blocks
}

// A copy of entries.
fn copied_history(alloc: Global, entries: &[sf_types::Entry]) -> Mem<History>
    ensures { IfOk result (λ history. history ≡ entries.now) }
{
    let mut history = List::new(alloc);
    for entry in entries {
        history.push(entry.copy()?)?;
    }
    Ok(history)
}

impl PlainStore {
    /// The store to which nothing was done, in which a new core of each of its sessions is at home.
    pub fn new(alloc: Global, options: Options, sessions: u16) -> Mem<PlainStore>
        requires options { IsInRange options }
        requires some { 1 ≤ sessions }
        requires few { sessions ≤ STORE_SESSIONS }
        ensures options { IfOk result (λ store. store.options ≡ options) }
        ensures sessions { IfOk result (λ store. store.sessions ≡ sessions) }
        ensures stage { IfOk result (λ store. stage_of store ≡ empty_stage options sessions) }
        ensures home { IfOk result (λ store. (s : ℕ) → 1 ≤ s → s ≤ sessions → IsAtHomeIn store (new_core s options.gather)) }
    {
        let free = FreeRuns::all(alloc, options.capacity)?;
        let due_calls = no_due_calls(alloc, sessions)?;
        match Book::new(alloc, options, sessions) {
            Ok(book) => Ok(PlainStore {
                book,
                free,
                due_calls,
                alloc,
            }),
            Err(error) => {
                drop((free, due_calls));
                Err(error)
            }
        }
    }

    /// The Book over which the store stands.
    pub fn book(&self) -> &Book
        ensures options { result.now.options ≡ self.now.options }
        ensures sessions { result.now.sessions ≡ self.now.sessions }
        ensures history { result.now.history ≡ self.now.history }
        ensures places { result.now.places ≡ self.now.space.places }
        ensures parked { result.now.parked ≡ self.now.space.parked }
    {
        &self.book
    }

    /// The Book over which the store stood.
    pub fn into_book(self) -> Book
        ensures options { result.options ≡ self.options }
        ensures sessions { result.sessions ≡ self.sessions }
        ensures history { result.history ≡ self.history }
        ensures places { result.places ≡ self.space.places }
        ensures parked { result.parked ≡ self.space.parked }
    {
        let PlainStore {
            book,
            free: _,
            due_calls: _,
            alloc: _,
        } = self;
        book
    }

    /// Makes the first `max` parked blocks free, or all where there are fewer. The answer is their number. After want of memory
    /// nothing has changed.
    pub fn reclaim_turn(&mut self, max: u64) -> Mem<u64>
        ensures store { OnOk result (self.new ≡ store_after_reclaim max self.old) }
        ensures count { IfOk result (λ count. count ≡ min max (length self.old.space.parked)) }
        ensures cores { OnOk result (KeepsCores self.old self.new) }
        ensures err { OnErr result (self.new ≡ self.old) }
    {
        let count = max.min(self.book.parked());
        let mut ripe = Runs::new(self.alloc);
        ripe.make_room(count)?;
        self.free.make_room(count)?;
        let taken = self.book.take_ripe(max, &mut ripe);
        self.free.give_back_within(&ripe);
        Ok(taken)
    }

    /// What the store gives: the history, where the contents stand that are in use, the capacity less their blocks, and the rows and
    /// the number of commits.
    pub fn close(self) -> Mem<Closed>
        ensures history { IfOk result (λ closed. closed.history ≡ self.history) }
        ensures places { IfOk result (λ closed. closed.places ≡ map (listed_place (stage_of self).table) self.space.places) }
        ensures free { IfOk result (λ closed. closed.free ≡ self.options.capacity - length (all_blocks self.space.places)) }
        ensures rows { IfOk result (λ closed. closed.rows ≡ row_ends_of (stage_of self).table) }
        ensures commits { IfOk result (λ closed. closed.now ≡ commit_count (stage_of self).table) }
    {
        let places = self.book.places()?;
        let free = u64::from(self.book.capacity()) - placed_blocks(&places);
        Ok(Closed {
            history: copied_history(self.alloc, self.book.history())?,
            places,
            free,
            rows: self.book.rows()?,
            now: self.book.now(),
        })
    }
}
