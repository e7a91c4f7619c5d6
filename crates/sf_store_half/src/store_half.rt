//! The store's half of the table.
ghost use Rattle.std.specs.Prelude.{◌≡◌, ◌+◌, ◌-◌, ◌≤◌, ◌++◌, ℕ, map, length, take, min, is_some, IfOk};
ghost use Rattle.std.specs.List.{list_all, list_any};
ghost use Rattle.sf_types.specs.Limits.{IsInRange};
ghost use Rattle.sf_types.specs.Space.BlockRuns.{blocks_in};
ghost use Rattle.sf_types.specs.Halves.Asks.{Half};
ghost use Rattle.sf_types.specs.Halves.Flushes.{half_free};
ghost use Rattle.sf_stock.specs.Stocks.{IsSound, AreShifts, listed_place, with_shifts, without_ripe};
ghost use Rattle.sf_store_half.specs.Fields.{Keeps, opening_fields};

use crate::openings::new_sessions;
use crate::session_fields::SessionField;
use sf_retention::Retention;
use sf_row_locks::RowLocks;
use sf_shrink::ShiftList;
use sf_stock::Stock;
use sf_types::{Mem, Options, PlaceList, Runs};
use sf_versions::{Answer, Versions};
use std::alloc::Global;
use std::marker::Model;

/// The store's half of the table, seen as its fields. All births that have a place are held, and none waits to be parked.
#[derive(Drop)]
pub struct StoreHalf {
    pub(crate) options: Options,
    pub(crate) locks: RowLocks,
    pub(crate) versions: Versions,
    pub(crate) notes: Retention,
    pub(crate) floor: u64,
    pub(crate) sessions: Vec<SessionField>,
    pub(crate) promised: u64,
    pub(crate) stock: Stock,
}

/// The answer to a call that was published, and those blocks that none of its contents takes.
#[derive(Drop)]
pub struct Published {
    pub answer: Answer,
    pub unused: Runs,
}

impl Model for StoreHalf {
    ghost use Rattle.std.specs.Coded.{codes, coded_ℕ, coded_list};
    ghost use Rattle.std.specs.FinMap as fin;
    ghost use Rattle.sf_types.specs.contracts.holder.Holder as holder;
    ghost use Rattle.sf_stock.specs.Inside.Codes.{stock_code};
    ghost use Rattle.sf_store_half.specs.Fields.{Fields};
    ghost use Rattle.sf_store_half.specs.Inside.Fields.{AreKept};

    ghost Value = { Fields };

    ghost coded = { Prim.hlevel (codes, stock_code (fin.code holder.the_row.coded (coded_list coded_ℕ))) };

    ghost view = { λ x. record {
      options = x.options;
      locks = x.locks.held;
      versions = x.versions.held;
      notes = x.notes.held;
      floor = x.floor;
      sessions = x.sessions.items;
      stock = x.stock.held;
    } };

    ghost invariant = { λ x. AreKept (record {
      options = x.options;
      locks = x.locks.held;
      versions = x.versions.held;
      notes = x.notes.held;
      floor = x.floor;
      sessions = x.sessions.items;
      stock = x.stock.held;
    }) x.promised };
}

impl StoreHalf {
    /// The half of a store to which nothing was done.
    pub fn new(alloc: Global, options: Options, sessions: u16) -> Mem<StoreHalf>
        requires { IsInRange options }
        ensures { IfOk result (λ half. half ≡ opening_fields options sessions) }
    {
        Ok(StoreHalf {
            options,
            locks: RowLocks::new(alloc)?,
            versions: Versions::new(alloc),
            notes: Retention::new(alloc)?,
            floor: 0,
            sessions: new_sessions(alloc, sessions)?,
            promised: 0,
            stock: Stock::new(alloc)?,
        })
    }

    /// The number of commits.
    pub fn now(&self) -> u64
        ensures { result ≡ self.now.versions.now }
    {
        self.versions.now()
    }

    /// The number of blocks of the store.
    pub fn capacity(&self) -> u32
        ensures { result ≡ self.now.options.capacity }
    {
        self.options.capacity
    }

    /// Whether all sessions have ended.
    pub fn all_ended(&self) -> bool
        ensures { result ≡ list_all (λ field. field.has_ended) self.now.sessions }
    {
        self.sessions.iter().all(|field| field.has_ended)
    }

    /// Whether a promise stands.
    pub fn has_promise(&self) -> bool
        ensures { result ≡ list_any (λ field. is_some field.promise) self.now.sessions }
    {
        self.sessions.iter().any(|field| field.promise.is_some())
    }

    /// The number of free blocks, which is one subtraction.
    pub fn free(&self) -> u64
        ensures { (h : Half) → Keeps self.now h → result ≡ half_free h }
    {
        let _sound = self.stock.next_birth();
        let used = self.stock.live_blocks() + self.promised;
        u64::from(self.options.capacity).saturating_sub(used)
    }

    /// The number of parked blocks.
    pub fn parked(&self) -> u64
        ensures { result ≡ length self.now.stock.parked }
    {
        self.stock.parked()
    }

    /// The number of the next birth. Its clause `sound` tells what holds of the stock of every store.
    pub fn next_birth(&self) -> u128
        ensures next { result ≡ self.now.stock.next }
        ensures sound { IsSound self.now.stock }
    {
        self.stock.next_birth()
    }

    /// Takes the first `max` parked blocks, or all where there are fewer, and puts their runs behind those of `into`, which has
    /// room for as many runs as blocks are taken. The answer is the number of the blocks. It takes no memory.
    pub fn take_ripe(&mut self, max: u64, into: &mut Runs) -> u64
        requires { min max (length self.old.stock.parked) ≤ into.old.spare }
        ensures count { result ≡ min max (length self.old.stock.parked) }
        ensures taken { blocks_in into.new.held ≡ blocks_in into.old.held ++ take result self.old.stock.parked }
        ensures fields { self.new ≡ record self.old { stock = without_ripe self.old.stock result } }
        ensures spare { into.old.spare ≤ into.new.spare + result }
    {
        self.stock.take_ripe(max, into)
    }

    /// The births in reach, rising, each with its length, its digest and the maximal runs of its blocks.
    pub fn places(&self) -> Mem<PlaceList>
        ensures { IfOk result (λ places. places ≡ map listed_place self.now.stock.stocked) }
    {
        self.stock.places()
    }

    /// Moves all contents together, each to the one run of its shift. It takes no memory.
    pub fn shift(&mut self, shifts: ShiftList)
        requires { AreShifts self.old.stock shifts }
        ensures { self.new ≡ record self.old { stock = with_shifts self.old.stock shifts } }
    {
        self.stock.shift(shifts);
    }
}
