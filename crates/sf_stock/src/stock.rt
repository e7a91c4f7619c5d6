//! The stock of a store.
ghost use Rattle.std.specs.Prelude.{◌≡◌, ◌+◌, ◌-◌, ◌≤◌, ◌^◌, ◌++◌, List, [], true, length, map, take, min, All, IfOk, None};
ghost use Rattle.std.specs.Option.{option_copied, option_map};
ghost use Rattle.sf_types.specs.declared.holder.Holder.{Holder};
ghost use Rattle.sf_types.specs.Rooms.{MakesRoom};
ghost use Rattle.sf_types.specs.Space.BlockRuns.{blocks_in};
ghost use Rattle.sf_dedup.specs.Prints.{print_of};
ghost use Rattle.sf_lifetimes.specs.Ledgers.{held_by, freed_by};
ghost use Rattle.sf_stock.specs.Stocks.{empty_stock, is_stocked, with_new, with_holder, with_left_parked, shared_birth, IsNewPlace, IsSound, stocked_at, block_count, live_of, listed_place, without_ripe, freed_blocks, AreShifts, with_shifts};

use crate::known::Known;
use crate::listing::list_places;
use crate::new_content::NewContent;
use crate::parts::{
    add_shared, drop_births, forget, hold_births, park_all, place_runs, room_beside,
};
use sf_dedup::{Index, Print};
use sf_free_commit::Committed;
use sf_lifetimes::{GivenUp, Ledger, UnheldPlaces};
use sf_room_map::RoomMap;
use sf_shrink::ShiftList;
use sf_types::{Births, Blob, Holder, Mem, OutOfMemory, PlaceList, Runs};
use std::alloc::Global;
use std::marker::Model;

/// What a store keeps of contents, with room for more. An item of room is a birth that is placed, a run of its place, or a birth
/// of a holder's list. After `make_room` no call takes memory.
#[derive(Drop)]
pub struct Stock {
    ledger: Ledger,
    index: Index,
    known: RoomMap<u128, Known>,
    left: UnheldPlaces,
    parked: Committed,
    next: u128,
    runs: u64,
    room: u64,
    alloc: Global,
}

impl Model for Stock {
    ghost use Rattle.sf_types.specs.Rooms.{Roomy};
    ghost use Rattle.sf_types.specs.contracts.holder.Holder as holder;
    ghost use Rattle.std.specs.FinMap as fin;
    ghost use Rattle.std.specs.Coded.{coded_ℕ, coded_list};
    ghost use Rattle.sf_room_map.specs.Inside.Sorted.{roomy_code};
    ghost use Rattle.sf_stock.specs.Stocks.{StockView};
    ghost use Rattle.sf_stock.specs.Inside.Codes.{stock_code};
    ghost use Rattle.sf_stock.specs.Inside.Keeps.{stock_in, IsStock};

    ghost Value = { Roomy StockView };

    ghost coded = { roomy_code (stock_code (fin.code holder.the_row.coded (coded_list coded_ℕ))) };

    ghost view = { λ s. record {
      held = stock_in s.ledger.held s.known.held s.left.held s.parked.held s.next;
      spare = s.room;
    } };

    ghost invariant = { λ s. IsStock s.ledger s.index s.known s.left s.parked s.next s.runs s.room };
}

impl Stock {
    /// Nothing, and no room.
    pub fn new(alloc: Global) -> Mem<Stock>
        ensures held { IfOk result (λ stock. stock.held ≡ empty_stock) }
        ensures spare { IfOk result (λ stock. stock.spare ≡ 0) }
    {
        Ok(Stock {
            ledger: Ledger::new(alloc)?,
            index: Index::new(alloc)?,
            known: RoomMap::new(alloc),
            left: UnheldPlaces::new(alloc),
            parked: Committed::new(alloc),
            next: 1,
            runs: 0,
            room: 0,
            alloc,
        })
    }

    /// Makes room for so many items more.
    pub fn make_room(&mut self, items: u64) -> Mem<()>
        ensures { MakesRoom self.old self.new items result }
    {
        if items <= self.room {
            return Ok(());
        }
        if u128::from(items) > u128::MAX - self.next {
            return Err(OutOfMemory);
        }
        let births = room_beside(self.known.len() as u64, items)?;
        let runs = room_beside(self.runs, items)?;
        self.ledger.make_room(items)?;
        self.index.make_room(items)?;
        self.known.make_room(items)?;
        self.left.make_room(births)?;
        self.parked.make_room(runs)?;
        self.room = items;
        Ok(())
    }

    /// Takes a content that nobody holds yet, within the room, and answers its birth. Its blocks stand nowhere in the stock, are
    /// named once, and are as many as its bytes take, one at least. A shared content is one of which there is no equal one.
    pub fn place(&mut self, new: NewContent) -> u128
        requires place { IsNewPlace self.old.held new }
        requires content { new.content.is_shared ≡ true → shared_birth self.old.held.stocked new.content.bytes ≡ None }
        requires room { 1 + length new.runs ≤ self.old.spare }
        ensures birth { result ≡ self.old.held.next }
        ensures held { self.new.held ≡ with_new self.old.held new }
        ensures spare { self.old.spare ≤ self.new.spare + (1 + length new.runs) }
    {
        let birth = self.next;
        let (known, shared, runs) = new.into_parts();
        let count = runs.len() as u64;
        add_shared(&mut self.index, birth, known.print, shared);
        place_runs(&mut self.ledger, birth, runs);
        self.known.insert_within(birth, known);
        self.next += 1;
        self.runs += count;
        self.room -= 1 + count;
        birth
    }

    /// What a holder holds from now on, in place of what it held, within the room. Each birth has a place. The births that nobody
    /// holds any more leave, and nothing but their blocks is kept of them.
    pub fn hold(&mut self, holder: Holder, births: Births)
        requires births { All (λ birth. is_stocked self.old.held.stocked birth ≡ true) births }
        requires room { length births - length (held_by self.old.held.holdings holder) ≤ self.old.spare }
        ensures held { self.new.held ≡ with_holder self.old.held holder births }
        ensures spare { self.old.spare ≤ self.new.spare + (length births - length (held_by self.old.held.holdings holder)) }
    {
        let from = self.left.len();
        let old = self.ledger.births_of(&holder).len();
        let added = births.as_slice().len().saturating_sub(old) as u64;
        hold_births(&mut self.ledger, holder, births, &mut self.left);
        forget(
            &mut self.known,
            &mut self.index,
            &self.left.as_slice()[from..],
        );
        self.room -= added;
    }

    /// From now on a holder holds nothing. The births that nobody holds any more leave as in `hold`. It takes no memory.
    pub fn drop_holder(&mut self, holder: &Holder)
        ensures held { self.new.held ≡ with_holder self.old.held holder.now [] }
        ensures spare { self.new.spare ≡ self.old.spare }
    {
        // Each holder's births rise.
        let _ = self.ledger.births_of(holder);
        let from = self.left.len();
        drop_births(&mut self.ledger, holder, &mut self.left);
        forget(
            &mut self.known,
            &mut self.index,
            &self.left.as_slice()[from..],
        );
    }

    /// Parks the blocks of all births that left behind those that are parked, of a place that begins with a lower block first. It
    /// takes no memory.
    pub fn park_left(&mut self)
        ensures held { self.new.held ≡ with_left_parked self.old.held }
        ensures spare { self.new.spare ≡ self.old.spare }
    {
        self.left.sort_by_first();
        let parked = park_all(&mut self.parked, self.left.as_slice());
        self.left.clear();
        self.runs -= parked;
    }

    /// The birth of the shared content of these bytes, whose print is given. None exactly where no shared content has them.
    pub fn find(&self, print: &Print, content: &Blob) -> Option<u128>
        requires { print.now ≡ print_of content.now }
        ensures { result ≡ shared_birth self.now.held.stocked content.now }
    {
        self.index.find(print, content)
    }

    /// The number that the next birth gets, and what holds of every stock.
    pub fn next_birth(&self) -> u128
        ensures next { result ≡ self.now.held.next }
        ensures sound { IsSound self.now.held }
    {
        // No two contents of the index have the same bytes.
        let _ = self.index.len();
        self.next
    }

    /// The content of a birth that has a place, None exactly where it has none.
    pub fn content_of(&self, birth: u128) -> Option<&Blob>
        ensures { option_copied result ≡ option_map (λ x. x.content.bytes) (stocked_at self.now.held.stocked birth) }
    {
        match self.known.get(&birth) {
            Some(known) => Some(&known.content),
            None => None,
        }
    }

    /// The print of the content of a birth that has a place, None exactly where it has none.
    pub fn print_of(&self, birth: u128) -> Option<Print>
        ensures { result ≡ option_map (λ x. print_of x.content.bytes) (stocked_at self.now.held.stocked birth) }
    {
        match self.known.get(&birth) {
            Some(known) => Some(known.print),
            None => None,
        }
    }

    /// The number of parked blocks.
    pub fn parked(&self) -> u64
        ensures { result ≡ length self.now.held.parked }
    {
        self.parked.parked()
    }

    /// The number of blocks of the births that somebody holds, 2^32 at most.
    pub fn live_blocks(&self) -> u64
        ensures live { result ≡ block_count (live_of self.now.held) }
        ensures few { result ≤ 2 ^ 32 }
    {
        self.ledger.live_blocks()
    }

    /// Takes the first `max` parked blocks, or all where there are fewer, and puts their runs behind those of `into`, which has
    /// room for as many runs as blocks are taken. The answer is the number of the blocks. It takes no memory.
    pub fn take_ripe(&mut self, max: u64, into: &mut Runs) -> u64
        requires { min max (length self.old.held.parked) ≤ into.old.spare }
        ensures count { result ≡ min max (length self.old.held.parked) }
        ensures taken { blocks_in into.new.held ≡ blocks_in into.old.held ++ take result self.old.held.parked }
        ensures held { self.new.held ≡ without_ripe self.old.held result }
        ensures spare { self.new.spare ≡ self.old.spare }
        ensures into_spare { into.old.spare ≤ into.new.spare + result }
    {
        // The parked runs are no more than their blocks.
        let _ = self.parked.run_count();
        self.parked.take_batch(max, into)
    }

    /// The births that somebody holds, rising, each with its length, its digest and the maximal runs of its blocks.
    pub fn places(&self) -> Mem<PlaceList>
        ensures { IfOk result (λ places. places ≡ map listed_place (live_of self.now.held)) }
    {
        list_places(self.alloc, &self.known, &self.ledger)
    }

    /// No holder given up yet. What holders that are given up free is told block by block, and no call looks at the others.
    pub fn give_up(&self) -> GivenUp<'_>
        ensures holders { result.holders ≡ [] }
        ensures holdings { result.ledger.holdings ≡ self.now.held.holdings }
        ensures freed { (holders : List Holder) → freed_by result.ledger holders ≡ freed_blocks self.now.held holders }
    {
        self.ledger.give_up()
    }

    /// Moves all contents together, each to the one run of its shift. It takes no memory.
    pub fn shift(&mut self, shifts: ShiftList)
        requires { AreShifts self.old.held shifts }
        ensures held { self.new.held ≡ with_shifts self.old.held shifts }
        ensures spare { self.new.spare ≡ self.old.spare }
    {
        self.ledger.shift(shifts);
        self.runs = self.known.len() as u64;
    }
}
