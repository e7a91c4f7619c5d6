//! The blocks that holders free together, counted off birth by birth.
ghost use Rattle.std.specs.Prelude.{◌≡◌, ◌≢◌, ◌+◌, ◌-◌, ◌≤◌, ◌<◌, ◌^◌, ◌==◌, cond, true, Some, ℕ, AllPairs, IfOk, OnOk};
ghost use Rattle.std.specs.FinMap as fin;
ghost use Rattle.sf_types.specs.Inside.Births.{IsRising};
ghost use Rattle.sf_lifetimes.specs.Inside.Counts.{AreHeld, holders_in};
ghost use Rattle.sf_lifetimes.specs.Inside.Counted.{places_in, IsCountedBy};
ghost use Rattle.sf_lifetimes.specs.Ledgers.{LedgerView, has_birth, freed_by};
ghost use Rattle.sf_lifetimes.specs.Inside.Tallies.{freed_sum, left_of, counted_off};
ghost use Rattle.sf_lifetimes.specs.Inside.Bounds.{IsBounded};

use crate::holding_map::HoldingMap;
use crate::place_map::PlaceMap;
use sf_room_map::RoomMap;
use sf_types::{Holder, Mem};
use std::alloc::Global;
use std::marker::Model;

// How many holders of a birth are left, and the number of its blocks.
#[derive(Drop)]
pub struct Tally {
    left: u64,
    blocks: u64,
}

// The births of which holders were counted off, seen as a finite map.
#[derive(Drop)]
pub struct TallyMap {
    entries: RoomMap<u128, Tally>,
    freed: u64,
}

impl Model for TallyMap {
    ghost use Rattle.std.specs.Prelude.{◌≡◌};
    ghost use Rattle.std.specs.Coded.{coded_ℕ};
    ghost use Rattle.std.specs.FinMap as fin;
    ghost use Rattle.sf_lifetimes.specs.contracts.tally.Tally as tally;
    ghost use Rattle.sf_lifetimes.specs.Inside.Tallies.{Tallies, freed_sum};

    ghost Value = { Tallies };

    ghost coded = { fin.code coded_ℕ tally.the_row.coded };

    ghost view = { λ m. fin.from_entries m.entries.held };

    ghost invariant = { λ m. m.freed ≡ freed_sum (fin.from_entries m.entries.held) };
}

// The number of blocks, or none where a holder is left.
fn blocks_if_none(left: u64, blocks: u64) -> u64
    ensures { result ≡ cond (left == 0) blocks 0 }
{
    if left == 0 { blocks } else { 0 }
}

impl TallyMap {
    // Nothing counted off.
    pub fn new(alloc: Global) -> TallyMap
        ensures { result ≡ fin.empty }
    {
        TallyMap {
            entries: RoomMap::new(alloc),
            freed: 0,
        }
    }

    // The number of blocks of the births of which no holder is left.
    pub fn freed(&self) -> u64
        ensures { result ≡ freed_sum self.now }
    {
        self.freed
    }

    // The number of holders of a birth that are left, out of so many.
    pub fn left(&self, birth: u128, holders: u64) -> u64
        ensures { result ≡ left_of (fin.get self.now birth) holders }
    {
        match self.entries.get(&birth) {
            Some(tally) => tally.left,
            None => holders,
        }
    }

    // Counts one holder of a birth off, which has so many holders and blocks.
    fn count(&mut self, birth: u128, holders: u64, blocks: u64) -> Mem<()>
        requires some { 1 ≤ left_of (fin.get self.old birth) holders }
        requires few { freed_sum self.old + blocks < 2 ^ 64 }
        ensures { OnOk result ((q : ℕ) → fin.get self.new q
            ≡ cond (q == birth) (Some (record { left = left_of (fin.get self.old birth) holders - 1; blocks = blocks })) (fin.get self.old q)) }
    {
        let left = self.left(birth, holders) - 1;
        let gained = blocks_if_none(left, blocks);
        self.entries.insert(birth, Tally { left, blocks })?;
        self.freed += gained;
        Ok(())
    }
}

// Counts one holder of each of some births off.
pub fn count_births(tally: &mut TallyMap, places: &PlaceMap, births: &[u128]) -> Mem<()>
    requires rising { IsRising births.now }
    requires held { AreHeld places.now.held births.now }
    requires left { (b : ℕ) → has_birth births.now b ≡ true → 1 ≤ left_of (fin.get tally.old b) (holders_in (fin.get places.now.held b)) }
    requires bounded { IsBounded tally.old places.now.held }
    ensures { OnOk result ((q : ℕ) → fin.get tally.new q
        ≡ cond (has_birth births.now q) (counted_off (fin.get places.now.held q) (fin.get tally.old q)) (fin.get tally.old q)) }
{
    let _live = places.live_blocks();
    for birth in births {
        let holders = places.holders_of(*birth);
        tally.count(*birth, holders, places.blocks_of(*birth))?;
    }
    Ok(())
}

// The blocks of the live births that none but these holders hold. Each is named once.
pub fn freed_blocks(
    alloc: Global,
    places: &PlaceMap,
    holdings: &HoldingMap,
    holders: &[Holder],
) -> Mem<u64>
    requires counted { IsCountedBy places.now.held holdings.now.held }
    requires once { AllPairs (λ holder other. holder ≢ other) holders.now }
    ensures { IfOk result (λ blocks. blocks ≡ freed_by (record { places = places_in places.now.held; holdings = holdings.now.held }) holders.now) }
{
    let mut tally = TallyMap::new(alloc);
    for holder in holders {
        count_births(&mut tally, places, holdings.births_of(holder))?;
    }
    Ok(tally.freed())
}
