//! The places of births with the number of their holders.
ghost use Rattle.std.specs.Prelude.{◌≡◌, ℕ, ◌+◌, ◌<◌, ◌≤◌, ◌^◌, ◌==◌, ◌++◌, ◌∷◌, [], cond, map, length, All, None, Some, Option, OnOk, IfOk, IsSome};
ghost use Rattle.std.specs.Option.{option_copied};
ghost use Rattle.std.specs.FinMap as fin;
ghost use Rattle.std.specs.Ordering.{nat_cmp};
ghost use Rattle.sf_types.specs.Inside.Births.{IsRising};
ghost use Rattle.sf_types.specs.Space.BlockRuns.{blocks_in};
ghost use Rattle.sf_types.specs.Rooms.{MakesRoom, GrowsWithin, MovesWithin};
ghost use Rattle.sf_room_map.specs.Entries.{value_for};
ghost use Rattle.sf_shrink.specs.Plans.{ArePlaced};
ghost use Rattle.sf_lifetimes.specs.Shifts.{AreSafeShifts};
ghost use Rattle.sf_lifetimes.specs.Inside.Counted.{live_places_in, waiting_places_in};
ghost use Rattle.sf_lifetimes.specs.Inside.Counts.{live_sum, holders_in, runs_in, live_runs, live_place, with_one_more, with_one_fewer, IsChangedAt, AreChangedBut, AreExchanged, AreFew, AreHeld, IsFree, without_holder, last_births, lone_births, runs_of_births, with_runs, with_shifts};

use crate::counted::{Counted, NewRuns, OneFewer, OneMore, runs_if_held};
use crate::rising::{place_from, stands_at};
use crate::unheld_places::UnheldPlaces;
use sf_room_map::RoomMap;
use sf_shrink::{Shift, ShiftList};
use sf_types::{BirthRuns, BirthRunsList, ContentRuns, List, Mem, TryCopy};
use std::alloc::Global;
use std::marker::Model;

// The number of blocks of a birth's place, none where it has no place.
fn blocks_at(entries: &RoomMap<u128, Counted>, birth: u128) -> u64
    requires { length (blocks_in (runs_in (value_for nat_cmp entries.now.held birth))) < 2 ^ 64 }
    ensures { result ≡ length (blocks_in (runs_in (value_for nat_cmp entries.now.held birth))) }
{
    match entries.get(&birth) {
        Some(counted) => counted.runs.block_count(),
        None => 0,
    }
}

// The number of blocks of a birth's place where it had no holders, and else 0.
fn blocks_if_unheld(entries: &RoomMap<u128, Counted>, birth: u128, holders: u64) -> u64
    requires { length (blocks_in (runs_in (value_for nat_cmp entries.now.held birth))) < 2 ^ 64 }
    ensures { result ≡ cond (holders == 0) (length (blocks_in (runs_in (value_for nat_cmp entries.now.held birth)))) 0 }
{
    if holders == 0 {
        blocks_at(entries, birth)
    } else {
        0
    }
}

// Puts a birth with a copy of its runs at the end of a list, where some holder holds it.
fn push_if_held(places: &mut BirthRunsList, birth: u128, counted: &Counted) -> Mem<()>
    ensures { OnOk result (places.new ≡ places.old ++ live_place birth (live_runs (Some counted.now))) }
{
    if let Some(runs) = runs_if_held(counted) {
        places.push(BirthRuns {
            birth,
            runs: runs.copy()?,
        })?;
    }
    Ok(())
}

// Gives a birth that has a place other runs. It takes no memory.
fn shift_one(entries: &mut RoomMap<u128, Counted>, birth: u128, to: ContentRuns)
    requires { IsSome (value_for nat_cmp entries.old.held birth) }
    ensures changed { (q : ℕ) → value_for nat_cmp entries.new.held q
        ≡ cond (q == birth) (with_runs to (value_for nat_cmp entries.old.held q)) (value_for nat_cmp entries.old.held q) }
    ensures spare { entries.new.spare ≡ entries.old.spare }
{
    entries.exchange(&birth, &mut NewRuns { runs: to });
}

// Gives each birth of a list other runs. Each has a place. It takes no memory.
fn shift_all(entries: &mut RoomMap<u128, Counted>, shifts: Vec<Shift>)
    requires { All (λ shift. IsSome (value_for nat_cmp entries.old.held shift.birth)) shifts.items }
    ensures changed { (q : ℕ) → value_for nat_cmp entries.new.held q ≡ with_shifts shifts.items q (value_for nat_cmp entries.old.held q) }
    ensures spare { entries.new.spare ≡ entries.old.spare }
{
    let mut rest = shifts;
    while let Some(shift) = rest.pop() {
        shift_one(entries, shift.birth, shift.to);
    }
}

/// Places by births, seen as a finite map, with room for more.
#[derive(Drop)]
pub struct PlaceMap {
    entries: RoomMap<u128, Counted>,
    live: u64,
}

impl Model for PlaceMap {
    ghost use Rattle.std.specs.Coded.{coded_ℕ};
    ghost use Rattle.std.specs.FinMap as fin;
    ghost use Rattle.std.specs.Ordering.{nat_cmp};
    ghost use Rattle.sf_types.specs.Rooms.{Roomy};
    ghost use Rattle.sf_room_map.specs.Inside.Sorted.{roomy_code};
    ghost use Rattle.sf_lifetimes.specs.Inside.Counts.{CountedMap, IsCounted};
    ghost use Rattle.sf_lifetimes.specs.contracts.counted.Counted as counted;

    ghost Value = { Roomy CountedMap };

    ghost coded = { roomy_code (fin.code coded_ℕ counted.the_row.coded) };

    ghost view = { λ m. record { held = fin.from_entries m.entries.held; spare = m.entries.spare } };

    ghost invariant = { λ m. IsCounted (fin.from_entries m.entries.held) m.live };
}

impl PlaceMap {
    // No places.
    pub fn new(alloc: Global) -> PlaceMap
        ensures { result.held ≡ fin.empty }
    {
        PlaceMap {
            entries: RoomMap::new(alloc),
            live: 0,
        }
    }

    // Makes room for so many places more.
    pub fn make_room(&mut self, count: u64) -> Mem<()>
        ensures { MakesRoom self.old self.new count result }
    {
        self.entries.make_room(count)
    }

    // The place of a birth.
    fn get(&self, birth: u128) -> Option<&Counted>
        ensures { option_copied result ≡ fin.get self.now.held birth }
    {
        self.entries.get(&birth)
    }

    // The number of holders of a birth, none where it has no place.
    pub fn holders_of(&self, birth: u128) -> u64
        ensures { result ≡ holders_in (fin.get self.now.held birth) }
    {
        match self.get(birth) {
            Some(counted) => counted.holders,
            None => 0,
        }
    }

    // The runs of a birth that some holder holds.
    pub fn runs_of(&self, birth: u128) -> Option<&ContentRuns>
        ensures { option_copied result ≡ live_runs (fin.get self.now.held birth) }
    {
        match self.get(birth) {
            Some(counted) => runs_if_held(counted),
            None => None,
        }
    }

    // The number of blocks of a birth's place, none where it has no place.
    pub fn blocks_of(&self, birth: u128) -> u64
        ensures { result ≡ length (blocks_in (runs_in (fin.get self.now.held birth))) }
    {
        blocks_at(&self.entries, birth)
    }

    // The number of blocks of places that some holder holds.
    pub fn live_blocks(&self) -> u64
        ensures live { result ≡ live_sum self.now.held }
        ensures few { result ≤ 2 ^ 32 }
    {
        self.live
    }

    // Puts the place of a birth that has none, held by nobody.
    pub fn insert(&mut self, birth: u128, runs: ContentRuns) -> Mem<()>
        requires new { fin.get self.old.held birth ≡ None }
        requires free { IsFree self.old.held runs }
        ensures ok { OnOk result (self.new.held ≡ fin.insert self.old.held birth (without_holder runs)) }
        ensures room { GrowsWithin self.old self.new 1 1 result }
    {
        self.entries.insert(birth, Counted { runs, holders: 0 })?;
        Ok(())
    }

    // One holder more at a birth that has a place. It takes no memory.
    fn raise(&mut self, birth: u128)
        requires placed { IsSome (fin.get self.old.held birth) }
        requires few { holders_in (fin.get self.old.held birth) < 2 ^ 63 }
        ensures changed { IsChangedAt with_one_more self.old.held birth self.new.held }
        ensures spare { self.new.spare ≡ self.old.spare }
    {
        let mut more = OneMore { before: 0 };
        self.entries.exchange(&birth, &mut more);
        self.live += blocks_if_unheld(&self.entries, birth, more.before);
    }

    // One holder fewer at a birth that has more than one. It takes no memory.
    fn lower(&mut self, birth: u128)
        requires { 2 ≤ holders_in (fin.get self.old.held birth) }
        ensures changed { IsChangedAt with_one_fewer self.old.held birth self.new.held }
        ensures spare { self.new.spare ≡ self.old.spare }
    {
        self.entries.exchange(&birth, &mut OneFewer);
    }

    // Takes out the place of a birth that has one holder. It takes no memory.
    fn take(&mut self, birth: u128) -> ContentRuns
        requires { holders_in (fin.get self.old.held birth) ≡ 1 }
        ensures runs { result ≡ runs_in (fin.get self.old.held birth) }
        ensures changed { IsChangedAt with_one_fewer self.old.held birth self.new.held }
        ensures spare { self.old.spare ≤ self.new.spare }
    {
        // Each birth stands once among the entries, so that it is gone with the one.
        let _ = self.entries.len();
        let Some(counted) = self.entries.remove(&birth) else {
            unreachable!();
        };
        self.live -= counted.runs.block_count();
        counted.runs
    }

    // One holder fewer at a birth, whose place goes into a list with room for it where that was the last. It takes no
    // memory.
    fn release(&mut self, birth: u128, into: &mut UnheldPlaces)
        requires held { 1 ≤ holders_in (fin.get self.old.held birth) }
        requires room { length (last_births self.old.held (birth ∷ [])) ≤ into.old.spare }
        ensures changed { IsChangedAt with_one_fewer self.old.held birth self.new.held }
        ensures into { into.new.held ≡ into.old.held ++ runs_of_births self.old.held (last_births self.old.held (birth ∷ [])) }
        ensures spare { self.old.spare ≤ self.new.spare }
        ensures into_spare { into.old.spare ≤ into.new.spare + length (last_births self.old.held (birth ∷ [])) }
    {
        if self.holders_of(birth) == 1 {
            let runs = self.take(birth);
            into.push_within(BirthRuns { birth, runs });
        } else {
            self.lower(birth);
        }
    }

    // One holder more at each birth of a list that another list doesn't have. It takes no memory.
    fn raise_new(&mut self, old: &[u128], new: &[u128])
        requires old { IsRising old.now }
        requires new { IsRising new.now }
        requires few { AreFew self.old.held new.now }
        ensures changed { AreChangedBut with_one_more self.old.held new.now old.now self.new.held }
        ensures spare { self.new.spare ≡ self.old.spare }
    {
        let mut at = 0;
        for k in 0..new.len() {
            at = place_from(old, at, new[k]);
            if !stands_at(old, at, new[k]) {
                self.raise(new[k]);
            }
        }
    }

    // One holder fewer at each birth of a list that another list doesn't have, whose places go to the end of a list with room for
    // them where that was the last. It takes no memory.
    fn release_old(&mut self, old: &[u128], new: &[u128], into: &mut UnheldPlaces)
        requires old { IsRising old.now }
        requires new { IsRising new.now }
        requires held { AreHeld self.old.held old.now }
        requires room { length (lone_births self.old.held new.now old.now) ≤ into.old.spare }
        ensures changed { AreChangedBut with_one_fewer self.old.held old.now new.now self.new.held }
        ensures into { into.new.held ≡ into.old.held ++ runs_of_births self.old.held (lone_births self.old.held new.now old.now) }
        ensures spare { self.old.spare ≤ self.new.spare }
        ensures into_spare { into.old.spare ≤ into.new.spare + length (lone_births self.old.held new.now old.now) }
    {
        let mut at = 0;
        for k in 0..old.len() {
            at = place_from(new, at, old[k]);
            if !stands_at(new, at, old[k]) {
                self.release(old[k], into);
            }
        }
    }

    // Whether one holder alone holds a birth that some holder holds, once it is held once more where this is said.
    fn is_lone(&self, birth: u128, once_more: bool) -> bool
        requires { 1 ≤ holders_in (fin.get self.now.held birth) }
        ensures { result ≡ (holders_in (fin.get self.now.held birth) + cond once_more 1 0 == 1) }
    {
        !once_more && self.holders_of(birth) == 1
    }

    // The number of births of a list that another list doesn't have and that one holder holds.
    fn count_lone(&self, old: &[u128], new: &[u128]) -> u64
        requires old { IsRising old.now }
        requires new { IsRising new.now }
        requires held { AreHeld self.now.held old.now }
        ensures { result ≡ length (lone_births self.now.held new.now old.now) }
    {
        let mut count = 0u64;
        let mut at = 0;
        for k in 0..old.len() {
            at = place_from(new, at, old[k]);
            if self.is_lone(old[k], stands_at(new, at, old[k])) {
                count += 1;
            }
        }
        count
    }

    // One holder more at each of the new births, and one fewer at each of the old ones, whose places go to the end of a list
    // where that was the last. Births that stand in both lists are left alone.
    pub fn exchange(&mut self, old: &[u128], new: &[u128], into: &mut UnheldPlaces) -> Mem<()>
        requires old { IsRising old.now }
        requires new { IsRising new.now }
        requires held { AreHeld self.old.held old.now }
        requires few { AreFew self.old.held new.now }
        ensures changed { OnOk result (AreExchanged self.old.held old.now new.now self.new.held) }
        ensures into { OnOk result (into.new.held ≡ into.old.held ++ runs_of_births self.old.held (lone_births self.old.held new.now old.now)) }
        ensures room { MovesWithin self.old self.new 0 0 into.old into.new (length (lone_births self.old.held new.now old.now)) result }
    {
        into.make_room(self.count_lone(old, new))?;
        self.release_old(old, new, into);
        self.raise_new(old, new);
        Ok(())
    }

    // The births that some holder holds with their places, in rising order.
    pub fn places(&self, alloc: Global) -> Mem<BirthRunsList>
        ensures places { IfOk result (λ places. places ≡ map (λ e. record { birth = e.0; runs = e.1 }) (fin.entries (live_places_in self.now.held))) }
        ensures placed { IfOk result (λ places. ArePlaced places (2 ^ 32)) }
    {
        // The keys of the entries rise.
        let _ = self.entries.len();
        let mut places = List::new(alloc);
        let entries = self.entries.entries()?;
        for entry in entries.as_slice() {
            push_if_held(&mut places, *entry.0, entry.1)?;
        }
        Ok(places)
    }

    // Gives each birth that some holder holds its new place. It takes no memory.
    pub fn shift(&mut self, shifts: ShiftList)
        requires { AreSafeShifts (live_places_in self.old.held) (waiting_places_in self.old.held) shifts }
        ensures changed { (q : ℕ) → fin.get self.new.held q ≡ with_shifts shifts q (fin.get self.old.held q) }
        ensures spare { self.new.spare ≡ self.old.spare }
    {
        shift_all(&mut self.entries, shifts.into_vec());
    }
}
