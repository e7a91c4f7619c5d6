//! The ledger of contents by counts.
ghost use Rattle.std.specs.Prelude.{◌≡◌, ◌≢◌, ◌-◌, ◌≤◌, ◌^◌, ◌++◌, [], length, map, All, AllPairs, None, IsSome, is_some, IfOk, OnOk};
ghost use Rattle.std.specs.Option.{option_copied};
ghost use Rattle.std.specs.FinMap as fin;
ghost use Rattle.sf_types.specs.Inside.Births.{IsRising};
ghost use Rattle.sf_types.specs.Rooms.{MakesRoom, GrowsWithin, MovesWithin};
ghost use Rattle.sf_shrink.specs.Plans.{ArePlaced};
ghost use Rattle.sf_lifetimes.specs.Ledgers.{number_of_holders, is_live, live_places, waiting_places, place_of, listed_places, live_blocks, IsNewPlace, held_by, unheld_births, with_holding, unheld_places, freed_by};
ghost use Rattle.sf_lifetimes.specs.Shifts.{AreSafeShifts};

use crate::given_up::GivenUp;
use crate::holding_map::HoldingMap;
use crate::place_map::PlaceMap;
use crate::tally::{TallyMap, freed_blocks};
use crate::unheld_places::UnheldPlaces;
use sf_shrink::ShiftList;
use sf_types::{BirthRunsList, Births, ContentRuns, Holder, HolderList, Mem};
use std::alloc::Global;
use std::marker::Model;

/// The places of births and the births of holders, seen as two finite maps, with room for more births. A birth is live
/// exactly where some holder holds it; how many do is counted with its place. The room falls by what a call adds.
#[derive(Drop)]
pub struct Ledger {
    places: PlaceMap,
    holdings: HoldingMap,
    room: u64,
    alloc: Global,
}

impl Model for Ledger {
    ghost use Rattle.std.specs.Coded.{coded_ℕ, coded_list};
    ghost use Rattle.std.specs.FinMap as fin;
    ghost use Rattle.sf_types.specs.Rooms.{Roomy};
    ghost use Rattle.sf_types.specs.contracts.run.Run as run;
    ghost use Rattle.sf_types.specs.contracts.holder.Holder as holder;
    ghost use Rattle.sf_room_map.specs.Inside.Sorted.{roomy_code};
    ghost use Rattle.sf_lifetimes.specs.Ledgers.{LedgerView};
    ghost use Rattle.sf_lifetimes.specs.Inside.Codes.{ledger_code};
    ghost use Rattle.sf_lifetimes.specs.Inside.Counted.{places_in, IsLedger};

    ghost Value = { Roomy LedgerView };

    ghost coded = { roomy_code (ledger_code (fin.code coded_ℕ (coded_list run.the_row.coded)) (fin.code holder.the_row.coded (coded_list coded_ℕ))) };

    ghost view = { λ l. record {
      held = record { places = places_in l.places.held; holdings = l.holdings.held };
      spare = l.room;
    } };

    ghost invariant = { λ l. IsLedger l.places l.holdings l.room };
}

impl Ledger {
    /// No places, no holders and no room.
    pub fn new(alloc: Global) -> Mem<Ledger>
        ensures places { IfOk result (λ ledger. ledger.held.places ≡ fin.empty) }
        ensures holdings { IfOk result (λ ledger. ledger.held.holdings ≡ fin.empty) }
        ensures spare { IfOk result (λ ledger. ledger.spare ≡ 0) }
    {
        Ok(Ledger {
            places: PlaceMap::new(alloc),
            holdings: HoldingMap::new(alloc),
            room: 0,
            alloc,
        })
    }

    /// Makes room for so many births more, of `place` or of holders' lists.
    pub fn make_room(&mut self, births: u64) -> Mem<()>
        ensures { MakesRoom self.old self.new births result }
    {
        self.places.make_room(births)?;
        self.holdings.make_room(births)?;
        self.room = self.room.max(births);
        Ok(())
    }

    /// The number of holders that hold a birth, 0 where it isn't live.
    pub fn holders_of(&self, birth: u128) -> u64
        ensures { result ≡ number_of_holders birth self.now.held.holdings }
    {
        self.places.holders_of(birth)
    }

    /// The place of a live birth. None exactly where the birth isn't live.
    pub fn place_of(&self, birth: u128) -> Option<&ContentRuns>
        ensures place { option_copied result ≡ place_of self.now.held birth }
        ensures live { is_some result ≡ is_live self.now.held.holdings birth }
    {
        self.places.runs_of(birth)
    }

    /// The births of a holder, rising, none where it holds nothing.
    pub fn births_of(&self, holder: &Holder) -> &[u128]
        ensures births { result.now ≡ held_by self.now.held.holdings holder.now }
        ensures rising { IsRising result.now }
    {
        self.holdings.births_of(holder)
    }

    /// The live births with copies of their places, in rising order.
    pub fn places(&self) -> Mem<BirthRunsList>
        ensures places { IfOk result (λ places. places ≡ listed_places self.now.held) }
        ensures placed { IfOk result (λ places. ArePlaced places (2 ^ 32)) }
    {
        self.places.places(self.alloc)
    }

    /// The number of blocks of all live births, 2^32 at most.
    pub fn live_blocks(&self) -> u64
        ensures live { result ≡ live_blocks self.now.held }
        ensures few { result ≤ 2 ^ 32 }
    {
        self.places.live_blocks()
    }

    /// Puts the place of a new birth, which has no holder yet. Each block is below 2^32, stands in no place, and is named
    /// once.
    pub fn place(&mut self, birth: u128, runs: ContentRuns) -> Mem<()>
        requires birth { fin.get self.old.held.places birth ≡ None }
        requires runs { IsNewPlace self.old.held.places runs }
        ensures places { OnOk result (self.new.held.places ≡ fin.insert self.old.held.places birth runs) }
        ensures holdings { self.new.held.holdings ≡ self.old.held.holdings }
        ensures room { GrowsWithin self.old self.new 1 1 result }
    {
        self.places.insert(birth, runs)?;
        self.room = self.room.saturating_sub(1);
        Ok(())
    }

    /// What a holder holds from now on, in place of what it held. Each birth has a place. The births that nobody holds any
    /// more leave the ledger and go to the end of `into` with their places, in rising order.
    pub fn hold(&mut self, holder: Holder, births: Births, into: &mut UnheldPlaces) -> Mem<()>
        requires { All (λ birth. IsSome (fin.get self.old.held.places birth)) births }
        ensures held { OnOk result (self.new.held ≡ with_holding self.old.held holder births) }
        ensures into { OnOk result (into.new.held ≡ into.old.held ++ unheld_places self.old.held holder births) }

        // A holder that is there is written in place.
        ensures room { MovesWithin self.old self.new
            (length births - length (held_by self.old.held.holdings holder)) (length births - length (held_by self.old.held.holdings holder))
            into.old into.new (length (unheld_births self.old.held.holdings holder births)) result }
    {
        let old = self.holdings.births_of(&holder).len();
        let new = births.as_slice().len();
        self.holdings.bound();
        self.holdings.make_room_for(&holder, new)?;
        self.places
            .exchange(self.holdings.births_of(&holder), births.as_slice(), into)?;
        self.holdings.replace(holder, births);
        self.room = self.room.saturating_sub(new.saturating_sub(old) as u64);
        Ok(())
    }

    /// From now on a holder holds nothing. The births that nobody holds any more go as in `hold`.
    pub fn drop_holder(&mut self, holder: &Holder, into: &mut UnheldPlaces) -> Mem<()>
        ensures held { OnOk result (self.new.held ≡ with_holding self.old.held holder.now []) }
        ensures into { OnOk result (into.new.held ≡ into.old.held ++ unheld_places self.old.held holder.now []) }
        ensures room { MovesWithin self.old self.new 0 0 into.old into.new (length (unheld_births self.old.held.holdings holder.now [])) result }
    {
        self.places
            .exchange(self.holdings.births_of(holder), &[], into)?;
        self.holdings.remove(holder);
        Ok(())
    }

    /// The number of blocks of the live births that none but these holders hold, 2^32 at most. Each holder is named once.
    pub fn freed_by(&self, holders: &HolderList) -> Mem<u64>
        requires { AllPairs (λ holder other. holder ≢ other) holders.now }
        ensures { IfOk result (λ blocks. blocks ≡ freed_by self.now.held holders.now) }
    {
        freed_blocks(
            holders.allocator(),
            &self.places,
            &self.holdings,
            holders.as_slice(),
        )
    }

    /// No holder given up yet. It takes no memory.
    pub fn give_up(&self) -> GivenUp<'_>
        ensures ledger { result.ledger ≡ self.now.held }
        ensures holders { result.holders ≡ [] }
    {
        GivenUp {
            places: &self.places,
            holdings: &self.holdings,
            holders: Vec::new(self.alloc),
            tally: TallyMap::new(self.alloc),
        }
    }

    /// Gives each live birth its new place. The shifts name the live births, each once and rising, each with as many blocks
    /// as before; each block is below 2^32, none stands twice, and none in the place of a birth that waits for its first
    /// holder, which stays where it is. It takes no memory.
    pub fn shift(&mut self, shifts: ShiftList)
        requires { AreSafeShifts (live_places self.old.held) (waiting_places self.old.held) shifts }
        ensures live { fin.entries (live_places self.new.held) ≡ map (λ shift. (shift.birth, shift.to)) shifts }
        ensures waiting { waiting_places self.new.held ≡ waiting_places self.old.held }
        ensures holdings { self.new.held.holdings ≡ self.old.held.holdings }
        ensures spare { self.new.spare ≡ self.old.spare }
    {
        self.places.shift(shifts);
    }
}
