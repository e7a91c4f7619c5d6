//! A store that is made small.
ghost use Rattle.std.specs.Prelude.{◌≡◌, ◌-◌, ◌≤◌, IfOk, OnOk, OnErr, map, not, is_some};
ghost use Rattle.std.specs.List.{list_any, range_with_len};
ghost use Rattle.sf_types.specs.Space.BlockRuns.{blocks_in};
ghost use Rattle.sf_types.specs.Space.Plans.{planned_places};
ghost use Rattle.sf_shrink.specs.declared.shifts.TheConstants.{MOST_BLOCKS};
ghost use Rattle.sf_shrink.specs.Plans.{ArePlaced, placed_at, planned, shifted_to};
ghost use Rattle.sf_block_space.specs.Free.{AreFreeRuns};
ghost use Rattle.sf_plain_store.specs.Inside.Places.{runs_of_place};
ghost use Rattle.sf_types.specs.Play.Turns.{stage_after_shrink};
ghost use Rattle.sf_plain_store.specs.Stores.{stage_of, with_stage};
ghost use Rattle.sf_plain_store.specs.Turns.{KeepsCores};

use crate::store::{PlainStore, placed_blocks};
use sf_block_space::FreeRuns;
use sf_shrink::{ShiftList, plan};
use sf_types::{BirthRuns, BirthRunsList, List, Mem, PlaceList, Runs};
use std::alloc::Global;

// Places as births with their runs.
fn birth_runs(alloc: Global, places: PlaceList) -> Mem<BirthRunsList>
    ensures { IfOk result (λ births. births ≡ map runs_of_place places) }
{
    let mut births = List::new(alloc);
    for place in places.into_vec() {
        births.push(BirthRuns {
            birth: place.birth,
            runs: place.runs,
        })?;
    }
    Ok(births)
}

// The free runs of a store of which the first blocks are used.
fn free_behind(alloc: Global, capacity: u32, used: u64) -> Mem<FreeRuns>
    requires some { 1 ≤ capacity }
    requires used { used ≤ capacity }
    ensures blocks { IfOk result (λ free. blocks_in free.held.runs ≡ range_with_len used (capacity - used)) }
    ensures order { IfOk result (λ free. AreFreeRuns free.held.capacity free.held.runs) }
    ensures capacity { IfOk result (λ free. free.held.capacity ≡ capacity) }
{
    let mut free = FreeRuns::all(alloc, capacity)?;
    let _used = free.grant(used)?;
    Ok(free)
}

// The free runs behind the used blocks, and a list with room for the parked blocks.
fn room_behind(alloc: Global, capacity: u32, used: u64, parked: u64) -> Mem<(FreeRuns, Runs)>
    requires some { 1 ≤ capacity }
    requires used { used ≤ capacity }
    ensures blocks { IfOk result (λ made. blocks_in made.0.held.runs ≡ range_with_len used (capacity - used)) }
    ensures order { IfOk result (λ made. AreFreeRuns made.0.held.capacity made.0.held.runs) }
    ensures capacity { IfOk result (λ made. made.0.held.capacity ≡ capacity) }
    ensures room { IfOk result (λ made. parked ≤ made.1.spare) }
{
    let mut released = Runs::new(alloc);
    released.make_room(parked)?;
    let free = free_behind(alloc, capacity, used)?;
    Ok((free, released))
}

// The shifts by the plan of places.
fn shifts_of(alloc: Global, places: PlaceList) -> Mem<ShiftList>
    requires { ArePlaced (map runs_of_place places) MOST_BLOCKS }
    ensures plan { IfOk result (λ shifts. shifts ≡ planned (map runs_of_place places)) }
    ensures rule { IfOk result (λ shifts. map shifted_to shifts ≡ planned_places (map placed_at (map runs_of_place places))) }
{
    let births = birth_runs(alloc, places)?;
    plan(alloc, &births)
}

impl PlainStore {
    /// Makes the store small: all parked blocks are released, each content gets its place by the plan, and all blocks behind are free.
    /// It answers false and changes nothing exactly where a promise stands. After want of memory nothing has changed.
    pub fn shrink(&mut self) -> Mem<bool>
        ensures store { OnOk result (self.new ≡ with_stage self.old (stage_after_shrink (stage_of self.old))) }
        ensures done { IfOk result (λ done. done ≡ not (list_any (λ session. is_some session.promise) (stage_of self.old).table.sessions)) }
        ensures cores { OnOk result (KeepsCores self.old self.new) }
        ensures err { OnErr result (self.new ≡ self.old) }
    {
        if self.book.has_promise() {
            return Ok(false);
        }
        let places = self.book.places()?;
        let used = placed_blocks(&places);
        let shifts = shifts_of(self.alloc, places)?;
        match room_behind(self.alloc, self.book.capacity(), used, self.book.parked()) {
            Ok((free, mut released)) => {
                let _count = self.book.take_ripe(self.book.parked(), &mut released);
                self.book.shift(shifts);
                self.free = free;
                Ok(true)
            }
            Err(error) => {
                drop(shifts);
                Err(error)
            }
        }
    }
}
