//! What becomes of the parts of a stock in its calls.
ghost use Rattle.std.specs.Prelude.{◌≡◌, ◌≢◌, ◌+◌, ◌-◌, ◌≤◌, ◌<◌, ◌^◌, ◌++◌, [], true, length, drop, map, sum_by, flat_map, All, IsSome, IfOk, IfErr, Some, None};
ghost use Rattle.std.specs.FinMap as fin;
ghost use Rattle.sf_types.specs.Space.BlockRuns.{blocks_in};
ghost use Rattle.sf_dedup.specs.Prints.{print_of};
ghost use Rattle.sf_dedup.specs.Contents.{content_at, birth_with};
ghost use Rattle.sf_lifetimes.specs.Ledgers.{IsNewPlace, held_by, unheld_births, unheld_places, with_holding};
ghost use Rattle.sf_shrink.specs.Plans.{blocks_of_places};
ghost use Rattle.sf_stock.specs.Inside.Keeps.{with_shared, without_births};

use crate::known::Known;
use sf_dedup::{Index, Print};
use sf_free_commit::Committed;
use sf_lifetimes::{Ledger, UnheldPlaces};
use sf_room_map::RoomMap;
use sf_types::{BirthRuns, Births, Blob, ContentRuns, Holder, Mem, OutOfMemory};

// So many items beside those that there are.
pub fn room_beside(there: u64, items: u64) -> Mem<u64>
    ensures sum { IfOk result (λ all. all ≡ there + items) }
    ensures error { IfErr result (λ _. 2 ^ 64 ≤ there + items) }
{
    match there.checked_add(items) {
        Some(all) => Ok(all),
        None => Err(OutOfMemory),
    }
}

// Puts a content under a new birth where it is shared, within the room.
pub fn add_shared(index: &mut Index, birth: u128, print: Print, shared: Option<Blob>)
    requires print { (content : _) → shared ≡ Some content → print ≡ print_of content }
    requires birth { content_at index.old.held birth ≡ None }
    requires content { (content : _) → shared ≡ Some content → birth_with index.old.held content ≡ None }
    requires room { 1 ≤ index.old.spare }
    ensures held { index.new.held ≡ with_shared index.old.held birth shared }
    ensures spare { index.old.spare ≤ index.new.spare + 1 }
{
    if let Some(content) = shared {
        let Ok(()) = index.add(birth, print, content) else {
            unreachable!();
        };
    }
}

// Puts the place of a new birth, within the room.
pub fn place_runs(ledger: &mut Ledger, birth: u128, runs: ContentRuns)
    requires birth { fin.get ledger.old.held.places birth ≡ None }
    requires runs { IsNewPlace ledger.old.held.places runs }
    requires room { 1 ≤ ledger.old.spare }
    ensures places { ledger.new.held.places ≡ fin.insert ledger.old.held.places birth runs }
    ensures holdings { ledger.new.held.holdings ≡ ledger.old.held.holdings }
    ensures spare { ledger.old.spare ≤ ledger.new.spare + 1 }
{
    let Ok(()) = ledger.place(birth, runs) else {
        unreachable!();
    };
}

// What a holder holds from now on, within the room, and the places of the births that nobody holds any more.
pub fn hold_births(ledger: &mut Ledger, holder: Holder, births: Births, left: &mut UnheldPlaces)
    requires births { All (λ birth. IsSome (fin.get ledger.old.held.places birth)) births }
    requires room { length births - length (held_by ledger.old.held.holdings holder) ≤ ledger.old.spare }
    requires left { length (unheld_births ledger.old.held.holdings holder births) ≤ left.old.spare }
    ensures held { ledger.new.held ≡ with_holding ledger.old.held holder births }
    ensures left { left.new.held ≡ left.old.held ++ unheld_places ledger.old.held holder births }
    ensures spare { ledger.old.spare ≤ ledger.new.spare + (length births - length (held_by ledger.old.held.holdings holder)) }
    ensures left_spare { left.old.spare ≤ left.new.spare + length (unheld_births ledger.old.held.holdings holder births) }
{
    let Ok(()) = ledger.hold(holder, births, left) else {
        unreachable!();
    };
}

// A holder holds nothing from now on. The places of the births that nobody holds any more are put as above.
pub fn drop_births(ledger: &mut Ledger, holder: &Holder, left: &mut UnheldPlaces)
    requires left { length (unheld_births ledger.old.held.holdings holder.now []) ≤ left.old.spare }
    ensures held { ledger.new.held ≡ with_holding ledger.old.held holder.now [] }
    ensures left { left.new.held ≡ left.old.held ++ unheld_places ledger.old.held holder.now [] }
    ensures spare { ledger.old.spare ≤ ledger.new.spare }
    ensures left_spare { left.old.spare ≤ left.new.spare + length (unheld_births ledger.old.held.holdings holder.now []) }
{
    let Ok(()) = ledger.drop_holder(holder, left) else {
        unreachable!();
    };
}

// Takes what is known of some births out of the map and of the index.
pub fn forget(known: &mut RoomMap<u128, Known>, index: &mut Index, gone: &[BirthRuns])
    ensures known { known.new.held ≡ without_births known.old.held gone.now }
    ensures index { index.new.held ≡ without_births index.old.held gone.now }
    ensures known_spare { known.old.spare ≤ known.new.spare }
    ensures index_spare { index.old.spare ≤ index.new.spare }
{
    // Each birth stands once in both, so that it is gone with the one entry.
    let _ = known.len();
    let _ = index.len();
    for place in gone {
        known.remove(&place.birth);
        index.remove(place.birth);
    }
}

// Parks the blocks of places, place by place, within the room, and answers the number of their runs.
pub fn park_all(parked: &mut Committed, places: &[BirthRuns]) -> u64
    requires below { All (λ place. All (λ block. block < 2 ^ 32) (blocks_in place.runs)) places.now }
    requires few { length (blocks_in parked.old.held) + length (blocks_of_places places.now) < 2 ^ 64 }
    requires room { sum_by (λ place. length place.runs) places.now ≤ parked.old.spare }
    requires number { sum_by (λ place. length place.runs) places.now < 2 ^ 64 }
    ensures blocks { blocks_in parked.new.held ≡ blocks_in parked.old.held ++ blocks_of_places places.now }
    ensures runs { result ≡ sum_by (λ place. length place.runs) places.now }
    ensures spare { parked.old.spare ≤ parked.new.spare + result }
{
    let mut runs = 0u64;
    for place in places {
        parked.park_within(place.runs.as_slice());
        runs += place.runs.len() as u64;
    }
    runs
}
