//! The places of births as they are listed.
ghost use Rattle.std.specs.Prelude.{◌≡◌, ◌++◌, map, filter, All, OnOk, IfOk, Some};
ghost use Rattle.sf_lifetimes.specs.Ledgers.{is_live, place_of};
ghost use Rattle.sf_stock.specs.Stocks.{listed_place};
ghost use Rattle.sf_stock.specs.Inside.Keeps.{IsKept, listed_if, runs_in, stocked_in};

use crate::known::Known;
use sf_lifetimes::Ledger;
use sf_room_map::RoomMap;
use sf_types::{List, Mem, Place, PlaceList, TryCopy};
use std::alloc::Global;

// Puts the place of a birth last, where somebody holds it.
fn push_place(places: &mut PlaceList, ledger: &Ledger, birth: u128, known: &Known) -> Mem<()>
    requires { (runs : _) → place_of ledger.now.held birth ≡ Some runs → IsKept known.now runs }
    ensures { OnOk result (places.new ≡ places.old ++ listed_if birth known.now (place_of ledger.now.held birth)) }
{
    if let Some(runs) = ledger.place_of(birth) {
        places.push(Place {
            birth,
            len: known.content.len() as u32,
            sum: known.print.sum,
            runs: runs.copy()?,
        })?;
    }
    Ok(())
}

// The places of the births that somebody holds, rising.
pub fn list_places(alloc: Global, known: &RoomMap<u128, Known>, ledger: &Ledger) -> Mem<PlaceList>
    requires { All (λ e. IsKept e.1 (runs_in ledger.now.held.places e.0)) known.now.held }
    ensures { IfOk result (λ places. places ≡ map listed_place (filter (λ x. is_live ledger.now.held.holdings x.birth) (map (stocked_in ledger.now.held.places) known.now.held))) }
{
    let mut places = List::new(alloc);
    let entries = known.entries()?;
    for entry in entries.as_slice() {
        push_place(&mut places, ledger, *entry.0, entry.1)?;
    }
    Ok(places)
}
