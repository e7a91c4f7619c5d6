//! The plan.
ghost use Rattle.std.specs.Prelude.{◌≡◌, ℕ, map, IfOk};
ghost use Rattle.sf_types.specs.Space.Plans.{planned_places};
ghost use Rattle.sf_shrink.specs.declared.shifts.TheConstants.{MOST_BLOCKS};
ghost use Rattle.sf_shrink.specs.Plans.{ArePlaced, planned, placed_at, shifted_to, IsSafeWithoutGap};

use sf_types::{BirthRunsList, ContentRuns, List, Mem, Run};
use std::alloc::Global;

/// The most blocks of a store for which there is a plan: the most that one run can have.
pub const MOST_BLOCKS: u32 = u32::MAX;

/// A birth, and the runs to which its content goes.
#[derive(Drop)]
pub struct Shift {
    pub birth: u128,
    pub to: ContentRuns,
}

/// Shifts, in rising order of births.
pub type ShiftList = List<Shift>;

/// The plan by which the contents of a store move together: the births in their order get one run each, of as many
/// blocks as before, and each run begins where the one before it ends. Every birth has its shift, also where it doesn't
/// move.
pub fn plan(alloc: Global, places: &BirthRunsList) -> Mem<ShiftList>
    requires { ArePlaced places.now MOST_BLOCKS }
    ensures plan { IfOk result (λ shifts. shifts ≡ planned places.now) }
    ensures rule { IfOk result (λ shifts. map shifted_to shifts ≡ planned_places (map placed_at places.now)) }

    // Whatever the store's capacity is.
    ensures safe { IfOk result (λ shifts. (capacity : ℕ) → ArePlaced places.now capacity → IsSafeWithoutGap places.now shifts capacity) }
{
    let mut shifts = List::new(alloc);
    let mut start = 0u32;
    for place in places.as_slice() {
        let blocks = place.runs.block_count() as u32;
        let mut to = List::new(alloc);
        to.push(Run {
            first: start,
            blocks,
        })?;
        shifts.push(Shift {
            birth: place.birth,
            to,
        })?;
        start += blocks;
    }
    Ok(shifts)
}
