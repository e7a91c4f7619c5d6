ghost use Rattle.std.specs.Prelude.{◌≡◌, [], ◌∷◌, IfOk};
ghost use Rattle.sf_shrink.specs.declared.shifts.TheConstants.{MOST_BLOCKS};
ghost use Rattle.sf_shrink.specs.Plans.{ArePlaced};

use sf_shrink::{ShiftList, plan};
use sf_types::{BirthRuns, BirthRunsList, ContentRuns, Mem, Run};
use std::alloc::Global;
use std::test::*;

// A place of one run.
fn place(alloc: Global, birth: u128, first: u32, blocks: u32) -> Mem<BirthRuns>
    ensures { IfOk result (λ place. (place.birth ≡ birth) × (place.runs ≡ record { first = first; blocks = blocks } ∷ [])) }
{
    let mut runs = ContentRuns::new(alloc);
    runs.push(Run { first, blocks })?;
    Ok(BirthRuns { birth, runs })
}

// Birth 3 at the blocks 5 and 6, birth 7 at the block 0.
fn places(alloc: Global) -> Mem<BirthRunsList>
    ensures { IfOk result (λ places. ArePlaced places MOST_BLOCKS) }
{
    let mut places = BirthRunsList::new(alloc);
    places.push(place(alloc, 3, 5, 2)?)?;
    places.push(place(alloc, 7, 0, 1)?)?;
    Ok(places)
}

fn shifts(alloc: Global) -> Mem<ShiftList> {
    plan(alloc, &places(alloc)?)
}

#[test]
fn contents_move_together(rt: HostRuntime) -> Result<(), Fail> {
    let shifts = shifts(rt.alloc()).ok().ok_or("memory")?;
    assert_eq!(rt; shifts.len(), 2);
    for (shift, (birth, first, blocks)) in shifts.as_slice().iter().zip([(3, 0, 2), (7, 2, 1)]) {
        assert_eq!(rt; shift.birth, birth);
        assert_eq!(rt; shift.to.len(), 1);
        for run in shift.to.as_slice() {
            assert_eq!(rt; run.first, first);
            assert_eq!(rt; run.blocks, blocks);
        }
    }
    Ok(())
}
