//! Free blocks are granted and come back.
ghost use Rattle.std.specs.Prelude.{◌≡◌, ◌≤◌, length, OnOk};
ghost use Rattle.sf_types.specs.Space.BlockRuns.{blocks_in};
ghost use Rattle.sf_block_space.specs.Free.{AreFreeRuns};

use sf_block_space::FreeRuns;
use sf_types::{Mem, Runs};
use std::test::*;

// What is granted and comes back within the room leaves the free runs as they were.
fn grant_and_return(space: &mut FreeRuns, n: u64) -> Mem<Runs>
    requires enough { n ≤ length (blocks_in space.old.held.runs) }
    requires order { AreFreeRuns space.old.held.capacity space.old.held.runs }
    ensures { OnOk result (space.new.held ≡ space.old.held) }
{
    let granted = space.grant(n)?;
    space.make_room(granted.len() as u64)?;
    space.give_back(&granted).unwrap();
    Ok(granted)
}

#[test]
fn blocks_come_back_within_room(rt: HostRuntime) -> Result<(), Fail> {
    let mut space = FreeRuns::all(rt.alloc(), 7)?;
    if 5 <= space.free() {
        let granted = grant_and_return(&mut space, 5)?;
        for run in granted.as_slice() {
            assert_eq!(rt; (run.first, run.blocks), (0, 5));
        }
    }
    assert_eq!(rt; space.free(), 7);
    Ok(())
}
