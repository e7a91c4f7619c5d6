ghost use Rattle.std.specs.Prelude.{◌≡◌, ◌+◌, ◌≤◌, ◌<◌, ◌^◌, length, OnOk};
ghost use Rattle.sf_types.specs.Space.BlockRuns.{blocks_in};

use sf_free_commit::{Committed, GREATEST_BLOCK};
use sf_types::{Mem, Run, Runs};
use std::alloc::Global;
use std::test::*;

// Parks one run. With the room that was made, parking wants no memory.
fn park_run(alloc: Global, committed: &mut Committed, first: u32, blocks: u32) -> Mem<()>
    requires numbers { first + blocks ≤ GREATEST_BLOCK + 1 }
    requires few { length (blocks_in committed.old.held) + blocks < 2 ^ 64 }
    ensures { OnOk result (length (blocks_in committed.new.held) ≡ length (blocks_in committed.old.held) + blocks) }
{
    let mut runs = Runs::new(alloc);
    runs.push(Run { first, blocks })?;
    committed.make_room(1)?;
    committed.park(&runs).unwrap();
    Ok(())
}

// Takes a batch with just the room that it needs.
fn take(committed: &mut Committed, max: u64, into: &mut Runs) -> Mem<u64>
    ensures { length (blocks_in committed.new.held) ≤ length (blocks_in committed.old.held) }
{
    into.make_room(max.min(committed.run_count() as u64))?;
    Ok(committed.take_batch(max, into))
}

// Blocks come out first in and first out, and a run is split where the batch ends in it.
fn parked_and_taken(alloc: Global) -> Mem<Runs> {
    let mut committed = Committed::new(alloc);
    let mut into = Runs::new(alloc);
    park_run(alloc, &mut committed, 5, 3)?;
    park_run(alloc, &mut committed, 9, 0)?;
    park_run(alloc, &mut committed, 0, 2)?;
    take(&mut committed, 4, &mut into)?;
    park_run(alloc, &mut committed, 20, 1)?;
    take(&mut committed, 0, &mut into)?;
    take(&mut committed, 10, &mut into)?;
    Ok(into)
}

#[test]
fn parks_and_takes(rt: HostRuntime) -> Result<(), Fail> {
    let runs = parked_and_taken(rt.alloc())?;
    let expected = [(5, 3), (0, 1), (1, 1), (20, 1)];
    assert_eq!(rt; runs.len(), expected.len());
    for (run, (first, blocks)) in runs.as_slice().iter().zip(expected) {
        assert_eq!(rt; run.first, first);
        assert_eq!(rt; run.blocks, blocks);
    }
    Ok(())
}

#[test]
fn counts_blocks_and_runs(rt: HostRuntime) -> Result<(), Fail> {
    let alloc = rt.alloc();
    let mut committed = Committed::new(alloc);
    park_run(alloc, &mut committed, 7, 5)?;
    park_run(alloc, &mut committed, 3, 0)?;
    assert_eq!(rt; committed.parked(), 5);
    assert_eq!(rt; committed.run_count(), 1);
    Ok(())
}
