//! Runs that are put together where they touch.
ghost use Rattle.std.specs.Prelude.{◌≡◌, ◌+◌, ◌<◌, ◌≤◌, ◌^◌, ◌++◌, ◌∷◌, [], length, IfOk, OnOk};
ghost use Rattle.sf_types.specs.Space.BlockRuns.{blocks_in, blocks_in_run, AreRuns};

use sf_types::{ContentRuns, List, Mem, Run};
use std::alloc::Global;

// Puts a run behind others of which this is the last, or makes that one longer where the run begins with the block that follows
// it.
fn push_behind(runs: &mut Vec<Run>, last: Run, run: Run) -> Mem<()>
    requires few { last.blocks + run.blocks < 2 ^ 32 }
    requires runs { AreRuns (runs.old.items ++ last ∷ []) }
    requires some { 1 ≤ run.blocks }
    ensures blocks { OnOk result (blocks_in runs.new.items ≡ blocks_in (runs.old.items ++ last ∷ []) ++ blocks_in_run run) }
    ensures runs { OnOk result (AreRuns runs.new.items) }
{
    if u64::from(last.first) + u64::from(last.blocks) == u64::from(run.first) {
        runs.push(Run {
            first: last.first,
            blocks: last.blocks + run.blocks,
        })?;
    } else {
        runs.push(last)?;
        runs.push(run)?;
    }
    Ok(())
}

// Puts a run behind others, and together with the last of them where it touches that. A run of no blocks vanishes.
fn push_joined(runs: &mut Vec<Run>, run: Run) -> Mem<()>
    requires few { length (blocks_in runs.old.items) + run.blocks < 2 ^ 32 }
    requires runs { AreRuns runs.old.items }
    ensures blocks { OnOk result (blocks_in runs.new.items ≡ blocks_in runs.old.items ++ blocks_in_run run) }
    ensures runs { OnOk result (AreRuns runs.new.items) }
{
    if run.blocks == 0 {
        return Ok(());
    }
    match runs.pop() {
        Some(last) => push_behind(runs, last, run),
        None => {
            runs.push(run)?;
            Ok(())
        }
    }
}

// The maximal runs of the same blocks in the same order.
pub fn joined(alloc: Global, runs: &[Run]) -> Mem<ContentRuns>
    requires few { length (blocks_in runs.now) < 2 ^ 32 }
    ensures blocks { IfOk result (λ joined. blocks_in joined ≡ blocks_in runs.now) }
    ensures runs { IfOk result AreRuns }
{
    let mut joined = Vec::new(alloc);
    for run in runs {
        push_joined(&mut joined, *run)?;
    }
    Ok(List::from_vec(joined))
}
