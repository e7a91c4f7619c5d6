//! Parked blocks.
ghost use Rattle.std.specs.Prelude.{◌≡◌, ◌+◌, ◌≤◌, ◌<◌, ◌^◌, ◌++◌, [], length, take, drop, min, All, IfOk, OnOk};
ghost use Rattle.sf_types.specs.Space.BlockRuns.{blocks_in};
ghost use Rattle.sf_types.specs.Rooms.{MakesRoom, GrowsWithin};
ghost use Rattle.sf_free_commit.specs.Batches.{first_runs, later_runs, runs_with_blocks};

use crate::queue::{GREATEST_BLOCK, RunQueue};
use sf_types::{Mem, Run, Runs};
use std::alloc::Global;
use std::marker::Model;

/// Blocks that wait to be released, seen as their runs, first in and first out, with room for more runs.
#[derive(Debug, Drop)]
pub struct Committed {
    queue: RunQueue,
    parked: u64,
}

impl Model for Committed {
    ghost use Rattle.std.specs.Prelude.{◌≡◌, List, length};
    ghost use Rattle.sf_types.specs.declared.run.Run.{Run};
    ghost use Rattle.sf_types.specs.Space.BlockRuns.{blocks_in};
    ghost use Rattle.sf_types.specs.Rooms.{Roomy};

    ghost Value = { Roomy (List Run) };

    ghost view = { λ committed. committed.queue };

    ghost invariant = { λ committed. committed.parked ≡ length (blocks_in committed.queue.held) };
}

// The number of runs that have a block.
fn count_with_blocks(runs: &[Run]) -> usize
    ensures { result ≡ length (runs_with_blocks runs.now) }
{
    let mut count = 0;
    for run in runs {
        if run.blocks > 0 {
            count += 1;
        }
    }
    count
}

impl Committed {
    /// No parked blocks, and no room. It takes no memory.
    pub fn new(alloc: Global) -> Committed
        ensures runs { result.held ≡ [] }
        ensures spare { result.spare ≡ 0 }
    {
        Committed {
            queue: RunQueue::new(alloc),
            parked: 0,
        }
    }

    /// Makes room for so many runs more, which `park` then takes without memory.
    pub fn make_room(&mut self, runs: u64) -> Mem<()>
        ensures { MakesRoom self.old self.new runs result }
    {
        self.queue.make_room(runs as usize)
    }

    /// The number of parked blocks.
    pub fn parked(&self) -> u64
        ensures { result ≡ length (blocks_in self.now.held) }
    {
        self.parked
    }

    /// The number of runs in which the parked blocks stand, a block or more in each.
    pub fn run_count(&self) -> usize
        ensures count { result ≡ length self.now.held }
        ensures few { result ≤ length (blocks_in self.now.held) }
    {
        self.queue.len()
    }

    /// Parks the blocks of some runs behind all others, in their order. Runs of no blocks vanish, and need no room. Each
    /// block is at most the greatest block, and with them fewer than 2^64 blocks are parked. After want of memory nothing
    /// has changed.
    pub fn park(&mut self, runs: &Runs) -> Mem<()>
        requires numbers { All (λ block. block ≤ GREATEST_BLOCK) (blocks_in runs.now.held) }
        requires few { length (blocks_in self.old.held) + length (blocks_in runs.now.held) < 2 ^ 64 }
        ensures ok { OnOk result (self.new.held ≡ self.old.held ++ runs_with_blocks runs.now.held) }
        ensures blocks { OnOk result (blocks_in self.new.held ≡ blocks_in self.old.held ++ blocks_in runs.now.held) }
        ensures room { GrowsWithin self.old self.new (length (runs_with_blocks runs.now.held)) (length (runs_with_blocks runs.now.held)) result }
    {
        self.make_room(count_with_blocks(runs.as_slice()) as u64)?;
        self.park_within(runs.as_slice());
        Ok(())
    }

    /// Parks the blocks of some runs as `park` does, where there is room for them. It takes no memory.
    pub fn park_within(&mut self, runs: &[Run])
        requires numbers { All (λ block. block ≤ GREATEST_BLOCK) (blocks_in runs.now) }
        requires few { length (blocks_in self.old.held) + length (blocks_in runs.now) < 2 ^ 64 }
        requires room { length (runs_with_blocks runs.now) ≤ self.old.spare }
        ensures runs { self.new.held ≡ self.old.held ++ runs_with_blocks runs.now }
        ensures blocks { blocks_in self.new.held ≡ blocks_in self.old.held ++ blocks_in runs.now }
        ensures spare { self.old.spare ≤ self.new.spare + length (runs_with_blocks runs.now) }
    {
        for run in runs {
            if run.blocks > 0 {
                self.queue.push_within(*run);
                self.parked += u64::from(run.blocks);
            }
        }
    }

    /// Takes the first `max` parked blocks, or all where there are fewer, and puts their runs behind those of `into`, in
    /// their order: the parked runs themselves, the last of them split where it has more blocks. Each has a block, so they
    /// are at most `max` runs, and at most as many as are parked, for which `into` has room. The answer is the number of
    /// the blocks. It takes no memory.
    pub fn take_batch(&mut self, max: u64, into: &mut Runs) -> u64
        requires { min max (length self.old.held) ≤ into.old.spare }
        ensures batch { into.new.held ≡ into.old.held ++ first_runs max self.old.held }
        ensures left { self.new.held ≡ later_runs max self.old.held }

        // The same, block by block.
        ensures count { result ≡ min max (length (blocks_in self.old.held)) }
        ensures taken { blocks_in into.new.held ≡ blocks_in into.old.held ++ take result (blocks_in self.old.held) }
        ensures left_blocks { blocks_in self.new.held ≡ drop result (blocks_in self.old.held) }

        // The runs that were put need a block each, and a place each of the room.
        ensures some { All (λ run. 1 ≤ run.blocks) (first_runs max self.old.held) }
        ensures few { length (first_runs max self.old.held) ≤ min max (length self.old.held) }
        ensures into_spare { into.new.spare + length (first_runs max self.old.held) ≡ into.old.spare }
        ensures spare { self.old.spare ≤ self.new.spare }
    {
        let mut rest = max;
        while rest > 0 && self.queue.len() > 0 {
            let run = self.queue.take_first(rest);
            rest -= u64::from(run.blocks);
            self.parked -= u64::from(run.blocks);
            into.push_within(run);
        }
        max - rest
    }
}
