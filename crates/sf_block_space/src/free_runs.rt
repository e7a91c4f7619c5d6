//! Free blocks.
ghost use Rattle.std.specs.Prelude.{◌≡◌, ◌+◌, ◌-◌, ◌≤◌, length, IfOk, OnOk, OnErr};
ghost use Rattle.std.specs.List.{range_with_len};
ghost use Rattle.sf_types.specs.Space.BlockRuns.{blocks_in};
ghost use Rattle.sf_types.specs.Space.Grants.{granted_runs};
ghost use Rattle.sf_types.specs.Rooms.{MakesRoom, GrowsWithin};
ghost use Rattle.sf_block_space.specs.Free.{AreFreeRuns, AreOut, Gains, filled_run_count};

use crate::maximal_runs::MaximalRuns;
use sf_types::{Mem, Runs};
use std::alloc::Global;
use std::marker::Model;

/// The free blocks of a store below its capacity, seen as the list of their maximal runs, with room for more runs. A block
/// is a number from 0 up to the capacity, which isn't reached.
#[derive(Debug, Drop)]
pub struct FreeRuns {
    runs: MaximalRuns,
    free: u64,
}

impl Model for FreeRuns {
    ghost use Rattle.std.specs.Prelude.{◌≡◌, length};
    ghost use Rattle.sf_types.specs.Space.BlockRuns.{blocks_in};
    ghost use Rattle.sf_types.specs.Rooms.{Roomy};
    ghost use Rattle.sf_block_space.specs.Free.{FreeSpace};

    ghost Value = { Roomy FreeSpace };

    ghost view = { λ free. free.runs };

    ghost invariant = { λ free. free.free ≡ length (blocks_in free.runs.held.runs) };
}

impl FreeRuns {
    /// All blocks below the capacity, a number of blocks, are free. There is no room for more runs.
    pub fn all(alloc: Global, capacity: u32) -> Mem<FreeRuns>
        ensures capacity { IfOk result (λ free. free.held.capacity ≡ capacity) }
        ensures blocks { IfOk result (λ free. blocks_in free.held.runs ≡ range_with_len 0 capacity) }
        ensures order { IfOk result (λ free. AreFreeRuns capacity free.held.runs) }
        ensures spare { IfOk result (λ free. free.spare ≡ 0) }
    {
        Ok(FreeRuns {
            runs: MaximalRuns::all(alloc, capacity)?,
            free: u64::from(capacity),
        })
    }

    /// The number of free blocks.
    pub fn free(&self) -> u64
        ensures { result ≡ length (blocks_in self.now.held.runs) }
    {
        self.free
    }

    /// Makes room for so many runs more, which `give_back` then takes without memory.
    pub fn make_room(&mut self, runs: u64) -> Mem<()>
        ensures { MakesRoom self.old self.new runs result }
    {
        self.runs.make_room(runs as usize)
    }

    /// Takes n free blocks: the first n of the lowest run with at least n blocks; where there is none, the whole of the
    /// longest run, the lowest of equals, and then the others in the same way. n is at most the number of free blocks.
    /// The free blocks were those that are left and those that are granted. After want of memory nothing has changed.
    pub fn grant(&mut self, n: u64) -> Mem<Runs>
        requires { n ≤ length (blocks_in self.old.held.runs) }
        ensures granted { IfOk result (λ granted. granted.held ≡ granted_runs self.old.held.runs n) }
        ensures count { IfOk result (λ granted. length (blocks_in granted.held) ≡ n) }
        ensures out { IfOk result (λ granted. AreOut self.new.held (blocks_in granted.held)) }
        ensures left { IfOk result (λ granted. Gains self.new.held.runs self.old.held.runs granted.held) }
        ensures order { AreFreeRuns self.new.held.capacity self.new.held.runs }
        ensures capacity { self.new.held.capacity ≡ self.old.held.capacity }
        ensures spare { self.new.spare ≡ self.old.spare + (length self.old.held.runs - length self.new.held.runs) }
        ensures err { OnErr result (self.new.held ≡ self.old.held) }
    {
        let mut granted = self.runs.no_runs();
        granted.make_room(self.runs.room_for(n))?;
        let mut rest = n;
        while rest > 0 {
            let run = self.runs.take_run(rest);
            rest -= u64::from(run.blocks);
            self.free -= u64::from(run.blocks);
            granted.push_within(run);
        }
        Ok(granted)
    }

    /// Gives back blocks, each below the capacity, none of them free and none named twice. They are free then, joined with
    /// the free runs that they touch. Runs of no blocks change nothing. After want of memory nothing has changed.
    pub fn give_back(&mut self, runs: &Runs) -> Mem<()>
        requires { AreOut self.old.held (blocks_in runs.now.held) }
        ensures ok { OnOk result (Gains self.old.held.runs self.new.held.runs runs.now.held) }
        ensures order { AreFreeRuns self.new.held.capacity self.new.held.runs }
        ensures capacity { self.new.held.capacity ≡ self.old.held.capacity }
        ensures room { GrowsWithin self.old self.new (length runs.now.held) (length self.new.held.runs - length self.old.held.runs) result }
    {
        self.runs.make_room(runs.len())?;
        self.give_back_within(runs);
        Ok(())
    }

    /// Does `give_back` where there is room for each run that has a block. It takes no memory.
    pub fn give_back_within(&mut self, runs: &Runs)
        requires out { AreOut self.old.held (blocks_in runs.now.held) }
        requires room { filled_run_count runs.now.held ≤ self.old.spare }
        ensures blocks { Gains self.old.held.runs self.new.held.runs runs.now.held }
        ensures order { AreFreeRuns self.new.held.capacity self.new.held.runs }
        ensures capacity { self.new.held.capacity ≡ self.old.held.capacity }
        ensures spare { self.new.spare + length self.new.held.runs ≡ self.old.spare + length self.old.held.runs }
    {
        // There are no more blocks than a `u32` counts.
        let _capacity = self.runs.capacity();
        for run in runs.as_slice() {
            if run.blocks > 0 {
                self.runs.put(*run);
                self.free += u64::from(run.blocks);
            }
        }
    }
}
