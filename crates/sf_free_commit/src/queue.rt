//! A queue of runs.
ghost use Rattle.std.specs.Prelude.{◌≡◌, ◌+◌, ◌≤◌, ◌++◌, ◌∷◌, [], length, All};
ghost use Rattle.sf_types.specs.Rooms.{MakesRoom};
ghost use Rattle.sf_free_commit.specs.Batches.{IsParkable, LeavesFirst};

use sf_types::{Mem, Run};
use std::alloc::Global;
use std::collections::VecDeque;
use std::marker::Model;

/// The greatest number that a block can have.
pub const GREATEST_BLOCK: u32 = u32::MAX;

// Runs of one block or more, first in and first out, with room for more.
#[derive(Debug, Drop)]
pub struct RunQueue {
    runs: VecDeque<Run>,
}

impl Model for RunQueue {
    ghost use Rattle.std.specs.Prelude.{◌-◌, List, All};
    ghost use Rattle.std.specs.VecDeque.{deque_capacity, deque_len};
    ghost use Rattle.sf_types.specs.declared.run.Run.{Run};
    ghost use Rattle.sf_types.specs.Rooms.{Roomy};
    ghost use Rattle.sf_free_commit.specs.Batches.{IsParkable};

    ghost Value = { Roomy (List Run) };

    ghost view = { λ queue. record { held = queue.runs.items; spare = deque_capacity queue.runs - deque_len queue.runs } };

    ghost invariant = { λ queue. All IsParkable queue.runs.items };
}

impl RunQueue {
    // No runs, and no room.
    pub fn new(alloc: Global) -> RunQueue
        ensures runs { result.held ≡ [] }
        ensures spare { result.spare ≡ 0 }
    {
        RunQueue {
            runs: VecDeque::from_vec(Vec::new(alloc)),
        }
    }

    // Makes room for so many runs more.
    pub fn make_room(&mut self, runs: usize) -> Mem<()>
        ensures { MakesRoom self.old self.new runs result }
    {
        self.runs.reserve(runs)?;
        Ok(())
    }

    // The number of runs.
    pub fn len(&self) -> usize
        ensures len { result ≡ length self.now.held }
        ensures parkable { All IsParkable self.now.held }
    {
        self.runs.len()
    }

    // Puts a run last, where there is room for it.
    pub fn push_within(&mut self, run: Run)
        requires room { 1 ≤ self.old.spare }
        requires run { IsParkable run }
        ensures runs { self.new.held ≡ self.old.held ++ run ∷ [] }
        ensures spare { self.new.spare + 1 ≡ self.old.spare }
    {
        self.runs.push_back_reserved(run);
    }

    // Takes the first run, or where it has more blocks, so many of them.
    pub fn take_first(&mut self, most: u64) -> Run
        requires some { 1 ≤ length self.old.held }
        requires most { 1 ≤ most }
        ensures taken { LeavesFirst self.old.held most result self.new.held }
        ensures size { (1 ≤ result.blocks) × (result.blocks ≤ most) }
        ensures spare { self.old.spare ≤ self.new.spare }
    {
        let run = self.runs.pop_front().unwrap();
        if u64::from(run.blocks) <= most {
            return run;
        }
        let taken = most as u32;
        self.runs.push_front_reserved(Run {
            first: run.first + taken,
            blocks: run.blocks - taken,
        });
        Run {
            first: run.first,
            blocks: taken,
        }
    }
}
