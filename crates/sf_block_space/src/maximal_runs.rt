//! Lists of maximal runs.
ghost use Rattle.std.specs.Prelude.{ℕ, ◌≡◌, ◌≢◌, ◌+◌, ◌-◌, ◌≤◌, ◌<◌, ◌∷◌, [], length, drop, min, Some, IsTrue, IfOk, false, slice_get};
ghost use Rattle.std.specs.List.{range_with_len};
ghost use Rattle.sf_types.specs.declared.run.Run.{Run as RunView};
ghost use Rattle.sf_types.specs.Space.BlockRuns.{blocks_in, blocks_in_run};
ghost use Rattle.sf_types.specs.Rooms.{MakesRoom};
ghost use Rattle.sf_block_space.specs.Free.{AreFreeRuns, AreOut};
ghost use Rattle.sf_block_space.specs.Inside.{BeginsFrom, HandsOut, IsNext, IsOffsetOf, IsRoomFor, IsTaken, TakesBack};

use sf_types::{Mem, Run, Runs};
use std::alloc::Global;
use std::marker::Model;

// Blocks below a capacity as the list of their maximal runs, in rising order, with room for more runs.
#[derive(Debug, Drop)]
pub struct MaximalRuns {
    runs: Vec<Run>,
    capacity: u32,
}

impl Model for MaximalRuns {
    ghost use Rattle.std.specs.Prelude.{◌-◌, vec_capacity, vec_len};
    ghost use Rattle.sf_types.specs.Rooms.{Roomy};
    ghost use Rattle.sf_block_space.specs.Free.{FreeSpace, AreFreeRuns};

    ghost Value = { Roomy FreeSpace };

    ghost view = { λ space. record {
      held = record { capacity = space.capacity; runs = space.runs.items };
      spare = vec_capacity space.runs - vec_len space.runs;
    } };

    ghost invariant = { λ space. AreFreeRuns space.capacity space.runs.items };
}

impl MaximalRuns {
    // All blocks below the capacity, without room for more runs.
    pub fn all(alloc: Global, capacity: u32) -> Mem<MaximalRuns>
        ensures capacity { IfOk result (λ all. all.held.capacity ≡ capacity) }
        ensures blocks { IfOk result (λ all. blocks_in all.held.runs ≡ range_with_len 0 capacity) }
        ensures order { IfOk result (λ all. AreFreeRuns capacity all.held.runs) }
        ensures spare { IfOk result (λ all. all.spare ≡ 0) }
    {
        let mut runs = Vec::with_capacity(alloc, usize::from(capacity > 0))?;
        if capacity > 0 {
            runs.push_reserved(Run {
                first: 0,
                blocks: capacity,
            });
        }
        Ok(MaximalRuns { runs, capacity })
    }

    // An empty list of runs, without room.
    pub fn no_runs(&self) -> Runs
        ensures runs { result.held ≡ [] }
        ensures spare { result.spare ≡ 0 }
    {
        Runs::new(*self.runs.allocator())
    }

    // The number of blocks below which all runs end.
    pub fn capacity(&self) -> u32
        ensures capacity { result ≡ self.now.held.capacity }
        ensures order { AreFreeRuns self.now.held.capacity self.now.held.runs }
    {
        self.capacity
    }

    // Makes room for so many runs more.
    pub fn make_room(&mut self, runs: usize) -> Mem<()>
        ensures room { MakesRoom self.old self.new runs result }
        ensures order { AreFreeRuns self.new.held.capacity self.new.held.runs }
        ensures capacity { self.new.held.capacity ≤ u32.MAX }
    {
        self.runs.reserve(runs)?;
        Ok(())
    }

    // Room for the runs of a grant of n blocks, which are free: for one where some run has as many blocks.
    pub fn room_for(&self, n: u64) -> u64
        ensures room { IsRoomFor self.now.held.runs n result }
        ensures most { result ≤ min n (length self.now.held.runs) }
        ensures fit { (at : ℕ) → (run : RunView) → slice_get self.now.held.runs at ≡ Some run → n ≤ run.blocks → result ≤ 1 }
        ensures order { AreFreeRuns self.now.held.capacity self.now.held.runs }
    {
        let most = if self.runs.iter().any(|run| u64::from(run.blocks) >= n) {
            1
        } else {
            self.runs.len() as u64
        };
        n.min(most)
    }

    // The offset of the lowest run with at least n blocks, or where there is none of the lowest of the longest runs.
    fn next_offset(&self, n: u64) -> usize
        requires { 1 ≤ length self.now.held.runs }
        ensures within { result < length self.now.held.runs }
        ensures next { (run : RunView) → slice_get self.now.held.runs result ≡ Some run → IsNext self.now.held.runs n result run }
    {
        let mut longest = 0;
        for (at, run) in self.runs.iter().enumerate() {
            if u64::from(run.blocks) >= n {
                return at;
            }
            if run.blocks > self.runs[longest].blocks {
                longest = at;
            }
        }
        longest
    }

    // Takes one run of a grant of n blocks.
    pub fn take_run(&mut self, n: u64) -> Run
        requires some { 1 ≤ length self.old.held.runs }
        requires amount { 1 ≤ n }
        ensures taken { IsTaken self.old.held.runs n result self.new.held.runs }
        ensures size { (1 ≤ result.blocks) × (result.blocks ≤ n) }
        ensures handed { HandsOut self.old self.new (result ∷ []) }
    {
        let at = self.next_offset(n);
        let run = self.runs[at];
        if u64::from(run.blocks) <= n {
            return self.runs.remove(at);
        }
        let taken = n as u32;
        self.runs[at] = Run {
            first: run.first + taken,
            blocks: run.blocks - taken,
        };
        Run {
            first: run.first,
            blocks: taken,
        }
    }

    // An offset between runs that begin before this block and runs that don't, by halving.
    fn offset_of(&self, block: u32) -> usize
        ensures { IsOffsetOf self.now.held.runs block result }
    {
        let mut low = 0;
        let mut high = self.runs.len();
        while low < high {
            let middle = low + (high - low) / 2;
            if self.runs[middle].first < block {
                low = middle + 1;
            } else {
                high = middle;
            }
        }
        low
    }

    // Whether a run stands at this offset and begins with this block.
    fn begins_at(&self, at: usize, block: u32) -> bool
        ensures yes { IsTrue result → (at < length self.now.held.runs) × ((run : RunView) → slice_get self.now.held.runs at ≡ Some run → run.first ≡ block) }
        ensures no { result ≡ false → BeginsFrom block (drop at self.now.held.runs) → BeginsFrom (block + 1) (drop at self.now.held.runs) }
    {
        at < self.runs.len() && self.runs[at].first == block
    }

    // Whether a run stands before this offset and this block follows it.
    fn ends_at(&self, at: usize, block: u32) -> bool
        requires { at ≤ length self.now.held.runs }
        ensures yes { IsTrue result → (1 ≤ at) × ((run : RunView) → slice_get self.now.held.runs (at - 1) ≡ Some run → run.first + run.blocks ≡ block) }
        ensures no { result ≡ false → 1 ≤ at → (run : RunView) → slice_get self.now.held.runs (at - 1) ≡ Some run → run.first + run.blocks ≢ block }
    {
        if at == 0 {
            return false;
        }
        let last = self.runs[at - 1];
        last.first <= block && block - last.first == last.blocks
    }

    // Puts a run that is out among the free ones, joined with those that it touches.
    pub fn put(&mut self, run: Run)
        requires room { 1 ≤ self.old.spare }
        requires some { 1 ≤ run.blocks }
        requires out { AreOut self.old.held (blocks_in_run run) }
        ensures { TakesBack self.old self.new (run ∷ []) }
    {
        let at = self.offset_of(run.first);
        let follows = self.ends_at(at, run.first);
        let precedes = self.begins_at(at, run.first + run.blocks);
        if follows {
            let last = self.runs[at - 1];
            if precedes {
                let next = self.runs.remove(at);
                self.runs[at - 1] = Run {
                    first: last.first,
                    blocks: last.blocks + run.blocks + next.blocks,
                };
                return;
            }
            self.runs[at - 1] = Run {
                first: last.first,
                blocks: last.blocks + run.blocks,
            };
            return;
        }
        if precedes {
            let next = self.runs[at];
            self.runs[at] = Run {
                first: run.first,
                blocks: run.blocks + next.blocks,
            };
            return;
        }
        self.runs.insert(at, run).unwrap();
    }
}
