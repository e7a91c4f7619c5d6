//! A grant of free runs is the rule's grant of their blocks.
ghost use Rattle.std.specs.Prelude.{◌≡◌, ◌≤◌, ℕ, List, length};
ghost use Rattle.sf_types.specs.declared.run.Run.{Run};
ghost use Rattle.sf_types.specs.Space.BlockRuns.{blocks_in};
ghost use Rattle.sf_types.specs.Space.Grants.{maximal_runs, granted_runs, granted_blocks};
ghost use Rattle.sf_block_space.specs.Free.{AreFreeRuns, filled_run_count};

/// Free runs are the maximal runs of their blocks, so the blocks of a grant from them are those that the rule takes.
pub fn a_grant_is_by_the_free_blocks()
    ensures runs { (capacity : ℕ) (runs : List Run) → AreFreeRuns capacity runs → maximal_runs (blocks_in runs) ≡ runs }
    ensures blocks { (capacity n : ℕ) (runs : List Run)
        → AreFreeRuns capacity runs → blocks_in (granted_runs runs n) ≡ granted_blocks (blocks_in runs) n }
{}

/// No more of some runs have a block than they have blocks, and no more than there are runs.
pub fn runs_have_blocks()
    ensures blocks { (runs : List Run) → filled_run_count runs ≤ length (blocks_in runs) }
    ensures runs { (runs : List Run) → filled_run_count runs ≤ length runs }
{}
