//! Runs that touch each other, as one.
ghost use Rattle.std.specs.Prelude.{◌≡◌, ◌+◌, ◌^◌, ◌<◌, ◌↔◌, false, IsTrue, IsSome, IfSome, MatchBool, vec_capacity, vec_len};
ghost use Rattle.sf_dispensers.specs.Inside.{GainsRun, IsJoined, NoneJoins, Touches};

use sf_types::Run;

// Whether a block follows a run's last one.
fn precedes(run: Run, block: u32) -> bool
    ensures { IsTrue result ↔ (run.first + run.blocks ≡ block) }
{
    run.first.checked_add(run.blocks) == Some(block)
}

// Two runs as one, where one of them begins behind the other's last block.
pub fn joint_run(run: Run, other: Run) -> Option<Run>
    ensures both { IfSome result (λ both. IsJoined run other both) }
    ensures some { Touches run other → run.blocks + other.blocks < 2 ^ 32 → IsSome result }
{
    let blocks = run.blocks.checked_add(other.blocks)?;
    if precedes(run, other.first) {
        return Some(Run {
            first: run.first,
            blocks,
        });
    }
    if precedes(other, run.first) {
        return Some(Run {
            first: other.first,
            blocks,
        });
    }
    None
}

// Joins a run to the first of others with which it can be joined. It answers whether there is one.
pub fn join_run(runs: &mut Vec<Run>, run: Run) -> bool
    ensures joined { MatchBool result (GainsRun runs.old.items runs.new.items run) (runs.new ≡ runs.old) }
    ensures none { result ≡ false → NoneJoins runs.old.items run }
    ensures len { vec_len runs.new ≡ vec_len runs.old }
    ensures capacity { vec_capacity runs.new ≡ vec_capacity runs.old }
{
    for at in 0..runs.len() {
        if let Some(both) = joint_run(runs[at], run) {
            runs[at] = both;
            return true;
        }
    }
    false
}
