//! Runs of blocks leave the seat that has them.
ghost use Rattle.std.specs.Prelude.{◌≡◌};
ghost use Rattle.sf_types.specs.Space.BlockRuns.{blocks_in, blocks_in_run};
ghost use Rattle.sf_space_words.specs.Blocks.{Covers, without_blocks};
ghost use Rattle.sf_space_words.specs.Seats.{IsOf};

use crate::mask::mask_from;
use sf_space_words::{Seat, WORD_BLOCKS, Words};
use sf_types::{Run, Runs};

/// Clears the blocks of some runs, which the seat has, none of them named twice. The seat then has them no longer, and has
/// all its others. It waits for nobody and takes no memory: each word of a run is cleared by one step.
pub fn release(words: &Words, seat: &mut Seat, runs: &Runs)
    requires words { IsOf words.now seat.old }
    requires blocks { Covers seat.old.blocks (blocks_in runs.now.held) }
    ensures { seat.new ≡ record seat.old { blocks = without_blocks (blocks_in runs.now.held) seat.old.blocks } }
{
    seat.is_sound();
    for run in runs.as_slice() {
        release_run(words, seat, *run);
    }
}

/// Clears the blocks of one run, which the seat has, as `release` does.
pub fn release_run(words: &Words, seat: &mut Seat, run: Run)
    requires words { IsOf words.now seat.old }
    requires blocks { Covers seat.old.blocks (blocks_in_run run) }
    ensures { seat.new ≡ record seat.old { blocks = without_blocks (blocks_in_run run) seat.old.blocks } }
{
    seat.is_sound();
    let _ = words.count();
    let mut done = 0;
    while done < run.blocks {
        let block = run.first + done;
        let offset = block % WORD_BLOCKS;
        let count = (run.blocks - done).min(WORD_BLOCKS - offset);
        words.release(seat, block / WORD_BLOCKS, mask_from(offset, count));
        done += count;
    }
}
