//! Blocks that are gathered for a collection.
ghost use Rattle.std.specs.Prelude.{◌≡◌, ◌+◌, ◌-◌, ◌%◌, ◌<◌, ◌≤◌, ◌^◌, [], ◌∷◌, ◌++◌, length, OnOk};
ghost use Rattle.std.specs.Int.RustNames.{count_ones};
ghost use Rattle.sf_types.specs.Space.BlockRuns.{blocks_in};
ghost use Rattle.sf_space_words.specs.Blocks.{AreBelow, IsOnce, word_count};
ghost use Rattle.sf_space_words.specs.declared.limits.TheConstants.{WORD_BLOCKS as WORD_SIZE};
ghost use Rattle.sf_dispensers.specs.Seats.{IsSeatOf, IsSpaceOf};
ghost use Rattle.sf_dispensers.specs.Inside.{GainsMask, GainsRun};

use crate::bits::lowest_bits;
use crate::named::Named;
use crate::neighbours::joint_run;
use crate::reservation::Reservation;
use sf_space_words::{Seat, WORD_BLOCKS, Words};
use sf_types::{Mem, Run, Runs};
use std::marker::{Model, PhantomData};

// Blocks of one seat that are gathered up to a wanted number. Neighbouring runs are joined as they come: the run that came
// last stands apart, with no blocks at first, and there is room for it among the others.
pub struct Gathering<N: Named> {
    seat: Seat,
    runs: Runs,
    last_run: Run,
    block_count: u64,
    wanted_blocks: u64,
    of: PhantomData<N>,
}

impl<N: Named> Model for Gathering<N> {
    ghost use Rattle.std.specs.Prelude.{◌-◌};
    ghost use Rattle.sf_dispensers.specs.Inside.{Progress, IsGathering};

    ghost Value = { Progress };

    ghost view = { λ g. record { block_count = g.block_count; wanted_blocks = g.wanted_blocks; room = g.runs.spare - 1; claim_count = g.seat.claim_count } };

    ghost invariant = { λ g. IsGathering N.space N.options g.seat g.runs g.last_run g.block_count g.wanted_blocks };
}

// Puts a run last, joined with the one before it where they touch.
fn append_run(runs: &mut Runs, last: &mut Run, run: Run)
    requires { 1 ≤ runs.old.spare }
    ensures blocks { GainsRun (runs.old.held ++ last.old ∷ []) (runs.new.held ++ last.new ∷ []) run }
    ensures spare { runs.old.spare ≤ runs.new.spare + 1 }
{
    if last.blocks == 0 {
        *last = run;
        return;
    }
    match joint_run(*last, run) {
        Some(both) => *last = both,
        None => {
            runs.push_within(*last);
            *last = run;
        }
    }
}

// Puts the blocks of a word that a mask names last.
fn append_mask(runs: &mut Runs, last: &mut Run, word: u32, mask: u64)
    requires room { WORD_SIZE ≤ runs.old.spare }
    requires word { word < word_count (2 ^ 32 - 1) }
    ensures blocks { GainsMask (runs.old.held ++ last.old ∷ []) (runs.new.held ++ last.new ∷ []) word mask }
    ensures spare { runs.old.spare ≤ runs.new.spare + WORD_SIZE }
{
    for bit in 0..WORD_BLOCKS - mask.leading_zeros() {
        if mask >> bit & 1 == 1 {
            let run = Run {
                first: WORD_BLOCKS * word + bit,
                blocks: 1,
            };
            append_run(runs, last, run);
        }
    }
}

impl<N: Named> Gathering<N> {
    // A seat without blocks, for so many.
    pub fn new(seat: Seat, runs: Runs, wanted_blocks: u64) -> Gathering<N>
        requires seat { IsSeatOf N.space N.options seat [] }
        requires runs { (runs.held ≡ []) × (1 ≤ runs.spare) }
        ensures { (result.block_count ≡ 0) × (result.wanted_blocks ≡ wanted_blocks) }
    {
        Gathering {
            seat,
            runs,
            last_run: Run {
                first: 0,
                blocks: 0,
            },
            block_count: 0,
            wanted_blocks,
            of: PhantomData,
        }
    }

    // How many blocks are missing.
    pub fn missing_blocks(&self) -> u64
        ensures { result + self.now.block_count ≡ self.now.wanted_blocks }
    {
        self.wanted_blocks - self.block_count
    }

    // Makes room for so many runs more.
    pub fn make_room(&mut self, runs: u32) -> Mem<()>
        ensures room { OnOk result (runs ≤ self.new.room) }
        ensures same { self.new ≡ record self.old { room = self.new.room } }
    {
        self.runs.make_room(u64::from(runs) + 1)
    }

    // Takes in a seat that has just the blocks of a run.
    pub fn gain(&mut self, words: &Words, part: Seat, run: Run)
        requires words { IsSpaceOf N.space N.options words.now }
        requires part { IsSeatOf N.space N.options part (run ∷ []) }
        requires room { 1 ≤ self.old.room }
        requires few { self.old.block_count + run.blocks ≤ self.old.wanted_blocks }
        ensures { (self.new.block_count ≡ self.old.block_count + run.blocks) × (self.new.wanted_blocks ≡ self.old.wanted_blocks) }
    {
        words.merge(&mut self.seat, part);
        append_run(&mut self.runs, &mut self.last_run, run);
        self.block_count += u64::from(run.blocks);
    }

    // The lowest clear bits of a word as it stands, as many as are missing.
    pub fn clear_bits(&mut self, words: &Words, word: u32) -> u64
        requires words { IsSpaceOf N.space N.options words.now }
        requires word { word < word_count N.options.capacity }
        ensures few { self.old.block_count + count_ones result ≤ self.old.wanted_blocks }
        ensures same { self.new ≡ self.old }
    {
        let missing = self.missing_blocks();
        let found_word = words.look(&mut self.seat, word);
        lowest_bits(!found_word, missing)
    }

    // Claims the blocks of a word that a mask asks for, by one step.
    pub fn claim(&mut self, words: &Words, word: u32, mask: u64) -> Mem<()>
        requires words { IsSpaceOf N.space N.options words.now }
        requires word { word < word_count N.options.capacity }
        requires few { self.old.block_count + count_ones mask ≤ self.old.wanted_blocks }
        ensures claim { OnOk result (self.new.claim_count ≡ (self.old.claim_count + 1) % 2 ^ 64) }
        ensures wanted { self.new.wanted_blocks ≡ self.old.wanted_blocks }
    {
        self.make_room(WORD_BLOCKS)?;
        let _ = words.count();
        let claimed_bits = words.claim(&mut self.seat, word, mask);
        append_mask(&mut self.runs, &mut self.last_run, word, claimed_bits);
        self.block_count += u64::from(claimed_bits.count_ones());
        Ok(())
    }

    // All that was gathered.
    pub fn into_reservation(self) -> Reservation<N>
        ensures count { length (blocks_in result) ≡ self.block_count }
        ensures once { IsOnce (blocks_in result) }
        ensures below { AreBelow N.options.capacity (blocks_in result) }
    {
        let Gathering {
            seat,
            mut runs,
            last_run,
            block_count: _,
            wanted_blocks: _,
            of: _,
        } = self;
        seat.is_sound();
        if last_run.blocks > 0 {
            runs.push_within(last_run);
        }
        Reservation {
            seat,
            runs,
            of: PhantomData,
        }
    }
}
