//! The words.
ghost use Rattle.std.specs.Prelude.{◌≡◌, ◌+◌, ◌%◌, ◌^◌, ◌<◌, ◌≤◌, ◌++◌, [], IfOk};
ghost use Rattle.sf_types.specs.Space.BlockRuns.{blocks_in, blocks_in_run};
ghost use Rattle.sf_space_words.specs.Blocks.{AreBitsPast, AreOwnBits, Covers, IsOnce, blocks_of_mask, clear_bits, without_blocks, without_mask, word_count};
ghost use Rattle.sf_space_words.specs.Seats.{IsOf, new_seat};
ghost use Rattle.sf_space_words.specs.Inside.{AreOpening};

use crate::limits::WORD_BLOCKS;
use crate::seat::Seat;
use crate::steps::{Bits, Chosen, Claim, Look, Merge, Part, Release};
use crate::view::View;
use atomic_table::Table;
use sf_types::{Mem, Run, Runs};
use std::alloc::Global;
use std::marker::{Brand, Model};

/// Words whose bits are blocks, seen as their identity and their number of blocks. Block b is bit b % 64 of word b / 64. No
/// call waits, and none but `new` takes memory.
#[derive(Drop)]
pub struct Words {
    table: Table<(), View, u32, Bits, Global>,
    count: u32,
}

impl Model for Words {
    ghost use Rattle.sf_space_words.specs.Seats.{Space};
    ghost use Rattle.sf_space_words.specs.Inside.{IsSized};

    ghost Value = { Space };

    ghost view = { λ w. record { id = w.table.shared.table_id; capacity = w.table.shared.key } };

    ghost invariant = { λ w. IsSized w.table.shared.table_id.words w.count w.table.shared.key };
}

// The words at the start: the bits of all blocks are clear, and those past the last block are set.
fn opening_words(alloc: Global, blocks: u32) -> Mem<Vec<u64>>
    requires { 0 < blocks }
    ensures { IfOk result (λ words. AreOpening blocks words.items) }
{
    let count = blocks.div_ceil(WORD_BLOCKS) as usize;
    let mut words = Vec::from_elem(alloc, 0u64, count)?;
    let rest = blocks % WORD_BLOCKS;
    if rest != 0 {
        words[count - 1] = u64::MAX << rest;
    }
    Ok(words)
}

impl Words {
    /// Words for so many blocks, all of them clear, and a seat that has none. The number of blocks is at least 1.
    pub fn new(alloc: Global, blocks: u32) -> Mem<(Words, Seat)>
        requires { 0 < blocks }
        ensures words { IfOk result (λ made. made.0.capacity ≡ blocks) }
        ensures seat { IfOk result (λ made. made.1 ≡ new_seat made.0.id blocks []) }
    {
        let words = opening_words(alloc, blocks)?;
        let (table, seat) = Table::of_words(alloc, words.as_slice(), &blocks)?;
        let count = table.word_count() as u32;
        Ok((Words { table, count }, Seat { seat }))
    }

    /// The number of words.
    pub fn count(&self) -> u32
        ensures count { result ≡ word_count self.now.capacity }
        ensures range { (0 < self.now.capacity) × (self.now.capacity < 2 ^ 32) }
    {
        self.count
    }

    /// A word as it stands. Others may change it at any time, but the seat's own bits and those past the last block stay set.
    pub fn look(&self, seat: &mut Seat, word: u32) -> u64
        requires words { IsOf self.now seat.old }
        requires word { word < word_count self.now.capacity }
        ensures own { AreOwnBits word seat.old.blocks result }
        ensures past { AreBitsPast word self.now.capacity result }
        ensures seat { seat.new ≡ seat.old }
    {
        self.table
            .shared
            .load::<Look>(&mut seat.seat, word as usize)
    }

    /// Claims the blocks of a word that a mask asks for, by one step. It answers exactly the asked bits that were clear in the
    /// word that this step found. The seat then has these blocks, and notes the word.
    pub fn claim(&self, seat: &mut Seat, word: u32, mask: u64) -> u64
        requires words { IsOf self.now seat.old }
        requires word { word < word_count self.now.capacity }
        ensures answer { result ≡ clear_bits mask seat.new.found_word }
        ensures seat { seat.new ≡ record seat.old { blocks = seat.old.blocks ++ blocks_of_mask word result; claim_count = (seat.old.claim_count + 1) % 2 ^ 64; found_word = seat.new.found_word } }
    {
        let shared = &self.table.shared;
        let found = shared.fetch_or::<Claim>(&mut seat.seat, word as usize, mask);
        mask & !found
    }

    /// Clears the blocks of a word that a mask names, by one step. The seat has them, and then has its others.
    pub fn release(&self, seat: &mut Seat, word: u32, mask: u64)
        requires words { IsOf self.now seat.old }
        requires word { word < word_count self.now.capacity }
        requires blocks { Covers seat.old.blocks (blocks_of_mask word mask) }
        ensures { seat.new ≡ record seat.old { blocks = without_mask word mask seat.old.blocks } }
    {
        let shared = &self.table.shared;
        shared.fetch_and::<Release>(&mut seat.seat, word as usize, !mask);
    }

    /// Cuts the blocks of some runs off, for a new seat. The seat has them, and none is named twice.
    pub fn part(&self, seat: &mut Seat, runs: &Runs) -> Seat
        requires words { IsOf self.now seat.old }
        requires blocks { Covers seat.old.blocks (blocks_in runs.now.held) }
        ensures left { seat.new ≡ record seat.old { blocks = without_blocks (blocks_in runs.now.held) seat.old.blocks } }
        ensures part { result ≡ new_seat seat.old.id seat.old.capacity (blocks_in runs.now.held) }
    {
        self.part_chosen::<Brand>(seat, runs.as_slice())
    }

    /// Cuts the blocks of one run off, for a new seat. The seat has them.
    pub fn part_run(&self, seat: &mut Seat, run: Run) -> Seat
        requires words { IsOf self.now seat.old }
        requires blocks { Covers seat.old.blocks (blocks_in_run run) }
        ensures left { seat.new ≡ record seat.old { blocks = without_blocks (blocks_in_run run) seat.old.blocks } }
        ensures part { result ≡ new_seat seat.old.id seat.old.capacity (blocks_in_run run) }
    {
        self.part_chosen::<Brand>(seat, &[run])
    }

    // Cuts the chosen blocks off, which are those of some runs.
    fn part_chosen<C: Chosen>(&self, seat: &mut Seat, runs: &[Run]) -> Seat
        requires words { IsOf self.now seat.old }
        requires chosen { C.blocks ≡ blocks_in runs.now }
        requires blocks { Covers seat.old.blocks (blocks_in runs.now) }
        ensures left { seat.new ≡ record seat.old { blocks = without_blocks (blocks_in runs.now) seat.old.blocks } }
        ensures part { result ≡ new_seat seat.old.id seat.old.capacity (blocks_in runs.now) }
    {
        let _ = runs;
        let part = self.table.shared.split_seat::<Part<C>>(&mut seat.seat);
        Seat { seat: part }
    }

    /// Merges another seat into this one, which then has the blocks of both. No block was in both. The merge is one atomic
    /// step, and a look after it tells so.
    pub fn merge(&self, seat: &mut Seat, other: Seat)
        requires words { IsOf self.now seat.old × IsOf self.now other }
        ensures seat { seat.new ≡ record seat.old { blocks = seat.old.blocks ++ other.blocks } }
        ensures once { IsOnce seat.new.blocks }
    {
        let Seat { seat: other_seat } = other;
        self.table
            .shared
            .join_seat::<Merge>(&mut seat.seat, other_seat);
        self.table.shared.load::<Look>(&mut seat.seat, 0);
    }
}
