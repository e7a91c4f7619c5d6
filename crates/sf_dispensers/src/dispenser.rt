//! A list of free blocks.
ghost use Rattle.std.specs.Prelude.{◌≡◌, ◌+◌, ◌≤◌, ◌⊎◌, [], ◌∷◌, true, false, IfOk, IfSome, IfNone, OnOk, MatchBool, vec_capacity, vec_len, length};
ghost use Rattle.sf_dispensers.specs.Seats.{IsSeatOf, IsSpaceOf};
ghost use Rattle.sf_dispensers.specs.Inside.{CutsRun, EndsWithin, GainsRun, GainsRuns, NoneJoins};

use crate::gathering::Gathering;
use crate::named::Named;
use crate::neighbours::join_run;
use crate::reservation::Reservation;
use sf_reclaimer::release_run;
use sf_space_words::{Seat, Words};
use sf_types::{Mem, OutOfMemory, Run, Runs};
use std::alloc::Global;
use std::marker::{Model, PhantomData};

// A seat of a store's words with just the blocks of some runs, which wait to be given out. The runs have the room that they
// began with.
pub struct Dispenser<N: Named> {
    seat: Seat,
    runs: Vec<Run>,
    of: PhantomData<N>,
}

impl<N: Named> Model for Dispenser<N> {
    ghost use Rattle.std.specs.Prelude.{vec_capacity, vec_len, ◌-◌, List};
    ghost use Rattle.sf_types.specs.declared.run.Run.{Run};
    ghost use Rattle.sf_types.specs.Rooms.{Roomy};
    ghost use Rattle.sf_dispensers.specs.Seats.{IsSeatOf};

    ghost Value = { Roomy (List Run) };

    ghost view = { λ d. record { held = d.runs.items; spare = vec_capacity d.runs - vec_len d.runs } };

    ghost invariant = { λ d. IsSeatOf N.space N.options d.seat d.runs.items };
}

// Its blocks are gone with the words.
impl<N: Named> Drop for Dispenser<N> {
    fn drop(self) {
        let Dispenser { seat, runs, of: _ } = self;
        seat.abandon();
        drop(runs);
    }
}

// Cuts the first run off, or its first blocks where it has more than so many.
fn cut_front(runs: &mut Vec<Run>, most: u64) -> Run
    requires some { 1 ≤ vec_len runs.old }
    requires end { EndsWithin runs.old.items }
    ensures cut { CutsRun runs.old.items runs.new.items result }
    ensures most { result.blocks ≤ most }
    ensures whole { (result.blocks ≡ most) ⊎ (vec_len runs.new + 1 ≡ vec_len runs.old) }
{
    let front = runs[0];
    if u64::from(front.blocks) <= most {
        return runs.remove(0);
    }
    let blocks = most as u32;
    runs[0] = Run {
        first: front.first + blocks,
        blocks: front.blocks - blocks,
    };
    Run {
        first: front.first,
        blocks,
    }
}

// Puts a run among others: joined with one that it touches, or else last, where there is room. It answers false where it can be
// neither.
fn keep_run(runs: &mut Vec<Run>, run: Run) -> bool
    ensures kept { MatchBool result (GainsRun runs.old.items runs.new.items run) (runs.new.items ≡ runs.old.items) }
    ensures room { vec_len runs.old + 1 ≤ vec_capacity runs.old → result ≡ true }
    ensures none { result ≡ false → NoneJoins runs.old.items run }
    ensures capacity { vec_capacity runs.new ≡ vec_capacity runs.old }
    ensures len { vec_len runs.new ≤ vec_len runs.old + 1 }
{
    if join_run(runs, run) {
        return true;
    }
    if runs.len() < runs.capacity() {
        runs.push_reserved(run);
        return true;
    }
    false
}

impl<N: Named> Dispenser<N> {
    // An empty list with room for so many runs, parted from a seat of the words.
    pub fn new(alloc: Global, words: &Words, seat: &mut Seat, room: usize) -> Mem<Dispenser<N>>
        requires words { IsSpaceOf N.space N.options words.now }
        requires seat { (seat.old.id ≡ N.space) × (seat.old.capacity ≡ N.options.capacity) }
        ensures list { IfOk result (λ list. (list.held ≡ []) × (list.spare ≡ room)) }
        ensures seat { (seat.new.id ≡ seat.old.id) × (seat.new.capacity ≡ seat.old.capacity) }
    {
        let runs = Vec::with_capacity(alloc, room)?;
        let part = words.part(seat, &Runs::new(alloc));
        Ok(Dispenser {
            seat: part,
            runs,
            of: PhantomData,
        })
    }

    // A gathering of so many blocks, with what this list has. After want of memory the list has its blocks again, as far as there
    // is room.
    pub fn begin(&mut self, alloc: Global, words: &Words, wanted_blocks: u64) -> Mem<Gathering<N>>
        requires { IsSpaceOf N.space N.options words.now }
        ensures { IfOk result (λ gathering. (gathering.wanted_blocks ≡ wanted_blocks)) }
    {
        let mut runs = Runs::new(alloc);
        runs.make_room(1)?;
        let seat = words.part(&mut self.seat, &runs);
        let mut gathering = Gathering::new(seat, runs, wanted_blocks);
        match self.give(words, &mut gathering) {
            Ok(()) => Ok(gathering),
            Err(OutOfMemory) => {
                self.take_back(words, gathering.into_reservation());
                Err(OutOfMemory)
            }
        }
    }

    // Cuts the list's first run off, or its first blocks where it has more than so many. None where the list is empty.
    fn cut(&mut self, words: &Words, most: u64) -> Option<(Seat, Run)>
        requires { IsSpaceOf N.space N.options words.now }
        ensures cut { IfSome result (λ cut. IsSeatOf N.space N.options cut.0 (cut.1 ∷ []) × (cut.1.blocks ≤ most)) }
        ensures whole { IfSome result (λ cut. (cut.1.blocks ≡ most) ⊎ (length self.new.held + 1 ≡ length self.old.held)) }
        ensures none { IfNone result (self.new.held ≡ []) }
    {
        if self.runs.is_empty() {
            return None;
        }
        self.seat.is_sound();
        let _ = words.count();
        let run = cut_front(&mut self.runs, most);
        let part = words.part_run(&mut self.seat, run);
        Some((part, run))
    }

    // Gives blocks to a gathering, the first runs first, until nothing is missing or the list is empty.
    pub fn give(&mut self, words: &Words, gathering: &mut Gathering<N>) -> Mem<()>
        requires { IsSpaceOf N.space N.options words.now }
        ensures ok { OnOk result ((gathering.new.block_count ≡ gathering.new.wanted_blocks) ⊎ (self.new.held ≡ [])) }
        ensures wanted { gathering.new.wanted_blocks ≡ gathering.old.wanted_blocks }
    {
        for _ in 0..self.runs.len() {
            let missing = gathering.missing_blocks();
            if missing == 0 {
                return Ok(());
            }
            gathering.make_room(1)?;
            let Some((part, run)) = self.cut(words, missing) else {
                return Ok(());
            };
            gathering.gain(words, part, run);
        }
        Ok(())
    }

    // Takes the blocks of a reservation in, as far as there is room, and clears the others. Where there is room for all of its
    // runs, none is cleared.
    pub fn take_back(&mut self, words: &Words, reservation: Reservation<N>)
        requires { IsSpaceOf N.space N.options words.now }
        ensures { length reservation ≤ self.old.spare → GainsRuns self.old.held self.new.held reservation }
    {
        let Reservation { seat, runs, of: _ } = reservation;
        words.merge(&mut self.seat, seat);
        for run in runs.as_slice() {
            self.seat.is_sound();
            if !keep_run(&mut self.runs, *run) {
                release_run(words, &mut self.seat, *run);
            }
        }
    }
}
