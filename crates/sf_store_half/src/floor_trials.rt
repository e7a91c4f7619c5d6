//! Floors at which a promise is tried.
ghost use Rattle.std.specs.Prelude.{◌≡◌, ◌+◌, ◌-◌, ◌≤◌, ◌++◌, ℕ, false, map, drop, length, slice_get, sum_by, IfOk, IfSome, IfNone};
ghost use Rattle.std.specs.Option.{option_copied, option_map};
ghost use Rattle.sf_retention.specs.Notes.{due_pairs, pair_of};
ghost use Rattle.sf_stock.specs.Stocks.{block_count};
ghost use Rattle.sf_store_half.specs.HalfMoves.{AreStocked};
ghost use Rattle.sf_store_half.specs.Inside.CutNotes.{blocks_for_all};
ghost use Rattle.sf_store_half.specs.Inside.Fields.{promised_blocks};
ghost use Rattle.sf_store_half.specs.Inside.Promises.{IsCandidate, IsLastTrial, IsNextFloor, IsTrial, holders_at};
ghost use Rattle.sf_store_half.specs.Inside.Trials.{AreHoldersOnce, IsGivenUpOf, is_reached, reached_stock, version_of};

use crate::cut_notes::CutNote;
use crate::store_half::StoreHalf;
use crate::trials::{reached_blocks, wanted_blocks};
use sf_lifetimes::GivenUp;
use sf_retention::{Note, Retention};
use sf_types::{Births, Holder, Mem, TryCopy};

/// A promise that is tried at a floor: the number of versions that are due there, the blocks that its cuts want, the free blocks, and
/// the holders that are given up, which are its session and these versions.
#[derive(Drop)]
pub struct Trial<'a> {
    pub floor: u64,
    pub due: usize,
    pub wanted: u64,
    pub free: u64,
    pub given: GivenUp<'a>,
}

// The note of the version that is due at a floor behind so many others, where there is one.
fn due_note(notes: &Retention, at: usize, floor: u64) -> Option<&Note>
    ensures { option_map pair_of (option_copied result) ≡ slice_get (due_pairs notes.now.held floor) at }
{
    match notes.get(at) {
        Some(note) if note.until <= floor => Some(note),
        _ => None,
    }
}

// Gives up the versions that are due at a floor, behind so many of them, and answers the number of all that are due.
fn give_up_due<'a>(
    notes: &Retention,
    mut given: GivenUp<'a>,
    from: usize,
    floor: u64,
) -> Mem<(GivenUp<'a>, usize)>
    requires from { from ≤ length (due_pairs notes.now.held floor) }
    requires once { AreHoldersOnce (given.holders ++ map version_of (drop from (due_pairs notes.now.held floor))) }
    ensures ledger { IfOk result (λ both. both.0.ledger ≡ given.entry.ledger) }
    ensures holders { IfOk result (λ both. both.0.holders ≡ given.entry.holders ++ map version_of (drop from (due_pairs notes.now.held floor))) }
    ensures count { IfOk result (λ both. both.1 ≡ length (due_pairs notes.now.held floor)) }
{
    // No more are due than there are notes.
    let _count = notes.len();
    let mut at = from;
    while let Some(note) = due_note(notes, at, floor) {
        given = given.give_up(Holder::Version(note.row.copy()?, note.from))?;
        at += 1;
    }
    Ok((given, at))
}

impl StoreHalf {
    // Tries a promise where these holders are given up, as they are at a floor.
    fn trial_of<'a>(
        &self,
        floor: u64,
        given: GivenUp<'a>,
        due: usize,
        births: &Births,
        cuts: &[CutNote],
    ) -> Mem<Trial<'a>>
        requires given { IsGivenUpOf self.now.stock given }
        requires births { AreStocked self.now births.now }
        ensures floor { IfOk result (λ trial. trial.floor ≡ floor) }
        ensures given { IfOk result (λ trial. trial.given ≡ given.entry) }
        ensures due { IfOk result (λ trial. trial.due ≡ due) }
        ensures wanted { IfOk result (λ trial. trial.wanted ≡ blocks_for_all (is_reached self.now.stock.holdings given.entry.holders births.now) cuts.now) }
        ensures free { IfOk result (λ trial. trial.free ≡ self.now.options.capacity - (block_count (reached_stock self.now.stock given.entry.holders births.now) + sum_by promised_blocks self.now.sessions)) }
    {
        let wanted = wanted_blocks(cuts, &given, births)?;
        let reached = reached_blocks(&self.stock, &given, births)?;
        let capacity = u64::from(self.options.capacity);
        let free = capacity
            .saturating_sub(reached)
            .saturating_sub(self.promised);
        Ok(Trial {
            floor,
            due,
            wanted,
            free,
            given,
        })
    }

    // Tries a promise of a session at the store's floor.
    fn first_trial(&self, session: u16, births: &Births, cuts: &[CutNote]) -> Mem<Trial<'_>>
        requires births { AreStocked self.now births.now }
        ensures trial { IfOk result (λ trial. IsTrial self.now session births.now cuts.now trial) }
        ensures floor { IfOk result (λ trial. trial.floor ≡ self.now.floor) }
        ensures within { self.now.floor ≤ self.now.versions.now }
    {
        let given = self.stock.give_up().give_up(Holder::Session(session))?;
        let (given, due) = give_up_due(&self.notes, given, 0, self.floor)?;
        let trial = self.trial_of(self.floor, given, due, births, cuts)?;
        Ok(trial)
    }

    // Tries a promise at a higher floor.
    fn next_trial<'a>(
        &self,
        trial: Trial<'a>,
        floor: u64,
        births: &Births,
        cuts: &[CutNote],
    ) -> Mem<Trial<'a>>
        requires births { AreStocked self.now births.now }
        requires trial { (s : ℕ) × IsTrial self.now s births.now cuts.now trial }
        requires low { self.now.floor ≤ trial.floor }
        requires later { trial.floor ≤ floor }
        requires high { floor ≤ self.now.versions.now }
        ensures trial { IfOk result (λ next. (s : ℕ) → IsTrial self.now s births.now cuts.now trial.entry → IsTrial self.now s births.now cuts.now next) }
        ensures floor { IfOk result (λ next. next.floor ≡ floor) }
    {
        // Along the notes the commits that displaced versions rise.
        let _first = self.notes.get(0);
        let Trial { due, given, .. } = trial;
        let (given, due) = give_up_due(&self.notes, given, due, floor)?;
        let next = self.trial_of(floor, given, due, births, cuts)?;
        Ok(next)
    }

    // The next floor at which more versions are due, where a promise doesn't fit and the floor may rise.
    fn next_floor(&self, trial: &Trial<'_>) -> Option<u64>
        requires due { trial.now.due ≡ length (due_pairs self.now.notes trial.now.floor) }
        requires alone { self.now.options.max ≡ false → trial.now.floor ≡ self.now.floor }
        ensures next { IfSome result (IsNextFloor self.now trial.now) }
        ensures none { IfNone result (IsLastTrial self.now trial.now) }
    {
        if trial.wanted <= trial.free || !self.options.max {
            return None;
        }
        match self.notes.get(trial.due) {
            Some(note) => Some(note.until),
            None => None,
        }
    }

    // Tries a promise of a session, from the store's floor up, to the first floor at which it fits or behind which no more
    // versions are due.
    pub(crate) fn find_floor(
        &self,
        session: u16,
        births: &Births,
        cuts: &[CutNote],
    ) -> Mem<Trial<'_>>
        requires births { AreStocked self.now births.now }
        ensures trial { IfOk result (λ trial. IsTrial self.now session births.now cuts.now trial) }
        ensures candidate { IfOk result (λ trial. IsCandidate self.now session births.now cuts.now trial.floor) }
        ensures last { IfOk result (λ trial. IsLastTrial self.now trial) }
    {
        let mut trial = self.first_trial(session, births, cuts)?;
        while let Some(floor) = self.next_floor(&trial) {
            trial = self.next_trial(trial, floor, births, cuts)?;
        }
        Ok(trial)
    }
}
