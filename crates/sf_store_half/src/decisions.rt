//! What is decided on a promise.
ghost use Rattle.std.specs.Prelude.{◌≡◌, [], ◌∷◌, IfOk};
ghost use Rattle.std.specs.Option.{option_map_or};
ghost use Rattle.sf_store_half.specs.HalfMoves.{AreStocked};
ghost use Rattle.sf_store_half.specs.Inside.Promises.{IsDecided};
ghost use Rattle.sf_store_half.specs.Inside.Trials.{births_found, found_among, is_reached};

use crate::cut_notes::CutNote;
use crate::store_half::StoreHalf;
use crate::trials::is_reached;
use sf_birth_union::BirthUnion;
use sf_lifetimes::GivenUp;
use sf_retention::PairList;
use sf_types::{Births, Mem};
use std::alloc::Global;

/// A promise that is granted: the floor, the versions that are due there, the blocks that are wanted, and the births that are found.
#[derive(Drop)]
pub struct Grant {
    pub floor: u64,
    pub due: PairList,
    pub wanted: u64,
    pub found: Births,
}

/// A promise that is granted, or refused with the blocks that are wanted and the free ones.
#[derive(Drop)]
pub enum Decision {
    Granted(Grant),
    NoSpace { wanted: u64, free: u64 },
}

// The birth that is found for a cut among those that are reached.
fn found_among(cut: &CutNote, given: &GivenUp<'_>, births: &Births) -> Option<u128>
    ensures { result ≡ found_among (is_reached given.now.ledger.holdings given.now.holders births.now) cut.now }
{
    match cut.found {
        Some(birth) if is_reached(given, births, birth) => Some(birth),
        _ => None,
    }
}

// One birth alone, or none.
fn one_birth(alloc: Global, birth: Option<u128>) -> Mem<Births>
    ensures { IfOk result (λ births. births ≡ option_map_or (λ b. b ∷ []) birth []) }
{
    let mut births = Births::new(alloc);
    if let Some(birth) = birth {
        births.push(birth)?;
    }
    Ok(births)
}

// The births that are found for cuts among those that are reached, rising, each once.
fn found_births(
    alloc: Global,
    cuts: &[CutNote],
    given: &GivenUp<'_>,
    births: &Births,
) -> Mem<Births>
    ensures { IfOk result (λ found. found ≡ births_found (is_reached given.now.ledger.holdings given.now.holders births.now) cuts.now) }
{
    let mut found = BirthUnion::new(alloc);
    for cut in cuts {
        let birth = one_birth(alloc, found_among(cut, given, births))?;
        found.add(&birth)?;
    }
    let found = found.into_births()?;
    Ok(found)
}

impl StoreHalf {
    // Decides on the promise of a session that holds these births.
    pub(crate) fn decide(&self, session: u16, births: &Births, cuts: &[CutNote]) -> Mem<Decision>
        requires { AreStocked self.now births.now }
        ensures { IfOk result (λ decision. IsDecided self.now session births.now cuts.now decision) }
    {
        let trial = self.find_floor(session, births, cuts)?;
        if trial.wanted > trial.free {
            return Ok(Decision::NoSpace {
                wanted: trial.wanted,
                free: trial.free,
            });
        }
        let found = found_births(*self.sessions.allocator(), cuts, &trial.given, births)?;
        let due = self.notes.due(trial.floor)?;
        Ok(Decision::Granted(Grant {
            floor: trial.floor,
            due,
            wanted: trial.wanted,
            found,
        }))
    }
}
