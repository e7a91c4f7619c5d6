//! Births that nobody holds any more.
ghost use Rattle.std.specs.Prelude.{◌≡◌, ◌+◌, ◌≤◌, [], ◌∷◌, ◌++◌, length};
ghost use Rattle.std.specs.Ordering.{nat_cmp};
ghost use Rattle.std.specs.List.Sorted.{IsPermutation, IsSortedByKey};
ghost use Rattle.sf_types.specs.Rooms.{MakesRoom};
ghost use Rattle.sf_lifetimes.specs.Departures.{first_of};

use sf_types::{BirthRuns, Mem};
use std::alloc::Global;
use std::marker::Model;

/// Births that nobody holds any more with their places, seen as their list, and room for more.
#[derive(Drop)]
pub struct UnheldPlaces {
    places: Vec<BirthRuns>,
}

impl Model for UnheldPlaces {
    ghost use Rattle.std.specs.Prelude.{◌-◌, List, vec_capacity, vec_len};
    ghost use Rattle.sf_types.specs.Rooms.{Roomy};
    ghost use Rattle.sf_types.specs.declared.birth_runs.BirthRuns.{BirthRuns};

    ghost Value = { Roomy (List BirthRuns) };

    ghost view = { λ unheld. record { held = unheld.places.items; spare = vec_capacity unheld.places - vec_len unheld.places } };
}

// The first block of a place.
fn first_of(place: &BirthRuns) -> u32
    ensures { result ≡ first_of place.now }
{
    match place.runs.get(0) {
        Some(run) => run.first,
        None => 0,
    }
}

impl UnheldPlaces {
    /// No births, and no room. It takes no memory.
    pub fn new(alloc: Global) -> UnheldPlaces
        ensures places { result.held ≡ [] }
        ensures spare { result.spare ≡ 0 }
    {
        UnheldPlaces {
            places: Vec::new(alloc),
        }
    }

    /// Makes room for so many births more.
    pub fn make_room(&mut self, births: u64) -> Mem<()>
        ensures { MakesRoom self.old self.new births result }
    {
        self.places.reserve(births as usize)?;
        Ok(())
    }

    /// The births with their places.
    pub fn as_slice(&self) -> &[BirthRuns]
        ensures { result.now ≡ self.now.held }
    {
        self.places.as_slice()
    }

    /// The number of births.
    pub fn len(&self) -> usize
        ensures { result ≡ length self.now.held }
    {
        self.places.len()
    }

    /// Puts a birth with its place last, where there is room for it. It takes no memory.
    pub fn push_within(&mut self, place: BirthRuns)
        requires { 1 ≤ self.old.spare }
        ensures places { self.new.held ≡ self.old.held ++ place ∷ [] }
        ensures spare { self.new.spare + 1 ≡ self.old.spare }
    {
        self.places.push_reserved(place);
    }

    /// Puts the births in the order of the blocks with which their places begin, the lowest first. It takes no memory.
    pub fn sort_by_first(&mut self)
        ensures same { IsPermutation self.old.held self.new.held }
        ensures rising { IsSortedByKey first_of nat_cmp self.new.held }
        ensures spare { self.new.spare ≡ self.old.spare }
    {
        self.places
            .sort_unstable_by(|place, other| first_of(place).cmp(&first_of(other)));
    }

    /// Lets all go, and keeps their room. It takes no memory.
    pub fn clear(&mut self)
        ensures places { self.new.held ≡ [] }
        ensures spare { self.new.spare ≡ self.old.spare + length self.old.held }
    {
        self.places.clear();
    }
}
