//! Births in reach.
ghost use Rattle.std.specs.Prelude.{ℕ, ◌≤◌, ◌<◌, ◌⊎◌, List, length, Contains};
ghost use Rattle.sf_types.specs.declared.history.Entry.{Entry};
ghost use Rattle.sf_types.specs.Orders.Histories.{IsLegal, effect_of};
ghost use Rattle.sf_laws.specs.TrueMarks.{HasTrueMarks, found_by};
ghost use Rattle.sf_types.specs.Inside.Births.{IsRising};
ghost use Rattle.sf_types.specs.Values.Marks.{Value, births_in};
ghost use Rattle.sf_types.specs.Table.Parts.{Session, Table};
ghost use Rattle.sf_types.specs.Table.Versions.{commit_count};
ghost use Rattle.sf_types.specs.Space.Reach.{reach, session_values};
ghost use Rattle.sf_laws.specs.KeptVersions.{IsKeptVersion, IsValueSinceFloor};

/// The births in reach rise, each of them once.
pub fn reach_rises()
    ensures law { (t : Table) → IsRising (reach t) }
{}

/// The kept versions of a row are the values that it had after some commit from the floor on.
pub fn kept_versions_are_the_values_since_the_floor()
    ensures kept { (t : Table) (row : List ℕ) (n : ℕ) (v : Value)
        → IsValueSinceFloor t row n v → (k : ℕ) × IsKeptVersion t row k v }
    ensures since { (t : Table) (row : List ℕ) (k : ℕ) (v : Value)
        → t.floor ≤ commit_count t → IsKeptVersion t row k v → (n : ℕ) × IsValueSinceFloor t row n v }
{}

/// A birth that is in reach after a legal entry was in reach before, or is given out by this entry. So a birth that left
/// reach never comes back, and is never found again.
pub fn births_that_left_stay_away()
    ensures law { (t : Table) (e : Entry) (b : ℕ) → IsLegal t e.token.session e.token.kind e.call → HasTrueMarks t
        → Contains (reach (effect_of t e).0) b → Contains (reach t) b ⊎ (length t.contents < b) }
{}

/// A birth that occurs in a value that a row had after some commit from the floor on, in a session's value, or among
/// what a standing promise found is in reach.
pub fn what_occurs_is_in_reach()
    ensures row { (t : Table) (row : List ℕ) (n : ℕ) (v : Value) (b : ℕ)
        → IsValueSinceFloor t row n v → Contains (births_in v) b
        → Contains (reach t) b }
    ensures session { (t : Table) (p : Session) (v : Value) (b : ℕ)
        → Contains t.sessions p → Contains (session_values p) v → Contains (births_in v) b
        → Contains (reach t) b }
    ensures promise { (t : Table) (p : Session) (b : ℕ)
        → Contains t.sessions p → Contains (found_by p) b → Contains (reach t) b }
{}
