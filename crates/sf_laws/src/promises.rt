//! Promises, and places that are the least of some.
ghost use Rattle.std.specs.Prelude.{◌≡◌, ℕ, ◌+◌, ◌-◌, ◌<◌, ◌≤◌, Bool, true, false, List, length, Option, Some, None, find, if◌then◌else◌};
ghost use Rattle.sf_types.specs.declared.call.Call.{Call};
ghost use Rattle.sf_types.specs.Table.Parts.{Table};
ghost use Rattle.sf_types.specs.Table.Versions.{commit_count};
ghost use Rattle.sf_types.specs.Space.Cuts.{Cut};
ghost use Rattle.sf_types.specs.Calls.LocatorCalls.{matches_at, match_offset};
ghost use Rattle.sf_types.specs.Space.Promises.{floor_candidates, fits_at, last_candidate};

/// The floor of a granted promise is the least candidate at which the call fits. Where it fits at none, the refusal has
/// the numbers of the last one: the number of commits with the option max, else the floor.
pub fn the_least_floor_is_taken()
    ensures fits { (t : Table) (of : List Cut) (h : ℕ)
        → find (fits_at t of) (floor_candidates t) ≡ Some h → fits_at t of h ≡ true }
    ensures least { (t : Table) (of : List Cut) (h k : ℕ)
        → find (fits_at t of) (floor_candidates t) ≡ Some h → t.floor ≤ k → k < h → fits_at t of k ≡ false }
    ensures none { (t : Table) (of : List Cut) (k : ℕ)
        → find (fits_at t of) (floor_candidates t) ≡ None → t.floor ≤ k
        → k ≤ (if t.options.max then commit_count t else t.floor) → fits_at t of k ≡ false }
    ensures last { (t : Table)
        → t.floor ≤ commit_count t → last_candidate t ≡ (if t.options.max then commit_count t else t.floor) }
{}

/// Instr answers the least place at or after the offset where the pattern stands, and 0 where it stands at none.
pub fn the_least_place_is_answered()
    ensures stands { (bytes pattern : List ℕ) (offset k : ℕ)
        → 1 ≤ offset → match_offset bytes pattern offset ≡ k + 1
        → (offset ≤ k + 1) × (matches_at bytes pattern (k + 1) ≡ true) }
    ensures least { (bytes pattern : List ℕ) (offset k : ℕ)
        → 1 ≤ offset → offset ≤ k → k < match_offset bytes pattern offset → matches_at bytes pattern k ≡ false }
    ensures none { (bytes pattern : List ℕ) (offset k : ℕ)
        → 1 ≤ offset → match_offset bytes pattern offset ≡ 0 → offset ≤ k → k ≤ length bytes
        → matches_at bytes pattern k ≡ false }
{}
