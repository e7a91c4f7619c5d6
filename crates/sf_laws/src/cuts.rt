//! What cuts and settling are.
ghost use Rattle.std.specs.Prelude.{◌≡◌, ℕ, ◌≤◌, List, length, map, filter, All, sum_by, flat_map};
ghost use Rattle.std.specs.List.{concat};
ghost use Rattle.sf_types.specs.Values.Marks.{Marked, Value, is_fresh, fresh_count, strip, size_of};
ghost use Rattle.sf_types.specs.Space.Cuts.{segments_of, contents_of_value, settle_value};
ghost use Rattle.sf_types.specs.Space.Contents.{contents_of_stretch};
ghost use Rattle.sf_types.specs.Space.Contents.{blocks_of};
ghost use Rattle.sf_laws.specs.Segments.{marked_in, AreMaximal};

/// The runs of fresh bytes are as long as they can be, and the segments joined are the value.
pub fn runs_are_maximal()
    ensures joined { (v : List Marked) → flat_map marked_in (segments_of v) ≡ v }
    ensures maximal { (v : List Marked) → AreMaximal (segments_of v) }
{}

/// The contents of a value joined are its fresh bytes in order, and each has 1 to 32,768 bytes.
pub fn cuts_are_the_fresh_bytes()
    ensures joined { (v : Value) → concat (contents_of_value v) ≡ map (λ m. m.byte) (filter is_fresh v.bytes) }
    ensures sizes { (v : Value) → All (λ bytes. (1 ≤ length bytes) × (length bytes ≤ 32768)) (contents_of_value v) }
{}

/// The contents of a run of n bytes take as many blocks as one content of n bytes would.
pub fn a_run_takes_its_blocks()
    ensures law { (run : List ℕ)
        → sum_by (λ bytes. blocks_of (length bytes)) (contents_of_stretch run) ≡ blocks_of (length run) }
{}

/// Settling keeps the bytes. With a birth for each content no fresh byte is left.
pub fn settling_keeps_the_bytes()
    ensures bytes { (v : Value) (births : List ℕ) → strip (settle_value v births) ≡ strip v }
    ensures fresh { (v : Value) (births : List ℕ)
        → length (contents_of_value v) ≤ length births → fresh_count (settle_value v births) ≡ 0 }
{}
