//! What edits leave as it was.
ghost use Rattle.std.specs.Prelude.{◌≡◌, ℕ, ◌+◌, ◌-◌, ◌<◌, ◌≤◌, min, max, List, [], length, take, drop, replicate, IsPermutation, Bool, Option};
ghost use Rattle.sf_types.specs.declared.call.Call.TheVariants as call;
ghost use Rattle.sf_types.specs.Table.Parts.{Session};
ghost use Rattle.sf_types.specs.Values.Marks.{Marked, Value};
ghost use Rattle.sf_types.specs.Calls.WritingCalls.{old_value, result_of};
ghost use Rattle.sf_types.specs.Values.Edits.{part, with_padding, put, insert, delete, replace, move, erase, erased_count, trim};
ghost use Rattle.sf_laws.specs.Splices.{IsSplice, IsSameOutside};

/// Bytes that are put over others leave all bytes outside their range. Where the value is shorter, zeros stand between.
pub fn put_leaves_the_rest()
    ensures before { (zero : Marked) (v items : List Marked) (offset : ℕ)
        → IsSplice (with_padding zero v (offset - 1)) (put zero v offset items) (offset - 1) items (offset - 1 + length items) }
    ensures after { (zero : Marked) (v items : List Marked) (offset : ℕ)
        → drop (offset - 1 + length items) (put zero v offset items) ≡ drop (offset - 1 + length items) v }
{}

/// Bytes that are put before others move these, and change none.
pub fn insert_leaves_the_rest()
    ensures law { (v items : List Marked) (offset : ℕ)
        → offset - 1 ≤ length v → IsSplice v (insert v offset items) (offset - 1) items (offset - 1) }
{}

/// What is taken out leaves all that stood before and behind it.
pub fn delete_leaves_the_rest()
    ensures law { (v : List Marked) (amount offset : ℕ)
        → offset - 1 + amount ≤ length v → IsSplice v (delete v amount offset) (offset - 1) [] (offset - 1 + amount) }
{}

/// What is replaced leaves all that stood before and behind it.
pub fn replace_leaves_the_rest()
    ensures law { (v items : List Marked) (amount offset : ℕ)
        → offset - 1 + amount ≤ length v
        → IsSplice v (replace v amount offset items) (offset - 1) items (offset - 1 + amount) }
{}

/// What is erased becomes zeros, as many as there were bytes, and the rest stays. Past the end nothing is erased.
pub fn erase_leaves_the_rest()
    ensures law { (zero : Marked) (v : List Marked) (amount offset : ℕ)
        → offset - 1 ≤ length v
        → IsSplice v (erase zero v amount offset) (offset - 1) (replicate (erased_count v amount offset) zero) (offset - 1 + amount) }
    ensures past { (zero : Marked) (v : List Marked) (amount offset : ℕ)
        → length v ≤ offset - 1 → erase zero v amount offset ≡ v }
    ensures size { (zero : Marked) (v : List Marked) (amount offset : ℕ)
        → length (erase zero v amount offset) ≡ length v }
{}

/// Trimming leaves the first bytes.
pub fn trim_leaves_the_front()
    ensures law { (v : List Marked) (size n : ℕ) → n ≤ size → take n (trim v size) ≡ take n v }
    ensures size { (v : List Marked) (size : ℕ) → size ≤ length v → length (trim v size) ≡ size }
{}

/// A move gives the same bytes in another order. It leaves what stands before the part and the place, and what stands
/// behind them, and the part stands whole before the byte that stood at the place.
pub fn move_permutes()
    ensures permutation { (v : List Marked) (amount from to : ℕ)
        → 1 ≤ from → 1 ≤ to → IsPermutation v (move v amount from to) }
    ensures outside { (v : List Marked) (amount from to : ℕ)
        → 1 ≤ from → 1 ≤ to → from - 1 + amount ≤ length v → to ≤ length v + 1
        → IsSameOutside v (move v amount from to) (min from to - 1) (max (from + amount) to - 1) }
    ensures front { (v : List Marked) (amount from to : ℕ)
        → 1 ≤ to → to < from → from - 1 + amount ≤ length v
        → part (move v amount from to) amount to ≡ part v amount from }
    ensures back { (v : List Marked) (amount from to : ℕ)
        → 1 ≤ from → from + amount < to → to ≤ length v + 1
        → part (move v amount from to) amount (to - amount) ≡ part v amount from }
{}

/// SetOptions keeps the bytes of the row's value with their marks, so it adds no fresh byte.
pub fn set_options_keeps_the_bytes()
    ensures law { (p : Session) (current : Option Value) (at : List ℕ) (share : Bool)
        → (result_of p current at (call.SetOptions at share)).bytes ≡ (old_value p current at).bytes }
{}
