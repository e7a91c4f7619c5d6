//! Which birth each cut of a publication gets.
ghost use Rattle.std.specs.Prelude.{◌≡◌, ◌≢◌, ◌↔◌, ℕ, ◌+◌, ◌<◌, true, IsTrue, List, ◌++◌, [], length, map, take, filter_map, slice_get, Some, None, Contains};
ghost use Rattle.sf_types.specs.declared.call.Call.{Call};
ghost use Rattle.sf_types.specs.declared.history.Entry.{Entry};
ghost use Rattle.sf_types.specs.declared.options.Options.{Options};
ghost use Rattle.sf_types.specs.Table.Parts.{Content, opening_table};
ghost use Rattle.sf_types.specs.Space.Cuts.{Cut};
ghost use Rattle.sf_types.specs.Space.Reach.{reach};
ghost use Rattle.sf_types.specs.Space.Use.{content_of};
ghost use Rattle.sf_types.specs.Space.Promises.{found_birth, is_equal_sharing, new_cuts, flush_cuts};
ghost use Rattle.sf_types.specs.Space.Publications.{content_of_cut, births_for, publish};
ghost use Rattle.sf_types.specs.Orders.Histories.{IsLegalHistory, history_table};
ghost use Rattle.sf_laws.specs.NewCuts.{is_new_behind, new_cut_indices};
ghost use Rattle.sf_laws.specs.SharedContents.{IsSharedWith};

/// A cut that is found is sharing, and what was found is a shared birth among those reached, with the bytes of the cut. Where a
/// sharing cut isn't found, no such birth is reached.
pub fn a_cut_is_found_by_its_bytes()
    ensures found { (contents : List Content) (reached : List ℕ) (cut : Cut) (b : ℕ)
        → found_birth contents reached cut ≡ Some b
        → (cut.is_sharing ≡ true) × Contains reached b × IsSharedWith contents cut.bytes b }
    ensures missing { (contents : List Content) (reached : List ℕ) (cut : Cut) (b : ℕ)
        → found_birth contents reached cut ≡ None → cut.is_sharing ≡ true → Contains reached b
        → content_of contents b ≢ Some (record { bytes = cut.bytes; is_shared = true }) }
{}

/// Two cuts are equal sharing ones exactly where both are sharing and have the same bytes.
pub fn equal_sharing_cuts_have_the_same_bytes()
    ensures law { (cut other : Cut) → IsTrue (is_equal_sharing cut other)
        ↔ ((cut.is_sharing ≡ true) × (other.is_sharing ≡ true) × (cut.bytes ≡ other.bytes)) }
{}

/// The new cuts are those that aren't found and have no equal sharing cut before them, in their order.
pub fn new_cuts_have_no_equal_before_them()
    ensures law { (contents : List Content) (reached : List ℕ) (of : List Cut)
        → new_cuts contents reached [] of ≡ filter_map (slice_get of) (new_cut_indices contents reached of) }
{}

/// After every legal run a cut that is found gets the birth that was found. A cut that has an equal sharing cut before it gets
/// the birth of that one. Each other cut gets the next number: one more than the contents given out so far and the new cuts
/// before it.
pub fn each_cut_gets_its_birth()
    ensures found { (options : Options) (sessions at b : ℕ) (history : List Entry) (of : List Cut) (cut : Cut)
        → IsLegalHistory (opening_table options sessions) history
        → let t = history_table options sessions history in
        slice_get of at ≡ Some cut → found_birth t.contents (reach t) cut ≡ Some b
        → slice_get (births_for t.contents (reach t) of) at ≡ Some b }
    ensures equal { (options : Options) (sessions before at : ℕ) (history : List Entry) (of : List Cut) (earlier cut : Cut)
        → IsLegalHistory (opening_table options sessions) history
        → let t = history_table options sessions history in
        before < at → slice_get of before ≡ Some earlier → slice_get of at ≡ Some cut → is_equal_sharing cut earlier ≡ true
        → slice_get (births_for t.contents (reach t) of) at ≡ slice_get (births_for t.contents (reach t) of) before }
    ensures next { (options : Options) (sessions at : ℕ) (history : List Entry) (of : List Cut) (cut : Cut)
        → IsLegalHistory (opening_table options sessions) history
        → let t = history_table options sessions history in
        slice_get of at ≡ Some cut → is_new_behind t.contents (reach t) (take at of) cut ≡ true
        → slice_get (births_for t.contents (reach t) of) at
        ≡ Some (length t.contents + length (new_cuts t.contents (reach t) [] (take at of)) + 1) }
    ensures count { (options : Options) (sessions : ℕ) (history : List Entry) (of : List Cut)
        → let t = history_table options sessions history in
        length (births_for t.contents (reach t) of) ≡ length of }
{}

/// After every legal run a publication gives out the contents of its new cuts, in their order, and no other.
pub fn new_cuts_become_contents()
    ensures law { (options : Options) (sessions s : ℕ) (history : List Entry) (c : Call)
        → IsLegalHistory (opening_table options sessions) history
        → let t = history_table options sessions history in
        (publish t s c).0.contents ≡ t.contents ++ map content_of_cut (new_cuts t.contents (reach t) [] (flush_cuts t s c)) }
{}
