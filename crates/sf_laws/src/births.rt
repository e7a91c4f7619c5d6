//! The births of a publication, and where births in reach occur.
ghost use Rattle.std.specs.Prelude.{◌≡◌, ℕ, List, ◌++◌, IsTrue, filter, flat_map, All, Contains};
ghost use Rattle.sf_types.specs.declared.call.Call.{Call};
ghost use Rattle.sf_types.specs.declared.history.Entry.{Entry};
ghost use Rattle.sf_types.specs.declared.options.Options.{Options};
ghost use Rattle.sf_types.specs.Values.Marks.{births_in};
ghost use Rattle.sf_types.specs.Table.Parts.{Table, opening_table};
ghost use Rattle.sf_types.specs.Table.Sessions.{has_session};
ghost use Rattle.sf_types.specs.Space.Reach.{reach, values_in};
ghost use Rattle.sf_types.specs.Space.Promises.{flush_cuts};
ghost use Rattle.sf_types.specs.Space.Publications.{births_for, settled_flush, publish};
ghost use Rattle.sf_types.specs.Play.Blocks.{is_among, new_births};
ghost use Rattle.sf_types.specs.Orders.Histories.{IsLegalHistory, history_table};
ghost use Rattle.sf_laws.specs.Occurrences.{OccursIn};

/// Each birth of a cut occurs in a value that was settled.
pub fn births_of_cuts_occur_in_what_was_settled()
    ensures law { (t : Table) (s : ℕ) (c : Call)
        → All (λ b. Contains (flat_map births_in (values_in (settled_flush t s c))) b) (births_for t.contents (reach t) (flush_cuts t s c)) }
{}

/// Each birth that a publication gives out is in reach after it.
pub fn births_given_out_are_in_reach()
    ensures law { (t : Table) (s : ℕ) (c : Call)
        → IsTrue (has_session t s)
        → All (λ b. Contains (reach (publish t s c).0) b) (new_births t (publish t s c).0) }
{}

/// After every legal run reach after a publication is what is left of reach before it, and then the new births in order.
pub fn reach_after_a_publication()
    ensures law { (options : Options) (sessions s : ℕ) (history : List Entry) (c : Call)
        → IsLegalHistory (opening_table options sessions) history
        → IsTrue (has_session (history_table options sessions history) s)
        → let t = history_table options sessions history in let u = (publish t s c).0 in
        reach u ≡ filter (is_among (reach u)) (reach t) ++ new_births t u }
{}

/// After every legal run a birth is in reach where it occurs in a current value, in a row's value after some commit from the
/// floor on, in a working value, a locator's or a savepoint's value of a session, or among what a standing promise found, and
/// nowhere else.
pub fn births_in_reach_are_those_that_occur()
    ensures occurs { (options : Options) (sessions b : ℕ) (history : List Entry)
        → IsLegalHistory (opening_table options sessions) history
        → Contains (reach (history_table options sessions history)) b
        → OccursIn (history_table options sessions history) b }
    ensures reached { (t : Table) (b : ℕ) → OccursIn t b → Contains (reach t) b }
{}
