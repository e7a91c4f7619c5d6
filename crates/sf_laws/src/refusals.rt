//! Refusals.
ghost use Rattle.std.specs.Prelude.{◌≡◌, ◌≢◌, ℕ, Bool, true, false, IsTrue, List, [], ◌∷◌, ◌++◌, Option, Some, None};
ghost use Rattle.std.specs.List.{list_any};
ghost use Rattle.sf_types.specs.declared.history.Entry.{Entry};
ghost use Rattle.sf_types.specs.declared.reply.Fault.{Fault};
ghost use Rattle.sf_types.specs.declared.reply.Reply.TheVariants as reply;
ghost use Rattle.sf_types.specs.Calls.Refusals.{first_refusal};
ghost use Rattle.sf_types.specs.Table.Sessions.{has_session};
ghost use Rattle.sf_types.specs.Table.Parts.{Table};
ghost use Rattle.sf_types.specs.Orders.Histories.{effect_of};

/// A refused entry leaves the table as it was, a refused promise too, whose floor stays.
pub fn a_refused_entry_changes_nothing()
    ensures law { (t : Table) (e : Entry) (f : Fault)
        → IsTrue (has_session t e.token.session) → (effect_of t e).1 ≡ Some (reply.Refused f) → (effect_of t e).0 ≡ t }
{}

/// A call is refused by the first of its tests that holds, and by none where none holds.
pub fn the_first_test_refuses()
    ensures first { (before after : List (Bool × Fault)) (f : Fault)
        → list_any (λ test. test.0) before ≡ false → first_refusal (before ++ (true, f) ∷ after) ≡ Some f }
    ensures none { (tests : List (Bool × Fault))
        → list_any (λ test. test.0) tests ≡ false → first_refusal tests ≡ None }
{}
