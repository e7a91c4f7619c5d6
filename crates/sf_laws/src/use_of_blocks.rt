//! The blocks in use.
ghost use Rattle.std.specs.Prelude.{ℕ, ◌≤◌, List};
ghost use Rattle.sf_types.specs.declared.history.Entry.{Entry};
ghost use Rattle.sf_types.specs.declared.options.Options.{Options};
ghost use Rattle.sf_types.specs.Table.Parts.{Table, opening_table};
ghost use Rattle.sf_types.specs.Space.Use.{use_of};
ghost use Rattle.sf_types.specs.Orders.Histories.{IsLegal, IsLegalHistory, effect_of, history_table};
ghost use Rattle.sf_laws.specs.UseWithinCapacity.{IsWithinCapacity};

/// After every legal run the use is at most the capacity. What keeps it so holds in the opening table, and each legal
/// entry keeps it.
pub fn use_is_within_capacity()
    ensures opening { (options : Options) (sessions : ℕ) → IsWithinCapacity (opening_table options sessions) }
    ensures entry { (t : Table) (e : Entry) → IsLegal t e.token.session e.token.kind e.call
        → IsWithinCapacity t → IsWithinCapacity (effect_of t e).0 }
    ensures run { (options : Options) (sessions : ℕ) (history : List Entry)
        → IsLegalHistory (opening_table options sessions) history → use_of (history_table options sessions history) ≤ options.capacity }
{}
