//! Committed values.
ghost use Rattle.std.specs.Prelude.{ℕ};
ghost use Rattle.sf_types.specs.declared.history.Entry.{Entry};
ghost use Rattle.sf_types.specs.declared.options.Options.{Options};
ghost use Rattle.sf_types.specs.Table.Parts.{Table, opening_table};
ghost use Rattle.sf_types.specs.Orders.Histories.{IsLegal, effect_of};
ghost use Rattle.sf_laws.specs.Committed.{IsAllStored};

/// No committed value has a fresh byte: not at the opening, and not after a legal entry where it was so before.
pub fn committed_values_are_stored()
    ensures opening { (options : Options) (sessions : ℕ) → IsAllStored (opening_table options sessions) }
    ensures kept { (t : Table) (e : Entry)
        → IsLegal t e.token.session e.token.kind e.call → IsAllStored t → IsAllStored (effect_of t e).0 }
{}
