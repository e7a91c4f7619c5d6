//! Equal bytes that may be shared are stored once.
ghost use Rattle.std.specs.Prelude.{ℕ, List};
ghost use Rattle.sf_types.specs.declared.history.Entry.{Entry};
ghost use Rattle.sf_types.specs.declared.options.Options.{Options};
ghost use Rattle.sf_types.specs.Table.Parts.{Table, opening_table};
ghost use Rattle.sf_types.specs.Orders.Histories.{IsLegal, IsLegalHistory, effect_of, history_table};
ghost use Rattle.sf_laws.specs.SharedContents.{HasDistinctContents};

/// Two shared births in reach never have the same bytes: not in the opening table, and not after a legal entry where
/// there were none before. So there are none after every legal run.
pub fn shared_contents_are_distinct()
    ensures opening { (options : Options) (sessions : ℕ) → HasDistinctContents (opening_table options sessions) }
    ensures entry { (t : Table) (e : Entry) → IsLegal t e.token.session e.token.kind e.call
        → HasDistinctContents t → HasDistinctContents (effect_of t e).0 }
    ensures run { (options : Options) (sessions : ℕ) (history : List Entry)
        → IsLegalHistory (opening_table options sessions) history → HasDistinctContents (history_table options sessions history) }
{}
