//! What the mark of a byte tells is true.
ghost use Rattle.std.specs.Prelude.{ℕ, List};
ghost use Rattle.sf_types.specs.declared.history.Entry.{Entry};
ghost use Rattle.sf_types.specs.declared.options.Options.{Options};
ghost use Rattle.sf_types.specs.Table.Parts.{Table, opening_table};
ghost use Rattle.sf_types.specs.Orders.Histories.{IsLegal, IsLegalHistory, effect_of, history_table};
ghost use Rattle.sf_laws.specs.TrueMarks.{HasTrueMarks};

/// All marks of the opening table are true, and each legal entry keeps them true. So they are true after every legal
/// run.
pub fn marks_are_true()
    ensures opening { (options : Options) (sessions : ℕ) → HasTrueMarks (opening_table options sessions) }
    ensures entry { (t : Table) (e : Entry) → IsLegal t e.token.session e.token.kind e.call
        → HasTrueMarks t → HasTrueMarks (effect_of t e).0 }
    ensures run { (options : Options) (sessions : ℕ) (history : List Entry)
        → IsLegalHistory (opening_table options sessions) history → HasTrueMarks (history_table options sessions history) }
{}
