//! The law of locality.
ghost use Rattle.std.specs.Prelude.{◌≡◌, ◌≢◌, ℕ, ◌≤◌, List, ◌++◌, IsTrue, false};
ghost use Rattle.std.specs.List.{AllByRecursion};
ghost use Rattle.sf_types.specs.declared.call.Call.{Call};
ghost use Rattle.sf_types.specs.declared.history.Entry.{Entry};
ghost use Rattle.sf_types.specs.declared.options.Options.{Options};
ghost use Rattle.sf_types.specs.Table.Sessions.{has_session, session_of};
ghost use Rattle.sf_types.specs.Orders.Histories.{IsLegalHistory, history_table, table_after, replies_from, replies_to, call_entries};
ghost use Rattle.sf_types.specs.Table.Parts.{opening_table};
ghost use Rattle.sf_types.specs.Halves.Own.{own_of, own_after, own_replies, AreLocal, MayCall};

/// Entries of other sessions leave a session's own part: its part of the table, and what the rows hold that it has locked. They
/// leave its standing promise too.
pub fn others_leave_the_own_part()
    ensures own { (options : Options) (sessions r : ℕ) (history others : List Entry)
        → IsLegalHistory (opening_table options sessions) (history ++ others)
        → IsTrue (has_session (history_table options sessions history) r)
        → AllByRecursion (λ e. r ≢ e.token.session) others
        → own_of (history_table options sessions (history ++ others)) r ≡ own_of (history_table options sessions history) r }
    ensures part { (options : Options) (sessions r : ℕ) (history others : List Entry)
        → IsLegalHistory (opening_table options sessions) (history ++ others)
        → IsTrue (has_session (history_table options sessions history) r)
        → AllByRecursion (λ e. r ≢ e.token.session) others
        → session_of (history_table options sessions (history ++ others)) r ≡ session_of (history_table options sessions history) r }
{}

/// Local calls of a session are legal after whatever others did meanwhile, and their replies and the own part after them are
/// told by the own part before.
pub fn local_calls_are_by_the_own_part()
    ensures law { (options : Options) (sessions r : ℕ) (history others : List Entry) (calls : List Call)
        → IsLegalHistory (opening_table options sessions) (history ++ others)
        → IsTrue (has_session (history_table options sessions history) r)
        → AllByRecursion (λ e. r ≢ e.token.session) others
        → MayCall (session_of (history_table options sessions history) r)
        → AreLocal options.gather (own_of (history_table options sessions history) r) calls
        → IsLegalHistory (opening_table options sessions) (history ++ others ++ call_entries r calls)
        × (own_of (history_table options sessions (history ++ others ++ call_entries r calls)) r ≡ own_after (own_of (history_table options sessions history) r) calls)
        × (replies_to r (replies_from (history_table options sessions (history ++ others)) (call_entries r calls)) ≡ own_replies (own_of (history_table options sessions history) r) calls) }
{}
