//! What holds after every legal run.
ghost use Rattle.std.specs.Prelude.{◌≡◌, ℕ, ◌≤◌, List, [], IsTrue, Bool, true, false, All};
ghost use Rattle.sf_types.specs.declared.call.Call.TheVariants as call;
ghost use Rattle.sf_types.specs.declared.history.Entry.{Entry};
ghost use Rattle.sf_types.specs.declared.options.Options.{Options};
ghost use Rattle.sf_types.specs.Inside.NameMaps.{get};
ghost use Rattle.sf_types.specs.Table.Parts.{Table, opening_table};
ghost use Rattle.sf_types.specs.Table.Sessions.{has_session, session_of, locked_rows};
ghost use Rattle.sf_types.specs.Table.Versions.{commit_count, current_value, present_rows};
ghost use Rattle.sf_types.specs.Space.Cuts.{Cut};
ghost use Rattle.sf_types.specs.Space.Due.{is_due};
ghost use Rattle.sf_types.specs.Space.Promises.{fits_at};
ghost use Rattle.sf_types.specs.Orders.Histories.{IsLegalHistory, history_table};
ghost use Rattle.sf_laws.specs.Facts.{HasContentSize, HaveFewFresh, HasRisingNames};

/// The floor is at most the number of commits.
pub fn the_floor_is_at_most_the_number_of_commits()
    ensures law { (options : Options) (sessions : ℕ) (history : List Entry)
        → IsLegalHistory (opening_table options sessions) history
        → (history_table options sessions history).floor ≤ commit_count (history_table options sessions history) }
{}

/// Each content that was given out has at least one byte and at most as many as a content may have.
pub fn contents_have_their_sizes()
    ensures law { (options : Options) (sessions : ℕ) (history : List Entry)
        → IsLegalHistory (opening_table options sessions) history
        → All HasContentSize (history_table options sessions history).contents }
{}

/// The rows that are told are those whose current value is present, in byte order of names, each with that value.
pub fn the_rows_told_are_those_present()
    ensures values { (t : Table) (row : List ℕ) → get (present_rows t) row ≡ current_value t row }
    ensures names { (t : Table) → HasRisingNames (present_rows t) }
{}

/// The names of the locks rise in byte order, and so do those of each commit, of each session's working values and locators,
/// and of the working values in its savepoints.
pub fn names_rise()
    ensures locks { (options : Options) (sessions : ℕ) (history : List Entry)
        → IsLegalHistory (opening_table options sessions) history
        → HasRisingNames (history_table options sessions history).locks }
    ensures commits { (options : Options) (sessions : ℕ) (history : List Entry)
        → IsLegalHistory (opening_table options sessions) history
        → All (λ c. HasRisingNames c) (history_table options sessions history).commits }
    ensures working { (options : Options) (sessions s : ℕ) (history : List Entry)
        → IsLegalHistory (opening_table options sessions) history
        → IsTrue (has_session (history_table options sessions history) s)
        → HasRisingNames (session_of (history_table options sessions history) s).working }
    ensures locators { (options : Options) (sessions s : ℕ) (history : List Entry)
        → IsLegalHistory (opening_table options sessions) history
        → IsTrue (has_session (history_table options sessions history) s)
        → HasRisingNames (session_of (history_table options sessions history) s).locators }
    ensures saved { (options : Options) (sessions s : ℕ) (history : List Entry)
        → IsLegalHistory (opening_table options sessions) history
        → IsTrue (has_session (history_table options sessions history) s)
        → All (λ x. HasRisingNames x.working) (session_of (history_table options sessions history) s).savepoints }
{}

/// A session without a transaction works on nothing, its savepoints have no working value, and it has locked no row.
pub fn without_a_transaction_nothing_is_worked_on()
    ensures working { (options : Options) (sessions s : ℕ) (history : List Entry)
        → IsLegalHistory (opening_table options sessions) history
        → IsTrue (has_session (history_table options sessions history) s)
        → (session_of (history_table options sessions history) s).is_open ≡ false
        → (session_of (history_table options sessions history) s).working ≡ [] }
    ensures saved { (options : Options) (sessions s : ℕ) (history : List Entry)
        → IsLegalHistory (opening_table options sessions) history
        → IsTrue (has_session (history_table options sessions history) s)
        → (session_of (history_table options sessions history) s).is_open ≡ false
        → All (λ x. x.working ≡ []) (session_of (history_table options sessions history) s).savepoints }
    ensures locks { (options : Options) (sessions s : ℕ) (history : List Entry)
        → IsLegalHistory (opening_table options sessions) history
        → IsTrue (has_session (history_table options sessions history) s)
        → (session_of (history_table options sessions history) s).is_open ≡ false
        → locked_rows (history_table options sessions history).locks s ≡ [] }
{}

/// Each working value of a session, and each of its savepoints', has fewer fresh bytes than make a writing call flush.
pub fn what_is_worked_on_has_few_fresh_bytes()
    ensures working { (options : Options) (sessions s : ℕ) (history : List Entry)
        → 1 ≤ options.gather
        → IsLegalHistory (opening_table options sessions) history
        → HaveFewFresh options.gather (session_of (history_table options sessions history) s).working }
    ensures saved { (options : Options) (sessions s : ℕ) (history : List Entry)
        → 1 ≤ options.gather
        → IsLegalHistory (opening_table options sessions) history
        → All (λ x. HaveFewFresh options.gather x.working) (session_of (history_table options sessions history) s).savepoints }
{}

/// A SetOptions is never due.
pub fn setting_options_is_never_due()
    ensures law { (options : Options) (sessions s : ℕ) (history : List Entry) (at : List ℕ) (share : Bool)
        → 1 ≤ options.gather
        → IsLegalHistory (opening_table options sessions) history
        → is_due (history_table options sessions history) s (call.SetOptions at share) ≡ false }
{}

/// What fits at a floor fits at every higher one.
pub fn what_fits_at_a_floor_fits_at_higher_ones()
    ensures law { (options : Options) (sessions h k : ℕ) (history : List Entry) (of : List Cut)
        → IsLegalHistory (opening_table options sessions) history
        → (history_table options sessions history).floor ≤ h → h ≤ k
        → fits_at (history_table options sessions history) of h ≡ true
        → fits_at (history_table options sessions history) of k ≡ true }
{}
