//! How a core stays in step with the store's history: at home in the table of the entries, whatever the session and others do.
ghost use Rattle.std.specs.Prelude.{◌≡◌, ◌≢◌, ℕ, List, [], ◌∷◌, ◌++◌, IsTrue, Some, None};
ghost use Rattle.std.specs.List.{AllByRecursion};
ghost use Rattle.sf_types.specs.declared.call.Call.{Call};
ghost use Rattle.sf_types.specs.declared.history.Entry.{Entry};
ghost use Rattle.sf_types.specs.declared.history.Kind.TheVariants as kind;
ghost use Rattle.sf_types.specs.declared.options.Options.{Options};
ghost use Rattle.sf_types.specs.Table.Parts.{Table, opening_table};
ghost use Rattle.sf_types.specs.Table.Sessions.{has_session};
ghost use Rattle.sf_types.specs.Orders.Histories.{IsLegalHistory, history_table, entry_of};
ghost use Rattle.sf_types.specs.Halves.Own.{own_call};
ghost use Rattle.sf_types.specs.Halves.Asks.{after_answer};
ghost use Rattle.sf_types.specs.Halves.Flushes.{Granted, NoSpace, refusal_of};
ghost use Rattle.sf_versions.specs.declared.asks.Answer.{Answer};
ghost use Rattle.sf_versions.specs.Asks.{IsAnswer};
ghost use Rattle.sf_own_part.specs.Ends.{IsKnown, IsRefusing};
ghost use Rattle.sf_session.specs.declared.need.Need.TheVariants as need;
ghost use Rattle.sf_session.specs.Cores.{CoreView, new_core, need_of, started, ended_locally, accepted, promised, not_promised, collected, abandoned, noted};
ghost use Rattle.sf_session.specs.AtHome.{IsAtHome, IsAtHomeAfter, with_pending, reply_after, event_answer, verdict, publication_answer};

/// The core of a session that has done nothing is at home in the opening table.
pub fn a_new_core_is_at_home()
    ensures law { (options : Options) (sessions s : ℕ) → IsTrue (has_session (opening_table options sessions) s) → IsAtHomeAfter options sessions [] (new_core s options.gather) }
{}

/// Entries of other sessions leave a core at home, as it is.
pub fn others_leave_a_core_at_home()
    ensures law { (options : Options) (sessions : ℕ) (history others : List Entry) (core : CoreView)
        → IsAtHomeAfter options sessions history core
        → IsLegalHistory (opening_table options sessions) (history ++ others)
        → AllByRecursion (λ e. core.session ≢ e.token.session) others
        → IsAtHomeAfter options sessions (history ++ others) core }
{}

/// A call that begins to stand leaves a core at home in its table.
pub fn a_started_call_leaves_a_core_at_home()
    ensures law { (t : Table) (core : CoreView) (c : Call) → IsAtHome t core → need_of core ≡ need.Idle → IsAtHome t (started core c) }
{}

/// A local call that ends leaves a core at home, although the store hasn't got it yet. It is legal after the history and the
/// pending calls, and is replied there what the own part tells.
pub fn a_local_call_leaves_a_core_at_home()
    ensures home { (options : Options) (sessions : ℕ) (history : List Entry) (core : CoreView) (c : Call)
        → IsAtHomeAfter options sessions history core → core.standing ≡ Some c → need_of core ≡ need.Local
        → IsAtHomeAfter options sessions history (ended_locally core c) }
    ensures legal { (options : Options) (sessions : ℕ) (history : List Entry) (core : CoreView) (c : Call)
        → IsAtHomeAfter options sessions history core → core.standing ≡ Some c → need_of core ≡ need.Local
        → IsLegalHistory (opening_table options sessions) (with_pending history core ++ entry_of core.session kind.Call c ∷ []) }
    ensures reply { (options : Options) (sessions : ℕ) (history : List Entry) (core : CoreView) (c : Call)
        → IsAtHomeAfter options sessions history core → core.standing ≡ Some c → need_of core ≡ need.Local
        → reply_after options sessions (with_pending history core) (entry_of core.session kind.Call c) ≡ Some (own_call core.own c).1 }
{}

/// After an event the core that accepts the store's answer is at home where the store has the pending calls and the event, and
/// the reply is the one that is due there.
pub fn an_event_leaves_a_core_at_home()
    ensures home { (options : Options) (sessions : ℕ) (history : List Entry) (core : CoreView) (c : Call)
        → IsAtHomeAfter options sessions history core → core.standing ≡ Some c → need_of core ≡ need.Event
        → IsAtHomeAfter options sessions (with_pending history core ++ entry_of core.session kind.Call c ∷ [])
        (accepted core c (event_answer (history_table options sessions (with_pending history core)) core c)) }
    ensures reply { (options : Options) (sessions : ℕ) (history : List Entry) (core : CoreView) (c : Call)
        → IsAtHomeAfter options sessions history core → core.standing ≡ Some c → need_of core ≡ need.Event
        → reply_after options sessions (with_pending history core) (entry_of core.session kind.Call c)
        ≡ Some (after_answer core.own c (event_answer (history_table options sessions (with_pending history core)) core c)).1 }
{}

/// After a granted promise the core is at home where the store has the pending calls and the promise, which ends no call.
pub fn a_granted_promise_leaves_a_core_at_home()
    ensures home { (options : Options) (sessions blocks : ℕ) (history : List Entry) (core : CoreView) (c : Call)
        → IsAtHomeAfter options sessions history core → core.standing ≡ Some c → need_of core ≡ need.Reserve
        → verdict (history_table options sessions (with_pending history core)) core c ≡ Granted blocks
        → IsAtHomeAfter options sessions (with_pending history core ++ entry_of core.session kind.Promise c ∷ []) (promised core blocks) }
    ensures reply { (options : Options) (sessions blocks : ℕ) (history : List Entry) (core : CoreView) (c : Call)
        → IsAtHomeAfter options sessions history core → core.standing ≡ Some c → need_of core ≡ need.Reserve
        → verdict (history_table options sessions (with_pending history core)) core c ≡ Granted blocks
        → reply_after options sessions (with_pending history core) (entry_of core.session kind.Promise c) ≡ None }
{}

/// After a refused promise, which ends its call, the core is at home where the store has the pending calls and the promise.
pub fn a_refused_promise_leaves_a_core_at_home()
    ensures home { (options : Options) (sessions wanted free : ℕ) (history : List Entry) (core : CoreView) (c : Call)
        → IsAtHomeAfter options sessions history core → core.standing ≡ Some c → need_of core ≡ need.Reserve
        → verdict (history_table options sessions (with_pending history core)) core c ≡ NoSpace wanted free
        → IsAtHomeAfter options sessions (with_pending history core ++ entry_of core.session kind.Promise c ∷ []) (not_promised core) }
    ensures reply { (options : Options) (sessions wanted free : ℕ) (history : List Entry) (core : CoreView) (c : Call)
        → IsAtHomeAfter options sessions history core → core.standing ≡ Some c → need_of core ≡ need.Reserve
        → verdict (history_table options sessions (with_pending history core)) core c ≡ NoSpace wanted free
        → reply_after options sessions (with_pending history core) (entry_of core.session kind.Promise c) ≡ refusal_of (NoSpace wanted free) }
{}

/// A collection of the promised blocks leaves a core at home in its table.
pub fn a_collection_leaves_a_core_at_home()
    ensures law { (t : Table) (core : CoreView) (blocks : ℕ) → IsAtHome t core → need_of core ≡ need.Collect blocks → IsAtHome t (collected core blocks) }
{}

/// After a publication the core that accepts the store's answer is at home where the store has the call, and the reply is the
/// one that is due there.
pub fn a_publication_leaves_a_core_at_home()
    ensures home { (options : Options) (sessions : ℕ) (history : List Entry) (core : CoreView) (c : Call)
        → IsAtHomeAfter options sessions history core → core.standing ≡ Some c → need_of core ≡ need.Publish
        → IsAtHomeAfter options sessions (history ++ entry_of core.session kind.Call c ∷ []) (accepted core c (publication_answer (history_table options sessions history) core c)) }
    ensures reply { (options : Options) (sessions : ℕ) (history : List Entry) (core : CoreView) (c : Call)
        → IsAtHomeAfter options sessions history core → core.standing ≡ Some c → need_of core ≡ need.Publish
        → reply_after options sessions history (entry_of core.session kind.Call c) ≡ Some (after_answer core.own c (publication_answer (history_table options sessions history) core c)).1 }
{}

/// A cancelled promise leaves the core at home whose call was dropped.
pub fn a_cancel_leaves_a_core_at_home()
    ensures publishing { (options : Options) (sessions : ℕ) (history : List Entry) (core : CoreView) (c : Call)
        → IsAtHomeAfter options sessions history core → core.standing ≡ Some c → need_of core ≡ need.Publish
        → IsAtHomeAfter options sessions (history ++ entry_of core.session kind.Cancel c ∷ []) (abandoned core) }
    ensures collecting { (options : Options) (sessions blocks : ℕ) (history : List Entry) (core : CoreView) (c : Call)
        → IsAtHomeAfter options sessions history core → core.standing ≡ Some c → need_of core ≡ need.Collect blocks
        → IsAtHomeAfter options sessions (history ++ entry_of core.session kind.Cancel c ∷ []) (abandoned core) }
{}

/// Where the store gets the pending calls of a core on which none stands, the core without them is at home.
pub fn noted_calls_leave_a_core_at_home()
    ensures law { (options : Options) (sessions : ℕ) (history : List Entry) (core : CoreView)
        → IsAtHomeAfter options sessions history core → need_of core ≡ need.Idle
        → IsAtHomeAfter options sessions (with_pending history core) (noted core) }
{}

/// An event of which the session knows the refusal is refused by the store's half, whatever that is.
pub fn a_known_refusal_is_answered()
    ensures law { (t : Table) (core : CoreView) (c : Call) (answer : Answer) → IsKnown core.own c → IsAnswer answer (event_answer t core c) → IsRefusing answer }
{}
