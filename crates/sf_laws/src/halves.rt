//! The store's half of the table and the sessions' own parts.
ghost use Rattle.std.specs.Prelude.{◌≡◌, ℕ, List, IsTrue, true, Some};
ghost use Rattle.sf_types.specs.declared.call.Call.{Call};
ghost use Rattle.sf_types.specs.declared.history.Entry.{Entry};
ghost use Rattle.sf_types.specs.declared.options.Options.{Options};
ghost use Rattle.sf_types.specs.Table.Parts.{Promise, Table, opening_table};
ghost use Rattle.sf_types.specs.Table.Sessions.{has_session, session_of};
ghost use Rattle.sf_types.specs.Calls.Steps.{step};
ghost use Rattle.sf_types.specs.Space.Cuts.{cuts};
ghost use Rattle.sf_types.specs.Space.Due.{is_due, flush_of};
ghost use Rattle.sf_types.specs.Space.Promises.{promise, cancel};
ghost use Rattle.sf_types.specs.Space.Publications.{publish};
ghost use Rattle.sf_types.specs.Space.Reach.{reach, session_births};
ghost use Rattle.sf_types.specs.Space.Use.{free_of};
ghost use Rattle.sf_types.specs.Orders.Histories.{IsLegalHistory, history_table, table_after, replies_from, replies_to, call_entries};
ghost use Rattle.sf_types.specs.Halves.Own.{own_of, own_after, own_replies, own_due, is_event, AreLocal, MayCall};
ghost use Rattle.sf_types.specs.Halves.Asks.{half_of, request_of, kept_births, half_answer, with_kept_births};
ghost use Rattle.sf_types.specs.Halves.Flushes.{Granted, NoSpace, half_reach, half_free, own_flush, half_promise, half_publish, half_cancel};
ghost use Rattle.sf_laws.specs.Halves.{Agrees, Promises, IsGranted, IsRefused};

/// The births in reach and the number of free blocks are told by the store's half.
pub fn reach_and_free_blocks_are_by_the_half()
    ensures reach { (t : Table) → reach t ≡ half_reach (half_of t) }
    ensures free { (t : Table) → free_of t ≡ half_free (half_of t) }
{}

/// After every legal run whether a call is due, and what a due call flushes, is told by the session's own part.
pub fn what_is_flushed_is_told_by_the_own_part()
    ensures due { (options : Options) (sessions s : ℕ) (history : List Entry) (c : Call)
        → IsLegalHistory (opening_table options sessions) history
        → let t = history_table options sessions history in
        is_due t s c ≡ own_due t.options.gather (own_of t s) c }
    ensures flush { (options : Options) (sessions s : ℕ) (history : List Entry) (c : Call)
        → IsLegalHistory (opening_table options sessions) history
        → is_due (history_table options sessions history) s c ≡ true
        → let t = history_table options sessions history in
        flush_of t (session_of t s) c ≡ own_flush (own_of t s) c }
{}

/// After every legal run an event that flushes nothing is what the session asks by its own part, what the store answers by its
/// half, and what the session makes of the answer.
pub fn an_event_is_asked_and_answered()
    ensures law { (options : Options) (sessions s : ℕ) (history : List Entry) (c : Call)
        → IsLegalHistory (opening_table options sessions) history
        → IsTrue (has_session (history_table options sessions history) s)
        → is_event c ≡ true
        → let t = history_table options sessions history in
        Agrees (own_of t s) s c (step t s c) (half_answer (half_of t) s c (request_of (own_of t s) c) (kept_births (own_of t s) c)) }
{}

/// After every legal run the promise of a due call is told by the store's half and what the call flushes by the session's own
/// part, which it leaves. Where the store grants it, the promise stands at the least floor at which the call fits, with the
/// blocks that are wanted there. Where the store refuses it, the call ends with the numbers of the last floor, and nothing is
/// changed.
pub fn a_promise_is_asked_and_answered()
    ensures law { (options : Options) (sessions s : ℕ) (history : List Entry) (c : Call)
        → IsLegalHistory (opening_table options sessions) history
        → IsTrue (has_session (history_table options sessions history) s)
        → is_due (history_table options sessions history) s c ≡ true
        → let t = history_table options sessions history in
        Promises (own_of t s) s (half_promise (half_of t) s c (cuts t.options (own_flush (own_of t s) c))) (promise t s c) }
    ensures granted { (options : Options) (sessions s blocks : ℕ) (history : List Entry) (c : Call)
        → IsLegalHistory (opening_table options sessions) history
        → IsTrue (has_session (history_table options sessions history) s)
        → is_due (history_table options sessions history) s c ≡ true
        → let t = history_table options sessions history in let of = cuts t.options (own_flush (own_of t s) c) in
        (half_promise (half_of t) s c of).1 ≡ Granted blocks → IsGranted t s c of blocks (promise t s c) }
    ensures refused { (options : Options) (sessions s wanted free : ℕ) (history : List Entry) (c : Call)
        → IsLegalHistory (opening_table options sessions) history
        → IsTrue (has_session (history_table options sessions history) s)
        → is_due (history_table options sessions history) s c ≡ true
        → let t = history_table options sessions history in let of = cuts t.options (own_flush (own_of t s) c) in
        (half_promise (half_of t) s c of).1 ≡ NoSpace wanted free → IsRefused t of wanted free (promise t s c) }
{}

/// After every legal run the publication of a promised call is what the session asks by its own part, what the store answers by
/// its half, and what the session makes of the answer.
pub fn a_publication_is_asked_and_answered()
    ensures law { (options : Options) (sessions s : ℕ) (history : List Entry) (q : Promise)
        → IsLegalHistory (opening_table options sessions) history
        → IsTrue (has_session (history_table options sessions history) s)
        → (session_of (history_table options sessions history) s).promise ≡ Some q
        → let t = history_table options sessions history in let o = own_of t s in
        Agrees o s q.call (publish t s q.call) (half_publish (half_of t) s (request_of o q.call) (cuts t.options (own_flush o q.call)) (kept_births o q.call)) }
{}

/// A cancel is told by the store's half, and leaves the session's own part.
pub fn a_cancel_is_by_the_half()
    ensures half { (t : Table) (s : ℕ) → half_of (cancel t s) ≡ half_cancel (half_of t) s }
    ensures own { (t : Table) (s : ℕ) → IsTrue (has_session t s) → own_of (cancel t s) s ≡ own_of t s }
{}

/// After every legal run local calls of a session change the births alone that the store keeps of it. The own part after them
/// and their replies are told by the own part before.
pub fn local_calls_change_kept_births_alone()
    ensures half { (options : Options) (sessions s : ℕ) (history : List Entry) (calls : List Call)
        → IsLegalHistory (opening_table options sessions) history
        → IsTrue (has_session (history_table options sessions history) s)
        → MayCall (session_of (history_table options sessions history) s)
        → let t = history_table options sessions history in
        AreLocal t.options.gather (own_of t s) calls
        → half_of (table_after t (call_entries s calls)) ≡ with_kept_births (half_of t) s (session_births (own_after (own_of t s) calls).part) }
    ensures own { (options : Options) (sessions s : ℕ) (history : List Entry) (calls : List Call)
        → IsLegalHistory (opening_table options sessions) history
        → IsTrue (has_session (history_table options sessions history) s)
        → MayCall (session_of (history_table options sessions history) s)
        → let t = history_table options sessions history in
        AreLocal t.options.gather (own_of t s) calls
        → own_of (table_after t (call_entries s calls)) s ≡ own_after (own_of t s) calls }
    ensures replies { (options : Options) (sessions s : ℕ) (history : List Entry) (calls : List Call)
        → IsLegalHistory (opening_table options sessions) history
        → IsTrue (has_session (history_table options sessions history) s)
        → MayCall (session_of (history_table options sessions history) s)
        → let t = history_table options sessions history in
        AreLocal t.options.gather (own_of t s) calls
        → replies_to s (replies_from t (call_entries s calls)) ≡ own_replies (own_of t s) calls }
{}
