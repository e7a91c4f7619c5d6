//! What the answers of a Book are.
ghost use Rattle.std.specs.Prelude.{◌≡◌, ℕ, true, false, Some};
ghost use Rattle.sf_types.specs.declared.call.Call.{Call};
ghost use Rattle.sf_types.specs.declared.history.Kind.TheVariants as kind;
ghost use Rattle.sf_types.specs.Orders.Histories.{effect_of, entry_of};
ghost use Rattle.sf_types.specs.Space.Cuts.{cuts};
ghost use Rattle.sf_types.specs.Halves.Own.{is_event, own_due, own_of};
ghost use Rattle.sf_types.specs.Halves.Asks.{after_answer, half_answer, half_of, kept_births, request_of};
ghost use Rattle.sf_types.specs.Halves.Flushes.{half_promise, half_publish, own_flush, refusal_of};
ghost use Rattle.sf_versions.specs.declared.asks.Batch.{Batch};
ghost use Rattle.sf_book.specs.Books.{BookView, IsSound, table_of};
ghost use Rattle.sf_book.specs.Moves.{IsBatch, Stands, own_with_batch, table_with_batch};

/// What the store's half answers, once the session has made a reply of it, is what the run of the history replies there: to an
/// event behind a batch (`event`), to a promise behind one (`promise`), and to a call that is published (`publication`).
pub fn answers_are_the_replies_of_the_history()
    ensures event { (b : BookView) (s : ℕ) (batch : Batch) (c : Call)
        → IsSound b → IsBatch (table_of b) s batch → is_event c ≡ true → own_due b.options.gather (own_with_batch (table_of b) s batch) c ≡ false
        → let t = table_with_batch (table_of b) s batch in let o = own_with_batch (table_of b) s batch in
        (effect_of t (entry_of s kind.Call c)).1 ≡ Some (after_answer o c (half_answer (half_of t) s c (request_of o c) (kept_births o c)).1).1 }
    ensures promise { (b : BookView) (s : ℕ) (batch : Batch) (c : Call)
        → IsSound b → IsBatch (table_of b) s batch → own_due b.options.gather (own_with_batch (table_of b) s batch) c ≡ true
        → let t = table_with_batch (table_of b) s batch in let o = own_with_batch (table_of b) s batch in
        (effect_of t (entry_of s kind.Promise c)).1 ≡ refusal_of (half_promise (half_of t) s c (cuts b.options (own_flush o c))).1 }
    ensures publication { (b : BookView) (s : ℕ) (c : Call) (blocks : ℕ)
        → IsSound b → Stands (table_of b) s c blocks
        → let t = table_of b in let o = own_of t s in
        (effect_of t (entry_of s kind.Call c)).1 ≡ Some (after_answer o c (half_publish (half_of t) s (request_of o c) (cuts b.options (own_flush o c)) (kept_births o c)).1).1 }
{}
