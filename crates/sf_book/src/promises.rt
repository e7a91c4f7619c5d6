//! Promises of blocks, and their ends without a publication.
ghost use Rattle.std.specs.Prelude.{◌≡◌, [], ◌∷◌, ◌++◌, true, IsTrue, IfOk, OnOk, OnErr};
ghost use Rattle.std.specs.Option.{IfSome, IsSome};
ghost use Rattle.sf_types.specs.declared.history.Kind.TheVariants as kind;
ghost use Rattle.sf_types.specs.Table.Sessions.{has_session, session_of};
ghost use Rattle.sf_types.specs.Orders.Histories.{call_entries, entry_of};
ghost use Rattle.sf_types.specs.Space.Cuts.{cuts};
ghost use Rattle.sf_types.specs.Halves.Own.{own_due};
ghost use Rattle.sf_types.specs.Halves.Asks.{half_of};
ghost use Rattle.sf_types.specs.Halves.Flushes.{half_promise, own_flush};
ghost use Rattle.sf_versions.specs.Asks.{IsFlush, rule_of_verdict};
ghost use Rattle.sf_store_half.specs.HalfMoves.{HasPrints};
ghost use Rattle.sf_book.specs.Books.{table_of};
ghost use Rattle.sf_book.specs.Moves.{IsBatch, IsMoved, own_with_batch, table_with_batch};

use crate::book::Book;
use crate::entries::{make_room, push_calls, push_entry};
use sf_types::{Call, Kind, Mem, TryCopy};
use sf_versions::{Batch, Flush, Verdict};

impl Book {
    /// Ends the standing promise of a session, and not its call. The cancel goes into the history. It takes no memory.
    pub fn cancel(&mut self, session: u16)
        requires session { IsTrue (has_session (table_of self.old) session) }
        requires promised { IsSome (session_of (table_of self.old) session).promise }
        ensures { IfSome (session_of (table_of self.old) session).promise (λ promise. IsMoved self.old self.new (entry_of session kind.Cancel promise.call ∷ []) []) }
    {
        let call = self.half.cancel(session);
        push_entry(&mut self.history, session, Kind::Cancel, call);
        let _next = self.half.next_birth();
    }

    // The verdict on a promise, of which the history gets a copy of the call.
    fn reserve_for(&mut self, session: u16, batch: Batch, flush: &Flush, call: Call) -> Mem<Verdict>
        requires batch { IsBatch (table_of self.old) session batch }
        requires due { own_due self.old.options.gather (own_with_batch (table_of self.old) session batch) flush.now.ask.call ≡ true }
        requires flush { IsFlush self.old.options (own_with_batch (table_of self.old) session batch) flush.now }
        requires prints { HasPrints flush.now }
        requires call { call ≡ flush.now.ask.call }
        ensures moved { OnOk result (IsMoved self.old self.new (call_entries session batch.calls ++ entry_of session kind.Promise flush.now.ask.call ∷ []) []) }
        ensures verdict { IfOk result (λ verdict. rule_of_verdict verdict ≡ (half_promise (half_of (table_with_batch (table_of self.old) session batch)) session flush.now.ask.call
            (cuts self.old.options (own_flush (own_with_batch (table_of self.old) session batch) flush.now.ask.call))).1) }
        ensures err { OnErr result (self.new ≡ self.old) }
    {
        let Batch { calls, births } = batch;
        if let Err(error) = make_room(&mut self.history, calls.len() as u64, self.sessions) {
            drop(call);
            return Err(error);
        }
        match self.half.reserve(session, births, flush) {
            Ok(verdict) => {
                push_calls(&mut self.history, session, calls);
                push_entry(&mut self.history, session, Kind::Promise, call);
                let _next = self.half.next_birth();
                Ok(verdict)
            }
            Err(error) => {
                drop(call);
                Err(error)
            }
        }
    }

    /// The verdict on the promise of a due call, behind the session's local calls since its last turn. It is granted at the least
    /// floor at which the call fits. The local calls and the promise go into the history, also where it is refused. After want of
    /// memory nothing has changed.
    pub fn reserve_with(&mut self, session: u16, batch: Batch, flush: &Flush) -> Mem<Verdict>
        requires batch { IsBatch (table_of self.old) session batch }
        requires due { own_due self.old.options.gather (own_with_batch (table_of self.old) session batch) flush.now.ask.call ≡ true }
        requires flush { IsFlush self.old.options (own_with_batch (table_of self.old) session batch) flush.now }
        requires prints { HasPrints flush.now }
        ensures moved { OnOk result (IsMoved self.old self.new (call_entries session batch.calls ++ entry_of session kind.Promise flush.now.ask.call ∷ []) []) }
        ensures verdict { IfOk result (λ verdict. rule_of_verdict verdict ≡ (half_promise (half_of (table_with_batch (table_of self.old) session batch)) session flush.now.ask.call
            (cuts self.old.options (own_flush (own_with_batch (table_of self.old) session batch) flush.now.ask.call))).1) }
        ensures err { OnErr result (self.new ≡ self.old) }
    {
        match flush.ask.call.copy() {
            Ok(call) => self.reserve_for(session, batch, flush, call),
            Err(error) => {
                drop(batch);
                Err(error)
            }
        }
    }
}
