//! Events that flush nothing.
ghost use Rattle.std.specs.Prelude.{◌≡◌, [], ◌∷◌, ◌++◌, true, false, IfOk, OnOk, OnErr};
ghost use Rattle.sf_types.specs.declared.history.Kind.TheVariants as kind;
ghost use Rattle.sf_types.specs.Orders.Histories.{call_entries, entry_of};
ghost use Rattle.sf_types.specs.Halves.Own.{own_due, is_event};
ghost use Rattle.sf_types.specs.Halves.Asks.{half_answer, half_of, kept_births, request_of};
ghost use Rattle.sf_versions.specs.Asks.{IsAnswer, IsAsk};
ghost use Rattle.sf_book.specs.Books.{table_of};
ghost use Rattle.sf_book.specs.Moves.{IsBatch, IsMoved, own_with_batch, table_with_batch};

use crate::book::Book;
use crate::entries::{make_room, push_calls, push_entry};
use sf_types::{Call, Kind, Mem, TryCopy};
use sf_versions::{Answer, Ask, Batch};

impl Book {
    /// Puts a session's local calls since its last turn into the history. After want of memory nothing has changed.
    pub fn note_with(&mut self, session: u16, batch: Batch) -> Mem<()>
        requires batch { IsBatch (table_of self.old) session batch }
        ensures moved { OnOk result (IsMoved self.old self.new (call_entries session batch.calls) []) }
        ensures err { OnErr result (self.new ≡ self.old) }
    {
        let Batch { calls, births } = batch;
        make_room(&mut self.history, calls.len() as u64, self.sessions)?;
        self.half.note(session, births)?;
        push_calls(&mut self.history, session, calls);
        let _next = self.half.next_birth();
        Ok(())
    }

    // The answer to an event, of which the history gets another copy of the call.
    fn answer_to(&mut self, session: u16, batch: Batch, ask: Ask, call: Call) -> Mem<Answer>
        requires batch { IsBatch (table_of self.old) session batch }
        requires event { is_event ask.call ≡ true }
        requires undue { own_due self.old.options.gather (own_with_batch (table_of self.old) session batch) ask.call ≡ false }
        requires ask { IsAsk (own_with_batch (table_of self.old) session batch) ask }
        requires call { call ≡ ask.call }
        ensures moved { OnOk result (IsMoved self.old self.new (call_entries session batch.calls ++ entry_of session kind.Call ask.call ∷ []) []) }
        ensures answer { IfOk result (λ answer. IsAnswer answer (half_answer (half_of (table_with_batch (table_of self.old) session batch)) session ask.call
            (request_of (own_with_batch (table_of self.old) session batch) ask.call) (kept_births (own_with_batch (table_of self.old) session batch) ask.call)).1) }
        ensures err { OnErr result (self.new ≡ self.old) }
    {
        let Batch { calls, births } = batch;
        if let Err(error) = make_room(&mut self.history, calls.len() as u64, self.sessions) {
            drop(ask);
            drop(call);
            return Err(error);
        }
        match self.half.answer(session, births, ask) {
            Ok(answer) => {
                push_calls(&mut self.history, session, calls);
                push_entry(&mut self.history, session, Kind::Call, call);
                let _next = self.half.next_birth();
                Ok(answer)
            }
            Err(error) => {
                drop(call);
                Err(error)
            }
        }
    }

    /// The answer to a call of a session that flushes nothing, behind its local calls since its last turn. The local calls and
    /// the call go into the history. After want of memory nothing has changed.
    pub fn answer_with(&mut self, session: u16, batch: Batch, ask: Ask) -> Mem<Answer>
        requires batch { IsBatch (table_of self.old) session batch }
        requires event { is_event ask.call ≡ true }
        requires undue { own_due self.old.options.gather (own_with_batch (table_of self.old) session batch) ask.call ≡ false }
        requires ask { IsAsk (own_with_batch (table_of self.old) session batch) ask }
        ensures moved { OnOk result (IsMoved self.old self.new (call_entries session batch.calls ++ entry_of session kind.Call ask.call ∷ []) []) }
        ensures answer { IfOk result (λ answer. IsAnswer answer (half_answer (half_of (table_with_batch (table_of self.old) session batch)) session ask.call
            (request_of (own_with_batch (table_of self.old) session batch) ask.call) (kept_births (own_with_batch (table_of self.old) session batch) ask.call)).1) }
        ensures err { OnErr result (self.new ≡ self.old) }
    {
        match ask.call.copy() {
            Ok(call) => self.answer_to(session, batch, ask, call),
            Err(error) => {
                drop(batch);
                drop(ask);
                Err(error)
            }
        }
    }
}
