//! Calls that copy what they are given.
ghost use Rattle.std.specs.Prelude.{◌≡◌, [], ◌∷◌, ◌++◌, true, false, length, IfOk, OnOk, OnErr};
ghost use Rattle.sf_types.specs.declared.history.Kind.TheVariants as kind;
ghost use Rattle.sf_types.specs.Orders.Histories.{call_entries, entry_of};
ghost use Rattle.sf_types.specs.Play.Blocks.{unused_blocks};
ghost use Rattle.sf_types.specs.Space.BlockRuns.{blocks_in};
ghost use Rattle.sf_types.specs.Space.Cuts.{cuts};
ghost use Rattle.sf_types.specs.Halves.Own.{is_event, own_due, own_of};
ghost use Rattle.sf_types.specs.Halves.Asks.{half_answer, half_of, kept_births, request_of};
ghost use Rattle.sf_types.specs.Halves.Flushes.{half_promise, half_publish, own_flush};
ghost use Rattle.sf_versions.specs.Asks.{IsAnswer, IsAsk, IsFlush, rule_of_verdict};
ghost use Rattle.sf_store_half.specs.HalfMoves.{HasPrints};
ghost use Rattle.sf_book.specs.Books.{table_of};
ghost use Rattle.sf_book.specs.Moves.{AreAway, IsBatch, IsMoved, Stands, own_with_batch, table_with_batch};

use crate::book::Book;
use sf_store_half::Published;
use sf_types::{Mem, Runs, TryCopy};
use sf_versions::{Answer, Ask, Batch, Flush, Verdict};

impl Book {
    /// Does `note_with` with a copy of the batch.
    pub fn note(&mut self, session: u16, batch: &Batch) -> Mem<()>
        requires batch { IsBatch (table_of self.old) session batch.now }
        ensures moved { OnOk result (IsMoved self.old self.new (call_entries session batch.now.calls) []) }
        ensures err { OnErr result (self.new ≡ self.old) }
    {
        self.note_with(session, batch.copy()?)
    }

    /// Does `answer_with` with copies of the batch and the ask.
    pub fn answer(&mut self, session: u16, batch: &Batch, ask: &Ask) -> Mem<Answer>
        requires batch { IsBatch (table_of self.old) session batch.now }
        requires event { is_event ask.now.call ≡ true }
        requires undue { own_due self.old.options.gather (own_with_batch (table_of self.old) session batch.now) ask.now.call ≡ false }
        requires ask { IsAsk (own_with_batch (table_of self.old) session batch.now) ask.now }
        ensures moved { OnOk result (IsMoved self.old self.new (call_entries session batch.now.calls ++ entry_of session kind.Call ask.now.call ∷ []) []) }
        ensures answer { IfOk result (λ answer. IsAnswer answer (half_answer (half_of (table_with_batch (table_of self.old) session batch.now)) session ask.now.call
            (request_of (own_with_batch (table_of self.old) session batch.now) ask.now.call) (kept_births (own_with_batch (table_of self.old) session batch.now) ask.now.call)).1) }
        ensures err { OnErr result (self.new ≡ self.old) }
    {
        self.answer_with(session, batch.copy()?, ask.copy()?)
    }

    /// Does `reserve_with` with a copy of the batch.
    pub fn reserve(&mut self, session: u16, batch: &Batch, flush: &Flush) -> Mem<Verdict>
        requires batch { IsBatch (table_of self.old) session batch.now }
        requires due { own_due self.old.options.gather (own_with_batch (table_of self.old) session batch.now) flush.now.ask.call ≡ true }
        requires flush { IsFlush self.old.options (own_with_batch (table_of self.old) session batch.now) flush.now }
        requires prints { HasPrints flush.now }
        ensures moved { OnOk result (IsMoved self.old self.new (call_entries session batch.now.calls ++ entry_of session kind.Promise flush.now.ask.call ∷ []) []) }
        ensures verdict { IfOk result (λ verdict. rule_of_verdict verdict ≡ (half_promise (half_of (table_with_batch (table_of self.old) session batch.now)) session flush.now.ask.call
            (cuts self.old.options (own_flush (own_with_batch (table_of self.old) session batch.now) flush.now.ask.call))).1) }
        ensures err { OnErr result (self.new ≡ self.old) }
    {
        self.reserve_with(session, batch.copy()?, flush)
    }

    /// Does `publish_with` with copies of the runs and the flush.
    pub fn publish(&mut self, session: u16, runs: &Runs, flush: &Flush) -> Mem<Published>
        requires promise { Stands (table_of self.old) session flush.now.ask.call (length (blocks_in runs.now.held)) }
        requires flush { IsFlush self.old.options (own_of (table_of self.old) session) flush.now }
        requires prints { HasPrints flush.now }
        requires away { AreAway self.old (blocks_in runs.now.held) }
        ensures moved { OnOk result (IsMoved self.old self.new (entry_of session kind.Call flush.now.ask.call ∷ []) (blocks_in runs.now.held)) }
        ensures answer { IfOk result (λ published. IsAnswer published.answer (half_publish (half_of (table_of self.old)) session (request_of (own_of (table_of self.old) session) flush.now.ask.call)
            (cuts self.old.options (own_flush (own_of (table_of self.old) session) flush.now.ask.call)) (kept_births (own_of (table_of self.old) session) flush.now.ask.call)).1) }
        ensures unused { IfOk result (λ published. blocks_in published.unused.held ≡ unused_blocks (table_of self.old) (table_of self.new) (blocks_in runs.now.held)) }
        ensures err { OnErr result (self.new ≡ self.old) }
    {
        self.publish_with(session, runs.copy()?, flush.copy()?)
    }
}
