//! Publications of calls to which blocks were promised.
ghost use Rattle.std.specs.Prelude.{◌≡◌, [], ◌∷◌, length, IfOk, OnOk, OnErr};
ghost use Rattle.sf_types.specs.declared.call.Call.TheVariants as call;
ghost use Rattle.sf_types.specs.declared.history.Kind.TheVariants as kind;
ghost use Rattle.sf_types.specs.Space.BlockRuns.{blocks_in};
ghost use Rattle.sf_types.specs.Space.Cuts.{cuts};
ghost use Rattle.sf_types.specs.Orders.Histories.{entry_of};
ghost use Rattle.sf_types.specs.Play.Blocks.{unused_blocks};
ghost use Rattle.sf_types.specs.Halves.Own.{own_of};
ghost use Rattle.sf_types.specs.Halves.Asks.{half_of, kept_births, request_of};
ghost use Rattle.sf_types.specs.Halves.Flushes.{half_publish, own_flush};
ghost use Rattle.sf_versions.specs.Asks.{IsAnswer, IsFlush};
ghost use Rattle.sf_store_half.specs.HalfMoves.{HasPrints};
ghost use Rattle.sf_book.specs.Books.{table_of};
ghost use Rattle.sf_book.specs.Moves.{AreAway, IsMoved, Stands};
ghost use Rattle.sf_book.specs.Inside.Bodies.{with_call};

use crate::book::Book;
use crate::entries::{make_room, push_entry};
use sf_store_half::Published;
use sf_types::{Call, Kind, Mem, Runs};
use sf_versions::Flush;
use std::mem;

// Takes the call out of a flush, in which a Commit then stands for it.
fn take_call(flush: &mut Flush) -> Call
    ensures call { result ≡ flush.old.ask.call }
    ensures flush { flush.new ≡ with_call flush.old call.Commit }
{
    mem::replace(&mut flush.ask.call, Call::Commit)
}

impl Book {
    // The answer to a call that is published, by its flush, from which it was taken. It goes into the history.
    fn publish_for(&mut self, session: u16, runs: Runs, flush: Flush, call: Call) -> Mem<Published>
        requires promise { Stands (table_of self.old) session call (length (blocks_in runs.held)) }
        requires flush { IsFlush self.old.options (own_of (table_of self.old) session) (with_call flush call) }
        requires prints { HasPrints flush }
        requires away { AreAway self.old (blocks_in runs.held) }
        ensures moved { OnOk result (IsMoved self.old self.new (entry_of session kind.Call call ∷ []) (blocks_in runs.held)) }
        ensures answer { IfOk result (λ published. IsAnswer published.answer (half_publish (half_of (table_of self.old)) session (request_of (own_of (table_of self.old) session) call)
            (cuts self.old.options (own_flush (own_of (table_of self.old) session) call)) (kept_births (own_of (table_of self.old) session) call)).1) }
        ensures unused { IfOk result (λ published. blocks_in published.unused.held ≡ unused_blocks (table_of self.old) (table_of self.new) (blocks_in runs.held)) }
        ensures err { OnErr result (self.new ≡ self.old) }
    {
        if let Err(error) = make_room(&mut self.history, 0, self.sessions) {
            drop(runs);
            drop(flush);
            drop(call);
            return Err(error);
        }
        match self.half.publish(session, runs, flush) {
            Ok(published) => {
                push_entry(&mut self.history, session, Kind::Call, call);
                let _next = self.half.next_birth();
                Ok(published)
            }
            Err(error) => {
                drop(call);
                Err(error)
            }
        }
    }

    /// The answer to a call for which a promise of its session stands, and which it ends. Its new contents take their blocks from
    /// the front of `runs`, in the order of the cuts; `unused` are the rest of them. The call goes into the history. It is never
    /// refused. After want of memory nothing has changed, and the promise stands.
    pub fn publish_with(&mut self, session: u16, runs: Runs, flush: Flush) -> Mem<Published>
        requires promise { Stands (table_of self.old) session flush.ask.call (length (blocks_in runs.held)) }
        requires flush { IsFlush self.old.options (own_of (table_of self.old) session) flush }
        requires prints { HasPrints flush }
        requires away { AreAway self.old (blocks_in runs.held) }
        ensures moved { OnOk result (IsMoved self.old self.new (entry_of session kind.Call flush.ask.call ∷ []) (blocks_in runs.held)) }
        ensures answer { IfOk result (λ published. IsAnswer published.answer (half_publish (half_of (table_of self.old)) session (request_of (own_of (table_of self.old) session) flush.ask.call)
            (cuts self.old.options (own_flush (own_of (table_of self.old) session) flush.ask.call)) (kept_births (own_of (table_of self.old) session) flush.ask.call)).1) }
        ensures unused { IfOk result (λ published. blocks_in published.unused.held ≡ unused_blocks (table_of self.old) (table_of self.new) (blocks_in runs.held)) }
        ensures err { OnErr result (self.new ≡ self.old) }
    {
        let mut rest = flush;
        let call = take_call(&mut rest);
        self.publish_for(session, runs, rest, call)
    }
}
