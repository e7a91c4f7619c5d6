//! Turns of sessions.
ghost use Rattle.std.specs.Prelude.{◌≡◌, ◌-◌, ◌≤◌, ◌<◌, ◌^◌, ℕ, map, length, slice_set, None, Some, IfOk, OnOk, OnErr};
ghost use Rattle.std.specs.Option.{IfSome};
ghost use Rattle.sf_types.specs.declared.call.Call.{Call as TableCall};
ghost use Rattle.sf_types.specs.declared.options.Options.{Options};
ghost use Rattle.sf_types.specs.Space.BlockRuns.{blocks_in};
ghost use Rattle.sf_types.specs.Orders.Histories.{call_entries};
ghost use Rattle.sf_types.specs.Play.Blocks.{collected_by};
ghost use Rattle.sf_types.specs.Play.Turns.{with_entries};
ghost use Rattle.sf_session.specs.declared.need.Need.TheVariants as need;
ghost use Rattle.sf_session.specs.Cores.{Flushes, need_of, noted};
ghost use Rattle.sf_plain_store.specs.Stores.{IsAtHomeIn, stage_of, with_stage};
ghost use Rattle.sf_plain_store.specs.Inside.Bodies.{flush_at};
ghost use Rattle.sf_plain_store.specs.Inside.DueCalls.{due_call_of};
ghost use Rattle.sf_plain_store.specs.Inside.Flushes.{IsFlushOf, flush_to_keep};
ghost use Rattle.sf_plain_store.specs.Turns.{HasTaken, IsLeft, IsTurn, KeepsCores, KeepsOthers, NeedsTurn, store_after, store_after_reclaim, turn_reply};

use crate::due_calls::{DueCall, copied_blocks, set_blocks, set_flush, take_flush};
use crate::store::PlainStore;
use sf_dedup::prints_in_turn;
use sf_session::{Need, SessionCore};
use sf_store_half::Published;
use sf_types::{Mem, Reply, Runs};
use sf_versions::{Flush, Verdict};

// The flush of the standing call, which is due.
fn flush_of(core: &SessionCore) -> Mem<Flush>
    requires { Flushes core.now }
    ensures { (options : Options) → IfOk result (IsFlushOf options core.now) }
{
    let cuts = core.cuts()?;
    let prints = prints_in_turn(cuts.contents.allocator(), &cuts.contents)?;
    core.flush(cuts, prints)
}

// The flush that is kept after a verdict: where the blocks were granted.
fn flush_to_keep(verdict: &Verdict, flush: Flush) -> Option<Flush>
    ensures { result ≡ flush_to_keep verdict.now flush }
{
    match verdict {
        Verdict::Granted(_) => Some(flush),
        Verdict::NoSpace { .. } => None,
    }
}

// Takes the flush that was kept for the standing call, or makes it where it is gone.
fn kept_flush(due_calls: &mut Vec<DueCall>, core: &SessionCore) -> Mem<Flush>
    requires low { 1 ≤ core.now.session }
    requires high { core.now.session ≤ length due_calls.old.items }
    requires due { Flushes core.now }
    ensures flush { (options : Options) → IfSome (flush_at due_calls.old.items core.now.session) (IsFlushOf options core.now) → IfOk result (IsFlushOf options core.now) }
    ensures taken { due_calls.new.items ≡ slice_set due_calls.old.items (core.now.session - 1) (record (due_call_of due_calls.old.items core.now.session) { flush = None }) }
{
    match take_flush(due_calls, core.session()) {
        Some(flush) => Ok(flush),
        None => flush_of(core),
    }
}

// The number of blocks of some runs.
fn block_count(runs: &Runs) -> u64
    requires { length (blocks_in runs.now.held) < 2 ^ 64 }
    ensures { result ≡ length (blocks_in runs.now.held) }
{
    let mut count = 0u64;
    for run in runs.as_slice() {
        count += u64::from(run.blocks);
    }
    count
}

impl PlainStore {
    /// Does one step of the store for a session, on which a call stands: the call's end, its promise, or the collection of the promised
    /// blocks. Its pending calls go into the history before. The answer is the reply, where the step ends the call. After want of
    /// memory the core is as before, and the store too but that some parked blocks may be free.
    pub fn turn(&mut self, core: &mut SessionCore) -> Mem<Option<Reply>>
        requires home { IsAtHomeIn self.old core.old }
        requires need { NeedsTurn core.old }
        ensures store { OnOk result ((c : TableCall) → core.old.standing ≡ Some c → self.new ≡ store_after self.old core.old c) }
        ensures reply { IfOk result (λ told. (c : TableCall) → core.old.standing ≡ Some c → told ≡ turn_reply self.old core.old c) }
        ensures core { IfOk result (HasTaken core.old core.new) }
        ensures home { OnOk result (IsAtHomeIn self.new core.new) }
        ensures others { OnOk result (KeepsOthers self.old self.new core.old.session) }
        ensures unchanged { OnErr result (core.new ≡ core.old) }
        ensures err { OnErr result (IsLeft self.old self.new) }
        ensures cores { OnErr result (KeepsCores self.old self.new) }
    {
        match core.next() {
            Need::Event => self.event(core),
            Need::Reserve => self.promise(core),
            Need::Collect(blocks) => self.collect(core, blocks),
            Need::Publish => self.publish(core),
            Need::Idle | Need::Local | Need::Ended => Ok(None),
        }
    }

    // Ends the standing call, which is an event, by the Book's answer to it.
    fn event(&mut self, core: &mut SessionCore) -> Mem<Option<Reply>>
        requires home { IsAtHomeIn self.old core.old }
        requires need { need_of core.old ≡ need.Event }
        ensures done { IfOk result (IsTurn self.old self.new core.old core.new) }
        ensures unchanged { OnErr result (core.new ≡ core.old) }
        ensures err { OnErr result (self.new ≡ self.old) }
    {
        let batch = core.batch()?;
        let ask = core.ask()?;
        let answer = self.book.answer_with(core.session(), batch, ask)?;
        Ok(Some(core.accept(answer)))
    }

    // Asks for the blocks of the standing call, which is due. The answer is the refusal's reply.
    fn promise(&mut self, core: &mut SessionCore) -> Mem<Option<Reply>>
        requires home { IsAtHomeIn self.old core.old }
        requires need { need_of core.old ≡ need.Reserve }
        ensures done { IfOk result (IsTurn self.old self.new core.old core.new) }
        ensures unchanged { OnErr result (core.new ≡ core.old) }
        ensures err { OnErr result (self.new ≡ self.old) }
    {
        let batch = core.batch()?;
        let flush = flush_of(core)?;
        let session = core.session();
        match self.book.reserve_with(session, batch, &flush) {
            Ok(verdict) => {
                let kept = flush_to_keep(&verdict, flush);
                set_flush(&mut self.due_calls, session, kept);
                Ok(core.promised(verdict))
            }
            Err(error) => {
                drop(flush);
                Err(error)
            }
        }
    }

    // Collects the promised blocks. Parked ones become free first where fewer are free.
    fn collect(&mut self, core: &mut SessionCore, blocks: u64) -> Mem<Option<Reply>>
        requires home { IsAtHomeIn self.old core.old }
        requires need { need_of core.old ≡ need.Collect blocks }
        ensures done { IfOk result (IsTurn self.old self.new core.old core.new) }
        ensures unchanged { OnErr result (core.new ≡ core.old) }
        ensures err { OnErr result ((max : ℕ) × (self.new ≡ store_after_reclaim max self.old)) }
    {
        let wanting = blocks.saturating_sub(self.free.free());
        self.reclaim_turn(wanting)?;
        let runs = self.free.grant(blocks)?;
        set_blocks(&mut self.due_calls, core.session(), runs);
        core.collected();
        Ok(None)
    }

    // Publishes the standing call, of this flush, with these blocks, which are those collected, and makes those free that it doesn't
    // need.
    fn publish_in(&mut self, core: &mut SessionCore, runs: Runs, flush: Flush) -> Mem<Option<Reply>>
        requires home { IsAtHomeIn self.old core.old }
        requires need { need_of core.old ≡ need.Publish }
        requires runs { blocks_in runs.held ≡ collected_by self.old.space core.old.session }
        requires flush { IsFlushOf self.old.options core.old flush }
        ensures done { IfOk result (IsTurn self.old self.new core.old core.new) }
        ensures unchanged { OnErr result (core.new ≡ core.old) }
        ensures err { OnErr result (self.new ≡ self.old) }
    {
        let session = core.session();
        if let Err(error) = self.free.make_room(block_count(&runs)) {
            drop((runs, flush));
            return Err(error);
        }
        let Published { answer, unused } = self.book.publish_with(session, runs, flush)?;
        self.free.give_back_within(&unused);
        set_blocks(&mut self.due_calls, session, Runs::new(self.alloc));
        Ok(Some(core.accept(answer)))
    }

    // Publishes the standing call with its collected blocks.
    fn publish(&mut self, core: &mut SessionCore) -> Mem<Option<Reply>>
        requires home { IsAtHomeIn self.old core.old }
        requires need { need_of core.old ≡ need.Publish }
        ensures done { IfOk result (IsTurn self.old self.new core.old core.new) }
        ensures unchanged { OnErr result (core.new ≡ core.old) }
        ensures err { OnErr result (self.new ≡ self.old) }
    {
        let flush = kept_flush(&mut self.due_calls, core)?;
        match copied_blocks(&self.due_calls, core.session()) {
            Ok(runs) => self.publish_in(core, runs, flush),
            Err(error) => {
                drop(flush);
                Err(error)
            }
        }
    }

    /// Puts the pending calls of a session into the history, where no call of it stands. After want of memory nothing has changed.
    pub fn note(&mut self, core: &mut SessionCore) -> Mem<()>
        requires home { IsAtHomeIn self.old core.old }
        requires need { need_of core.old ≡ need.Idle }
        ensures store { OnOk result (self.new ≡ with_stage self.old (with_entries (stage_of self.old) core.old.session (call_entries core.old.session core.old.pending))) }
        ensures core { OnOk result (core.new ≡ noted core.old) }
        ensures home { OnOk result (IsAtHomeIn self.new core.new) }
        ensures others { OnOk result (KeepsOthers self.old self.new core.old.session) }
        ensures unchanged { OnErr result (core.new ≡ core.old) }
        ensures err { OnErr result (self.new ≡ self.old) }
    {
        let batch = core.batch()?;
        self.book.note_with(core.session(), batch)?;
        core.noted();
        Ok(())
    }
}
