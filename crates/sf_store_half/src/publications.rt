//! Publications of calls to which blocks were promised.
ghost use Rattle.std.specs.Prelude.{◌≡◌, ◌≤◌, ◌<◌, ◌^◌, ◌-◌, None, Ok, length, map, slice_get, slice_set, sum_by, unwrap_or, All, IfOk, OnOk, OnErr};
ghost use Rattle.sf_types.specs.Space.BlockRuns.{blocks_in};
ghost use Rattle.sf_types.specs.declared.limits.TheConstants.{CONTENT_BYTES};
ghost use Rattle.sf_types.specs.Space.Cuts.{contents_of_value, settle, settle_value};
ghost use Rattle.sf_types.specs.Halves.Asks.{Half, new_kept};
ghost use Rattle.sf_types.specs.Halves.Asks as rule;
ghost use Rattle.sf_types.specs.Halves.Flushes.{half_publish};
ghost use Rattle.sf_versions.specs.Asks.{IsAnswer, request_of_part};
ghost use Rattle.sf_store_half.specs.Fields.{Keeps, session_field};
ghost use Rattle.sf_store_half.specs.HalfMoves.{AreEnough, ArePlaceable, BringsStocked, HasCutsOfRequest, HasField, HasPrints, IsRepacked, blocks_left_over, cuts_in, new_places};
ghost use Rattle.sf_store_half.specs.Inside.Answered.{IsPublished};
ghost use Rattle.sf_store_half.specs.Inside.Fields.{promised_blocks};
ghost use Rattle.sf_store_half.specs.Inside.Plans.{IsPlan, planned_all, planned_births, planned_by, unplanned};
ghost use Rattle.sf_store_half.specs.Inside.Publications.{IsPublication};
ghost use Rattle.sf_store_half.specs.Inside.Settled.{contents_of_rows};

use crate::commits::{make_commit, make_commit_room, plan_commit};
use crate::placing::{end_hold, place_all, publish_births};
use crate::plans::{Plan, plan_cuts, rest_of};
use crate::printed_cuts::{PrintedCut, printed_cuts};
use crate::row_answers::with_births;
use crate::session_fields::{Promised, SessionField, set_field, take_promise};
use crate::settled_changes::settle_changes;
use crate::store_half::{Published, StoreHalf};
use sf_chunk_map::Map;
use sf_stock::Stock;
use sf_types::{Births, Mem, OutOfMemory, Runs, TryCopy};
use sf_versions::{Answer, Ask, ChangeList, Flush, Part};
use std::alloc::Global;

// Ends the promise of a session, which is one of these, and takes its blocks off those that are promised.
fn end_promise(fields: &mut Vec<SessionField>, promised: &mut u64, session: u16)
    requires low { 1 ≤ session }
    requires high { session ≤ length fields.old.items }
    requires count { promised.old ≡ sum_by promised_blocks fields.old.items }
    ensures fields { fields.new.items ≡ slice_set fields.old.items (session - 1) (record (unwrap_or (slice_get fields.old.items (session - 1)) (session_field new_kept)) { promise = None }) }
    ensures count { promised.new ≡ sum_by promised_blocks fields.new.items }
    ensures fewer { promised.new ≤ promised.old }
{
    if let Some(ended) = take_promise(fields, session) {
        let Promised { call, blocks } = ended;
        drop(call);
        *promised -= blocks;
    }
}

// A plan of the cuts of a value in these blocks, and the value that is settled by it, in place.
fn plan_value(
    alloc: Global,
    stock: &Stock,
    cuts: Vec<PrintedCut>,
    runs: &Runs,
    value: Map,
) -> Mem<(Plan, Map)>
    requires sizes { All (λ cut. (1 ≤ length cut.bytes) × (length cut.bytes ≤ CONTENT_BYTES)) cuts.items }
    requires bytes { map (λ cut. cut.bytes) cuts.items ≡ contents_of_value value }
    requires below { All (λ block. block < 2 ^ 32) (blocks_in runs.now.held) }
    requires few { length (blocks_in runs.now.held) < 2 ^ 64 }
    ensures planned { IfOk result (λ made. planned_by stock.now.held made.0 ≡ planned_all (unplanned stock.now.held (blocks_in runs.now.held)) cuts.items) }
    ensures plan { IfOk result (λ made. IsPlan stock.now.held made.0) }
    ensures settled { IfOk result (λ made. made.1 ≡ settle_value value (planned_births (unplanned stock.now.held (blocks_in runs.now.held)) cuts.items)) }
{
    let (plan, chunks) = plan_cuts(alloc, stock, cuts, runs)?;
    let mut settled = value;
    settled.settle_in(&chunks)?;
    Ok((plan, settled))
}

// A plan of the cuts of changes in these blocks, and the changes that are settled by it, in place.
fn plan_changes(
    alloc: Global,
    stock: &Stock,
    cuts: Vec<PrintedCut>,
    runs: &Runs,
    changes: ChangeList,
) -> Mem<(Plan, ChangeList)>
    requires sizes { All (λ cut. (1 ≤ length cut.bytes) × (length cut.bytes ≤ CONTENT_BYTES)) cuts.items }
    requires bytes { map (λ cut. cut.bytes) cuts.items ≡ contents_of_rows changes }
    requires below { All (λ block. block < 2 ^ 32) (blocks_in runs.now.held) }
    requires few { length (blocks_in runs.now.held) < 2 ^ 64 }
    ensures planned { IfOk result (λ made. planned_by stock.now.held made.0 ≡ planned_all (unplanned stock.now.held (blocks_in runs.now.held)) cuts.items) }
    ensures plan { IfOk result (λ made. IsPlan stock.now.held made.0) }
    ensures settled { IfOk result (λ made. made.1 ≡ settle changes (planned_births (unplanned stock.now.held (blocks_in runs.now.held)) cuts.items)) }
{
    let (plan, chunks) = plan_cuts(alloc, stock, cuts, runs)?;
    let settled = settle_changes(alloc, changes, &chunks)?;
    Ok((plan, settled))
}

impl StoreHalf {
    /// Publishes a call to which blocks were promised: its new contents take these blocks in the order of the cuts. After want of
    /// memory nothing has changed.
    pub fn publish(&mut self, session: u16, runs: Runs, flush: Flush) -> Mem<Published>
        requires session { HasField self.old session }
        requires births { BringsStocked self.old flush.ask }
        requires prints { HasPrints flush }
        requires cuts { HasCutsOfRequest self.old.options flush }
        requires placeable { ArePlaceable self.old (blocks_in runs.held) }
        requires enough { AreEnough self.old (cuts_in self.old.options flush) (length (blocks_in runs.held)) }
        ensures kept { OnOk result ((h : Half) → Keeps self.old h
            → Keeps self.new (half_publish h session (request_of_part flush.ask.part) (cuts_in self.old.options flush) flush.ask.kept).0) }
        ensures answer { IfOk result (λ published. (h : Half) → Keeps self.old h
            → IsAnswer published.answer (half_publish h session (request_of_part flush.ask.part) (cuts_in self.old.options flush) flush.ask.kept).1) }
        ensures repacked { OnOk result ((h : Half) → Keeps self.old h
            → IsRepacked self.old.stock self.new.stock (new_places h (half_publish h session (request_of_part flush.ask.part) (cuts_in self.old.options flush) flush.ask.kept).0 (blocks_in runs.held))) }
        ensures unused { IfOk result (λ published. (h : Half) → Keeps self.old h
            → blocks_in published.unused.held ≡ blocks_left_over h (half_publish h session (request_of_part flush.ask.part) (cuts_in self.old.options flush) flush.ask.kept).0 (blocks_in runs.held)) }
        ensures err { OnErr result (self.new ≡ self.old) }
    {
        self.publish_flush(session, runs, flush)
    }

    // Publishes a flush, whose parts move on.
    fn publish_flush(&mut self, session: u16, runs: Runs, flush: Flush) -> Mem<Published>
        requires session { HasField self.old session }
        requires births { BringsStocked self.old flush.ask }
        requires prints { HasPrints flush }
        requires cuts { HasCutsOfRequest self.old.options flush }
        requires placeable { ArePlaceable self.old (blocks_in runs.held) }
        requires enough { AreEnough self.old (cuts_in self.old.options flush) (length (blocks_in runs.held)) }
        ensures { IsPublished self.old self.new (λ h. half_publish h session (request_of_part flush.ask.part) (cuts_in self.old.options flush) flush.ask.kept) (blocks_in runs.held) result }
    {
        let alloc = *self.sessions.allocator();
        let Flush {
            contents,
            prints,
            choices,
            ask,
        } = flush;
        let Ask { call, part, kept } = ask;
        drop(call);
        let cuts = printed_cuts(alloc, &self.options, &contents, &prints, &choices)?;
        self.publish_part(session, runs, cuts, part, kept)
    }

    // Publishes what a call flushes, by its part.
    fn publish_part(
        &mut self,
        session: u16,
        runs: Runs,
        cuts: Vec<PrintedCut>,
        part: Part,
        kept: Births,
    ) -> Mem<Published>
        requires { IsPublication self.old session (blocks_in runs.held) cuts.items (request_of_part part) kept }
        ensures { IsPublished self.old self.new (λ h. half_publish h session (request_of_part part) cuts.items kept) (blocks_in runs.held) result }
    {
        match part {
            Part::Settle(value) => self.publish_value(session, &runs, cuts, value, &kept),
            Part::Commit(changes) => self.publish_commit(session, &runs, cuts, changes, kept),
            _ => Ok(self.publish_nothing(runs)),
        }
    }

    // Publishes a call that flushes nothing: all blocks are left.
    fn publish_nothing(&mut self, runs: Runs) -> Published
        ensures { IsPublished {E = OutOfMemory} self.old self.new (λ h. (h, rule.Done)) (blocks_in runs.held) (Ok result) }
    {
        let _sound = self.stock.next_birth();
        Published {
            answer: Answer::Done,
            unused: runs,
        }
    }

    // Publishes a writing call with this result.
    fn publish_value(
        &mut self,
        session: u16,
        runs: &Runs,
        cuts: Vec<PrintedCut>,
        value: Map,
        kept: &Births,
    ) -> Mem<Published>
        requires { IsPublication self.old session (blocks_in runs.now.held) cuts.items (rule.Settles value) kept.now }
        ensures { IsPublished self.old self.new (λ h. half_publish h session (rule.Settles value) cuts.items kept.now) (blocks_in runs.now.held) result }
    {
        let alloc = *self.sessions.allocator();
        let _sound = self.stock.next_birth();
        let (plan, map) = plan_value(alloc, &self.stock, cuts, runs, value)?;
        let Plan {
            news,
            items,
            left,
            ..
        } = plan;
        let unused = rest_of(alloc, left)?;
        let twin = map.copy()?;
        let births = with_births(alloc, kept, &map)?;
        let Some(room) = items.checked_add(births.as_slice().len() as u64) else {
            return Err(OutOfMemory);
        };
        self.stock.make_room(room)?;
        end_promise(&mut self.sessions, &mut self.promised, session);
        publish_births(&mut self.stock, session, news, births);
        Ok(Published {
            answer: Answer::Value { map, twin },
            unused,
        })
    }

    // Publishes a commit of these changes.
    fn publish_commit(
        &mut self,
        session: u16,
        runs: &Runs,
        cuts: Vec<PrintedCut>,
        changes: ChangeList,
        kept: Births,
    ) -> Mem<Published>
        requires { IsPublication self.old session (blocks_in runs.now.held) cuts.items (rule.Commits changes) kept }
        ensures { IsPublished self.old self.new (λ h. half_publish h session (rule.Commits changes) cuts.items kept) (blocks_in runs.now.held) result }
    {
        let alloc = *self.sessions.allocator();
        let _sound = self.stock.next_birth();
        let has_ended = self.has_ended(session);
        let (plan, settled) = plan_changes(alloc, &self.stock, cuts, runs, changes)?;
        let (versions, notes) = (&self.versions, &self.notes);
        let commit = plan_commit(alloc, &self.options, versions, notes, self.floor, &settled)?;
        let Plan {
            firsts,
            next: _,
            news,
            items,
            left,
        } = plan;
        drop(firsts);
        let unused = rest_of(alloc, left)?;
        let (versions, notes, stock) = (&mut self.versions, &mut self.notes, &mut self.stock);
        make_commit_room(versions, notes, stock, &settled, &commit, items, &kept)?;
        let (number, floor) = (commit.number, commit.floor);
        place_all(stock, news);
        make_commit(versions, notes, stock, settled, commit, session, kept);
        end_hold(stock, session);
        self.floor = floor;
        end_promise(&mut self.sessions, &mut self.promised, session);
        set_field(&mut self.sessions, session, false, has_ended);
        self.locks.release_all(session);
        Ok(Published {
            answer: Answer::Committed(number),
            unused,
        })
    }
}
