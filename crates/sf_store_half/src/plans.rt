//! What the cuts of a publication become: births that were found, and new contents.
ghost use Rattle.std.specs.Prelude.{◌≡◌, ◌+◌, ◌<◌, ◌≤◌, ◌^◌, [], ◌∷◌, ◌++◌, true, length, map, take, drop, All, IfOk, OnOk, None};
ghost use Rattle.sf_types.specs.declared.limits.TheConstants.{CONTENT_BYTES};
ghost use Rattle.sf_types.specs.Space.BlockRuns.{blocks_in};
ghost use Rattle.sf_types.specs.Space.Contents.{blocks_of};
ghost use Rattle.sf_dedup.specs.Contents.{birth_with, content_at};
ghost use Rattle.sf_stock.specs.Stocks.{shared_birth};
ghost use Rattle.sf_store_half.specs.Inside.CutNotes.{stocked_birth};
ghost use Rattle.sf_store_half.specs.Inside.Plans.{IsPlan, firsts_with, planned_all, planned_birth, planned_births, planned_by, planned_with, shared_entries, stocked_from, unplanned};

use crate::printed_cuts::PrintedCut;
use sf_chunk_map::{Chunk, ChunkList};
use sf_chunk_sizes::blocks;
use sf_dedup::Index;
use sf_free_commit::Committed;
use sf_stock::{NewContent, Stock};
use sf_types::{List, Mem, OutOfMemory, Runs, TryCopy};
use std::alloc::Global;

/// New contents of a publication, before any is placed: an index of those that are shared, the number of the next birth, the
/// items of room that they take, and the blocks that are left.
#[derive(Drop)]
pub struct Plan {
    pub firsts: Index,
    pub next: u128,
    pub news: Vec<NewContent>,
    pub items: u64,
    pub left: Committed,
}

// The first blocks of some, which are taken off.
fn take_blocks(alloc: Global, left: &mut Committed, count: u64) -> Mem<Runs>
    ensures taken { IfOk result (λ runs. blocks_in runs.held ≡ take count (blocks_in left.old.held)) }
    ensures rest { OnOk result (blocks_in left.new.held ≡ drop count (blocks_in left.old.held)) }
{
    let mut runs = Runs::new(alloc);
    runs.make_room(count)?;
    let _taken = left.take_batch(count, &mut runs);
    Ok(runs)
}

/// All runs that are left.
pub fn rest_of(alloc: Global, left: Committed) -> Mem<Runs>
    ensures { IfOk result (λ runs. blocks_in runs.held ≡ blocks_in left.held) }
{
    let mut rest = left;
    let mut runs = Runs::new(alloc);
    runs.make_room(rest.run_count() as u64)?;
    let count = rest.parked();
    let _taken = rest.take_batch(count, &mut runs);
    Ok(runs)
}

// The birth of the shared content of a cut's bytes, among those of a stock and then those of a plan.
fn find_planned(stock: &Stock, plan: &Plan, cut: &PrintedCut) -> Option<u128>
    requires { IsPlan stock.now.held plan.now }
    ensures { result ≡ shared_birth (planned_by stock.now.held plan.now).stocked cut.now.bytes }
{
    match stock.find(&cut.print, &cut.content) {
        Some(birth) => Some(birth),
        None => plan.firsts.find(&cut.print, &cut.content),
    }
}

// Puts the new content of a cut with those of a plan, and answers its birth.
fn add_new(plan: &mut Plan, cut: &PrintedCut, new: NewContent) -> Mem<u128>
    requires apart { cut.now.is_sharing ≡ true → birth_with plan.old.firsts.held cut.now.bytes ≡ None }
    requires unborn { content_at plan.old.firsts.held plan.old.next ≡ None }
    ensures birth { IfOk result (λ birth. birth ≡ plan.old.next) }
    ensures news { OnOk result (plan.new.news.items ≡ plan.old.news.items ++ new ∷ []) }
    ensures next { OnOk result (plan.new.next ≡ plan.old.next + 1) }
    ensures items { OnOk result (plan.new.items ≡ plan.old.items + (1 + length new.runs)) }
    ensures firsts { OnOk result (plan.new.firsts.held ≡ firsts_with plan.old.firsts.held plan.old.next cut.now) }
    ensures left { OnOk result (plan.new.left.held ≡ plan.old.left.held) }
{
    let birth = plan.next;
    let Some(next) = birth.checked_add(1) else {
        return Err(OutOfMemory);
    };
    let Some(items) = plan.items.checked_add(new.item_count()) else {
        return Err(OutOfMemory);
    };
    if cut.is_sharing {
        plan.firsts.add(birth, cut.print, cut.content.copy()?)?;
    }
    plan.news.push(new)?;
    plan.next = next;
    plan.items = items;
    Ok(birth)
}

// A cut that isn't found becomes a new content of a plan.
fn plan_new(alloc: Global, stock: &Stock, plan: &mut Plan, cut: &PrintedCut) -> Mem<u128>
    requires plan { IsPlan stock.now.held plan.old }
    requires size { length cut.now.bytes ≤ CONTENT_BYTES }
    requires apart { stocked_birth (planned_by stock.now.held plan.old).stocked cut.now ≡ None }
    ensures birth { IfOk result (λ birth. birth ≡ planned_birth (planned_by stock.now.held plan.old) cut.now) }
    ensures planned { OnOk result (planned_by stock.now.held plan.new ≡ planned_with (planned_by stock.now.held plan.old) cut.now) }
    ensures plan { OnOk result (IsPlan stock.now.held plan.new) }
{
    let count = blocks(cut.content.len() as u64);
    let runs = take_blocks(alloc, &mut plan.left, count)?;
    let (content, print) = (&cut.content, cut.print);
    let new = NewContent::new(alloc, content, print, cut.is_sharing, runs.as_slice())?;
    let birth = add_new(plan, cut, new)?;
    Ok(birth)
}

// What a cut becomes: the chunk of the birth that was found, or of a new one.
fn plan_cut(alloc: Global, stock: &Stock, plan: &mut Plan, cut: PrintedCut) -> Mem<Chunk>
    requires plan { IsPlan stock.now.held plan.old }
    requires some { 1 ≤ length cut.bytes }
    requires size { length cut.bytes ≤ CONTENT_BYTES }
    ensures chunk { IfOk result (λ chunk. chunk ≡ record { birth = planned_birth (planned_by stock.now.held plan.old) cut; bytes = cut.bytes }) }
    ensures planned { OnOk result (planned_by stock.now.held plan.new ≡ planned_with (planned_by stock.now.held plan.old) cut) }
    ensures plan { OnOk result (IsPlan stock.now.held plan.new) }
{
    let found = if cut.is_sharing {
        find_planned(stock, plan, &cut)
    } else {
        None
    };
    let birth = match found {
        Some(birth) => birth,
        None => plan_new(alloc, stock, plan, &cut)?,
    };
    let PrintedCut { content, print, .. } = cut;
    Ok(Chunk::new(birth, content, print))
}

// A plan without contents, and these blocks.
fn new_plan(alloc: Global, stock: &Stock, runs: &Runs) -> Mem<Plan>
    requires below { All (λ block. block < 2 ^ 32) (blocks_in runs.now.held) }
    requires few { length (blocks_in runs.now.held) < 2 ^ 64 }
    ensures planned { IfOk result (λ plan. planned_by stock.now.held plan ≡ unplanned stock.now.held (blocks_in runs.now.held)) }
    ensures plan { IfOk result (λ plan. IsPlan stock.now.held plan) }
{
    let mut left = Committed::new(alloc);
    left.park(runs)?;
    Ok(Plan {
        firsts: Index::new(alloc)?,
        next: stock.next_birth(),
        news: Vec::new(alloc),
        items: 0,
        left,
    })
}

/// What cuts become, in their order: the new contents in these blocks, and the chunk of each cut.
pub fn plan_cuts(
    alloc: Global,
    stock: &Stock,
    cuts: Vec<PrintedCut>,
    runs: &Runs,
) -> Mem<(Plan, ChunkList)>
    requires sizes { All (λ cut. (1 ≤ length cut.bytes) × (length cut.bytes ≤ CONTENT_BYTES)) cuts.items }
    requires below { All (λ block. block < 2 ^ 32) (blocks_in runs.now.held) }
    requires few { length (blocks_in runs.now.held) < 2 ^ 64 }
    ensures births { IfOk result (λ planned. map (λ chunk. chunk.birth) planned.1 ≡ planned_births (unplanned stock.now.held (blocks_in runs.now.held)) cuts.items) }
    ensures bytes { IfOk result (λ planned. map (λ chunk. chunk.bytes) planned.1 ≡ map (λ cut. cut.bytes) cuts.items) }
    ensures planned { IfOk result (λ planned. planned_by stock.now.held planned.0 ≡ planned_all (unplanned stock.now.held (blocks_in runs.now.held)) cuts.items) }
    ensures plan { IfOk result (λ planned. IsPlan stock.now.held planned.0) }
{
    let mut plan = new_plan(alloc, stock, runs)?;
    let mut chunks = Vec::new(alloc);
    for cut in cuts {
        chunks.push(plan_cut(alloc, stock, &mut plan, cut)?)?;
    }
    Ok((plan, List::from_vec(chunks)))
}
