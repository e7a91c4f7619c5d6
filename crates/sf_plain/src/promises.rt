//! The first step of a due call: its promise, or the refusal for want of space.
ghost use Rattle.std.specs.Prelude.{◌≡◌, ◌+◌, ◌-◌, true, find, length, IsTrue, IfOk, OnOk};
ghost use Rattle.std.specs.List.{range_with_len};
ghost use Rattle.sf_types.specs.Table.Sessions.{has_session};
ghost use Rattle.sf_types.specs.Space.Due.{is_due};
ghost use Rattle.sf_types.specs.Space.Promises.{with_floor, floor_candidates, wanted_blocks_at, fits_at, table_with_promise, no_space_at, last_candidate, promise, cancel};

use crate::flushes::flush_cuts;
use crate::wants::{found_births, wanted_blocks};
use sf_plain_table::cuts::Cut;
use sf_plain_table::{Promise, Table};
use sf_types::{Call, Fault, Mem, Reply, TryCopy};

// A copy of the table with another floor.
fn with_floor(table: &Table, floor: u64) -> Mem<Table>
    ensures { IfOk result (λ copied. copied ≡ with_floor table.now floor) }
{
    let mut copied = table.copy()?;
    copied.floor = floor;
    Ok(copied)
}

// The blocks that some cuts want in a table.
fn wanted_in(table: &Table, of: &[Cut]) -> Mem<u64>
    ensures { IfOk result (λ blocks. blocks ≡ wanted_blocks_at table.now of.now table.now.floor) }
{
    wanted_blocks(&table.contents, &table.reach()?, of)
}

// Whether the blocks that some cuts want at a floor are at most the blocks that are free there.
fn fits_at(table: &Table, of: &[Cut], floor: u64) -> Mem<bool>
    ensures { IfOk result (λ fits. fits ≡ fits_at table.now of.now floor) }
{
    let tried = with_floor(table, floor)?;
    Ok(wanted_in(&tried, of)? <= tried.free_blocks()?)
}

// The least floor from the table's on, up to the number of commits, at which some cuts fit. None where there is none.
fn raised_floor(table: &Table, of: &[Cut]) -> Mem<Option<u64>>
    ensures { IfOk result (λ floor. floor ≡ find (fits_at table.now of.now) (range_with_len table.now.floor (length table.now.commits + 1 - table.now.floor))) }
{
    let end = table.commits.len() as u64 + 1;
    for floor in table.floor..end {
        let fits = fits_at(table, of, floor)?;
        if fits {
            return Ok(Some(floor));
        }
    }
    Ok(None)
}

// The least candidate at which some cuts fit. None where there is none.
fn fitting_floor(table: &Table, of: &[Cut]) -> Mem<Option<u64>>
    ensures { IfOk result (λ floor. floor ≡ find (fits_at table.now of.now) (floor_candidates table.now)) }
{
    if table.options.max {
        return raised_floor(table, of);
    }
    if fits_at(table, of, table.floor)? {
        Ok(Some(table.floor))
    } else {
        Ok(None)
    }
}

// The last floor that a promise may try.
#[tactic(auto, using(crate::proofs::FloorLemmas::last_with_max))]
fn last_candidate(table: &Table) -> u64
    ensures { result ≡ last_candidate table.now }
{
    if table.options.max {
        table.floor.max(table.commit_count())
    } else {
        table.floor
    }
}

// The refusal for want of space at a floor.
fn no_space_at(table: &Table, of: &[Cut], floor: u64) -> Mem<Reply>
    ensures { IfOk result (λ reply. reply ≡ no_space_at table.now of.now floor) }
{
    let tried = with_floor(table, floor)?;
    Ok(Reply::Refused(Fault::NoSpace {
        wanted: wanted_in(&tried, of)?,
        free: tried.free_blocks()?,
    }))
}

// Grants a promise at a floor.
fn grant(table: &mut Table, s: u16, call: &Call, of: &[Cut], floor: u64) -> Mem<()>
    requires { IsTrue (has_session table.old s) }
    ensures { OnOk result (table.new ≡ table_with_promise table.old s call.now of.now floor) }
{
    let mut part = table.part(s).copy()?;
    table.floor = floor;
    let reached = table.reach()?;
    let promise = Promise {
        call: call.copy()?,
        blocks: wanted_blocks(&table.contents, &reached, of)?,
        births: found_births(table.alloc, &table.contents, &reached, of)?,
    };
    part.promise = Some(promise);
    table.put_part(s, part);
    Ok(())
}

/// The promise of a due call of a session. None where it is granted, else the refusal for want of space.
#[tactic(auto, using(crate::proofs::WrittenLemmas::due_written))]
pub fn promise(table: &mut Table, s: u16, call: &Call) -> Mem<Option<Reply>>
    requires session { IsTrue (has_session table.old s) }
    requires due { is_due table.old s call.now ≡ true }
    ensures { IfOk result (λ reply. (table.new, reply) ≡ promise table.old s call.now) }
{
    let of = flush_cuts(table, s, call)?;
    match fitting_floor(table, &of)? {
        Some(floor) => {
            grant(table, s, call, &of, floor)?;
            Ok(None)
        }
        None => {
            let last = last_candidate(table);
            Ok(Some(no_space_at(table, &of, last)?))
        }
    }
}

/// Ends a session's promise without ending its call.
pub fn cancel(table: &mut Table, s: u16) -> Mem<()>
    requires { IsTrue (has_session table.old s) }
    ensures { OnOk result (table.new ≡ cancel table.old s) }
{
    let mut part = table.part(s).copy()?;
    part.promise = None;
    table.put_part(s, part);
    Ok(())
}
