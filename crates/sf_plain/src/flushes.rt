//! What due calls flush, and how it is cut.
ghost use Rattle.std.specs.Prelude.{◌≡◌, [], ◌∷◌, Some, IsSome, IsTrue, IfOk};
ghost use Rattle.sf_types.specs.Table.Sessions.{has_session, session_of};
ghost use Rattle.sf_types.specs.Space.Due.{written_row, result_in, flush_of};
ghost use Rattle.sf_types.specs.Space.Promises.{flush_cuts};
ghost use Rattle.sf_types.specs.Calls.LocatorCalls.{locator_named};
ghost use Rattle.sf_plain.specs.Inside.Written.{HasWritten};

use sf_plain_table::cuts::{Cut, cuts};
use sf_plain_table::names::written_name;
use sf_plain_table::{RowState, Rows, Session, Table, Value};
use sf_types::{Call, LocName, Mem, Name, NameMap, TryCopy};

/// The row of a locator that is there.
pub fn written_row(part: &Session, at: &LocName) -> Mem<Name>
    requires { IsSome (locator_named part.now at.now) }
    ensures { IfOk result (λ row. row ≡ written_row part.now at.now) }
{
    match part.locator(at) {
        Some(locator) => locator.row.copy(),
        None => unreachable!(),
    }
}

/// The result of a writing call of a session through a locator that is there.
pub fn result_in(table: &Table, s: u16, at: &LocName, call: &Call) -> Mem<Value>
    requires session { IsTrue (has_session table.now s) }
    requires there { IsSome (locator_named (session_of table.now s) at.now) }
    ensures { IfOk result (λ value. value ≡ result_in table.now (session_of table.now s) at.now call.now) }
{
    let part = table.part(s);
    let row = written_row(part, at)?;
    part.result_of(table.current_value(&row), at, call)
}

// The result of a writing call as what is said of its row.
fn written_flush(table: &Table, s: u16, at: &LocName, call: &Call) -> Mem<Rows>
    requires session { IsTrue (has_session table.now s) }
    requires there { IsSome (locator_named (session_of table.now s) at.now) }
    ensures { IfOk result (λ rows. rows ≡ (written_row (session_of table.now s) at.now, Some (result_in table.now (session_of table.now s) at.now call.now)) ∷ []) }
{
    let row = written_row(table.part(s), at)?;
    let value = result_in(table, s, at, call)?;
    let mut rows = NameMap::new(table.alloc);
    rows.insert(row, RowState::new(Some(value)))?;
    Ok(rows)
}

/// What a call of a session flushes: Commit all working values, a writing call its result.
pub fn flush_of(table: &Table, s: u16, call: &Call) -> Mem<Rows>
    requires session { IsTrue (has_session table.now s) }
    requires there { HasWritten (session_of table.now s) call.now }
    ensures { IfOk result (λ rows. rows ≡ flush_of table.now (session_of table.now s) call.now) }
{
    if let Call::Commit = call {
        return table.part(s).working.copy();
    }
    match written_name(call) {
        Some(at) => written_flush(table, s, at, call),
        None => Ok(NameMap::new(table.alloc)),
    }
}

/// The cuts of what a call of a session flushes.
pub fn flush_cuts(table: &Table, s: u16, call: &Call) -> Mem<Vec<Cut>>
    requires session { IsTrue (has_session table.now s) }
    requires there { HasWritten (session_of table.now s) call.now }
    ensures { IfOk result (λ made. made.items ≡ flush_cuts table.now s call.now) }
{
    let rows = flush_of(table, s, call)?;
    cuts(table.alloc, &table.options, &rows)
}
