//! The second step of a due call: its publication.
ghost use Rattle.std.specs.Prelude.{◌≡◌, true, unwrap_or, IsTrue, IsSome, IfOk, OnOk};
ghost use Rattle.sf_types.specs.Table.Sessions.{has_session, session_of, with_session};
ghost use Rattle.sf_types.specs.Table.Versions.{current_value, value_or_absent};
ghost use Rattle.sf_types.specs.Inside.NameMaps.{get};
ghost use Rattle.sf_types.specs.Calls.LocatorCalls.{locator_named};
ghost use Rattle.sf_types.specs.Calls.WritingCalls.{old_value, write_reply, after_write};
ghost use Rattle.sf_types.specs.Space.Due.{is_due, written_row};
ghost use Rattle.sf_types.specs.Space.Publications.{with_contents, settled_flush, settled_result, publish_write, publish_commit, publish, without_promise};
ghost use Rattle.sf_plain.specs.Inside.Written.{HasWritten};

use crate::flushes::{flush_cuts, flush_of, result_in, written_row};
use crate::gifts::give_births;
use sf_plain_table::names::written_name;
use sf_plain_table::results::write_reply;
use sf_plain_table::settling::settle;
use sf_plain_table::{Rows, Session, Table, Value, value_in};
use sf_types::{Call, LocName, Mem, Name, Reply, TryCopy};

// Gives the cuts of what a call flushes their births, and answers what it flushes, settled by them.
fn settle_flush(table: &mut Table, s: u16, call: &Call) -> Mem<Rows>
    requires session { IsTrue (has_session table.old s) }
    requires there { HasWritten (session_of table.old s) call.now }
    ensures table { OnOk result (table.new ≡ with_contents table.old s call.now) }
    ensures settled { IfOk result (λ rows. rows ≡ settled_flush table.old s call.now) }
{
    let rows = flush_of(table, s, call)?;
    let of = flush_cuts(table, s, call)?;
    let reached = table.reach()?;
    let births = give_births(table.alloc, &mut table.contents, reached, &of)?;
    settle(table.alloc, &rows, &births)
}

// The part of a session without its promise.
fn without_promise(part: &Session) -> Mem<Session>
    ensures { IfOk result (λ copied. copied ≡ without_promise part.now) }
{
    let mut copied = part.copy()?;
    copied.promise = None;
    Ok(copied)
}

// The value that is said of a row, or another where there is none.
fn value_or(rows: &Rows, row: &Name, other: Value) -> Mem<Value>
    ensures { IfOk result (λ value. value ≡ unwrap_or (value_or_absent (get rows.now row.now)) other) }
{
    match value_in(rows, row) {
        Some(value) => value.copy(),
        None => Ok(other),
    }
}

// Gives the cuts of a writing call's result their births, and answers the result, settled by them.
fn settle_result(table: &mut Table, s: u16, at: &LocName, call: &Call) -> Mem<Value>
    requires session { IsTrue (has_session table.old s) }
    requires there { IsSome (locator_named (session_of table.old s) at.now) }
    requires written { HasWritten (session_of table.old s) call.now }
    ensures table { OnOk result (table.new ≡ with_contents table.old s call.now) }
    ensures value { IfOk result (λ value. value ≡ settled_result table.old s (session_of table.old s) at.now call.now) }
{
    let row = written_row(table.part(s), at)?;
    let made = result_in(table, s, at, call)?;
    let settled = settle_flush(table, s, call)?;
    value_or(&settled, &row, made)
}

// The reply to a writing call of a session.
fn reply_to_write(table: &Table, s: u16, at: &LocName, call: &Call) -> Mem<Reply>
    requires session { IsTrue (has_session table.now s) }
    requires there { IsSome (locator_named (session_of table.now s) at.now) }
    ensures { IfOk result (λ reply. reply ≡ write_reply call.now (old_value (session_of table.now s) (current_value table.now (written_row (session_of table.now s) at.now)) at.now)) }
{
    let part = table.part(s);
    let row = written_row(part, at)?;
    let old = part.old_value(table.current_value(&row), at)?;
    Ok(write_reply(call, &old))
}

// The part of a session without its promise, with a value that was written through a locator.
fn written_part(part: &Session, at: &LocName, value: Value) -> Mem<Session>
    requires { IsSome (locator_named part.now at.now) }
    ensures { IfOk result (λ after. after ≡ after_write (without_promise part.now) at.now value) }
{
    let mut after = without_promise(part)?;
    after.put_written(at, value)?;
    Ok(after)
}

// Writes a value through a locator of a session, whose promise ends.
fn put_result(table: &mut Table, s: u16, at: &LocName, value: Value) -> Mem<()>
    requires session { IsTrue (has_session table.old s) }
    requires there { IsSome (locator_named (session_of table.old s) at.now) }
    ensures { OnOk result (table.new ≡ with_session table.old s (after_write (without_promise (session_of table.old s)) at.now value)) }
{
    let part = written_part(table.part(s), at, value)?;
    table.put_part(s, part);
    Ok(())
}

// A writing call done with its settled result.
fn publish_write(table: &mut Table, s: u16, at: &LocName, call: &Call) -> Mem<Reply>
    requires session { IsTrue (has_session table.old s) }
    requires there { IsSome (locator_named (session_of table.old s) at.now) }
    requires written { HasWritten (session_of table.old s) call.now }
    ensures { IfOk result (λ reply. (table.new, reply) ≡ publish_write table.old s (session_of table.old s) at.now call.now) }
{
    let reply = reply_to_write(table, s, at, call)?;
    let value = settle_result(table, s, at, call)?;
    put_result(table, s, at, value)?;
    Ok(reply)
}

// A Commit that is done with the settled working values.
fn publish_commit(table: &mut Table, s: u16) -> Mem<Reply>
    requires { IsTrue (has_session table.old s) }
    ensures { IfOk result (λ reply. (table.new, reply) ≡ publish_commit table.old s (session_of table.old s)) }
{
    let mut part = without_promise(table.part(s))?;
    part.working = settle_flush(table, s, &Call::Commit)?;
    table.commit(s, part)
}

/// The publication of a due call of a session: its effect and its reply.
#[tactic(auto, using(crate::proofs::WrittenLemmas::due_written))]
pub fn publish(table: &mut Table, s: u16, call: &Call) -> Mem<Reply>
    requires session { IsTrue (has_session table.old s) }
    requires due { is_due table.old s call.now ≡ true }
    ensures { IfOk result (λ reply. (table.new, reply) ≡ publish table.old s call.now) }
{
    if let Call::Commit = call {
        return publish_commit(table, s);
    }
    match written_name(call) {
        Some(at) => publish_write(table, s, at, call),
        None => {
            let part = without_promise(table.part(s))?;
            table.put_part(s, part);
            Ok(Reply::Done)
        }
    }
}
