//! What a call's end needs beside the call, and what it makes of a session's own part.
ghost use Rattle.std.specs.Prelude.{◌≡◌, ◌≤◌, false, Some, IfOk};
ghost use Rattle.sf_types.specs.declared.reply.Reply.TheVariants as reply;
ghost use Rattle.sf_types.specs.Table.Sessions.{lacks_room};
ghost use Rattle.sf_types.specs.Calls.RowCalls.{after_delete, after_lock};
ghost use Rattle.sf_types.specs.Calls.WritingCalls.{written_name};
ghost use Rattle.sf_types.specs.Halves.Own.{is_event};
ghost use Rattle.sf_types.specs.Halves.Asks.{Answer as RuleAnswer, working_value, with_locked_row, after_answer, after_done, after_value};
ghost use Rattle.sf_versions.specs.Asks.{IsAnswer};
ghost use Rattle.sf_own_part.specs.OwnWrites.{reply_by_number};
ghost use Rattle.sf_own_part.specs.Ends.{IsNamed, IsNamedWith, IsPrepared, IsPreparedWrite, IsRefusal, IsRefusing, IsTwin, IsKnown};
ghost use Rattle.sf_own_part.specs.Inside.Sources.{after_written};
ghost use Rattle.sf_own_part.specs.Readiness.{IsReady};

use crate::names::written_name;
use crate::own_part::OwnPart;
use crate::writes::Written;
use sf_chunk_map::Map;
use sf_session_values::RestoredRows;
use sf_types::{Call, Fault, LocName, Mem, Name, Reply, TryCopy};
use sf_versions::Answer;

/// What the end of a call needs beside the call, made before it so that the end takes no memory.
#[derive(Drop)]
pub enum Prepared {
    /// Nothing.
    Nothing,
    /// A second name of the row of a row call, and a copy of the row's working value, empty where it has none.
    Row { name: Name, map: Map },
    /// The working values of the savepoint to which a RollbackTo goes back.
    Restored(RestoredRows),
    /// The refusal of a writing call, before that for want of space.
    Refused(Fault),
    /// What a writing call that isn't refused so writes.
    Written(Written),
}

/// The reply to a writing call that is done, by the number that it answers.
pub fn number_reply(number: Option<u64>) -> Reply
    ensures { result ≡ reply_by_number number }
{
    match number {
        Some(number) => Reply::Number(number),
        None => Reply::Done,
    }
}

impl OwnPart {
    // A copy of a row's working value, empty where it has none or is absent.
    fn working_copy(&self, row: &Name) -> Mem<Map>
        ensures { IfOk result (λ map. map ≡ working_value self.now.held row.now) }
    {
        match self.values.working(row) {
            Some(Some(map)) => map.copy(),
            _ => Ok(Map::empty(self.alloc)),
        }
    }

    // What a writing call, or another one that is no event, needs.
    fn prepare_local(&self, call: &Call) -> Mem<Prepared>
        requires { is_event call.now ≡ false }
        ensures { IfOk result (IsPrepared self.now.held call.now) }
    {
        let Some(at) = written_name(call) else {
            return Ok(Prepared::Nothing);
        };
        match self.prepare_write(call, at)? {
            Ok(written) => Ok(Prepared::Written(written)),
            Err(fault) => Ok(Prepared::Refused(fault)),
        }
    }

    /// What the end of a call needs. A writing call's result is made here, once.
    pub fn prepare(&self, call: &Call) -> Mem<Prepared>
        ensures { IfOk result (IsPrepared self.now.held call.now) }
    {
        match call {
            Call::Insert { row } => Ok(Prepared::Row {
                name: row.copy()?,
                map: Map::empty(self.alloc),
            }),
            Call::Delete { row } => Ok(Prepared::Row {
                name: row.copy()?,
                map: Map::empty(self.alloc),
            }),
            Call::Lock { row, .. } => Ok(Prepared::Row {
                name: row.copy()?,
                map: self.working_copy(row)?,
            }),
            Call::Select { row, .. } => Ok(Prepared::Row {
                name: row.copy()?,
                map: self.working_copy(row)?,
            }),
            Call::RollbackTo { name } => Ok(Prepared::Restored(self.restored(name)?)),
            Call::SelectAsOf { .. } => Ok(Prepared::Nothing),
            Call::Commit => Ok(Prepared::Nothing),
            Call::Rollback => Ok(Prepared::Nothing),
            Call::End => Ok(Prepared::Nothing),
            _ => self.prepare_local(call),
        }
    }

    // What the answer that a call is done makes of the own part.
    fn end_done(&mut self, call: Call, prepared: Prepared)
        requires ready { IsReady self.old }
        requires prepared { IsPrepared self.old.held call prepared }
        requires known { IsKnown self.old.held call → ⊥ }
        ensures own { self.new.held ≡ (after_done self.old.held call).0 }
        ensures reply { (after_done self.old.held call).1 ≡ reply.Done }
    {
        match call {
            Call::Insert { row } => {
                if let Prepared::Row { name, .. } = prepared {
                    self.insert(row, name);
                }
            }
            Call::Delete { row } => {
                drop(prepared);
                self.delete(row);
            }
            Call::Lock { to, row } => {
                if let Prepared::Row { map, .. } = prepared {
                    self.lock(to, row, map);
                }
            }
            Call::Select { to, row } => {
                if let Prepared::Row { map, .. } = prepared {
                    self.select(to, row, map);
                }
            }
            Call::RollbackTo { name } => {
                if let Prepared::Restored(rows) = prepared {
                    self.roll_back_to(&name, rows);
                }
            }
            Call::Rollback => {
                drop(prepared);
                self.roll_back();
            }
            other => drop((other, prepared)),
        }
    }

    // What the answer to a writing call that gives its settled result makes of the own part, and the reply.
    fn end_write(&mut self, call: &Call, prepared: Prepared, map: Map) -> Reply
        requires room { 1 ≤ self.old.spare }
        requires prepared { IsPreparedWrite self.old.held call.now (written_name call.now) prepared }
        requires refusal { IsRefusal prepared → ⊥ }
        ensures own { self.new.held ≡ (after_written self.old.held call.now map).0 }
        ensures reply { result ≡ (after_written self.old.held call.now map).1 }
    {
        match prepared {
            Prepared::Written(
                Written {
                    at,
                    row,
                    number,
                    ..
                },
            ) => {
                self.write(Written {
                    at,
                    row,
                    map,
                    number,
                });
                number_reply(number)
            }
            other => {
                drop((other, map));
                Reply::Done
            }
        }
    }

    // What Delete makes of the own part where the row held a value.
    fn end_delete_held(&mut self, row: Name, prepared: Prepared, map: Map)
        requires ready { IsReady self.old }
        requires name { IsNamed row prepared }
        ensures { self.new.held ≡ record { part = after_delete self.old.held.part row; rows = with_locked_row self.old.held.rows row (Some map) } }
    {
        match prepared {
            Prepared::Row { name, map: unused } => {
                drop(unused);
                self.delete_held(row, name, map);
            }
            other => drop((other, row, map)),
        }
    }

    // What Lock makes of the own part where the row held a value.
    fn end_lock_held(&mut self, to: LocName, row: Name, prepared: Prepared, map: Map, twin: Map)
        requires ready { IsReady self.old }
        requires limit { lacks_room self.old.held.part to ≡ false }
        requires name { IsNamedWith row (working_value self.old.held row) prepared }
        requires twin { twin ≡ map }
        ensures { self.new.held ≡ record { part = after_lock self.old.held.part to row map; rows = with_locked_row self.old.held.rows row (Some map) } }
    {
        match prepared {
            Prepared::Row { name, map: unused } => {
                drop(unused);
                self.lock_held(to, row, map, name, twin);
            }
            other => drop((other, to, row, map, twin)),
        }
    }

    // What an answer that gives a value makes of the own part, and the reply.
    fn end_given(&mut self, call: Call, prepared: Prepared, map: Map, twin: Map) -> Reply
        requires ready { IsReady self.old }
        requires prepared { IsPrepared self.old.held call prepared }
        requires known { IsKnown self.old.held call → ⊥ }
        requires refusal { IsRefusal prepared → ⊥ }
        requires twin { twin ≡ map }
        ensures own { self.new.held ≡ (after_value self.old.held call map).0 }
        ensures reply { result ≡ (after_value self.old.held call map).1 }
    {
        match call {
            Call::Delete { row } => {
                drop(twin);
                self.end_delete_held(row, prepared, map);
                Reply::Done
            }
            Call::Lock { to, row } => {
                self.end_lock_held(to, row, prepared, map, twin);
                Reply::Done
            }
            Call::Select { to, row } => {
                drop((prepared, twin));
                self.select(to, row, map);
                Reply::Done
            }
            Call::SelectAsOf { to, row, .. } => {
                drop((prepared, twin));
                self.select_as_of(to, row, map);
                Reply::Done
            }
            Call::Insert { row } => {
                drop((row, prepared, map, twin));
                Reply::Done
            }
            Call::RollbackTo { name } => {
                drop((name, prepared, map, twin));
                Reply::Done
            }
            other => {
                drop(twin);
                let reply = self.end_write(&other, prepared, map);
                drop(other);
                reply
            }
        }
    }

    /// What the store's answer to a call makes of the own part, and the reply. It takes no memory.
    pub fn end_call(&mut self, call: Call, prepared: Prepared, answer: Answer) -> Reply
        requires ready { IsReady self.old }
        requires prepared { IsPrepared self.old.held call prepared }
        requires known { IsKnown self.old.held call → IsRefusing answer }
        requires twin { IsTwin answer }
        requires refusal { IsRefusal prepared → ⊥ }
        ensures own { (a : RuleAnswer) → IsAnswer answer a → self.new.held ≡ (after_answer self.old.held call a).0 }
        ensures reply { (a : RuleAnswer) → IsAnswer answer a → result ≡ (after_answer self.old.held call a).1 }
    {
        match answer {
            Answer::Refused(fault) => {
                drop((call, prepared));
                Reply::Refused(fault)
            }
            Answer::Done => {
                self.end_done(call, prepared);
                Reply::Done
            }
            Answer::Value { map, twin } => self.end_given(call, prepared, map, twin),
            Answer::Committed(number) => {
                drop((call, prepared));
                if self.is_open {
                    self.commit();
                } else {
                    self.erase_savepoints();
                }
                Reply::Committed(number)
            }
            Answer::Ended => {
                drop((call, prepared));
                self.end();
                Reply::Ended
            }
        }
    }
}
