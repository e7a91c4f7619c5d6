//! Which calls are due, and what they flush.
ghost use Rattle.std.specs.Prelude.{◌≡◌, [], ◌∷◌, Some, IsTrue, IfOk};
ghost use Rattle.std.specs.List.{list_any};
ghost use Rattle.std.specs.Option.{option_map};
ghost use Rattle.sf_types.specs.Values.Marks.{fresh_count};
ghost use Rattle.sf_types.specs.Table.Sessions.{has_session, session_of};
ghost use Rattle.sf_types.specs.Space.Due.{has_fresh, is_write_due, is_due};

use crate::names::written_name;
use crate::rows::{RowState, Rows};
use crate::table::Table;
use crate::value::Value;
use sf_types::{Call, LocName, Mem};

impl Value {
    /// The number of fresh bytes.
    pub fn fresh_count(&self) -> u64
        ensures { result ≡ fresh_count self.now }
    {
        let mut count = 0;
        for m in &self.bytes {
            if m.is_fresh() {
                count += 1;
            }
        }
        count
    }
}

// Whether what is said of a row is a value with a fresh byte.
fn has_fresh(state: &RowState) -> bool
    ensures { result ≡ has_fresh state.now }
{
    match state.value() {
        Some(value) => value.fresh_count() > 0,
        None => false,
    }
}

// Whether some row has a fresh byte.
fn any_fresh(rows: &Rows) -> bool
    ensures { result ≡ list_any (λ e. has_fresh e.1) rows.now }
{
    for (_, state) in rows.as_map() {
        if has_fresh(state) {
            return true;
        }
    }
    false
}

impl Table {
    // Whether a writing call of a session through a locator is due.
    fn is_write_due(&self, s: u16, at: &LocName, call: &Call) -> Mem<bool>
        requires { IsTrue (has_session self.now s) }
        ensures { IfOk result (λ due. due ≡ is_write_due self.now s (session_of self.now s) at.now call.now) }
    {
        let Some(row) = self.row_of(s, at)? else {
            return Ok(false);
        };
        let part = self.part(s);
        let current = self.current_value(&row);
        if part
            .writing_fault(self.holds(s, &row), current, at, call)?
            .is_some()
        {
            return Ok(false);
        }
        let made = part.result_of(current, at, call)?;
        Ok(u64::from(self.options.gather) <= made.fresh_count())
    }

    /// Whether a call of a session is due.
    pub fn is_due(&self, s: u16, call: &Call) -> Mem<bool>
        requires { IsTrue (has_session self.now s) }
        ensures { IfOk result (λ due. due ≡ is_due self.now s call.now) }
    {
        if let Call::Commit = call {
            return Ok(any_fresh(&self.part(s).working));
        }
        match written_name(call) {
            Some(at) => self.is_write_due(s, at, call),
            None => Ok(false),
        }
    }
}
