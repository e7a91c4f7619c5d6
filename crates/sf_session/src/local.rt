//! Local calls of a session.
ghost use Rattle.std.specs.Prelude.{◌≡◌, Some, IfOk, OnOk, OnErr, IsSome, IfSome};
ghost use Rattle.sf_types.specs.declared.call.Call.{Call as TableCall};
ghost use Rattle.sf_types.specs.Calls.WritingCalls.{written_name};
ghost use Rattle.sf_types.specs.Halves.Own.{own_call};
ghost use Rattle.sf_session.specs.declared.need.Need.TheVariants as need;
ghost use Rattle.sf_session.specs.Cores.{need_of, ended_locally};

use crate::session_core::{SessionCore, Standing};
use sf_own_part::written_name;
use sf_types::{Mem, Reply};

impl SessionCore {
    // The standing call, which ended locally, is pending.
    fn end_local_write(&mut self) -> Reply
        requires local { need_of self.old ≡ need.Local }
        requires writes { IfSome self.old.standing (λ c. IsSome (written_name c)) }
        ensures core { (c : TableCall) → self.old.standing ≡ Some c → self.new ≡ ended_locally self.old c }
        ensures reply { (c : TableCall) → self.old.standing ≡ Some c → result ≡ (own_call self.old.own c).1 }
    {
        let Some(standing) = self.standing.take() else {
            return Reply::Done;
        };
        let Standing { call, prepared, .. } = standing;
        let reply = self.own.local_write(&call, prepared);
        self.pending.push_within(call);
        self.births = None;
        reply
    }

    /// Ends the standing call, which is local, by the session's own part. A writing call takes no memory. After want of memory the
    /// core is as before, and the call stands.
    pub fn local(&mut self) -> Mem<Reply>
        requires { need_of self.old ≡ need.Local }
        ensures core { OnOk result ((c : TableCall) → self.old.standing ≡ Some c → self.new ≡ ended_locally self.old c) }
        ensures reply { IfOk result (λ reply. (c : TableCall) → self.old.standing ≡ Some c → reply ≡ (own_call self.old.own c).1) }
        ensures err { OnErr result (self.new ≡ self.old) }
    {
        let Some(standing) = &self.standing else {
            return Ok(Reply::Done);
        };
        if written_name(&standing.call).is_some() {
            return Ok(self.end_local_write());
        }
        let reply = self.own.local_call(&standing.call)?;
        self.births = None;
        match self.standing.take() {
            Some(Standing { call, prepared, .. }) => {
                drop(prepared);
                self.pending.push_within(call);
            }
            None => {}
        }
        Ok(reply)
    }
}
