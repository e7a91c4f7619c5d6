//! Local calls by a session's own part.
ghost use Rattle.std.specs.Prelude.{◌≡◌, ◌≤◌, false, None, IsSome, IfOk, OnOk, OnErr};
ghost use Rattle.sf_types.specs.Calls.WritingCalls.{written_name};
ghost use Rattle.sf_types.specs.Halves.Own.{is_event, own_call, own_step};
ghost use Rattle.sf_own_part.specs.Ends.{IsPreparedWrite};
ghost use Rattle.sf_own_part.specs.Readiness.{IsReady};

use crate::answers::{Prepared, number_reply};
use crate::own_part::OwnPart;
use sf_types::{Call, Mem, Reply};

impl OwnPart {
    /// A call that is no event and writes nothing.
    pub fn local_call(&mut self, call: &Call) -> Mem<Reply>
        requires ready { IsReady self.old }
        requires event { is_event call.now ≡ false }
        requires writes { written_name call.now ≡ None }
        ensures own { OnOk result (self.new.held ≡ own_step self.old.held call.now) }
        ensures reply { IfOk result (λ reply. reply ≡ (own_call self.old.held call.now).1) }
        ensures err { OnErr result (self.new ≡ self.old) }
    {
        match call {
            Call::Assign { to, from } => self.assign(to, from),
            Call::Free { at } => Ok(self.free(at)),
            Call::Length { at } => Ok(self.length(at)),
            Call::Read { at, amount, offset } => self.read(at, *amount, *offset),
            Call::Instr {
                at,
                pattern,
                offset,
            } => self.instr(at, pattern, *offset),
            Call::Compare {
                left,
                right,
                amount,
                left_offset,
                right_offset,
            } => Ok(self.compare(left, right, *amount, *left_offset, *right_offset)),
            Call::Savepoint { name } => self.set_savepoint(name),
            _ => Ok(Reply::Done),
        }
    }

    /// A writing call that flushes nothing, by what was prepared for its end. It takes no memory.
    pub fn local_write(&mut self, call: &Call, prepared: Prepared) -> Reply
        requires room { 1 ≤ self.old.spare }
        requires writes { IsSome (written_name call.now) }
        requires prepared { IsPreparedWrite self.old.held call.now (written_name call.now) prepared }
        ensures own { self.new.held ≡ own_step self.old.held call.now }
        ensures reply { result ≡ (own_call self.old.held call.now).1 }
    {
        match prepared {
            Prepared::Refused(fault) => Reply::Refused(fault),
            Prepared::Written(written) => {
                let number = written.number;
                self.write(written);
                number_reply(number)
            }
            other => {
                drop(other);
                Reply::Done
            }
        }
    }
}
