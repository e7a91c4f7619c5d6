//! Calls that flush nothing.
ghost use Rattle.std.specs.Prelude.{◌≡◌, [], IfOk, OnOk, OnErr};
ghost use Rattle.sf_types.specs.Halves.Asks.{Half, half_answer, with_kept_births};
ghost use Rattle.sf_types.specs.Halves.Flushes.{half_cancel};
ghost use Rattle.sf_versions.specs.Asks.{IsAnswer, request_of_part};
ghost use Rattle.std.specs.Option.{IfSome, IsSome};
ghost use Rattle.sf_store_half.specs.Fields.{Keeps};
ghost use Rattle.sf_store_half.specs.HalfMoves.{AreStocked, BringsStocked, HasField, IsRepacked, field_at};

use crate::session_fields::{Promised, take_promise};
use crate::stock_steps::drop_promise;
use crate::store_half::StoreHalf;
use sf_types::{Births, Call, Mem};
use sf_versions::{Answer, Ask, Part};

impl StoreHalf {
    /// The answer to a call that flushes nothing, of a session that holds these births before it. After want of memory nothing
    /// has changed.
    pub fn answer(&mut self, session: u16, births: Births, ask: Ask) -> Mem<Answer>
        requires session { HasField self.old session }
        requires births { AreStocked self.old births }
        requires ask { BringsStocked self.old ask }
        ensures kept { OnOk result ((h : Half) → Keeps self.old h
            → Keeps self.new (half_answer (with_kept_births h session births) session ask.call (request_of_part ask.part) ask.kept).0) }
        ensures answer { IfOk result (λ answer. (h : Half) → Keeps self.old h
            → IsAnswer answer (half_answer (with_kept_births h session births) session ask.call (request_of_part ask.part) ask.kept).1) }
        ensures repacked { OnOk result (IsRepacked self.old.stock self.new.stock []) }
        ensures err { OnErr result (self.new ≡ self.old) }
    {
        let Ask { call, part, kept } = ask;
        match part {
            Part::Known(fault) => self.answer_known(session, births, fault),
            Part::Working => self.answer_working(session, &call, kept),
            Part::Current => self.answer_row(session, births, &call, kept),
            Part::Unlock(rows) => self.answer_unlock(session, &rows, kept),
            Part::Commit(changes) => self.answer_commit(session, changes, kept),
            Part::Rollback => self.answer_rollback(session, kept),
            Part::End => self.answer_end(session),
            Part::Settle(_) => self.answer_settle(session, births),
        }
    }

    /// A session holds these births from now on. After want of memory nothing has changed.
    pub fn note(&mut self, session: u16, births: Births) -> Mem<()>
        requires session { HasField self.old session }
        requires births { AreStocked self.old births }
        ensures kept { OnOk result ((h : Half) → Keeps self.old h → Keeps self.new (with_kept_births h session births)) }
        ensures repacked { OnOk result (IsRepacked self.old.stock self.new.stock []) }
        ensures err { OnErr result (self.new ≡ self.old) }
    {
        let is_open = self.is_open(session);
        let has_ended = self.has_ended(session);
        self.settle(session, births, is_open, has_ended)?;
        Ok(())
    }

    /// Ends the standing promise of a session, and hands out the call for which it stands. It takes no memory.
    pub fn cancel(&mut self, session: u16) -> Call
        requires session { HasField self.old session }
        requires promised { IsSome (field_at self.old session).promise }
        ensures call { IfSome (field_at self.old session).promise (λ promised. result ≡ promised.call) }
        ensures kept { (h : Half) → Keeps self.old h → Keeps self.new (half_cancel h session) }
        ensures repacked { IsRepacked self.old.stock self.new.stock [] }
    {
        let Some(promised) = take_promise(&mut self.sessions, session) else {
            unreachable!();
        };
        drop_promise(&mut self.stock, session);
        let Promised { call, blocks } = promised;
        self.promised -= blocks;
        call
    }
}
