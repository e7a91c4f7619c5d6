//! Promises of blocks.
ghost use Rattle.std.specs.Prelude.{◌≡◌, [], IfOk, OnOk, OnErr};
ghost use Rattle.sf_types.specs.Halves.Asks.{Half, with_kept_births};
ghost use Rattle.sf_types.specs.Halves.Flushes.{half_promise};
ghost use Rattle.sf_versions.specs.Asks.{rule_of_verdict};
ghost use Rattle.sf_store_half.specs.Fields.{Keeps};
ghost use Rattle.sf_store_half.specs.HalfMoves.{AreStocked, HasCutsOfRequest, HasField, HasPrints, IsRepacked, cuts_in};
ghost use Rattle.sf_store_half.specs.Inside.Promises.{CanCarryOut, half_decided, verdict_of};

use crate::cut_notes::note_cuts;
use crate::decisions::Decision;
use crate::store_half::StoreHalf;
use sf_types::{Births, Call, Mem};
use sf_versions::{Flush, Verdict};

impl StoreHalf {
    // Carries out what was decided on the promise of a session that holds these births. After want of memory nothing has changed.
    fn carry_out(
        &mut self,
        session: u16,
        births: Births,
        call: &Call,
        decision: Decision,
    ) -> Mem<Verdict>
        requires session { HasField self.old session }
        requires births { AreStocked self.old births }
        requires decision { CanCarryOut self.old session births decision }
        ensures kept { OnOk result ((h : Half) → Keeps self.old h → Keeps self.new (half_decided h session births call.now decision)) }
        ensures verdict { IfOk result (λ verdict. rule_of_verdict verdict ≡ verdict_of decision) }
        ensures repacked { OnOk result (IsRepacked self.old.stock self.new.stock []) }
        ensures err { OnErr result (self.new ≡ self.old) }
    {
        match decision {
            Decision::Granted(grant) => {
                let blocks = grant.wanted;
                self.grant(session, births, call, grant)?;
                Ok(Verdict::Granted(blocks))
            }
            Decision::NoSpace { wanted, free } => {
                self.note(session, births)?;
                Ok(Verdict::NoSpace { wanted, free })
            }
        }
    }

    /// The verdict on the promise of a due call, of a session that holds these births before it. A promise is granted at the least
    /// floor at which the call fits: these births and those that are found are held, and the versions that are due at that floor are
    /// given up. A refusal changes the session's births alone. After want of memory nothing has changed.
    /// It takes time in proportion to the cuts and the session's births, once for each floor that is tried, and to the versions
    /// that are due at them.
    pub fn reserve(&mut self, session: u16, births: Births, flush: &Flush) -> Mem<Verdict>
        requires session { HasField self.old session }
        requires births { AreStocked self.old births }
        requires prints { HasPrints flush.now }
        requires cuts { HasCutsOfRequest self.old.options flush.now }
        ensures kept { OnOk result ((h : Half) → Keeps self.old h
            → Keeps self.new (half_promise (with_kept_births h session births) session flush.now.ask.call (cuts_in self.old.options flush.now)).0) }
        ensures verdict { IfOk result (λ verdict. (h : Half) → Keeps self.old h
            → rule_of_verdict verdict ≡ (half_promise (with_kept_births h session births) session flush.now.ask.call (cuts_in self.old.options flush.now)).1) }
        ensures repacked { OnOk result (IsRepacked self.old.stock self.new.stock []) }
        ensures err { OnErr result (self.new ≡ self.old) }
    {
        let _sound = self.stock.next_birth();
        let alloc = *self.sessions.allocator();
        let cuts = note_cuts(alloc, &self.stock, &self.options, flush)?;
        let decision = self.decide(session, &births, cuts.as_slice())?;
        let verdict = self.carry_out(session, births, &flush.ask.call, decision)?;
        Ok(verdict)
    }
}
