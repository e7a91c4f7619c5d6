//! What a session makes of the store's answers.
ghost use Rattle.std.specs.Prelude.{◌≡◌, ℕ, ◌⊎◌, Some};
ghost use Rattle.sf_types.specs.declared.call.Call.{Call as TableCall};
ghost use Rattle.sf_types.specs.Halves.Asks.{Answer as RuleAnswer, after_answer};
ghost use Rattle.sf_types.specs.Halves.Flushes.{Granted as IsGranted, refusal_of};
ghost use Rattle.sf_versions.specs.declared.asks.Verdict.TheVariants as told;
ghost use Rattle.sf_versions.specs.Asks.{IsAnswer, rule_of_verdict};
ghost use Rattle.sf_own_part.specs.Ends.{IsKnown, IsRefusing, IsTwin};
ghost use Rattle.sf_session.specs.declared.need.Need.TheVariants as need;
ghost use Rattle.sf_session.specs.Cores.{need_of, accepted, promised, not_promised, Awaits};

use crate::phase::Phase;
use crate::session_core::{SessionCore, Standing};
use sf_types::{Fault, Reply, RoomList};
use sf_versions::{Answer, Verdict};

impl SessionCore {
    /// Ends the standing call by the store's answer to it, which has the pending calls then. It takes no memory. A call of which the
    /// session knows a refusal is refused.
    pub fn accept(&mut self, answer: Answer) -> Reply
        requires need { Awaits self.old }
        requires known { (c : TableCall) → self.old.standing ≡ Some c → need_of self.old ≡ need.Event → IsKnown self.old.own c → IsRefusing answer }
        requires twin { IsTwin answer }
        ensures core { (c : TableCall) (a : RuleAnswer) → self.old.standing ≡ Some c → IsAnswer answer a → self.new ≡ accepted self.old c a }
        ensures reply { (c : TableCall) (a : RuleAnswer) → self.old.standing ≡ Some c → IsAnswer answer a → result ≡ (after_answer self.old.own c a).1 }
    {
        let Some(standing) = self.standing.take() else {
            return Reply::Done;
        };
        let Standing { call, prepared, .. } = standing;
        let reply = self.own.end_call(call, prepared, answer);
        self.births = None;
        self.pending = RoomList::new(self.alloc);
        self.phase = Phase::Unpromised;
        reply
    }

    /// Goes on by the store's verdict on the blocks of the standing call, which has the pending calls then. A refusal ends the call.
    /// None exactly where the blocks are granted. It takes no memory.
    pub fn promised(&mut self, verdict: Verdict) -> Option<Reply>
        requires { need_of self.old ≡ need.Reserve }
        ensures granted { (blocks : ℕ) → verdict ≡ told.Granted blocks → self.new ≡ promised self.old blocks }
        ensures refused { (wanted free : ℕ) → verdict ≡ told.NoSpace wanted free → self.new ≡ not_promised self.old }
        ensures reply { result ≡ refusal_of (rule_of_verdict verdict) }
    {
        self.pending = RoomList::new(self.alloc);
        match verdict {
            Verdict::Granted(blocks) => {
                self.phase = Phase::Promised(blocks);
                None
            }
            Verdict::NoSpace { wanted, free } => {
                self.standing = None;
                self.phase = Phase::Unpromised;
                Some(Reply::Refused(Fault::NoSpace { wanted, free }))
            }
        }
    }
}
