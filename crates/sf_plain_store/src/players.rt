//! The sessions of a script under play.
ghost use Rattle.std.specs.Prelude.{◌≡◌, ◌≢◌, [], ◌∷◌, ◌++◌, length, Some, IfOk, OnOk};
ghost use Rattle.std.specs.List.{AllByRecursion, cons_option};
ghost use Rattle.sf_types.specs.declared.call.Call.{Call as TableCall};
ghost use Rattle.sf_types.specs.declared.call.Call.TheVariants as calls_of;
ghost use Rattle.sf_types.specs.Halves.Own.{own_call};
ghost use Rattle.sf_laws.specs.Plays.{is_done};
ghost use Rattle.sf_session.specs.declared.need.Need.TheVariants as need;
ghost use Rattle.sf_session.specs.Cores.{need_of, started, ended_locally};
ghost use Rattle.sf_plain_store.specs.Stores.{IsAtHomeIn};
ghost use Rattle.sf_plain_store.specs.Turns.{HasTaken, KeepsOthers, NeedsTurn, store_after, turn_reply};
ghost use Rattle.sf_plain_store.specs.Inside.Players.{HasTurned, IsPlayer, call_at, left_of};

use crate::store::PlainStore;
use sf_session::{Need, SessionCore};
use sf_types::{Call, Mem, ReplyList, TryCopy};

/// A session under play: its core, and the replies to those of its calls that have ended.
#[derive(Drop)]
pub struct Player {
    pub core: SessionCore,
    pub replies: ReplyList,
}

// A copy of the call behind the first `at` ones, or an End where there is none.
fn copy_of_call(calls: &[Call], at: usize) -> Mem<Call>
    ensures { IfOk result (λ call. call ≡ call_at calls.now at) }
{
    match calls.get(at) {
        Some(call) => call.copy(),
        None => Ok(Call::End),
    }
}

impl Player {
    // Begins the session's next call.
    fn begin(&mut self, calls: &[Call]) -> Mem<()>
        requires { need_of self.old.core ≡ need.Idle }
        ensures core { OnOk result (self.new.core ≡ started self.old.core (call_at calls.now (length self.old.replies))) }
        ensures replies { OnOk result (self.new.replies ≡ self.old.replies) }
    {
        let call = copy_of_call(calls, self.replies.len())?;
        self.core.start(call)
    }

    // Ends the standing call, which is local.
    fn end_local(&mut self) -> Mem<()>
        requires { need_of self.old.core ≡ need.Local }
        ensures core { OnOk result ((c : TableCall) → self.old.core.standing ≡ Some c → self.new.core ≡ ended_locally self.old.core c) }
        ensures replies { OnOk result ((c : TableCall) → self.old.core.standing ≡ Some c → self.new.replies ≡ self.old.replies ++ (own_call self.old.core.own c).1 ∷ []) }
    {
        let reply = self.core.local()?;
        self.replies.push(reply)
    }

    // Takes a turn of the store for the standing call, which isn't local.
    fn act(&mut self, store: &mut PlainStore) -> Mem<()>
        requires home { IsAtHomeIn store.old self.old.core }
        requires need { NeedsTurn self.old.core }
        ensures store { OnOk result ((c : TableCall) → self.old.core.standing ≡ Some c → store.new ≡ store_after store.old self.old.core c) }
        ensures core { OnOk result ((c : TableCall) → self.old.core.standing ≡ Some c → HasTaken self.old.core self.new.core (turn_reply store.old self.old.core c)) }
        ensures replies { OnOk result ((c : TableCall) → self.old.core.standing ≡ Some c → self.new.replies ≡ self.old.replies ++ cons_option (turn_reply store.old self.old.core c) []) }
        ensures home { OnOk result (IsAtHomeIn store.new self.new.core) }
        ensures others { OnOk result (KeepsOthers store.old store.new self.old.core.session) }
    {
        let told = store.turn(&mut self.core)?;
        if let Some(reply) = told {
            self.replies.push(reply)?;
        }
        Ok(())
    }

    /// Takes the session's turn, of these calls in its script: it ends the local calls up to the next one that isn't local, and takes
    /// a turn of the store for that one. A turn of an ended session does nothing.
    pub fn turn(&mut self, store: &mut PlainStore, calls: &[Call]) -> Mem<()>
        requires player { IsPlayer store.old self.old.core.session calls.now self.old }
        requires ended { self.old.core.own.part.has_ended ≡ is_done (left_of calls.now self.old) }
        requires no_end { AllByRecursion (λ c. c ≢ calls_of.End) calls.now }
        ensures { OnOk result (HasTurned calls.now store.old store.new self.old self.new) }
    {
        loop {
            match self.core.next() {
                Need::Ended => return Ok(()),
                Need::Idle => self.begin(calls)?,
                Need::Local => self.end_local()?,
                Need::Event | Need::Reserve | Need::Collect(_) | Need::Publish => {
                    return self.act(store);
                }
            }
        }
    }
}
