//! What a session hands to the store.
ghost use Rattle.std.specs.Prelude.{◌≡◌, true, map, Some, IfOk};
ghost use Rattle.sf_types.specs.declared.options.Options.{Options};
ghost use Rattle.sf_types.specs.Halves.Own.{is_event};
ghost use Rattle.sf_types.specs.Halves.Asks.{kept_births, request_of};
ghost use Rattle.sf_dedup.specs.Prints.{print_of};
ghost use Rattle.sf_versions.specs.Asks.{IsAsk, HasBirths, IsFlush, request_of_part};
ghost use Rattle.sf_session.specs.declared.need.Need.TheVariants as need;
ghost use Rattle.sf_session.specs.Cores.{Flushes, need_of};
ghost use Rattle.sf_session.specs.Flushing.{AreCutsOf};
ghost use Rattle.sf_session.specs.Inside.Standings.{IsResult};

use crate::session_core::SessionCore;
use sf_dedup::PrintList;
use sf_own_part::{Cuts, OwnPart, Prepared, Written, write_cuts};
use sf_types::{Births, Call, List, Mem, TryCopy};
use sf_versions::{Ask, Batch, Flush, Part};

// What the store needs of an event beside the call, and the births that the session holds after it.
fn event_parts(own: &OwnPart, call: &Call) -> Mem<(Births, Part)>
    requires { is_event call.now ≡ true }
    ensures kept { IfOk result (λ made. made.0 ≡ kept_births own.now.held call.now) }
    ensures part { IfOk result (λ made. request_of_part made.1 ≡ request_of own.now.held call.now) }
{
    let kept = own.kept_births(call)?;
    let part = own.request(call)?;
    Ok((kept, part))
}

// The same of a writing call that isn't refused, by what it writes.
fn write_parts(own: &OwnPart, call: &Call, written: &Written) -> Mem<(Births, Part)>
    requires { IsResult own.now.held call.now written.now }
    ensures kept { IfOk result (λ made. made.0 ≡ kept_births own.now.held call.now) }
    ensures part { IfOk result (λ made. request_of_part made.1 ≡ request_of own.now.held call.now) }
{
    let kept = own.births_beside_write(call, &written.at)?;
    let map = written.map.copy()?;
    Ok((kept, Part::Settle(map)))
}

// The ask of a call.
fn ask_of(call: &Call, kept: Births, part: Part) -> Mem<Ask>
    ensures { IfOk result (λ ask. ask ≡ record { call = call.now; part = part; kept = kept }) }
{
    match call.copy() {
        Ok(call) => Ok(Ask { call, part, kept }),
        Err(error) => {
            drop((kept, part));
            Err(error)
        }
    }
}

impl SessionCore {
    /// The pending calls, and the births that the session holds after them. It costs in proportion to both lists where the births
    /// are kept, which they are while an event or a due call stands.
    pub fn batch(&self) -> Mem<Batch>
        ensures calls { IfOk result (λ batch. batch.calls ≡ self.now.pending) }
        ensures births { IfOk result (HasBirths self.now.own) }
    {
        let mut calls = List::new(self.alloc);
        for call in self.pending.as_slice() {
            calls.push(call.copy()?)?;
        }
        let births = match &self.births {
            Some(births) => births.copy()?,
            None => self.own.births()?,
        };
        Ok(Batch { calls, births })
    }

    /// The ask of the standing call, which is an event and not due.
    pub fn ask(&self) -> Mem<Ask>
        requires { need_of self.now ≡ need.Event }
        ensures call { IfOk result (λ ask. self.now.standing ≡ Some ask.call) }
        ensures ask { IfOk result (IsAsk self.now.own) }
    {
        let Some(standing) = &self.standing else {
            unreachable!();
        };
        let (kept, part) = event_parts(&self.own, &standing.call)?;
        ask_of(&standing.call, kept, part)
    }

    /// The contents that the standing call flushes, which is due, in the order of its cuts, and the choices of their values. It
    /// costs in proportion to the fresh bytes that are flushed, and to their pieces.
    pub fn cuts(&self) -> Mem<Cuts>
        requires { Flushes self.now }
        ensures { IfOk result (λ of. AreCutsOf self.now of) }
    {
        let Some(standing) = &self.standing else {
            unreachable!();
        };
        match &standing.prepared {
            Prepared::Written(written) => write_cuts(self.alloc, written),
            _ => self.own.commit_cuts(),
        }
    }

    // The ask of the standing call, which is due.
    fn due_ask(&self) -> Mem<Ask>
        requires { Flushes self.now }
        ensures call { IfOk result (λ ask. self.now.standing ≡ Some ask.call) }
        ensures ask { IfOk result (IsAsk self.now.own) }
    {
        let Some(standing) = &self.standing else {
            unreachable!();
        };
        let (kept, part) = match &standing.prepared {
            Prepared::Written(written) => write_parts(&self.own, &standing.call, written)?,
            _ => event_parts(&self.own, &standing.call)?,
        };
        ask_of(&standing.call, kept, part)
    }

    /// The flush of the standing call, which is due, by its cuts and their prints.
    pub fn flush(&self, cuts: Cuts, prints: PrintList) -> Mem<Flush>
        requires due { Flushes self.now }
        requires cuts { AreCutsOf self.now cuts }
        requires prints { prints ≡ map print_of cuts.contents }
        ensures call { IfOk result (λ flush. self.now.standing ≡ Some flush.ask.call) }
        ensures flush { IfOk result (λ flush. (options : Options) → IsFlush options self.now.own flush) }
        ensures prints { IfOk result (λ flush. flush.prints ≡ map print_of flush.contents) }
    {
        let Cuts { contents, choices } = cuts;
        Ok(Flush {
            contents,
            prints,
            choices,
            ask: self.due_ask()?,
        })
    }
}
