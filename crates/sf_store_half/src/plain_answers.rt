//! Answers to calls for which no row is looked up and nothing is committed.
ghost use Rattle.std.specs.Prelude.{◌≡◌, [], ◌||◌, true, false, flat_map};
ghost use Rattle.sf_types.specs.Halves.Asks.{half_answer, kept_at, opens, with_kept_births, with_kept_births_open, without_row_locks};
ghost use Rattle.sf_types.specs.Halves.Asks as rule;
ghost use Rattle.sf_types.specs.Table.Sessions.{without_locks};
ghost use Rattle.sf_types.specs.Values.Marks.{births_in};
ghost use Rattle.sf_types.specs.Space.Reach.{values_in};
ghost use Rattle.sf_types.specs.declared.call.Call.TheVariants as call;
ghost use Rattle.sf_store_half.specs.HalfMoves.{AreStocked, HasField, field_at};
ghost use Rattle.sf_store_half.specs.Inside.Answered.{IsAnswered, kept_as};

use crate::commits::{make_commit, plan_commit};
use crate::session_fields::set_field;
use crate::store_half::StoreHalf;
use sf_types::{Births, Call, Fault, List, Mem, Name, OutOfMemory};
use sf_versions::{Answer, ChangeList};

// Whether a call that is done opens a transaction where none is open.
fn opens(call: &Call) -> bool
    ensures { result ≡ opens call.now }
{
    matches!(
        call,
        Call::Insert { .. } | Call::Delete { .. } | Call::Lock { .. }
    )
}

impl StoreHalf {
    // A call whose refusal the session knows.
    pub(crate) fn answer_known(&mut self, session: u16, births: Births, fault: Fault) -> Mem<Answer>
        requires session { HasField self.old session }
        requires births { AreStocked self.old births }
        ensures { IsAnswered self.old self.new (λ h. (with_kept_births h session births, rule.Refused fault)) result }
    {
        self.note(session, births)?;
        Ok(Answer::Refused(fault))
    }

    // A writing call, which a publication alone does.
    pub(crate) fn answer_settle(&mut self, session: u16, births: Births) -> Mem<Answer>
        requires session { HasField self.old session }
        requires births { AreStocked self.old births }
        ensures { IsAnswered self.old self.new (λ h. (with_kept_births h session births, rule.Done)) result }
    {
        self.note(session, births)?;
        Ok(Answer::Done)
    }

    // A row call whose row has a working value.
    pub(crate) fn answer_working(&mut self, session: u16, call: &Call, kept: Births) -> Mem<Answer>
        requires session { HasField self.old session }
        requires kept { AreStocked self.old kept }
        ensures { IsAnswered self.old self.new (λ h. (with_kept_births_open h session kept ((kept_at h session).is_open || opens call.now), rule.Done)) result }
    {
        let is_open = self.is_open(session) || opens(call);
        let has_ended = self.has_ended(session);
        self.settle(session, kept, is_open, has_ended)?;
        Ok(Answer::Done)
    }

    // A rollback, which releases the session's locks.
    pub(crate) fn answer_rollback(&mut self, session: u16, kept: Births) -> Mem<Answer>
        requires session { HasField self.old session }
        requires kept { AreStocked self.old kept }
        ensures { IsAnswered self.old self.new (λ h. (record (with_kept_births_open h session kept false) { locks = without_locks h.locks session }, rule.Done)) result }
    {
        let has_ended = self.has_ended(session);
        self.settle(session, kept, false, has_ended)?;
        self.release(session);
        Ok(Answer::Done)
    }

    // The end of a session, which releases its locks.
    pub(crate) fn answer_end(&mut self, session: u16) -> Mem<Answer>
        requires session { HasField self.old session }
        ensures { IsAnswered self.old self.new (λ h. (record (kept_as h session [] false true) { locks = without_locks h.locks session }, rule.Ended)) result }
    {
        let none = Births::new(*self.sessions.allocator());
        self.settle(session, none, false, true)?;
        self.release(session);
        Ok(Answer::Ended)
    }

    // A rollback to a savepoint, which releases the locks of these rows.
    pub(crate) fn answer_unlock(
        &mut self,
        session: u16,
        rows: &List<Name>,
        kept: Births,
    ) -> Mem<Answer>
        requires session { HasField self.old session }
        requires kept { AreStocked self.old kept }
        ensures { IsAnswered self.old self.new (λ h. (record (with_kept_births h session kept) { locks = without_row_locks h.locks session rows.now }, rule.Done)) result }
    {
        self.note(session, kept)?;
        self.release_rows(session, rows);
        Ok(Answer::Done)
    }

    // A commit, which does no more than forget the savepoints where no transaction is open.
    pub(crate) fn answer_commit(
        &mut self,
        session: u16,
        changes: ChangeList,
        kept: Births,
    ) -> Mem<Answer>
        requires session { HasField self.old session }
        requires kept { AreStocked self.old kept }
        requires named { AreStocked self.old (flat_map births_in (values_in changes)) }
        ensures { IsAnswered self.old self.new (λ h. half_answer h session call.Commit (rule.Commits changes) kept) result }
    {
        if self.is_open(session) {
            return self.commit(session, changes, kept);
        }
        let count = self.now();
        self.note(session, kept)?;
        Ok(Answer::Committed(count))
    }

    // A commit of an open transaction. After want of memory nothing has changed.
    fn commit(&mut self, session: u16, changes: ChangeList, kept: Births) -> Mem<Answer>
        requires session { HasField self.old session }
        requires open { (field_at self.old session).is_open ≡ true }
        requires kept { AreStocked self.old kept }
        requires named { AreStocked self.old (flat_map births_in (values_in changes)) }
        ensures { IsAnswered self.old self.new (λ h. half_answer h session call.Commit (rule.Commits changes) kept) result }
    {
        let alloc = *self.sessions.allocator();
        let has_ended = self.has_ended(session);
        let (versions, notes) = (&self.versions, &self.notes);
        let plan = plan_commit(alloc, &self.options, versions, notes, self.floor, &changes)?;
        let Some(births) = plan.births.checked_add(kept.as_slice().len() as u64) else {
            return Err(OutOfMemory);
        };
        self.versions.make_room(changes.len() as u64)?;
        self.notes.make_room(plan.displaced.len() as u64)?;
        self.stock.make_room(births)?;
        let (number, floor) = (plan.number, plan.floor);
        make_commit(
            &mut self.versions,
            &mut self.notes,
            &mut self.stock,
            changes,
            plan,
            session,
            kept,
        );
        self.stock.park_left();
        self.floor = floor;
        set_field(&mut self.sessions, session, false, has_ended);
        self.locks.release_all(session);
        Ok(Answer::Committed(number))
    }
}
