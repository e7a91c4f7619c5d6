//! Answers to row calls whose row the store looks up.
ghost use Rattle.std.specs.Prelude.{◌≡◌, [], true, false, nat_lt, is_some, IfOk, OnOk, OnErr};
ghost use Rattle.std.specs.Option.{option_copied, option_map};
ghost use Rattle.sf_types.specs.declared.call.Call.TheVariants as call;
ghost use Rattle.sf_types.specs.Table.Sessions.{is_busy, with_lock};
ghost use Rattle.sf_types.specs.Halves.Asks.{Half, births_with, half_answer, row_answer, with_kept_births, with_kept_births_open};
ghost use Rattle.sf_types.specs.Halves.Asks as rule;
ghost use Rattle.sf_types.specs.Table.Versions.{last_change, value_or_absent};
ghost use Rattle.sf_stock.specs.Stocks.{is_stocked};
ghost use Rattle.sf_versions.specs.RowChanges.{change_up_to, last_value};
ghost use Rattle.sf_versions.specs.VersionTables.{versions_of};
ghost use Rattle.sf_store_half.specs.Fields.{Keeps};
ghost use Rattle.sf_store_half.specs.HalfMoves.{AreStocked, HasField, IsRepacked};
ghost use Rattle.sf_store_half.specs.Inside.Answered.{IsAnswered, OfValue, answer_given, twice};

use crate::session_fields::set_field;
use crate::stock_steps::keep_births;
use crate::store_half::StoreHalf;
use sf_birth_union::BirthUnion;
use sf_chunk_map::Map;
use sf_types::{Births, Call, Fault, LocName, Mem, Name, TryCopy};
use sf_versions::Answer;
use std::alloc::Global;

// A value twice, where there is one.
fn twice(value: Option<&Map>) -> Mem<Option<(Map, Map)>>
    ensures { IfOk result (λ found. found ≡ twice (option_copied value.entry)) }
{
    match value {
        Some(map) => {
            let first = map.copy()?;
            let twin = map.copy()?;
            Ok(Some((first, twin)))
        }
        None => Ok(None),
    }
}

// Some births with those of a value.
pub fn with_births(alloc: Global, births: &Births, map: &Map) -> Mem<Births>
    ensures { IfOk result (λ all. all ≡ births_with births.now map.now) }
{
    let own = map.births()?;
    let mut union = BirthUnion::new(alloc);
    union.add(births)?;
    union.add(&own)?;
    union.into_births()
}

impl StoreHalf {
    // Whether another session holds a row's lock.
    fn is_busy(&self, session: u16, row: &Name) -> bool
        ensures { result ≡ is_busy self.now.locks session row.now }
    {
        match self.locks.holder(row) {
            Some(holder) => holder != session,
            None => false,
        }
    }

    // Whether a row is present.
    fn is_present(&self, row: &Name) -> bool
        ensures { result ≡ is_some (last_value (versions_of self.now.versions.rows row.now)) }
    {
        self.versions.current(row).is_some()
    }

    // What a row holds, twice, where it is present.
    fn current_twice(&self, row: &Name) -> Mem<Option<(Map, Map)>>
        ensures { IfOk result (λ found. found ≡ twice (last_value (versions_of self.now.versions.rows row.now))) }
    {
        twice(self.versions.current(row))
    }

    // A session takes a row's lock, and holds these births from now on. After want of memory nothing has changed.
    fn lock_row(&mut self, session: u16, row: &Name, births: Births) -> Mem<()>
        requires session { HasField self.old session }
        requires births { AreStocked self.old births }
        requires free { is_busy self.old.locks session row.now ≡ false }
        ensures kept { OnOk result ((h : Half) → Keeps self.old h
            → Keeps self.new (record (with_kept_births_open h session births true) { locks = with_lock h.locks session row.now })) }
        ensures repacked { OnOk result (IsRepacked self.old.stock self.new.stock []) }
        ensures err { OnErr result (self.new ≡ self.old) }
    {
        let name = row.copy()?;
        let has_ended = self.has_ended(session);
        self.stock.make_room(births.as_slice().len() as u64)?;
        self.locks.take(name, session)?;
        set_field(&mut self.sessions, session, true, has_ended);
        keep_births(&mut self.stock, session, births);
        Ok(())
    }

    // A row call whose row the store looks up.
    pub(crate) fn answer_row(
        &mut self,
        session: u16,
        births: Births,
        call: &Call,
        kept: Births,
    ) -> Mem<Answer>
        requires session { HasField self.old session }
        requires births { AreStocked self.old births }
        requires kept { AreStocked self.old kept }
        ensures { IsAnswered self.old self.new (λ h. half_answer (with_kept_births h session births) session call.now rule.Current kept) result }
    {
        match call {
            Call::Insert { row } => self.answer_insert(session, births, row, kept),
            Call::Delete { row } => self.answer_delete(session, births, row, kept),
            Call::Select { row, .. } => self.answer_select(session, births, row, kept),
            Call::Lock { to, row } => self.answer_lock(session, births, to, row, kept),
            Call::SelectAsOf { to, row, commit } => {
                self.answer_as_of(session, births, to, row, *commit, kept)
            }
            _ => self.answer_settle(session, births),
        }
    }

    // An Insert of a row.
    fn answer_insert(
        &mut self,
        session: u16,
        births: Births,
        row: &Name,
        kept: Births,
    ) -> Mem<Answer>
        requires session { HasField self.old session }
        requires births { AreStocked self.old births }
        requires kept { AreStocked self.old kept }
        ensures { IsAnswered self.old self.new (λ h. row_answer (with_kept_births h session births) session (call.Insert row.now) kept) result }
    {
        if self.is_busy(session, row) {
            return self.answer_known(session, births, Fault::Busy);
        }
        if self.is_present(row) {
            return self.answer_known(session, births, Fault::Duplicate);
        }
        self.lock_row(session, row, kept)?;
        Ok(Answer::Done)
    }

    // A Delete of a row, which is given what the row held.
    fn answer_delete(
        &mut self,
        session: u16,
        births: Births,
        row: &Name,
        kept: Births,
    ) -> Mem<Answer>
        requires session { HasField self.old session }
        requires births { AreStocked self.old births }
        requires kept { AreStocked self.old kept }
        ensures { IsAnswered self.old self.new (λ h. row_answer (with_kept_births h session births) session (call.Delete row.now) kept) result }
    {
        if self.is_busy(session, row) {
            return self.answer_known(session, births, Fault::Busy);
        }
        let found = self.current_twice(row)?;
        let Some((map, twin)) = found else {
            return self.answer_known(session, births, Fault::NoSuchRow);
        };
        self.lock_row(session, row, kept)?;
        Ok(Answer::Value { map, twin })
    }

    // A Lock of a row, which is given what the row holds.
    fn answer_lock(
        &mut self,
        session: u16,
        births: Births,
        _to: &LocName,
        row: &Name,
        kept: Births,
    ) -> Mem<Answer>
        requires session { HasField self.old session }
        requires births { AreStocked self.old births }
        requires kept { AreStocked self.old kept }
        ensures { IsAnswered self.old self.new (λ h. row_answer (with_kept_births h session births) session (call.Lock _to.now row.now) kept) result }
    {
        if self.is_busy(session, row) {
            return self.answer_known(session, births, Fault::Busy);
        }
        let _sound = self.stock.next_birth();
        let found = self.current_twice(row)?;
        let Some((map, twin)) = found else {
            return self.answer_known(session, births, Fault::NoSuchRow);
        };
        let all = with_births(*self.sessions.allocator(), &kept, &map)?;
        self.lock_row(session, row, all)?;
        Ok(Answer::Value { map, twin })
    }

    // A Select of a row.
    fn answer_select(
        &mut self,
        session: u16,
        births: Births,
        row: &Name,
        kept: Births,
    ) -> Mem<Answer>
        requires session { HasField self.old session }
        requires births { AreStocked self.old births }
        requires kept { AreStocked self.old kept }
        ensures { IsAnswered self.old self.new (λ h. answer_given (with_kept_births h session births) session kept (value_or_absent (last_change h.commits row.now))) result }
    {
        let _sound = self.stock.next_birth();
        let found = self.current_twice(row)?;
        self.give(session, births, found, kept)
    }

    // Whether a commit is yet to be made.
    fn is_future(&self, commit: u64) -> bool
        ensures { result ≡ nat_lt self.now.versions.now commit }
    {
        self.versions.now() < commit
    }

    // Whether a commit is below the floor.
    fn is_old(&self, commit: u64) -> bool
        ensures { result ≡ nat_lt commit self.now.floor }
    {
        commit < self.floor
    }

    // What a row held after so many commits, twice, where it was present.
    fn earlier_twice(&self, row: &Name, commit: u64) -> Mem<Option<(Map, Map)>>
        ensures { IfOk result (λ found. found ≡ twice (value_or_absent (change_up_to (versions_of self.now.versions.rows row.now) commit))) }
    {
        twice(self.versions.at(row, commit))
    }

    // A SelectAsOf of a row.
    fn answer_as_of(
        &mut self,
        session: u16,
        births: Births,
        _to: &LocName,
        row: &Name,
        commit: u64,
        kept: Births,
    ) -> Mem<Answer>
        requires session { HasField self.old session }
        requires births { AreStocked self.old births }
        requires kept { AreStocked self.old kept }
        ensures { IsAnswered self.old self.new (λ h. row_answer (with_kept_births h session births) session (call.SelectAsOf _to.now row.now commit) kept) result }
    {
        if self.is_future(commit) {
            return self.answer_known(session, births, Fault::FutureCommit);
        }
        if self.is_old(commit) {
            return self.answer_known(session, births, Fault::TooOld);
        }
        let _sound = self.stock.next_birth();
        let found = self.earlier_twice(row, commit)?;
        self.give(session, births, found, kept)
    }

    // A session is given a value, where there is one.
    fn give(
        &mut self,
        session: u16,
        births: Births,
        found: Option<(Map, Map)>,
        kept: Births,
    ) -> Mem<Answer>
        requires session { HasField self.old session }
        requires births { AreStocked self.old births }
        requires kept { AreStocked self.old kept }
        requires two { twice (option_map (λ v. v.0) found) ≡ found }
        requires named { OfValue (λ birth. is_stocked self.old.stock.stocked birth ≡ true) (option_map (λ v. v.0) found) }
        ensures { IsAnswered self.old self.new (λ h. answer_given (with_kept_births h session births) session kept (option_map (λ v. v.0) found)) result }
    {
        let Some((map, twin)) = found else {
            return self.answer_known(session, births, Fault::NoSuchRow);
        };
        let all = with_births(*self.sessions.allocator(), &kept, &map)?;
        self.note(session, all)?;
        Ok(Answer::Value { map, twin })
    }
}
