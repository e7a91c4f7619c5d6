//! Promises that are granted.
ghost use Rattle.std.specs.Prelude.{◌≡◌, ◌+◌, ◌≤◌, [], true, length, drop, All, IfOk, OnOk, OnErr};
ghost use Rattle.sf_types.specs.declared.holder.Holder.TheVariants.{Session};
ghost use Rattle.sf_stock.specs.Stocks.{IsSound, is_stocked, with_holder, with_left_parked};
ghost use Rattle.sf_store_half.specs.Inside.Floors.{AreDisplaced, stock_promised, versions_without};
ghost use Rattle.sf_types.specs.Halves.Asks.{Half};
ghost use Rattle.sf_store_half.specs.Fields.{Keeps};
ghost use Rattle.sf_store_half.specs.HalfMoves.{AreStocked, HasField, IsRepacked};
ghost use Rattle.sf_store_half.specs.Inside.Promises.{CanGrant, half_granted};

use crate::decisions::Grant;
use crate::session_fields::{Promised, set_promise};
use crate::stock_steps::keep_promise;
use crate::store_half::StoreHalf;
use sf_retention::Retention;
use sf_stock::Stock;
use sf_types::{Births, Call, Mem, OutOfMemory, TryCopy};
use sf_versions::Versions;

// The room that two lists of births take.
fn room_for(births: &Births, found: &Births) -> Mem<u64>
    ensures { IfOk result (λ room. room ≡ length births.now + length found.now) }
{
    let some = births.as_slice().len() as u64;
    match some.checked_add(found.as_slice().len() as u64) {
        Some(room) => Ok(room),
        None => Err(OutOfMemory),
    }
}

// What is granted to a session that holds these births: they and the births that are found are held, and the versions that are due
// are given up, with their notes. It takes no memory.
fn keep_grant(
    versions: &mut Versions,
    notes: &mut Retention,
    stock: &mut Stock,
    session: u16,
    births: Births,
    grant: Grant,
)
    requires due { AreDisplaced versions.old.held grant.due }
    requires count { length grant.due ≤ length notes.old.held }
    requires births { All (λ birth. is_stocked stock.old.held.stocked birth ≡ true) births }
    requires found { All (λ birth. is_stocked (with_holder stock.old.held (Session session) births).stocked birth ≡ true) grant.found }
    requires room { length births + length grant.found ≤ stock.old.spare }
    ensures versions { versions.new.held ≡ versions_without versions.old.held grant.due }
    ensures notes { notes.new.held ≡ drop (length grant.due) notes.old.held }
    ensures sound { IsSound stock.old.held }
    ensures between { IsSound (stock_promised stock.old.held session births grant.found grant.due) }
    ensures held { stock.new.held ≡ with_left_parked (stock_promised stock.old.held session births grant.found grant.due) }
{
    let Grant { due, found, .. } = grant;
    notes.done(due.len());
    keep_promise(versions, stock, session, births, found, due);
}

impl StoreHalf {
    // Grants a promise of a session that holds these births. After want of memory nothing has changed.
    pub(crate) fn grant(
        &mut self,
        session: u16,
        births: Births,
        call: &Call,
        grant: Grant,
    ) -> Mem<()>
        requires session { HasField self.old session }
        requires births { AreStocked self.old births }
        requires grant { CanGrant self.old session births grant }
        ensures kept { OnOk result ((h : Half) → Keeps self.old h → Keeps self.new (half_granted h session births call.now grant)) }
        ensures repacked { OnOk result (IsRepacked self.old.stock self.new.stock []) }
        ensures err { OnErr result (self.new ≡ self.old) }
    {
        self.stock.make_room(room_for(&births, &grant.found)?)?;
        let floor = grant.floor;
        let blocks = grant.wanted;
        let call = call.copy()?;
        let before = set_promise(&mut self.sessions, session, Promised { call, blocks });
        self.promised = self.promised - before + blocks;
        self.floor = floor;
        keep_grant(
            &mut self.versions,
            &mut self.notes,
            &mut self.stock,
            session,
            births,
            grant,
        );
        Ok(())
    }
}
