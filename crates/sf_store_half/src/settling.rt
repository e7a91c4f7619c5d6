//! What is kept of a session after its call.
ghost use Rattle.std.specs.Prelude.{◌≡◌, [], OnOk, OnErr};
ghost use Rattle.sf_types.specs.Halves.Asks.{Half, without_row_locks};
ghost use Rattle.sf_types.specs.Table.Sessions.{without_locks};
ghost use Rattle.sf_store_half.specs.Fields.{Keeps};
ghost use Rattle.sf_store_half.specs.HalfMoves.{AreStocked, HasField, IsRepacked, field_at};
ghost use Rattle.sf_store_half.specs.Inside.Answered.{kept_as};

use crate::session_fields::{field_of, set_field};
use crate::stock_steps::keep_births;
use crate::store_half::StoreHalf;
use sf_types::{Births, List, Mem, Name};

impl StoreHalf {
    // From now on a session holds these births, and its transaction is open and it has ended, or not. After want of memory
    // nothing has changed.
    pub(crate) fn settle(
        &mut self,
        session: u16,
        births: Births,
        is_open: bool,
        has_ended: bool,
    ) -> Mem<()>
        requires session { HasField self.old session }
        requires births { AreStocked self.old births }
        ensures kept { OnOk result ((h : Half) → Keeps self.old h → Keeps self.new (kept_as h session births is_open has_ended)) }
        ensures repacked { OnOk result (IsRepacked self.old.stock self.new.stock []) }
        ensures err { OnErr result (self.new ≡ self.old) }
    {
        self.stock.make_room(births.as_slice().len() as u64)?;
        set_field(&mut self.sessions, session, is_open, has_ended);
        keep_births(&mut self.stock, session, births);
        Ok(())
    }

    // Releases all locks of a session.
    pub(crate) fn release(&mut self, session: u16)
        ensures { self.new ≡ record self.old { locks = without_locks self.old.locks session } }
    {
        self.locks.release_all(session);
    }

    // Releases those of some rows' locks that a session holds.
    pub(crate) fn release_rows(&mut self, session: u16, rows: &List<Name>)
        ensures { self.new ≡ record self.old { locks = without_row_locks self.old.locks session rows.now } }
    {
        self.locks.release_listed(rows.as_slice(), session);
    }

    // Whether a transaction of a session is open.
    pub(crate) fn is_open(&self, session: u16) -> bool
        requires { HasField self.now session }
        ensures { result ≡ (field_at self.now session).is_open }
    {
        field_of(&self.sessions, session).is_open
    }

    // Whether a session has ended.
    pub(crate) fn has_ended(&self, session: u16) -> bool
        requires { HasField self.now session }
        ensures { result ≡ (field_at self.now session).has_ended }
    {
        field_of(&self.sessions, session).has_ended
    }
}
