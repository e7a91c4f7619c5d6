//! The part of one session.
ghost use Rattle.std.specs.Prelude.{◌≡◌, [], ◌∷◌, None, Some, false, IsSome, IfOk, OnOk, OnErr, MatchResult};
ghost use Rattle.std.specs.Option.{option_copied};
ghost use Rattle.sf_types.specs.Table.Parts.{new_session};
ghost use Rattle.sf_types.specs.Table.Sessions.{with_transaction, transaction_number, row_value, lacks_room};
ghost use Rattle.sf_types.specs.Calls.RowCalls.{after_insert, after_lock};
ghost use Rattle.sf_types.specs.Inside.NameMaps.{with_entry};
ghost use Rattle.sf_types.specs.Calls.Refusals.{first_refusal};
ghost use Rattle.sf_types.specs.declared.call.Call.TheVariants as calls;
ghost use Rattle.sf_types.specs.Calls.LocatorCalls.{locator_named, length_call, read_call};
ghost use Rattle.sf_types.specs.Calls.WritingCalls.{spans_transactions, writing_refusals, write_call};
ghost use Rattle.sf_model.specs.Writable.{IsWritable};
ghost use Rattle.sf_types.specs.Calls.TransactionEnds.{after_commit, after_end};

use crate::locator::Locator;
use crate::rows::Rows;
use crate::value::Value;
use sf_types::{
    BUFFER_BYTES, Fault, LocName, Mem, Name, NameMap, OBJECT_BYTES, OutOfMemory, Reply,
    SESSION_LOCATORS, TryCopy,
};
use std::alloc::Global;
use std::marker::Model;
use std::mem;

/// The part of one session, seen as that of the table. It has no promise and no savepoint today.
#[derive(Drop)]
pub struct Session {
    opened: u64,
    is_open: bool,
    working: Rows,
    locators: NameMap<LocName, Locator>,
    epoch: u64,
    has_ended: bool,
    alloc: Global,
}

impl Model for Session {
    ghost use Rattle.std.specs.Prelude.{None, []};
    ghost use Rattle.sf_types.specs.Table.Parts.{Session as SessionPart};

    ghost Value = { SessionPart };

    ghost view = { λ s. record {
      opened = s.opened;
      is_open = s.is_open;
      working = s.working;
      locators = s.locators;
      promise = None;
      epoch = s.epoch;
      savepoints = [];
      has_ended = s.has_ended;
    } };
}

impl Session {
    /// A session that has made no call. It takes no memory.
    pub fn new(alloc: Global) -> Session
        ensures { result ≡ new_session }
    {
        Session {
            opened: 0,
            is_open: false,
            working: NameMap::new(alloc),
            locators: NameMap::new(alloc),
            epoch: 0,
            has_ended: false,
            alloc,
        }
    }

    /// Whether the session has ended.
    pub fn has_ended(&self) -> bool
        ensures { result ≡ self.now.has_ended }
    {
        self.has_ended
    }

    /// Whether a promise of the session stands. None does today.
    pub fn has_promise(&self) -> bool
        ensures answer { result ≡ false }
        ensures none { self.now.promise ≡ None }
    {
        let _ = &self.epoch;
        false
    }

    /// The row's value for the session, where the row holds `current`.
    pub fn row_value<'a>(&'a self, current: Option<&'a Value>, row: &Name) -> Option<&'a Value>
        ensures { option_copied result ≡ row_value self.now (option_copied current.entry) row.now }
    {
        match self.working.get(row) {
            Some(said) => said.as_ref(),
            None => current,
        }
    }

    /// The locator of a name. None exactly where it isn't there.
    pub fn locator(&self, at: &LocName) -> Option<&Locator>
        ensures { option_copied result ≡ locator_named self.now at.now }
    {
        self.locators.get(at)
    }

    /// Whether a locator of that name can't be set.
    pub fn lacks_room(&self, to: &LocName) -> bool
        ensures { result ≡ lacks_room self.now to.now }
    {
        let is_there = self.locators.get(to).is_some();
        !is_there && SESSION_LOCATORS <= self.locators.len()
    }

    // The number of the open transaction, or 0.
    fn transaction(&self) -> u64
        ensures { result ≡ transaction_number self.now }
    {
        if self.is_open { self.opened } else { 0 }
    }

    // Whether a locator belongs to another transaction than the open one.
    fn spans_transactions(&self, locator: &Locator) -> bool
        ensures { result ≡ spans_transactions self.now locator.now }
    {
        let number = locator.transaction;
        number != 0 && number != self.transaction()
    }

    /// Length through a locator.
    pub fn length(&self, at: &LocName) -> Reply
        ensures { (self.now, result) ≡ length_call self.now at.now }
    {
        match self.locator(at) {
            None => Reply::Refused(Fault::UnknownLocator),
            Some(locator) => {
                if locator.is_lost {
                    Reply::Refused(Fault::Lost)
                } else {
                    Reply::Number(locator.value.len())
                }
            }
        }
    }

    /// Read through a locator.
    pub fn read(&self, at: &LocName, amount: u64, offset: u64) -> Mem<Reply>
        ensures { IfOk result (λ reply. (self.now, reply) ≡ read_call self.now at.now amount offset) }
    {
        let Some(locator) = self.locator(at) else {
            return Ok(Reply::Refused(Fault::UnknownLocator));
        };
        if locator.is_lost {
            return Ok(Reply::Refused(Fault::Lost));
        }
        if amount == 0 || amount > BUFFER_BYTES || offset == 0 {
            return Ok(Reply::Refused(Fault::ArgOutOfRange));
        }
        if locator.value.len() < offset {
            return Ok(Reply::Refused(Fault::NoData));
        }
        let bytes = locator.value.read(amount as usize, offset as usize)?;
        Ok(Reply::Bytes(bytes))
    }

    // The locator and the row's value that a writing call works on, or why it is refused before its arguments are
    // looked at.
    fn writable<'a>(
        &'a self,
        is_held: bool,
        current: Option<&'a Value>,
        at: &LocName,
    ) -> Result<(&'a Locator, &'a Value), Fault>
        ensures { MatchResult result
            (λ both. IsWritable self.now is_held (option_copied current.entry) at.now both.0.now both.1.now)
            (λ fault. first_refusal (writing_refusals self.now is_held (option_copied current.entry) at.now (at.now ∷ [])) ≡ Some fault) }
    {
        let Some(locator) = self.locator(at) else {
            return Err(Fault::UnknownLocator);
        };
        if locator.is_lost {
            return Err(Fault::Lost);
        }
        if locator.is_read_only {
            return Err(Fault::ReadOnly);
        }
        if self.spans_transactions(locator) {
            return Err(Fault::SpansTransactions);
        }
        if !is_held {
            return Err(Fault::RowNotLocked);
        }
        match self.row_value(current, &locator.row) {
            Some(value) => Ok((locator, value)),
            None => Err(Fault::NoSuchRow),
        }
    }

    // Makes a value the working one and sets a locator that is there, or changes nothing.
    fn put_written(&mut self, at: LocName, locator: Locator, value: Value) -> Mem<()>
        requires { IsSome (locator_named self.old at) }
        ensures ok { OnOk result (self.new ≡ record self.old {
          working = with_entry self.old.working locator.row (Some value);
          locators = with_entry self.old.locators at locator;
        }) }
        ensures err { OnErr result (self.new ≡ self.old) }
    {
        let row = locator.row.copy()?;
        self.working.insert(row, Some(value))?;
        self.locators.replace(at, locator);
        Ok(())
    }

    /// WriteAppend through a locator, where the session holds the lock of its row or not, and the row holds `current`.
    pub fn write_append(
        &mut self,
        is_held: bool,
        current: Option<&Value>,
        at: &LocName,
        buffer: &[u8],
    ) -> Mem<Reply>
        ensures ok { IfOk result (λ reply. (self.new, reply) ≡ write_call self.old is_held (option_copied current.entry) at.now (calls.WriteAppend at.now buffer.now)) }
        ensures err { OnErr result (self.new ≡ self.old) }
    {
        let (locator, value) = match self.writable(is_held, current, at) {
            Ok(both) => both,
            Err(fault) => return Ok(Reply::Refused(fault)),
        };
        if buffer.is_empty() || buffer.len() as u64 > BUFFER_BYTES {
            return Ok(Reply::Refused(Fault::ArgOutOfRange));
        }
        if value.len() + buffer.len() as u64 > OBJECT_BYTES {
            return Ok(Reply::Refused(Fault::TooLong));
        }
        let result = value.appended(buffer)?;
        let written = Locator {
            row: locator.row.copy()?,
            value: result.copy()?,
            transaction: self.transaction(),
            epoch: self.epoch,
            is_dirty: true,
            is_lost: locator.is_lost,
            is_read_only: locator.is_read_only,
        };
        self.put_written(at.copy()?, written, result)?;
        Ok(Reply::Done)
    }

    // The number of transactions opened, with the one that is opened now.
    fn next_opened(&self) -> Mem<u64>
        ensures { IfOk result (λ opened. opened ≡ (with_transaction self.now).opened) }
    {
        if self.is_open {
            return Ok(self.opened);
        }
        // A counter that stands at its end is one for which there is no memory.
        self.opened.checked_add(1).ok_or(OutOfMemory)
    }

    /// What Insert does to the session's part, or nothing.
    pub fn insert_row(&mut self, row: Name) -> Mem<()>
        ensures ok { OnOk result (self.new ≡ after_insert self.old row) }
        ensures err { OnErr result (self.new ≡ self.old) }
    {
        let opened = self.next_opened()?;
        let empty = Value::empty(self.alloc);
        self.working.insert(row, Some(empty))?;
        self.opened = opened;
        self.is_open = true;
        Ok(())
    }

    /// What Lock does to the session's part, where the row's value is `value`, or nothing.
    pub fn lock_row(&mut self, to: LocName, row: Name, value: Value) -> Mem<()>
        ensures ok { OnOk result (self.new ≡ after_lock self.old to row value) }
        ensures err { OnErr result (self.new ≡ self.old) }
    {
        let opened = self.next_opened()?;
        let is_dirty = self.working.get(&row).is_some();
        let locator = Locator {
            row,
            value,
            transaction: opened,
            epoch: self.epoch,
            is_dirty,
            is_lost: false,
            is_read_only: false,
        };
        self.locators.insert(to, locator)?;
        self.opened = opened;
        self.is_open = true;
        Ok(())
    }

    /// Whether a transaction is open. A session has no savepoint today.
    pub fn is_open(&self) -> bool
        ensures is_open { result ≡ self.now.is_open }
        ensures no_savepoints { self.now.savepoints ≡ [] }
    {
        self.is_open
    }

    /// The working values.
    pub fn working(&self) -> &Rows
        ensures { result.now ≡ self.now.working }
    {
        &self.working
    }

    /// Closes the open transaction as a commit does, and hands its working values out. It takes no memory.
    pub fn commit(&mut self) -> Rows
        ensures part { self.new ≡ after_commit self.old }
        ensures working { result ≡ self.old.working }
    {
        self.is_open = false;
        self.locators.retain(|_, locator| {
            locator.is_dirty = false;
            true
        });
        mem::replace(&mut self.working, NameMap::new(self.alloc))
    }

    /// What End does to the session's part. It takes no memory.
    pub fn end(&mut self)
        ensures { self.new ≡ after_end self.old }
    {
        self.is_open = false;
        self.working = NameMap::new(self.alloc);
        self.locators = NameMap::new(self.alloc);
        self.has_ended = true;
    }
}
