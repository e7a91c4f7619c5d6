//! What row calls make of a session's own part.
ghost use Rattle.std.specs.Prelude.{◌≡◌, ◌≤◌, false, Some, None};
ghost use Rattle.sf_types.specs.Table.Sessions.{lacks_room, with_transaction};
ghost use Rattle.sf_types.specs.Calls.RowCalls.{after_insert, after_delete, row_locator, after_lock, after_select, after_select_as_of};
ghost use Rattle.sf_types.specs.Halves.Asks.{with_locked_row};
ghost use Rattle.sf_own_part.specs.Readiness.{IsReady};

use crate::own_part::OwnPart;
use sf_chunk_map::Map;
use sf_locators::Locator;
use sf_sorted_map::SortedMap;
use sf_types::{LocName, Name};

// Puts a row that holds this among the locked ones. One that is among them stays as it is.
fn lock_row(rows: &mut SortedMap<Name, Option<Map>>, name: Name, value: Option<Map>)
    requires { 1 ≤ rows.old.spare }
    ensures { rows.new.held ≡ with_locked_row rows.old.held name value }
{
    if rows.get(&name).is_none() {
        rows.insert_within(name, value);
    }
}

impl OwnPart {
    // Opens a transaction where none is open.
    fn open_transaction(&mut self)
        requires { IsReady self.old }
        ensures held { self.new.held ≡ record self.old.held { part = with_transaction self.old.held.part } }
        ensures spare { self.new.spare ≡ self.old.spare }
    {
        if !self.is_open {
            self.opened += 1;
            self.is_open = true;
        }
    }

    /// What Insert makes of the own part, by the row's name twice. It takes no memory.
    pub fn insert(&mut self, row: Name, name: Name)
        requires ready { IsReady self.old }
        requires name { name ≡ row }
        ensures held { self.new.held ≡ record { part = after_insert self.old.held.part row; rows = with_locked_row self.old.held.rows row None } }
    {
        self.open_transaction();
        self.values.set_row(row, Some(Map::empty(self.alloc)));
        lock_row(&mut self.rows, name, None);
    }

    /// What Delete makes of the session's part. It takes no memory.
    pub fn delete(&mut self, row: Name)
        requires { IsReady self.old }
        ensures held { self.new.held ≡ record self.old.held { part = after_delete self.old.held.part row } }
    {
        self.open_transaction();
        self.values.set_row(row, None);
    }

    /// What Delete makes of the own part where the row held this value, by the row's name twice. It takes no memory.
    pub fn delete_held(&mut self, row: Name, name: Name, map: Map)
        requires ready { IsReady self.old }
        requires name { name ≡ row }
        ensures held { self.new.held ≡ record { part = after_delete self.old.held.part row; rows = with_locked_row self.old.held.rows row (Some map) } }
    {
        self.open_transaction();
        self.values.set_row(row, None);
        lock_row(&mut self.rows, name, Some(map));
    }

    // The locator of a row's value, of a transaction.
    fn row_locator(&self, row: Name, map: Map, txn: u64) -> Locator
        ensures { result ≡ row_locator self.now.held.part row map txn }
    {
        let dirty = self.values.working(&row).is_some();
        Locator {
            row,
            map,
            txn,
            epoch: self.epoch,
            dirty,
            lost: false,
            read_only: false,
        }
    }

    /// What Lock makes of the session's part, where the row has this value. It takes no memory.
    pub fn lock(&mut self, to: LocName, row: Name, map: Map)
        requires ready { IsReady self.old }
        requires limit { lacks_room self.old.held.part to ≡ false }
        ensures held { self.new.held ≡ record self.old.held { part = after_lock self.old.held.part to row map } }
    {
        self.open_transaction();
        let locator = self.row_locator(row, map, self.opened);
        self.values.set_locator(to, locator);
    }

    /// What Lock makes of the own part where the row holds this value, by the row's name and the value twice. It takes no memory.
    pub fn lock_held(&mut self, to: LocName, row: Name, map: Map, name: Name, twin: Map)
        requires ready { IsReady self.old }
        requires limit { lacks_room self.old.held.part to ≡ false }
        requires name { name ≡ row }
        requires twin { twin ≡ map }
        ensures held { self.new.held ≡ record { part = after_lock self.old.held.part to row map; rows = with_locked_row self.old.held.rows row (Some map) } }
    {
        self.open_transaction();
        let locator = self.row_locator(row, map, self.opened);
        self.values.set_locator(to, locator);
        lock_row(&mut self.rows, name, Some(twin));
    }

    /// What Select makes of the session's part, where the row has this value. It takes no memory.
    pub fn select(&mut self, to: LocName, row: Name, map: Map)
        requires room { 1 ≤ self.old.spare }
        requires limit { lacks_room self.old.held.part to ≡ false }
        ensures held { self.new.held ≡ record self.old.held { part = after_select self.old.held.part to row map } }
    {
        let locator = self.row_locator(row, map, self.transaction_number());
        self.values.set_locator(to, locator);
    }

    /// What SelectAsOf makes of the session's part, where the row had this value. It takes no memory.
    pub fn select_as_of(&mut self, to: LocName, row: Name, map: Map)
        requires room { 1 ≤ self.old.spare }
        requires limit { lacks_room self.old.held.part to ≡ false }
        ensures held { self.new.held ≡ record self.old.held { part = after_select_as_of self.old.held.part to row map } }
    {
        let locator = Locator {
            row,
            map,
            txn: 0,
            epoch: self.epoch,
            dirty: false,
            lost: false,
            read_only: true,
        };
        self.values.set_locator(to, locator);
    }
}
