//! Working values and locators, where a row and the locator that wrote it last share one value.
ghost use Rattle.std.specs.Prelude.{◌≡◌, ℕ, ◌≤◌, [], ◌∷◌, false, true, length, slice_get, Some};
ghost use Rattle.std.specs.Option.{option_copied, option_map};
ghost use Rattle.std.specs.Map.{keys_of};
ghost use Rattle.std.specs.List.Sorted.{IsStrictlySortedBy};
ghost use Rattle.sf_types.specs.Rooms.{MakesRoom};
ghost use Rattle.sf_types.specs.Values.Names.{name_cmp};
ghost use Rattle.sf_types.specs.Inside.NameMaps.{get, has, with_entry, without_entry};
ghost use Rattle.sf_types.specs.Table.Parts.{Locator as TableLocator, Savepoint};
ghost use Rattle.sf_types.specs.Table.Sessions.{lacks_room};
ghost use Rattle.sf_types.specs.Calls.Savepoints.{is_since, with_losses};
ghost use Rattle.sf_types.specs.Calls.TransactionEnds.{clean_locators};
ghost use Rattle.sf_locators.specs.LocatorWrites.{session_with};
ghost use Rattle.sf_session_values.specs.Inside.Sharing.{value_by, is_row_value};

use crate::working::{RestoredRows, Working};
use crate::working_rows::WorkingRows;
use sf_chunk_map::Map;
use sf_locators::{Locator, Locators};
use sf_types::{LocName, Mem, Name};
use std::alloc::Global;
use std::marker::Model;

/// The values of a session: the working values of its rows, and its locators, with room for more of each. A row's value that
/// was written through a locator stands once, in that locator, until the two differ.
#[derive(Drop)]
pub struct SessionValues {
    pub(crate) rows: WorkingRows,
    pub(crate) locators: Locators,
    alloc: Global,
}

impl Model for SessionValues {
    ghost use Rattle.std.specs.Prelude.{min};
    ghost use Rattle.sf_types.specs.Rooms.{Roomy};
    ghost use Rattle.sf_session_values.specs.Values.{ValuesView};
    ghost use Rattle.sf_session_values.specs.Inside.Sharing.{rows_by, AreShared};

    ghost Value = { Roomy ValuesView };

    ghost view = { λ v. record {
      held = record { working = rows_by v.locators.held v.rows.held; locators = v.locators.held };
      spare = min v.rows.spare v.locators.spare;
    } };

    ghost invariant = { λ v. AreShared v.locators.held v.rows.held };
}

// The value that a row has by its working value.
fn value_by<'a>(locators: &'a Locators, working: &'a Working) -> Option<&'a Map>
    ensures { option_copied result ≡ value_by locators.now.held working.now }
{
    match working {
        Working::Absent => None,
        Working::Own(map) => Some(map),
        Working::Through(at) => match locators.get(at) {
            Some(locator) => Some(&locator.map),
            None => None,
        },
    }
}

// Whether a locator's value is the working value of its row.
fn is_row_value(locators: &Locators, rows: &WorkingRows, at: &LocName) -> bool
    ensures { result ≡ is_row_value locators.now.held rows.now.held at.now }
{
    let Some(locator) = locators.get(at) else {
        return false;
    };
    match rows.get(&locator.row) {
        Some(Working::Through(other)) => at == other,
        Some(Working::Own(_)) => false,
        Some(Working::Absent) => false,
        None => false,
    }
}

impl SessionValues {
    /// No values. It takes no memory.
    pub fn new(alloc: Global) -> SessionValues
        ensures { result.held ≡ record { working = []; locators = [] } }
    {
        SessionValues {
            rows: WorkingRows::new(alloc),
            locators: Locators::new(alloc),
            alloc,
        }
    }

    // The allocator that the values were made with.
    pub(crate) fn allocator(&self) -> Global {
        self.alloc
    }

    /// Makes room for so many working values and locators more. After want of memory nothing has changed.
    pub fn make_room(&mut self, count: u64) -> Mem<()>
        ensures { MakesRoom self.old self.new count result }
    {
        self.rows.make_room(count)?;
        self.locators.make_room(count)
    }

    /// The locators.
    pub fn locators(&self) -> &Locators
        ensures { result.now.held ≡ self.now.held.locators }
    {
        &self.locators
    }

    /// The working value of a row: None inside where the row is absent. None exactly where it has no working value.
    pub fn working(&self, row: &Name) -> Option<Option<&Map>>
        ensures { option_map option_copied result ≡ get self.now.held.working row.now }
    {
        match self.rows.get(row) {
            Some(working) => Some(value_by(&self.locators, working)),
            None => None,
        }
    }

    /// The number of rows with a working value.
    pub fn row_count(&self) -> usize
        ensures count { result ≡ length self.now.held.working }
        ensures rising { IsStrictlySortedBy name_cmp (keys_of self.now.held.working) }
    {
        self.rows.len()
    }

    /// The k-th row with a working value in byte order of names, counted from 0, with that value: None inside where the row is
    /// absent. None exactly where there are at most k.
    pub fn row(&self, k: usize) -> Option<(&Name, Option<&Map>)>
        ensures { option_map (λ e. (e.0.now, option_copied e.1)) result ≡ slice_get self.now.held.working k }
    {
        match self.rows.entry(k) {
            Some((row, working)) => Some((row, value_by(&self.locators, working))),
            None => None,
        }
    }

    /// Gives a row a working value: a value, or absence. It takes no memory.
    pub fn set_row(&mut self, row: Name, value: Option<Map>)
        requires { 1 ≤ self.old.spare }
        ensures { self.new.held ≡ record self.old.held { working = with_entry self.old.held.working row value } }
    {
        self.rows.insert_within(row, Working::own(value));
    }

    /// Sets a locator, where there may be one more or one of that name is there. It takes no memory.
    pub fn set_locator(&mut self, to: LocName, locator: Locator)
        requires limit { lacks_room (session_with self.old.held.locators) to ≡ false }
        requires room { 1 ≤ self.old.spare }
        ensures { self.new.held ≡ record self.old.held { locators = with_entry self.old.held.locators to locator } }
    {
        // The names of both maps rise.
        let _counts = (self.rows.len(), self.locators.len());
        let keeps_row = is_row_value(&self.locators, &self.rows, &to);
        match self.locators.set_within(to, locator) {
            Some(old) => {
                if keeps_row {
                    let Locator { row, map, .. } = old;
                    self.rows.replace(row, map);
                }
            }
            None => {}
        }
    }

    /// Takes a locator away. False exactly where there is none of that name. It takes no memory.
    pub fn free_locator(&mut self, at: &LocName) -> bool
        ensures freed { result ≡ has self.old.held.locators at.now }
        ensures held { self.new.held ≡ record self.old.held { locators = without_entry self.old.held.locators at.now } }
    {
        // The names of both maps rise.
        let _counts = (self.rows.len(), self.locators.len());
        let keeps_row = is_row_value(&self.locators, &self.rows, at);
        match self.locators.take(at) {
            Some(old) => {
                if keeps_row {
                    let Locator { row, map, .. } = old;
                    self.rows.replace(row, map);
                }
                true
            }
            None => false,
        }
    }

    /// Gives a locator and its row the value that was written through it, in the transaction with the number `txn` and the
    /// session's epoch. It takes no memory.
    pub fn write(&mut self, at: LocName, row: Name, map: Map, txn: u64, epoch: u64)
        requires room { 1 ≤ self.old.spare }
        requires row { option_map (λ l. l.row) (get self.old.held.locators at) ≡ Some row }
        ensures { (l : TableLocator) → get self.old.held.locators at ≡ Some l
            → self.new.held ≡ record {
              working = with_entry self.old.held.working row (Some map);
              locators = with_entry self.old.held.locators at (record l { value = map; transaction = txn; epoch = epoch; is_dirty = true });
            } }
    {
        // The names of both maps rise.
        let _counts = (self.rows.len(), self.locators.len());
        self.locators.write(&at, map, txn, epoch);
        self.rows.insert_within(row, Working::Through(at));
    }

    /// What a commit leaves: no working value, and clean locators. It takes no memory.
    pub fn commit(&mut self)
        ensures { self.new.held ≡ record { working = []; locators = clean_locators self.old.held.locators } }
    {
        self.rows = WorkingRows::new(self.alloc);
        self.locators.committed();
    }

    /// What a rollback leaves: no working value, and each dirty locator lost. It takes no memory.
    pub fn roll_back(&mut self)
        ensures { self.new.held ≡ record { working = []; locators = with_losses (λ l. l.is_dirty) self.old.held.locators } }
    {
        self.rows = WorkingRows::new(self.alloc);
        self.locators.rolled_back();
    }

    /// What a rollback to a savepoint leaves: its working values, and each locator lost that was written through since. It
    /// takes no memory.
    pub fn roll_back_to(&mut self, epoch: u64, rows: RestoredRows)
        ensures { (x : Savepoint) → x.epoch ≡ epoch → self.new.held ≡ record { working = rows; locators = with_losses (is_since x) self.old.held.locators } }
    {
        let RestoredRows { rows } = rows;
        // The names rise.
        let _count = rows.len();
        self.rows = rows;
        self.locators.rolled_back_to(epoch);
    }

    /// What the end of the session leaves: nothing. It takes no memory.
    pub fn end(&mut self)
        ensures { self.new.held ≡ record { working = []; locators = [] } }
    {
        self.rows = WorkingRows::new(self.alloc);
        self.locators = Locators::new(self.alloc);
    }
}
