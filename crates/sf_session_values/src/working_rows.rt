//! The working values of rows, and how often their births stand in them.
ghost use Rattle.std.specs.Prelude.{◌≡◌, ◌≤◌, [], length, map, slice_get, IsSome, IfSome, cond, true, IfOk};
ghost use Rattle.std.specs.Option.{option_copied, option_map};
ghost use Rattle.std.specs.Map.{keys_of};
ghost use Rattle.std.specs.Map.Iter.{deref_pair};
ghost use Rattle.std.specs.List.Sorted.{IsStrictlySortedBy};
ghost use Rattle.sf_types.specs.Rooms.{MakesRoom};
ghost use Rattle.sf_types.specs.Inside.Births.{rising_births};
ghost use Rattle.sf_types.specs.Inside.NameMaps.{get, with_entry, without_entry};
ghost use Rattle.sf_types.specs.Values.Names.{name_cmp};
ghost use Rattle.sf_room_map.specs.Entries.{added_at};
ghost use Rattle.sf_session_values.specs.declared.working.Working.TheVariants as working;
ghost use Rattle.sf_session_values.specs.declared.working_rows.Uncounted.TheVariants as kind;
ghost use Rattle.sf_session_values.specs.Inside.Sharing.{own_value};
ghost use Rattle.sf_session_values.specs.Inside.Counting.{AreNumbers, births_of_own_rows, births_of_working, counted_births, counted_change, uncounted_with, workings_beside};

use crate::row_counts::RowCounts;
use crate::working::Working;
use sf_birth_union::BirthUnion;
use sf_chunk_map::Map;
use sf_room_map::Exchange;
use sf_sorted_map::SortedMap;
use sf_types::{Births, Mem, Name, TryCopy};
use sf_versions::Change;
use std::alloc::Global;
use std::marker::Model;
use std::mem;

/// A row's working value, with those of its births that are counted.
#[derive(Drop)]
pub struct WorkingRow {
    pub working: Working,
    pub births: Births,
}

/// Rows whose births aren't counted.
#[derive(Drop)]
pub enum Uncounted {
    /// No row.
    None,
    /// This row alone.
    Row(Name),
    /// Any rows.
    Any,
}

/// The working values of rows, seen as their map, with room for more. How often a birth stands in values that are rows' own is
/// counted, so that these births are told without a walk over the rows. A row's value that comes where no memory may be taken is
/// counted later, with the room for the next one.
#[derive(Drop)]
pub struct WorkingRows {
    rows: SortedMap<Name, WorkingRow>,
    counts: RowCounts,
    uncounted: Uncounted,
    alloc: Global,
}

impl Model for WorkingRows {
    ghost use Rattle.sf_types.specs.Rooms.{Roomy};
    ghost use Rattle.sf_types.specs.Inside.NameMaps.{NameMap};
    ghost use Rattle.sf_session_values.specs.declared.working.Working.{Working};
    ghost use Rattle.sf_session_values.specs.Inside.Counting.{AreCounted, workings};

    ghost Value = { Roomy (NameMap Working) };

    ghost view = { λ w. record { held = workings w.rows.held; spare = w.rows.spare } };

    ghost invariant = { λ w. AreCounted w.rows.held w.counts w.uncounted };
}

// Births that a row gets in exchange for those that were counted.
#[derive(Drop)]
struct CountedBirths {
    births: Births,
}

impl Exchange<WorkingRow> for CountedBirths {
    ghost given = { λ counted row. record { working = row.working; births = counted.births } };

    ghost taken = { λ counted row. record { births = row.births } };

    fn exchange(&mut self, row: &mut WorkingRow) {
        mem::swap(&mut self.births, &mut row.births);
    }
}

// The births of a row's own value. A row that has none, or whose value is its locator's, has none.
fn births_of_working(alloc: Global, working: &Working) -> Mem<Births>
    ensures { IfOk result (λ births. births ≡ births_of_working working.now) }
{
    match working {
        Working::Own(map) => map.births(),
        _ => Ok(Births::new(alloc)),
    }
}

// Whether a working value is known to have no birth of its own, without a look at its parts.
fn is_plain(working: &Working) -> bool
    ensures { result ≡ true → births_of_working working.now ≡ [] }
{
    match working {
        Working::Own(map) => map.len() == 0,
        _ => true,
    }
}

// Once a row's value that isn't plain has come, any rows may not be counted.
fn note_value(uncounted: &mut Uncounted, is_plain: bool)
    ensures { uncounted.new ≡ cond is_plain uncounted.old kind.Any }
{
    if !is_plain {
        *uncounted = Uncounted::Any;
    }
}

// One more row isn't counted.
fn note_row(uncounted: &mut Uncounted, row: Name)
    ensures { uncounted.new ≡ uncounted_with uncounted.old row }
{
    *uncounted = match mem::replace(uncounted, Uncounted::Any) {
        Uncounted::None => Uncounted::Row(row),
        _ => Uncounted::Any,
    };
}

// Takes the births of a row that are counted off their numbers.
fn uncount(counts: &mut RowCounts, rows: &SortedMap<Name, WorkingRow>, row: &Name)
    requires { AreNumbers counts.old (counted_births rows.now.held) }
    ensures { AreNumbers counts.new (counted_births (without_entry rows.now.held row.now)) }
{
    if let Some(entry) = rows.get(row) {
        counts.lower(entry.births.as_slice());
    }
}

// The entries of rows that changes make of none, and the numbers of their births.
fn counted_entries(alloc: Global, changes: Vec<Change>) -> Mem<(Vec<(Name, WorkingRow)>, RowCounts)>
    ensures entries { IfOk result (λ made. made.0.items ≡ map counted_change changes.items) }
    ensures numbers { IfOk result (λ made. AreNumbers made.1 (counted_births made.0.items)) }
{
    let mut counts = RowCounts::new(alloc);
    let mut entries = Vec::with_capacity(alloc, changes.len())?;
    for change in changes {
        let Change { name, value } = change;
        let working = Working::own(value);
        let births = births_of_working(alloc, &working)?;
        counts.raise(births.as_slice())?;
        entries.push((name, WorkingRow { working, births }))?;
    }
    Ok((entries, counts))
}

impl WorkingRows {
    /// No rows. It takes no memory.
    pub fn new(alloc: Global) -> WorkingRows
        ensures { result.held ≡ [] }
    {
        WorkingRows {
            rows: SortedMap::new(alloc),
            counts: RowCounts::new(alloc),
            uncounted: Uncounted::None,
            alloc,
        }
    }

    /// The number of rows.
    pub fn len(&self) -> usize
        ensures len { result ≡ length self.now.held }
        ensures rising { IsStrictlySortedBy name_cmp (keys_of self.now.held) }
    {
        self.rows.len()
    }

    /// The working value of a row. None exactly where it has none.
    pub fn get(&self, row: &Name) -> Option<&Working>
        ensures { option_copied result ≡ get self.now.held row.now }
    {
        match self.rows.get(row) {
            Some(entry) => Some(&entry.working),
            None => None,
        }
    }

    /// The k-th row in byte order of names, counted from 0. None exactly where there are at most k.
    pub fn entry(&self, k: usize) -> Option<(&Name, &Working)>
        ensures { option_map deref_pair result ≡ slice_get self.now.held k }
    {
        match self.rows.entry(k) {
            Some((row, entry)) => Some((row, &entry.working)),
            None => None,
        }
    }

    // Counts the births of the one row that isn't counted, where there is one. After want of memory it stays so.
    fn count_row(&mut self) -> Mem<()>
        ensures { self.new ≡ self.old }
    {
        // The names rise.
        let _count = self.rows.len();
        let Uncounted::Row(row) = &self.uncounted else {
            return Ok(());
        };
        let Some(entry) = self.rows.get(row) else {
            return Ok(());
        };
        let births = births_of_working(self.alloc, &entry.working)?;
        self.counts.raise(births.as_slice())?;
        let mut counted = CountedBirths { births };
        self.rows.exchange(row, &mut counted);
        self.uncounted = Uncounted::None;
        Ok(())
    }

    /// Makes room for so many rows more. After want of memory nothing has changed.
    pub fn make_room(&mut self, count: u64) -> Mem<()>
        ensures { MakesRoom self.old self.new count result }
    {
        // Without memory for its births the row stays uncounted.
        let _counted = self.count_row();
        self.rows.make_room(count)
    }
}

impl WorkingRows {
    /// The rows that these changes make of none. The changes' names have to rise.
    pub fn of(alloc: Global, changes: Vec<Change>) -> Mem<WorkingRows>
        requires { IsStrictlySortedBy name_cmp (keys_of changes.items) }
        ensures { IfOk result (λ rows. rows.held ≡ map (λ change. (change.0, own_value change.1)) changes.items) }
    {
        let (entries, counts) = counted_entries(alloc, changes)?;
        Ok(WorkingRows {
            rows: SortedMap::from_entries(entries),
            counts,
            uncounted: Uncounted::None,
            alloc,
        })
    }

    /// Puts a row's working value in the place of the one that it had, where there is room for what it adds. It takes no memory.
    pub fn insert_within(&mut self, row: Name, working: Working)
        requires { added_at name_cmp self.old.held row ≤ self.old.spare }
        ensures held { self.new.held ≡ with_entry self.old.held row working }
    {
        // The names rise.
        let _count = self.rows.len();
        uncount(&mut self.counts, &self.rows, &row);
        note_value(&mut self.uncounted, is_plain(&working));
        let births = Births::new(self.alloc);
        self.rows.insert_within(row, WorkingRow { working, births });
    }

    /// Gives a row that has a working value a value of its own in its place. It takes no memory.
    pub fn replace(&mut self, row: Name, map: Map)
        requires { IsSome (get self.old.held row) }
        ensures held { self.new.held ≡ with_entry self.old.held row (working.Own map) }
    {
        // The names rise.
        let _count = self.rows.len();
        uncount(&mut self.counts, &self.rows, &row);
        let births = Births::new(self.alloc);
        let working = Working::Own(map);
        self.rows.replace(&row, WorkingRow { working, births });
        note_row(&mut self.uncounted, row);
    }

    /// The births of rows' own values, but those of one row where one is named. It costs in proportion to these births. None where
    /// a row's births aren't counted.
    pub fn own_births(&self, except: Option<&Name>) -> Mem<Option<Births>>
        ensures { IfOk result (λ found. IfSome found (λ births. births ≡ rising_births (births_of_own_rows (workings_beside (option_copied except.entry) self.now.held)))) }
    {
        let Uncounted::None = self.uncounted else {
            return Ok(None);
        };
        // The names rise.
        let _count = self.rows.len();
        let mut counts = self.counts.copy()?;
        if let Some(row) = except {
            uncount(&mut counts, &self.rows, row);
        }
        Ok(Some(counts.births()?))
    }
}
