//! The versions of all rows.
ghost use Rattle.std.specs.Prelude.{◌≡◌, ◌+◌, ◌-◌, ◌≤◌, ◌<◌, ◌^◌, length, slice_get, IfOk, OnOk};
ghost use Rattle.std.specs.List.Sorted.{IsStrictlySortedBy};
ghost use Rattle.std.specs.Map.{keys_of};
ghost use Rattle.std.specs.Option.{option_copied, option_map};
ghost use Rattle.sf_types.specs.Rooms.{MakesRoom, GrowsWithin};
ghost use Rattle.sf_types.specs.Table.Versions.{value_or_absent};
ghost use Rattle.sf_types.specs.Values.Names.{name_cmp};
ghost use Rattle.sf_versions.specs.RowChanges.{change_up_to, last_number, last_value};
ghost use Rattle.sf_versions.specs.VersionTables.{no_versions, versions_of, after_commit, without_version, IsDisplaced};
ghost use Rattle.sf_versions.specs.Inside.Spans.{current_row};

use crate::change::{Change, ChangeList};
use crate::places::{
    SpanMap, VersionMap, add_versions, count_up_to, number_at, take_out, value_at,
};
use crate::span::Span;
use sf_chunk_map::Map;
use sf_room_map::RoomMap;
use sf_sorted_map::SortedMap;
use sf_types::{Mem, Name};
use std::alloc::Global;
use std::marker::Model;

/// The versions of all rows, with room for more. They are seen as the number of commits and, by name, the list of versions of
/// each row that a commit names: each has the number of the commit that made it and the row's value since then, None where it
/// was made absent. The numbers of a row's versions rise.
#[derive(Drop)]
pub struct Versions {
    commits: u64,
    spans: SpanMap,
    versions: VersionMap,
}

impl Model for Versions {
    ghost use Rattle.std.specs.Prelude.{◌<◌, ◌^◌, min};
    ghost use Rattle.sf_types.specs.Rooms.{Roomy};
    ghost use Rattle.sf_versions.specs.VersionTables.{VersionTable};
    ghost use Rattle.sf_versions.specs.Inside.Spans.{AreSpans, rows_in};

    ghost Value = { Roomy VersionTable };

    ghost view = { λ v. record {
      held = record { now = v.commits; rows = rows_in v.versions.held v.spans.held };
      spare = min v.spans.spare v.versions.spare;
    } };

    ghost invariant = { λ v. (v.commits < 2 ^ 64) × AreSpans v.commits v.spans.held v.versions.held };
}

impl Versions {
    /// No commits. It takes no memory.
    pub fn new(alloc: Global) -> Versions
        ensures { result.held ≡ no_versions }
    {
        Versions {
            commits: 0,
            spans: SortedMap::new(alloc),
            versions: RoomMap::new(alloc),
        }
    }

    /// Makes room for so many rows of commits more, which `commit` then takes without memory.
    pub fn make_room(&mut self, rows: u64) -> Mem<()>
        ensures { MakesRoom self.old self.new rows result }
    {
        self.spans.make_room(rows)?;
        self.versions.make_room(rows)
    }

    /// The number of commits.
    pub fn now(&self) -> u64
        ensures { result ≡ self.now.held.now }
    {
        self.commits
    }

    /// Makes a commit, and answers the new number of commits. Each row that it names gets a version, and no other row. After
    /// want of memory nothing has changed. It takes time in proportion to its changes, but that the names behind a new row move.
    pub fn commit(&mut self, changes: ChangeList) -> Mem<u64>
        requires { self.old.held.now < 2 ^ 64 - 1 }
        ensures now { IfOk result (λ now. now ≡ self.old.held.now + 1) }
        ensures held { OnOk result (self.new.held ≡ after_commit self.old.held changes) }
        ensures room { GrowsWithin self.old self.new (length changes) (length changes) result }
    {
        self.make_room(changes.len() as u64)?;
        let number = self.commits + 1;
        add_versions(&mut self.spans, &mut self.versions, number, changes);
        self.commits = number;
        Ok(number)
    }

    /// The value of a row. None exactly where the row is absent.
    pub fn current(&self, name: &Name) -> Option<&Map>
        ensures { option_copied result ≡ last_value (versions_of self.now.held.rows name.now) }
    {
        let Some(span) = self.spans.get(name) else {
            return None;
        };
        value_at(&self.versions, span.row, span.first + span.count - 1)
    }

    /// The value of a row after so many commits: that of the last version that one of them made. None exactly where the row is
    /// absent then. It takes time in proportion to the logarithm of the number of the row's versions.
    pub fn at(&self, name: &Name, commits: u64) -> Option<&Map>
        ensures { option_copied result ≡ value_or_absent (change_up_to (versions_of self.now.held.rows name.now) commits) }
    {
        let Some(span) = self.spans.get(name) else {
            return None;
        };
        let count = count_up_to(&self.versions, *span, commits);
        if count == 0 {
            return None;
        }
        value_at(&self.versions, span.row, span.first + count - 1)
    }

    /// The number of the last commit that names a row. None exactly where none does.
    pub fn last(&self, name: &Name) -> Option<u64>
        ensures { result ≡ last_number (versions_of self.now.held.rows name.now) }
    {
        let Some(span) = self.spans.get(name) else {
            return None;
        };
        Some(number_at(&self.versions, span.row, span.first + span.count - 1))
    }

    /// The number of rows that a commit names, whose names rise in byte order.
    pub fn len(&self) -> usize
        ensures len { result ≡ length self.now.held.rows }
        ensures rising { IsStrictlySortedBy name_cmp (keys_of self.now.held.rows) }
    {
        self.spans.len()
    }

    /// The k-th row that a commit names, in byte order of names and counted from 0, and its value, None where it is absent. None
    /// exactly where there are at most k.
    pub fn row(&self, k: usize) -> Option<(&Name, Option<&Map>)>
        ensures { option_map current_row result ≡ option_map (λ row. (row.0, last_value row.1)) (slice_get self.now.held.rows k) }
    {
        let Some((name, span)) = self.spans.entry(k) else {
            return None;
        };
        Some((
            name,
            value_at(&self.versions, span.row, span.first + span.count - 1),
        ))
    }

    /// Drops the version that a commit made of a row, where a later one has displaced it. The row's versions before it move, so
    /// that it takes time in proportion to their number; of the oldest one none does. It takes no memory.
    pub fn forget(&mut self, name: &Name, number: u64)
        requires { IsDisplaced self.old.held.rows name.now number }
        ensures held { self.new.held ≡ without_version self.old.held name.now number }
        ensures spare { self.old.spare ≤ self.new.spare }
    {
        let Some(span) = self.spans.get(name) else {
            return;
        };
        let span = *span;
        let taken = span.first + count_up_to(&self.versions, span, number) - 1;
        take_out(&mut self.versions, span.row, span.first, taken);
        self.spans.replace(
            name,
            Span {
                row: span.row,
                first: span.first + 1,
                count: span.count - 1,
            },
        );
    }
}
