//! The versions of all rows by their places: looked up, added and taken out.
ghost use Rattle.std.specs.Prelude.{◌≡◌, ℕ, ◌+◌, ◌≤◌, ◌<◌, ◌^◌, ◌-◌, length, All, IsSome, T};
ghost use Rattle.std.specs.Option.{option_copied};
ghost use Rattle.std.specs.FinMap.Entries.{is_sorted};
ghost use Rattle.sf_room_map.specs.Entries.{value_for};
ghost use Rattle.sf_versions.specs.VersionTables.{versions_of, with_version, with_versions};
ghost use Rattle.sf_versions.specs.Inside.VersionOrder.{key_cmp};
ghost use Rattle.sf_versions.specs.Inside.Spans.{AreSpans, CountsUpTo, TakesOut, key_at, rows_in, span_for, version_at};

use crate::change::{Change, ChangeList};
use crate::key::VersionKey;
use crate::span::Span;
use crate::version::Version;
use sf_chunk_map::Map;
use sf_room_map::RoomMap;
use sf_sorted_map::SortedMap;
use sf_types::Name;

/// The versions of all rows by their places.
pub type VersionMap = RoomMap<VersionKey, Version>;

/// The spans of the rows by name.
pub type SpanMap = SortedMap<Name, Span>;

/// The number of the commit that made the version at a rank of a row.
pub fn number_at(versions: &VersionMap, row: u64, rank: u64) -> u64
    ensures { result ≡ (version_at versions.now.held row rank).0 }
{
    match versions.get(&VersionKey { row, rank }) {
        Some(version) => version.number,
        None => 0,
    }
}

/// The value of the version at a rank of a row.
pub fn value_at(versions: &VersionMap, row: u64, rank: u64) -> Option<&Map>
    ensures { option_copied result ≡ (version_at versions.now.held row rank).1 }
{
    match versions.get(&VersionKey { row, rank }) {
        Some(version) => version.value.as_ref(),
        None => None,
    }
}

/// How many of a row's versions commits up to a number made. It takes time in proportion to the logarithm of their number.
pub fn count_up_to(versions: &VersionMap, span: Span, number: u64) -> u64
    requires { span.first + span.count < 2 ^ 64 }
    ensures { CountsUpTo versions.now.held span number result }
{
    let mut low = 0;
    let mut high = span.count;
    while low < high {
        let middle = low + (high - low) / 2;
        if number_at(versions, span.row, span.first + middle) <= number {
            low = middle + 1;
        } else {
            high = middle;
        }
    }
    low
}

/// The span of a row. A new row has the next number and no versions yet.
pub fn span_of(spans: &SpanMap, name: &Name) -> Span
    ensures { result ≡ span_for spans.now.held name.now }
{
    match spans.get(name) {
        Some(span) => *span,
        None => Span {
            row: spans.len() as u64,
            first: 0,
            count: 0,
        },
    }
}

/// Adds the version that a commit makes of a row. It takes no memory.
pub fn add_version(spans: &mut SpanMap, versions: &mut VersionMap, number: u64, change: Change)
    requires spans { AreSpans number spans.old.held versions.old.held }
    requires later { All (λ v. v.0 < number) (versions_of (rows_in versions.old.held spans.old.held) change.0) }
    requires counted { 1 ≤ number }
    requires spans_room { 1 ≤ spans.old.spare }
    requires versions_room { 1 ≤ versions.old.spare }
    ensures spans { AreSpans number spans.new.held versions.new.held }
    ensures rows { rows_in versions.new.held spans.new.held ≡ with_version (rows_in versions.old.held spans.old.held) number change }
    ensures spans_spare { spans.old.spare ≤ spans.new.spare + 1 }
    ensures versions_spare { versions.old.spare ≤ versions.new.spare + 1 }
{
    let Change { name, value } = change;
    let span = span_of(spans, &name);
    let rank = span.first + span.count;
    let longer = Span {
        row: span.row,
        first: span.first,
        count: span.count + 1,
    };
    versions.insert_within(
        VersionKey {
            row: span.row,
            rank,
        },
        Version { number, value },
    );
    spans.insert_within(name, longer);
}

/// Adds the versions that a commit makes. It takes no memory.
pub fn add_versions(
    spans: &mut SpanMap,
    versions: &mut VersionMap,
    number: u64,
    changes: ChangeList,
)
    requires spans { AreSpans (number - 1) spans.old.held versions.old.held }
    requires counted { 1 ≤ number }
    requires spans_room { length changes ≤ spans.old.spare }
    requires versions_room { length changes ≤ versions.old.spare }
    ensures spans { AreSpans number spans.new.held versions.new.held }
    ensures rows { rows_in versions.new.held spans.new.held ≡ with_versions (rows_in versions.old.held spans.old.held) number changes }
    ensures spans_spare { spans.old.spare ≤ spans.new.spare + length changes }
    ensures versions_spare { versions.old.spare ≤ versions.new.spare + length changes }
{
    let mut rest = changes.into_vec();
    while let Some(change) = rest.pop() {
        add_version(spans, versions, number, change);
    }
}

/// Takes the version at a rank of a row out. Those before it, from the first on, move to the next ranks. It takes no memory.
pub fn take_out(versions: &mut VersionMap, row: u64, first: u64, taken: u64)
    requires filled { (rank : ℕ) → first ≤ rank → rank ≤ taken → IsSome (value_for key_cmp versions.old.held (key_at row rank)) }
    requires ordered { T (is_sorted key_cmp versions.old.held) }
    requires within { first ≤ taken }
    ensures taken { TakesOut versions.old.held versions.new.held row first taken }
    ensures spare { versions.old.spare ≤ versions.new.spare }
{
    let Some(mut moved) = versions.remove(&VersionKey { row, rank: first }) else {
        return;
    };
    let mut rank = first;
    while rank < taken {
        rank += 1;
        moved = versions.replace(&VersionKey { row, rank }, moved);
    }
}
