ghost use Rattle.std.specs.Prelude.{◌≡◌, ◌-◌, ◌<◌, ◌^◌, [], ◌∷◌, OnOk};
ghost use Rattle.sf_versions.specs.VersionTables.{after_commit};

use crate::names::row_name;
use sf_chunk_map::Map;
use sf_types::{Mem, Name, TryCopy};
use sf_versions::{Change, ChangeList, Versions};
use std::alloc::Global;
use std::cmp::Ordering;
use std::test::*;

// So many zero bytes, or none for an absent row.
fn zeros(alloc: Global, len: Option<u64>) -> Mem<Option<Map>> {
    match len {
        Some(len) => Ok(Some(Map::zeros(alloc, len.min(100_000))?)),
        None => Ok(None),
    }
}

// Makes a commit of one row.
fn commit(alloc: Global, versions: &mut Versions, name: Name, value: Option<Map>) -> Mem<()>
    requires { versions.old.held.now < 2 ^ 64 - 1 }
    ensures { OnOk result (versions.new.held ≡ after_commit versions.old.held ((name, value) ∷ [])) }
{
    let mut changes = ChangeList::new(alloc);
    changes.push(Change { name, value })?;
    versions.commit(changes)?;
    Ok(())
}

// Makes a commit of one row, which gets so many zero bytes or is made absent.
fn commit_row(alloc: Global, versions: &mut Versions, name: Name, len: Option<u64>) -> Mem<()> {
    let value = zeros(alloc, len)?;
    if versions.now() < u64::MAX {
        commit(alloc, versions, name, value)?;
    }
    Ok(())
}

// Row b is made, then row a; b is made absent, and then made again.
fn four_commits(alloc: Global) -> Mem<Versions> {
    let mut versions = Versions::new(alloc);
    versions.make_room(2)?;
    for (text, len) in [
        (b"b", Some(5)),
        (b"a", Some(3)),
        (b"b", None),
        (b"b", Some(2)),
    ] {
        let name = row_name(alloc, text)?;
        commit_row(alloc, &mut versions, name, len)?;
    }
    Ok(versions)
}

// A row's length after 0 to 5 commits.
fn lengths(versions: &Versions, name: &Name) -> [Option<u64>; 6] {
    [
        versions.at(name, 0).map(|map| map.len()),
        versions.at(name, 1).map(|map| map.len()),
        versions.at(name, 2).map(|map| map.len()),
        versions.at(name, 3).map(|map| map.len()),
        versions.at(name, 4).map(|map| map.len()),
        versions.at(name, 5).map(|map| map.len()),
    ]
}

// The first byte of each row's name and the row's length, in order.
fn listed_rows(alloc: Global, versions: &Versions) -> Mem<Vec<(u8, Option<u64>)>> {
    let mut rows = Vec::new(alloc);
    for k in 0..3 {
        if let Some((name, value)) = versions.row(k) {
            rows.push((name.as_bytes()[0], value.map(|map| map.len())))?;
        }
    }
    Ok(rows)
}

#[test]
fn a_row_is_found_by_commits(rt: HostRuntime) -> Result<(), Fail> {
    let versions = four_commits(rt.alloc())?;
    assert_eq!(rt;
        lengths(&versions, &row_name(rt.alloc(), b"b")?),
        [None, Some(5), Some(5), None, Some(2), Some(2)]
    );
    Ok(())
}

#[test]
fn a_row_made_later_is_found_by_commits(rt: HostRuntime) -> Result<(), Fail> {
    let versions = four_commits(rt.alloc())?;
    assert_eq!(rt;
        lengths(&versions, &row_name(rt.alloc(), b"a")?),
        [None, None, Some(3), Some(3), Some(3), Some(3)]
    );
    Ok(())
}

#[test]
fn rows_are_listed_by_name(rt: HostRuntime) -> Result<(), Fail> {
    let versions = four_commits(rt.alloc())?;
    assert_eq!(rt;
        listed_rows(rt.alloc(), &versions)?.as_slice(),
        [(b'a', Some(3)), (b'b', Some(2))].as_slice()
    );
    Ok(())
}

// The numbers of the last commits that name a, b and c.
fn last_commits(alloc: Global, versions: &Versions) -> Mem<[Option<u64>; 3]> {
    Ok([
        versions.last(&row_name(alloc, b"a")?),
        versions.last(&row_name(alloc, b"b")?),
        versions.last(&row_name(alloc, b"c")?),
    ])
}

#[test]
fn rows_tell_their_last_commits(rt: HostRuntime) -> Result<(), Fail> {
    let versions = four_commits(rt.alloc())?;
    assert_eq!(rt; versions.now(), 4);
    assert_eq!(rt;
        last_commits(rt.alloc(), &versions)?,
        [Some(2), Some(4), None]
    );
    Ok(())
}

// The lengths of rows a, b and c after the last commit.
fn current_lengths(alloc: Global, versions: &Versions) -> Mem<[Option<u64>; 3]> {
    Ok([
        versions
            .current(&row_name(alloc, b"a")?)
            .map(|map| map.len()),
        versions
            .current(&row_name(alloc, b"b")?)
            .map(|map| map.len()),
        versions
            .current(&row_name(alloc, b"c")?)
            .map(|map| map.len()),
    ])
}

#[test]
fn rows_have_current_values(rt: HostRuntime) -> Result<(), Fail> {
    let versions = four_commits(rt.alloc())?;
    assert_eq!(rt;
        current_lengths(rt.alloc(), &versions)?,
        [Some(3), Some(2), None]
    );
    Ok(())
}

// Changes of two rows, of which the second counts only where its name comes behind the first one's.
fn two_changes(alloc: Global, first: Change, second: Change) -> Mem<ChangeList> {
    let mut changes = ChangeList::new(alloc);
    let order = first.name.cmp(&second.name);
    changes.push(first)?;
    if order == Ordering::Less {
        changes.push(second)?;
    }
    Ok(changes)
}

// Rows a and b, which one commit made.
fn one_commit(alloc: Global) -> Mem<Versions> {
    let a = Change {
        name: row_name(alloc, b"a")?,
        value: zeros(alloc, Some(3))?,
    };
    let b = Change {
        name: row_name(alloc, b"b")?,
        value: zeros(alloc, Some(5))?,
    };
    let mut versions = Versions::new(alloc);
    versions.commit(two_changes(alloc, a, b)?)?;
    Ok(versions)
}

#[test]
fn a_commit_names_several_rows(rt: HostRuntime) -> Result<(), Fail> {
    let versions = one_commit(rt.alloc())?;
    assert_eq!(rt;
        last_commits(rt.alloc(), &versions)?,
        [Some(1), Some(1), None]
    );
    assert_eq!(rt;
        current_lengths(rt.alloc(), &versions)?,
        [Some(3), Some(5), None]
    );
    Ok(())
}

// Row a after two commits, of which the version of the first is forgotten.
fn forgotten(alloc: Global, name: &Name) -> Mem<Versions> {
    let mut versions = Versions::new(alloc);
    let first = zeros(alloc, Some(3))?;
    let second = zeros(alloc, Some(2))?;
    commit(alloc, &mut versions, name.copy()?, first)?;
    commit(alloc, &mut versions, name.copy()?, second)?;
    versions.forget(name, 1);
    Ok(versions)
}

#[test]
fn displaced_versions_are_forgotten(rt: HostRuntime) -> Result<(), Fail> {
    let name = row_name(rt.alloc(), b"a")?;
    let versions = forgotten(rt.alloc(), &name)?;
    assert_eq!(rt;
        lengths(&versions, &name),
        [None, None, Some(2), Some(2), Some(2), Some(2)]
    );
    Ok(())
}

// A name of four digits.
fn numbered_name(alloc: Global, number: u32) -> Mem<Name> {
    row_name(
        alloc,
        &[
            b'0' + (number / 1_000 % 10) as u8,
            b'0' + (number / 100 % 10) as u8,
            b'0' + (number / 10 % 10) as u8,
            b'0' + (number % 10) as u8,
        ],
    )
}

// The rows from 0 to 4,999 in turn, in 20,000 commits, each with its own length.
fn many_commits(alloc: Global) -> Mem<Versions> {
    let mut versions = Versions::new(alloc);
    for number in 0..20_000u32 {
        let name = numbered_name(alloc, number % 5_000)?;
        commit_row(alloc, &mut versions, name, Some(u64::from(number)))?;
    }
    Ok(versions)
}

// How many rows from the first on have the lengths that the last commits gave them.
fn right_rows(versions: &Versions) -> usize {
    for k in 0..5_001 {
        match versions.row(k) {
            Some((_, Some(map))) if map.len() == 15_000 + k as u64 => {}
            _ => return k,
        }
    }
    5_001
}

#[test]
fn many_commits_are_listed(rt: HostRuntime) -> Result<(), Fail> {
    let versions = many_commits(rt.alloc())?;
    assert_eq!(rt; versions.now(), 20_000);
    assert_eq!(rt; right_rows(&versions), 5_000);
    Ok(())
}
