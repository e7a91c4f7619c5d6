use crate::names::row_name;
use sf_retention::{PairList, Retention, horizon};
use sf_types::Mem;
use std::alloc::Global;
use std::test::*;

// Versions of a, b and c that commits 1, 2 and 3 made, displaced by commits 4, 6 and 6. What is due at 3, at 5 and at 6, and at 6
// once the first note is done.
fn due_versions(alloc: Global) -> Mem<[PairList; 4]> {
    let mut retention = Retention::new(alloc)?;
    retention.make_room(1)?;
    retention.note(row_name(alloc, b"a")?, 1, 4)?;
    retention.note(row_name(alloc, b"b")?, 2, 6)?;
    retention.note(row_name(alloc, b"c")?, 3, 6)?;
    let at_3 = retention.due(3)?;
    let at_5 = retention.due(5)?;
    let at_6 = retention.due(6)?;
    retention.done(1);
    Ok([at_3, at_5, at_6, retention.due(6)?])
}

#[test]
fn versions_are_due_at_their_floor(rt: HostRuntime) -> Result<(), Fail> {
    let expected: [&[(&[u8], u64)]; 4] = [
        &[],
        &[(b"a", 1)],
        &[(b"a", 1), (b"b", 2), (b"c", 3)],
        &[(b"b", 2), (b"c", 3)],
    ];
    for (due, pairs) in due_versions(rt.alloc())?.iter().zip(expected) {
        assert_eq!(rt; due.len(), pairs.len());
        for (pair, (name, from)) in due.as_slice().iter().zip(pairs) {
            assert_eq!(rt; pair.name.as_bytes(), *name);
            assert_eq!(rt; pair.from, *from);
        }
    }
    Ok(())
}

#[test]
fn the_horizon_is_never_below_0(rt: HostRuntime) {
    assert_eq!(rt; horizon(7, 3), 4);
    assert_eq!(rt; horizon(2, 3), 0);
}
