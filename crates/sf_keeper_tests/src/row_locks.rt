use crate::names::row_name;
use sf_row_locks::RowLocks;
use sf_types::Mem;
use std::alloc::Global;
use std::test::*;

// Session 1 takes a and b, and session 2 takes c.
fn three_locks(alloc: Global) -> Mem<RowLocks> {
    let mut locks = RowLocks::new(alloc)?;
    locks.make_room(2)?;
    for (text, session) in [(b"a", 1), (b"b", 1), (b"c", 2)] {
        locks.take(row_name(alloc, text)?, session)?;
    }
    Ok(locks)
}

// Who holds a, b and c.
fn holders(alloc: Global, locks: &RowLocks) -> Mem<[Option<u16>; 3]> {
    Ok([
        locks.holder(&row_name(alloc, b"a")?),
        locks.holder(&row_name(alloc, b"b")?),
        locks.holder(&row_name(alloc, b"c")?),
    ])
}

#[test]
fn one_session_holds_a_row(rt: HostRuntime) -> Result<(), Fail> {
    let alloc = rt.alloc();
    let mut locks = three_locks(alloc)?;
    assert_eq!(rt; holders(alloc, &locks)?, [Some(1), Some(1), Some(2)]);
    assert!(rt; !locks.take(row_name(alloc, b"a")?, 2)?);
    assert!(rt; locks.take(row_name(alloc, b"a")?, 1)?);
    assert_eq!(rt; holders(alloc, &locks)?, [Some(1), Some(1), Some(2)]);
    Ok(())
}

#[test]
fn locks_are_released(rt: HostRuntime) -> Result<(), Fail> {
    let alloc = rt.alloc();
    let mut locks = three_locks(alloc)?;
    locks.release(&row_name(alloc, b"a")?, 2);
    locks.release(&row_name(alloc, b"c")?, 2);
    assert_eq!(rt; holders(alloc, &locks)?, [Some(1), Some(1), None]);
    assert!(rt; locks.take(row_name(alloc, b"c")?, 1)?);
    locks.release(&row_name(alloc, b"a")?, 1);
    assert!(rt; locks.take(row_name(alloc, b"a")?, 2)?);
    locks.release_all(1);
    assert_eq!(rt; holders(alloc, &locks)?, [Some(2), None, None]);
    Ok(())
}
