use crate::names::{locator_name, row_name};
use sf_chunk_map::Map;
use sf_locators::{Locator, Locators};
use sf_types::{Blob, Fault, Mem, TryCopy};
use std::alloc::Global;
use std::test::*;

// A locator of row r with a value of five bytes, of transaction 7.
fn locator(alloc: Global, epoch: u64, dirty: bool) -> Mem<Locator> {
    Ok(Locator {
        row: row_name(alloc, b"r")?,
        map: Map::of_blob(alloc, Blob::new(alloc, b"abcde")?)?,
        txn: 7,
        epoch,
        dirty,
        lost: false,
        read_only: false,
    })
}

// Locators c, a and b: a is clean, and b and c are dirty since epochs 1 and 2.
fn three_locators(alloc: Global) -> Mem<Locators> {
    let mut locators = Locators::new(alloc);
    locators.make_room(2)?;
    for (text, epoch, dirty) in [(b"c", 2, true), (b"a", 2, false), (b"b", 1, true)] {
        let name = locator_name(alloc, text)?;
        if locators.has_room(&name) {
            locators.set(name, locator(alloc, epoch, dirty)?)?;
        }
    }
    Ok(locators)
}

// Of each locator in the order of names: its name's first byte, its value's length, and whether it is dirty and lost.
fn states(alloc: Global, locators: &Locators) -> Mem<Vec<(u8, u64, bool, bool)>> {
    let mut states = Vec::new(alloc);
    for k in 0..locators.len() {
        if let Some((name, locator)) = locators.entry(k) {
            let text = name.as_bytes();
            states.push((text[0], locator.map.len(), locator.dirty, locator.lost))?;
        }
    }
    Ok(states)
}

#[test]
fn locators_are_set_and_freed(rt: HostRuntime) -> Result<(), Fail> {
    let alloc = rt.alloc();
    let mut locators = three_locators(alloc)?;
    assert_eq!(rt;
        states(alloc, &locators)?.as_slice(),
        [
            (b'a', 5, false, false),
            (b'b', 5, true, false),
            (b'c', 5, true, false)
        ]
        .as_slice()
    );
    assert!(rt; locators.free(&locator_name(alloc, b"b")?));
    assert!(rt; !locators.free(&locator_name(alloc, b"b")?));
    let name = locator_name(alloc, b"c")?;
    if locators.has_room(&name) {
        let copy = locator(alloc, 9, false)?.copy()?;
        locators.set(name, copy)?;
    }
    assert_eq!(rt;
        states(alloc, &locators)?.as_slice(),
        [(b'a', 5, false, false), (b'c', 5, false, false)].as_slice()
    );
    Ok(())
}

#[test]
fn writes_are_refused(rt: HostRuntime) -> Result<(), Fail> {
    let alloc = rt.alloc();
    let mut locators = three_locators(alloc)?;
    let clean = locator_name(alloc, b"a")?;
    let dirty = locator_name(alloc, b"b")?;
    let absent = locator_name(alloc, b"d")?;
    assert_eq!(rt;
        locators.check_write(&absent, 7, true),
        Some(Fault::UnknownLocator)
    );
    assert_eq!(rt; locators.check_write(&clean, 7, true), None);
    assert_eq!(rt;
        locators.check_write(&clean, 7, false),
        Some(Fault::RowNotLocked)
    );
    assert_eq!(rt;
        locators.check_write(&clean, 8, false),
        Some(Fault::SpansTransactions)
    );
    locators.rolled_back();
    assert_eq!(rt; locators.check_write(&dirty, 8, false), Some(Fault::Lost));
    Ok(())
}

#[test]
fn transactions_end(rt: HostRuntime) -> Result<(), Fail> {
    let alloc = rt.alloc();
    let mut locators = three_locators(alloc)?;
    locators.rolled_back_to(2);
    assert_eq!(rt;
        states(alloc, &locators)?.as_slice(),
        [
            (b'a', 5, false, false),
            (b'b', 5, true, false),
            (b'c', 0, true, true)
        ]
        .as_slice()
    );
    locators.committed();
    locators.rolled_back();
    assert_eq!(rt;
        states(alloc, &locators)?.as_slice(),
        [
            (b'a', 5, false, false),
            (b'b', 5, false, false),
            (b'c', 0, false, true)
        ]
        .as_slice()
    );
    Ok(())
}
