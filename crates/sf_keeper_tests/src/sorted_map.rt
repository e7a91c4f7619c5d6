ghost use Rattle.std.specs.Prelude.{◌/◌};

use sf_room_map::Change;
use sf_sorted_map::SortedMap;
use sf_types::Mem;
use std::alloc::Global;
use std::test::*;

// A third of a number, rounded down.
struct Third;

impl Change<u16> for Third {
    ghost changed = { λ third value. value / 3 };

    fn change(&self, value: &mut u16) {
        *value /= 3;
    }
}

// The entries, in their order.
fn entries(alloc: Global, map: &SortedMap<u64, u16>) -> Mem<Vec<(u64, u16)>> {
    let mut entries = Vec::new(alloc);
    for k in 0..map.len() {
        if let Some((key, value)) = map.entry(k) {
            entries.push((*key, *value))?;
        }
    }
    Ok(entries)
}

#[test]
fn entries_stand_in_order(rt: HostRuntime) -> Result<(), Fail> {
    let alloc = rt.alloc();
    let mut map = SortedMap::new(alloc);
    map.make_room(2)?;
    for (key, value) in [(5, 50), (3, 30), (9, 90), (3, 31)] {
        map.insert(key, value)?;
    }
    assert_eq!(rt;
        entries(alloc, &map)?.as_slice(),
        [(3, 31), (5, 50), (9, 90)].as_slice()
    );
    assert_eq!(rt; map.get(&5).copied(), Some(50));
    assert_eq!(rt; map.get(&4).copied(), None);
    assert_eq!(rt; map.at_most(&8).map(|(key, _)| *key), Some(5));
    assert_eq!(rt; map.at_most(&2).map(|(key, _)| *key), None);
    map.change_values(&Third);
    assert_eq!(rt; map.remove(&5), Some(16));
    assert_eq!(rt; map.remove(&5), None);
    assert_eq!(rt;
        entries(alloc, &map)?.as_slice(),
        [(3, 10), (9, 30)].as_slice()
    );
    Ok(())
}
