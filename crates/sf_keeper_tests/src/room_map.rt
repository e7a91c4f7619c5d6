ghost use Rattle.std.specs.Prelude.{◌/◌};

use crate::names::row_name;
use sf_room_map::{Change, Exchange, RoomMap};
use sf_types::{Mem, Name};
use std::alloc::Global;
use std::mem;
use std::test::*;

// The rows b and a, the one put with room and the other without.
fn two_rows(alloc: Global) -> Mem<RoomMap<Name, u64>> {
    let mut rows = RoomMap::new(alloc);
    rows.make_room(1)?;
    rows.insert(row_name(alloc, b"b")?, 2)?;
    rows.insert(row_name(alloc, b"a")?, 1)?;
    Ok(rows)
}

#[test]
fn lists_in_the_order_of_keys(rt: HostRuntime) -> Result<(), Fail> {
    let rows = two_rows(rt.alloc())?;
    let expected = [(b"a", 1), (b"b", 2)];
    let entries = rows.entries()?;
    assert_eq!(rt; entries.len(), expected.len());
    for (entry, (name, value)) in entries.iter().zip(expected) {
        assert_eq!(rt; entry.0.as_bytes(), name.as_slice());
        assert_eq!(rt; *entry.1, value);
    }
    Ok(())
}

// Half of a number, rounded down.
struct Half;

impl Change<u64> for Half {
    ghost changed = { λ half value. value / 2 };

    fn change(&self, value: &mut u64) {
        *value /= 2;
    }
}

#[test]
fn changes_every_value(rt: HostRuntime) -> Result<(), Fail> {
    let alloc = rt.alloc();
    let mut rows = two_rows(alloc)?;
    rows.change_values(&Half);
    assert_eq!(rt; rows.get(&row_name(alloc, b"a")?).copied(), Some(0));
    assert_eq!(rt; rows.get(&row_name(alloc, b"b")?).copied(), Some(1));
    Ok(())
}

// A number that is put in place of another, which is taken.
#[derive(Drop)]
struct Taken {
    number: u64,
}

impl Exchange<u64> for Taken {
    ghost given = { λ taken value. taken.number };

    ghost taken = { λ taken value. record { number = value } };

    fn exchange(&mut self, value: &mut u64) {
        mem::swap(&mut self.number, value);
    }
}

#[test]
fn exchanges_a_value(rt: HostRuntime) -> Result<(), Fail> {
    let alloc = rt.alloc();
    let mut rows = two_rows(alloc)?;
    let a = row_name(alloc, b"a")?;
    let mut other = Taken { number: 9 };
    if rows.contains_key(&a) {
        rows.exchange(&a, &mut other);
    }
    assert_eq!(rt; other.number, 1);
    assert_eq!(rt; rows.get(&a).copied(), Some(9));
    Ok(())
}

#[test]
fn puts_and_takes_out(rt: HostRuntime) -> Result<(), Fail> {
    let alloc = rt.alloc();
    let mut rows = two_rows(alloc)?;
    let a = row_name(alloc, b"a")?;
    assert_eq!(rt; rows.insert(row_name(alloc, b"a")?, 7)?, Some(1));
    assert_eq!(rt; rows.insert(row_name(alloc, b"c")?, 3)?, None);
    assert_eq!(rt; rows.get(&a).copied(), Some(7));
    assert_eq!(rt; rows.remove(&a), Some(7));
    assert_eq!(rt; rows.remove(&a), None);
    assert_eq!(rt; rows.len(), 2);
    Ok(())
}
