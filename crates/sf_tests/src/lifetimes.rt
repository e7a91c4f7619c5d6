ghost use Rattle.std.specs.Prelude.{◌≡◌, [], ◌∷◌, IfOk, OnOk, IsSome};
ghost use Rattle.std.specs.FinMap as fin;
ghost use Rattle.sf_tests.specs.Ledgers as example;

use sf_lifetimes::{Ledger, UnheldPlaces};
use sf_shrink::plan;
use sf_types::{
    BirthRunsList, Births, ContentRuns, Holder, HolderList, Mem, Name, OutOfMemory, Run,
};
use std::alloc::Global;
use std::test::*;

// One run of one block.
fn one_block(alloc: Global, first: u32) -> Mem<ContentRuns>
    ensures { IfOk result (λ runs. runs ≡ example.single_block first) }
{
    let mut runs = ContentRuns::new(alloc);
    runs.push(Run { first, blocks: 1 })?;
    Ok(runs)
}

// Birth 1 at the block 4, and birth 2 at the block 1.
fn two_places(alloc: Global) -> Mem<Ledger>
    ensures places { IfOk result (λ ledger. ledger.held.places ≡ example.two_places) }
    ensures holdings { IfOk result (λ ledger. ledger.held.holdings ≡ fin.empty) }
{
    let mut ledger = Ledger::new(alloc)?;
    ledger.make_room(2)?;
    ledger.place(1, one_block(alloc, 4)?)?;
    ledger.place(2, one_block(alloc, 1)?)?;
    Ok(ledger)
}

// The first holder holds both births.
fn hold_both(alloc: Global, ledger: &mut Ledger, holder: Holder, into: &mut UnheldPlaces) -> Mem<()>
    requires places { ledger.old.held.places ≡ example.two_places }
    requires holdings { ledger.old.held.holdings ≡ fin.empty }
    ensures { OnOk result (example.HoldsBoth ledger.new.held holder) }
{
    let mut births = Births::new(alloc);
    births.push(1)?;
    births.push(2)?;
    ledger.hold(holder, births, into)?;
    Ok(())
}

// A second holder holds one of them.
fn hold_one(
    alloc: Global,
    ledger: &mut Ledger,
    holder: Holder,
    birth: u128,
    into: &mut UnheldPlaces,
) -> Mem<()>
    requires { IsSome (fin.get ledger.old.held.places birth) }
{
    let mut births = Births::new(alloc);
    births.push(birth)?;
    ledger.hold(holder, births, into)?;
    Ok(())
}

// The version of row a that commit 1 made.
fn version_of_a(alloc: Global) -> Mem<Holder> {
    match Name::new(alloc, b"a")? {
        Some(name) => Ok(Holder::Version(name, 1)),
        None => Err(OutOfMemory),
    }
}

// The lengths of `into` after each call, the number of holders of birth 1, and what is left.
fn by_counts(alloc: Global, into: &mut UnheldPlaces) -> Mem<([usize; 4], u64, bool, u64)> {
    let mut ledger = two_places(alloc)?;
    hold_both(alloc, &mut ledger, Holder::Session(1), into)?;
    let first = into.len();
    hold_one(alloc, &mut ledger, version_of_a(alloc)?, 1, into)?;
    let second = into.len();
    ledger.hold(Holder::Session(1), Births::new(alloc), into)?;
    let third = into.len();
    let holders = ledger.holders_of(1);
    ledger.drop_holder(&version_of_a(alloc)?, into)?;
    let lengths = [first, second, third, into.len()];
    Ok((
        lengths,
        holders,
        ledger.place_of(1).is_none(),
        ledger.live_blocks(),
    ))
}

#[test]
fn ledger_by_counts(rt: HostRuntime) -> Result<(), Fail> {
    let mut into = UnheldPlaces::new(rt.alloc());
    let (lengths, holders, gone, live) = by_counts(rt.alloc(), &mut into).ok().ok_or("memory")?;
    assert_eq!(rt; lengths, [0, 0, 1, 2]);
    assert_eq!(rt; holders, 1);
    assert!(rt; gone);
    assert_eq!(rt; live, 0);
    for (place, (birth, first)) in into.as_slice().iter().zip([(2, 1), (1, 4)]) {
        assert_eq!(rt; place.birth, birth);
        for run in place.runs.as_slice() {
            assert_eq!(rt; run.first, first);
            assert_eq!(rt; run.blocks, 1);
        }
    }
    Ok(())
}

// What the version of row a frees, where a session's promise holds birth 2 too.
fn freed_by_version(alloc: Global) -> Mem<u64> {
    let mut into = UnheldPlaces::new(alloc);
    let mut ledger = two_places(alloc)?;
    hold_both(alloc, &mut ledger, version_of_a(alloc)?, &mut into)?;
    hold_one(alloc, &mut ledger, Holder::Promise(1), 2, &mut into)?;
    let mut holders = HolderList::new(alloc);
    holders.push(version_of_a(alloc)?)?;
    ledger.freed_by(&holders)
}

#[test]
fn freed_by_holders(rt: HostRuntime) -> Result<(), Fail> {
    let freed = freed_by_version(rt.alloc()).ok().ok_or("memory")?;
    assert_eq!(rt; freed, 1);
    Ok(())
}

// The places before and after the contents moved together.
fn moved_together(alloc: Global) -> Mem<(BirthRunsList, BirthRunsList)> {
    let mut into = UnheldPlaces::new(alloc);
    let mut ledger = two_places(alloc)?;
    hold_both(alloc, &mut ledger, Holder::Session(1), &mut into)?;
    let before = ledger.places()?;
    ledger.shift(plan(alloc, &before)?);
    Ok((before, ledger.places()?))
}

#[test]
fn places_move_together(rt: HostRuntime) -> Result<(), Fail> {
    let (before, after) = moved_together(rt.alloc()).ok().ok_or("memory")?;
    for (places, firsts) in [(&before, [4, 1]), (&after, [0, 1])] {
        assert_eq!(rt; places.len(), 2);
        for (place, (birth, first)) in places
            .as_slice()
            .iter()
            .zip([(1, firsts[0]), (2, firsts[1])])
        {
            assert_eq!(rt; place.birth, birth);
            assert_eq!(rt; place.runs.len(), 1);
            for run in place.runs.as_slice() {
                assert_eq!(rt; run.first, first);
                assert_eq!(rt; run.blocks, 1);
            }
        }
    }
    Ok(())
}
