//! Collections of blocks, on one thread and on two.
ghost use Rattle.std.specs.Prelude.{◌≡◌, ◌<◌, ◌+◌};
ghost use Rattle.sf_space_words.specs.Seats.{IsOf};
ghost use Rattle.sf_dispensers.specs.Seats.{IsSpaceOf};

use sf_dispensers::{Dispensers, Named, NoRipe, Reservation, Ripe};
use sf_reclaimer::release;
use sf_space_words::{Seat, Words};
use sf_types::{Mem, OutOfMemory, Run, Runs};
use std::alloc::Global;
use std::marker::Brand;
use std::sync::Wait;
use std::test::*;
use std::thread::{Threads, join};

// Whether runs have so many blocks, each below the capacity and none of them twice.
fn are_right(alloc: Global, runs: &[Run], blocks: u64, capacity: u32) -> Mem<bool> {
    let mut seen = Vec::from_elem(alloc, false, capacity as usize)?;
    let mut count = 0u64;
    for run in runs {
        for offset in 0..run.blocks {
            let Some(block) = run.first.checked_add(offset) else {
                return Ok(false);
            };
            let Some(is_seen) = seen.get_mut(block as usize) else {
                return Ok(false);
            };
            if *is_seen {
                return Ok(false);
            }
            *is_seen = true;
            count = count.wrapping_add(1);
        }
    }
    Ok(count == blocks)
}

// Three blocks are collected and handed back, and then all 70 by the other list.
fn three_then_all<N: Named, R: Wait>(
    rt: &R,
    alloc: Global,
    words: Words,
    seat: Seat,
) -> Mem<(Runs, Runs)>
    requires words { IsSpaceOf N.space N.options words }
    requires seat { IsOf words seat }
{
    let dispensers = Dispensers::<N>::new(alloc, words, seat, 2)?;
    let few = dispensers.collect(rt, 0, 3, &mut NoRipe)?;
    let few_runs = few.runs().copy();
    dispensers.hand_back(rt, 0, few);
    let all = dispensers.collect(rt, 1, 70, &mut NoRipe)?;
    let all_runs = all.runs().copy();
    dispensers.hand_back(rt, 1, all);
    Ok((few_runs?, all_runs?))
}

fn three_of_seventy<R: Wait>(rt: &R, alloc: Global) -> Mem<(Runs, Runs)> {
    let (words, seat) = Words::new(alloc, 70)?;
    three_then_all::<Brand, R>(rt, alloc, words, seat)
}

#[test]
fn dispensers_on_one_thread(rt: HostRuntime) -> Result<(), Fail> {
    let (few, all) = three_of_seventy(&rt, rt.alloc())?;
    assert!(rt; are_right(rt.alloc(), few.as_slice(), 3, 70)?);
    assert!(rt; are_right(rt.alloc(), all.as_slice(), 70, 70)?);
    Ok(())
}

// A reservation is taken apart, and its blocks are cleared.
fn clear<N: Named>(dispensers: &Dispensers<N>, reservation: Reservation<N>) {
    let (mut seat, runs) = reservation.into_parts();
    release(dispensers.words(), &mut seat, &runs);
    seat.abandon();
}

// All blocks are collected and cleared, so often. It answers how many runs they were each time.
fn collect_and_clear<N: Named, R: Wait>(
    rt: &R,
    alloc: Global,
    words: Words,
    seat: Seat,
    blocks: u64,
    times: u32,
) -> Mem<Vec<usize>>
    requires words { IsSpaceOf N.space N.options words }
    requires seat { IsOf words seat }
{
    let dispensers = Dispensers::<N>::new(alloc, words, seat, 1)?;
    let mut counts = Vec::new(alloc);
    for _ in 0..times {
        let all = dispensers.collect(rt, 0, blocks, &mut NoRipe)?;
        let count = all.runs().len();
        clear(&dispensers, all);
        counts.push(count)?;
    }
    Ok(counts)
}

fn clear_all<R: Wait>(rt: &R, alloc: Global) -> Mem<Vec<usize>> {
    let (words, seat) = Words::new(alloc, 130)?;
    collect_and_clear::<Brand, R>(rt, alloc, words, seat, 130, 3)
}

// Blocks that were cleared are collected again. The first time they are one run over three words. Then a scan begins with the
// last word.
#[test]
fn cleared_blocks_are_collected_again(rt: HostRuntime) -> Result<(), Fail> {
    let counts = clear_all(&rt, rt.alloc())?;
    assert_eq!(rt; counts.as_slice(), &[1, 2, 2][..]);
    Ok(())
}

// What clears a reservation once, and refuses from then on.
struct Parked<'a, N: Named> {
    dispensers: &'a Dispensers<N>,
    reservation: Option<Reservation<N>>,
}

impl<'a, N: Named> Ripe for Parked<'a, N> {
    ghost use Rattle.std.specs.Prelude.{⊤};

    ghost follows = { λ x y. ⊤ };

    ghost itself = { λ x. tt };

    ghost through = { λ x y z a b. tt };

    fn fetch<R: Wait>(&mut self, rt: &R) -> Mem<()> {
        let _ = rt;
        match self.reservation.take() {
            Some(reservation) => {
                clear(self.dispensers, reservation);
                Ok(())
            }
            None => Err(OutOfMemory),
        }
    }
}

// Takes what may have been collected back. It answers whether there was something.
fn take_back<N: Named, R: Wait>(
    rt: &R,
    dispensers: &Dispensers<N>,
    collected: Mem<Reservation<N>>,
) -> bool
    requires { 0 < dispensers.now.list_count }
{
    match collected {
        Ok(reservation) => {
            dispensers.hand_back(rt, 0, reservation);
            true
        }
        Err(OutOfMemory) => false,
    }
}

// Of 8 blocks 6 are parked. Whether then 5 can be collected, whether 9, and whether all 8.
fn collect_parked<N: Named, R: Wait>(
    rt: &R,
    alloc: Global,
    words: Words,
    seat: Seat,
) -> Mem<[bool; 3]>
    requires words { IsSpaceOf N.space N.options words }
    requires seat { IsOf words seat }
{
    let dispensers = Dispensers::<N>::new(alloc, words, seat, 2)?;
    let reservation = dispensers.collect(rt, 0, 6, &mut NoRipe)?;
    let mut parked = Parked {
        dispensers: &dispensers,
        reservation: Some(reservation),
    };
    let five = dispensers.collect(rt, 0, 5, &mut parked);
    let has_five = take_back(rt, &dispensers, five);
    let nine = dispensers.collect(rt, 1, 9, &mut parked);
    let has_nine = take_back(rt, &dispensers, nine);
    let Parked {
        dispensers: _,
        reservation,
    } = parked;
    if let Some(reservation) = reservation {
        clear(&dispensers, reservation);
    }
    let all = dispensers.collect(rt, 0, 8, &mut NoRipe);
    Ok([has_five, has_nine, take_back(rt, &dispensers, all)])
}

fn parked_of_eight<R: Wait>(rt: &R, alloc: Global) -> Mem<[bool; 3]> {
    let (words, seat) = Words::new(alloc, 8)?;
    collect_parked::<Brand, R>(rt, alloc, words, seat)
}

// A collection that finds too little asks for more, and where it is refused, what it had can be collected again.
#[test]
fn parked_blocks_are_asked_for(rt: HostRuntime) -> Result<(), Fail> {
    assert_eq!(rt; parked_of_eight(&rt, rt.alloc())?, [true, false, true]);
    Ok(())
}

// The rounds of each thread.
const ROUNDS: u64 = 10_000;

// The blocks over which two threads collect.
const BLOCKS: u32 = 256;

// Blocks are collected and handed back, 1 to 64 at a time. It answers whether each reservation had just what it was asked for.
fn rounds<N: Named, R: Wait>(
    rt: &R,
    alloc: Global,
    dispensers: &Dispensers<N>,
    home: u32,
) -> Mem<bool>
    requires { home < dispensers.now.list_count }
{
    for round in 0..ROUNDS {
        let blocks = round % 64 + 1;
        let reservation = dispensers.collect(rt, home, blocks, &mut NoRipe)?;
        let right = are_right(alloc, reservation.runs().as_slice(), blocks, BLOCKS);
        dispensers.hand_back(rt, home, reservation);
        if !right? {
            return Ok(false);
        }
    }
    Ok(true)
}

// Two threads with a list each.
fn by_two_threads<N: Named + Send + Sync, R: Threads + Wait + Sync>(
    rt: &R,
    alloc: Global,
    words: Words,
    seat: Seat,
) -> Mem<(Mem<bool>, Mem<bool>)>
    requires words { IsSpaceOf N.space N.options words }
    requires seat { IsOf words seat }
{
    let dispensers = Dispensers::<N>::new(alloc, words, seat, 2)?;
    Ok(join(
        rt,
        || -> Mem<bool>
            requires { dispensers.list_count ≡ 2 }
        { rounds(rt, alloc, &dispensers, 0) },
        || -> Mem<bool>
            requires { dispensers.list_count ≡ 2 }
        { rounds(rt, alloc, &dispensers, 1) },
    ))
}

fn two_threads<R: Threads + Wait + Sync>(rt: &R, alloc: Global) -> Mem<bool> {
    let (words, seat) = Words::new(alloc, BLOCKS)?;
    let (one, two) = by_two_threads::<Brand, R>(rt, alloc, words, seat)?;
    Ok(one? && two?)
}

#[test]
fn two_threads_collect(rt: HostRuntime) -> Result<(), Fail> {
    assert!(rt; two_threads(&rt, rt.alloc())?);
    Ok(())
}
