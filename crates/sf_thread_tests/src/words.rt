//! Two seats claim and release blocks of the same words.
use sf_space_words::Words;
use sf_types::{Mem, Runs};
use std::alloc::Global;
use std::test::*;

// What four claims over 70 blocks answer: two of the first word by two seats, one of the second word, and one of a block that
// was released before.
fn claims(alloc: Global) -> Mem<[u64; 4]> {
    let (words, mut one) = Words::new(alloc, 70)?;
    let mut two = words.part(&mut one, &Runs::new(alloc));
    let _ = words.count();
    let first = words.claim(&mut one, 0, 11);
    let second = words.claim(&mut two, 0, 6);
    let third = words.claim(&mut two, 1, u64::MAX);
    words.release(&mut one, 0, first & 1);
    let fourth = words.claim(&mut two, 0, 1);
    words.merge(&mut one, two);
    one.abandon();
    Ok([first, second, third, fourth])
}

#[test]
fn words_and_claims(rt: HostRuntime) -> Result<(), Fail> {
    assert_eq!(rt; claims(rt.alloc())?, [11, 4, 63, 1]);
    Ok(())
}

#[test]
fn bits_past_the_last_block_are_set(rt: HostRuntime) -> Result<(), Fail> {
    let (words, mut seat) = Words::new(rt.alloc(), 70)?;
    assert_eq!(rt; words.count(), 2);
    let last = words.look(&mut seat, 1);
    seat.abandon();
    assert_eq!(rt; last, u64::MAX << 6);
    Ok(())
}
