use crate::stand_in::{Told, is_spelled, make};
use memchr::memchr;
use sf_session::SessionCore;
use sf_types::{Mem, OutOfMemory};
use std::alloc::Global;
use std::test::*;

// The text before a byte, and the text behind it. All and nothing where the byte isn't there.
fn cut_at(text: &[u8], byte: u8) -> (&[u8], &[u8]) {
    match memchr(byte, text) {
        Some(at) => (&text[..at], &text[at + 1..]),
        None => (text, &[]),
    }
}

// What the store is told by a letter: a digit for a value of so many bytes, `c` for a commit, and any other for a call that is done.
fn told_by(letter: &[u8]) -> Told {
    match letter.first() {
        Some(b'c') => Told::Committed(1),
        Some(digit) => {
            if digit.is_ascii_digit() {
                Told::Value(usize::from(*digit - b'0'))
            } else {
                Told::Done
            }
        }
        None => Told::Done,
    }
}

// Makes the call of a line `TOLD|REPLY|CALL`, and tells whether it is replied so.
fn replies_so(alloc: Global, core: &mut SessionCore, line: &[u8]) -> Mem<bool> {
    let (letter, rest) = cut_at(line, b'|');
    let (reply, call) = cut_at(rest, b'|');
    let told = make(alloc, core, call, told_by(letter))?;
    Ok(is_spelled(&told, reply))
}

// Makes the calls of lines, a hundred at most and each ended by `;`, and answers their number. Want of memory where one isn't
// replied so.
fn play(alloc: Global, core: &mut SessionCore, lines: &[u8]) -> Mem<usize> {
    let mut rest = lines;
    for count in 0..101 {
        if rest.is_empty() {
            return Ok(count);
        }
        let (line, behind) = cut_at(rest, b';');
        if !replies_so(alloc, core, line)? {
            return Err(OutOfMemory);
        }
        rest = behind;
    }
    Err(OutOfMemory)
}

// Sets so many locators, each with a name of two letters, and answers how many calls are replied `ok`.
fn select_names(alloc: Global, core: &mut SessionCore, count: u8) -> Mem<usize> {
    let mut done = 0usize;
    for k in 0..count {
        let mut line = *b"3|ok|select aa a";
        line[12] = b'a' + k / 16;
        line[13] = b'a' + k % 16;
        if replies_so(alloc, core, line.as_slice())? {
            done = done.wrapping_add(1);
        }
    }
    Ok(done)
}

// Sets so many locators, and then plays lines.
fn play_behind(alloc: Global, core: &mut SessionCore, names: u8, lines: &[u8]) -> Mem<usize> {
    if select_names(alloc, core, names)? != usize::from(names) {
        return Err(OutOfMemory);
    }
    play(alloc, core, lines)
}

// Plays lines on a new session that has so many locators.
fn play_with(alloc: Global, names: u8, lines: &[u8]) -> Mem<usize> {
    let mut core = SessionCore::new(alloc, 1, 512);
    play_behind(alloc, &mut core, names, lines)
}

#[test]
fn assigned_locators(rt: HostRuntime) -> Result<(), Fail> {
    let lines =
        b"d|ok|insert a;d|ok|lock p a;d|ok|writeappend p \"ab\";d|ok|assign q p;d|ok|write p 1 \"X\";\
        d|ab|read q 2 1;d|Xb|read p 2 1;d|ok|write q 2 \"Y\";d|XY|read q 2 1;d|Xb|read p 2 1;";
    assert_eq!(rt; play_with(rt.alloc(), 0, lines)?, 10);
    Ok(())
}

#[test]
fn locators_across_transactions(rt: HostRuntime) -> Result<(), Fail> {
    let lines = b"d|ok|insert a;c|commit|commit;0|ok|select q a;0|ok|lock p a;c|commit|commit;\
        d|spans-transactions|writeappend p \"x\";d|row-not-locked|writeappend q \"x\";0|ok|lock r a;\
        d|ok|writeappend q \"x\";d|1|length q;";
    assert_eq!(rt; play_with(rt.alloc(), 0, lines)?, 10);
    Ok(())
}

#[test]
fn refusals_of_the_session(rt: HostRuntime) -> Result<(), Fail> {
    let lines =
        b"d|ok|insert a;c|commit|commit;0|ok|asof r a 1;d|read-only|write r 1 \"x\";d|unknown-locator|free y;\
        0|ok|lock p a;0|ok|delete a;d|no-such-row|delete a;d|no-such-row|writeappend p \"x\";d|ok|rollback;";
    assert_eq!(rt; play_with(rt.alloc(), 0, lines)?, 10);
    Ok(())
}

#[test]
fn a_session_has_256_locators(rt: HostRuntime) -> Result<(), Fail> {
    let lines = b"3|ok|select p a;3|too-many-locators|select new a;2|ok|select p a;d|2|length p;";
    assert_eq!(rt; play_with(rt.alloc(), 255, lines)?, 4);
    Ok(())
}

#[test]
fn a_rollback_to_a_savepoint(rt: HostRuntime) -> Result<(), Fail> {
    let lines =
        b"d|ok|insert a;d|ok|lock p a;d|ok|writeappend p \"ab\";d|ok|select q a;d|ok|savepoint s;\
        d|ok|writeappend p \"cd\";d|ok|insert b;d|ok|rollback to s;d|lost|read p 1 1;d|ab|read q 9 1;\
        d|ok|writeappend q \"Z\";d|abZ|read q 9 1;d|no-savepoint|rollback to t;";
    assert_eq!(rt; play_with(rt.alloc(), 0, lines)?, 13);
    Ok(())
}
