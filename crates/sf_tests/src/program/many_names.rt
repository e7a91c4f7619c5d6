//! Scripts with as many names as a session may have.
use super::one_session::OneSession;
use super::played;
use super::rows::EMPTY;
use sf_program::Status;
use std::alloc::Global;
use std::process::Abort;
use std::test::*;

const LOCATORS: u64 = 256;

const SAVEPOINTS: u64 = 64;

// Plays a script, and compares its transcript.
fn expect(rt: &impl Abort, alloc: Global, play: &OneSession, end: &str) -> Result<(), Fail> {
    let mut wanted = play.transcript()?;
    wanted.extend_from_slice(end.as_bytes())?;
    let (status, sink) = played(alloc, play.script()?, 20_000)?;
    assert_eq!(rt; status, Status::Done);
    assert_eq!(rt; sink.bytes(), wanted.as_slice());
    Ok(())
}

// Refusals on a row that was deleted and came back, and then one locator too many.
#[test]
fn locators_are_limited(rt: HostRuntime) -> Result<(), Fail> {
    let alloc = rt.alloc();
    let mut play = OneSession::new(alloc, "")?;
    play.calls(&[
        ("insert a", "ok"),
        ("commit", "commit 1"),
        ("asof r a 1", "ok"),
        ("write r 1 \"x\"", "refused read-only"),
        ("asof r a 2", "refused future-commit"),
        ("asof r a 0", "refused too-old 22924"),
        ("select z b", "refused no-such-row"),
        ("free y", "refused unknown-locator"),
        ("lock p a", "ok"),
        ("delete a", "ok"),
        ("delete a", "refused no-such-row"),
        ("writeappend p \"x\"", "refused no-such-row"),
        ("rollback", "ok"),
    ])?;
    for locator in 2..LOCATORS {
        play.call(&format!(in alloc; "select l{locator} a")?, "ok")?;
    }
    play.call("select new a", "refused too-many-locators")?;
    play.call("select p a", "ok")?;
    play.reply("end")?;
    let end = format!(in alloc; "free 1024\nrow a 0 {EMPTY}\nnow 1\n")?;
    expect(&rt, alloc, &play, end.as_str())
}

#[test]
fn savepoints_are_limited(rt: HostRuntime) -> Result<(), Fail> {
    let alloc = rt.alloc();
    let mut play = OneSession::new(alloc, "")?;
    for savepoint in 0..SAVEPOINTS {
        play.call(&format!(in alloc; "savepoint s{savepoint}")?, "ok")?;
    }
    play.call("savepoint new", "refused too-many-savepoints")?;
    play.reply("end")?;
    expect(&rt, alloc, &play, "free 1024\nnow 0\n")
}
