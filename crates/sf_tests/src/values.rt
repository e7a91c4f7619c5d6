//! Names, replies and lists.
use sf_types::{
    Births, Blob, Call, Entry, Kind, List, LocName, Reply, Run, Runs, Token, TryCopy, reply_text,
};
use std::test::*;

#[test]
fn names_and_replies_are_made(rt: HostRuntime) -> Result<(), Fail> {
    let alloc = rt.alloc();
    assert!(rt; LocName::new(alloc, b"seventeen-letters")?.is_none());
    let reply = Reply::Bytes(Blob::new(alloc, &[1, 171])?);
    let text = reply_text(alloc, &reply.copy()?)?;
    assert_eq!(rt; text.as_bytes(), b"x01ab".as_slice());
    Ok(())
}

#[test]
fn lists_are_made(rt: HostRuntime) -> Result<(), Fail> {
    let alloc = rt.alloc();
    let mut births = Births::new(alloc);
    births.push(7)?;
    assert_eq!(rt; births.copy()?.as_slice(), [7].as_slice());
    let token = Token {
        session: 1,
        kind: Kind::Promise,
    };
    let mut history = List::new(alloc);
    history.push(Entry {
        token,
        call: Call::Commit,
    })?;
    let order = history.copy()?.order()?;
    assert_eq!(rt; order.copy()?.as_slice(), [token].as_slice());
    let mut runs = Runs::new(alloc);
    runs.make_room(1)?;
    runs.push(Run {
        first: 3,
        blocks: 2,
    })?;
    assert_eq!(rt; runs.copy()?.len(), 1);
    Ok(())
}
