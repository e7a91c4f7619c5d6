//! The program, from the bytes that it reads to those that it writes.
mod long_script;
mod many_names;
mod one_session;
mod prefixes;
mod refusals;
mod rows;
mod words;

use sf_outside::{MemSink, MemSource, SureSink, SureSource};
use sf_program::{Status, securefiles_plain};
use std::alloc::Global;
use std::test::*;

const HEADER: &str = "securefiles 1\nsessions 1\n";

const FIRST_PATH: &str =
    "1: insert a\n1: lock p a\n1: writeappend p \"abc\"\n1: length p\n1: read p 3 1\n1: commit\n";

const FIRST_TRANSCRIPT: &str =
    "transcript 1\norder 1 1 1 1 1 1+ 1 1\n1.1 ok\n1.2 ok\n1.3 ok\n1.4 3\n1.5 x616263\n1.6 commit 1\n1.7 end\nplace 1 3 ba7816bf8f01cfea414140de5dae2223b00361a396177a9cb410ff61f20015ad 0+1\nfree 1023\nrow a 3 ba7816bf8f01cfea414140de5dae2223b00361a396177a9cb410ff61f20015ad\nnow 1\n";

const USAGE: &str = "usage: securefiles_cli play | run | check | bench SEED SESSIONS CALLS\n";

// The status and the output for a word and an input.
fn ran(alloc: Global, word: &str, input: Vec<u8>, room: usize) -> Result<(Status, SureSink), Fail> {
    let mut words = Vec::new(alloc);
    words.push(word.to_string(alloc)?)?;
    let mut source = SureSource::new(input);
    let mut sink = SureSink::new(alloc, room)?;
    let status = securefiles_plain(alloc, &words, &mut source, &mut sink);
    Ok((status, sink))
}

// The status and the output for a script, of which there are at most so many bytes.
fn played(alloc: Global, script: Vec<u8>, room: usize) -> Result<(Status, SureSink), Fail> {
    ran(alloc, "play", script, room)
}

#[test]
fn words_say_what_is_done(rt: HostRuntime) -> Result<(), Fail> {
    let alloc = rt.alloc();
    let rows = [
        ("play", FIRST_PATH, Status::Done, FIRST_TRANSCRIPT),
        (
            "play",
            "capacity 5\n",
            Status::ScriptRefused,
            "script refused: line 3: place\n",
        ),
        ("played", FIRST_PATH, Status::Usage, USAGE),
    ];
    for (word, calls, status, output) in rows {
        let mut input = HEADER.as_bytes().to_vec(alloc)?;
        input.extend_from_slice(calls.as_bytes())?;
        let (ended, sink) = ran(alloc, word, input, 1_000)?;
        assert_eq!(rt; ended, status, "{calls}");
        assert_eq!(rt; sink.bytes(), output.as_bytes(), "{calls}");
    }
    Ok(())
}

// The first path with a source and a sink that fail at the calls with these numbers, none of them at 0.
fn ran_failing(alloc: Global, read: u64, write: u64) -> Result<(Status, MemSink), Fail> {
    let mut words = Vec::new(alloc);
    words.push("play".to_string(alloc)?)?;
    let mut input = HEADER.as_bytes().to_vec(alloc)?;
    input.extend_from_slice(FIRST_PATH.as_bytes())?;
    let mut source = MemSource::new(input, 10, Vec::from_slice(alloc, &[read])?);
    let writes = Vec::from_slice(alloc, &[write])?;
    let mut sink = MemSink::new(alloc, 264, 10, writes)?;
    let status = securefiles_plain(alloc, &words, &mut source, &mut sink);
    Ok((status, sink))
}

// The first path has 108 bytes, so that it is read in 12 calls, and its transcript of 264 bytes, in pieces of 10 bytes, is
// written in 27.
#[test]
fn faults_are_told(rt: HostRuntime) -> Result<(), Fail> {
    let alloc = rt.alloc();
    for read in 1..13 {
        let (ended, sink) = ran_failing(alloc, read, 0)?;
        assert_eq!(rt; ended, Status::ReadFault, "{read}");
        assert_eq!(rt; sink.bytes().len(), 0, "{read}");
    }
    for write in 1..28 {
        let (ended, sink) = ran_failing(alloc, 0, write)?;
        assert_eq!(rt; ended, Status::WriteFault, "{write}");
        assert_eq!(rt; sink.bytes().len(), (write as usize - 1) * 10, "{write}");
        assert!(rt;
            FIRST_TRANSCRIPT.as_bytes().starts_with(sink.bytes()),
            "{write}"
        );
    }
    let (ended, _) = ran_failing(alloc, 13, 28)?;
    assert_eq!(rt; ended, Status::Done);
    Ok(())
}
