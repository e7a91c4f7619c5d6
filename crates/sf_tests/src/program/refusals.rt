//! What the program answers to texts that are no scripts, and to texts at the limits.
use super::played;
use sf_program::Status;
use std::alloc::Global;
use std::process::Abort;
use std::test::*;

// Third lines behind the header and the sessions line, and the reason for which they are refused, if any.
static THIRD_LINES: [(&[u8], Option<&str>); 35] = [
    (b"", None),
    (b"1: commit\n", None),
    (b"1: writeappend p \"ab", Some("bytes")),
    (b"1: commit", Some("bytes")),
    (b"1: writeappend p \"\xC3\"\n", Some("bytes")),
    (b"1: commit\r\n", Some("bytes")),
    (b"\n", Some("place")),
    (b"insert a\n", Some("place")),
    (b"capacity 5\n", Some("place")),
    (b"sessions 1\n", Some("place")),
    (b"2: commit\n", Some("session")),
    (b"0: commit\n", Some("session")),
    (b"01: commit\n", Some("session")),
    (b"2: nonsense\n", Some("session")),
    (b"schedule 3\n", Some("session")),
    (b"schedule \n", Some("session")),
    (b"schedule\n", Some("form")),
    (b"schedule r 1 shrink\n", None),
    (b"1:\n", Some("form")),
    (b"1:  commit\n", Some("form")),
    (b"1: commit \n", Some("form")),
    (b"1: read p 03 1\n", Some("form")),
    (b"1: read p 3  1\n", Some("form")),
    (b"1: read p 18446744073709551616 1\n", Some("form")),
    (b"1: insert a/b\n", Some("form")),
    (b"1: rollback to\n", Some("form")),
    (b"1: writeappend p \"\"\n", Some("form")),
    (b"1: writeappend p x6\n", Some("form")),
    (b"1: writeappend p 0*x61\n", Some("form")),
    (b"1: writeappend p 18446744073709551616*x41\n", Some("form")),
    (
        b"1: writeappend p 18446744073709551615*x41\n",
        Some("limit"),
    ),
    (b"1: writeappend p x6162\n", None),
    (b"1: writeappend p 3*x61\n", None),
    (b"1: delete a\n", None),
    (b"1: rollback\n", None),
];

// Whole texts, and the line and the reason of their fault.
static TEXTS: [(&[u8], u32, &str); 12] = [
    (b"", 1, "short"),
    (b"securefiles 1\n", 2, "short"),
    (b"securefiles 1", 1, "bytes"),
    (b"sessions 1\n", 1, "place"),
    (b"securefiles 2\n", 1, "form"),
    (b"securefiles 1\ncapacity 0\n", 2, "limit"),
    (b"securefiles 1\nsessions 17\n", 2, "limit"),
    (b"securefiles 1\ngather 512\ncapacity 5\n", 3, "place"),
    (b"securefiles 1\nsessions 2\nschedule 3\n", 3, "session"),
    (
        b"securefiles 1\nsessions 2\nschedule 2\n1: commit\n",
        4,
        "place",
    ),
    (b"securefiles 1\ncapacity 05\n", 2, "form"),
    (b"securefiles 1\n1: commit\n", 2, "place"),
];

// Plays a text, and compares the line that refuses it, if one is due.
fn expect(
    rt: &impl Abort,
    alloc: Global,
    text: Vec<u8>,
    fault: Option<(u32, &str)>,
) -> Result<(), Fail> {
    let (ended, sink) = played(alloc, text, 1_000)?;
    match fault {
        None => assert_eq!(rt; ended, Status::Done),
        Some((line, reason)) => {
            assert_eq!(rt; ended, Status::ScriptRefused);
            let wanted = format!(in alloc; "script refused: line {line}: {reason}\n")?;
            assert_eq!(rt; sink.bytes(), wanted.as_bytes());
        }
    }
    Ok(())
}

// Plays a script whose third line has so many equal bytes between two texts.
fn expect_line(
    rt: &impl Abort,
    alloc: Global,
    (before, count, after): (&[u8], usize, &[u8]),
    reason: Option<&str>,
) -> Result<(), Fail> {
    let mut text = b"securefiles 1\nsessions 1\n".to_vec(alloc)?;
    text.extend_from_slice(before)?;
    text.extend_from_slice(&vec![in alloc; b'a'; count]?)?;
    text.extend_from_slice(after)?;
    expect(rt, alloc, text, reason.map(|reason| (3, reason)))
}

#[test]
fn refuses_scripts(rt: HostRuntime) -> Result<(), Fail> {
    for (text, line, reason) in &TEXTS {
        expect(
            &rt,
            rt.alloc(),
            text.to_vec(rt.alloc())?,
            Some((*line, *reason)),
        )?;
    }
    for (text, reason) in &THIRD_LINES {
        expect_line(&rt, rt.alloc(), (text, 0, b""), *reason)?;
    }
    Ok(())
}

#[test]
fn limits(rt: HostRuntime) -> Result<(), Fail> {
    let text = b"1: writeappend p \"";
    expect_line(&rt, rt.alloc(), (b"1: insert ", 64, b"\n"), None)?;
    expect_line(&rt, rt.alloc(), (b"1: insert ", 65, b"\n"), Some("form"))?;
    expect_line(&rt, rt.alloc(), (text, 32_767, b"\"\n"), None)?;
    expect_line(&rt, rt.alloc(), (text, 32_768, b"\"\n"), Some("limit"))?;
    let long = vec![in rt.alloc(); b'a'; 16_777_217]?;
    expect(&rt, rt.alloc(), long, Some((0, "size")))?;
    let long = vec![in rt.alloc(); b'a'; 16_777_216]?;
    expect(&rt, rt.alloc(), long, Some((1, "bytes")))
}
