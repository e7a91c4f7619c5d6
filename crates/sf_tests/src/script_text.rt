//! Texts that are read and printed, and the generated script.
use sf_script::parse;
use sf_script_generate::generate;
use sf_script_print::print;
use std::test::*;

// Texts, and how the scripts that they give are printed.
static PRINTED: [(&[u8], &[u8]); 4] = [
    (
        b"securefiles 1\nsessions 1\n",
        b"securefiles 1\nsessions 1\n",
    ),
    (
        b"securefiles 1\nsessions 1\n1: insert a\n1: lock p a\n1: writeappend p \"abc\"\n1: length p\n1: read p 3 1\n1: commit\n",
        b"securefiles 1\nsessions 1\n1: insert a\n1: lock p a\n1: writeappend p \"abc\"\n1: length p\n1: read p 3 1\n1: commit\n",
    ),
    (
        b"securefiles 1\nsessions 1\n1: writeappend p \"aaa\"\n1: writeappend p \"aa\"\n",
        b"securefiles 1\nsessions 1\n1: writeappend p 3*x61\n1: writeappend p \"aa\"\n",
    ),
    (
        b"securefiles 1\ncapacity 1024\ndedup off\nretention max\nsessions 2\n2: rollback to s\n1: setoptions p dedup on\nschedule 2 r\nschedule 1 shrink\n",
        b"securefiles 1\ndedup off\nretention max\nsessions 2\n1: setoptions p dedup on\n2: rollback to s\nschedule 2 r 1 shrink\n",
    ),
];

#[test]
fn scripts_are_printed(rt: HostRuntime) -> Result<(), Fail> {
    for (text, wanted) in PRINTED {
        let script = parse(rt.alloc(), text)??;
        let printed = print(rt.alloc(), &script)?;
        assert_eq!(rt; printed.as_bytes(), wanted);
    }
    Ok(())
}

#[test]
fn generated_calls_go_round_the_sessions(rt: HostRuntime) -> Result<(), Fail> {
    let script = generate(rt.alloc(), 0, 3, 8)?;
    assert_eq!(rt; script.sessions(), 3);
    assert_eq!(rt; script.options().capacity, 65_536);
    let shares = [3, 3, 2];
    for (calls, share) in script.calls().as_slice().iter().zip(shares.iter()) {
        assert_eq!(rt; calls.len(), *share);
    }
    Ok(())
}
