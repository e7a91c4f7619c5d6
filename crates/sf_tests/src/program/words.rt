//! The words, as a process is given them.
use sf_program::{Status, exit_code, read_words};
use std::io;
use std::io::ErrorKind;
use std::process::ExitCode;
use std::test::*;

#[test]
fn the_name_is_no_word(rt: HostRuntime) -> Result<(), Fail> {
    let alloc = rt.alloc();
    let mut args = Vec::new(alloc);
    let none = read_words(alloc, Ok(args.clone()?.into_iter()));
    assert!(rt; none.is_ok_and(|words| words.is_empty()));
    for arg in ["securefiles_cli", "play", "again"] {
        args.push(arg.to_string(alloc)?)?;
    }
    let Ok(words) = read_words(alloc, Ok(args.into_iter())) else {
        return Err("there is memory for two words".into());
    };
    assert_eq!(rt; words.len(), 2);
    assert_eq!(rt; words[0].as_str(), "play");
    assert_eq!(rt; words[1].as_str(), "again");
    Ok(())
}

#[test]
fn words_that_are_lost_are_no_usage(rt: HostRuntime) -> Result<(), Fail> {
    let alloc = rt.alloc();
    for (kind, status) in [
        (ErrorKind::OutOfMemory, Status::OutOfMemory),
        (ErrorKind::InvalidData, Status::Usage),
    ] {
        let lost: io::Result<std::vec::IntoIter<String>> = Err(io::Error::from(kind));
        let words = read_words(alloc, lost);
        assert!(rt; words.is_err_and(|ending| ending == status));
    }
    assert!(rt; exit_code(Status::OutOfMemory) == ExitCode::from(8));
    Ok(())
}
