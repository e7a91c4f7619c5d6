//! Every prefix of a script.
use super::{FIRST_PATH, HEADER, played};
use sf_program::Status;
use std::test::*;

// The numbers of bytes at which a line of the first path's script ends, the last two lines before the calls among them.
const LINE_ENDS: [usize; 7] = [25, 37, 49, 72, 84, 98, 108];

#[test]
fn every_prefix_is_a_script_or_refused(rt: HostRuntime) -> Result<(), Fail> {
    let alloc = rt.alloc();
    let mut script = HEADER.as_bytes().to_vec(alloc)?;
    script.extend_from_slice(FIRST_PATH.as_bytes())?;
    assert_eq!(rt; script.len(), 108);
    let mut line = 1u32;
    for length in 0..script.len() {
        let prefix = &script[..length];
        let is_ended = prefix.last().is_none_or(|byte| *byte == b'\n');
        if is_ended && length > 0 {
            line = line.saturating_add(1);
        }
        let (status, sink) = played(alloc, prefix.to_vec(alloc)?, 1_000)?;
        if LINE_ENDS.contains(&length) {
            assert_eq!(rt; status, Status::Done, "{length}");
        } else {
            let reason = if is_ended { "short" } else { "bytes" };
            let wanted = format!(in alloc; "script refused: line {line}: {reason}\n")?;
            assert_eq!(rt; status, Status::ScriptRefused, "{length}");
            assert_eq!(rt; sink.bytes(), wanted.as_bytes(), "{length}");
        }
    }
    Ok(())
}
