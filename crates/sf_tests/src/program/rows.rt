//! Worked rows: scripts with their transcripts, byte for byte.
mod digests;
mod sharing;
mod space;
mod transactions;
mod values;

use super::played;
pub use digests::EMPTY;
use sf_program::Status;
use std::alloc::Global;
use std::test::*;

// A script with its transcript. Each call line stands with its session's number and the reply that it is due, each place with its
// birth, its length, its digest and its runs, and each row with its name, its length and its digest.
pub struct Row {
    name: &'static str,
    options: &'static str,
    sessions: u16,
    calls: &'static [(u16, &'static str, &'static str)],
    schedule: &'static str,
    order: &'static str,
    places: &'static [(u64, u64, &'static str, &'static str)],
    free: u64,
    rows: &'static [(&'static str, u64, &'static str)],
    now: u64,
}

impl Row {
    // The script.
    fn script(&self, alloc: Global) -> Result<Vec<u8>, Fail> {
        let mut text = b"securefiles 1\n".to_vec(alloc)?;
        text.extend_from_slice(self.options.as_bytes())?;
        let sessions = self.sessions;
        text.extend_from_slice(format!(in alloc; "sessions {sessions}\n")?.as_bytes())?;
        for (session, call, _) in self.calls {
            text.extend_from_slice(format!(in alloc; "{session}: {call}\n")?.as_bytes())?;
        }
        if !self.schedule.is_empty() {
            let schedule = self.schedule;
            text.extend_from_slice(format!(in alloc; "schedule {schedule}\n")?.as_bytes())?;
        }
        Ok(text)
    }

    // The replies to a session's calls and to its End.
    fn push_replies(&self, alloc: Global, text: &mut Vec<u8>, session: u16) -> Result<(), Fail> {
        let mut number = 1u64;
        for (caller, _, reply) in self.calls {
            if *caller == session {
                let line = format!(in alloc; "{session}.{number} {reply}\n")?;
                text.extend_from_slice(line.as_bytes())?;
                number = number.saturating_add(1);
            }
        }
        text.extend_from_slice(format!(in alloc; "{session}.{number} end\n")?.as_bytes())?;
        Ok(())
    }

    // What is told of the end: the places, the free number, the rows and the number of commits.
    fn push_end(&self, alloc: Global, text: &mut Vec<u8>) -> Result<(), Fail> {
        for (birth, length, sum, runs) in self.places {
            let line = format!(in alloc; "place {birth} {length} {sum} {runs}\n")?;
            text.extend_from_slice(line.as_bytes())?;
        }
        let free = self.free;
        text.extend_from_slice(format!(in alloc; "free {free}\n")?.as_bytes())?;
        for (name, length, sum) in self.rows {
            let line = format!(in alloc; "row {name} {length} {sum}\n")?;
            text.extend_from_slice(line.as_bytes())?;
        }
        let now = self.now;
        text.extend_from_slice(format!(in alloc; "now {now}\n")?.as_bytes())?;
        Ok(())
    }

    // The transcript that is due.
    fn transcript(&self, alloc: Global) -> Result<Vec<u8>, Fail> {
        let order = self.order;
        let mut text = b"transcript 1\n".to_vec(alloc)?;
        text.extend_from_slice(format!(in alloc; "order {order}\n")?.as_bytes())?;
        for session in 0..self.sessions {
            self.push_replies(alloc, &mut text, session + 1)?;
        }
        self.push_end(alloc, &mut text)?;
        Ok(text)
    }
}

#[test]
fn rows_are_played(rt: HostRuntime) -> Result<(), Fail> {
    let alloc = rt.alloc();
    let tables = [
        values::ROWS.as_slice(),
        transactions::ROWS.as_slice(),
        space::ROWS.as_slice(),
        sharing::ROWS.as_slice(),
    ];
    for table in tables {
        for row in table {
            let (status, sink) = played(alloc, row.script(alloc)?, 2_000)?;
            let wanted = row.transcript(alloc)?;
            let name = row.name;
            assert_eq!(rt; status, Status::Done, "{name}");
            assert_eq!(rt; sink.bytes(), wanted.as_slice(), "{name}");
        }
    }
    Ok(())
}
