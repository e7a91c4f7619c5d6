//! What a session asks of the store, and what it is answered.
ghost use Rattle.std.specs.Prelude.{◌≡◌, IfOk};

use crate::change::ChangeList;
use sf_chunk_map::Map;
use sf_dedup::PrintList;
use sf_types::{Births, BlobList, Call, CallList, Choice, Fault, List, Mem, Name, TryCopy};

/// The local calls since the session's last turn, and the births that it then holds.
#[derive(Drop)]
pub struct Batch {
    pub calls: CallList,
    pub births: Births,
}

/// What the store needs of a call beside the call itself.
#[derive(Drop)]
pub enum Part {
    /// The session knows the call's refusal.
    Known(Fault),
    /// The row of a row call has a working value, so that the session knows what the row holds.
    Working,
    /// The store has to tell what the row of a row call holds.
    Current,
    /// The rows that a rollback to a savepoint unlocks.
    Unlock(List<Name>),
    /// The working values of a commit.
    Commit(ChangeList),
    /// A rollback.
    Rollback,
    /// The end of the session.
    End,
    /// The result of a due writing call, whose fresh bytes are to be settled.
    Settle(Map),
}

/// A session's call with its part. `kept` is what the session holds after a call that isn't refused, beside what the answer
/// adds.
#[derive(Drop)]
pub struct Ask {
    pub call: Call,
    pub part: Part,
    pub kept: Births,
}

/// What the store answers.
#[derive(Drop)]
pub enum Answer {
    /// The call is refused.
    Refused(Fault),
    /// The call is done.
    Done,
    /// The value that the call is given, twice, so that the session can keep it in two places without memory.
    Value { map: Map, twin: Map },
    /// The number of commits.
    Committed(u64),
    /// The session has ended.
    Ended,
}

/// The cuts of what a call flushes, their prints and the choices of their values, in the same order, with the call.
#[derive(Drop)]
pub struct Flush {
    pub contents: BlobList,
    pub prints: PrintList,
    pub choices: List<Choice>,
    pub ask: Ask,
}

/// Whether blocks were promised to a call: how many, or how many it wants and how many are free.
#[derive(Clone, Copy, Debug, PartialEq, Eq)]
pub enum Verdict {
    Granted(u64),
    NoSpace { wanted: u64, free: u64 },
}

impl TryCopy for Batch {
    fn copy(&self) -> Mem<Batch> {
        Ok(Batch {
            calls: self.calls.copy()?,
            births: self.births.copy()?,
        })
    }
}

impl TryCopy for Part {
    fn copy(&self) -> Mem<Part> {
        Ok(match self {
            Part::Known(fault) => Part::Known(*fault),
            Part::Working => Part::Working,
            Part::Current => Part::Current,
            Part::Unlock(rows) => Part::Unlock(rows.copy()?),
            Part::Commit(changes) => Part::Commit(changes.copy()?),
            Part::Rollback => Part::Rollback,
            Part::End => Part::End,
            Part::Settle(map) => Part::Settle(map.copy()?),
        })
    }
}

impl TryCopy for Ask {
    fn copy(&self) -> Mem<Ask> {
        Ok(Ask {
            call: self.call.copy()?,
            part: self.part.copy()?,
            kept: self.kept.copy()?,
        })
    }
}

// A copy of choices.
fn copy_of_choices(choices: &List<Choice>) -> Mem<List<Choice>>
    ensures { IfOk result (λ copied. copied ≡ choices.now) }
{
    let mut copied = List::new(choices.allocator());
    for choice in choices.as_slice() {
        copied.push(*choice)?;
    }
    Ok(copied)
}

impl TryCopy for Flush {
    fn copy(&self) -> Mem<Flush> {
        Ok(Flush {
            contents: self.contents.copy()?,
            prints: self.prints.copy()?,
            choices: copy_of_choices(&self.choices)?,
            ask: self.ask.copy()?,
        })
    }
}
