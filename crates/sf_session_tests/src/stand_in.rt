//! A stand-in for the store: it answers what a test tells it.
ghost use Rattle.std.specs.Prelude.{◌≡◌, IfOk};
ghost use Rattle.sf_types.specs.declared.reply.Fault.{Fault as RuleFault};
ghost use Rattle.sf_types.specs.Halves.Asks.{Known};
ghost use Rattle.sf_versions.specs.Asks.{request_of_part};
ghost use Rattle.sf_own_part.specs.Ends.{IsRefusing, IsTwin};

use sf_chunk_map::Map;
use sf_script_calls::{call_form, spelled_call};
use sf_session::{Need, SessionCore};
use sf_types::{Blob, Call, Fault, Mem, OutOfMemory, Reply, TryCopy};
use sf_versions::{Answer, Ask, Part};
use std::alloc::Global;

/// What the store answers to an event of which the session knows no refusal.
#[derive(Clone, Copy)]
pub enum Told {
    Done,
    /// A value of these bytes, the first of `abcdefgh`.
    Value(usize),
    Committed(u64),
    Ended,
}

// The call that a script spells so. A text that spells none counts as want of memory.
fn call_of(alloc: Global, text: &[u8]) -> Mem<Call> {
    match call_form(alloc, text) {
        Ok(spelled) => spelled_call(alloc, spelled),
        Err(_) => Err(OutOfMemory),
    }
}

// The first bytes of a text of eight, as a value.
fn value_of(alloc: Global, count: usize) -> Mem<Map> {
    let text = b"abcdefgh";
    if count > text.len() {
        return Err(OutOfMemory);
    }
    Map::of_blob(alloc, Blob::new(alloc, &text[..count])?)
}

// What the store answers as it is told. A value is answered twice.
fn answer_of(alloc: Global, told: Told) -> Mem<Answer>
    ensures { IfOk result IsTwin }
{
    match told {
        Told::Done => Ok(Answer::Done),
        Told::Value(count) => {
            let map = value_of(alloc, count)?;
            let twin = map.copy()?;
            Ok(Answer::Value { map, twin })
        }
        Told::Committed(number) => Ok(Answer::Committed(number)),
        Told::Ended => Ok(Answer::Ended),
    }
}

// What the store answers to an ask: the refusal that the session knows, and else what it is told.
fn answer_to(alloc: Global, ask: &Ask, told: Told) -> Mem<Answer>
    ensures twin { IfOk result IsTwin }
    ensures refused { (fault : RuleFault) → request_of_part ask.now.part ≡ Known fault → IfOk result IsRefusing }
{
    match &ask.part {
        Part::Known(fault) => Ok(Answer::Refused(*fault)),
        _ => answer_of(alloc, told),
    }
}

// Ends the standing call by the store's answer. It counts as want of memory where no answer is awaited.
fn end_by_answer(alloc: Global, core: &mut SessionCore, told: Told) -> Mem<Reply> {
    let Need::Event = core.next() else {
        return Err(OutOfMemory);
    };
    let ask = core.ask()?;
    match answer_to(alloc, &ask, told) {
        Ok(answer) => {
            drop(ask);
            Ok(core.accept(answer))
        }
        Err(error) => {
            drop(ask);
            Err(error)
        }
    }
}

// The call that a text spells begins to stand.
fn start_call(alloc: Global, core: &mut SessionCore, text: &[u8]) -> Mem<()> {
    let Need::Idle = core.next() else {
        return Err(OutOfMemory);
    };
    core.start(call_of(alloc, text)?)
}

// Ends the standing call by itself where it is local, and else by the store's answer.
fn end_standing(alloc: Global, core: &mut SessionCore, told: Told) -> Mem<Reply> {
    match core.next() {
        Need::Local => core.local(),
        _ => end_by_answer(alloc, core, told),
    }
}

/// Makes the call that a text spells. A step for which memory is wanted once is tried again, since it leaves the core as before.
pub fn make(alloc: Global, core: &mut SessionCore, text: &[u8], told: Told) -> Mem<Reply> {
    if start_call(alloc, core, text).is_err() {
        start_call(alloc, core, text)?;
    }
    match end_standing(alloc, core, told) {
        Ok(reply) => Ok(reply),
        Err(_) => end_standing(alloc, core, told),
    }
}

// A fault's word in a transcript, of those that the tests meet.
fn word_of(fault: Fault) -> &'static [u8] {
    match fault {
        Fault::UnknownLocator => b"unknown-locator",
        Fault::TooManyLocators => b"too-many-locators",
        Fault::Lost => b"lost",
        Fault::ReadOnly => b"read-only",
        Fault::SpansTransactions => b"spans-transactions",
        Fault::RowNotLocked => b"row-not-locked",
        Fault::NoSuchRow => b"no-such-row",
        Fault::NoSavepoint => b"no-savepoint",
        _ => b"another",
    }
}

/// Whether a transcript spells a reply so: bytes as they are, a digit for a number, and no number of a refusal or a commit.
pub fn is_spelled(reply: &Reply, text: &[u8]) -> bool {
    match reply {
        Reply::Done => text == b"ok".as_slice(),
        Reply::Number(number) => text == [b'0' + (*number % 10) as u8].as_slice(),
        Reply::Bytes(bytes) => text == bytes.as_bytes(),
        Reply::Committed(_) => text == b"commit".as_slice(),
        Reply::Refused(fault) => text == word_of(*fault),
        Reply::Ended => text == b"end".as_slice(),
        Reply::Equal(_) => false,
    }
}
