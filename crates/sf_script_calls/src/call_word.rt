//! The words of calls.
ghost use Rattle.std.specs.Prelude.{◌≡◌};
ghost use Rattle.sf_script_calls.specs.CallTable.{fragment_form, writing_form, reading_form, form_behind};
ghost use Rattle.sf_script_calls.specs.Inside.CallsOfWords.{form_of_first};

use crate::words::is_word;

// ROW
#[derive(Clone, Copy)]
pub enum RowWord {
    Insert,
    Delete,
}

// LOC ROW
#[derive(Clone, Copy)]
pub enum LocatorRowWord {
    Lock,
    Select,
}

// LOC
#[derive(Clone, Copy)]
pub enum LocatorWord {
    Free,
    Length,
    Savepoint,
}

// LOC LOC
#[derive(Clone, Copy)]
pub enum TwoLocatorsWord {
    Assign,
    Append,
}

// LOC NUMBER NUMBER
#[derive(Clone, Copy)]
pub enum TwoNumbersWord {
    Read,
    Erase,
    FragDelete,
}

// LOC LOC NUMBER NUMBER NUMBER
#[derive(Clone, Copy)]
pub enum TwoPartsWord {
    Compare,
    Copy,
}

// LOC NUMBER PAYLOAD
#[derive(Clone, Copy)]
pub enum PayloadWord {
    Instr,
    Write,
    FragInsert,
}

// The first word of a call, by the shape of what stands behind it.
#[derive(Clone, Copy)]
pub enum CallWord {
    Row(RowWord),
    LocatorRow(LocatorRowWord),
    AsOf,
    Locator(LocatorWord),
    TwoLocators(TwoLocatorsWord),
    Trim,
    TwoNumbers(TwoNumbersWord),
    FragMove,
    TwoParts(TwoPartsWord),
    WriteAppend,
    Payload(PayloadWord),
    FragReplace,
    SetOptions,
    RollbackTo,
}

// The call of the last table.
#[tactic(auto, unfolding(crate::specs::CallTable::fragment_form))]
fn fragment_word(word: &[u8]) -> Option<CallWord>
    ensures { fragment_form word.now ≡ form_of_first result }
{
    if is_word(b"fraginsert", word) {
        return Some(CallWord::Payload(PayloadWord::FragInsert));
    }
    if is_word(b"fragdelete", word) {
        return Some(CallWord::TwoNumbers(TwoNumbersWord::FragDelete));
    }
    if is_word(b"fragmove", word) {
        return Some(CallWord::FragMove);
    }
    if is_word(b"fragreplace", word) {
        return Some(CallWord::FragReplace);
    }
    None
}

// The call of the last two tables.
#[tactic(auto, unfolding(crate::specs::CallTable::writing_form))]
fn writing_word(word: &[u8]) -> Option<CallWord>
    ensures { writing_form word.now ≡ form_of_first result }
{
    if is_word(b"write", word) {
        return Some(CallWord::Payload(PayloadWord::Write));
    }
    if is_word(b"writeappend", word) {
        return Some(CallWord::WriteAppend);
    }
    if is_word(b"append", word) {
        return Some(CallWord::TwoLocators(TwoLocatorsWord::Append));
    }
    if is_word(b"copy", word) {
        return Some(CallWord::TwoParts(TwoPartsWord::Copy));
    }
    if is_word(b"erase", word) {
        return Some(CallWord::TwoNumbers(TwoNumbersWord::Erase));
    }
    if is_word(b"trim", word) {
        return Some(CallWord::Trim);
    }
    fragment_word(word)
}

// The call of the last three tables.
#[tactic(auto, unfolding(crate::specs::CallTable::reading_form))]
fn reading_word(word: &[u8]) -> Option<CallWord>
    ensures { reading_form word.now ≡ form_of_first result }
{
    if is_word(b"assign", word) {
        return Some(CallWord::TwoLocators(TwoLocatorsWord::Assign));
    }
    if is_word(b"free", word) {
        return Some(CallWord::Locator(LocatorWord::Free));
    }
    if is_word(b"length", word) {
        return Some(CallWord::Locator(LocatorWord::Length));
    }
    if is_word(b"read", word) {
        return Some(CallWord::TwoNumbers(TwoNumbersWord::Read));
    }
    if is_word(b"instr", word) {
        return Some(CallWord::Payload(PayloadWord::Instr));
    }
    if is_word(b"compare", word) {
        return Some(CallWord::TwoParts(TwoPartsWord::Compare));
    }
    writing_word(word)
}

// The call of a first word. None where it is no call's.
#[tactic(auto, unfolding(crate::specs::CallTable::form_behind))]
pub fn call_word(word: &[u8]) -> Option<CallWord>
    ensures { form_behind word.now ≡ form_of_first result }
{
    if is_word(b"insert", word) {
        return Some(CallWord::Row(RowWord::Insert));
    }
    if is_word(b"delete", word) {
        return Some(CallWord::Row(RowWord::Delete));
    }
    if is_word(b"lock", word) {
        return Some(CallWord::LocatorRow(LocatorRowWord::Lock));
    }
    if is_word(b"select", word) {
        return Some(CallWord::LocatorRow(LocatorRowWord::Select));
    }
    if is_word(b"asof", word) {
        return Some(CallWord::AsOf);
    }
    if is_word(b"setoptions", word) {
        return Some(CallWord::SetOptions);
    }
    if is_word(b"savepoint", word) {
        return Some(CallWord::Locator(LocatorWord::Savepoint));
    }
    if is_word(b"rollback", word) {
        return Some(CallWord::RollbackTo);
    }
    reading_word(word)
}
