//! The shapes of calls: how the words behind a first word are read.
ghost use Rattle.std.specs.Prelude.{◌≡◌};
ghost use Rattle.sf_types.specs.declared.call.Call.TheVariants.{SelectAsOf, Trim, FragMove};
ghost use Rattle.sf_script_calls.specs.declared.call.PayloadCall.TheVariants as wants;
ghost use Rattle.sf_script_calls.specs.Calls.{row_form, locator_row_form, locator_row_number_form, locator_form, two_locators_form, locator_number_form, locator_two_numbers_form, locator_three_numbers_form, two_locators_three_numbers_form, locator_payload_form, locator_number_payload_form, locator_two_numbers_payload_form, setoptions_form, rollback_to_form};
ghost use Rattle.sf_script_calls.specs.Inside.CallsOfWords.{row_call, locator_row_call, locator_call, two_locators_call, two_numbers_call, two_parts_call, payload_call};
ghost use Rattle.sf_script_calls.specs.Reads.{Reads};
ghost use Rattle.sf_script_calls.specs.Views.{call_view};

use crate::call::{PayloadCall, SpelledCall};
use crate::call_word::{
    LocatorRowWord, LocatorWord, PayloadWord, RowWord, TwoLocatorsWord, TwoNumbersWord,
    TwoPartsWord,
};
use crate::fields::{
    locator_at, locator_of, number_at, number_of, number_payload_of, payload_of, row_at, row_of,
    three_numbers_of, two_numbers_of, word_at,
};
use crate::unread::Unread;
use crate::words::is_word;
use sf_types::{Call, LocName, Name};
use std::alloc::Global;

// A call on a row.
fn row_call(word: RowWord, row: Name) -> Call
    ensures { result ≡ row_call word row }
{
    match word {
        RowWord::Insert => Call::Insert { row },
        RowWord::Delete => Call::Delete { row },
    }
}

// A call that sets a locator to a row.
fn locator_row_call(word: LocatorRowWord, to: LocName, row: Name) -> Call
    ensures { result ≡ locator_row_call word to row }
{
    match word {
        LocatorRowWord::Lock => Call::Lock { to, row },
        LocatorRowWord::Select => Call::Select { to, row },
    }
}

// A call on a locator, or on a savepoint.
fn locator_call(word: LocatorWord, at: LocName) -> Call
    ensures { result ≡ locator_call word at }
{
    match word {
        LocatorWord::Free => Call::Free { at },
        LocatorWord::Length => Call::Length { at },
        LocatorWord::Savepoint => Call::Savepoint { name: at },
    }
}

// A call on two locators.
fn two_locators_call(word: TwoLocatorsWord, at: LocName, from: LocName) -> Call
    ensures { result ≡ two_locators_call word at from }
{
    match word {
        TwoLocatorsWord::Assign => Call::Assign { to: at, from },
        TwoLocatorsWord::Append => Call::Append { at, from },
    }
}

// A call on an amount of bytes at an offset.
fn two_numbers_call(word: TwoNumbersWord, at: LocName, amount: u64, offset: u64) -> Call
    ensures { result ≡ two_numbers_call word at amount offset }
{
    match word {
        TwoNumbersWord::Read => Call::Read { at, amount, offset },
        TwoNumbersWord::Erase => Call::Erase { at, amount, offset },
        TwoNumbersWord::FragDelete => Call::FragDelete { at, amount, offset },
    }
}

// A call on parts of two values.
fn two_parts_call(
    word: TwoPartsWord,
    at: LocName,
    from: LocName,
    amount: u64,
    offset: u64,
    from_offset: u64,
) -> Call
    ensures { result ≡ two_parts_call word at from amount offset from_offset }
{
    match word {
        TwoPartsWord::Compare => Call::Compare {
            left: at,
            right: from,
            amount,
            left_offset: offset,
            right_offset: from_offset,
        },
        TwoPartsWord::Copy => Call::Copy {
            at,
            from,
            amount,
            to_offset: offset,
            from_offset,
        },
    }
}

// A call with a payload at an offset.
fn payload_call(word: PayloadWord, at: LocName, offset: u64) -> PayloadCall
    ensures { result ≡ payload_call word at offset }
{
    match word {
        PayloadWord::Instr => PayloadCall::Instr { at, offset },
        PayloadWord::Write => PayloadCall::Write { at, offset },
        PayloadWord::FragInsert => PayloadCall::FragInsert { at, offset },
    }
}

// ROW
#[tactic(auto, unfolding(crate::specs::Calls::row_form))]
pub fn row_form(alloc: Global, word: RowWord, text: &[u8]) -> Result<SpelledCall<'_>, Unread>
    ensures { Reads call_view result (row_form (row_call word) text.now) }
{
    let row = row_of(alloc, text)?;
    Ok(SpelledCall::Plain(row_call(word, row)))
}

// LOC ROW
#[tactic(auto, unfolding(crate::specs::Calls::locator_row_form))]
pub fn locator_row_form(
    alloc: Global,
    word: LocatorRowWord,
    text: &[u8],
) -> Result<SpelledCall<'_>, Unread>
    ensures { Reads call_view result (locator_row_form (locator_row_call word) text.now) }
{
    let (to, rest) = locator_at(alloc, text)?;
    let row = row_of(alloc, rest)?;
    Ok(SpelledCall::Plain(locator_row_call(word, to, row)))
}

// LOC ROW NUMBER
#[tactic(auto, unfolding(crate::specs::Calls::locator_row_number_form))]
pub fn locator_row_number_form(alloc: Global, text: &[u8]) -> Result<SpelledCall<'_>, Unread>
    ensures { Reads call_view result (locator_row_number_form SelectAsOf text.now) }
{
    let (to, rest) = locator_at(alloc, text)?;
    let (row, rest) = row_at(alloc, rest)?;
    let commit = number_of(rest)?;
    Ok(SpelledCall::Plain(Call::SelectAsOf { to, row, commit }))
}

// LOC
#[tactic(auto, unfolding(crate::specs::Calls::locator_form))]
pub fn locator_form(
    alloc: Global,
    word: LocatorWord,
    text: &[u8],
) -> Result<SpelledCall<'_>, Unread>
    ensures { Reads call_view result (locator_form (locator_call word) text.now) }
{
    let at = locator_of(alloc, text)?;
    Ok(SpelledCall::Plain(locator_call(word, at)))
}

// LOC LOC
#[tactic(auto, unfolding(crate::specs::Calls::two_locators_form))]
pub fn two_locators_form(
    alloc: Global,
    word: TwoLocatorsWord,
    text: &[u8],
) -> Result<SpelledCall<'_>, Unread>
    ensures { Reads call_view result (two_locators_form (two_locators_call word) text.now) }
{
    let (at, rest) = locator_at(alloc, text)?;
    let from = locator_of(alloc, rest)?;
    Ok(SpelledCall::Plain(two_locators_call(word, at, from)))
}

// LOC NUMBER
#[tactic(auto, unfolding(crate::specs::Calls::locator_number_form))]
pub fn locator_number_form(alloc: Global, text: &[u8]) -> Result<SpelledCall<'_>, Unread>
    ensures { Reads call_view result (locator_number_form Trim text.now) }
{
    let (at, rest) = locator_at(alloc, text)?;
    let length = number_of(rest)?;
    Ok(SpelledCall::Plain(Call::Trim { at, length }))
}

// LOC NUMBER NUMBER
#[tactic(auto, unfolding(crate::specs::Calls::locator_two_numbers_form))]
pub fn locator_two_numbers_form(
    alloc: Global,
    word: TwoNumbersWord,
    text: &[u8],
) -> Result<SpelledCall<'_>, Unread>
    ensures { Reads call_view result (locator_two_numbers_form (two_numbers_call word) text.now) }
{
    let (at, rest) = locator_at(alloc, text)?;
    let (amount, offset) = two_numbers_of(rest)?;
    Ok(SpelledCall::Plain(two_numbers_call(word, at, amount, offset)))
}

// LOC NUMBER NUMBER NUMBER
#[tactic(auto, unfolding(crate::specs::Calls::locator_three_numbers_form))]
pub fn locator_three_numbers_form(alloc: Global, text: &[u8]) -> Result<SpelledCall<'_>, Unread>
    ensures { Reads call_view result (locator_three_numbers_form FragMove text.now) }
{
    let (at, rest) = locator_at(alloc, text)?;
    let (amount, from_offset, to_offset) = three_numbers_of(rest)?;
    Ok(SpelledCall::Plain(Call::FragMove {
        at,
        amount,
        from_offset,
        to_offset,
    }))
}

// LOC LOC NUMBER NUMBER NUMBER
#[tactic(auto, unfolding(crate::specs::Calls::two_locators_three_numbers_form))]
pub fn two_locators_three_numbers_form(
    alloc: Global,
    word: TwoPartsWord,
    text: &[u8],
) -> Result<SpelledCall<'_>, Unread>
    ensures { Reads call_view result (two_locators_three_numbers_form (two_parts_call word) text.now) }
{
    let (at, rest) = locator_at(alloc, text)?;
    let (from, rest) = locator_at(alloc, rest)?;
    let (amount, offset, from_offset) = three_numbers_of(rest)?;
    Ok(SpelledCall::Plain(two_parts_call(word, at, from, amount, offset, from_offset)))
}

// LOC PAYLOAD
#[tactic(auto, unfolding(crate::specs::Calls::locator_payload_form))]
pub fn locator_payload_form(alloc: Global, text: &[u8]) -> Result<SpelledCall<'_>, Unread>
    ensures { Reads call_view result (locator_payload_form wants.WriteAppend text.now) }
{
    let (at, rest) = locator_at(alloc, text)?;
    let payload = payload_of(rest)?;
    Ok(SpelledCall::WithPayload(PayloadCall::WriteAppend { at }, payload))
}

// LOC NUMBER PAYLOAD
#[tactic(auto, unfolding(crate::specs::Calls::locator_number_payload_form))]
pub fn locator_number_payload_form(
    alloc: Global,
    word: PayloadWord,
    text: &[u8],
) -> Result<SpelledCall<'_>, Unread>
    ensures { Reads call_view result (locator_number_payload_form (payload_call word) text.now) }
{
    let (at, rest) = locator_at(alloc, text)?;
    let (offset, payload) = number_payload_of(rest)?;
    Ok(SpelledCall::WithPayload(payload_call(word, at, offset), payload))
}

// LOC NUMBER NUMBER PAYLOAD
#[tactic(auto, unfolding(crate::specs::Calls::locator_two_numbers_payload_form))]
pub fn locator_two_numbers_payload_form(
    alloc: Global,
    text: &[u8],
) -> Result<SpelledCall<'_>, Unread>
    ensures { Reads call_view result (locator_two_numbers_payload_form wants.FragReplace text.now) }
{
    let (at, rest) = locator_at(alloc, text)?;
    let (old_amount, rest) = number_at(rest)?;
    let (offset, payload) = number_payload_of(rest)?;
    Ok(SpelledCall::WithPayload(
        PayloadCall::FragReplace {
            at,
            old_amount,
            offset,
        },
        payload,
    ))
}

// LOC `dedup on`, LOC `dedup off`
#[tactic(auto, unfolding(crate::specs::Calls::setoptions_form))]
pub fn setoptions_form(alloc: Global, text: &[u8]) -> Result<SpelledCall<'_>, Unread>
    ensures { Reads call_view result (setoptions_form text.now) }
{
    let (at, rest) = locator_at(alloc, text)?;
    if is_word(b"dedup on", rest) {
        Ok(SpelledCall::Plain(Call::SetOptions { at, share: true }))
    } else if is_word(b"dedup off", rest) {
        Ok(SpelledCall::Plain(Call::SetOptions { at, share: false }))
    } else {
        Err(Unread::NoForm)
    }
}

// `to` NAME
#[tactic(auto, unfolding(crate::specs::Calls::rollback_to_form, crate::specs::Calls::locator_form))]
pub fn rollback_to_form(alloc: Global, text: &[u8]) -> Result<SpelledCall<'_>, Unread>
    ensures { Reads call_view result (rollback_to_form text.now) }
{
    let (word, rest) = word_at(text)?;
    if is_word(b"to", word) {
        let name = locator_of(alloc, rest)?;
        Ok(SpelledCall::Plain(Call::RollbackTo { name }))
    } else {
        Err(Unread::NoForm)
    }
}
