//! Which call a text spells.
ghost use Rattle.std.specs.Prelude.{◌≡◌};
ghost use Rattle.sf_script_calls.specs.CallTable.{call_form};
ghost use Rattle.sf_script_calls.specs.Inside.CallsOfWords.{form_of_word};
ghost use Rattle.sf_script_calls.specs.Reads.{Reads};
ghost use Rattle.sf_script_calls.specs.Views.{call_view};

use crate::call::SpelledCall;
use crate::call_word::{CallWord, call_word};
use crate::fields::word_at;
use crate::shapes::{
    locator_form, locator_number_form, locator_number_payload_form, locator_payload_form,
    locator_row_form, locator_row_number_form, locator_three_numbers_form,
    locator_two_numbers_form, locator_two_numbers_payload_form, rollback_to_form, row_form,
    setoptions_form, two_locators_form, two_locators_three_numbers_form,
};
use crate::unread::Unread;
use crate::words::is_word;
use sf_types::Call;
use std::alloc::Global;

// The call of a first word and of the text behind it.
fn form_of_word(alloc: Global, word: CallWord, text: &[u8]) -> Result<SpelledCall<'_>, Unread>
    ensures { Reads call_view result (form_of_word word text.now) }
{
    match word {
        CallWord::Row(word) => row_form(alloc, word, text),
        CallWord::LocatorRow(word) => locator_row_form(alloc, word, text),
        CallWord::AsOf => locator_row_number_form(alloc, text),
        CallWord::Locator(word) => locator_form(alloc, word, text),
        CallWord::TwoLocators(word) => two_locators_form(alloc, word, text),
        CallWord::Trim => locator_number_form(alloc, text),
        CallWord::TwoNumbers(word) => locator_two_numbers_form(alloc, word, text),
        CallWord::FragMove => locator_three_numbers_form(alloc, text),
        CallWord::TwoParts(word) => two_locators_three_numbers_form(alloc, word, text),
        CallWord::WriteAppend => locator_payload_form(alloc, text),
        CallWord::Payload(word) => locator_number_payload_form(alloc, word, text),
        CallWord::FragReplace => locator_two_numbers_payload_form(alloc, text),
        CallWord::SetOptions => setoptions_form(alloc, text),
        CallWord::RollbackTo => rollback_to_form(alloc, text),
    }
}

/// The call that a text spells, or why there is none. The text is all of a line behind its session. The form is the
/// project's own.
#[tactic(auto, unfolding(crate::specs::CallTable::call_form))]
pub fn call_form(alloc: Global, text: &[u8]) -> Result<SpelledCall<'_>, Unread>
    ensures exact { Reads call_view result (call_form text.now) }
{
    if is_word(b"commit", text) {
        return Ok(SpelledCall::Plain(Call::Commit));
    }
    if is_word(b"rollback", text) {
        return Ok(SpelledCall::Plain(Call::Rollback));
    }
    let (word, rest) = word_at(text)?;
    match call_word(word) {
        Some(word) => form_of_word(alloc, word, rest),
        None => Err(Unread::NoForm),
    }
}
