//! The fields of a call line.
ghost use Rattle.std.specs.Prelude.{◌≡◌};
ghost use Rattle.sf_types.specs.declared.limits.TheConstants.{ROW_NAME_BYTES, LOCATOR_NAME_BYTES};
ghost use Rattle.sf_types.specs.Values.Names.{name_of};
ghost use Rattle.sf_script_calls.specs.Calls.{locator_at, row_at, number_at, two_numbers_of, three_numbers_of, number_payload_of};
ghost use Rattle.sf_script_calls.specs.Reads.{Reads};
ghost use Rattle.sf_script_calls.specs.Numbers.{number_of};
ghost use Rattle.sf_script_calls.specs.Payloads.{payload_of};
ghost use Rattle.sf_script_calls.specs.Views.{payload_view};
ghost use Rattle.sf_script_calls.specs.Words.{word_at};

use crate::payload::SpelledPayload;
use crate::unread::Unread;
use crate::{number, payload, words};
use sf_types::{LocName, Name};
use std::alloc::Global;

// A word that a space ends, and what stands behind the space.
pub fn word_at(text: &[u8]) -> Result<(&[u8], &[u8]), Unread>
    ensures { Reads (λ x. (x.0.now, x.1.now)) result (word_at text.now) }
{
    match words::word_at(text) {
        Some((word, rest)) => Ok((word, rest)),
        None => Err(Unread::NoForm),
    }
}

// A row's name.
pub fn row_of(alloc: Global, text: &[u8]) -> Result<Name, Unread>
    ensures { Reads (λ name. name) result (name_of ROW_NAME_BYTES text.now) }
{
    match Name::new(alloc, text)? {
        Some(name) => Ok(name),
        None => Err(Unread::NoForm),
    }
}

// A locator's name.
pub fn locator_of(alloc: Global, text: &[u8]) -> Result<LocName, Unread>
    ensures { Reads (λ name. name) result (name_of LOCATOR_NAME_BYTES text.now) }
{
    match LocName::new(alloc, text)? {
        Some(name) => Ok(name),
        None => Err(Unread::NoForm),
    }
}

// A number.
pub fn number_of(text: &[u8]) -> Result<u64, Unread>
    ensures { Reads (λ number. number) result (number_of text.now) }
{
    match number::number_of(text) {
        Some(number) => Ok(number),
        None => Err(Unread::NoForm),
    }
}

// A payload.
pub fn payload_of(text: &[u8]) -> Result<SpelledPayload<'_>, Unread>
    ensures { Reads payload_view result (payload_of text.now) }
{
    match payload::payload_of(text) {
        Some(payload) => Ok(payload),
        None => Err(Unread::NoForm),
    }
}

// A row's name that a space ends.
#[tactic(auto, unfolding(crate::specs::Calls::row_at))]
pub fn row_at(alloc: Global, text: &[u8]) -> Result<(Name, &[u8]), Unread>
    ensures { Reads (λ x. (x.0, x.1.now)) result (row_at text.now) }
{
    let (word, rest) = word_at(text)?;
    let name = row_of(alloc, word)?;
    Ok((name, rest))
}

// A locator's name that a space ends.
#[tactic(auto, unfolding(crate::specs::Calls::locator_at))]
pub fn locator_at(alloc: Global, text: &[u8]) -> Result<(LocName, &[u8]), Unread>
    ensures { Reads (λ x. (x.0, x.1.now)) result (locator_at text.now) }
{
    let (word, rest) = word_at(text)?;
    let name = locator_of(alloc, word)?;
    Ok((name, rest))
}

// A number that a space ends.
#[tactic(auto, unfolding(crate::specs::Calls::number_at))]
pub fn number_at(text: &[u8]) -> Result<(u64, &[u8]), Unread>
    ensures { Reads (λ x. (x.0, x.1.now)) result (number_at text.now) }
{
    let (word, rest) = word_at(text)?;
    let number = number_of(word)?;
    Ok((number, rest))
}

// Two numbers.
#[tactic(auto, unfolding(crate::specs::Calls::two_numbers_of))]
pub fn two_numbers_of(text: &[u8]) -> Result<(u64, u64), Unread>
    ensures { Reads (λ x. x) result (two_numbers_of text.now) }
{
    let (first, rest) = number_at(text)?;
    let second = number_of(rest)?;
    Ok((first, second))
}

// Three numbers.
#[tactic(auto, unfolding(crate::specs::Calls::three_numbers_of))]
pub fn three_numbers_of(text: &[u8]) -> Result<(u64, u64, u64), Unread>
    ensures { Reads (λ x. x) result (three_numbers_of text.now) }
{
    let (first, rest) = number_at(text)?;
    let (second, third) = two_numbers_of(rest)?;
    Ok((first, second, third))
}

// A number and a payload.
#[tactic(auto, unfolding(crate::specs::Calls::number_payload_of))]
pub fn number_payload_of(text: &[u8]) -> Result<(u64, SpelledPayload<'_>), Unread>
    ensures { Reads (λ x. (x.0, payload_view x.1)) result (number_payload_of text.now) }
{
    let (number, rest) = number_at(text)?;
    let payload = payload_of(rest)?;
    Ok((number, payload))
}
