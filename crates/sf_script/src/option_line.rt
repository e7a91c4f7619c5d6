//! Option lines.
ghost use Rattle.std.specs.Prelude.{◌≡◌, IsTrue};
ghost use Rattle.sf_script.specs.OptionLines.{option_rank, dedup_of, retention_of, option_of, is_option_in_range, with_option, rank_of};

use sf_script_calls::{is_word, number_of};
use sf_types::{
    LEAST_GATHER_BYTES, MOST_GATHER_BYTES, Options, RETAINED_COMMITS, STORE_BLOCKS,
    STORE_DISPENSERS,
};

// What an option line sets.
#[derive(Clone, Copy)]
pub enum OptionLine {
    Capacity(u64),
    Dedup(bool),
    Retention(u64),
    RetentionMax,
    Gather(u64),
    Dispensers(u64),
}

// The rank of an option's word in the order of options, or 0.
#[tactic(auto, unfolding(crate::specs::OptionLines::option_rank))]
pub fn option_rank(word: &[u8]) -> u8
    ensures { result ≡ option_rank word.now }
{
    if is_word(b"capacity", word) {
        1
    } else if is_word(b"dedup", word) {
        2
    } else if is_word(b"retention", word) {
        3
    } else if is_word(b"gather", word) {
        4
    } else if is_word(b"dispensers", word) {
        5
    } else {
        0
    }
}

// `on` or `off`
fn dedup_of(text: &[u8]) -> Option<OptionLine>
    ensures { result ≡ dedup_of text.now }
{
    if is_word(b"on", text) {
        Some(OptionLine::Dedup(true))
    } else if is_word(b"off", text) {
        Some(OptionLine::Dedup(false))
    } else {
        None
    }
}

// A number, or `max`
fn retention_of(text: &[u8]) -> Option<OptionLine>
    ensures { result ≡ retention_of text.now }
{
    if is_word(b"max", text) {
        Some(OptionLine::RetentionMax)
    } else {
        let number = number_of(text)?;
        Some(OptionLine::Retention(number))
    }
}

// The option of a line's first word and of what stands behind it.
#[tactic(auto, unfolding(crate::specs::OptionLines::option_of))]
pub fn option_of(word: &[u8], text: &[u8]) -> Option<OptionLine>
    ensures { result ≡ option_of word.now text.now }
{
    if is_word(b"capacity", word) {
        let number = number_of(text)?;
        Some(OptionLine::Capacity(number))
    } else if is_word(b"dedup", word) {
        dedup_of(text)
    } else if is_word(b"retention", word) {
        retention_of(text)
    } else if is_word(b"gather", word) {
        let number = number_of(text)?;
        Some(OptionLine::Gather(number))
    } else if is_word(b"dispensers", word) {
        let number = number_of(text)?;
        Some(OptionLine::Dispensers(number))
    } else {
        None
    }
}

// Whether an option is set to a number in its range.
pub fn is_option_in_range(option: OptionLine) -> bool
    ensures { result ≡ is_option_in_range option }
{
    match option {
        OptionLine::Capacity(number) => 1 <= number && number <= u64::from(STORE_BLOCKS),
        OptionLine::Dedup(_) => true,
        OptionLine::Retention(number) => number <= u64::from(RETAINED_COMMITS),
        OptionLine::RetentionMax => true,
        OptionLine::Gather(number) => {
            u64::from(LEAST_GATHER_BYTES) <= number && number <= u64::from(MOST_GATHER_BYTES)
        }
        OptionLine::Dispensers(number) => 1 <= number && number <= u64::from(STORE_DISPENSERS),
    }
}

// The rank of what is set.
pub fn rank_of(option: OptionLine) -> u8
    ensures { result ≡ rank_of option }
{
    match option {
        OptionLine::Capacity(_) => 1,
        OptionLine::Dedup(_) => 2,
        OptionLine::Retention(_) => 3,
        OptionLine::RetentionMax => 3,
        OptionLine::Gather(_) => 4,
        OptionLine::Dispensers(_) => 5,
    }
}

// The options with one set.
pub fn with_option(options: Options, option: OptionLine) -> Options
    requires { IsTrue (is_option_in_range option) }
    ensures { result ≡ with_option options option }
{
    match option {
        OptionLine::Capacity(number) => Options {
            capacity: number as u32,
            ..options
        },
        OptionLine::Dedup(dedup) => Options { dedup, ..options },
        OptionLine::Retention(number) => Options {
            retention: number as u32,
            max: false,
            ..options
        },
        OptionLine::RetentionMax => Options {
            retention: 0,
            max: true,
            ..options
        },
        OptionLine::Gather(number) => Options {
            gather: number as u32,
            ..options
        },
        OptionLine::Dispensers(number) => Options {
            dispensers: number as u32,
            ..options
        },
    }
}
