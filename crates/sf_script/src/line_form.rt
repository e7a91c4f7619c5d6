//! The forms of lines.
ghost use Rattle.std.specs.Prelude.{◌≡◌};
ghost use Rattle.sf_script_calls.specs.Reads.{Reads};
ghost use Rattle.sf_script.specs.LineForms.{header_line, sessions_line, option_line, call_line, schedule_line, form_of};
ghost use Rattle.sf_script.specs.Inside.Views.{line_view};

use crate::option_line::{OptionLine, option_of};
use crate::reading::Reading;
use crate::schedule::{are_turns, session_of};
use sf_script_calls::{SpelledCall, Unread, call_form, first_word, is_word, number_of, word_at};
use std::alloc::Global;

// What a line says.
#[derive(Drop)]
pub enum SpelledLine<'a> {
    Header,
    Setting(OptionLine),
    Sessions(u64),
    Call(u16, SpelledCall<'a>),
    // The turns that the words of a text spell where there are so many sessions.
    Schedule(u16, &'a [u8]),
}

// `securefiles 1`
#[tactic(auto, unfolding(crate::specs::LineForms::header_line))]
fn header_line(text: &[u8]) -> Result<SpelledLine<'_>, Unread>
    ensures { Reads line_view result (header_line text.now) }
{
    if is_word(b"securefiles 1", text) {
        Ok(SpelledLine::Header)
    } else {
        Err(Unread::NoForm)
    }
}

// The number behind `sessions`.
fn sessions_line(text: &[u8]) -> Result<SpelledLine<'_>, Unread>
    ensures { Reads line_view result (sessions_line text.now) }
{
    match number_of(text) {
        Some(number) => Ok(SpelledLine::Sessions(number)),
        None => Err(Unread::NoForm),
    }
}

// `sessions N`, or an option's word and what it is set to.
#[tactic(auto, unfolding(crate::specs::LineForms::option_line))]
fn option_line(text: &[u8]) -> Result<SpelledLine<'_>, Unread>
    ensures { Reads line_view result (option_line text.now) }
{
    let Some((word, rest)) = word_at(text) else {
        return Err(Unread::NoForm);
    };
    if is_word(b"sessions", word) {
        return sessions_line(rest);
    }
    match option_of(word, rest) {
        Some(option) => Ok(SpelledLine::Setting(option)),
        None => Err(Unread::NoForm),
    }
}

// `S: ` and a call
#[tactic(auto, unfolding(crate::specs::LineForms::call_line))]
fn call_line(alloc: Global, sessions: u16, text: &[u8]) -> Result<SpelledLine<'_>, Unread>
    ensures { Reads line_view result (call_line sessions text.now) }
{
    let Some((word, rest)) = word_at(text) else {
        return Err(Unread::NoForm);
    };
    let Some(session) = session_of(sessions, word) else {
        return Err(Unread::NoForm);
    };
    let form = call_form(alloc, rest)?;
    Ok(SpelledLine::Call(session, form))
}

// `schedule` and one or more turns
#[tactic(auto, unfolding(crate::specs::LineForms::schedule_line))]
fn schedule_line(sessions: u16, text: &[u8]) -> Result<SpelledLine<'_>, Unread>
    ensures { Reads line_view result (schedule_line sessions text.now) }
{
    let Some((_, rest)) = word_at(text) else {
        return Err(Unread::NoForm);
    };
    if are_turns(sessions, rest) {
        Ok(SpelledLine::Schedule(sessions, rest))
    } else {
        Err(Unread::NoForm)
    }
}

// What a line says, after what was read before it.
pub fn line_form<'a>(
    alloc: Global,
    reading: &Reading,
    text: &'a [u8],
) -> Result<SpelledLine<'a>, Unread>
    ensures { Reads line_view result (form_of reading.now text.now) }
{
    match reading {
        Reading::Nothing => header_line(text),
        Reading::Options(_) => option_line(text),
        Reading::Sessions(draft) => {
            let sessions = draft.sessions();
            if is_word(b"schedule", first_word(text)) {
                schedule_line(sessions, text)
            } else {
                call_line(alloc, sessions, text)
            }
        }
    }
}
