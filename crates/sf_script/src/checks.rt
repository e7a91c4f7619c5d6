//! The tests of a line in the order of their reasons.
ghost use Rattle.std.specs.Prelude.{◌≡◌, not};
ghost use Rattle.sf_script.specs.Reasons.{has_wrong_bytes, is_misplaced, names_no_session, form_passes_limit};
ghost use Rattle.sf_script.specs.Schedules.{are_turns, schedule_words};
ghost use Rattle.sf_script.specs.Inside.Readings.{early_reason, form_reason};
ghost use Rattle.sf_script.specs.Inside.Views.{text_line, line_view};

use crate::fault::Reason;
use crate::line_form::SpelledLine;
use crate::lines::{TextLine, are_line_bytes};
use crate::option_line::{is_option_in_range, option_rank};
use crate::reading::Reading;
use crate::schedule::{are_turns, ends_with_colon, session_of, turn_count};
use sf_script_calls::{first_word, is_word, spelled_length, word_at};
use sf_types::STORE_SESSIONS;

// Whether a line isn't ended, or holds a byte that no line may hold.
#[tactic(auto, unfolding(crate::specs::Reasons::has_wrong_bytes))]
fn has_wrong_bytes(line: &TextLine) -> bool
    ensures { result ≡ has_wrong_bytes (text_line line.now) }
{
    !line.ended || !are_line_bytes(line.text)
}

// Whether a line's first word may not stand here.
#[tactic(auto, unfolding(crate::specs::Reasons::is_misplaced))]
fn is_misplaced(reading: &Reading, text: &[u8]) -> bool
    ensures { result ≡ is_misplaced reading.now text.now }
{
    let word = first_word(text);
    match reading {
        Reading::Nothing => !is_word(b"securefiles", word),
        Reading::Options(read) => {
            !(read.rank() < option_rank(word) || is_word(b"sessions", word))
        }
        Reading::Sessions(draft) => {
            !(is_word(b"schedule", word) || !draft.has_schedule() && ends_with_colon(word))
        }
    }
}

// Whether a word of a schedule line after its first is no turn.
fn has_no_turns(sessions: u16, text: &[u8]) -> bool
    ensures { result ≡ not (are_turns sessions (schedule_words text.now)) }
{
    match word_at(text) {
        Some((_, rest)) => !are_turns(sessions, rest),
        None => false,
    }
}

// Whether a call line's first word names no session, or a word of a schedule line is no turn.
#[tactic(auto, unfolding(crate::specs::Reasons::names_no_session))]
fn names_no_session(reading: &Reading, text: &[u8]) -> bool
    ensures { result ≡ names_no_session reading.now text.now }
{
    let Reading::Sessions(draft) = reading else {
        return false;
    };
    let sessions = draft.sessions();
    let word = first_word(text);
    if is_word(b"schedule", word) {
        has_no_turns(sessions, text)
    } else {
        session_of(sessions, word).is_none()
    }
}

// Whether a line passes a limit.
#[tactic(auto, unfolding(crate::specs::Reasons::form_passes_limit))]
fn passes_limit(reading: &Reading, line: &SpelledLine) -> bool
    ensures { result ≡ form_passes_limit reading.now (line_view line.now) }
{
    match line {
        SpelledLine::Header => false,
        SpelledLine::Setting(option) => !is_option_in_range(*option),
        SpelledLine::Sessions(number) => !(1 <= *number && *number <= u64::from(STORE_SESSIONS)),
        SpelledLine::Call(_, call) => match reading {
            Reading::Sessions(draft) => draft.has_no_room(spelled_length(call)),
            _ => false,
        },
        SpelledLine::Schedule(sessions, words) => match reading {
            Reading::Sessions(draft) => {
                let count = turn_count(*sessions, words);
                draft.has_no_room_for_turns(count)
            }
            _ => false,
        },
    }
}

// Why a line is refused before its form is looked at.
#[tactic(auto, unfolding(crate::specs::Inside::Readings::early_reason))]
pub fn early_reason(reading: &Reading, line: &TextLine) -> Option<Reason>
    ensures { result ≡ early_reason reading.now (text_line line.now) }
{
    if has_wrong_bytes(line) {
        Some(Reason::Bytes)
    } else if is_misplaced(reading, line.text) {
        Some(Reason::Place)
    } else if names_no_session(reading, line.text) {
        Some(Reason::Session)
    } else {
        None
    }
}

// Why a line of a form is refused.
#[tactic(auto, unfolding(crate::specs::Inside::Readings::form_reason))]
pub fn form_reason(reading: &Reading, line: &SpelledLine) -> Option<Reason>
    ensures { result ≡ form_reason reading.now (line_view line.now) }
{
    if passes_limit(reading, line) {
        Some(Reason::Limit)
    } else {
        None
    }
}
