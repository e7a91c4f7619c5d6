//! Numbers of sessions, and the words of schedule lines.
ghost use Rattle.std.specs.Prelude.{◌≡◌, ◌∷◌, ◌++◌, [], length, is_some, IfOk};
ghost use Rattle.sf_script.specs.Schedules.{session_number, ends_with_colon, session_of, turn_of, are_turns, turns_of};
ghost use Rattle.sf_script_calls.specs.Words.{parts_of};

use crate::turn::Turn;
use sf_script_calls::{is_word, number_of, word_at};
use sf_types::Mem;

// The number of one of so many sessions.
#[tactic(auto, unfolding(crate::specs::Schedules::session_number))]
pub fn session_number(sessions: u16, text: &[u8]) -> Option<u16>
    ensures { result ≡ session_number sessions text.now }
{
    let number = number_of(text)?;
    if 1 <= number && number <= u64::from(sessions) {
        Some(number as u16)
    } else {
        None
    }
}

// Whether a word ends with a colon.
pub fn ends_with_colon(word: &[u8]) -> bool
    ensures { result ≡ ends_with_colon word.now }
{
    !word.is_empty() && word[word.len() - 1] == b':'
}

// The session that a call line's first word names.
#[tactic(auto, unfolding(crate::specs::Schedules::session_of))]
pub fn session_of(sessions: u16, word: &[u8]) -> Option<u16>
    ensures { result ≡ session_of sessions word.now }
{
    if ends_with_colon(word) {
        session_number(sessions, &word[..word.len() - 1])
    } else {
        None
    }
}

// The turn that a word spells.
#[tactic(auto, unfolding(crate::specs::Schedules::turn_of))]
fn turn_of(sessions: u16, word: &[u8]) -> Option<Turn>
    ensures { result ≡ turn_of sessions word.now }
{
    if is_word(b"r", word) {
        Some(Turn::Reclaim)
    } else if is_word(b"shrink", word) {
        Some(Turn::Shrink)
    } else {
        let session = session_number(sessions, word)?;
        Some(Turn::Session(session))
    }
}

// Whether a word is a turn.
fn is_turn(sessions: u16, word: &[u8]) -> bool
    ensures { result ≡ is_some (turn_of sessions word.now) }
{
    turn_of(sessions, word).is_some()
}

// Whether each word of a text is a turn.
pub fn are_turns(sessions: u16, text: &[u8]) -> bool
    ensures { result ≡ are_turns sessions (parts_of text.now) }
{
    let mut rest = text;
    while let Some((word, after)) = word_at(rest) {
        if !is_turn(sessions, word) {
            return false;
        }
        rest = after;
    }
    is_turn(sessions, rest)
}

// The number of turns that one word spells, 1 or 0.
fn turns_in(sessions: u16, word: &[u8]) -> usize
    ensures { result ≡ length (turns_of sessions (word.now ∷ [])) }
{
    match turn_of(sessions, word) {
        Some(_) => 1,
        None => 0,
    }
}

// The number of turns that the words of a text spell.
pub fn turn_count(sessions: u16, text: &[u8]) -> usize
    ensures { result ≡ length (turns_of sessions (parts_of text.now)) }
{
    let mut count = 0;
    let mut rest = text;
    while let Some((word, after)) = word_at(rest) {
        count += turns_in(sessions, word);
        rest = after;
    }
    count + turns_in(sessions, rest)
}

// Puts the turn that a word spells behind others.
fn push_turn(turns: &mut Vec<Turn>, sessions: u16, word: &[u8]) -> Mem<()>
    ensures { IfOk result (λ _. turns.new.items ≡ turns.old.items ++ turns_of sessions (word.now ∷ [])) }
{
    if let Some(turn) = turn_of(sessions, word) {
        turns.push(turn)?;
    }
    Ok(())
}

// Puts the turns that the words of a text spell behind others.
pub fn push_turns(turns: &mut Vec<Turn>, sessions: u16, text: &[u8]) -> Mem<()>
    ensures { IfOk result (λ _. turns.new.items ≡ turns.old.items ++ turns_of sessions (parts_of text.now)) }
{
    let mut rest = text;
    while let Some((word, after)) = word_at(rest) {
        push_turn(turns, sessions, word)?;
        rest = after;
    }
    push_turn(turns, sessions, rest)
}
