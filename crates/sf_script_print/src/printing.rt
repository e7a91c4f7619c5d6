//! The text of a script.
ghost use Rattle.std.specs.Prelude.{◌≡◌, ◌+◌, ◌≤◌, ◌∷◌, ◌++◌, length, OnOk, IfOk, map};
ghost use Rattle.sf_script_print.specs.Printing.{number_option, dedup_option, retention_option, printed_options, printed_calls, printed_sessions, turn_word, printed_turns, printed};
ghost use Rattle.sf_script_print.specs.PrintedCalls.{spaced};
ghost use Rattle.sf_types.specs.declared.limits.TheConstants.{STORE_SESSIONS};

use crate::call_text::push_call;
use crate::pieces::{push_number, push_word};
use sf_script::{Script, Turn};
use sf_types::{Blob, Call, CallList, Mem, Options, push_decimal};
use std::alloc::Global;

// Appends the line of an option, unless it has its default.
fn push_number_option(text: &mut Vec<u8>, word: &[u8], number: u32, standard: u32) -> Mem<()>
    ensures { OnOk result (text.new.items ≡ text.old.items ++ number_option word.now number standard) }
{
    if number != standard {
        text.extend_from_slice(word)?;
        push_number(text, u64::from(number))?;
        text.extend_from_slice(b"\n")?;
    }
    Ok(())
}

// Appends the line of `retention`, unless it has its default.
fn push_retention(text: &mut Vec<u8>, options: &Options) -> Mem<()>
    ensures { OnOk result (text.new.items ≡ text.old.items ++ retention_option options.now) }
{
    if options.max {
        text.extend_from_slice(b"retention max\n")?;
        Ok(())
    } else {
        push_number_option(
            text,
            b"retention",
            options.retention,
            Options::standard().retention,
        )
    }
}

// Appends the line of `dedup`, unless it has its default.
fn push_dedup(text: &mut Vec<u8>, dedup: bool) -> Mem<()>
    ensures { OnOk result (text.new.items ≡ text.old.items ++ dedup_option dedup) }
{
    if !dedup {
        text.extend_from_slice(b"dedup off\n")?;
    }
    Ok(())
}

// Appends the lines of the options that differ from their defaults.
#[tactic(auto, unfolding(crate::specs::Printing::printed_options))]
fn push_options(text: &mut Vec<u8>, options: &Options) -> Mem<()>
    ensures { OnOk result (text.new.items ≡ text.old.items ++ printed_options options.now) }
{
    let standard = Options::standard();
    push_number_option(text, b"capacity", options.capacity, standard.capacity)?;
    push_dedup(text, options.dedup)?;
    push_retention(text, options)?;
    push_number_option(text, b"gather", options.gather, standard.gather)?;
    push_number_option(text, b"dispensers", options.dispensers, standard.dispensers)
}

// Appends the lines of the calls of a session.
fn push_calls(text: &mut Vec<u8>, session: u64, calls: &[Call]) -> Mem<()>
    ensures { OnOk result (text.new.items ≡ text.old.items ++ printed_calls session calls.now) }
{
    let mut rest = calls;
    while let [call, after @ ..] = rest {
        push_call(text, session, call)?;
        rest = after;
    }
    Ok(())
}

// Appends the lines of the calls of all sessions.
fn push_sessions(text: &mut Vec<u8>, calls: &[CallList]) -> Mem<()>
    requires { length calls.now ≤ STORE_SESSIONS }
    ensures { OnOk result (text.new.items ≡ text.old.items ++ printed_sessions 1 calls.now) }
{
    let mut session: u64 = 1;
    let mut rest = calls;
    while let [list, after @ ..] = rest {
        push_calls(text, session, list.as_slice())?;
        session += 1;
        rest = after;
    }
    Ok(())
}

// Appends the word of a turn after one space.
fn push_turn(text: &mut Vec<u8>, turn: Turn) -> Mem<()>
    ensures { OnOk result (text.new.items ≡ text.old.items ++ 32 ∷ turn_word turn) }
{
    match turn {
        Turn::Session(session) => push_number(text, u64::from(session)),
        Turn::Reclaim => push_word(text, b"r"),
        Turn::Shrink => push_word(text, b"shrink"),
    }
}

// Appends the words of turns, each after one space.
fn push_turn_words(text: &mut Vec<u8>, turns: &[Turn]) -> Mem<()>
    ensures { OnOk result (text.new.items ≡ text.old.items ++ spaced (map turn_word turns.now)) }
{
    let mut rest = turns;
    while let [turn, after @ ..] = rest {
        push_turn(text, *turn)?;
        rest = after;
    }
    Ok(())
}

// Appends the schedule line, where there are turns.
#[tactic(auto, unfolding(crate::specs::Printing::printed_turns))]
fn push_turns(text: &mut Vec<u8>, turns: &[Turn]) -> Mem<()>
    ensures { OnOk result (text.new.items ≡ text.old.items ++ printed_turns turns.now) }
{
    if let [_, ..] = turns {
        text.extend_from_slice(b"schedule")?;
        push_turn_words(text, turns)?;
        text.extend_from_slice(b"\n")?;
    }
    Ok(())
}

/// The text of a script, its payloads in their shortest form. Options that have their defaults aren't written.
#[tactic(auto, unfolding(crate::specs::Printing::printed))]
pub fn print(alloc: Global, script: &Script) -> Mem<Blob>
    ensures text { IfOk result (λ text. text ≡ printed script.now) }
{
    let mut text = Vec::new(alloc);
    text.extend_from_slice(b"securefiles 1\n")?;
    push_options(&mut text, &script.options())?;
    text.extend_from_slice(b"sessions")?;
    push_number(&mut text, u64::from(script.sessions()))?;
    text.extend_from_slice(b"\n")?;
    push_sessions(&mut text, script.calls().as_slice())?;
    push_turns(&mut text, script.turns().as_slice())?;
    Blob::from_vec(text)
}
