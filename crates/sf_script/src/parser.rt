//! The parser.
ghost use Rattle.std.specs.Prelude.{◌≡◌, ◌+◌, ◌≤◌, length, IfOk, MatchResult, Ok, Err};
ghost use Rattle.sf_script_calls.specs.Calls.{spelled_call};
ghost use Rattle.sf_script_calls.specs.Views.{call_view};
ghost use Rattle.sf_script.specs.Gives.{Gives};
ghost use Rattle.sf_script.specs.declared.limits.TheConstants.{SCRIPT_BYTES};
ghost use Rattle.sf_script.specs.declared.reading.Reading.TheVariants.{Options, Sessions};
ghost use Rattle.sf_script.specs.Parts.{IsScript};
ghost use Rattle.sf_script.specs.Reasons.{with_call, after_form};
ghost use Rattle.sf_script.specs.Inside.Readings.{next_reading, reading_with, CanHaveCall, CanFollow, IsFormAfter};
ghost use Rattle.sf_script.specs.Lines.{lines_of};
ghost use Rattle.sf_script.specs.Scripts.{script_of, script_from, script_at_end};
ghost use Rattle.sf_script.specs.Inside.Views.{text_line, line_view};

use crate::checks::{early_reason, form_reason};
use crate::fault::{Reason, ScriptFault, Stop};
use crate::limits::SCRIPT_BYTES;
use crate::line_form::{SpelledLine, line_form};
use crate::lines::{TextLine, first_line};
use crate::options_read::OptionsRead;
use crate::reading::{Draft, Reading};
use crate::script::Script;
use sf_script_calls::{SpelledCall, Unread, spelled_call};
use sf_types::{Mem, OutOfMemory};
use std::alloc::Global;

// What was read with one more call of a session.
fn after_call(alloc: Global, draft: Draft, session: u16, call: SpelledCall) -> Mem<Draft>
    requires { CanHaveCall draft session (call_view call) }
    ensures { IfOk result (λ next. next ≡ with_call draft session (spelled_call (call_view call.entry))) }
{
    match spelled_call(alloc, call) {
        Ok(call) => draft.with_call(session, call),
        Err(error) => {
            drop(draft);
            Err(error)
        }
    }
}

// What was read with one more line behind the sessions line.
fn after_sessions(alloc: Global, draft: Draft, line: SpelledLine) -> Mem<Draft>
    requires { CanFollow (Sessions draft) (line_view line) }
    ensures { IfOk result (λ next. Sessions next ≡ after_form (Sessions draft) (line_view line.entry)) }
{
    match line {
        SpelledLine::Call(session, call) => after_call(alloc, draft, session, call),
        SpelledLine::Schedule(sessions, words) => draft.with_turns(sessions, words),
        line => {
            drop(line);
            Ok(draft)
        }
    }
}

// What was read with one more line before or at the sessions line.
fn after_options(alloc: Global, read: OptionsRead, line: SpelledLine) -> Mem<Reading>
    requires { CanFollow (Options read) (line_view line) }
    ensures { IfOk result (λ next. next ≡ after_form (Options read) (line_view line.entry)) }
{
    match line {
        SpelledLine::Setting(option) => Ok(Reading::Options(read.with(option))),
        SpelledLine::Sessions(number) => {
            let draft = Draft::new(alloc, read.options(), number as u16)?;
            Ok(Reading::Sessions(draft))
        }
        line => {
            drop(line);
            Ok(Reading::Options(read))
        }
    }
}

// What was read with one more line.
fn after_form(alloc: Global, reading: Reading, line: SpelledLine) -> Mem<Reading>
    requires { CanFollow reading (line_view line) }
    ensures { IfOk result (λ next. next ≡ after_form reading (line_view line.entry)) }
{
    match reading {
        Reading::Nothing => {
            let is_header = matches!(line, SpelledLine::Header);
            drop(line);
            if is_header {
                Ok(Reading::Options(OptionsRead::new()))
            } else {
                Ok(Reading::Nothing)
            }
        }
        Reading::Options(read) => after_options(alloc, read, line),
        Reading::Sessions(draft) => Ok(Reading::Sessions(after_sessions(alloc, draft, line)?)),
    }
}

// What was read with one more line of a form: the first reason that holds refuses it.
fn read_form(alloc: Global, reading: Reading, form: SpelledLine) -> Result<Reading, Stop>
    requires { IsFormAfter reading (line_view form) }
    ensures { Gives (λ next. next) result (reading_with reading (line_view form.entry)) }
{
    match form_reason(&reading, &form) {
        Some(reason) => {
            drop(reading);
            drop(form);
            Err(Stop::Refused(reason))
        }
        None => match after_form(alloc, reading, form) {
            Ok(next) => Ok(next),
            Err(OutOfMemory) => Err(Stop::Memory),
        },
    }
}

// Reads one line: the first reason that holds refuses it.
fn read_line(alloc: Global, reading: Reading, line: TextLine) -> Result<Reading, Stop>
    ensures { Gives (λ next. next) result (next_reading reading (text_line line.entry)) }
{
    if let Some(reason) = early_reason(&reading, &line) {
        drop(reading);
        return Err(Stop::Refused(reason));
    }
    match line_form(alloc, &reading, line.text) {
        Ok(form) => read_form(alloc, reading, form),
        Err(Unread::Memory) => {
            drop(reading);
            Err(Stop::Memory)
        }
        Err(Unread::NoForm) => {
            drop(reading);
            Err(Stop::Refused(Reason::Form))
        }
    }
}

// The script where no line is left.
fn script_at_end(line: u32, reading: Reading) -> Result<Script, ScriptFault>
    ensures exact { result ≡ script_at_end line reading }
    ensures script { IfOk result IsScript }
{
    match reading {
        Reading::Sessions(draft) => Ok(draft.into_script()),
        _ => Err(ScriptFault {
            line,
            reason: Reason::Short,
        }),
    }
}

// The script of the lines of a text.
fn script_of_lines(alloc: Global, bytes: &[u8]) -> Mem<Result<Script, ScriptFault>>
    requires { length bytes.now ≤ SCRIPT_BYTES }
    ensures exact { IfOk result (λ read. read ≡ script_from 1 Reading.Nothing (lines_of bytes.now)) }
    ensures script { IfOk result (λ read. IfOk read IsScript) }
{
    let mut number: u32 = 1;
    let mut reading = Reading::Nothing;
    let mut rest = bytes;
    while let Some((line, after)) = first_line(rest) {
        match read_line(alloc, reading, line) {
            Ok(next) => reading = next,
            Err(Stop::Memory) => return Err(OutOfMemory),
            Err(Stop::Refused(reason)) => {
                return Ok(Err(ScriptFault {
                    line: number,
                    reason,
                }));
            }
        }
        number += 1;
        rest = after;
    }
    Ok(script_at_end(number, reading))
}

/// The script that a text spells, or its first wrong line and the first reason that holds of it.
#[tactic(auto, unfolding(crate::specs::Scripts::script_of))]
pub fn parse(alloc: Global, bytes: &[u8]) -> Mem<Result<Script, ScriptFault>>
    ensures exact { IfOk result (λ read. read ≡ script_of bytes.now) }
    ensures script { IfOk result (λ read. IfOk read IsScript) }
{
    if bytes.len() > SCRIPT_BYTES {
        return Ok(Err(ScriptFault {
            line: 0,
            reason: Reason::Size,
        }));
    }
    script_of_lines(alloc, bytes)
}
