//! The calls of all sessions.
ghost use Rattle.std.specs.Prelude.{◌≡◌, ◌≤◌, ◌<◌, IfOk, replicate, length, slice_set, slice_index_or, ◌++◌, ◌∷◌, []};
ghost use Rattle.sf_types.specs.declared.limits.TheConstants.{STORE_SESSIONS};
ghost use Rattle.sf_script_generate.specs.GeneratedScript.{calls_made, generated_script};

use crate::calls::generated_call;
use sf_script::Script;
use sf_types::{Call, CallList, List, Mem, Options};
use std::alloc::Global;

// So many sessions with no calls.
fn no_calls(alloc: Global, sessions: u16) -> Mem<Vec<CallList>>
    ensures { IfOk result (λ lists. lists.items ≡ replicate sessions []) }
{
    let mut lists = Vec::new(alloc);
    for _ in 0..sessions {
        lists.push(List::new(alloc))?;
    }
    Ok(lists)
}

// Puts a call behind the others of a session.
fn put_call(lists: &mut Vec<CallList>, at: usize, call: Call) -> Mem<()>
    requires { at < length lists.old.items }
    ensures { IfOk result (λ _. lists.new.items ≡ slice_set lists.old.items at (slice_index_or lists.old.items at [] ++ call ∷ [])) }
{
    let list = &mut lists[at];
    list.push(call)
}

// The calls of the generated script of a start, so many sessions and so many calls: those of session 1 first.
fn all_calls(alloc: Global, start: u64, sessions: u16, count: u32) -> Mem<Vec<CallList>>
    requires low { 1 ≤ sessions }
    requires high { sessions ≤ STORE_SESSIONS }
    ensures { IfOk result (λ lists. lists.items ≡ (calls_made start sessions count).calls) }
{
    let mut lists = no_calls(alloc, sessions)?;
    let mut number = start;
    let session_count = u32::from(sessions);
    for i in 0..count {
        let at = (i % session_count) as u16;
        let step = i / session_count;
        let (call, next) = generated_call(alloc, 1 + at, step, number)?;
        put_call(&mut lists, at as usize, call)?;
        number = next;
    }
    Ok(lists)
}

/// The generated script: 65,536 blocks, `retention 2`, `gather 4096` and the other defaults, 1 to 16 sessions and so many
/// calls, drawn from any start. It has no schedule.
pub fn generate(alloc: Global, start: u64, sessions: u16, count: u32) -> Mem<Script>
    requires low { 1 ≤ sessions }
    requires high { sessions ≤ STORE_SESSIONS }
    ensures exact { IfOk result (λ script. script ≡ generated_script start sessions count) }
{
    let lists = all_calls(alloc, start, sessions, count)?;
    let options = Options {
        capacity: 65_536,
        retention: 2,
        gather: 4_096,
        ..Options::standard()
    };
    Ok(Script::new(options, sessions, List::from_vec(lists), List::new(alloc)))
}
