//! What was read so far.
ghost use Rattle.std.specs.Prelude.{◌≡◌, ◌≤◌, IfOk, IsTrue, false};
ghost use Rattle.sf_types.specs.Limits.{IsInRange};
ghost use Rattle.sf_types.specs.declared.limits.TheConstants.{STORE_SESSIONS};
ghost use Rattle.sf_script_calls.specs.Calls.{payload_length};
ghost use Rattle.sf_script_calls.specs.Words.{parts_of};
ghost use Rattle.sf_script.specs.Inside.Readings.{CanHaveTurns};
ghost use Rattle.sf_script.specs.Parts.{IsScript, is_no_end};
ghost use Rattle.sf_script.specs.Reasons.{has_schedule, new_script, with_call, with_turns, passes_call_limit, passes_turn_limit};
ghost use Rattle.sf_script.specs.Schedules.{turns_of};

use crate::limits::{SCRIPT_CALLS, SCRIPT_PAYLOAD_BYTES, SCRIPT_TURNS};
use crate::options_read::OptionsRead;
use crate::schedule::push_turns;
use crate::script::Script;
use crate::turn::Turn;
use sf_script_calls::payload_length;
use sf_types::{BUFFER_BYTES, Call, CallList, List, Mem, Options};
use std::alloc::Global;
use std::marker::Model;

// What was read so far: nothing, the header and options after it, or the sessions line and what stands after it.
#[derive(Drop)]
pub enum Reading {
    Nothing,
    Options(OptionsRead),
    Sessions(Draft),
}

// A script that is being read, seen as its parts.
#[derive(Drop)]
pub struct Draft {
    options: Options,
    sessions: u16,
    calls: Vec<CallList>,
    turns: Vec<Turn>,
    call_count: u32,
    payload_bytes: u32,
}

impl Model for Draft {
    ghost use Rattle.sf_script.specs.Parts.{ScriptParts};
    ghost use Rattle.sf_script.specs.Inside.Drafts.{IsDraft};

    ghost Value = { ScriptParts };

    ghost view = { λ d. record { options = d.options; sessions = d.sessions; calls = d.calls.items; turns = d.turns.items } };

    ghost invariant = { λ d. IsDraft (record { options = d.options; sessions = d.sessions; calls = d.calls.items; turns = d.turns.items }) d.call_count d.payload_bytes };
}

impl Draft {
    // A script of these options and so many sessions with no calls.
    pub fn new(alloc: Global, options: Options, sessions: u16) -> Mem<Draft>
        requires range { IsInRange options }
        requires low { 1 ≤ sessions }
        requires high { sessions ≤ STORE_SESSIONS }
        ensures { IfOk result (λ draft. draft ≡ new_script options sessions) }
    {
        let mut calls = Vec::new(alloc);
        for _ in 0..sessions {
            calls.push(List::new(alloc))?;
        }
        Ok(Draft {
            options,
            sessions,
            calls,
            turns: Vec::new(alloc),
            call_count: 0,
            payload_bytes: 0,
        })
    }

    // The number of sessions.
    pub fn sessions(&self) -> u16
        ensures { result ≡ self.now.sessions }
    {
        self.sessions
    }

    // Whether a schedule has begun.
    pub fn has_schedule(&self) -> bool
        ensures { result ≡ has_schedule self.now }
    {
        !self.turns.is_empty()
    }

    // Whether a call with a payload of this length passes a limit.
    pub fn has_no_room(&self, length: u64) -> bool
        ensures { result ≡ passes_call_limit self.now length }
    {
        length > BUFFER_BYTES
            || self.call_count >= SCRIPT_CALLS
            || length > SCRIPT_PAYLOAD_BYTES - u64::from(self.payload_bytes)
    }

    // Whether so many turns more pass a limit.
    pub fn has_no_room_for_turns(&self, count: usize) -> bool
        ensures { result ≡ passes_turn_limit self.now count }
    {
        count > SCRIPT_TURNS as usize - self.turns.len()
    }

    // The script with one more call of a session.
    pub fn with_call(self, session: u16, call: Call) -> Mem<Draft>
        requires low { 1 ≤ session }
        requires high { session ≤ self.sessions }
        requires no_end { IsTrue (is_no_end call) }
        requires room { passes_call_limit self (payload_length call) ≡ false }
        ensures { IfOk result (λ draft. draft ≡ with_call self session call) }
    {
        let length = payload_length(&call);
        let Draft {
            options,
            sessions,
            mut calls,
            turns,
            call_count,
            payload_bytes,
        } = self;
        let list = &mut calls[session as usize - 1];
        list.push(call)?;
        Ok(Draft {
            options,
            sessions,
            calls,
            turns,
            call_count: call_count + 1,
            payload_bytes: payload_bytes + length as u32,
        })
    }

    // The script with the turns behind its own that these words spell among so many sessions.
    pub fn with_turns(self, among: u16, words: &[u8]) -> Mem<Draft>
        requires { CanHaveTurns self (turns_of among (parts_of words.now)) }
        ensures { IfOk result (λ draft. draft ≡ with_turns self (turns_of among (parts_of words.now))) }
    {
        let Draft {
            options,
            sessions,
            calls,
            mut turns,
            call_count,
            payload_bytes,
        } = self;
        push_turns(&mut turns, among, words)?;
        Ok(Draft {
            options,
            sessions,
            calls,
            turns,
            call_count,
            payload_bytes,
        })
    }

    // The script that was read.
    pub fn into_script(self) -> Script
        ensures exact { result ≡ self }
        ensures script { IsScript result }
    {
        let Draft {
            options,
            sessions,
            calls,
            turns,
            ..
        } = self;
        Script::new(
            options,
            sessions,
            List::from_vec(calls),
            List::from_vec(turns),
        )
    }
}
