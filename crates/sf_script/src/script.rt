//! Scripts.
ghost use Rattle.std.specs.Prelude.{◌≡◌};
ghost use Rattle.sf_script.specs.Parts.{IsScript};

use crate::turn::Turn;
use sf_types::{CallTable, List, Options};
use std::marker::Model;

/// The turns of a schedule in their order.
pub type TurnList = List<Turn>;

/// What the sessions of a store call, and in which order their events may come. The options and the
/// number of sessions are in their ranges, there is one list of calls for each session, no call is
/// an End, and each turn of a session names one of the sessions.
#[derive(Drop)]
pub struct Script {
    options: Options,
    sessions: u16,
    calls: CallTable,
    turns: TurnList,
}

impl Model for Script {
    ghost use Rattle.sf_script.specs.Parts.{ScriptParts, IsScript};

    ghost Value = { ScriptParts };

    ghost view = { λ s. record { options = s.options; sessions = s.sessions; calls = s.calls; turns = s.turns } };

    ghost invariant = { λ s. IsScript (record { options = s.options; sessions = s.sessions; calls = s.calls; turns = s.turns }) };
}

impl Script {
    /// The script of these parts.
    pub fn new(options: Options, sessions: u16, calls: CallTable, turns: TurnList) -> Script
        requires { IsScript (record { options = options; sessions = sessions; calls = calls; turns = turns }) }
        ensures { result ≡ record { options = options; sessions = sessions; calls = calls; turns = turns } }
    {
        Script {
            options,
            sessions,
            calls,
            turns,
        }
    }

    /// The options of the store.
    pub fn options(&self) -> Options
        ensures value { result ≡ self.now.options }
        ensures script { IsScript self.now }
    {
        self.options
    }

    /// The number of sessions.
    pub fn sessions(&self) -> u16
        ensures value { result ≡ self.now.sessions }
        ensures script { IsScript self.now }
    {
        self.sessions
    }

    /// The calls of each session, without its End.
    pub fn calls(&self) -> &CallTable
        ensures value { result.now ≡ self.now.calls }
        ensures script { IsScript self.now }
    {
        &self.calls
    }

    /// The schedule. It has no turns where the script gives none.
    pub fn turns(&self) -> &TurnList
        ensures value { result.now ≡ self.now.turns }
        ensures script { IsScript self.now }
    {
        &self.turns
    }
}
