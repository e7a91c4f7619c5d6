//! Which calls of an object in memory fail.
ghost use Rattle.std.specs.Prelude.{◌≡◌, ◌≤◌, ◌↔◌, IsTrue, if◌then◌else◌};
ghost use Rattle.sf_outside.specs.CallCounts.{no_calls, NextFails, after_success, after_fault};

use crate::fault_count::FaultCount;
use std::marker::Model;

/// Counts the calls of an object in memory, and those of them that failed.
#[derive(Drop)]
pub struct CallCounts {
    failing: Vec<u64>,
    calls: u64,
    faults: FaultCount,
}

impl Model for CallCounts {
    ghost use Rattle.sf_outside.specs.CallCounts.{CallCounts as Counts};

    ghost Value = { Counts };

    ghost view = { λ c. record { failing = c.failing.items; calls = c.calls; faults = c.faults } };
}

impl CallCounts {
    /// No call so far. `failing` has the numbers of the calls that fail, counted from 1.
    pub fn new(failing: Vec<u64>) -> CallCounts
        ensures { result ≡ no_calls failing.items }
    {
        CallCounts {
            failing,
            calls: 0,
            faults: FaultCount::new(),
        }
    }

    /// Counts a call, and says whether it fails.
    pub fn next_fails(&mut self) -> bool
        ensures fails { IsTrue result ↔ NextFails self.old }
        ensures later { self.old.faults.count ≤ self.new.faults.count }
        ensures after { self.new ≡ (if result then after_fault self.old else after_success self.old) }
    {
        self.calls = self.calls.saturating_add(1);
        let fails = self.failing.contains(&self.calls);
        if fails {
            self.faults.note_fault();
        } else {
            self.faults.note_success();
        }
        fails
    }
}
