//! Which calls of an object failed.
ghost use Rattle.std.specs.Prelude.{◌≡◌, ◌≤◌};
ghost use Rattle.sf_outside.specs.Faults.{no_faults, faults_after_success, faults_after_fault};

use std::marker::Model;

/// Counts the calls that failed, and tells whether the last one did.
#[derive(Drop)]
pub struct FaultCount {
    count: u64,
    has_failed: bool,
}

impl Model for FaultCount {
    ghost use Rattle.sf_outside.specs.Faults.{Faults};

    ghost Value = { Faults };

    ghost view = { λ f. record { count = f.count; has_failed = f.has_failed } };
}

impl FaultCount {
    /// No call so far.
    pub fn new() -> FaultCount
        ensures { result ≡ no_faults }
    {
        FaultCount {
            count: 0,
            has_failed: false,
        }
    }

    /// How many calls failed. The count stays at 2^64 - 1.
    pub fn count(&self) -> u64
        ensures { result ≡ self.now.count }
    {
        self.count
    }

    /// Notes a call that was done.
    pub fn note_success(&mut self)
        ensures { self.new ≡ faults_after_success self.old }
    {
        self.has_failed = false;
    }

    /// Notes a call that failed.
    pub fn note_fault(&mut self)
        ensures later { self.old.count ≤ self.new.count }
        ensures after { self.new ≡ faults_after_fault self.old }
    {
        self.count = self.count.saturating_add(1);
        self.has_failed = true;
    }
}
