//! A source in memory, whose calls fail where a test wants.
ghost use Rattle.std.specs.Prelude.{◌≡◌, ◌≤◌, ◌↔◌, Some, IsErr, is_err, IfOk};
ghost use Rattle.sf_outside.specs.Causes.{HasCause};
ghost use Rattle.sf_outside.specs.CallCounts.{no_calls, NextFails};
ghost use Rattle.sf_outside.specs.MemorySource.{read_amount, source_after};
ghost use Rattle.sf_outside.specs.Source.{ReadsAtMost, KeepsRest, ReadConsumes, EndsAtZero};

use crate::call_counts::CallCounts;
use crate::failed::Failed;
use crate::source::Source;
use std::marker::Model;

/// Bytes in memory. A read moves at most `piece` of them, and fails where it was told to.
#[derive(Drop)]
pub struct MemSource {
    bytes: Vec<u8>,
    at: usize,
    piece: usize,
    counts: CallCounts,
}

impl Model for MemSource {
    ghost use Rattle.std.specs.Prelude.{◌≤◌, drop, vec_len};
    ghost use Rattle.sf_outside.specs.MemorySource.{SourceState};

    ghost Value = { SourceState };

    ghost view = { λ s. record { left = drop s.at s.bytes.items; piece = s.piece; counts = s.counts } };

    ghost invariant = { λ s. (s.at ≤ vec_len s.bytes) × (1 ≤ s.piece) };
}

impl MemSource {
    /// A source of these bytes. `piece` is the most bytes that a read moves, and `failing` has the
    /// numbers of the reads that fail, counted from 1. A number stays at 2^64 - 1, so the reads
    /// from that one on have one number.
    pub fn new(bytes: Vec<u8>, piece: usize, failing: Vec<u64>) -> MemSource
        requires { 1 ≤ piece }
        ensures left { result.left ≡ bytes.items }
        ensures piece { result.piece ≡ piece }
        ensures counts { result.counts ≡ no_calls failing.items }
    {
        MemSource {
            bytes,
            at: 0,
            piece,
            counts: CallCounts::new(failing),
        }
    }
}

impl Source for MemSource {
    ghost left = { λ s. Some s.left };

    ghost faults = { λ s. s.counts.faults.count };

    ghost has_failed = { λ s. s.counts.faults.has_failed };

    /// Gives as many bytes as the piece, the buffer and what is left allow.
    fn read(&mut self, into: &mut [u8]) -> Result<usize, Failed>
        // What any source keeps.
        ensures bound { ReadsAtMost result into.old }
        ensures rest { KeepsRest result into.old into.new }
        ensures bytes { ReadConsumes (Some self.old.left) (Some self.new.left) result into.old into.new }
        ensures end { EndsAtZero (Some self.old.left) result into.old }
        ensures cause { HasCause self.old.counts.faults.count self.new.counts.faults.count result }
        ensures last { self.new.counts.faults.has_failed ≡ is_err result }

        // What this one does besides.
        ensures fails { IsErr result ↔ NextFails self.old.counts }
        ensures amount { IfOk result (λ n. n ≡ read_amount self.old into.old) }
        ensures after { self.new ≡ source_after self.old result }
    {
        if self.counts.next_fails() {
            return Err(Failed);
        }
        let left = &self.bytes[self.at..];
        let amount = self.piece.min(into.len()).min(left.len());
        into[..amount].copy_from_slice(&left[..amount]);
        self.at += amount;
        Ok(amount)
    }
}
