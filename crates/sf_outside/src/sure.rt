//! A source and a sink in memory that never fail.
ghost use Rattle.std.specs.Prelude.{◌≡◌, ◌++◌, take, drop, min, length, Some, Ok, IfOk, is_err, false};
ghost use Rattle.sf_outside.specs.Causes.{HasCause};
ghost use Rattle.sf_outside.specs.Kept.{nothing_kept, kept_with, told_bytes};
ghost use Rattle.sf_outside.specs.Sink.{TakesSome, TakesFirst};
ghost use Rattle.sf_outside.specs.Source.{ReadsAtMost, KeepsRest, ReadConsumes, EndsAtZero};

use crate::failed::Failed;
use crate::kept::Kept;
use crate::sink::Sink;
use crate::source::Source;
use sf_types::Mem;
use std::alloc::Global;
use std::marker::Model;

/// Bytes in memory, seen as the list of those that are left. No read fails.
#[derive(Drop)]
pub struct SureSource {
    bytes: Vec<u8>,
    at: usize,
}

impl Model for SureSource {
    ghost use Rattle.std.specs.Prelude.{ℕ, List, ◌≤◌, drop, vec_len};

    ghost Value = { List ℕ };

    ghost view = { λ s. drop s.at s.bytes.items };

    ghost invariant = { λ s. s.at ≤ vec_len s.bytes };
}

impl SureSource {
    /// A source of these bytes.
    pub fn new(bytes: Vec<u8>) -> SureSource
        ensures { result ≡ bytes.items }
    {
        SureSource { bytes, at: 0 }
    }
}

impl Source for SureSource {
    ghost left = { λ s. Some s };

    ghost faults = { λ _. 0 };

    ghost has_failed = { λ _. false };

    /// Gives as many bytes as the buffer and what is left allow.
    fn read(&mut self, into: &mut [u8]) -> Result<usize, Failed>
        // What any source keeps.
        ensures bound { ReadsAtMost result into.old }
        ensures rest { KeepsRest result into.old into.new }
        ensures bytes { ReadConsumes (Some self.old) (Some self.new) result into.old into.new }
        ensures end { EndsAtZero (Some self.old) result into.old }
        ensures cause { HasCause 0 0 result }
        ensures last { false ≡ is_err result }

        // What this one does besides.
        ensures amount { result ≡ Ok (min (length into.old) (length self.old)) }
    {
        let left = &self.bytes[self.at..];
        let amount = into.len().min(left.len());
        into[..amount].copy_from_slice(&left[..amount]);
        self.at += amount;
        Ok(amount)
    }
}

/// Keeps the first bytes that it takes, up to its room. It takes every piece whole, and no write
/// fails.
///
/// The sink tells its bytes while it took no more than there is room for. Past that it goes on taking.
#[derive(Drop)]
pub struct SureSink {
    kept: Kept,
}

impl Model for SureSink {
    ghost use Rattle.sf_outside.specs.Kept.{Kept as Held};

    ghost Value = { Held };

    ghost view = { λ s. s.kept };
}

impl SureSink {
    /// A sink that took nothing yet, with memory for `room` bytes.
    pub fn new(alloc: Global, room: usize) -> Mem<SureSink>
        ensures { IfOk result (λ sink. sink ≡ nothing_kept room) }
    {
        let kept = Kept::new(alloc, room)?;
        Ok(SureSink { kept })
    }

    /// The bytes that are kept.
    pub fn bytes(&self) -> &[u8]
        ensures { result.now ≡ self.now.bytes }
    {
        self.kept.bytes()
    }
}

impl Sink for SureSink {
    ghost taken = { told_bytes };

    ghost faults = { λ _. 0 };

    ghost has_failed = { λ _. false };

    /// Takes the whole piece.
    fn write(&mut self, piece: &[u8]) -> Result<usize, Failed>
        // What any sink keeps.
        ensures bound { TakesSome result piece.now }
        ensures bytes { TakesFirst (told_bytes self.old) (told_bytes self.new) result piece.now }
        ensures cause { HasCause 0 0 result }
        ensures last { false ≡ is_err result }

        // What this one does besides.
        ensures amount { result ≡ Ok (length piece.now) }
        ensures after { self.new ≡ kept_with self.old piece.now }
    {
        self.kept.keep(piece);
        Ok(piece.len())
    }
}
