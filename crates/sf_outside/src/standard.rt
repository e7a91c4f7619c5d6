//! std's readers and writers as a source and a sink.
ghost use Rattle.std.specs.Prelude.{◌≡◌, None, is_ok, is_err, if◌then◌else◌};
ghost use Rattle.sf_outside.specs.Causes.{HasCause};
ghost use Rattle.sf_outside.specs.Faults.{no_faults, faults_after_success, faults_after_fault};
ghost use Rattle.sf_outside.specs.Sink.{TakesSome, TakesFirst};
ghost use Rattle.sf_outside.specs.Source.{ReadsAtMost, KeepsRest, ReadConsumes, EndsAtZero};
ghost use Rattle.sf_outside.specs.Standard.{HandsOn};

use crate::failed::Failed;
use crate::fault_count::FaultCount;
use crate::sink::Sink;
use crate::source::Source;
use std::io::{Read, Write};
use std::marker::Model;

/// The most bytes that a read of a `StdStream` moves.
const PIECE: usize = 4096;

/// A reader of std as a source, or a writer of std as a sink, with the count of its faults.
///
/// Each `Err` is a fault, `Interrupted` too, and so is a write that takes nothing of a piece that
/// isn't empty.
///
/// A source tells what its reader tells, which is nothing for the standard input. No clause of std
/// says what a read leaves in the rest of its buffer, so the bytes go through a buffer of the
/// source's own, and a read moves at most `PIECE` of them.
///
/// A sink tells nothing: one that doesn't tell never begins to, and no clause of std says so of a
/// writer. The clause `handed_on` of its `write` says what the writer got, where the writer told
/// its bytes before.
#[derive(Drop)]
pub struct StdStream<T> {
    stream: T,
    faults: FaultCount,
}

/// A reader of std as a source.
pub type StdSource<R> = StdStream<R>;

/// A writer of std as a sink.
pub type StdSink<W> = StdStream<W>;

impl<T> Model for StdStream<T> {
    ghost use Rattle.sf_outside.specs.Standard.{StreamState};

    ghost Value = { StreamState T };

    ghost view = { λ s. record { stream = s.stream; faults = s.faults } };
}

impl<T> StdStream<T> {
    /// A source over this reader, or a sink over this writer, with no fault so far. It takes no
    /// memory.
    pub fn new(stream: T) -> StdStream<T>
        ensures stream { result.stream ≡ stream }
        ensures faults { result.faults ≡ no_faults }
    {
        StdStream {
            stream,
            faults: FaultCount::new(),
        }
    }

    /// How many calls failed. The count stays at 2^64 - 1.
    pub fn fault_count(&self) -> u64
        ensures { result ≡ self.now.faults.count }
    {
        self.faults.count()
    }
}

impl<R: Read> Source for StdStream<R> {
    ghost left = { λ s. R.remaining s.stream };

    ghost faults = { λ s. s.faults.count };

    ghost has_failed = { λ s. s.faults.has_failed };

    /// Gives what one read of the reader gives.
    fn read(&mut self, into: &mut [u8]) -> Result<usize, Failed>
        // What any source keeps.
        ensures bound { ReadsAtMost result into.old }
        ensures rest { KeepsRest result into.old into.new }
        ensures bytes { ReadConsumes (R.remaining self.old.stream) (R.remaining self.new.stream) result
            into.old into.new }
        ensures end { EndsAtZero (R.remaining self.old.stream) result into.old }
        ensures cause { HasCause self.old.faults.count self.new.faults.count result }
        ensures last { self.new.faults.has_failed ≡ is_err result }

        // Each fault is counted, and nothing else is.
        ensures faults { self.new.faults ≡
            (if is_ok result then faults_after_success self.old.faults else faults_after_fault self.old.faults) }
    {
        let mut buffer = [0; PIECE];
        let room = into.len().min(PIECE);
        match self.stream.read(&mut buffer[..room]) {
            Ok(amount) => {
                into[..amount].copy_from_slice(&buffer[..amount]);
                self.faults.note_success();
                Ok(amount)
            }
            Err(_) => {
                self.faults.note_fault();
                Err(Failed)
            }
        }
    }
}

impl<W: Write> Sink for StdStream<W> {
    ghost taken = { λ _. None };

    ghost faults = { λ s. s.faults.count };

    ghost has_failed = { λ s. s.faults.has_failed };

    /// Hands the piece to one write of the writer.
    fn write(&mut self, piece: &[u8]) -> Result<usize, Failed>
        // What any sink keeps.
        ensures bound { TakesSome result piece.now }
        ensures bytes { TakesFirst None None result piece.now }
        ensures cause { HasCause self.old.faults.count self.new.faults.count result }
        ensures last { self.new.faults.has_failed ≡ is_err result }

        // What the writer got, where it tells.
        ensures handed_on { HandsOn (W.contents self.old.stream) (W.contents self.new.stream)
            result piece.now }

        // Each fault is counted, and nothing else is.
        ensures faults { self.new.faults ≡
            (if is_ok result then faults_after_success self.old.faults else faults_after_fault self.old.faults) }
    {
        match self.stream.write(piece) {
            Ok(amount) if amount > 0 || piece.is_empty() => {
                self.faults.note_success();
                Ok(amount)
            }
            _ => {
                self.faults.note_fault();
                Err(Failed)
            }
        }
    }
}
