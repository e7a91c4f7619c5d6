//! A sink in memory, whose calls fail where a test wants.
ghost use Rattle.std.specs.Prelude.{◌≡◌, ◌≤◌, ◌↔◌, IsErr, is_err, IfOk};
ghost use Rattle.sf_outside.specs.Causes.{HasCause};
ghost use Rattle.sf_outside.specs.CallCounts.{no_calls, NextFails};
ghost use Rattle.sf_outside.specs.Kept.{nothing_kept, told_bytes};
ghost use Rattle.sf_outside.specs.MemorySink.{write_amount, sink_after};
ghost use Rattle.sf_outside.specs.Sink.{TakesSome, TakesFirst};

use crate::call_counts::CallCounts;
use crate::failed::Failed;
use crate::kept::Kept;
use crate::sink::Sink;
use sf_types::Mem;
use std::alloc::Global;
use std::marker::Model;

/// Keeps the first bytes that it takes, up to its room. A write moves at most `piece` bytes, and
/// fails where it was told to.
///
/// The sink tells its bytes while it took no more than there is room for. Past that it goes on taking.
#[derive(Drop)]
pub struct MemSink {
    kept: Kept,
    piece: usize,
    counts: CallCounts,
}

impl Model for MemSink {
    ghost use Rattle.std.specs.Prelude.{◌≤◌};
    ghost use Rattle.sf_outside.specs.MemorySink.{SinkState};

    ghost Value = { SinkState };

    ghost view = { λ s. record { kept = s.kept; piece = s.piece; counts = s.counts } };

    ghost invariant = { λ s. 1 ≤ s.piece };
}

impl MemSink {
    /// A sink that took nothing yet, with memory for `room` bytes. `piece` is the most bytes that a
    /// write moves, and `failing` has the numbers of the writes that fail, counted from 1. A number
    /// stays at 2^64 - 1, so the writes from that one on have one number.
    pub fn new(alloc: Global, room: usize, piece: usize, failing: Vec<u64>) -> Mem<MemSink>
        requires { 1 ≤ piece }
        ensures kept { IfOk result (λ sink. sink.kept ≡ nothing_kept room) }
        ensures piece { IfOk result (λ sink. sink.piece ≡ piece) }
        ensures counts { IfOk result (λ sink. sink.counts ≡ no_calls failing.items) }
    {
        let kept = Kept::new(alloc, room)?;
        Ok(MemSink {
            kept,
            piece,
            counts: CallCounts::new(failing),
        })
    }

    /// The bytes that are kept.
    pub fn bytes(&self) -> &[u8]
        ensures { result.now ≡ self.now.kept.bytes }
    {
        self.kept.bytes()
    }
}

impl Sink for MemSink {
    ghost taken = { λ s. told_bytes s.kept };

    ghost faults = { λ s. s.counts.faults.count };

    ghost has_failed = { λ s. s.counts.faults.has_failed };

    /// Takes as many bytes as the piece has and a call moves.
    fn write(&mut self, piece: &[u8]) -> Result<usize, Failed>
        // What any sink keeps.
        ensures bound { TakesSome result piece.now }
        ensures bytes { TakesFirst (told_bytes self.old.kept) (told_bytes self.new.kept) result piece.now }
        ensures cause { HasCause self.old.counts.faults.count self.new.counts.faults.count result }
        ensures last { self.new.counts.faults.has_failed ≡ is_err result }

        // What this one does besides.
        ensures fails { IsErr result ↔ NextFails self.old.counts }
        ensures amount { IfOk result (λ n. n ≡ write_amount self.old piece.now) }
        ensures after { self.new ≡ sink_after self.old piece.now result }
    {
        if self.counts.next_fails() {
            return Err(Failed);
        }
        let amount = self.piece.min(piece.len());
        self.kept.keep(&piece[..amount]);
        Ok(amount)
    }
}
