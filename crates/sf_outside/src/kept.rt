//! The bytes that a sink in memory keeps.
ghost use Rattle.std.specs.Prelude.{◌≡◌, IfOk};
ghost use Rattle.sf_outside.specs.Kept.{nothing_kept, kept_with};

use sf_types::Mem;
use std::alloc::Global;
use std::marker::Model;

/// The first bytes that a sink took, up to its room.
#[derive(Drop)]
pub struct Kept {
    bytes: Vec<u8>,
    room: usize,
    is_over: bool,
}

impl Model for Kept {
    ghost use Rattle.std.specs.Prelude.{◌≤◌, vec_len, vec_capacity};
    ghost use Rattle.sf_outside.specs.Kept.{Kept as Held};

    ghost Value = { Held };

    ghost view = { λ k. record { bytes = k.bytes.items; room = k.room; is_over = k.is_over } };

    ghost invariant = { λ k. (vec_len k.bytes ≤ k.room) × (k.room ≤ vec_capacity k.bytes) };
}

impl Kept {
    /// Takes all the memory that `room` bytes need.
    pub fn new(alloc: Global, room: usize) -> Mem<Kept>
        ensures { IfOk result (λ kept. kept ≡ nothing_kept room) }
    {
        let bytes = Vec::with_capacity(alloc, room)?;
        Ok(Kept {
            bytes,
            room,
            is_over: false,
        })
    }

    /// Keeps as many of these bytes as there is room for. It takes no memory.
    pub fn keep(&mut self, taken: &[u8])
        ensures { self.new ≡ kept_with self.old taken.now }
    {
        let free = self.room - self.bytes.len();
        let amount = taken.len().min(free);
        self.bytes.extend_from_slice(&taken[..amount]).unwrap();
        let is_over = amount < taken.len();
        self.is_over |= is_over;
    }

    /// The bytes that are kept.
    pub fn bytes(&self) -> &[u8]
        ensures { result.now ≡ self.now.bytes }
    {
        self.bytes.as_slice()
    }
}
