//! The right to some blocks.
ghost use Rattle.std.specs.Prelude.{◌<◌};
ghost use Rattle.sf_space_words.specs.Blocks.{IsOnce, AreBelow};

use crate::view::View;
use std::marker::Model;

/// The right to some blocks of some words, seen as a `BlockSeat`. It has no bytes. It can't be dropped by mistake, since its
/// blocks would stay set: it is merged into another seat, or let go by `abandon`.
pub struct Seat {
    pub(crate) seat: atomic_table::Seat<(), View>,
}

impl Model for Seat {
    ghost use Rattle.sf_space_words.specs.Seats.{BlockSeat, block_seat};
    ghost use Rattle.sf_space_words.specs.Inside.{IsAtRest};

    ghost Value = { BlockSeat };

    ghost view = { λ s. block_seat s.seat.table_id s.seat.me.0 };

    ghost invariant = { λ s. IsAtRest s.seat.me };
}

impl Seat {
    /// That no block of the seat stands twice, and each is below the number of blocks. It does nothing.
    pub fn is_sound(&self)
        ensures once { IsOnce self.now.blocks }
        ensures below { AreBelow self.now.capacity self.now.blocks }
    {
        let _ = &self.seat;
    }

    /// Lets the seat go. Its blocks stay set, and no other seat can have them.
    pub fn abandon(self) {
        let Seat { seat: _ } = self;
    }
}
