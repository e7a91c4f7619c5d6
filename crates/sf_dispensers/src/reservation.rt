//! Blocks that were collected.
ghost use Rattle.std.specs.Prelude.{◌≡◌};
ghost use Rattle.sf_types.specs.Space.BlockRuns.{blocks_in};
ghost use Rattle.sf_space_words.specs.Blocks.{AreBelow, IsOnce};
ghost use Rattle.sf_dispensers.specs.Seats.{IsSeatOf};

use crate::named::Named;
use sf_space_words::Seat;
use sf_types::Runs;
use std::marker::{Model, PhantomData};

/// A seat of a store's words that has just the blocks of some runs, each once, seen as the runs. It can't be dropped by
/// mistake: it is handed back, or taken apart.
pub struct Reservation<N: Named> {
    pub(crate) seat: Seat,
    pub(crate) runs: Runs,
    pub(crate) of: PhantomData<N>,
}

impl<N: Named> Model for Reservation<N> {
    ghost use Rattle.std.specs.Prelude.{List};
    ghost use Rattle.sf_types.specs.declared.run.Run.{Run};
    ghost use Rattle.sf_dispensers.specs.Seats.{IsSeatOf};

    ghost Value = { List Run };

    ghost view = { λ r. r.runs.held };

    ghost invariant = { λ r. IsSeatOf N.space N.options r.seat r.runs.held };
}

impl<N: Named> Reservation<N> {
    /// The runs. No block stands in them twice, and each is below the store's capacity.
    pub fn runs(&self) -> &Runs
        ensures runs { result.now.held ≡ self.now }
        ensures once { IsOnce (blocks_in self.now) }
        ensures below { AreBelow N.options.capacity (blocks_in self.now) }
    {
        self.seat.is_sound();
        &self.runs
    }

    /// The seat and the runs, whose blocks it has, and no others.
    pub fn into_parts(self) -> (Seat, Runs)
        ensures runs { result.1.held ≡ self }
        ensures seat { IsSeatOf N.space N.options result.0 self }
    {
        let Reservation { seat, runs, of: _ } = self;
        (seat, runs)
    }

    /// A reservation of a seat of the store's words that has the blocks of the runs, and no others.
    pub fn of_seat(seat: Seat, runs: Runs) -> Reservation<N>
        requires { IsSeatOf N.space N.options seat runs.held }
        ensures { result ≡ runs.held }
    {
        Reservation {
            seat,
            runs,
            of: PhantomData,
        }
    }
}
