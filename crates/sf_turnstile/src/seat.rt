//! The right to take turns.
ghost use Rattle.std.specs.Prelude.{◌≡◌};

use crate::view::View;
use std::marker::Model;

/// The right to take turns, seen as a `Sitting`. At run time a seat is three numbers: the history stands once, in the value.
#[derive(Drop)]
pub struct Seat<B> {
    pub(crate) seat: atomic_table::Seat<Option<B>, View>,
    pub(crate) number: u16,
    pub(crate) splits: u16,
    pub(crate) others_out: u16,
}

impl<B> Model for Seat<B> {
    ghost use Rattle.std.specs.Prelude.{◌≡◌, ◌≤◌};
    ghost use Rattle.sf_turnstile.specs.Sittings.{Sitting, sitting};
    ghost use Rattle.sf_turnstile.specs.Inside.{InPhase};

    ghost Value = { Sitting };

    ghost view = { λ s. sitting s.seat.table_id s.seat.me.0 };

    ghost invariant = { λ s. InPhase s.seat.me.0.phase s.seat.me.1 × (s.seat.me.0.number ≡ s.number) × (s.seat.me.0.splits ≡ s.splits) × (s.seat.me.0.others_out ≡ s.others_out) × (s.others_out ≤ s.splits) };
}

impl<B> Seat<B> {
    /// 0 for the first seat, and k for the seat of the k-th split. The seat with number s adds entries of session s alone,
    /// and seat 0 adds none.
    pub fn number(&self) -> u16
        ensures { result ≡ self.now.number }
    {
        self.number
    }
}
