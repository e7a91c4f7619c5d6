//! What a seat has seen of the history.
ghost use Rattle.std.specs.Prelude.{◌≡◌};

use crate::seat::Seat;
use std::marker::Model;

/// What a seat has seen of the history, seen as the list of those entries. They can't be read from it: the history stands
/// once, in the value.
pub struct Front<'a, B> {
    seat: &'a Seat<B>,
}

impl<'a, B> Model for Front<'a, B> {
    ghost use Rattle.std.specs.Prelude.{List};
    ghost use Rattle.sf_types.specs.declared.history.Entry.{Entry};

    ghost Value = { List Entry };

    ghost view = { λ front. front.seat.now.front };
}

impl<B> Seat<B> {
    /// What the seat has seen of the history. It takes no memory.
    pub fn front(&self) -> Front<'_, B>
        ensures { result ≡ self.now.front }
    {
        Front { seat: self }
    }
}
