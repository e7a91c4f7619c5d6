//! The rule of the turnstile, and what each of its atomic steps tells.
use crate::told::Told;
use crate::view::View;
use atomic_table::{Join, Play, Split, TableRule};

/// The rule of the turnstile.
pub struct Turns;

impl<B: Told> TableRule<Option<B>, View, ()> for Turns {
    ghost use Rattle.sf_turnstile.specs.Rule.{TurnstileRule, first_view};

    ghost holds = { λ _. TurnstileRule B.history };

    ghost first = { λ _. first_view };
}

// A draw: the seat gets the ticket that it found.
pub(crate) struct Draw;

impl<B> Play<Option<B>, View> for Draw {
    ghost use Rattle.sf_turnstile.specs.Steps.{Draws};

    ghost then = { Draws };
}

// A look at the ticket that is served: at its turn the seat gets the slot.
pub(crate) struct Look;

impl<B: Told> Play<Option<B>, View> for Look {
    ghost use Rattle.sf_turnstile.specs.Steps.{Looks};

    ghost then = { Looks B.history };
}

// A hand-on: the seat gives its slot back, and the next ticket is served.
pub(crate) struct HandOn;

impl<B: Told> Play<Option<B>, View> for HandOn {
    ghost use Rattle.sf_turnstile.specs.Steps.{HandsOn};

    ghost then = { HandsOn B.history };
}

// A split of the first seat.
pub(crate) struct NewSeat;

impl Split<View> for NewSeat {
    ghost use Rattle.sf_turnstile.specs.Steps.{view_after_split, next_view};

    ghost left = { view_after_split };

    ghost right = { next_view };
}

// A join into the first seat.
pub(crate) struct LongerFront;

impl Join<View> for LongerFront {
    ghost use Rattle.sf_turnstile.specs.Steps.{view_after_join, spent_view};

    ghost both = { view_after_join };

    ghost spent = { spent_view };
}

// A look just after a join, which tells what the join left.
pub(crate) struct Compare;

impl<B> Play<Option<B>, View> for Compare {
    ghost use Rattle.sf_turnstile.specs.Steps.{Compares};

    ghost then = { Compares };
}
