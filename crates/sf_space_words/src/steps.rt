//! The rule of the words, and what each of their atomic steps tells.
use crate::view::View;
use atomic_table::{Join, Play, Split, TableRule};
use std::marker::{Brand, PhantomData};

/// The rule of the words.
pub struct Bits;

impl TableRule<(), View, u32> for Bits {
    ghost use Rattle.sf_space_words.specs.Rule.{SpaceRule, view_without_blocks};

    ghost holds = { SpaceRule };

    ghost first = { view_without_blocks };
}

// A claim: the seat gets the asked blocks whose bits were clear.
pub(crate) struct Claim;

impl Play<(), View> for Claim {
    ghost use Rattle.sf_space_words.specs.Steps.{Claims};

    ghost then = { Claims };
}

// A release: the seat loses the named blocks.
pub(crate) struct Release;

impl Play<(), View> for Release {
    ghost use Rattle.sf_space_words.specs.Steps.{Releases};

    ghost then = { Releases };
}

// A look at a word, which changes nothing.
pub(crate) struct Look;

impl Play<(), View> for Look {
    ghost use Rattle.sf_space_words.specs.Steps.{Looks};

    ghost then = { Looks };
}

/// Some blocks, which a call picks.
pub(crate) trait Chosen {
    ghost use Rattle.std.specs.Prelude.{ℕ, List};

    ghost blocks: { List ℕ };
}

impl Chosen for Brand {
    ghost use Rattle.std.specs.Prelude.{[]};

    ghost blocks = { [] };
}

// A part: the chosen blocks go to a new seat.
pub(crate) struct Part<C> {
    of: PhantomData<C>,
}

impl<C: Chosen> Split<View> for Part<C> {
    ghost use Rattle.sf_space_words.specs.Steps.{view_after_part, view_of_part};

    ghost left = { view_after_part C.blocks };

    ghost right = { view_of_part C.blocks };
}

// A merge: the seat gets the other seat's blocks.
pub(crate) struct Merge;

impl Join<View> for Merge {
    ghost use Rattle.sf_space_words.specs.Steps.{view_after_merge};
    ghost use Rattle.sf_space_words.specs.Rule.{spent_view};

    ghost both = { view_after_merge };

    ghost spent = { spent_view };
}
