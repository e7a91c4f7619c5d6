//! What a walk from a byte on shows.
ghost use Rattle.std.specs.Prelude.{◌≡◌, ℕ, List, drop};
ghost use Rattle.sf_piece_tree.specs.Contents.{joined_content};
ghost use Rattle.sf_piece_tree.specs.Walks.{units_from, shown_content};

use crate::unit::Unit;

/// The bytes that a walk from a byte on shows are the content from that byte on.
pub fn a_walk_shows_the_content_from_its_byte<P: Unit>()
    ensures { (units : List P) (at : ℕ) → shown_content P.content (units_from P.content units at) ≡ drop at (joined_content P.content units) }
{}
