//! Searches by weight.
ghost use Rattle.std.specs.Prelude.{◌≡◌, [], ◌∷◌};
ghost use Rattle.sf_piece_tree.specs.Weights.{weighty_byte};

use crate::piece_tree::PieceTree;
use crate::tree::Tree;
use crate::unit::Unit;

impl<P: Unit> Tree<P> {
    // The first byte, from a byte on, that lies in a unit with some weight. Where a side is searched from its first byte on, it
    // has some weight and the search doesn't turn back: so it costs two walks down.
    pub fn next_weighty(&self, at: u64) -> Option<u64>
        ensures { result ≡ weighty_byte P.content P.weight self.now.units at }
    {
        match &self.root {
            None => None,
            Some(node) => {
                if node.tally.weight == 0 {
                    return None;
                }
                if node.tally.size <= at {
                    return None;
                }
                match node.left.next_weighty(at) {
                    Some(found) => return Some(found),
                    None => {}
                }
                let before = node.left.size();
                let offset = at.saturating_sub(before);
                match weighty_in(&node.unit, offset) {
                    Some(found) => return Some(before + found),
                    None => {}
                }
                let through = node.unit.size();
                match node.right.next_weighty(offset.saturating_sub(through)) {
                    Some(found) => Some(before + through + found),
                    None => None,
                }
            }
        }
    }
}

// The first byte of a unit with some weight from a byte on.
fn weighty_in<P: Unit>(unit: &P, at: u64) -> Option<u64>
    ensures { result ≡ weighty_byte P.content P.weight (unit.now ∷ []) at }
{
    if unit.weight() == 0 {
        return None;
    }
    if at < unit.size() { Some(at) } else { None }
}

impl<P: Unit> PieceTree<P> {
    /// The first byte, from a byte on, that lies in a unit with some weight, counted from 0. None exactly where there is none. It
    /// costs in proportion to the depth.
    pub fn next_weighty(&self, at: u64) -> Option<u64>
        ensures { result ≡ weighty_byte P.content P.weight self.now at }
    {
        self.tree.next_weighty(at)
    }
}
