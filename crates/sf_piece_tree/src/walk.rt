//! Walks down a tree.
ghost use Rattle.std.specs.Prelude.{◌≡◌, ◌-◌, ◌≤◌, ◌∷◌, map, length, slice_get, IfOk, MatchOption};
ghost use Rattle.std.specs.Option.{option_copied};
ghost use Rattle.sf_piece_tree.specs.Contents.{joined_content, LiesIn};
ghost use Rattle.sf_piece_tree.specs.Walks.{Walks, units_from, whole_units};

use crate::tree::{Node, Tree};
use crate::unit::Unit;
use crate::visitor::Visitor;
use sf_types::Mem;
use std::alloc::Global;

impl<P: Unit> Tree<P> {
    // A tree of equal units and of the same height.
    pub fn copy(&self, alloc: Global) -> Mem<Tree<P>>
        ensures { IfOk result (λ copied. copied ≡ self.now) }
    {
        match &self.root {
            None => Ok(Tree::empty()),
            Some(node) => {
                let left = node.left.copy(alloc)?;
                let unit = node.unit.copy()?;
                let right = node.right.copy(alloc)?;
                let tally = node.tally;
                let node = Box::new(
                    alloc,
                    Node {
                        left,
                        unit,
                        right,
                        tally,
                    },
                )?;
                Ok(Tree { root: Some(node) })
            }
        }
    }

    // The first unit.
    pub fn first(&self) -> Option<&P>
        ensures { option_copied result ≡ slice_get self.now.units 0 }
    {
        match &self.root {
            None => None,
            Some(node) => match node.left.first() {
                None => Some(&node.unit),
                found => found,
            },
        }
    }

    // The last unit.
    pub fn last(&self) -> Option<&P>
        ensures { option_copied result ≡ slice_get self.now.units (length self.now.units - 1) }
    {
        match &self.root {
            None => None,
            Some(node) => match node.right.last() {
                None => Some(&node.unit),
                found => found,
            },
        }
    }

    // The unit in which a byte lies, and the number of its bytes before it.
    pub fn find(&self, at: u64) -> Option<(&P, u64)>
        ensures { MatchOption result (length (joined_content P.content self.now.units) ≤ at) (λ found. LiesIn P.content self.now.units at found.0.now found.1) }
    {
        match &self.root {
            None => None,
            Some(node) => {
                let before = node.left.size();
                if at < before {
                    return node.left.find(at);
                }
                let offset = at - before;
                let size = node.unit.size();
                if offset < size {
                    return Some((&node.unit, offset));
                }
                node.right.find(offset - size)
            }
        }
    }

    // Shows a visitor all units.
    pub fn visit_all<V: Visitor<P>>(&self, visitor: &mut V) -> bool
        ensures { Walks V.visits (whole_units self.now.units) visitor.old visitor.new result }
    {
        match &self.root {
            None => true,
            Some(node) => {
                if !node.left.visit_all(visitor) {
                    return false;
                }
                if !visitor.visit(&node.unit, 0) {
                    return false;
                }
                node.right.visit_all(visitor)
            }
        }
    }

    // Shows a visitor the units from a byte on.
    pub fn visit_from<V: Visitor<P>>(&self, at: u64, visitor: &mut V) -> bool
        ensures { Walks V.visits (units_from P.content self.now.units at) visitor.old visitor.new result }
    {
        match &self.root {
            None => true,
            Some(node) => {
                let before = node.left.size();
                if at < before {
                    if !node.left.visit_from(at, visitor) {
                        return false;
                    }
                    return visit_rest(node, 0, visitor);
                }
                let offset = at - before;
                let size = node.unit.size();
                if offset < size {
                    return visit_rest(node, offset, visitor);
                }
                node.right.visit_from(offset - size, visitor)
            }
        }
    }
}

// Shows a visitor a node's unit, whose first bytes come before the walk, and the units on its right side.
fn visit_rest<P: Unit, V: Visitor<P>>(node: &Node<P>, from: u64, visitor: &mut V) -> bool
    requires { from ≤ length (P.content node.now.unit) }
    ensures { Walks V.visits ((node.now.unit, from) ∷ whole_units node.now.right.units) visitor.old visitor.new result }
{
    if !visitor.visit(&node.unit, from) {
        return false;
    }
    node.right.visit_all(visitor)
}
