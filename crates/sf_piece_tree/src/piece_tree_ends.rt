//! The ends of trees of units.
ghost use Rattle.std.specs.Prelude.{◌≡◌, ◌+◌, ◌-◌, ◌^◌, ◌<◌, ◌≤◌, [], ◌∷◌, ◌++◌, length, take, drop, MatchOption, OnOk, OnErr};
ghost use Rattle.sf_piece_tree.specs.Contents.{joined_content};

use crate::balance::join_by;
use crate::parts::{take_first, take_last};
use crate::piece_tree::PieceTree;
use crate::tree::{Tree, node_of};
use crate::unit::Unit;
use sf_types::Mem;
use std::mem;

impl<P: Unit> PieceTree<P> {
    // Takes the tree out, and leaves an empty one.
    pub(crate) fn take_tree(&mut self) -> Tree<P>
        ensures tree { result.units ≡ self.old }
        ensures rest { self.new ≡ [] }
    {
        mem::replace(&mut self.tree, Tree::empty())
    }

    /// Puts a unit last. After want of memory nothing has changed.
    pub fn push_back(&mut self, unit: P) -> Mem<()>
        requires { length (joined_content P.content self.old) + length (P.content unit) < 2 ^ 64 }
        ensures ok { OnOk result (self.new ≡ self.old ++ unit ∷ []) }
        ensures err { OnErr result (self.new ≡ self.old) }
    {
        let node = node_of(self.alloc, unit)?;
        let tree = self.take_tree();
        self.tree = join_by(tree, node, Tree::empty());
        Ok(())
    }

    /// Puts a unit first. After want of memory nothing has changed.
    pub fn push_front(&mut self, unit: P) -> Mem<()>
        requires { length (joined_content P.content self.old) + length (P.content unit) < 2 ^ 64 }
        ensures ok { OnOk result (self.new ≡ unit ∷ self.old) }
        ensures err { OnErr result (self.new ≡ self.old) }
    {
        let node = node_of(self.alloc, unit)?;
        let tree = self.take_tree();
        self.tree = join_by(Tree::empty(), node, tree);
        Ok(())
    }

    /// Puts a unit in the place of the last one. It takes no memory.
    pub fn replace_last(&mut self, unit: P)
        requires some { 1 ≤ length self.old }
        requires fits { length (joined_content P.content self.old) + length (P.content unit) < 2 ^ 64 }
        ensures { self.new ≡ take (length self.old - 1) self.old ++ unit ∷ [] }
    {
        let (rest, mut node) = take_last(self.take_tree());
        node.unit = unit;
        self.tree = join_by(rest, node, Tree::empty());
    }

    /// Puts a unit in the place of the first one. It takes no memory.
    pub fn replace_first(&mut self, unit: P)
        requires some { 1 ≤ length self.old }
        requires fits { length (joined_content P.content self.old) + length (P.content unit) < 2 ^ 64 }
        ensures { self.new ≡ unit ∷ drop 1 self.old }
    {
        let (mut node, rest) = take_first(self.take_tree());
        node.unit = unit;
        self.tree = join_by(Tree::empty(), node, rest);
    }

    /// Takes the last unit out. None exactly where there is none. It takes no memory.
    pub fn pop_last(&mut self) -> Option<P>
        ensures { MatchOption result ((self.old ≡ []) × (self.new ≡ [])) (λ unit. self.old ≡ self.new ++ unit ∷ []) }
    {
        if self.tree.is_empty() {
            return None;
        }
        let (rest, node) = take_last(self.take_tree());
        self.tree = rest;
        Some(Box::into_inner(node).unit)
    }

    /// Takes the first unit out. None exactly where there is none. It takes no memory.
    pub fn pop_first(&mut self) -> Option<P>
        ensures { MatchOption result ((self.old ≡ []) × (self.new ≡ [])) (λ unit. self.old ≡ unit ∷ self.new) }
    {
        if self.tree.is_empty() {
            return None;
        }
        let (node, rest) = take_first(self.take_tree());
        self.tree = rest;
        Some(Box::into_inner(node).unit)
    }
}
