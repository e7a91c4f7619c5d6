//! Trees of units joined and cut.
ghost use Rattle.std.specs.Prelude.{◌≡◌, ◌+◌, ◌^◌, ◌<◌, ◌≤◌, ◌∷◌, ◌++◌, length, take, drop, List, IsOk, IfOk, OnErr};
ghost use Rattle.sf_piece_tree.specs.Contents.{joined_content, weight_of};
ghost use Rattle.sf_piece_tree.specs.Cuts.{CutsBetween, IsCut};
ghost use Rattle.sf_piece_tree.specs.Weights.{BeginsWeighty};

use crate::balance::join_by;
use crate::parts::{concat, split, take_nth, take_weighty};
use crate::piece_tree::PieceTree;
use crate::tree::Tree;
use crate::unit::Unit;
use sf_types::{Mem, TryCopy};

impl<P: Unit> PieceTree<P> {
    /// The units of this tree and then those of another, copied.
    pub fn join(&self, other: &PieceTree<P>) -> Mem<PieceTree<P>>
        requires { length (joined_content P.content self.now) + length (joined_content P.content other.now) < 2 ^ 64 }
        ensures { IfOk result (λ both. both ≡ self.now ++ other.now) }
    {
        let mut both = self.copy()?;
        both.append(other.copy()?);
        Ok(both)
    }

    /// Puts the units of another tree after those of this one. It takes no memory.
    pub fn append(&mut self, other: PieceTree<P>)
        requires { length (joined_content P.content self.old) + length (joined_content P.content other) < 2 ^ 64 }
        ensures { self.new ≡ self.old ++ other }
    {
        let tree = self.take_tree();
        self.tree = concat(tree, other.tree);
    }

    /// Copies of the units before a byte and of those from it on, counted from 0. A unit is cut where the byte lies after its
    /// first.
    pub fn cut(&self, at: u64) -> Mem<(PieceTree<P>, PieceTree<P>)>
        requires { at ≤ length (joined_content P.content self.now) }
        ensures units { IfOk result (λ parts. IsCut P.content self.now at parts.0 parts.1) }
        ensures first { IfOk result (λ parts. joined_content P.content parts.0 ≡ take at (joined_content P.content self.now)) }
        ensures second { IfOk result (λ parts. joined_content P.content parts.1 ≡ drop at (joined_content P.content self.now)) }
        ensures weights { IfOk result (λ parts. weight_of P.weight parts.0 + weight_of P.weight parts.1 ≡ weight_of P.weight self.now) }
    {
        let mut first = self.copy()?;
        let second = first.split_off(at)?;
        Ok((first, second))
    }

    /// Cuts the tree at a byte, counted from 0: the units before the byte stay, and those from it on are the result. A unit is
    /// cut where the byte lies after its first; only then it takes memory, and elsewhere it is done. After want of memory
    /// nothing has changed.
    pub fn split_off(&mut self, at: u64) -> Mem<PieceTree<P>>
        requires { at ≤ length (joined_content P.content self.old) }
        ensures units { IfOk result (λ second. IsCut P.content self.old at self.new second) }
        ensures free { (first second : List P) → CutsBetween P.content self.old at first second → IsOk result }
        ensures first { IfOk result (λ second. joined_content P.content self.new ≡ take at (joined_content P.content self.old)) }
        ensures second { IfOk result (λ second. joined_content P.content second ≡ drop at (joined_content P.content self.old)) }
        ensures weights { IfOk result (λ second. weight_of P.weight self.new + weight_of P.weight second ≡ weight_of P.weight self.old) }
        ensures err { OnErr result (self.new ≡ self.old) }
    {
        let (first, second) = split(self.alloc, self.take_tree(), at);
        self.tree = first;
        Ok(PieceTree {
            tree: second?,
            alloc: self.alloc,
        })
    }

    /// Cuts the tree behind so many units: these stay, and the others are the result. It takes no memory.
    pub fn split_pieces(&mut self, count: u64) -> PieceTree<P>
        requires { count ≤ length self.old }
        ensures first { self.new ≡ take count self.old }
        ensures second { result ≡ drop count self.old }
    {
        let _size = self.size();
        let alloc = self.alloc;
        if count == self.pieces() {
            return PieceTree::empty(alloc);
        }
        let (first, node, rest) = take_nth(self.take_tree(), count);
        self.tree = first;
        PieceTree {
            tree: join_by(Tree::empty(), node, rest),
            alloc,
        }
    }

    /// Cuts the tree, which has some weight, before the first unit that has some: the units before it stay, and it and those
    /// behind it are the result. It takes no memory.
    pub fn split_light(&mut self) -> PieceTree<P>
        requires { 0 < weight_of P.weight self.old }
        ensures units { self.old ≡ self.new ++ result }
        ensures light { weight_of P.weight self.new ≡ 0 }
        ensures weighty { BeginsWeighty P.weight result }
    {
        let _size = self.size();
        let (first, node, rest) = take_weighty(self.take_tree());
        self.tree = first;
        PieceTree {
            tree: join_by(Tree::empty(), node, rest),
            alloc: self.alloc,
        }
    }
}
