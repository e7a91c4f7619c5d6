//! Trees, and their nodes.
ghost use Rattle.std.specs.Prelude.{◌≡◌, ◌+◌, ◌^◌, ◌<◌, max, [], ◌∷◌, ◌++◌, length, IfOk, IsTrue, ◌↔◌};
ghost use Rattle.sf_piece_tree.specs.Contents.{joined_content};
ghost use Rattle.sf_piece_tree.specs.Inside.Shapes.{IsTally, AreBalanced};
ghost use Rattle.sf_piece_tree.specs.Inside.Nodes.{shape_of, IsRooted};

use crate::tally::Tally;
use crate::unit::Unit;
use sf_types::Mem;
use std::alloc::Global;
use std::marker::Model;
use std::mem;

// A balanced tree, seen as its units in order and its height.
#[cycle(tree)]
#[derive(Drop)]
pub struct Tree<P: Unit> {
    pub(crate) root: Option<Box<Node<P>>>,
}

// A unit between two trees, and what is kept of all.
#[cycle(tree)]
#[derive(Drop)]
pub struct Node<P: Unit> {
    pub left: Tree<P>,
    pub unit: P,
    pub right: Tree<P>,
    pub tally: Tally,
}

impl<P: Unit> Model for Tree<P> {
    ghost use Rattle.std.specs.Prelude.{length};
    ghost use Rattle.sf_piece_tree.specs.Inside.Shapes.{Shape};

    ghost Value = { Shape P };

    ghost use Rattle.sf_piece_tree.specs.Inside.Nodes.{shape_of, IsRooted};

    ghost view = { λ tree. shape_of tree.root };

    ghost invariant = { λ tree. IsRooted P.content P.weight tree.root };

    ghost size = { λ shape. length shape.units };

    ghost use Rattle.std.proofs.Common.{arith, length-append};

    ghost size_decreases = { λ a h. Prim.grind (arith, length-append) };
}

impl<P: Unit> Tree<P> {
    // No units.
    pub fn empty() -> Tree<P>
        ensures { result ≡ record { units = []; height = 0 } }
    {
        Tree { root: None }
    }

    // What the tree keeps of its units.
    pub fn tally(&self) -> Tally
        ensures { IsTally P.content P.weight self.now result }
    {
        match &self.root {
            None => Tally {
                height: 0,
                pieces: 0,
                size: 0,
                weight: 0,
            },
            Some(node) => node.tally,
        }
    }

    // The height, which can grow.
    pub fn height(&self) -> u32
        ensures height { result ≡ self.now.height }
        ensures low { result + 1 < 2 ^ 32 }
    {
        match &self.root {
            None => 0,
            Some(node) => node.tally.height,
        }
    }

    // The number of bytes.
    pub fn size(&self) -> u64
        ensures { result ≡ length (joined_content P.content self.now.units) }
    {
        match &self.root {
            None => 0,
            Some(node) => node.tally.size,
        }
    }

    // Whether there are no units.
    pub fn is_empty(&self) -> bool
        ensures { IsTrue result ↔ (self.now.units ≡ []) }
    {
        self.root.is_none()
    }

    // The root's node, or none of the empty tree.
    pub fn into_root(self) -> Option<Box<Node<P>>>
        ensures shape { shape_of result ≡ self }
        ensures rooted { IsRooted P.content P.weight result }
    {
        self.root
    }
}

impl<P: Unit> Node<P> {
    // Takes the two sides out.
    pub fn take_sides(&mut self) -> (Tree<P>, Tree<P>)
        ensures left { result.0 ≡ self.old.left }
        ensures right { result.1 ≡ self.old.right }
        ensures unit { self.new.unit ≡ self.old.unit }
    {
        let left = mem::replace(&mut self.left, Tree::empty());
        let right = mem::replace(&mut self.right, Tree::empty());
        (left, right)
    }
}

// A node for a unit.
pub fn node_of<P: Unit>(alloc: Global, unit: P) -> Mem<Box<Node<P>>>
    ensures unit { IfOk result (λ node. node.value.unit ≡ unit) }
    ensures fits { IfOk result (λ node. length (P.content unit) < 2 ^ 64) }
{
    let tally = Tally {
        height: 1,
        pieces: 1,
        size: unit.size(),
        weight: unit.weight(),
    };
    let (left, right) = (Tree::empty(), Tree::empty());
    Ok(Box::new(
        alloc,
        Node {
            left,
            unit,
            right,
            tally,
        },
    )?)
}

// The tree with this node as its root, of which only the unit stays.
pub fn tie<P: Unit>(left: Tree<P>, mut middle: Box<Node<P>>, right: Tree<P>) -> Tree<P>
    requires fits { length (joined_content P.content (left.units ++ middle.value.unit ∷ right.units)) < 2 ^ 64 }
    requires balanced { AreBalanced left.height right.height }
    ensures units { result.units ≡ left.units ++ middle.value.unit ∷ right.units }
    ensures height { result.height ≡ max left.height right.height + 1 }
{
    let (below, beyond) = (left.tally(), right.tally());
    let size = below.size + middle.unit.size() + beyond.size;
    let weight = below.weight + middle.unit.weight() + beyond.weight;
    middle.tally = Tally {
        height: below.height.max(beyond.height) + 1,
        pieces: below.pieces + 1 + beyond.pieces,
        size,
        weight,
    };
    middle.left = left;
    middle.right = right;
    Tree { root: Some(middle) }
}
