//! Trees taken apart and put together.
ghost use Rattle.std.specs.Prelude.{◌≡◌, ◌+◌, ◌^◌, ◌<◌, ◌≤◌, [], ◌∷◌, ◌++◌, length, take, drop, List, IsOk, IfOk, OnErr};
ghost use Rattle.sf_piece_tree.specs.Contents.{joined_content, weight_of};
ghost use Rattle.sf_piece_tree.specs.Cuts.{CutsBetween, IsCut};

use crate::balance::join_by;
use crate::tree::{Node, Tree, node_of};
use crate::unit::Unit;
use sf_types::Mem;
use std::alloc::Global;

// Takes out the node in whose unit a byte lies: the tree of the units before it, the node, and the tree of those after it.
pub fn take_out<P: Unit>(tree: Tree<P>, at: u64) -> (Tree<P>, Box<Node<P>>, Tree<P>)
    requires { at < length (joined_content P.content tree.units) }
    ensures units { tree.units ≡ result.0.units ++ result.1.value.unit ∷ result.2.units }
    ensures before { length (joined_content P.content result.0.units) ≤ at }
    ensures within { at < length (joined_content P.content result.0.units) + length (P.content result.1.value.unit) }
{
    let Some(mut node) = tree.into_root() else {
        unreachable!()
    };
    let (left, right) = node.take_sides();
    let before = left.size();
    if at < before {
        let (first, found, rest) = take_out(left, at);
        return (first, found, join_by(rest, node, right));
    }
    let through = before + node.unit.size();
    if at < through {
        return (left, node, right);
    }
    let (rest, found, last) = take_out(right, at - through);
    (join_by(left, node, rest), found, last)
}

// Takes out the node with an index, counted from 0: the tree of the units before it, the node, and the tree of those after it.
pub fn take_nth<P: Unit>(tree: Tree<P>, index: u64) -> (Tree<P>, Box<Node<P>>, Tree<P>)
    requires { index < length tree.units }
    ensures units { tree.units ≡ result.0.units ++ result.1.value.unit ∷ result.2.units }
    ensures before { length result.0.units ≡ index }
{
    let Some(mut node) = tree.into_root() else {
        unreachable!()
    };
    let (left, right) = node.take_sides();
    let before = left.tally().pieces;
    if index < before {
        let (first, found, rest) = take_nth(left, index);
        return (first, found, join_by(rest, node, right));
    }
    if index == before {
        return (left, node, right);
    }
    let (rest, found, last) = take_nth(right, index - before - 1);
    (join_by(left, node, rest), found, last)
}

// Takes out the first node whose unit has some weight: the tree of the units before it, the node, and the tree of those after it.
pub fn take_weighty<P: Unit>(tree: Tree<P>) -> (Tree<P>, Box<Node<P>>, Tree<P>)
    requires { 0 < weight_of P.weight tree.units }
    ensures units { tree.units ≡ result.0.units ++ result.1.value.unit ∷ result.2.units }
    ensures light { weight_of P.weight result.0.units ≡ 0 }
    ensures weighty { 0 < P.weight result.1.value.unit }
{
    let Some(mut node) = tree.into_root() else {
        unreachable!()
    };
    let (left, right) = node.take_sides();
    if left.tally().weight > 0 {
        let (first, found, rest) = take_weighty(left);
        return (first, found, join_by(rest, node, right));
    }
    if node.unit.weight() > 0 {
        return (left, node, right);
    }
    let (rest, found, last) = take_weighty(right);
    (join_by(left, node, rest), found, last)
}

// Takes out the first node.
pub fn take_first<P: Unit>(tree: Tree<P>) -> (Box<Node<P>>, Tree<P>)
    requires { 1 ≤ length tree.units }
    ensures { tree.units ≡ result.0.value.unit ∷ result.1.units }
{
    let Some(mut node) = tree.into_root() else {
        unreachable!()
    };
    let (left, right) = node.take_sides();
    if left.is_empty() {
        return (node, right);
    }
    let (first, rest) = take_first(left);
    (first, join_by(rest, node, right))
}

// Takes out the last node.
pub fn take_last<P: Unit>(tree: Tree<P>) -> (Tree<P>, Box<Node<P>>)
    requires { 1 ≤ length tree.units }
    ensures { tree.units ≡ result.0.units ++ result.1.value.unit ∷ [] }
{
    let Some(mut node) = tree.into_root() else {
        unreachable!()
    };
    let (left, right) = node.take_sides();
    if right.is_empty() {
        return (left, node);
    }
    let (rest, last) = take_last(right);
    (join_by(left, node, rest), last)
}

// The tree of the units of two trees.
pub fn concat<P: Unit>(left: Tree<P>, right: Tree<P>) -> Tree<P>
    requires { length (joined_content P.content (left.units ++ right.units)) < 2 ^ 64 }
    ensures { result.units ≡ left.units ++ right.units }
{
    if right.is_empty() {
        return left;
    }
    let (middle, rest) = take_first(right);
    join_by(left, middle, rest)
}

// The parts of a unit before a byte and from it on, the second in a node of its own.
fn halves<P: Unit>(alloc: Global, unit: &P, offset: u64) -> Mem<(P, Box<Node<P>>)>
    requires some { 0 < offset }
    requires within { offset < length (P.content unit.now) }
    ensures front { IfOk result (λ parts. P.content parts.0 ≡ take offset (P.content unit.now)) }
    ensures back { IfOk result (λ parts. P.content parts.1.value.unit ≡ drop offset (P.content unit.now)) }
{
    let front = unit.front(offset)?;
    let back = unit.back(offset)?;
    let node = node_of(alloc, back)?;
    Ok((front, node))
}

// Cuts a tree at a byte. After want of memory the first part is the whole.
pub fn split<P: Unit>(alloc: Global, tree: Tree<P>, at: u64) -> (Tree<P>, Mem<Tree<P>>)
    requires { at ≤ length (joined_content P.content tree.units) }
    ensures ok { IfOk result.1 (λ second. IsCut P.content tree.units at result.0.units second.units) }
    ensures free { (first second : List P) → CutsBetween P.content tree.units at first second → IsOk result.1 }
    ensures err { OnErr result.1 (result.0.units ≡ tree.units) }
{
    if at == tree.size() {
        return (tree, Ok(Tree::empty()));
    }
    let (before, mut node, after) = take_out(tree, at);
    let offset = at - before.size();
    if offset == 0 {
        return (before, Ok(join_by(Tree::empty(), node, after)));
    }
    match halves(alloc, &node.unit, offset) {
        Ok((front, back)) => {
            node.unit = front;
            let first = join_by(before, node, Tree::empty());
            (first, Ok(join_by(Tree::empty(), back, after)))
        }
        Err(error) => (join_by(before, node, after), Err(error)),
    }
}
