//! Trees joined by a node, and balanced.
ghost use Rattle.std.specs.Prelude.{◌≡◌, ◌+◌, ◌^◌, ◌<◌, ◌≤◌, max, ◌∷◌, ◌++◌, length};
ghost use Rattle.sf_piece_tree.specs.Contents.{joined_content};

use crate::tree::{Node, Tree, tie};
use crate::unit::Unit;

// The tree of two sides, of which the left one is two higher, and a node between.
fn lean_left<P: Unit>(left: Tree<P>, middle: Box<Node<P>>, right: Tree<P>) -> Tree<P>
    requires fits { length (joined_content P.content (left.units ++ middle.value.unit ∷ right.units)) < 2 ^ 64 }
    requires two_higher { left.height ≡ right.height + 2 }
    ensures units { result.units ≡ left.units ++ middle.value.unit ∷ right.units }
    ensures not_lower { left.height ≤ result.height }
    ensures one_higher { result.height ≤ left.height + 1 }
{
    let Some(mut pivot) = left.into_root() else {
        unreachable!()
    };
    let (outer, inner) = pivot.take_sides();
    if outer.height() >= inner.height() {
        return tie(outer, pivot, tie(inner, middle, right));
    }
    let Some(mut top) = inner.into_root() else {
        unreachable!()
    };
    let (low, high) = top.take_sides();
    tie(tie(outer, pivot, low), top, tie(high, middle, right))
}

// The tree of two sides, of which the right one is two higher, and a node between.
fn lean_right<P: Unit>(left: Tree<P>, middle: Box<Node<P>>, right: Tree<P>) -> Tree<P>
    requires fits { length (joined_content P.content (left.units ++ middle.value.unit ∷ right.units)) < 2 ^ 64 }
    requires two_higher { right.height ≡ left.height + 2 }
    ensures units { result.units ≡ left.units ++ middle.value.unit ∷ right.units }
    ensures not_lower { right.height ≤ result.height }
    ensures one_higher { result.height ≤ right.height + 1 }
{
    let Some(mut pivot) = right.into_root() else {
        unreachable!()
    };
    let (inner, outer) = pivot.take_sides();
    if outer.height() >= inner.height() {
        return tie(tie(left, middle, inner), pivot, outer);
    }
    let Some(mut top) = inner.into_root() else {
        unreachable!()
    };
    let (low, high) = top.take_sides();
    tie(tie(left, middle, low), top, tie(high, pivot, outer))
}

// The tree of two sides, of which the left one is at most one lower, and a node between.
fn hang_right<P: Unit>(left: Tree<P>, middle: Box<Node<P>>, right: Tree<P>) -> Tree<P>
    requires fits { length (joined_content P.content (left.units ++ middle.value.unit ∷ right.units)) < 2 ^ 64 }
    requires low { right.height ≤ left.height + 1 }
    ensures units { result.units ≡ left.units ++ middle.value.unit ∷ right.units }
    ensures not_lower { max left.height right.height ≤ result.height }
    ensures one_higher { result.height ≤ max left.height right.height + 1 }
{
    if left.height() <= right.height() + 1 {
        return tie(left, middle, right);
    }
    let Some(mut pivot) = left.into_root() else {
        unreachable!()
    };
    let (outer, inner) = pivot.take_sides();
    let grown = hang_right(inner, middle, right);
    if grown.height() > outer.height() + 1 {
        return lean_right(outer, pivot, grown);
    }
    tie(outer, pivot, grown)
}

// The tree of two sides, of which the right one is at most one lower, and a node between.
fn hang_left<P: Unit>(left: Tree<P>, middle: Box<Node<P>>, right: Tree<P>) -> Tree<P>
    requires fits { length (joined_content P.content (left.units ++ middle.value.unit ∷ right.units)) < 2 ^ 64 }
    requires low { left.height ≤ right.height + 1 }
    ensures units { result.units ≡ left.units ++ middle.value.unit ∷ right.units }
    ensures not_lower { max left.height right.height ≤ result.height }
    ensures one_higher { result.height ≤ max left.height right.height + 1 }
{
    if right.height() <= left.height() + 1 {
        return tie(left, middle, right);
    }
    let Some(mut pivot) = right.into_root() else {
        unreachable!()
    };
    let (inner, outer) = pivot.take_sides();
    let grown = hang_left(left, middle, inner);
    if grown.height() > outer.height() + 1 {
        return lean_left(grown, pivot, outer);
    }
    tie(grown, pivot, outer)
}

// The tree of two trees of any heights, and a node between.
pub fn join_by<P: Unit>(left: Tree<P>, middle: Box<Node<P>>, right: Tree<P>) -> Tree<P>
    requires fits { length (joined_content P.content (left.units ++ middle.value.unit ∷ right.units)) < 2 ^ 64 }
    ensures units { result.units ≡ left.units ++ middle.value.unit ∷ right.units }
{
    if left.height() >= right.height() {
        hang_right(left, middle, right)
    } else {
        hang_left(left, middle, right)
    }
}
