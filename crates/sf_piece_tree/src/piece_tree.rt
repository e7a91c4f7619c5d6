//! Trees of units.
ghost use Rattle.std.specs.Prelude.{◌≡◌, ◌+◌, ◌/◌, ◌-◌, ◌^◌, ◌<◌, ◌≤◌, [], ◌∷◌, ◌++◌, length, slice_get, IfOk, MatchOption};
ghost use Rattle.std.specs.Option.{option_copied};
ghost use Rattle.sf_piece_tree.specs.Contents.{joined_content, weight_of, LiesIn};
ghost use Rattle.sf_piece_tree.specs.Walks.{Walks, units_from};

use crate::tree::{Tree, node_of, tie};
use crate::unit::Unit;
use crate::visitor::Visitor;
use sf_types::{Mem, TryCopy};
use std::alloc::Global;
use std::marker::Model;

/// Units in order, in a balanced tree: seen as their list. Each has its place by the bytes before it, and their sizes add up
/// to less than 2^64 bytes.
#[derive(Drop)]
pub struct PieceTree<P: Unit> {
    pub(crate) tree: Tree<P>,
    pub(crate) alloc: Global,
}

impl<P: Unit> Model for PieceTree<P> {
    ghost use Rattle.std.specs.Prelude.{List};
    ghost use Rattle.std.specs.Coded.{coded_list};

    ghost Value = { List P };

    ghost coded = { coded_list P.code };

    ghost view = { λ pieces. pieces.tree.units };
}

impl<P: Unit> PieceTree<P> {
    /// No units. It takes no memory.
    pub fn empty(alloc: Global) -> PieceTree<P>
        ensures { result ≡ [] }
    {
        PieceTree {
            tree: Tree::empty(),
            alloc,
        }
    }

    /// One unit.
    pub fn one(alloc: Global, unit: P) -> Mem<PieceTree<P>>
        ensures { IfOk result (λ pieces. pieces ≡ unit ∷ []) }
    {
        let node = node_of(alloc, unit)?;
        Ok(PieceTree {
            tree: tie(Tree::empty(), node, Tree::empty()),
            alloc,
        })
    }

    /// The allocator that the tree was made with.
    pub fn allocator(&self) -> Global {
        self.alloc
    }

    /// The number of bytes.
    pub fn size(&self) -> u64
        ensures { result ≡ length (joined_content P.content self.now) }
    {
        self.tree.size()
    }

    /// The number of units, at most that of the bytes.
    pub fn pieces(&self) -> u64
        ensures pieces { result ≡ length self.now }
        ensures most { result ≤ length (joined_content P.content self.now) }
    {
        self.tree.tally().pieces
    }

    /// The weight of all units, at most the number of bytes.
    pub fn weight(&self) -> u64
        ensures weight { result ≡ weight_of P.weight self.now }
        ensures most { result ≤ length (joined_content P.content self.now) }
    {
        self.tree.tally().weight
    }

    /// The greatest number of nodes on a walk down from the root. The tree is shallow: 2 to the power of half its depth is at
    /// most one more than the number of units. It has fewer units than 2 to the power of its depth.
    pub fn depth(&self) -> u32
        ensures shallow { 2 ^ (result / 2) ≤ length self.now + 1 }
        ensures deep { length self.now < 2 ^ result }
    {
        self.tree.tally().height
    }

    /// The first unit. None exactly where there is none.
    pub fn first(&self) -> Option<&P>
        ensures { option_copied result ≡ slice_get self.now 0 }
    {
        self.tree.first()
    }

    /// The last unit. None exactly where there is none.
    pub fn last(&self) -> Option<&P>
        ensures { option_copied result ≡ slice_get self.now (length self.now - 1) }
    {
        self.tree.last()
    }

    /// The unit in which a byte lies, counted from 0, and the number of the unit's bytes before it. None exactly where the
    /// byte is not below `size()`.
    pub fn find(&self, at: u64) -> Option<(&P, u64)>
        ensures { MatchOption result (length (joined_content P.content self.now) ≤ at) (λ found. LiesIn P.content self.now at found.0.now found.1) }
    {
        self.tree.find(at)
    }

    /// Shows a visitor the units from a byte on, counted from 0, until it answers false. The answer is the visitor's last
    /// one, and true where it was shown no unit. It takes no memory.
    pub fn visit_from<V: Visitor<P>>(&self, at: u64, visitor: &mut V) -> bool
        ensures { Walks V.visits (units_from P.content self.now at) visitor.old visitor.new result }
    {
        self.tree.visit_from(at, visitor)
    }
}

impl<P: Unit> TryCopy for PieceTree<P> {
    fn copy(&self) -> Mem<PieceTree<P>> {
        Ok(PieceTree {
            tree: self.tree.copy(self.alloc)?,
            alloc: self.alloc,
        })
    }
}
