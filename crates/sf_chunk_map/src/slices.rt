//! Parts of values.
ghost use Rattle.std.specs.Prelude.{◌≡◌, ◌+◌, ◌-◌, ◌≤◌, ◌++◌, length, take, drop, min, IfOk};
ghost use Rattle.sf_types.specs.Values.Marks.{size_of, strip};
ghost use Rattle.sf_chunk_map.specs.Contents.{window};
ghost use Rattle.sf_chunk_map.specs.Maps.{sliced, LiesWithin};
ghost use Rattle.sf_chunk_map.specs.Pieces.{marked_of, marked_in};

use crate::counting::counts_of;
use crate::map::Map;
use crate::parts::Piece;
use crate::reading::{Reading, read_tree};
use sf_piece_tree::{PieceTree, Unit};
use sf_types::{Mem, TryCopy};
use std::alloc::Global;

// The first bytes of a piece, some of them.
fn front_of(piece: &Piece, len: u64) -> Mem<Piece>
    requires some { 1 ≤ len }
    requires within { len ≤ length (marked_of piece.now) }
    ensures { IfOk result (λ front. marked_of front ≡ take len (marked_of piece.now)) }
{
    if len == piece.size() {
        piece.copy()
    } else {
        piece.front(len)
    }
}

// So many bytes of a piece from an index on, counted from 0.
pub fn part_of(piece: &Piece, from: u64, len: u64) -> Mem<Piece>
    requires some { 1 ≤ len }
    requires within { from + len ≤ length (marked_of piece.now) }
    ensures { IfOk result (λ part. marked_of part ≡ window from len (marked_of piece.now)) }
{
    if from == 0 {
        return front_of(piece, len);
    }
    let back = piece.back(from)?;
    front_of(&back, len)
}

// So many bytes of a tree from one on.
fn sliced_tree(alloc: Global, tree: &PieceTree<Piece>, at: u64, len: u64) -> Mem<PieceTree<Piece>>
    requires { at + len ≤ length (marked_in tree.now) }
    ensures { IfOk result (λ slice. marked_in slice ≡ window at len (marked_in tree.now)) }
{
    let _size = tree.size();
    let mut slice = PieceTree::empty(alloc);
    let mut done = 0;
    while done < len {
        let Some((piece, from)) = tree.find(at + done) else {
            unreachable!();
        };
        let count = (len - done).min(piece.size() - from);
        slice.push_back(part_of(piece, from, count)?)?;
        done += count;
    }
    Ok(slice)
}

impl Map {
    /// So many bytes from one on. The choice is that of this value. It costs in proportion to the pieces of the part, and to
    /// the depth.
    pub fn slice(&self, at: u64, len: u64) -> Mem<Map>
        requires { LiesWithin self.now at len }
        ensures { IfOk result (λ slice. slice ≡ sliced self.now at len) }
    {
        let _len = self.len();
        let alloc = self.counts.allocator();
        let tree = sliced_tree(alloc, &self.tree, at, len)?;
        let counts = counts_of(alloc, &tree)?;
        Ok(Map {
            tree,
            counts,
            choice: self.choice,
        })
    }

    /// Fills a slice with the bytes from one on, as many as there are and the slice takes, and leaves the rest of it. Answers
    /// their number. It takes no memory, and walks down the tree once: it costs in proportion to the bytes, to their pieces and
    /// to the depth.
    pub fn read_into(&self, at: u64, into: &mut [u8]) -> usize
        requires { at ≤ size_of self.now }
        ensures count { result ≡ min (length into.old) (size_of self.now - at) }
        ensures bytes { into.new ≡ window at result (strip self.now) ++ drop result into.old }
    {
        let _len = self.len();
        let mut reading = Reading::new(into);
        read_tree(&self.tree, at, &mut reading);
        reading.done
    }
}
