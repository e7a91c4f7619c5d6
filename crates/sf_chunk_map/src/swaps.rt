//! Parts of a value that change places.
ghost use Rattle.std.specs.Prelude.{◌≡◌, ◌+◌, ◌≤◌, take, drop, length, IfOk, OnOk, OnErr};
ghost use Rattle.sf_chunk_map.specs.Contents.{window};
ghost use Rattle.sf_chunk_map.specs.Maps.{swapped, LiesWithin};
ghost use Rattle.sf_chunk_map.specs.Pieces.{marked_in};

use crate::map::Map;
use crate::parts::Piece;
use crate::seams::{append_new, append_old};
use sf_piece_tree::PieceTree;
use sf_types::Mem;

// Cuts a tree in three: it keeps the first bytes, and gives so many after them, and the rest. After want of memory its bytes
// are as before.
fn cut_in_three(
    tree: &mut PieceTree<Piece>,
    first: u64,
    second: u64,
) -> Mem<(PieceTree<Piece>, PieceTree<Piece>)>
    requires { first + second ≤ length (marked_in tree.old) }
    ensures first { OnOk result (marked_in tree.new ≡ take first (marked_in tree.old)) }
    ensures second { IfOk result (λ cut. marked_in cut.0 ≡ window first second (marked_in tree.old)) }
    ensures rest { IfOk result (λ cut. marked_in cut.1 ≡ drop (first + second) (marked_in tree.old)) }
    ensures err { OnErr result (marked_in tree.new ≡ marked_in tree.old) }
{
    let _size = tree.size();
    let mut middle = tree.split_off(first)?;
    match middle.split_off(second) {
        Ok(rest) => Ok((middle, rest)),
        Err(error) => {
            tree.append(middle);
            Err(error)
        }
    }
}

impl Map {
    /// The first part of so many bytes from one on, and the second part behind it, change places. The choice stays. It costs in
    /// proportion to the depth. After want of memory the value is as before.
    pub fn swap_in(&mut self, at: u64, first: u64, second: u64) -> Mem<()>
        requires { LiesWithin self.old at (first + second) }
        ensures ok { OnOk result (self.new ≡ swapped self.old at first second) }
        ensures err { OnErr result (self.new ≡ self.old) }
    {
        let _len = self.len();
        let mut left = self.tree.split_off(at)?;
        match cut_in_three(&mut left, first, second) {
            Ok((right, tail)) => {
                append_new(&mut self.tree, right);
                append_new(&mut self.tree, left);
                append_old(&mut self.tree, tail);
                Ok(())
            }
            Err(error) => {
                self.tree.append(left);
                Err(error)
            }
        }
    }
}
