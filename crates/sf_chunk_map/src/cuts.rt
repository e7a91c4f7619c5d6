//! Trees of pieces cut in place.
ghost use Rattle.std.specs.Prelude.{◌≡◌, ◌+◌, ◌≤◌, take, drop, length, IfOk, OnOk, OnErr};
ghost use Rattle.sf_chunk_map.specs.Contents.{window};
ghost use Rattle.sf_chunk_map.specs.Pieces.{marked_in};
ghost use Rattle.sf_chunk_map.specs.Inside.Counts.{AreCounts};

use crate::counting::counts_of;
use crate::counts::BirthCounts;
use crate::parts::Piece;
use sf_piece_tree::PieceTree;
use sf_types::Mem;
use std::alloc::Global;

/// What was cut out of a tree with its numbers, and what stood behind it.
#[derive(Drop)]
pub struct CutOut {
    pub middle: PieceTree<Piece>,
    pub counts: BirthCounts,
    pub tail: PieceTree<Piece>,
}

/// Keeps the first bytes of a tree, and gives them their numbers and the rest of the tree. After want of memory the bytes
/// are as before.
fn cut_tail(
    alloc: Global,
    tree: &mut PieceTree<Piece>,
    len: u64,
) -> Mem<(BirthCounts, PieceTree<Piece>)>
    requires { len ≤ length (marked_in tree.old) }
    ensures front { OnOk result (marked_in tree.new ≡ take len (marked_in tree.old)) }
    ensures counts { IfOk result (λ cut. AreCounts cut.0 (take len (marked_in tree.old))) }
    ensures tail { IfOk result (λ cut. marked_in cut.1 ≡ drop len (marked_in tree.old)) }
    ensures err { OnErr result (marked_in tree.new ≡ marked_in tree.old) }
{
    let _size = tree.size();
    let tail = tree.split_off(len)?;
    match counts_of(alloc, tree) {
        Ok(counts) => Ok((counts, tail)),
        Err(error) => {
            tree.append(tail);
            Err(error)
        }
    }
}

/// Cuts so many bytes from one on out of a tree, which keeps those before them. After want of memory its bytes are as
/// before.
pub fn cut_out(alloc: Global, tree: &mut PieceTree<Piece>, at: u64, len: u64) -> Mem<CutOut>
    requires { at + len ≤ length (marked_in tree.old) }
    ensures front { OnOk result (marked_in tree.new ≡ take at (marked_in tree.old)) }
    ensures middle { IfOk result (λ cut. marked_in cut.middle ≡ window at len (marked_in tree.old)) }
    ensures counts { IfOk result (λ cut. AreCounts cut.counts (window at len (marked_in tree.old))) }
    ensures tail { IfOk result (λ cut. marked_in cut.tail ≡ drop (at + len) (marked_in tree.old)) }
    ensures err { OnErr result (marked_in tree.new ≡ marked_in tree.old) }
{
    let _size = tree.size();
    let mut middle = tree.split_off(at)?;
    match cut_tail(alloc, &mut middle, len) {
        Ok((counts, tail)) => Ok(CutOut {
            middle,
            counts,
            tail,
        }),
        Err(error) => {
            tree.append(middle);
            Err(error)
        }
    }
}
