//! Fresh bytes that become stored ones.
ghost use Rattle.std.specs.Prelude.{◌≡◌, ◌+◌, ◌≤◌, ℕ, length, map, MatchOption, IfOk, OnOk, OnErr};
ghost use Rattle.sf_types.specs.declared.limits.TheConstants.{OBJECT_BYTES};
ghost use Rattle.sf_types.specs.Space.Cuts.{contents_of_value, settle_value};
ghost use Rattle.sf_chunk_map.specs.Pieces.{marked_in};
ghost use Rattle.sf_chunk_map.specs.Stretches.{IsNotFreshAt};
ghost use Rattle.sf_chunk_map.specs.Inside.Counts.{bytes_of_birth};
ghost use Rattle.sf_chunk_map.specs.Inside.Settling.{settled_in, whole_piece, births_of, AreReady, BeginsFresh, IsFreshFront};

use crate::counting::{make_places, raise_pieces};
use crate::map::Map;
use crate::parts::{ChunkList, Piece, StoredPart};
use sf_piece_tree::{PieceTree, Unit};
use sf_types::{CONTENT_BYTES, Mem, TryCopy};
use std::alloc::Global;
use std::mem;

// The pieces of whole contents.
fn whole_pieces(alloc: Global, chunks: &ChunkList) -> Mem<PieceTree<Piece>>
    requires { length (marked_in (map whole_piece chunks.now)) ≤ OBJECT_BYTES }
    ensures { IfOk result (λ pieces. pieces ≡ map whole_piece chunks.now) }
{
    let mut pieces = PieceTree::empty(alloc);
    for chunk in chunks.as_slice() {
        let len = chunk.content().len() as u32;
        pieces.push_back(Piece::Stored(StoredPart::new(chunk.copy()?, 0, len)))?;
    }
    Ok(pieces)
}

// The number of the first piece's bytes, where it is fresh.
fn fresh_front(tree: &PieceTree<Piece>) -> Option<u64>
    ensures { MatchOption result (IsNotFreshAt (marked_in tree.now) 0) (BeginsFresh tree.now) }
{
    match tree.first() {
        None => None,
        Some(piece) => {
            let size = piece.size();
            if piece.weight() > 0 { Some(size) } else { None }
        }
    }
}

// Takes the fresh pieces off the front of a tree, and answers how many bytes they have.
fn pop_fresh(tree: &mut PieceTree<Piece>) -> u64
    ensures front { IsFreshFront (marked_in tree.old) (marked_in tree.new) result }
    ensures ended { IsNotFreshAt (marked_in tree.new) 0 }
{
    let _size = tree.size();
    let mut len = 0;
    while let Some(count) = fresh_front(tree) {
        tree.pop_first();
        len += count;
    }
    len
}

// The tree with the pieces of whole contents in the place of its fresh ones. It takes no memory.
fn settled(tree: PieceTree<Piece>, ready: PieceTree<Piece>) -> PieceTree<Piece>
    requires ready { AreReady ready (marked_in tree) }
    requires most { length (marked_in tree) ≤ OBJECT_BYTES }
    ensures bytes { marked_in result ≡ settled_in (marked_in tree) (births_of ready) }
    ensures size { length (marked_in result) ≡ length (marked_in tree) }
    ensures counts { (b : ℕ) → bytes_of_birth b (marked_in result) ≡ bytes_of_birth b (marked_in tree) + bytes_of_birth b (marked_in ready) }
{
    let mut done = PieceTree::empty(tree.allocator());
    let mut rest = tree;
    let mut unused = ready;
    while rest.weight() > 0 {
        let mut behind = rest.split_light();
        let len = pop_fresh(&mut behind);
        let others = unused.split_pieces(len.div_ceil(CONTENT_BYTES));
        done.append(rest);
        done.append(unused);
        rest = behind;
        unused = others;
    }
    done.append(rest);
    done
}

impl Map {
    /// Each content that the fresh bytes make becomes stored, by the chunk of the same number: its bytes are those of the content.
    /// The choice stays. It costs in proportion to the fresh pieces, the chunks and the depth; no other piece is copied. After
    /// want of memory the value is as before.
    pub fn settle_in(&mut self, chunks: &ChunkList) -> Mem<()>
        requires { contents_of_value self.old ≡ map (λ chunk. chunk.bytes) chunks.now }
        ensures ok { OnOk result (self.new ≡ settle_value self.old (map (λ chunk. chunk.birth) chunks.now)) }
        ensures err { OnErr result (self.new ≡ self.old) }
    {
        let _len = self.len();
        let alloc = self.counts.allocator();
        let ready = whole_pieces(alloc, chunks)?;
        make_places(&mut self.counts, &ready)?;
        raise_pieces(&mut self.counts, &ready);
        let tree = mem::replace(&mut self.tree, PieceTree::empty(alloc));
        self.tree = settled(tree, ready);
        Ok(())
    }
}
