//! Numbers of bytes by births, counted over the pieces of a tree.
ghost use Rattle.std.specs.Prelude.{◌≡◌, ℕ, ◌+◌, ◌-◌, ◌<◌, ◌≤◌, ◌^◌, ◌==◌, cond, length, drop, IfOk, OnOk};
ghost use Rattle.sf_chunk_map.specs.Pieces.{marked_of, marked_in};
ghost use Rattle.sf_chunk_map.specs.Inside.Counts.{AreCounts, count_at, bytes_of_birth, HasPlace, HavePlaces, is_birth};

use crate::counts::BirthCounts;
use crate::parts::Piece;
use sf_piece_tree::{PieceTree, Unit};
use sf_types::Mem;
use std::alloc::Global;

// The birth that stores the bytes of a piece.
fn stored_birth(piece: &Piece) -> Option<u128>
    ensures { (b from : ℕ) → from ≤ length (marked_of piece.now) → bytes_of_birth b (drop from (marked_of piece.now)) ≡ cond (is_birth b result) (length (marked_of piece.now) - from) 0 }
{
    match piece {
        Piece::Stored(part) => {
            let _len = part.len();
            Some(part.chunk().birth())
        }
        Piece::Zero(_) => None,
        Piece::Fresh(_) => None,
    }
}

// Makes a place for the birth of a piece, where it has one.
fn make_place(counts: &mut BirthCounts, piece: &Piece) -> Mem<()>
    ensures counts { (b : ℕ) → count_at counts.new b ≡ count_at counts.old b }
    ensures place { OnOk result (HavePlaces counts.new (marked_of piece.now)) }
    ensures places { (b : ℕ) → HasPlace counts.old b → HasPlace counts.new b }
{
    match stored_birth(piece) {
        Some(birth) => {
            counts.make_place(birth)?;
            Ok(())
        }
        None => Ok(()),
    }
}

// Adds the bytes of a piece from an index on, counted from 0.
fn raise_piece(counts: &mut BirthCounts, piece: &Piece, from: u64)
    requires from { from < length (marked_of piece.now) }
    requires places { HavePlaces counts.old (drop from (marked_of piece.now)) }
    requires few { (b : ℕ) → count_at counts.old b + bytes_of_birth b (drop from (marked_of piece.now)) < 2 ^ 64 }
    ensures counts { (b : ℕ) → count_at counts.new b ≡ count_at counts.old b + bytes_of_birth b (drop from (marked_of piece.now)) }
    ensures places { (b : ℕ) → HasPlace counts.old b → HasPlace counts.new b }
{
    match stored_birth(piece) {
        Some(birth) => counts.raise(birth, piece.size() - from),
        None => {}
    }
}

// Takes away the bytes of a piece from an index on, counted from 0.
fn lower_piece(counts: &mut BirthCounts, piece: &Piece, from: u64)
    requires from { from < length (marked_of piece.now) }
    requires enough { (b : ℕ) → bytes_of_birth b (drop from (marked_of piece.now)) ≤ count_at counts.old b }
    ensures { (b : ℕ) → count_at counts.new b + bytes_of_birth b (drop from (marked_of piece.now)) ≡ count_at counts.old b }
{
    match stored_birth(piece) {
        Some(birth) => counts.lower(birth, piece.size() - from),
        None => {}
    }
}

// Makes places for the births of all pieces of a tree. No number changes, and no place is lost.
pub fn make_places(counts: &mut BirthCounts, tree: &PieceTree<Piece>) -> Mem<()>
    ensures counts { (b : ℕ) → count_at counts.new b ≡ count_at counts.old b }
    ensures place { OnOk result (HavePlaces counts.new (marked_in tree.now)) }
    ensures places { (b : ℕ) → HasPlace counts.old b → HasPlace counts.new b }
{
    let _size = tree.size();
    let mut at = 0;
    while let Some((piece, from)) = tree.find(at) {
        make_place(counts, piece)?;
        at += piece.size() - from;
    }
    Ok(())
}

// Adds the bytes of all pieces of a tree, whose births have places. It takes no memory.
pub fn raise_pieces(counts: &mut BirthCounts, tree: &PieceTree<Piece>)
    requires places { HavePlaces counts.old (marked_in tree.now) }
    requires few { (b : ℕ) → count_at counts.old b + bytes_of_birth b (marked_in tree.now) < 2 ^ 64 }
    ensures { (b : ℕ) → count_at counts.new b ≡ count_at counts.old b + bytes_of_birth b (marked_in tree.now) }
{
    let _size = tree.size();
    let mut at = 0;
    while let Some((piece, from)) = tree.find(at) {
        raise_piece(counts, piece, from);
        at += piece.size() - from;
    }
}

// Takes away the bytes of all pieces of a tree. It takes no memory.
pub fn lower_pieces(counts: &mut BirthCounts, tree: &PieceTree<Piece>)
    requires { (b : ℕ) → bytes_of_birth b (marked_in tree.now) ≤ count_at counts.old b }
    ensures { (b : ℕ) → count_at counts.new b + bytes_of_birth b (marked_in tree.now) ≡ count_at counts.old b }
{
    let _size = tree.size();
    let mut at = 0;
    while let Some((piece, from)) = tree.find(at) {
        lower_piece(counts, piece, from);
        at += piece.size() - from;
    }
}

// The numbers of a tree.
pub fn counts_of(alloc: Global, tree: &PieceTree<Piece>) -> Mem<BirthCounts>
    ensures { IfOk result (λ counts. AreCounts counts (marked_in tree.now)) }
{
    let _size = tree.size();
    let mut counts = BirthCounts::new(alloc);
    make_places(&mut counts, tree)?;
    raise_pieces(&mut counts, tree);
    Ok(counts)
}
