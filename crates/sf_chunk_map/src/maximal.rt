//! The maximal pieces of a value, of which no two neighbours go on in one another.
ghost use Rattle.std.specs.Prelude.{◌≡◌, ◌+◌, ◌≤◌, ◌++◌, ◌↔◌, length, take, IsTrue, IfOk, MatchOption};
ghost use Rattle.sf_types.specs.declared.limits.TheConstants.{OBJECT_BYTES};
ghost use Rattle.sf_chunk_map.specs.MaximalPieces.{GoesOn, AreMaximal};
ghost use Rattle.sf_chunk_map.specs.Pieces.{marked_of, marked_in};
ghost use Rattle.sf_chunk_map.specs.declared.parts.Piece.{Piece};
ghost use Rattle.sf_chunk_map.specs.declared.parts.Piece.TheVariants.{Stored, Zero, Fresh};
ghost use Rattle.sf_chunk_map.specs.Contents.{bytes_of_part};
ghost use Rattle.sf_types.specs.Values.Marks.{fresh_bytes};
ghost use Rattle.sf_chunk_map.specs.Inside.LastPieces.{piece_so_far};

use crate::map::Map;
use crate::parts::{FreshPart, Piece, PieceList, StoredPart, ZeroPart};
use crate::seams::goes_on;
use crate::slices::part_of;
use sf_piece_tree::{PieceTree, Unit};
use sf_types::{Blob, Mem, TryCopy};
use std::alloc::Global;
use std::marker::Model;

/// The last of the pieces that are joined, which may go on (`piece_so_far`). Fresh bytes gather in a vector, so that
/// many short pieces of them cost in proportion to their bytes.
#[derive(Drop)]
pub enum LastPiece {
    Stored(StoredPart),
    Zero(ZeroPart),
    Fresh(Vec<u8>),
}

// A part of a content and the one that goes on in it.
fn join_stored(part: StoredPart, next: &Piece) -> Mem<LastPiece>
    requires next { GoesOn (Stored part) next.now }
    ensures bytes { IfOk result (λ both. marked_of (piece_so_far both) ≡ bytes_of_part part ++ marked_of next.now) }
    ensures begins { IfOk result (λ both. (before : Piece) → GoesOn before (piece_so_far both) → GoesOn before (Stored part)) }
{
    let Piece::Stored(next) = next else {
        unreachable!();
    };
    let len = part.len() + next.len();
    let chunk = part.chunk().copy()?;
    Ok(LastPiece::Stored(StoredPart::new(chunk, part.from(), len)))
}

// Zeros and those that go on in them.
fn join_zeros(part: ZeroPart, next: &Piece) -> Mem<LastPiece>
    requires next { GoesOn (Zero part) next.now }
    requires few { part + length (marked_of next.now) ≤ OBJECT_BYTES }
    ensures bytes { IfOk result (λ both. marked_of (piece_so_far both) ≡ marked_of (Zero part) ++ marked_of next.now) }
    ensures begins { IfOk result (λ both. (before : Piece) → GoesOn before (piece_so_far both) → GoesOn before (Zero part)) }
{
    let Piece::Zero(next) = next else {
        unreachable!();
    };
    Ok(LastPiece::Zero(ZeroPart::new(part.len() + next.len())))
}

// Fresh bytes and those that go on in them.
fn join_fresh(bytes: Vec<u8>, next: &Piece) -> Mem<LastPiece>
    requires next { GoesOn (Fresh bytes.items) next.now }
    ensures bytes { IfOk result (λ both. marked_of (piece_so_far both) ≡ fresh_bytes bytes.items ++ marked_of next.now) }
    ensures begins { IfOk result (λ both. (before : Piece) → GoesOn before (piece_so_far both) → GoesOn before (Fresh bytes.items)) }
{
    let Piece::Fresh(next) = next else {
        unreachable!();
    };
    let mut bytes = bytes;
    bytes.extend_from_slice(next.as_bytes())?;
    Ok(LastPiece::Fresh(bytes))
}

impl LastPiece {
    // A piece that may go on.
    fn new(alloc: Global, piece: Piece) -> Mem<LastPiece>
        ensures { IfOk result (λ last. piece_so_far last ≡ piece) }
    {
        match piece {
            Piece::Stored(part) => Ok(LastPiece::Stored(part)),
            Piece::Zero(part) => Ok(LastPiece::Zero(part)),
            Piece::Fresh(part) => {
                let mut bytes = Vec::with_capacity(alloc, part.len() as usize)?;
                bytes.extend_from_slice(part.as_bytes())?;
                Ok(LastPiece::Fresh(bytes))
            }
        }
    }

    // Whether a piece goes on in this one.
    fn has_next(&self, next: &Piece) -> bool
        ensures { IsTrue result ↔ GoesOn (piece_so_far self.now) next.now }
    {
        match (self, next) {
            (LastPiece::Stored(part), Piece::Stored(next)) => goes_on(part, next),
            (LastPiece::Zero(_), Piece::Zero(_)) => true,
            (LastPiece::Fresh(_), Piece::Fresh(_)) => true,
            _ => false,
        }
    }

    // This piece and the one that goes on in it. What goes on in both goes on in this one.
    fn join(self, next: &Piece) -> Mem<LastPiece>
        requires next { GoesOn (piece_so_far self) next.now }
        requires few { length (marked_of (piece_so_far self)) + length (marked_of next.now) ≤ OBJECT_BYTES }
        ensures bytes { IfOk result (λ both. marked_of (piece_so_far both) ≡ marked_of (piece_so_far self) ++ marked_of next.now) }
        ensures begins { IfOk result (λ both. (before : Piece) → GoesOn before (piece_so_far both) → GoesOn before (piece_so_far self)) }
    {
        match self {
            LastPiece::Stored(part) => join_stored(part, next),
            LastPiece::Zero(part) => join_zeros(part, next),
            LastPiece::Fresh(bytes) => join_fresh(bytes, next),
        }
    }

    // The piece, which is done.
    fn into_piece(self) -> Mem<Piece>
        requires some { 1 ≤ length (marked_of (piece_so_far self)) }
        requires most { length (marked_of (piece_so_far self)) ≤ OBJECT_BYTES }
        ensures { IfOk result (λ piece. piece ≡ piece_so_far self) }
    {
        match self {
            LastPiece::Stored(part) => Ok(Piece::Stored(part)),
            LastPiece::Zero(part) => Ok(Piece::Zero(part)),
            LastPiece::Fresh(bytes) => Ok(Piece::Fresh(FreshPart::new(Blob::from_vec(bytes)?))),
        }
    }
}

/// Pieces that are joined from front to end, seen as their list so far, of which no two neighbours go on in one another.
#[derive(Drop)]
pub struct JoinedPieces {
    pieces: PieceList,
    last: LastPiece,
}

impl Model for JoinedPieces {
    ghost use Rattle.std.specs.Prelude.{List, [], ◌∷◌, ◌++◌};
    ghost use Rattle.sf_chunk_map.specs.declared.parts.Piece.{Piece};
    ghost use Rattle.sf_chunk_map.specs.Inside.LastPieces.{piece_so_far, AreJoined};

    ghost Value = { List Piece };

    ghost view = { λ joined. joined.pieces ++ piece_so_far joined.last ∷ [] };

    ghost invariant = { λ joined. AreJoined joined.pieces (piece_so_far joined.last) };
}

impl JoinedPieces {
    // One piece.
    fn new(alloc: Global, piece: Piece) -> Mem<JoinedPieces>
        ensures { IfOk result (λ joined. marked_in joined ≡ marked_of piece) }
    {
        let _size = piece.size();
        Ok(JoinedPieces {
            pieces: PieceList::new(alloc),
            last: LastPiece::new(alloc, piece)?,
        })
    }

    // The pieces and one more, which is joined with the last one where it goes on in it.
    fn with(self, piece: Piece) -> Mem<JoinedPieces>
        requires { length (marked_in self) + length (marked_of piece) ≤ OBJECT_BYTES }
        ensures { IfOk result (λ joined. marked_in joined ≡ marked_in self ++ marked_of piece) }
    {
        let _size = piece.size();
        let JoinedPieces { mut pieces, last } = self;
        if last.has_next(&piece) {
            let last = last.join(&piece)?;
            return Ok(JoinedPieces { pieces, last });
        }
        pieces.push(last.into_piece()?)?;
        let last = LastPiece::new(pieces.allocator(), piece)?;
        Ok(JoinedPieces { pieces, last })
    }

    // The list, which is done.
    fn into_list(self) -> Mem<PieceList>
        requires { length (marked_in self) ≤ OBJECT_BYTES }
        ensures pieces { IfOk result (λ pieces. pieces ≡ self) }
        ensures maximal { AreMaximal self }
    {
        let JoinedPieces { mut pieces, last } = self;
        pieces.push(last.into_piece()?)?;
        Ok(pieces)
    }
}

// The rest of the piece in which a byte lies, from that byte on. None exactly where the byte isn't below the size.
fn rest_at(tree: &PieceTree<Piece>, at: u64) -> Mem<Option<Piece>>
    ensures { IfOk result (λ found. MatchOption found (length (marked_in tree.now) ≤ at) (λ piece. take (at + length (marked_of piece)) (marked_in tree.now) ≡ take at (marked_in tree.now) ++ marked_of piece)) }
{
    let Some((piece, from)) = tree.find(at) else {
        return Ok(None);
    };
    Ok(Some(part_of(piece, from, piece.size() - from)?))
}

impl Map {
    // The pieces behind a first one, joined with it and with each other.
    fn pieces_from(&self, first: Piece) -> Mem<PieceList>
        requires { marked_of first ≡ take (length (marked_of first)) self.now.bytes }
        ensures bytes { IfOk result (λ pieces. marked_in pieces ≡ self.now.bytes) }
        ensures maximal { IfOk result AreMaximal }
    {
        let _len = self.len();
        let mut at = first.size();
        let mut joined = JoinedPieces::new(self.counts.allocator(), first)?;
        while let Some(piece) = rest_at(&self.tree, at)? {
            at += piece.size();
            joined = joined.with(piece)?;
        }
        joined.into_list()
    }

    /// The maximal pieces, from front to end: together they hold the bytes with their marks, and no two neighbours go on in one
    /// another. It costs in proportion to the pieces, the depth and the fresh bytes.
    pub fn pieces(&self) -> Mem<PieceList>
        ensures bytes { IfOk result (λ pieces. marked_in pieces ≡ self.now.bytes) }
        ensures maximal { IfOk result AreMaximal }
    {
        match rest_at(&self.tree, 0)? {
            Some(first) => self.pieces_from(first),
            None => Ok(PieceList::new(self.counts.allocator())),
        }
    }
}
