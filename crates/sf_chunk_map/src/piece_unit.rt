//! Pieces as units of a tree.
ghost use Rattle.std.specs.Prelude.{◌≡◌, length};
ghost use Rattle.sf_chunk_map.specs.Pieces.{marked_of};

use crate::parts::{FreshPart, Piece, StoredPart, ZeroPart};
use sf_piece_tree::Unit;
use sf_types::Mem;

impl Unit for Piece {
    ghost use Rattle.sf_chunk_map.specs.Pieces.{marked_of, fresh_in};
    ghost use Rattle.sf_chunk_map.specs.Inside.FreshBytes.{fresh_add};

    ghost content = { marked_of };

    ghost weight = { λ piece. fresh_in (marked_of piece) };

    ghost weights_add = { fresh_add };

    fn size(&self) -> u64 {
        match self {
            Piece::Stored(part) => part.size(),
            Piece::Zero(part) => part.len(),
            Piece::Fresh(part) => u64::from(part.len()),
        }
    }

    fn weight(&self) -> u64 {
        match self {
            Piece::Stored(_) => 0,
            Piece::Zero(_) => 0,
            Piece::Fresh(part) => u64::from(part.len()),
        }
    }

    fn front(&self, n: u64) -> Mem<Piece> {
        match self {
            Piece::Stored(part) => Ok(Piece::Stored(part.front(n)?)),
            Piece::Zero(_) => Ok(Piece::Zero(ZeroPart::new(n))),
            Piece::Fresh(part) => Ok(Piece::Fresh(part.front(n)?)),
        }
    }

    fn back(&self, n: u64) -> Mem<Piece> {
        match self {
            Piece::Stored(part) => Ok(Piece::Stored(part.back(n)?)),
            Piece::Zero(part) => Ok(Piece::Zero(ZeroPart::new(part.len() - n))),
            Piece::Fresh(part) => Ok(Piece::Fresh(part.back(n)?)),
        }
    }
}
