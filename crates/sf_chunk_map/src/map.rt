//! The value of a large object.
ghost use Rattle.std.specs.Prelude.{◌≡◌, ◌+◌, ◌-◌, ◌≤◌, [], ◌∷◌, ◌++◌, length, take, drop, replicate, min, IfOk, OnOk};
ghost use Rattle.sf_types.specs.declared.limits.TheConstants.{OBJECT_BYTES};
ghost use Rattle.sf_types.specs.Values.Marks.{size_of, fresh_count, births_in, zero_byte, fresh_bytes};
ghost use Rattle.sf_chunk_map.specs.Contents.{bytes_of_part};
ghost use Rattle.sf_chunk_map.specs.Maps.{standard_value};
ghost use Rattle.sf_chunk_map.specs.Pieces.{marked_of};

use crate::counting::counts_of;
use crate::counts::BirthCounts;
use crate::parts::{FreshPart, Piece, StoredPart, ZeroPart};
use sf_piece_tree::{PieceTree, Unit};
use sf_types::{Births, Blob, Choice, List, Mem, TryCopy};
use std::alloc::Global;
use std::marker::Model;

/// The value of a large object, seen as its bytes with their marks and its choice. It has at most 67,108,864 bytes.
#[derive(Drop)]
pub struct Map {
    pub(crate) tree: PieceTree<Piece>,
    pub(crate) counts: BirthCounts,
    pub(crate) choice: Choice,
}

/// Values, in order.
pub type MapList = List<Map>;

impl Model for Map {
    ghost use Rattle.sf_types.specs.Values.Marks.{Value as RowValue};
    ghost use Rattle.sf_chunk_map.specs.Pieces.{marked_in};
    ghost use Rattle.sf_chunk_map.specs.Inside.Trees.{IsMap};

    ghost Value = { RowValue };

    ghost view = { λ m. record { bytes = marked_in m.tree; choice = m.choice } };

    ghost invariant = { λ m. IsMap m.tree m.counts };
}

impl Map {
    /// The empty value, whose choice is Standard. It takes no memory.
    pub fn empty(alloc: Global) -> Map
        ensures { result ≡ standard_value [] }
    {
        Map {
            tree: PieceTree::empty(alloc),
            counts: BirthCounts::new(alloc),
            choice: Choice::Standard,
        }
    }

    // The value of one piece.
    fn of_piece(alloc: Global, piece: Piece) -> Mem<Map>
        requires { length (marked_of piece) ≤ OBJECT_BYTES }
        ensures { IfOk result (λ map. map ≡ standard_value (marked_of piece)) }
    {
        let tree = PieceTree::one(alloc, piece)?;
        let counts = counts_of(alloc, &tree)?;
        Ok(Map {
            tree,
            counts,
            choice: Choice::Standard,
        })
    }

    /// The value of a blob's bytes, all of them fresh. Its choice is Standard.
    pub fn of_blob(alloc: Global, blob: Blob) -> Mem<Map>
        requires { length blob ≤ OBJECT_BYTES }
        ensures { IfOk result (λ map. map ≡ standard_value (fresh_bytes blob)) }
    {
        if blob.len() == 0 {
            return Ok(Map::empty(alloc));
        }
        Map::of_piece(alloc, Piece::Fresh(FreshPart::new(blob)))
    }

    /// The value of so many zero bytes. Its choice is Standard.
    pub fn zeros(alloc: Global, len: u64) -> Mem<Map>
        requires { len ≤ OBJECT_BYTES }
        ensures { IfOk result (λ map. map ≡ standard_value (replicate len zero_byte)) }
    {
        if len == 0 {
            return Ok(Map::empty(alloc));
        }
        Map::of_piece(alloc, Piece::Zero(ZeroPart::new(len)))
    }

    /// The value of a part of a stored content. Its choice is Standard.
    pub fn of_part(alloc: Global, part: StoredPart) -> Mem<Map>
        requires { part.len ≤ OBJECT_BYTES }
        ensures { IfOk result (λ map. map ≡ standard_value (bytes_of_part part)) }
    {
        let _size = part.size();
        Map::of_piece(alloc, Piece::Stored(part))
    }

    /// The number of bytes.
    pub fn len(&self) -> u64
        ensures len { result ≡ size_of self.now }
        ensures most { result ≤ OBJECT_BYTES }
    {
        self.tree.size()
    }

    /// The number of fresh bytes.
    pub fn fresh(&self) -> u64
        ensures { result ≡ fresh_count self.now }
    {
        self.tree.weight()
    }

    /// The choice.
    pub fn choice(&self) -> Choice
        ensures { result ≡ self.now.choice }
    {
        self.choice
    }

    /// The value with another choice.
    pub fn with_choice(self, choice: Choice) -> Map
        ensures { result ≡ record self { choice = choice } }
    {
        let Map {
            tree,
            counts,
            choice: _,
        } = self;
        Map {
            tree,
            counts,
            choice,
        }
    }

    /// The births that occur in the value, rising.
    pub fn births(&self) -> Mem<Births>
        ensures { IfOk result (λ births. births ≡ births_in self.now) }
    {
        self.counts.births()
    }
}

impl TryCopy for Map {
    fn copy(&self) -> Mem<Map> {
        Ok(Map {
            tree: self.tree.copy()?,
            counts: self.counts.copy()?,
            choice: self.choice,
        })
    }
}
