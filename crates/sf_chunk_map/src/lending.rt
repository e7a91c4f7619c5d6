//! Pieces lent to those who read a value.
ghost use Rattle.std.specs.Prelude.{◌≡◌, ◌≤◌, length, replicate, MatchOption};
ghost use Rattle.sf_types.specs.Values.Marks.{size_of, bytes_in};
ghost use Rattle.sf_chunk_map.specs.Maps.{HoldsAt};
ghost use Rattle.sf_chunk_map.specs.Pieces.{marked_of};

use crate::map::Map;
use crate::parts::Piece;

impl Piece {
    /// The bytes, lent. None where all are zeros that no memory holds.
    pub fn as_bytes(&self) -> Option<&[u8]>
        ensures { MatchOption result (bytes_in (marked_of self.now) ≡ replicate (length (marked_of self.now)) 0) (λ bytes. bytes.now ≡ bytes_in (marked_of self.now)) }
    {
        match self {
            Piece::Stored(part) => Some(part.as_bytes()),
            Piece::Zero(_) => None,
            Piece::Fresh(part) => Some(part.as_bytes()),
        }
    }
}

impl Map {
    /// The piece in which a byte lies, counted from 0, and the number of the piece's bytes before it. None exactly where the
    /// byte is not below `len()`. It costs in proportion to the depth, and takes no memory.
    pub fn piece_at(&self, at: u64) -> Option<(&Piece, u64)>
        ensures { MatchOption result (size_of self.now ≤ at) (λ found. HoldsAt self.now at found.0.now found.1) }
    {
        self.tree.find(at)
    }
}
