//! Where the fresh bytes of a value lie.
ghost use Rattle.std.specs.Prelude.{MatchOption};
ghost use Rattle.sf_chunk_map.specs.Stretches.{AreFreshAt, IsNextFresh, IsNotFreshAt, NoneFreshFrom};

use crate::map::Map;
use crate::parts::Piece;

impl Map {
    /// The first fresh byte from a byte on, counted from 0. None exactly where there is none. It costs in proportion to the depth.
    pub fn next_fresh(&self, at: u64) -> Option<u64>
        ensures { MatchOption result (NoneFreshFrom self.now.bytes at) (IsNextFresh self.now.bytes at) }
    {
        self.tree.next_weighty(at)
    }

    /// Fresh bytes from a byte on, counted from 0: at least one, and no more than lie in one piece. None exactly where that byte
    /// isn't fresh, or there is none. It costs in proportion to the depth.
    pub fn fresh_at(&self, at: u64) -> Option<&[u8]>
        ensures { MatchOption result (IsNotFreshAt self.now.bytes at) (λ bytes. AreFreshAt self.now.bytes at bytes.now) }
    {
        let (piece, from) = self.tree.find(at)?;
        match piece {
            Piece::Stored(_) => None,
            Piece::Zero(_) => None,
            Piece::Fresh(part) => Some(&part.as_bytes()[from as usize..]),
        }
    }
}
