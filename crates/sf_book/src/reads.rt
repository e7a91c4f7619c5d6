//! What a Book tells.
ghost use Rattle.std.specs.Prelude.{◌≡◌, length, map, slice_get, is_some, IfOk};
ghost use Rattle.std.specs.Map.Iter.{deref_pair};
ghost use Rattle.std.specs.Option.{option_map};
ghost use Rattle.std.specs.List.{list_all, list_any};
ghost use Rattle.sf_types.specs.Orders.RowEnds.{row_ends_of};
ghost use Rattle.sf_types.specs.Table.Versions.{present_rows};
ghost use Rattle.sf_types.specs.Space.Use.{free_of};
ghost use Rattle.sf_book.specs.Books.{listed_place, table_of, uncommitted_blocks};

use crate::book::Book;
use sf_chunk_map::Map;
use sf_types::{Mem, Name, PlaceList, RowList};

/// Blocks that stand for no row's current value.
#[derive(Clone, Copy, Debug, PartialEq, Eq)]
pub struct Counts {
    /// The blocks of births that left reach and that nobody has taken yet.
    pub parked: u64,
    /// The blocks of births in reach that occur in no row's current value.
    pub uncommitted: u64,
}

impl Book {
    /// The number of free blocks: the capacity less the blocks of the births in reach and those that are promised. It takes one
    /// subtraction.
    pub fn free(&self) -> u64
        ensures { result ≡ free_of (table_of self.now) }
    {
        self.half.free()
    }

    /// The number of parked blocks.
    pub fn parked(&self) -> u64
        ensures { result ≡ length self.now.parked }
    {
        self.half.parked()
    }

    /// Whether a promise stands.
    pub fn has_promise(&self) -> bool
        ensures { result ≡ list_any (λ session. is_some session.promise) (table_of self.now).sessions }
    {
        self.half.has_promise()
    }

    /// Whether all sessions have ended.
    pub fn all_ended(&self) -> bool
        ensures { result ≡ list_all (λ session. session.has_ended) (table_of self.now).sessions }
    {
        self.half.all_ended()
    }

    /// The births in reach, rising, each with its content's length and digest, and the maximal runs of its blocks.
    pub fn places(&self) -> Mem<PlaceList>
        ensures { IfOk result (λ places. places ≡ map (listed_place (table_of self.now)) self.now.places) }
    {
        self.half.places()
    }

    /// The rows that are present, in byte order of names, each with the length in bytes and the digest of its value.
    pub fn rows(&self) -> Mem<RowList>
        ensures { IfOk result (λ rows. rows ≡ row_ends_of (table_of self.now)) }
    {
        self.half.rows()
    }

    /// The k-th row that is present, in byte order of names and counted from 0, with its value. None exactly where there are at
    /// most k. It takes no memory, and walks over the rows before it.
    pub fn row_at(&self, k: u64) -> Option<(&Name, &Map)>
        ensures { option_map deref_pair result ≡ slice_get (present_rows (table_of self.now)) k }
    {
        self.half.row_at(k)
    }

    /// The number of parked blocks, and the blocks of those births in reach that occur in no row's current value.
    pub fn counts(&self) -> Mem<Counts>
        ensures parked { IfOk result (λ counts. counts.parked ≡ length self.now.parked) }
        ensures uncommitted { IfOk result (λ counts. counts.uncommitted ≡ uncommitted_blocks (table_of self.now)) }
    {
        Ok(Counts {
            parked: self.half.parked(),
            uncommitted: self.half.uncommitted()?,
        })
    }
}
