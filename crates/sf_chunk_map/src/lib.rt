//! The value of a large object as a balanced tree of pieces.
#![tactic(auto)]

mod counting;
mod counts;
mod cuts;
mod fresh_bytes;
mod lending;
mod map;
mod maximal;
mod parts;
mod piece_unit;
mod reading;
mod seams;
mod settling;
mod slices;
mod splices;
mod swaps;

pub use map::{Map, MapList};
pub use parts::{Chunk, ChunkList, FreshPart, Piece, PieceList, StoredPart, ZeroPart};
