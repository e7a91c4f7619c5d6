//! Bytes of pieces read into a slice, in one walk down the tree.
ghost use Rattle.std.specs.Prelude.{◌≡◌, ◌+◌, ◌-◌, ◌≤◌, ◌++◌, length, take, drop, replicate, min};
ghost use Rattle.sf_types.specs.Values.Marks.{bytes_in};
ghost use Rattle.sf_chunk_map.specs.Contents.{window};
ghost use Rattle.sf_chunk_map.specs.Pieces.{marked_of, marked_in};

use crate::parts::Piece;
use sf_piece_tree::{PieceTree, Unit, Visitor};

// Copies bytes into a slice from an index on, as many as there are and the slice takes. Answers their number.
fn copy_at(bytes: &[u8], into: &mut [u8], at: usize) -> usize
    requires { at ≤ length into.old }
    ensures count { result ≡ min (length into.old - at) (length bytes.now) }
    ensures bytes { into.new ≡ take at into.old ++ (take result bytes.now ++ drop (at + result) into.old) }
{
    let count = (into.len() - at).min(bytes.len());
    into[at..at + count].copy_from_slice(&bytes[..count]);
    count
}

// Fills a slice with zeros from an index on, as many as there are and the slice takes. Answers their number.
fn zero_at(zeros: u64, into: &mut [u8], at: usize) -> usize
    requires { at ≤ length into.old }
    ensures count { result ≡ min (length into.old - at) zeros }
    ensures bytes { into.new ≡ take at into.old ++ (replicate result 0 ++ drop (at + result) into.old) }
{
    let count = ((into.len() - at) as u64).min(zeros) as usize;
    into[at..at + count].fill(0);
    count
}

// Copies bytes of a piece, those from an index of it on, into a slice from another index on, as many as there are and the
// slice takes. Answers their number.
fn read_piece(piece: &Piece, from: u64, into: &mut [u8], at: usize) -> usize
    requires from { from ≤ length (marked_of piece.now) }
    requires at { at ≤ length into.old }
    ensures count { result ≡ min (length into.old - at) (length (marked_of piece.now) - from) }
    ensures bytes { into.new ≡ take at into.old ++ (window from result (bytes_in (marked_of piece.now)) ++ drop (at + result) into.old) }
{
    match piece {
        Piece::Stored(part) => {
            let _size = part.size();
            let _len = part.len();
            copy_at(&part.as_bytes()[from as usize..], into, at)
        }
        Piece::Zero(part) => zero_at(part.len() - from, into, at),
        Piece::Fresh(part) => copy_at(&part.as_bytes()[from as usize..], into, at),
    }
}

// Bytes that are read into a slice, piece after piece: the first ones of the slice are done.
#[derive(Drop)]
pub struct Reading<'a> {
    pub into: &'a mut [u8],
    pub done: usize,
}

impl<'a> Reading<'a> {
    // Nothing is done yet.
    pub fn new(into: &'a mut [u8]) -> Reading<'a>
        ensures same_reference { result.into.ghost_name ≡ into.entry.ghost_name }
        ensures into { result.into.now ≡ into.old }
        ensures done { result.done ≡ 0 }
    {
        Reading { into, done: 0 }
    }
}

impl<'a> Visitor<Piece> for Reading<'a> {
    ghost use Rattle.sf_chunk_map.specs.Inside.Readings.{Reads};

    ghost visits = { Reads };

    fn visit(&mut self, piece: &Piece, from: u64) -> bool {
        if self.done < self.into.len() {
            self.done += read_piece(piece, from, self.into, self.done);
        }
        self.done < self.into.len()
    }
}

// Reads the bytes of a tree from one on, as many as there are and the slice takes.
pub fn read_tree(tree: &PieceTree<Piece>, at: u64, reading: &mut Reading<'_>)
    requires { reading.old.done ≡ 0 }
    ensures same_reference { reading.new.into.ghost_name ≡ reading.old.into.ghost_name }
    ensures count { reading.new.done ≡ min (length reading.old.into.now) (length (marked_in tree.now) - at) }
    ensures bytes { reading.new.into.now ≡ window at reading.new.done (bytes_in (marked_in tree.now)) ++ drop reading.new.done reading.old.into.now }
{
    tree.visit_from(at, reading);
}
