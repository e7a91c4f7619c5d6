//! Parts of values compared piece by piece.
ghost use Rattle.std.specs.Prelude.{◌≡◌, ◌+◌, ◌≤◌, length, bytes_eq};
ghost use Rattle.sf_types.specs.Values.Marks.{size_of, strip, bytes_in};
ghost use Rattle.sf_chunk_map.specs.Contents.{window};
ghost use Rattle.sf_chunk_map.specs.Pieces.{marked_of};

use crate::zeros::are_zeros;
use sf_chunk_map::{Map, Piece};
use sf_piece_tree::Unit;

// So many bytes of a slice from an index on.
fn part(bytes: &[u8], from: u64, count: u64) -> &[u8]
    requires { from + count ≤ length bytes.now }
    ensures { result.now ≡ window from count bytes.now }
{
    let _len = bytes.len();
    &bytes[from as usize..from as usize + count as usize]
}

// Whether as many bytes of two pieces, from one of each on, are the same. Zeros that no memory holds are compared by looking
// for another byte.
fn are_same(left: &Piece, left_from: u64, right: &Piece, right_from: u64, count: u64) -> bool
    requires left { left_from + count ≤ length (marked_of left.now) }
    requires right { right_from + count ≤ length (marked_of right.now) }
    ensures { result ≡ bytes_eq (window left_from count (bytes_in (marked_of left.now))) (window right_from count (bytes_in (marked_of right.now))) }
{
    match (left.as_bytes(), right.as_bytes()) {
        (Some(left), Some(right)) => {
            part(left, left_from, count) == part(right, right_from, count)
        }
        (Some(left), None) => are_zeros(part(left, left_from, count)),
        (None, Some(right)) => are_zeros(part(right, right_from, count)),
        (None, None) => true,
    }
}

// Whether so many bytes of two values, from one of each on, are the same. It takes no memory.
pub fn are_equal(left: &Map, left_at: u64, right: &Map, right_at: u64, len: u64) -> bool
    requires left { left_at + len ≤ size_of left.now }
    requires right { right_at + len ≤ size_of right.now }
    ensures { result ≡ bytes_eq (window left_at len (strip left.now)) (window right_at len (strip right.now)) }
{
    let _left = left.len();
    let _right = right.len();
    let mut done = 0u64;
    while done < len {
        let Some((first, first_from)) = left.piece_at(left_at + done) else {
            unreachable!();
        };
        let Some((second, second_from)) = right.piece_at(right_at + done) else {
            unreachable!();
        };
        let rest = (first.size() - first_from).min(second.size() - second_from);
        let count = (len - done).min(rest);
        if !are_same(first, first_from, second, second_from, count) {
            return false;
        }
        done += count;
    }
    true
}
