//! Where trees meet: pieces that go on in one another become one piece.
ghost use Rattle.std.specs.Prelude.{◌≡◌, ◌+◌, ◌<◌, ◌≤◌, ◌^◌, ◌++◌, ◌↔◌, length, true, IsTrue, IfOk, IfSome};
ghost use Rattle.sf_types.specs.declared.limits.TheConstants.{OBJECT_BYTES};
ghost use Rattle.sf_chunk_map.specs.Contents.{bytes_of_part};
ghost use Rattle.sf_chunk_map.specs.declared.parts.Piece.TheVariants.{Stored};
ghost use Rattle.sf_chunk_map.specs.MaximalPieces.{GoesOn};
ghost use Rattle.sf_chunk_map.specs.Pieces.{marked_of, marked_in};
ghost use Rattle.sf_chunk_map.specs.Inside.Seams.{IsSeam};

use crate::parts::{FreshPart, Piece, StoredPart, ZeroPart};
use sf_piece_tree::PieceTree;
use sf_types::{Blob, Mem, TryCopy};
use std::alloc::Global;

/// Which of two neighbours is the old one.
#[derive(Clone, Copy, Debug, PartialEq, Eq)]
pub enum Old {
    Left,
    Right,
}

// Whether a part goes on in the content of another.
pub fn goes_on(left: &StoredPart, right: &StoredPart) -> bool
    ensures { IsTrue result ↔ GoesOn (Stored left.now) (Stored right.now) }
{
    let is_next = u64::from(left.from()) + u64::from(left.len()) == u64::from(right.from());
    is_next && left.chunk().is_same(right.chunk())
}

// Two parts as one, where the second goes on in the content of the first. None also where memory is wanted.
fn joined_stored(left: &StoredPart, right: &StoredPart) -> Option<StoredPart>
    ensures { IfSome result (λ part. bytes_of_part part ≡ bytes_of_part left.now ++ bytes_of_part right.now) }
{
    if !goes_on(left, right) {
        return None;
    }
    let (first, second) = (left.len(), right.len());
    match left.chunk().copy() {
        Ok(chunk) => Some(StoredPart::new(chunk, left.from(), first + second)),
        Err(_) => None,
    }
}

// Fresh bytes of two parts, copied into one.
fn joined_bytes(alloc: Global, left: &FreshPart, right: &FreshPart) -> Mem<FreshPart>
    requires { length left.now + length right.now ≤ OBJECT_BYTES }
    ensures { IfOk result (λ part. part ≡ left.now ++ right.now) }
{
    let mut bytes = Vec::with_capacity(alloc, (left.len() + right.len()) as usize)?;
    bytes.extend_from_slice(left.as_bytes())?;
    bytes.extend_from_slice(right.as_bytes())?;
    Ok(FreshPart::new(Blob::from_vec(bytes)?))
}

// Two fresh parts as one, where the old one is less than twice as long as the new one. So the fresh neighbours that small
// appends leave are few, each at least twice as long as the next, and a byte is copied seldom. None also where memory is wanted.
fn joined_fresh(alloc: Global, left: &FreshPart, right: &FreshPart, old: Old) -> Option<FreshPart>
    requires { length left.now + length right.now ≤ OBJECT_BYTES }
    ensures { IfSome result (λ part. part ≡ left.now ++ right.now) }
{
    let (first, second) = (u64::from(left.len()), u64::from(right.len()));
    let is_joined = match old {
        Old::Left => first < 2 * second,
        Old::Right => second < 2 * first,
    };
    if is_joined {
        joined_bytes(alloc, left, right).ok()
    } else {
        None
    }
}

// Two pieces as one, where the second goes on in the first. None also where memory is wanted.
fn joined(alloc: Global, left: &Piece, right: &Piece, old: Old) -> Option<Piece>
    requires { length (marked_of left.now) + length (marked_of right.now) ≤ OBJECT_BYTES }
    ensures { IfSome result (λ piece. marked_of piece ≡ marked_of left.now ++ marked_of right.now) }
{
    match (left, right) {
        (Piece::Stored(left), Piece::Stored(right)) => {
            Some(Piece::Stored(joined_stored(left, right)?))
        }
        (Piece::Zero(left), Piece::Zero(right)) => {
            Some(Piece::Zero(ZeroPart::new(left.len() + right.len())))
        }
        (Piece::Fresh(left), Piece::Fresh(right)) => {
            Some(Piece::Fresh(joined_fresh(alloc, left, right, old)?))
        }
        _ => None,
    }
}

// The last piece of a tree and the first one of another as one, where the second goes on in the first.
fn seam(first: &PieceTree<Piece>, second: &PieceTree<Piece>, old: Old) -> Option<Piece>
    requires { length (marked_in first.now) + length (marked_in second.now) ≤ OBJECT_BYTES }
    ensures { IfSome result (IsSeam first.now second.now) }
{
    let left = first.last()?;
    let right = second.first()?;
    joined(first.allocator(), left, right, old)
}

/// Puts new pieces behind those of a tree. The first of them goes on in the last ones of the tree where it can.
pub fn append_new(tree: &mut PieceTree<Piece>, new: PieceTree<Piece>)
    requires { length (marked_in tree.old) + length (marked_in new) ≤ OBJECT_BYTES }
    ensures { marked_in tree.new ≡ marked_in tree.old ++ marked_in new }
{
    let mut new = new;
    while let Some(piece) = seam(tree, &new, Old::Left) {
        tree.pop_last();
        new.replace_first(piece);
    }
    tree.append(new);
}

/// Puts old pieces behind those of a tree, of which the last is new. The first of them go on in it where they can.
pub fn append_old(tree: &mut PieceTree<Piece>, old: PieceTree<Piece>)
    requires { length (marked_in tree.old) + length (marked_in old) ≤ OBJECT_BYTES }
    ensures { marked_in tree.new ≡ marked_in tree.old ++ marked_in old }
{
    let mut old = old;
    while let Some(piece) = seam(tree, &old, Old::Right) {
        old.pop_first();
        tree.replace_last(piece);
    }
    tree.append(old);
}
