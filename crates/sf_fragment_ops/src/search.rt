//! A pattern looked for in values.
ghost use Rattle.std.specs.Prelude.{◌≡◌, ℕ, ◌+◌, ◌-◌, ◌≤◌, length, min, drop, replicate, bytes_eq, IfOk};
ghost use Rattle.sf_types.specs.Values.Marks.{size_of, strip, bytes_in};
ghost use Rattle.sf_types.specs.Calls.Refusals.{first_refusal};
ghost use Rattle.sf_types.specs.Calls.Arguments.{instr_arguments};
ghost use Rattle.sf_types.specs.Calls.LocatorCalls.{match_offset};
ghost use Rattle.memchr.specs.Find.{FindsNeedle};
ghost use Rattle.sf_chunk_map.specs.Contents.{window};
ghost use Rattle.sf_chunk_map.specs.Pieces.{marked_of};
ghost use Rattle.sf_fragment_ops.specs.EditCalls.{answered};
ghost use Rattle.sf_fragment_ops.specs.Inside.Searches.{IsLook};

use crate::faults;
use crate::zeros::are_zeros;
use memchr::memmem::Finder;
use sf_chunk_map::{Map, Piece};
use sf_piece_tree::Unit;
use sf_types::{Blob, Fault, Mem};
use std::alloc::Global;

// The least bytes that are read at a time where pieces are short.
const WINDOW_BYTES: usize = 4096;

// How many bytes of a value were looked through, and where the pattern stands in them first, counted from their first one.
#[derive(Clone, Copy)]
pub struct Look {
    pub count: u64,
    pub found: Option<usize>,
}

// Where a pattern stands first in so many zeros.
fn found_in_zeros(pattern: &[u8], zeros: u64) -> Option<usize>
    requires { length pattern.now ≤ zeros }
    ensures { FindsNeedle (replicate zeros 0) pattern.now 0 result }
{
    if are_zeros(pattern) { Some(0) } else { None }
}

// Where the pattern stands first in a piece from one of its bytes on.
fn found_in_piece(finder: &Finder, piece: &Piece, from: u64) -> Option<usize>
    requires from { from ≤ length (marked_of piece.now) }
    requires room { length finder.now ≤ length (marked_of piece.now) - from }
    ensures { FindsNeedle (drop from (bytes_in (marked_of piece.now))) finder.now 0 result }
{
    match piece.as_bytes() {
        Some(bytes) => finder.find(&bytes[from as usize..]),
        None => found_in_zeros(finder.needle(), piece.size() - from),
    }
}

// Reads as many bytes of a value from one on as there are and the window takes, and looks through them.
fn look_in_window(finder: &Finder, value: &Map, at: u64, window: &mut [u8]) -> Look
    requires room { length finder.now ≤ length window.old }
    requires within { at + length finder.now ≤ size_of value.now }
    ensures look { IsLook (strip value.now) finder.now at result }
    ensures window { length window.new ≡ length window.old }
{
    let count = value.read_into(at, window);
    Look {
        count: count as u64,
        found: finder.find(&window[..count]),
    }
}

// Looks through the rest of a value's piece where it is as long as the pattern, and else through a window.
fn look_at(finder: &Finder, value: &Map, at: u64, window: &mut [u8]) -> Look
    requires room { length finder.now ≤ length window.old }
    requires within { at + length finder.now ≤ size_of value.now }
    requires some { 1 ≤ length finder.now }
    ensures look { IsLook (strip value.now) finder.now at result }
    ensures window { length window.new ≡ length window.old }
{
    let Some((piece, from)) = value.piece_at(at) else {
        unreachable!();
    };
    let rest = piece.size() - from;
    if rest < finder.needle().len() as u64 {
        return look_in_window(finder, value, at, window);
    }
    Look {
        count: rest,
        found: found_in_piece(finder, piece, from),
    }
}

// Where the pattern stands first in a value from a byte on. Where a look finds none, the next one begins before the end of the
// last, so that no match across the two is missed.
fn first_place(finder: &Finder, value: &Map, start: u64, window: &mut [u8]) -> Option<u64>
    requires some { 1 ≤ length finder.now }
    requires room { length finder.now ≤ length window.old }
    requires within { start ≤ size_of value.now }
    requires fits { length finder.now ≤ size_of value.now }
    ensures { FindsNeedle (strip value.now) finder.now start result }
{
    let size = value.len();
    let len = finder.needle().len() as u64;
    let mut at = start;
    while at + len <= size {
        let look = look_at(finder, value, at, window);
        if let Some(index) = look.found {
            return Some(at + index as u64);
        }
        at += look.count + 1 - len;
    }
    None
}

// A window of twice the pattern's bytes, and of some thousand where the pattern is short, but of no more than the value has.
fn search_window(alloc: Global, value: &Map, pattern: &Blob) -> Mem<Vec<u8>>
    requires { length pattern.now ≤ size_of value.now }
    ensures { IfOk result (λ window. length pattern.now ≤ length window.items) }
{
    let wanted = WINDOW_BYTES.max(pattern.len().saturating_mul(2));
    let len = (wanted as u64).min(value.len()) as usize;
    Ok(Vec::from_elem(alloc, 0u8, len)?)
}

// The least offset from one on at which a pattern stands, or 0.
fn found_offset(alloc: Global, value: &Map, pattern: &Blob, offset: u64) -> Mem<u64>
    requires some { 1 ≤ length pattern.now }
    requires offset { 1 ≤ offset }
    ensures { IfOk result (λ found. found ≡ match_offset (strip value.now) pattern.now offset) }
{
    if value.len() < offset || value.len() < pattern.len() as u64 {
        return Ok(0);
    }
    let finder = Finder::new(pattern.as_bytes());
    let mut window = search_window(alloc, value, pattern)?;
    match first_place(&finder, value, offset - 1, &mut window) {
        Some(place) => Ok(place + 1),
        None => Ok(0),
    }
}

/// The least offset from a given one on at which a pattern stands in a value, or 0, or how Instr is refused. It costs in
/// proportion to the bytes looked through and to their pieces, and besides a walk from the root, in proportion to the tree's
/// depth, for each piece that is as long as the pattern or longer, and for each window of shorter ones. It takes memory for one
/// window, of twice the pattern or some thousand bytes.
pub fn instr(alloc: Global, value: &Map, pattern: &Blob, offset: u64) -> Mem<Result<u64, Fault>>
    ensures { IfOk result (λ answer. answer ≡ answered (first_refusal (instr_arguments pattern.now offset)) (match_offset (strip value.now) pattern.now offset)) }
{
    if let Some(fault) = faults::instr_fault(pattern, offset) {
        return Ok(Err(fault));
    }
    Ok(Ok(found_offset(alloc, value, pattern, offset)?))
}
