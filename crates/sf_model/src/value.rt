//! The values of rows.
ghost use Rattle.std.specs.Prelude.{◌≡◌, ◌+◌, ◌-◌, ◌≤◌, ◌++◌, length, take, drop, IfOk, OnOk};
ghost use Rattle.std.specs.List.{concat};
ghost use Rattle.sha2.specs.Sha256.{sha256};
ghost use Rattle.sf_types.specs.Values.Marks.{empty_value, fresh_bytes, strip, size_of};
ghost use Rattle.sf_types.specs.Calls.LocatorCalls.{read_bytes};
ghost use Rattle.sf_types.specs.declared.limits.TheConstants.{OBJECT_BYTES};

use sf_types::{Blob, Choice, Exact, List, Mem, Sum, TryCopy};
use sha2::{Digest, Sha256};
use std::alloc::{AllocError, Global};
use std::marker::Model;

/// A value, seen as its marked bytes and its choice. Its bytes are all fresh today. It keeps them in pieces, of which
/// each is at least twice as long as the next, so that a value is longer by a few bytes at the cost of those bytes,
/// and shares its other pieces with the value that it came from.
#[derive(Drop)]
pub struct Value {
    pieces: List<Blob>,
    len: u64,
    choice: Choice,
}

impl Model for Value {
    ghost use Rattle.std.specs.Prelude.{◌≡◌, ◌≤◌, length};
    ghost use Rattle.std.specs.List.{concat};
    ghost use Rattle.sf_types.specs.declared.limits.TheConstants.{OBJECT_BYTES};
    ghost use Rattle.sf_types.specs.Values.Marks.{Value as RowValue, fresh_bytes};

    ghost Value = { RowValue };

    ghost view = { λ v. record { bytes = fresh_bytes (concat v.pieces); choice = v.choice } };

    ghost invariant = { λ v. (v.len ≡ length (concat v.pieces)) × (v.len ≤ OBJECT_BYTES) };
}

// How many of the pieces stay as they are when so many bytes come behind them: those up to the last that is at least
// twice as long as all that comes behind it.
fn kept_pieces(pieces: &[Blob], added: usize) -> usize
    ensures { result ≤ length pieces.now }
{
    let mut kept = pieces.len();
    let mut behind = added;
    while kept > 0 && pieces[kept - 1].len() / 2 < behind {
        behind = behind.saturating_add(pieces[kept - 1].len());
        kept -= 1;
    }
    kept
}

// Some pieces and a buffer behind them, as one piece.
fn joined(alloc: Global, pieces: &[Blob], buffer: &[u8]) -> Mem<Blob>
    ensures { IfOk result (λ blob. blob ≡ concat pieces.now ++ buffer.now) }
{
    let mut bytes = Vec::new(alloc);
    for piece in pieces {
        bytes.extend_from_slice(piece.as_bytes())?;
    }
    bytes.extend_from_slice(buffer)?;
    Blob::from_vec(bytes)
}

// The pieces of a value that is longer by a buffer.
fn longer(pieces: &List<Blob>, buffer: &[u8]) -> Mem<List<Blob>>
    ensures { IfOk result (λ all.
        concat all ≡ concat pieces.now ++ buffer.now) }
{
    let kept = kept_pieces(pieces.as_slice(), buffer.len());
    let last = joined(pieces.allocator(), &pieces.as_slice()[kept..], buffer)?;
    let mut all = pieces.copy()?.into_vec();
    all.truncate(kept);
    all.push(last)?;
    Ok(List::from_vec(all))
}

// So many bytes of some pieces after those that are skipped, or up to the end.
fn read_pieces(alloc: Global, pieces: &[Blob], skipped: usize, amount: usize) -> Mem<Vec<u8>>
    ensures { IfOk result (λ bytes.
        bytes.items ≡ take amount (drop skipped (concat pieces.now))) }
{
    let mut bytes = Vec::new(alloc);
    let mut skip = skipped;
    let mut left = amount;
    for piece in pieces {
        let part = piece.as_bytes();
        let from = skip.min(part.len());
        let rest = &part[from..];
        let moved = left.min(rest.len());
        bytes.extend_from_slice(&rest[..moved])?;
        skip -= from;
        left -= moved;
    }
    Ok(bytes)
}

// The SHA-256 of some pieces, one behind the other.
fn sum_of_pieces(pieces: &[Blob]) -> Sum
    ensures { result ≡ sha256 (concat pieces.now) }
{
    let mut hasher = Sha256::new();
    for piece in pieces {
        hasher.update(piece.as_bytes());
    }
    Sum::new(hasher.finalize())
}

impl Value {
    /// The value that Insert makes: no bytes, and the standard choice. It takes no memory.
    pub fn empty(alloc: Global) -> Value
        ensures { result ≡ empty_value }
    {
        Value {
            pieces: List::new(alloc),
            len: 0,
            choice: Choice::Standard,
        }
    }

    /// The number of bytes, at most 67,108,864.
    pub fn len(&self) -> u64
        ensures exact { result ≡ size_of self.now }
        ensures most { result ≤ OBJECT_BYTES }
    {
        self.len
    }

    /// A value with a buffer at its end, whose bytes are fresh.
    pub fn appended(&self, buffer: &[u8]) -> Mem<Value>
        requires { size_of self.now + length buffer.now ≤ OBJECT_BYTES }
        ensures { IfOk result (λ value. value ≡ record self.now { bytes = self.now.bytes ++ fresh_bytes buffer.now }) }
    {
        Ok(Value {
            pieces: longer(&self.pieces, buffer)?,
            len: self.len + buffer.len() as u64,
            choice: self.choice,
        })
    }

    /// The bytes from an offset, counted from 1, so many of them or up to the end.
    pub fn read(&self, amount: usize, offset: usize) -> Mem<Blob>
        ensures { IfOk result (λ bytes. bytes ≡ read_bytes self.now amount offset) }
    {
        let skipped = offset.saturating_sub(1);
        let bytes = read_pieces(
            self.pieces.allocator(),
            self.pieces.as_slice(),
            skipped,
            amount,
        )?;
        let blob = Blob::from_vec(bytes)?;
        Ok(blob)
    }

    /// The SHA-256 of the bytes.
    pub fn sum(&self) -> Sum
        ensures { result ≡ sha256 (strip self.now) }
    {
        sum_of_pieces(self.pieces.as_slice())
    }
}

impl Clone for Value {
    ghost is_clone = { λ value copied. copied ≡ value };

    fn clone(&self) -> Result<Value, AllocError> {
        let Ok(pieces) = self.pieces.copy() else {
            return Err(AllocError);
        };
        Ok(Value {
            pieces,
            len: self.len,
            choice: self.choice,
        })
    }
}

impl Exact for Value {
    ghost exact = { λ value copied is. is };
}

impl TryCopy for Value {
    fn copy(&self) -> Mem<Value> {
        Ok(self.clone()?)
    }
}
