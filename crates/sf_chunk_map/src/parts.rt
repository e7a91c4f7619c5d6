//! Pieces of a value: parts of stored contents, zero bytes, and fresh bytes.
ghost use Rattle.std.specs.Prelude.{◌≡◌, ℕ, ◌+◌, ◌-◌, ◌<◌, ◌≤◌, ◌↔◌, length, take, drop, IsTrue, IfOk};
ghost use Rattle.sf_types.specs.declared.limits.TheConstants.{CONTENT_BYTES, OBJECT_BYTES};
ghost use Rattle.sf_dedup.specs.Prints.{print_of};
ghost use Rattle.sf_chunk_map.specs.Contents.{window, bytes_of_part};

use sf_dedup::Print;
use sf_types::{Blob, List, Mem, TryCopy};
use std::marker::Model;

/// A stored content with its birth and its print, seen as the birth and the content's bytes.
#[derive(Drop)]
pub struct Chunk {
    birth: u128,
    content: Blob,
    print: Print,
}

impl Model for Chunk {
    ghost use Rattle.std.specs.Prelude.{◌≡◌};
    ghost use Rattle.sf_dedup.specs.Prints.{print_of};
    ghost use Rattle.sf_chunk_map.specs.Contents.{StoredContent, IsContent};

    ghost Value = { StoredContent };

    ghost view = { λ c. record { birth = c.birth; bytes = c.content } };

    ghost invariant = { λ c. IsContent (record { birth = c.birth; bytes = c.content }) × (c.print ≡ print_of c.content) };
}

impl Chunk {
    /// A content of 1 to 32,768 bytes that was stored under this birth. The print is the content's.
    pub fn new(birth: u128, content: Blob, print: Print) -> Chunk
        requires some { 1 ≤ length content }
        requires most { length content ≤ CONTENT_BYTES }
        requires print { print ≡ print_of content }
        ensures { result ≡ record { birth = birth; bytes = content } }
    {
        Chunk {
            birth,
            content,
            print,
        }
    }

    /// The birth.
    pub fn birth(&self) -> u128
        ensures { result ≡ self.now.birth }
    {
        self.birth
    }

    /// The content.
    pub fn content(&self) -> &Blob
        ensures content { result.now ≡ self.now.bytes }
        ensures some { 1 ≤ length result.now }
        ensures most { length result.now ≤ CONTENT_BYTES }
    {
        &self.content
    }

    /// The content's print.
    pub fn print(&self) -> Print
        ensures { result ≡ print_of self.now.bytes }
    {
        self.print
    }
}

impl Chunk {
    // Whether two chunks have one birth and equal contents.
    pub fn is_same(&self, other: &Chunk) -> bool
        ensures { IsTrue result ↔ (self.now ≡ other.now) }
    {
        self.birth == other.birth && self.content == other.content
    }
}

impl TryCopy for Chunk {
    fn copy(&self) -> Mem<Chunk> {
        Ok(Chunk {
            birth: self.birth,
            content: self.content.copy()?,
            print: self.print,
        })
    }
}

/// Chunks, in order.
pub type ChunkList = List<Chunk>;

/// Bytes of a chunk's content, at least one, from an index on.
#[derive(Drop)]
pub struct StoredPart {
    chunk: Chunk,
    from: u32,
    len: u32,
}

impl Model for StoredPart {
    ghost use Rattle.sf_chunk_map.specs.Contents.{ContentPart, IsPart};

    ghost Value = { ContentPart };

    ghost view = { λ p. record { content = p.chunk; from = p.from; len = p.len } };

    ghost invariant = { λ p. IsPart (record { content = p.chunk; from = p.from; len = p.len }) };
}

impl StoredPart {
    /// So many bytes of a chunk's content from an index on, which is counted from 0.
    pub fn new(chunk: Chunk, from: u32, len: u32) -> StoredPart
        requires some { 1 ≤ len }
        requires within { from + len ≤ length chunk.bytes }
        ensures { result ≡ record { content = chunk; from = from; len = len } }
    {
        StoredPart { chunk, from, len }
    }

    /// The chunk.
    pub fn chunk(&self) -> &Chunk
        ensures { result.now ≡ self.now.content }
    {
        &self.chunk
    }

    /// The index of the first byte in the content, counted from 0.
    pub fn from(&self) -> u32
        ensures { result ≡ self.now.from }
    {
        self.from
    }

    /// The number of bytes.
    pub fn len(&self) -> u32
        ensures len { result ≡ self.now.len }
        ensures some { 1 ≤ result }
        ensures within { self.now.from + result ≤ length self.now.content.bytes }
        ensures most { self.now.from + result ≤ CONTENT_BYTES }
    {
        let _content = self.chunk.content();
        self.len
    }

    /// The bytes.
    pub fn as_bytes(&self) -> &[u8]
        ensures { result.now ≡ window self.now.from self.now.len self.now.content.bytes }
    {
        let from = self.from as usize;
        &self.chunk.content.as_bytes()[from..from + self.len as usize]
    }

    // The number of bytes.
    pub fn size(&self) -> u64
        ensures size { result ≡ length (bytes_of_part self.now) }
        ensures some { 1 ≤ result }
    {
        u64::from(self.len)
    }

    // The first n bytes, some and not all.
    pub fn front(&self, n: u64) -> Mem<StoredPart>
        requires some { 0 < n }
        requires within { n < length (bytes_of_part self.now) }
        ensures { IfOk result (λ part. bytes_of_part part ≡ take n (bytes_of_part self.now)) }
    {
        Ok(StoredPart {
            chunk: self.chunk.copy()?,
            from: self.from,
            len: n as u32,
        })
    }

    // All bytes but the first n, some and not all.
    pub fn back(&self, n: u64) -> Mem<StoredPart>
        requires some { 0 < n }
        requires within { n < length (bytes_of_part self.now) }
        ensures { IfOk result (λ part. bytes_of_part part ≡ drop n (bytes_of_part self.now)) }
    {
        Ok(StoredPart {
            chunk: self.chunk.copy()?,
            from: self.from + n as u32,
            len: self.len - n as u32,
        })
    }
}

impl TryCopy for StoredPart {
    fn copy(&self) -> Mem<StoredPart> {
        Ok(StoredPart {
            chunk: self.chunk.copy()?,
            from: self.from,
            len: self.len,
        })
    }
}

/// Fresh bytes, at least one, seen as their list. A copy shares them.
#[derive(Drop)]
pub struct FreshPart {
    bytes: Blob,
    from: u32,
    len: u32,
}

impl Model for FreshPart {
    ghost use Rattle.std.specs.Prelude.{ℕ, List};
    ghost use Rattle.sf_chunk_map.specs.Contents.{window, IsWindow};

    ghost Value = { List ℕ };

    ghost view = { λ p. window p.from p.len p.bytes };

    ghost invariant = { λ p. IsWindow p.from p.len p.bytes };
}

impl FreshPart {
    /// All bytes of a blob that isn't empty.
    pub fn new(bytes: Blob) -> FreshPart
        requires some { 1 ≤ length bytes }
        requires most { length bytes ≤ OBJECT_BYTES }
        ensures { result ≡ bytes }
    {
        FreshPart {
            from: 0,
            len: bytes.len() as u32,
            bytes,
        }
    }

    /// The number of bytes.
    pub fn len(&self) -> u32
        ensures len { result ≡ length self.now }
        ensures some { 1 ≤ result }
    {
        self.len
    }

    /// The bytes.
    pub fn as_bytes(&self) -> &[u8]
        ensures { result.now ≡ self.now }
    {
        let from = self.from as usize;
        &self.bytes.as_bytes()[from..from + self.len as usize]
    }

    // The first n bytes, some and not all.
    pub fn front(&self, n: u64) -> Mem<FreshPart>
        requires some { 0 < n }
        requires within { n < length self.now }
        ensures { IfOk result (λ part. part ≡ take n self.now) }
    {
        let _len = self.len();
        Ok(FreshPart {
            bytes: self.bytes.copy()?,
            from: self.from,
            len: n as u32,
        })
    }

    // All bytes but the first n, some and not all.
    pub fn back(&self, n: u64) -> Mem<FreshPart>
        requires some { 0 < n }
        requires within { n < length self.now }
        ensures { IfOk result (λ part. part ≡ drop n self.now) }
    {
        let len = self.len();
        Ok(FreshPart {
            bytes: self.bytes.copy()?,
            from: self.from + n as u32,
            len: len - n as u32,
        })
    }
}

impl TryCopy for FreshPart {
    fn copy(&self) -> Mem<FreshPart> {
        Ok(FreshPart {
            bytes: self.bytes.copy()?,
            from: self.from,
            len: self.len,
        })
    }
}

/// Zero bytes, seen as their number, at least one.
#[derive(Clone, Copy, Debug, PartialEq, Eq)]
pub struct ZeroPart {
    len: u64,
}

impl Model for ZeroPart {
    ghost use Rattle.std.specs.Prelude.{ℕ, ◌≤◌};

    ghost Value = { ℕ };

    ghost view = { λ p. p.len };

    ghost invariant = { λ p. 1 ≤ p.len };

    ghost inverse = { λ len. record { len = len } };
}

impl ZeroPart {
    /// So many zero bytes, at least one.
    pub fn new(len: u64) -> ZeroPart
        requires { 1 ≤ len }
        ensures { result ≡ len }
    {
        ZeroPart { len }
    }

    /// The number of bytes.
    pub fn len(&self) -> u64
        ensures len { result ≡ self.now }
        ensures some { 1 ≤ result }
    {
        self.len
    }
}

impl TryCopy for ZeroPart {
    fn copy(&self) -> Mem<ZeroPart> {
        Ok(*self)
    }
}

/// A piece of a value.
#[derive(Drop)]
pub enum Piece {
    /// Bytes of a stored content.
    Stored(StoredPart),
    /// Zero bytes, which take no blocks.
    Zero(ZeroPart),
    /// Bytes that no content holds yet.
    Fresh(FreshPart),
}

/// Pieces, from front to end.
pub type PieceList = List<Piece>;

impl TryCopy for Piece {
    fn copy(&self) -> Mem<Piece> {
        match self {
            Piece::Stored(part) => Ok(Piece::Stored(part.copy()?)),
            Piece::Zero(part) => Ok(Piece::Zero(*part)),
            Piece::Fresh(part) => Ok(Piece::Fresh(part.copy()?)),
        }
    }
}
