use crate::chunk_map::{fresh, splice, spliced};
use sf_chunk_map::{Chunk, Map, Piece, PieceList, StoredPart};
use sf_dedup::print_of;
use sf_fragment_ops::{compare, instr};
use sf_types::{Blob, Fault, Mem, OutOfMemory};
use std::alloc::Global;
use std::test::*;

// What Instr answers.
fn found(alloc: Global, value: &Map, pattern: &[u8], offset: u64) -> Mem<Result<u64, Fault>> {
    instr(alloc, value, &Blob::new(alloc, pattern)?, offset)
}

// A value and another behind it.
fn joined(alloc: Global, first: Map, second: Map) -> Mem<Map> {
    let mut value = first;
    let at = value.len();
    drop(splice(&mut value, at, 0, second)?);
    Ok(value)
}

#[test]
fn patterns_are_found(rt: HostRuntime) -> Result<(), Fail> {
    let value = fresh(rt.alloc(), b"abcabc")?;
    let cases = [
        (b"abc".as_slice(), 2, Ok(4)),
        (b"abc".as_slice(), 5, Ok(0)),
        (b"abcabc".as_slice(), 1, Ok(1)),
        (b"abcabca".as_slice(), 1, Ok(0)),
        (b"c".as_slice(), 6, Ok(6)),
        (b"c".as_slice(), 7, Ok(0)),
        (b"c".as_slice(), 9, Ok(0)),
        (b"c".as_slice(), 0, Err(Fault::ArgOutOfRange)),
        (b"".as_slice(), 1, Err(Fault::ArgOutOfRange)),
    ];
    for (pattern, offset, answer) in cases {
        assert_eq!(rt; found(rt.alloc(), &value, pattern, offset)?, answer);
    }
    Ok(())
}

// `abab` of two appends.
fn neighbours(alloc: Global) -> Mem<Map> {
    joined(alloc, fresh(alloc, b"ab")?, fresh(alloc, b"ab")?)
}

#[test]
fn patterns_are_found_over_neighbours(rt: HostRuntime) -> Result<(), Fail> {
    let value = neighbours(rt.alloc())?;
    for (pattern, offset, answer) in [
        (b"ba".as_slice(), 1, 2),
        (b"a".as_slice(), 3, 3),
        (b"a".as_slice(), 4, 0),
        (b"a".as_slice(), 9, 0),
    ] {
        assert_eq!(rt; found(rt.alloc(), &value, pattern, offset)?, Ok(answer));
    }
    Ok(())
}

#[test]
fn patterns_are_found_over_other_pieces(rt: HostRuntime) -> Result<(), Fail> {
    let value = spliced(rt.alloc())?;
    for (pattern, offset, answer) in [
        (b"xb".as_slice(), 1, 1),
        (b"cdy".as_slice(), 2, 3),
        (b"by".as_slice(), 1, 0),
    ] {
        assert_eq!(rt; found(rt.alloc(), &value, pattern, offset)?, Ok(answer));
    }
    Ok(())
}

// A piece of one byte, which was stored under a birth of its own.
fn byte_piece(alloc: Global, birth: u128, byte: &[u8; 1]) -> Mem<Map> {
    let content = Blob::new(alloc, byte.as_slice())?;
    let print = print_of(&content);
    Map::of_part(
        alloc,
        StoredPart::new(Chunk::new(birth, content, print), 0, 1),
    )
}

// A value of 20,000 pieces of one byte, of which the last alone is `b`.
fn byte_pieces(alloc: Global) -> Mem<Map> {
    let mut value = Map::empty(alloc);
    for birth in 0..19_999u64 {
        value = joined(alloc, value, byte_piece(alloc, u128::from(birth), b"a")?)?;
    }
    joined(alloc, value, byte_piece(alloc, 19_999, b"b")?)
}

#[test]
fn patterns_are_found_over_many_pieces(rt: HostRuntime) -> Result<(), Fail> {
    let value = byte_pieces(rt.alloc())?;
    for (pattern, offset, answer) in [
        (b"ab".as_slice(), 1, 19_999),
        (b"b".as_slice(), 20_000, 20_000),
        (b"ba".as_slice(), 1, 0),
    ] {
        assert_eq!(rt; found(rt.alloc(), &value, pattern, offset)?, Ok(answer));
    }
    Ok(())
}

// So many zeros.
fn zeros(alloc: Global, len: u64) -> Mem<Map> {
    if len > 9_000 {
        return Err(OutOfMemory);
    }
    Map::zeros(alloc, len)
}

#[test]
fn patterns_are_found_in_zeros(rt: HostRuntime) -> Result<(), Fail> {
    let value = joined(
        rt.alloc(),
        zeros(rt.alloc(), 9_000)?,
        fresh(rt.alloc(), b"a")?,
    )?;
    for (pattern, offset, answer) in [
        (b"\x00\x00".as_slice(), 5, 5),
        (b"\x00a".as_slice(), 1, 9_000),
        (b"b".as_slice(), 1, 0),
    ] {
        assert_eq!(rt; found(rt.alloc(), &value, pattern, offset)?, Ok(answer));
    }
    Ok(())
}

#[test]
fn parts_of_other_pieces_are_compared(rt: HostRuntime) -> Result<(), Fail> {
    let value = spliced(rt.alloc())?;
    let same = fresh(rt.alloc(), b"xbcdz")?;
    assert_eq!(rt; compare(&value, &same, 4, 1, 1), Ok(true));
    assert_eq!(rt; compare(&value, &same, 5, 1, 1), Ok(false));
    Ok(())
}

#[test]
fn zeros_are_compared(rt: HostRuntime) -> Result<(), Fail> {
    let zeros = joined(rt.alloc(), zeros(rt.alloc(), 3)?, fresh(rt.alloc(), b"a")?)?;
    let bytes = fresh(rt.alloc(), b"\x00\x00\x00a")?;
    assert_eq!(rt; compare(&zeros, &bytes, 9, 1, 1), Ok(true));
    assert_eq!(rt; compare(&bytes, &zeros, 3, 2, 1), Ok(false));
    Ok(())
}

// The kind of a piece and its number of bytes.
fn shape(piece: &Piece) -> (u8, u64) {
    match piece {
        Piece::Stored(part) => (b's', u64::from(part.len())),
        Piece::Zero(part) => (b'z', part.len()),
        Piece::Fresh(part) => (b'f', u64::from(part.len())),
    }
}

// Sixty fresh bytes and three more, zeros, and a stored piece behind two neighbours.
fn neighbouring(alloc: Global) -> Mem<PieceList> {
    let long = fresh(alloc, [b'a'; 60].as_slice())?;
    let value = joined(alloc, long, fresh(alloc, b"bcd")?)?;
    let value = joined(alloc, value, zeros(alloc, 2)?)?;
    let value = joined(alloc, value, byte_piece(alloc, 7, b"e")?)?;
    let value = joined(alloc, value, byte_piece(alloc, 7, b"e")?)?;
    value.pieces()
}

#[test]
fn pieces_are_maximal(rt: HostRuntime) -> Result<(), Fail> {
    let pieces = neighbouring(rt.alloc())?;
    let mut shapes = Vec::new(rt.alloc());
    for piece in pieces.as_slice() {
        shapes.push(shape(piece))?;
    }
    assert_eq!(rt;
        shapes.as_slice(),
        [(b'f', 63), (b'z', 2), (b's', 1), (b's', 1)].as_slice()
    );
    Ok(())
}
