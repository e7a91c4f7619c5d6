ghost use Rattle.std.specs.Prelude.{◌≡◌, map, IfOk};

use sf_chunk_map::{Chunk, ChunkList, Map, MapList, StoredPart};
use sf_dedup::print_of;
use sf_types::{Blob, BlobList, CONTENT_BYTES, List, Mem, OutOfMemory, TryCopy};
use sf_write_gather::{due, fresh_contents, settle, value_contents};
use std::alloc::Global;
use std::test::*;

// A part of a value of these tests: so many equal fresh bytes, so many zero bytes, or `bcd` of a content that was stored under
// birth 7.
#[derive(Clone, Copy)]
enum Part {
    Fresh(u8, usize),
    Zeros(u64),
    Stored,
}

// The value of one part.
fn of_part(alloc: Global, part: Part) -> Mem<Map> {
    match part {
        Part::Fresh(byte, len) => {
            if len > 40_000 {
                return Err(OutOfMemory);
            }
            Map::of_blob(alloc, Blob::from_vec(Vec::from_elem(alloc, byte, len)?)?)
        }
        Part::Zeros(len) => {
            if len > 40_000 {
                return Err(OutOfMemory);
            }
            Map::zeros(alloc, len)
        }
        Part::Stored => {
            let content = Blob::new(alloc, b"abcde")?;
            let print = print_of(&content);
            Map::of_part(alloc, StoredPart::new(Chunk::new(7, content, print), 1, 3))
        }
    }
}

// Puts a short value behind another.
fn append(value: &mut Map, with: Map) -> Mem<()> {
    if value.len() > 100_000 || with.len() > 100_000 {
        drop(with);
        return Err(OutOfMemory);
    }
    let at = value.len();
    drop(value.splice_in(at, 0, with)?);
    Ok(())
}

// The value of parts, one behind the other.
fn of_parts(alloc: Global, parts: &[Part]) -> Mem<Map> {
    let mut value = Map::empty(alloc);
    for part in parts {
        append(&mut value, of_part(alloc, *part)?)?;
    }
    Ok(value)
}

// The contents that a value makes, each by its first byte and its length.
fn contents(alloc: Global, parts: &[Part]) -> Mem<Vec<(u8, usize)>> {
    let mut shapes = Vec::new(alloc);
    for content in value_contents(alloc, &of_parts(alloc, parts)?)?.as_slice() {
        match content.as_bytes().first() {
            Some(byte) => shapes.push((*byte, content.len()))?,
            None => shapes.push((0, 0))?,
        }
    }
    Ok(shapes)
}

#[test]
fn stretches_are_cut_from_their_front(rt: HostRuntime) -> Result<(), Fail> {
    let cases: [(&[Part], &[(u8, usize)]); 3] = [
        (&[Part::Fresh(97, 2)], &[(97, 2)]),
        (&[Part::Fresh(97, 32_768)], &[(97, 32_768)]),
        (&[Part::Fresh(97, 32_769)], &[(97, 32_768), (97, 1)]),
    ];
    for (parts, shapes) in cases {
        assert_eq!(rt; contents(rt.alloc(), parts)?.as_slice(), shapes);
    }
    Ok(())
}

#[test]
fn stretches_lie_in_many_pieces(rt: HostRuntime) -> Result<(), Fail> {
    let (long, short, last) = (
        Part::Fresh(97, 20_000),
        Part::Fresh(98, 3),
        Part::Fresh(99, 1),
    );
    let cases: [(&[Part], &[(u8, usize)]); 2] = [
        (&[long, short, last], &[(97, 20_004)]),
        (&[long, short, long], &[(97, 32_768), (97, 7_235)]),
    ];
    for (parts, shapes) in cases {
        assert_eq!(rt; contents(rt.alloc(), parts)?.as_slice(), shapes);
    }
    Ok(())
}

#[test]
fn stretches_end_at_other_bytes(rt: HostRuntime) -> Result<(), Fail> {
    let (a, b) = (Part::Fresh(97, 2), Part::Fresh(98, 3));
    let (zeros, stored) = (Part::Zeros(2), Part::Stored);
    let cases: [(&[Part], &[(u8, usize)]); 4] = [
        (&[zeros, stored], &[]),
        (&[a, zeros, b], &[(97, 2), (98, 3)]),
        (&[a, stored, b], &[(97, 2), (98, 3)]),
        (&[zeros, a, b, stored], &[(97, 5)]),
    ];
    for (parts, shapes) in cases {
        assert_eq!(rt; contents(rt.alloc(), parts)?.as_slice(), shapes);
    }
    Ok(())
}

// The values `aa` and `bbb` with zeros and `c`.
fn two_values(alloc: Global) -> Mem<MapList> {
    let mut values = List::new(alloc);
    values.push(of_parts(alloc, &[Part::Fresh(97, 2)])?)?;
    values.push(of_parts(
        alloc,
        &[Part::Fresh(98, 3), Part::Zeros(1), Part::Fresh(99, 1)],
    )?)?;
    Ok(values)
}

#[test]
fn values_make_contents_in_order(rt: HostRuntime) -> Result<(), Fail> {
    let contents = fresh_contents(rt.alloc(), &two_values(rt.alloc())?)?;
    let mut all = Vec::new(rt.alloc());
    for content in contents.as_slice() {
        all.extend_from_slice(content.as_bytes())?;
        all.push(b'.')?;
    }
    assert_eq!(rt; all.as_slice(), b"aa.bbb.c.".as_slice());
    Ok(())
}

// A content as a chunk of its own.
fn chunk(birth: u128, content: Blob) -> Mem<Chunk>
    ensures { IfOk result (λ chunk. chunk.bytes ≡ content) }
{
    if content.len() == 0 || content.len() as u64 > CONTENT_BYTES {
        drop(content);
        return Err(OutOfMemory);
    }
    let print = print_of(&content);
    Ok(Chunk::new(birth, content, print))
}

// Contents as chunks, with births from one on.
fn chunks(alloc: Global, contents: &BlobList, first: u64) -> Mem<ChunkList>
    ensures { IfOk result (λ chunks. map (λ chunk. chunk.bytes) chunks ≡ contents.now) }
{
    let mut chunks = List::new(alloc);
    for content in contents.as_slice() {
        let birth = u128::from(first) + chunks.len() as u128;
        chunks.push(chunk(birth, content.copy()?)?)?;
    }
    Ok(chunks)
}

// `aa`, two zeros, `bbb` and the stored `bcd`, settled by births from 5 on.
fn settled(alloc: Global) -> Mem<Map> {
    let parts = [
        Part::Fresh(97, 2),
        Part::Zeros(2),
        Part::Fresh(98, 3),
        Part::Stored,
    ];
    let value = of_parts(alloc, &parts)?;
    let chunks = chunks(alloc, &value_contents(alloc, &value)?, 5)?;
    settle(&value, &chunks)
}

// The births of a part of a value.
fn births(alloc: Global, value: &Map, at: u64, len: u64) -> Mem<Vec<u128>> {
    if value.len() < 10 || at > 9 || len > 10 - at {
        return Err(OutOfMemory);
    }
    let slice = value.slice(at, len)?;
    let births = slice.births()?;
    Ok(Vec::from_slice(alloc, births.as_slice())?)
}

#[test]
fn settled_bytes_are_stored(rt: HostRuntime) -> Result<(), Fail> {
    let value = settled(rt.alloc())?;
    let mut bytes = Vec::from_elem(rt.alloc(), b'!', 11)?;
    value.read_into(0, &mut bytes);
    assert_eq!(rt; bytes.as_slice(), b"aa\0\0bbbbcd!".as_slice());
    assert_eq!(rt; value.fresh(), 0);
    Ok(())
}

#[test]
fn settled_parts_have_births(rt: HostRuntime) -> Result<(), Fail> {
    let value = settled(rt.alloc())?;
    let cases: [(u64, u64, &[u128]); 5] = [
        (0, 2, &[5]),
        (2, 2, &[]),
        (4, 3, &[6]),
        (6, 2, &[6, 7]),
        (0, 10, &[5, 6, 7]),
    ];
    for (at, len, expected) in cases {
        assert_eq!(rt; births(rt.alloc(), &value, at, len)?.as_slice(), expected);
    }
    Ok(())
}

#[test]
fn values_are_due(rt: HostRuntime) -> Result<(), Fail> {
    let value = of_parts(
        rt.alloc(),
        &[Part::Fresh(97, 300), Part::Zeros(9), Part::Fresh(98, 212)],
    )?;
    assert_eq!(rt;
        [due(&value, 511), due(&value, 512), due(&value, 513)],
        [true, true, false]
    );
    Ok(())
}
