use sf_chunk_map::{Chunk, Map, StoredPart};
use sf_dedup::print_of;
use sf_types::{Blob, Mem, OutOfMemory};
use std::alloc::Global;
use std::test::*;

// The fresh bytes of a short text.
pub fn fresh(alloc: Global, text: &[u8]) -> Mem<Map> {
    if text.len() > 100 {
        return Err(OutOfMemory);
    }
    Map::of_blob(alloc, Blob::new(alloc, text)?)
}

// The bytes `bcd` of a content `abcde` that was stored under birth 7.
fn stored(alloc: Global) -> Mem<Map> {
    let content = Blob::new(alloc, b"abcde")?;
    let print = print_of(&content);
    let chunk = Chunk::new(7, content, print);
    Map::of_part(alloc, StoredPart::new(chunk, 1, 3))
}

// A splice of short values.
pub fn splice(map: &mut Map, at: u64, remove: u64, with: Map) -> Mem<Map> {
    let is_short = map.len() < 1_000_000 && with.len() < 1_000_000;
    if is_short && remove <= map.len() && at <= map.len() - remove {
        map.splice_in(at, remove, with)
    } else {
        drop(with);
        Err(OutOfMemory)
    }
}

// The bytes of a value, in a buffer that has one more.
fn bytes_of(alloc: Global, map: &Map) -> Mem<Vec<u8>> {
    let mut bytes = Vec::from_elem(alloc, b'!', map.len() as usize + 1)?;
    map.read_into(0, &mut bytes);
    Ok(bytes)
}

// `xbcdy`: fresh, stored and fresh bytes, of which two zeros were taken out again.
pub fn spliced(alloc: Global) -> Mem<Map> {
    let mut map = fresh(alloc, b"xy")?;
    drop(splice(&mut map, 1, 0, stored(alloc)?)?);
    drop(splice(&mut map, 1, 0, Map::zeros(alloc, 2)?)?);
    drop(splice(&mut map, 1, 2, Map::empty(alloc))?);
    Ok(map)
}

// The first two bytes of a value that has as many.
fn front(map: &Map) -> Mem<Map> {
    if map.len() < 2 {
        return Err(OutOfMemory);
    }
    map.slice(0, 2)
}

#[test]
fn splices_and_reads(rt: HostRuntime) -> Result<(), Fail> {
    let map = spliced(rt.alloc())?;
    assert_eq!(rt;
        bytes_of(rt.alloc(), &map)?.as_slice(),
        b"xbcdy!".as_slice()
    );
    assert_eq!(rt; map.fresh(), 2);
    assert_eq!(rt; map.births()?.as_slice(), [7].as_slice());
    Ok(())
}

#[test]
fn slices(rt: HostRuntime) -> Result<(), Fail> {
    let map = spliced(rt.alloc())?;
    let front = front(&map)?;
    assert_eq!(rt; bytes_of(rt.alloc(), &front)?.as_slice(), b"xb!".as_slice());
    Ok(())
}

// A thousand appends of two bytes.
fn appended(alloc: Global) -> Mem<Map> {
    let mut map = Map::empty(alloc);
    for _ in 0..1000 {
        let at = map.len();
        drop(splice(&mut map, at, 0, fresh(alloc, b"ab")?)?);
    }
    Ok(map)
}

#[test]
fn small_appends_join(rt: HostRuntime) -> Result<(), Fail> {
    let map = appended(rt.alloc())?;
    assert_eq!(rt; map.len(), 2000);
    assert_eq!(rt; map.fresh(), 2000);
    Ok(())
}
