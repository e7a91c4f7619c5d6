ghost use Rattle.std.specs.Prelude.{◌≡◌, false, IsTrue};
ghost use Rattle.sf_fragment_ops.specs.EditCalls.{is_edit, is_sourced};

use sf_chunk_map::Map;
use sf_fragment_ops::{Answer, compare, edit, edit_in, read};
use sf_types::{Blob, Call, Fault, LocName, Mem, OutOfMemory};
use std::alloc::Global;
use std::test::*;

// The fresh bytes of a short text.
fn fresh(alloc: Global, text: &[u8]) -> Mem<Map> {
    if text.len() > 100 {
        return Err(OutOfMemory);
    }
    Map::of_blob(alloc, Blob::new(alloc, text)?)
}

// The locator p.
fn p(alloc: Global) -> Mem<LocName> {
    match LocName::new(alloc, b"p")? {
        Some(name) => Ok(name),
        None => Err(OutOfMemory),
    }
}

// What a call makes of a text, with its answer.
fn edited(alloc: Global, text: &[u8], call: Call) -> Mem<(Vec<u8>, Answer)>
    requires edit { IsTrue (is_edit call) }
    requires alone { is_sourced call ≡ false }
{
    let mut value = fresh(alloc, text)?;
    let answer = edit_in(alloc, &mut value, &call, None);
    drop(call);
    let mut bytes = Vec::from_elem(alloc, 0u8, value.len() as usize)?;
    value.read_into(0, &mut bytes);
    Ok((bytes, answer?))
}

// What a move of two bytes makes of `abcdef`.
fn moved(alloc: Global, from_offset: u64, to_offset: u64) -> Mem<(Vec<u8>, Answer)> {
    let call = Call::FragMove {
        at: p(alloc)?,
        amount: 2,
        from_offset,
        to_offset,
    };
    edited(alloc, b"abcdef", call)
}

#[test]
fn fragments_move(rt: HostRuntime) -> Result<(), Fail> {
    let moves = [
        ((1, 5), b"cdabef", Ok(None)),
        ((1, 3), b"abcdef", Ok(None)),
        ((1, 7), b"cdefab", Ok(None)),
        ((1, 8), b"abcdef", Err(Fault::ArgOutOfRange)),
        ((5, 1), b"efabcd", Ok(None)),
    ];
    for ((from, to), expected, answer) in moves {
        let (bytes, given) = moved(rt.alloc(), from, to)?;
        assert_eq!(rt; bytes.as_slice(), expected.as_slice());
        assert_eq!(rt; given, answer);
    }
    Ok(())
}

// What an Erase makes of `abcdef`.
fn erased(alloc: Global, amount: u64, offset: u64) -> Mem<(Vec<u8>, Answer)> {
    let call = Call::Erase {
        at: p(alloc)?,
        amount,
        offset,
    };
    edited(alloc, b"abcdef", call)
}

#[test]
fn bytes_are_erased(rt: HostRuntime) -> Result<(), Fail> {
    let (bytes, count) = erased(rt.alloc(), 10, 5)?;
    assert_eq!(rt; bytes.as_slice(), b"abcd\x00\x00".as_slice());
    assert_eq!(rt; count, Ok(Some(2)));
    let (_, none) = erased(rt.alloc(), 1, 7)?;
    assert_eq!(rt; none, Ok(Some(0)));
    Ok(())
}

// The blob that a call read. A fault counts as want of memory.
fn blob_of(answer: Result<Blob, Fault>) -> Mem<Blob> {
    match answer {
        Ok(bytes) => Ok(bytes),
        Err(_) => Err(OutOfMemory),
    }
}

// What Write makes of a copy of `ab`, read back.
fn padded(alloc: Global) -> Mem<Blob> {
    let value = fresh(alloc, b"ab")?;
    let call = Call::Write {
        at: p(alloc)?,
        offset: 5,
        bytes: Blob::new(alloc, b"x")?,
    };
    let written = edit(alloc, &value, &call, None);
    drop(call);
    match written? {
        Ok(edited) => blob_of(read(alloc, &edited.map, 9, 1)?),
        Err(_) => Err(OutOfMemory),
    }
}

#[test]
fn values_are_padded(rt: HostRuntime) -> Result<(), Fail> {
    let bytes = padded(rt.alloc())?;
    assert_eq!(rt; bytes.as_bytes(), b"ab\x00\x00x".as_slice());
    Ok(())
}

#[test]
fn parts_are_compared(rt: HostRuntime) -> Result<(), Fail> {
    let value = fresh(rt.alloc(), b"abcabc")?;
    assert_eq!(rt; compare(&value, &value, 3, 1, 4), Ok(true));
    assert_eq!(rt; compare(&value, &value, 3, 1, 2), Ok(false));
    Ok(())
}
