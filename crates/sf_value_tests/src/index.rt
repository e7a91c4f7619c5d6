use sf_dedup::{Index, PlainPrinter, Printer, print_of};
use sf_types::{Blob, BlobList, Mem, TryCopy, push_hex};
use std::alloc::Global;
use std::test::*;

// The digest of some bytes in hex digits.
fn digest(alloc: Global, bytes: &[u8]) -> Mem<Vec<u8>> {
    let mut text = Vec::new(alloc);
    push_hex(
        &mut text,
        print_of(&Blob::new(alloc, bytes)?).sum.as_bytes(),
    )?;
    Ok(text)
}

// The digests are from the examples of FIPS 180-4.
#[test]
fn prints_are_digests(rt: HostRuntime) -> Result<(), Fail> {
    let cases = [
        (
            b"".as_slice(),
            b"e3b0c44298fc1c149afbf4c8996fb92427ae41e4649b934ca495991b7852b855",
        ),
        (
            b"abc".as_slice(),
            b"ba7816bf8f01cfea414140de5dae2223b00361a396177a9cb410ff61f20015ad",
        ),
    ];
    for (bytes, expected) in cases {
        assert_eq!(rt; digest(rt.alloc(), bytes)?.as_slice(), expected.as_slice());
    }
    Ok(())
}

#[test]
fn prints_of_a_list_are_in_order(rt: HostRuntime) -> Result<(), Fail> {
    let alloc = rt.alloc();
    let mut contents = BlobList::new(alloc);
    contents.push(Blob::new(alloc, b"abc")?)?;
    contents.push(Blob::new(alloc, b"")?)?;
    let prints = PlainPrinter.prints(&rt, alloc, &contents)?.copy()?;
    assert_eq!(rt; prints.len(), contents.len());
    for (print, content) in prints.as_slice().iter().zip(contents.as_slice()) {
        assert_eq!(rt; print.sum, print_of(content).sum);
    }
    Ok(())
}

// What is found for two contents before the first is added, after it was, and after it was removed.
fn found_births(alloc: Global) -> Mem<[(Option<u128>, Option<u128>); 3]> {
    let first = Blob::new(alloc, b"abc")?;
    let second = Blob::new(alloc, b"abd")?;
    let mut index = Index::new(alloc)?;
    index.make_room(1)?;
    let find = |index: &Index| {
        (
            index.find(&print_of(&first), &first),
            index.find(&print_of(&second), &second),
        )
    };
    let before = find(&index);
    index.add(7, print_of(&first), first.copy()?)?;
    let added = find(&index);
    index.remove(7);
    Ok([before, added, find(&index)])
}

#[test]
fn finds_equal_contents(rt: HostRuntime) -> Result<(), Fail> {
    let expected = [(None, None), (Some(7), None), (None, None)];
    assert_eq!(rt; found_births(rt.alloc())?, expected);
    Ok(())
}
