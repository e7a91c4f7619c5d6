//! The contents that fresh bytes make.
ghost use Rattle.std.specs.Prelude.{◌≡◌, ◌≤◌, ◌++◌, flat_map, IfOk, OnOk};
ghost use Rattle.sf_types.specs.Space.Cuts.{contents_of_value};
ghost use Rattle.sf_types.specs.Values.Marks.{size_of};
ghost use Rattle.sf_write_gather.specs.Inside.Stretches.{IsStretch};

use sf_chunk_map::{Map, MapList};
use sf_chunk_sizes::cut;
use sf_types::{BlobList, List, Mem};
use std::alloc::Global;

// The fresh bytes of a value from a byte on, up to the first that isn't fresh.
fn stretch_at(alloc: Global, value: &Map, at: u64) -> Mem<Vec<u8>>
    requires { at ≤ size_of value.now }
    ensures { IfOk result (λ bytes. IsStretch value.now.bytes at bytes.items) }
{
    let _len = value.len();
    let mut bytes = Vec::new(alloc);
    while let Some(more) = value.fresh_at(at + bytes.len() as u64) {
        bytes.extend_from_slice(more)?;
    }
    Ok(bytes)
}

// Puts blobs behind others.
fn push_all(contents: &mut BlobList, more: BlobList) -> Mem<()>
    ensures { OnOk result (contents.new ≡ contents.old ++ more) }
{
    for content in more.into_vec() {
        contents.push(content)?;
    }
    Ok(())
}

// Puts the contents that a value's fresh bytes make behind others.
fn push_contents(alloc: Global, value: &Map, contents: &mut BlobList) -> Mem<()>
    ensures { OnOk result (contents.new ≡ contents.old ++ contents_of_value value.now) }
{
    let _len = value.len();
    let mut at = 0;
    while let Some(start) = value.next_fresh(at) {
        let bytes = stretch_at(alloc, value, start)?;
        push_all(contents, cut(alloc, bytes.as_slice())?)?;
        at = start + bytes.len() as u64;
    }
    Ok(())
}

/// The contents that the fresh bytes of a value make, from front to end. It costs in proportion to the pieces that have fresh
/// bytes, to these bytes and to the depth.
pub fn value_contents(alloc: Global, value: &Map) -> Mem<BlobList>
    ensures { IfOk result (λ contents. contents ≡ contents_of_value value.now) }
{
    let mut contents = List::new(alloc);
    push_contents(alloc, value, &mut contents)?;
    Ok(contents)
}

/// The contents that the fresh bytes of values make, value by value and from front to end. It costs in proportion to the pieces
/// that have fresh bytes, to these bytes and to the depth.
pub fn fresh_contents(alloc: Global, values: &MapList) -> Mem<BlobList>
    ensures { IfOk result (λ contents. contents ≡ flat_map contents_of_value values.now) }
{
    let mut contents = List::new(alloc);
    for value in values.as_slice() {
        push_contents(alloc, value, &mut contents)?;
    }
    Ok(contents)
}
