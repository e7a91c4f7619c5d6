//! The changes of a commit, settled by the births of their cuts.
ghost use Rattle.std.specs.Prelude.{◌≡◌, ◌+◌, ◌++◌, [], ◌∷◌, length, map, take, drop, IfOk, OnOk};
ghost use Rattle.std.specs.Map.{keys_of};
ghost use Rattle.sf_types.specs.Space.Cuts.{settle};
ghost use Rattle.sf_store_half.specs.Inside.Settled.{contents_of_change, contents_of_rows, front_chunks};

use sf_chunk_map::ChunkList;
use sf_types::{List, Mem, TryCopy};
use sf_versions::{Change, ChangeList};
use std::alloc::Global;

// Copies of chunks from one on, until they have so many bytes together. A copy shares the chunk's bytes.
fn take_chunks(alloc: Global, chunks: &ChunkList, from: usize, bytes: u64) -> Mem<ChunkList>
    ensures { IfOk result (λ taken. taken ≡ front_chunks bytes (drop from chunks.now)) }
{
    // The chunks are counted.
    let _count = chunks.len();
    let mut taken = List::new(alloc);
    let mut left = bytes;
    let mut at = from;
    while let (true, Some(chunk)) = (left > 0, chunks.get(at)) {
        left = left.saturating_sub(chunk.content().len() as u64);
        taken.push(chunk.copy()?)?;
        at += 1;
    }
    Ok(taken)
}

// A change whose value is settled, in place, by the chunks from one on, and how many these are.
fn settle_change(
    alloc: Global,
    change: Change,
    chunks: &ChunkList,
    from: usize,
) -> Mem<(Change, usize)>
    requires { take (length (contents_of_change change)) (map (λ chunk. chunk.bytes) (drop from chunks.now)) ≡ contents_of_change change }
    ensures settled { IfOk result (λ made. made.0 ∷ [] ≡ settle (change ∷ []) (map (λ chunk. chunk.birth) (drop from chunks.now))) }
    ensures count { IfOk result (λ made. made.1 ≡ length (contents_of_change change)) }
{
    let Change { name, value } = change;
    match value {
        Some(mut map) => {
            let own = take_chunks(alloc, chunks, from, map.fresh())?;
            let count = own.len();
            map.settle_in(&own)?;
            Ok((
                Change {
                    name,
                    value: Some(map),
                },
                count,
            ))
        }
        None => Ok((Change { name, value: None }, 0)),
    }
}

/// The changes with the fresh bytes of their values stored, by the chunks of their cuts. The names move on, and each value is
/// settled in place.
pub fn settle_changes(alloc: Global, changes: ChangeList, chunks: &ChunkList) -> Mem<ChangeList>
    requires { map (λ chunk. chunk.bytes) chunks.now ≡ contents_of_rows changes }
    ensures { IfOk result (λ settled. settled ≡ settle changes (map (λ chunk. chunk.birth) chunks.now)) }
{
    // The chunks are counted.
    let _count = chunks.len();
    let mut settled = ChangeList::new(alloc);
    let mut from = 0;
    for change in changes.into_vec() {
        let (own, count) = settle_change(alloc, change, chunks, from)?;
        settled.push(own)?;
        from += count;
    }
    Ok(settled)
}
