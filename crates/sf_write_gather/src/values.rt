//! Values that are due, and settled values.
ghost use Rattle.std.specs.Prelude.{◌≡◌, map, nat_le, IfOk};
ghost use Rattle.sf_types.specs.Space.Cuts.{contents_of_value, settle_value};
ghost use Rattle.sf_types.specs.Values.Marks.{fresh_count};

use sf_chunk_map::{ChunkList, Map};
use sf_types::{Mem, TryCopy};

/// Whether a value has at least so many fresh bytes. It costs a look.
pub fn due(value: &Map, gather: u32) -> bool
    ensures { result ≡ nat_le gather (fresh_count value.now) }
{
    value.fresh() >= u64::from(gather)
}

/// The value with each content that its fresh bytes make stored, by the chunk of the same number: its bytes are those of the
/// content. The choice is that of the value. It is a copy of the value, and then `Map::settle_in`.
pub fn settle(value: &Map, chunks: &ChunkList) -> Mem<Map>
    requires { contents_of_value value.now ≡ map (λ chunk. chunk.bytes) chunks.now }
    ensures { IfOk result (λ settled. settled ≡ settle_value value.now (map (λ chunk. chunk.birth) chunks.now)) }
{
    let mut settled = value.copy()?;
    settled.settle_in(chunks)?;
    Ok(settled)
}
