//! Contents and blocks.
ghost use Rattle.std.specs.Prelude.{◌≡◌, IfOk};
ghost use Rattle.sf_types.specs.Space.Contents.{blocks_of, contents_of_stretch};

use sf_types::{BLOCK_BYTES, Blob, BlobList, CONTENT_BYTES, List, Mem};
use std::alloc::Global;

/// The number of blocks that a content of so many bytes takes.
pub fn blocks(len: u64) -> u64
    ensures { result ≡ blocks_of len }
{
    len.div_ceil(BLOCK_BYTES)
}

/// The contents of a stretch of fresh bytes: as many bytes each as a content can have, and a last one of the rest. No bytes have
/// no content.
pub fn cut(alloc: Global, bytes: &[u8]) -> Mem<BlobList>
    ensures { IfOk result (λ contents. contents ≡ contents_of_stretch bytes.now) }
{
    let mut contents = List::new(alloc);
    let mut rest = bytes;
    while !rest.is_empty() {
        let (content, behind) = rest.split_at(rest.len().min(CONTENT_BYTES as usize));
        contents.push(Blob::new(alloc, content)?)?;
        rest = behind;
    }
    Ok(contents)
}
