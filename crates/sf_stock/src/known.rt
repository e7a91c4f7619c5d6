//! What a stock knows of a content.

use sf_dedup::Print;
use sf_types::Blob;

/// A content with its print, and whether it is shared.
#[derive(Drop)]
pub struct Known {
    pub content: Blob,
    pub print: Print,
    pub is_shared: bool,
}
