//! Contents that were given out.
ghost use Rattle.std.specs.Prelude.{◌≡◌};

use sf_types::{Blob, Mem, TryCopy};
use std::marker::Model;

/// A content that was given out, seen as that of the rules: its bytes, and whether it is shared or apart.
#[derive(Drop)]
pub struct Content {
    pub bytes: Blob,
    pub is_shared: bool,
}

impl Model for Content {
    ghost use Rattle.sf_types.specs.Table.Parts.{Content as TableContent};

    ghost Value = { TableContent };

    ghost view = { λ x. record { bytes = x.bytes; is_shared = x.is_shared } };
}

impl TryCopy for Content {
    fn copy(&self) -> Mem<Content> {
        Ok(Content {
            bytes: self.bytes.copy()?,
            is_shared: self.is_shared,
        })
    }
}
