//! A version of a row.

use sf_chunk_map::Map;
use std::marker::Model;

/// A version of a row, seen as the number of the commit that made it and the row's value since then, None where it was made
/// absent.
#[derive(Drop)]
pub struct Version {
    pub number: u64,
    pub value: Option<Map>,
}

impl Model for Version {
    ghost use Rattle.std.specs.Prelude.{ℕ, Option};
    ghost use Rattle.sf_types.specs.Values.Marks.{Value as RowValue};

    ghost Value = { ℕ × Option RowValue };

    ghost view = { λ version. (version.number, version.value) };
}
