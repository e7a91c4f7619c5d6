//! The values of rows.
ghost use Rattle.std.specs.Prelude.{◌≡◌, length, IfOk};
ghost use Rattle.sf_types.specs.Values.Marks.{empty_value, fresh_bytes, size_of, strip, fresh_count};

use crate::marked::Marked;
use sf_types::{Choice, Exact, Mem, TryCopy};
use std::alloc::{AllocError, Global};
use std::marker::Model;

/// A value, seen as that of the rules: a list of marked bytes and a choice.
#[derive(Drop)]
pub struct Value {
    pub bytes: Vec<Marked>,
    pub choice: Choice,
}

impl Model for Value {
    ghost use Rattle.sf_types.specs.Values.Marks.{Value as RowValue};

    ghost Value = { RowValue };

    ghost view = { λ v. record { bytes = v.bytes.items; choice = v.choice } };
}

impl Value {
    /// The value that Insert makes. It takes no memory.
    pub fn empty(alloc: Global) -> Value
        ensures { result ≡ empty_value }
    {
        Value {
            bytes: Vec::new(alloc),
            choice: Choice::Standard,
        }
    }

    /// The number of bytes.
    pub fn len(&self) -> u64
        ensures { result ≡ size_of self.now }
    {
        self.bytes.len() as u64
    }
}

impl Clone for Value {
    ghost is_clone = { λ value copied. copied ≡ value };

    fn clone(&self) -> Result<Value, AllocError> {
        let bytes = Vec::from_slice(*self.bytes.allocator(), self.bytes.as_slice())?;
        Ok(Value {
            bytes,
            choice: self.choice,
        })
    }
}

impl Exact for Value {
    ghost exact = { λ value copied is. is };
}

impl TryCopy for Value {
    fn copy(&self) -> Mem<Value> {
        Ok(self.clone()?)
    }
}
