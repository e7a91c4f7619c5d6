//! What commits and transactions say of rows.
ghost use Rattle.std.specs.Prelude.{◌≡◌, IfOk};
ghost use Rattle.std.specs.Prelude.{unwrap_or};
ghost use Rattle.std.specs.Option.{option_copied};
ghost use Rattle.sf_types.specs.Values.Marks.{empty_value};
ghost use Rattle.sf_types.specs.Table.Versions.{value_or_absent};
ghost use Rattle.sf_types.specs.Inside.NameMaps.{get};

use crate::value::Value;
use sf_types::{Exact, Mem, Name, NameMap, TryCopy};
use std::alloc::{AllocError, Global};
use std::marker::Model;

/// What is said of a row, seen as the rules' option: its value, or none where it is absent.
#[derive(Drop)]
pub struct RowState {
    value: Option<Value>,
}

/// What is said of rows by their names.
pub type Rows = NameMap<Name, RowState>;

impl Model for RowState {
    ghost use Rattle.std.specs.Prelude.{Option};
    ghost use Rattle.sf_types.specs.Values.Marks.{Value as RowValue};

    ghost Value = { Option RowValue };

    ghost view = { λ s. s.value };
}

impl RowState {
    /// A row with this value, or absent.
    pub fn new(value: Option<Value>) -> RowState
        ensures { result ≡ value }
    {
        RowState { value }
    }

    /// The row's value. None exactly where it is absent.
    pub fn value(&self) -> Option<&Value>
        ensures { option_copied result ≡ self.now }
    {
        self.value.as_ref()
    }
}

impl Clone for RowState {
    ghost is_clone = { λ state copied. copied ≡ state };

    fn clone(&self) -> Result<RowState, AllocError> {
        match &self.value {
            Some(value) => {
                let value = value.clone()?;
                Ok(RowState { value: Some(value) })
            }
            None => Ok(RowState { value: None }),
        }
    }
}

impl Exact for RowState {
    ghost exact = { λ state copied is. is };
}

impl TryCopy for RowState {
    fn copy(&self) -> Mem<RowState> {
        Ok(self.clone()?)
    }
}

/// The value that is said of a row. None where it is absent, or nothing is said of it.
pub fn value_in<'a>(rows: &'a Rows, row: &Name) -> Option<&'a Value>
    ensures { option_copied result ≡ value_or_absent (get rows.now row.now) }
{
    match rows.get(row) {
        Some(state) => state.value(),
        None => None,
    }
}

/// A copy of a value, or the empty one where there is none.
pub fn copied_or_empty(alloc: Global, value: Option<&Value>) -> Mem<Value>
    ensures { IfOk result (λ copied. copied ≡ unwrap_or (option_copied value.entry) empty_value) }
{
    match value {
        Some(value) => value.copy(),
        None => Ok(Value::empty(alloc)),
    }
}
