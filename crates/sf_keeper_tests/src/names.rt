//! Names for the tests.

use sf_types::{LocName, Mem, Name, OutOfMemory};
use std::alloc::Global;

/// A row's name. A text that is none counts as want of memory.
pub fn row_name(alloc: Global, text: &[u8]) -> Mem<Name> {
    match Name::new(alloc, text)? {
        Some(name) => Ok(name),
        None => Err(OutOfMemory),
    }
}

/// A locator's name. A text that is none counts as want of memory.
pub fn locator_name(alloc: Global, text: &[u8]) -> Mem<LocName> {
    match LocName::new(alloc, text)? {
        Some(name) => Ok(name),
        None => Err(OutOfMemory),
    }
}
