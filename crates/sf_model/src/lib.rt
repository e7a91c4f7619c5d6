//! The table in a running form, over whole lists of marked bytes.
#![tactic(auto)]

mod locator;
mod locks;
mod plain;
mod rows;
mod session;
mod value;

pub use locator::Locator;
pub use plain::Plain;
pub use value::Value;
