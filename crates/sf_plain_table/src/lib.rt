//! The plain table of the store as a program: whole lists of marked bytes, for every call in any number of sessions.
#![tactic(auto)]

pub mod births;
mod content;
mod copies;
pub mod cuts;
mod due;
pub mod edits;
mod ends;
mod faults;
mod locator;
mod locator_calls;
mod locks;
mod marked;
pub mod names;
mod part_steps;
mod promise;
mod reach;
mod reads;
pub mod results;
mod row_calls;
mod row_ends;
mod row_parts;
mod rows;
mod savepoint;
mod savepoints;
mod segments;
mod session;
pub mod settling;
pub mod space;
mod steps;
mod table;
mod table_ends;
mod value;
mod versions;
mod writes;

pub use content::Content;
pub use locator::Locator;
pub use marked::{Mark, Marked};
pub use promise::Promise;
pub use rows::{RowState, Rows, value_in};
pub use savepoint::Savepoint;
pub use session::Session;
pub use table::Table;
pub use value::Value;
