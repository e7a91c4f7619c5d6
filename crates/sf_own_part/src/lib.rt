//! A session's own part of the store: what it knows by itself, and what each call makes of that.
#![tactic(auto)]

mod answers;
mod cuts;
mod ends;
mod kept_births;
mod local;
mod local_calls;
mod names;
mod own_part;
mod requests;
mod row_calls;
mod savepoint;
mod savepoints;
mod writes;

pub use answers::{Prepared, number_reply};
pub use cuts::{Cuts, write_cuts};
pub use names::{is_event, source_name, written_name};
pub use own_part::OwnPart;
pub use savepoint::Savepoint;
pub use writes::Written;
