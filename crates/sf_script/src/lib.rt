//! Scripts: what the sessions of a store call, as a text, and the parser that equals its grammar.
#![tactic(auto)]

mod checks;
mod fault;
mod limits;
mod line_form;
mod lines;
mod option_line;
mod options_read;
mod parser;
mod reading;
mod schedule;
mod script;
mod turn;

pub use fault::{Reason, ScriptFault};
pub use limits::{SCRIPT_BYTES, SCRIPT_CALLS, SCRIPT_PAYLOAD_BYTES, SCRIPT_TURNS};
pub use parser::parse;
pub use script::{Script, TurnList};
pub use turn::Turn;
