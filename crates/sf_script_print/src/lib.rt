//! The text of a script.
#![tactic(auto)]

mod call_text;
mod laws;
mod pieces;
mod printing;
mod reason_examples;

pub use laws::a_printed_script_is_read;
pub use printing::print;
pub use reason_examples::{
    calls_are_refused_in_order, calls_have_their_place, limits_of_scripts,
    options_have_their_place, options_have_their_range, schedules_are_refused,
};
