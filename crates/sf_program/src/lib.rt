//! Vetchera: plays scripts against a store for large binary objects. The programs call `securefiles`.
#![tactic(auto)]

mod exit;
mod input;
mod output;
mod program;
mod status;
mod words;

pub use exit::{exit_code, securefiles};
pub use program::securefiles_plain;
pub use status::Status;
pub use words::read_words;
