//! Contents that are shared: their prints, and the index that finds an equal one.
#![tactic(auto)]

mod index;
mod print;
mod printer;

pub use index::Index;
pub use print::{Print, PrintList, print_of};
pub use printer::{PlainPrinter, Printer, prints_in_turn};
