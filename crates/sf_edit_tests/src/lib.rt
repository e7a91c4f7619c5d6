//! Tests of values, of their edits, of what is read of them, and of how their fresh bytes are gathered. They use public calls
//! alone.
#![tactic(auto)]

#[cfg(test)]
mod chunk_map;
#[cfg(test)]
mod edits;
#[cfg(test)]
mod gather;
#[cfg(test)]
mod reading;
