//! Tests of the space that threads share. They use public calls alone.
#![tactic(auto)]

#[cfg(test)]
mod dispensers;
#[cfg(test)]
mod words;
