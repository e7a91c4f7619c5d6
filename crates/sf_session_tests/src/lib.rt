//! Tests of a session outside the store. They use public calls alone.
#![tactic(auto)]

#[cfg(test)]
mod sessions;
#[cfg(test)]
mod stand_in;
