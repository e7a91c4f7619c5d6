//! Tests of the crates of what the store keeps for sessions. They use public calls alone.
#![tactic(auto)]

#[cfg(test)]
mod locators;
#[cfg(test)]
mod names;
#[cfg(test)]
mod retention;
#[cfg(test)]
mod room_map;
#[cfg(test)]
mod row_locks;
#[cfg(test)]
mod sorted_map;
#[cfg(test)]
mod versions;
