//! Tests of all crates but the programs. They use public calls alone.
#![tactic(auto)]

#[cfg(test)]
mod block_space;
#[cfg(test)]
mod chunk_sizes;
#[cfg(test)]
mod free_commit;
#[cfg(test)]
mod lifetimes;
#[cfg(test)]
mod outside;
#[cfg(test)]
mod program;
#[cfg(test)]
mod script_text;
#[cfg(test)]
mod shrink;
#[cfg(test)]
mod values;
