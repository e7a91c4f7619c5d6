//! Tests of the stock. They use public calls alone.
#![tactic(auto)]

#[cfg(test)]
mod stock;
