//! The locators of a session.
#![tactic(auto)]

mod changes;
mod locator;
mod locators;

pub use locator::Locator;
pub use locators::Locators;
