//! Transcripts: what is written of a played script, as one text.
#![tactic(auto)]

mod lines;
mod places;
mod transcript;

pub use transcript::render;
