//! What the definitions of the store mean: worked examples, and laws.
#![tactic(auto)]

pub mod argument_examples;
pub mod births;
pub mod block_examples;
pub mod call_examples;
pub mod committed;
pub mod cuts;
pub mod edit_examples;
pub mod edits;
pub mod facts;
pub mod halves;
pub mod legal_examples;
pub mod locality;
pub mod locator_examples;
pub mod mark_examples;
pub mod order_examples;
pub mod plays;
pub mod promise_examples;
pub mod promises;
pub mod publications;
pub mod reach;
pub mod refusal_examples;
pub mod refusals;
pub mod shared_contents;
pub mod space_examples;
pub mod text_examples;
pub mod transcript_examples;
pub mod true_marks;
pub mod turn_examples;
pub mod turns;
pub mod use_of_blocks;
