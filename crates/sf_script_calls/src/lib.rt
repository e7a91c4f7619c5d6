//! The calls of a script's lines: words, numbers, payloads, and how each call is spelled.
#![tactic(auto)]

mod call;
mod call_reading;
mod call_word;
mod fields;
mod hex_digits;
mod number;
mod payload;
mod shapes;
mod unread;
mod words;

pub use call::{PayloadCall, SpelledCall, payload_length, spelled_call, spelled_length};
pub use call_reading::call_form;
pub use hex_digits::HexDigits;
pub use number::number_of;
pub use payload::{SpelledPayload, are_text_bytes};
pub use unread::Unread;
pub use words::{first_word, is_word, place_of, word_at};
