//! Words, numbers and payloads of a printed line.
ghost use Rattle.std.specs.Prelude.{◌≡◌, ◌==◌, ◌∷◌, ◌++◌, OnOk, map};
ghost use Rattle.std.specs.Fmt.{decimal};
ghost use Rattle.std.specs.List.{list_all};
ghost use Rattle.sf_script_print.specs.PrintedCalls.{spaced, are_equal_bytes, printed_payload};

use sf_script_calls::are_text_bytes;
use sf_types::{Mem, push_decimal, push_hex};

// Appends a word after one space.
pub fn push_word(text: &mut Vec<u8>, word: &[u8]) -> Mem<()>
    ensures { OnOk result (text.new.items ≡ text.old.items ++ 32 ∷ word.now) }
{
    text.extend_from_slice(b" ")?;
    text.extend_from_slice(word)?;
    Ok(())
}

// Appends words, each after one space.
pub fn push_words(text: &mut Vec<u8>, words: &[&[u8]]) -> Mem<()>
    ensures { OnOk result (text.new.items ≡ text.old.items ++ spaced (map (λ word. word.now) words.now)) }
{
    let mut rest = words;
    while let [word, after @ ..] = rest {
        push_word(text, word)?;
        rest = after;
    }
    Ok(())
}

// Appends a number after one space.
pub fn push_number(text: &mut Vec<u8>, number: u64) -> Mem<()>
    ensures { OnOk result (text.new.items ≡ text.old.items ++ 32 ∷ decimal number) }
{
    text.extend_from_slice(b" ")?;
    push_decimal(text, number)
}

// Appends numbers, each after one space.
pub fn push_numbers(text: &mut Vec<u8>, numbers: &[u64]) -> Mem<()>
    ensures { OnOk result (text.new.items ≡ text.old.items ++ spaced (map decimal numbers.now)) }
{
    let mut rest = numbers;
    while let [number, after @ ..] = rest {
        push_number(text, *number)?;
        rest = after;
    }
    Ok(())
}

// Whether each of the bytes is this one.
fn are_all(bytes: &[u8], byte: u8) -> bool
    ensures { result ≡ list_all (λ other. other == byte) bytes.now }
{
    bytes.iter().all(|other| *other == byte)
}

// Whether all bytes are the same.
fn are_equal_bytes(bytes: &[u8]) -> bool
    ensures { result ≡ are_equal_bytes bytes.now }
{
    match bytes {
        [first, others @ ..] => are_all(others, *first),
        [] => true,
    }
}

// Appends a payload.
#[tactic(auto, unfolding(crate::specs::PrintedCalls::printed_payload))]
pub fn push_payload(text: &mut Vec<u8>, bytes: &[u8]) -> Mem<()>
    ensures { OnOk result (text.new.items ≡ text.old.items ++ printed_payload bytes.now) }
{
    if bytes.len() >= 3 && are_equal_bytes(bytes) {
        push_decimal(text, bytes.len() as u64)?;
        text.extend_from_slice(b"*x")?;
        return push_hex(text, &bytes[..1]);
    }
    if are_text_bytes(bytes) {
        text.extend_from_slice(b"\"")?;
        text.extend_from_slice(bytes)?;
        text.extend_from_slice(b"\"")?;
        return Ok(());
    }
    text.extend_from_slice(b"x")?;
    push_hex(text, bytes)
}
