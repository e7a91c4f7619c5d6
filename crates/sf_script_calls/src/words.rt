//! Words between single spaces.
ghost use Rattle.std.specs.Prelude.{◌≡◌, ◌≤◌, length, option_map};
ghost use Rattle.std.specs.List.{position_or_len};
ghost use Rattle.memchr.specs.Find.{is_byte};
ghost use Rattle.sf_script_calls.specs.Words.{is_space, first_word, has_space, word_at, is_word};

use memchr::memchr;

/// The place of the first byte like this one, or the text's length.
pub fn place_of(byte: u8, text: &[u8]) -> usize
    ensures place { result ≡ position_or_len (is_byte byte) text.now }
    ensures bound { result ≤ length text.now }
{
    match memchr(byte, text) {
        Some(place) => place,
        None => text.len(),
    }
}

/// The word before the first space, and what stands behind that space. None where there is no space.
#[tactic(auto, unfolding(crate::specs::Words::word_at))]
pub fn word_at(text: &[u8]) -> Option<(&[u8], &[u8])>
    ensures { option_map (λ x. (x.0.now, x.1.now)) result ≡ word_at text.now }
{
    let place = place_of(b' ', text);
    if place < text.len() {
        Some((&text[..place], &text[place + 1..]))
    } else {
        None
    }
}

/// The first word, up to the first space or the end.
pub fn first_word(text: &[u8]) -> &[u8]
    ensures { result.now ≡ first_word text.now }
{
    let place = place_of(b' ', text);
    &text[..place]
}

/// Whether a word is spelled so.
#[tactic(auto, unfolding(crate::specs::Words::is_word))]
pub fn is_word(spelling: &[u8], word: &[u8]) -> bool
    ensures { result ≡ is_word spelling.now word.now }
{
    word == spelling
}
