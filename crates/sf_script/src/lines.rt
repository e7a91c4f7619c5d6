//! Lines.
ghost use Rattle.std.specs.Prelude.{◌≡◌, ◌+◌, ◌<◌, ◌≤◌, ◌∷◌, [], length, MatchOption};
ghost use Rattle.std.specs.List.{list_all};
ghost use Rattle.sf_script.specs.Lines.{lines_of, is_line_byte};
ghost use Rattle.sf_script.specs.Inside.Views.{text_line};

use sf_script_calls::place_of;

// A line without its line feed, and whether a line feed ends it.
#[derive(Clone, Copy)]
pub struct TextLine<'a> {
    pub text: &'a [u8],
    pub ended: bool,
}

// The first line of a text, and the text behind it.
pub fn first_line(text: &[u8]) -> Option<(TextLine<'_>, &[u8])>
    ensures lines { MatchOption result (lines_of text.now ≡ []) (λ x. lines_of text.now ≡ text_line x.0 ∷ lines_of x.1.now) }
    ensures shorter { MatchOption result (length text.now ≡ 0) (λ x. length x.1.now + 1 ≤ length text.now) }
{
    if text.is_empty() {
        return None;
    }
    let place = place_of(b'\n', text);
    if place < text.len() {
        let line = TextLine {
            text: &text[..place],
            ended: true,
        };
        Some((line, &text[place + 1..]))
    } else {
        let line = TextLine { text, ended: false };
        Some((line, &text[text.len()..]))
    }
}

// Whether each byte may stand in a line.
pub fn are_line_bytes(text: &[u8]) -> bool
    ensures { result ≡ list_all is_line_byte text.now }
{
    text.iter().all(|byte| (32..=126).contains(byte))
}
