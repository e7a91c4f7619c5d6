//! The text of a transcript.
ghost use Rattle.std.specs.Prelude.{◌≡◌, IfOk};
ghost use Rattle.sf_types.specs.Orders.Transcripts.{whole_transcript};

use crate::lines::{push_number_line, push_order, push_rows, push_sessions};
use crate::places::push_places;
use sf_types::{Mem, Played};
use std::alloc::Global;

/// The transcript of a played script, as the bytes of one text: the header, the order, the replies session by session, the
/// places, the free number, the rows and the number of commits, each line with its line feed. For want of memory there is none.
pub fn render(alloc: Global, played: &Played) -> Mem<Vec<u8>>
    ensures { IfOk result (λ text. text.items ≡ whole_transcript played.entry.now.order played.entry.now.replies
        played.entry.now.places played.entry.now.free played.entry.now.rows played.entry.now.now) }
{
    let mut text = Vec::new(alloc);
    text.extend_from_slice(b"transcript 1\n")?;
    push_order(&mut text, played.order.as_slice())?;
    push_sessions(&mut text, played.replies.as_slice())?;
    push_places(&mut text, played.places.as_slice())?;
    push_number_line(&mut text, b"free ", played.free)?;
    push_rows(&mut text, played.rows.as_slice())?;
    push_number_line(&mut text, b"now ", played.now)?;
    Ok(text)
}
