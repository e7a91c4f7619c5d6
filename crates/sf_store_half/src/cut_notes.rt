//! What is known of the cuts of a flush before they are tried.
ghost use Rattle.std.specs.Prelude.{◌≡◌, [], drop, IfOk, OnOk, None};
ghost use Rattle.sf_types.specs.Space.Cuts.{is_sharing};
ghost use Rattle.sf_dedup.specs.Prints.{print_of};
ghost use Rattle.sf_dedup.specs.Contents.{content_at};
ghost use Rattle.sf_store_half.specs.HalfMoves.{HasPrints, cuts_in};
ghost use Rattle.sf_store_half.specs.Inside.CutNotes.{cut_of, note_of, notes_from, with_first};

use sf_chunk_sizes::blocks;
use sf_dedup::{Index, Print};
use sf_stock::Stock;
use sf_types::{Blob, Choice, Mem, Options, TryCopy};
use sf_versions::Flush;
use std::alloc::Global;

/// What is known of a cut: the birth of the shared content of its bytes, where it is sharing and there is one; whether no equal
/// sharing cut stands before it; and the number of its blocks.
#[derive(Drop)]
pub struct CutNote {
    pub found: Option<u128>,
    pub is_first: bool,
    pub blocks: u64,
}

// Whether a cut of a value with this choice is sharing.
pub fn is_sharing(options: &Options, choice: Choice) -> bool
    ensures { result ≡ is_sharing options.now choice }
{
    match choice {
        Choice::Standard => options.dedup,
        Choice::Share => true,
        Choice::Keep => false,
    }
}

// What is known of a cut, by the sharing cuts that were first before it. Where it is one, it is put with them.
fn note_cut(
    stock: &Stock,
    firsts: &mut Index,
    at: u128,
    content: &Blob,
    print: Print,
    is_sharing: bool,
) -> Mem<CutNote>
    requires print { print ≡ print_of content.now }
    requires at { content_at firsts.old.held at ≡ None }
    ensures note { IfOk result (λ note. note ≡ note_of stock.now.held.stocked firsts.old.held (cut_of content.now is_sharing)) }
    ensures firsts { OnOk result (firsts.new.held ≡ with_first firsts.old.held at (cut_of content.now is_sharing)) }
{
    let blocks = blocks(content.len() as u64);
    if !is_sharing {
        return Ok(CutNote {
            found: None,
            is_first: true,
            blocks,
        });
    }
    let found = stock.find(&print, content);
    let is_first = firsts.find(&print, content).is_none();
    if is_first {
        firsts.add(at, print, content.copy()?)?;
    }
    Ok(CutNote {
        found,
        is_first,
        blocks,
    })
}

/// What is known of the cuts of a flush, in their order.
pub fn note_cuts(
    alloc: Global,
    stock: &Stock,
    options: &Options,
    flush: &Flush,
) -> Mem<Vec<CutNote>>
    requires { HasPrints flush.now }
    ensures { IfOk result (λ notes. notes.items ≡ notes_from stock.now.held.stocked [] 0 (cuts_in options.now flush.now)) }
{
    // There are no more cuts than contents.
    let _count = flush.contents.len();
    let mut firsts = Index::new(alloc)?;
    let mut notes = Vec::new(alloc);
    let mut at = 0;
    while let (Some(content), Some(print), Some(choice)) = (
        flush.contents.get(at),
        flush.prints.get(at),
        flush.choices.get(at),
    ) {
        let is_sharing = is_sharing(options, *choice);
        notes.push(note_cut(stock, &mut firsts, at as u128, content, *print, is_sharing)?)?;
        at += 1;
    }
    Ok(notes)
}
