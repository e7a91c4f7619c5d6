//! What would be in reach once holders were given up and a session held other births.
ghost use Rattle.std.specs.Prelude.{◌≡◌, true, not, ◌&&◌, filter, All, IfOk};
ghost use Rattle.sf_lifetimes.specs.Ledgers.{has_birth, is_live, without_holders};
ghost use Rattle.sf_stock.specs.Stocks.{block_count, is_stocked};
ghost use Rattle.sf_store_half.specs.Inside.CutNotes.{blocks_for, blocks_for_all};
ghost use Rattle.sf_store_half.specs.Inside.Trials.{IsGivenUpOf, is_reached, kept_alone, reached_stock};

use crate::cut_notes::CutNote;
use sf_chunk_sizes::blocks;
use sf_lifetimes::GivenUp;
use sf_stock::Stock;
use sf_types::{Births, Mem, OutOfMemory};

// Whether a birth is one of some.
fn has_birth(births: &Births, birth: u128) -> bool
    ensures { result ≡ has_birth births.now birth }
{
    births.as_slice().binary_search(&birth).is_ok()
}

/// Whether a birth would be reached where these holders held nothing, and a session these births.
pub fn is_reached(given: &GivenUp<'_>, births: &Births, birth: u128) -> bool
    ensures { result ≡ is_reached given.now.ledger.holdings given.now.holders births.now birth }
{
    given.is_held(birth) || has_birth(births, birth)
}

// The blocks that a cut would want.
fn blocks_for(note: &CutNote, given: &GivenUp<'_>, births: &Births) -> u64
    ensures { result ≡ blocks_for (is_reached given.now.ledger.holdings given.now.holders births.now) note.now }
{
    let is_found = match note.found {
        Some(birth) => is_reached(given, births, birth),
        None => false,
    };
    if !is_found && note.is_first {
        note.blocks
    } else {
        0
    }
}

/// The blocks that cuts would want.
pub fn wanted_blocks(notes: &[CutNote], given: &GivenUp<'_>, births: &Births) -> Mem<u64>
    ensures { IfOk result (λ wanted. wanted ≡ blocks_for_all (is_reached given.now.ledger.holdings given.now.holders births.now) notes.now) }
{
    let mut wanted = 0u64;
    for note in notes {
        let Some(sum) = wanted.checked_add(blocks_for(note, given, births)) else {
            return Err(OutOfMemory);
        };
        wanted = sum;
    }
    Ok(wanted)
}

// The blocks of those of some births that would be held by nobody else.
fn kept_blocks(stock: &Stock, given: &GivenUp<'_>, births: &Births) -> Mem<u64>
    requires given { IsGivenUpOf stock.now.held given.now }
    requires births { All (λ birth. is_stocked stock.now.held.stocked birth ≡ true) births.now }
    ensures { IfOk result (λ kept. kept ≡ block_count (filter (kept_alone stock.now.held given.now.holders births.now) stock.now.held.stocked)) }
{
    // A birth takes as many blocks as its content.
    let _ = stock.next_birth();
    let mut kept = 0u64;
    for birth in births.as_slice() {
        let own = match stock.content_of(*birth) {
            Some(content) if !given.is_held(*birth) => blocks(content.len() as u64),
            _ => 0,
        };
        let Some(sum) = kept.checked_add(own) else {
            return Err(OutOfMemory);
        };
        kept = sum;
    }
    Ok(kept)
}

/// The blocks of the births that would be reached.
pub fn reached_blocks(stock: &Stock, given: &GivenUp<'_>, births: &Births) -> Mem<u64>
    requires given { IsGivenUpOf stock.now.held given.now }
    requires live { All (λ x. is_live stock.now.held.holdings x.birth ≡ true) stock.now.held.stocked }
    requires births { All (λ birth. is_stocked stock.now.held.stocked birth ≡ true) births.now }
    ensures { IfOk result (λ reached. reached ≡ block_count (reached_stock stock.now.held given.now.holders births.now)) }
{
    let kept = kept_blocks(stock, given, births)?;
    let left = stock.live_blocks() - given.freed_blocks();
    match left.checked_add(kept) {
        Some(reached) => Ok(reached),
        None => Err(OutOfMemory),
    }
}
