//! The blocks that a flush wants, and the births that are found for it.
ghost use Rattle.std.specs.Prelude.{◌≡◌, [], ◌∷◌, IfOk};
ghost use Rattle.std.specs.List.{list_any};
ghost use Rattle.sf_types.specs.Space.Promises.{found_births, is_equal_sharing, wanted_blocks};
ghost use Rattle.sf_plain.specs.Inside.Wants.{blocks_behind};

use sf_birth_union::BirthUnion;
use sf_plain_table::Content;
use sf_plain_table::cuts::{Cut, blocks_of};
use sf_plain_table::space::found_birth;
use sf_types::{Births, Mem, OutOfMemory};
use std::alloc::Global;

// Two sharing cuts of one content.
fn is_equal_sharing(cut: &Cut, other: &Cut) -> bool
    ensures { result ≡ is_equal_sharing cut.now other.now }
{
    cut.is_sharing && other.is_sharing && cut.bytes.as_bytes() == other.bytes.as_bytes()
}

// Whether a cut is sharing and equal to a sharing one of some others.
fn is_repeated(cut: &Cut, earlier: &[Cut]) -> bool
    ensures { result ≡ list_any (is_equal_sharing cut.now) earlier.now }
{
    for other in earlier {
        if is_equal_sharing(cut, other) {
            return true;
        }
    }
    false
}

// The blocks that a cut wants behind some others: none where it is found, or repeats one of them.
fn blocks_behind(contents: &[Content], reached: &[u128], earlier: &[Cut], cut: &Cut) -> u64
    ensures { result ≡ blocks_behind contents.now reached.now earlier.now cut.now }
{
    if found_birth(contents, reached, cut).is_some() || is_repeated(cut, earlier) {
        0
    } else {
        blocks_of(cut.bytes.len() as u64)
    }
}

/// The blocks that some cuts want: those that aren't found, equal sharing ones once, every other one by itself. A sum past the
/// last u64 is one for which there is no memory.
pub fn wanted_blocks(contents: &[Content], reached: &[u128], of: &[Cut]) -> Mem<u64>
    ensures { IfOk result (λ blocks. blocks ≡ wanted_blocks contents.now reached.now of.now) }
{
    let mut blocks = 0u64;
    for at in 0..of.len() {
        let more = blocks_behind(contents, reached, &of[..at], &of[at]);
        blocks = blocks.checked_add(more).ok_or(OutOfMemory)?;
    }
    Ok(blocks)
}

// The list of one birth.
fn one(alloc: Global, birth: u128) -> Mem<Births>
    ensures { IfOk result (λ births. births ≡ birth ∷ []) }
{
    let mut births = Births::new(alloc);
    births.push(birth)?;
    Ok(births)
}

/// The births that are found for some cuts, rising.
pub fn found_births(
    alloc: Global,
    contents: &[Content],
    reached: &[u128],
    of: &[Cut],
) -> Mem<Births>
    ensures { IfOk result (λ births. births ≡ found_births contents.now reached.now of.now) }
{
    let mut union = BirthUnion::new(alloc);
    for cut in of {
        if let Some(birth) = found_birth(contents, reached, cut) {
            union.add(&one(alloc, birth)?)?;
        }
    }
    union.into_births()
}
