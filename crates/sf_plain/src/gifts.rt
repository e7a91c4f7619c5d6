//! The births that a publication gives.
ghost use Rattle.std.specs.Prelude.{◌≡◌, ◌+◌, ◌++◌, ◌∷◌, [], length, IfOk, OnOk};
ghost use Rattle.sf_types.specs.Space.Promises.{found_birth};
ghost use Rattle.sf_types.specs.Space.Publications.{content_of_cut, birth_for, contents_with, reached_with, births_for, contents_after};

use sf_plain_table::Content;
use sf_plain_table::cuts::Cut;
use sf_plain_table::space::found_birth;
use sf_types::{Mem, TryCopy};
use std::alloc::Global;

// Gives a cut the next birth.
fn give_next(contents: &mut Vec<Content>, reached: &mut Vec<u128>, cut: &Cut) -> Mem<u128>
    ensures birth { IfOk result (λ birth. birth ≡ length contents.old.items + 1) }
    ensures contents { OnOk result (contents.new.items ≡ contents.old.items ++ content_of_cut cut.now ∷ []) }
    ensures reached { OnOk result (reached.new.items ≡ reached.old.items ++ (length contents.old.items + 1) ∷ []) }
{
    let birth = contents.len() as u128 + 1;
    contents.push(Content {
        bytes: cut.bytes.copy()?,
        is_shared: cut.is_sharing,
    })?;
    reached.push(birth)?;
    Ok(birth)
}

// Gives a cut its birth: the one that is found, else the next one.
fn give_birth(contents: &mut Vec<Content>, reached: &mut Vec<u128>, cut: &Cut) -> Mem<u128>
    ensures birth { IfOk result (λ birth. birth ≡ birth_for contents.old.items reached.old.items cut.now) }
    ensures contents { OnOk result (contents.new.items ≡ contents_with contents.old.items reached.old.items cut.now) }
    ensures reached { OnOk result (reached.new.items ≡ reached_with contents.old.items reached.old.items cut.now) }
{
    match found_birth(contents, reached, cut) {
        Some(birth) => Ok(birth),
        None => give_next(contents, reached, cut),
    }
}

/// Gives some cuts their births, in their order, looked for among the births that are reached. The contents are then those
/// with the new ones.
pub fn give_births(
    alloc: Global,
    contents: &mut Vec<Content>,
    reached: Vec<u128>,
    of: &[Cut],
) -> Mem<Vec<u128>>
    ensures births { IfOk result (λ births. births.items ≡ births_for contents.old.items reached.items of.now) }
    ensures contents { OnOk result (contents.new.items ≡ contents_after contents.old.items reached.items of.now) }
{
    let mut reached = reached;
    let mut births = Vec::new(alloc);
    for cut in of {
        births.push(give_birth(contents, &mut reached, cut)?)?;
    }
    Ok(births)
}
