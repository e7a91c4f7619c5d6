//! The cuts of a flush with their prints.
ghost use Rattle.std.specs.Prelude.{◌≡◌, map, IfOk};
ghost use Rattle.sf_dedup.specs.Prints.{print_of};
ghost use Rattle.sf_versions.specs.Asks.{cuts_with};
ghost use Rattle.sf_store_half.specs.Inside.CutNotes.{cut_of};

use crate::cut_notes::is_sharing;
use sf_dedup::{Print, PrintList};
use sf_types::{Blob, BlobList, Choice, List, Mem, Options, TryCopy};
use std::alloc::Global;
use std::marker::Model;

/// A cut with the print of its bytes, seen as the cut. A copy of its content shares the bytes.
#[derive(Drop)]
pub struct PrintedCut {
    pub content: Blob,
    pub print: Print,
    pub is_sharing: bool,
}

impl Model for PrintedCut {
    ghost use Rattle.std.specs.Prelude.{◌≡◌};
    ghost use Rattle.sf_types.specs.Space.Cuts.{Cut};
    ghost use Rattle.sf_dedup.specs.Prints.{print_of};
    ghost use Rattle.sf_store_half.specs.Inside.CutNotes.{cut_of};

    ghost Value = { Cut };

    ghost view = { λ c. cut_of c.content c.is_sharing };

    ghost invariant = { λ c. c.print ≡ print_of c.content };
}

/// The cuts that contents with these prints are, each with the choice of its value, in their order.
pub fn printed_cuts(
    alloc: Global,
    options: &Options,
    contents: &BlobList,
    prints: &PrintList,
    choices: &List<Choice>,
) -> Mem<Vec<PrintedCut>>
    requires { prints.now ≡ map print_of contents.now }
    ensures { IfOk result (λ cuts. cuts.items ≡ cuts_with options.now contents.now choices.now) }
{
    let mut cuts = Vec::with_capacity(alloc, contents.len())?;
    let mut at = 0;
    while let (Some(content), Some(print), Some(choice)) = (
        contents.get(at),
        prints.get(at),
        choices.get(at),
    ) {
        cuts.push(PrintedCut {
            content: content.copy()?,
            print: *print,
            is_sharing: is_sharing(options, *choice),
        })?;
        at += 1;
    }
    Ok(cuts)
}
