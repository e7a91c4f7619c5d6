//! Contents that come.
ghost use Rattle.std.specs.Prelude.{◌≡◌, ◌+◌, ◌<◌, ◌^◌, length, IfOk};
ghost use Rattle.sf_dedup.specs.Prints.{print_of};
ghost use Rattle.sf_types.specs.Space.BlockRuns.{blocks_in, AreRuns};
ghost use Rattle.sf_stock.specs.Inside.Keeps.{copied_if, IsNewContent};

use crate::joining::joined;
use crate::known::Known;
use sf_dedup::Print;
use sf_types::{Blob, ContentRuns, Mem, Run, TryCopy};
use std::alloc::Global;
use std::marker::Model;

/// A content with the runs in which it is to stand, and all that a stock needs to take it without memory.
#[derive(Drop)]
pub struct NewContent {
    known: Known,
    shared: Option<Blob>,
    runs: ContentRuns,
}

impl Model for NewContent {
    ghost use Rattle.std.specs.Prelude.{◌≡◌};
    ghost use Rattle.sf_types.specs.Space.BlockRuns.{AreRuns};
    ghost use Rattle.sf_stock.specs.Stocks.{NewContentView};
    ghost use Rattle.sf_stock.specs.Inside.Keeps.{IsNewContent};

    ghost Value = { NewContentView };

    ghost view = { λ new. record { content = record { bytes = new.known.content; is_shared = new.known.is_shared }; runs = new.runs } };

    ghost invariant = { λ new. IsNewContent new.known new.shared new.runs };
}

// A copy of a content, where it is shared.
fn copy_if(is_shared: bool, content: &Blob) -> Mem<Option<Blob>>
    ensures { IfOk result (λ copied. copied ≡ copied_if is_shared content.now) }
{
    if is_shared {
        Ok(Some(content.copy()?))
    } else {
        Ok(None)
    }
}

impl NewContent {
    /// A content of these bytes with their print, in the maximal runs of these blocks.
    pub fn new(
        alloc: Global,
        content: &Blob,
        print: Print,
        is_shared: bool,
        runs: &[Run],
    ) -> Mem<NewContent>
        requires print { print ≡ print_of content.now }
        requires few { length (blocks_in runs.now) < 2 ^ 32 }
        ensures content { IfOk result (λ new. new.content ≡ record { bytes = content.now; is_shared = is_shared }) }
        ensures blocks { IfOk result (λ new. blocks_in new.runs ≡ blocks_in runs.now) }
        ensures runs { IfOk result (λ new. AreRuns new.runs) }
    {
        let runs = joined(alloc, runs)?;
        let shared = copy_if(is_shared, content)?;
        let known = Known {
            content: content.copy()?,
            print,
            is_shared,
        };
        Ok(NewContent {
            known,
            shared,
            runs,
        })
    }

    /// The items of room that the content takes when it is placed: one for its birth, and one for each run.
    pub fn item_count(&self) -> u64
        ensures { result ≡ 1 + length self.now.runs }
    {
        1 + self.runs.len() as u64
    }

    // What is known of the content, a copy of its bytes where it is shared, and its runs.
    pub(crate) fn into_parts(self) -> (Known, Option<Blob>, ContentRuns)
        ensures content { record { bytes = result.0.content; is_shared = result.0.is_shared } ≡ self.content }
        ensures runs { result.2 ≡ self.runs }
        ensures sound { IsNewContent result.0 result.1 result.2 }
    {
        let NewContent {
            known,
            shared,
            runs,
        } = self;
        (known, shared, runs)
    }
}
