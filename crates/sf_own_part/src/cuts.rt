//! The cuts of what a due call flushes, by a session's own part.
ghost use Rattle.std.specs.Prelude.{◌≡◌, ◌++◌, ◌∷◌, [], length, replicate, slice_get, IfOk, OnOk};
ghost use Rattle.std.specs.Option.{option_map_or};
ghost use Rattle.sf_types.specs.declared.options.Options.{Options};
ghost use Rattle.sf_types.specs.Space.Cuts.{contents_of_value, cuts, cuts_of_value};
ghost use Rattle.sf_versions.specs.Asks.{cuts_with};
ghost use Rattle.sf_own_part.specs.Inside.RowCuts.{row_contents, row_choices};

use crate::own_part::OwnPart;
use crate::writes::Written;
use sf_chunk_map::Map;
use sf_types::{Blob, BlobList, Choice, List, Mem};
use sf_write_gather::value_contents;
use std::alloc::Global;

/// The contents that a due call flushes, in the order of its cuts, and for each the choice of its value.
#[derive(Drop)]
pub struct Cuts {
    pub contents: BlobList,
    pub choices: List<Choice>,
}

impl Cuts {
    // No cuts.
    fn new(alloc: Global) -> Cuts
        ensures contents { result.contents ≡ [] }
        ensures choices { result.choices ≡ [] }
    {
        Cuts {
            contents: List::new(alloc),
            choices: List::new(alloc),
        }
    }

    // Puts a content last.
    fn add(&mut self, content: Blob, choice: Choice) -> Mem<()>
        ensures contents { OnOk result (self.new.contents ≡ self.old.contents ++ content ∷ []) }
        ensures choices { OnOk result (self.new.choices ≡ self.old.choices ++ choice ∷ []) }
    {
        self.contents.push(content)?;
        self.choices.push(choice)
    }

    // Puts the contents of a value's fresh bytes last.
    fn add_value(&mut self, alloc: Global, value: &Map) -> Mem<()>
        ensures contents { OnOk result (self.new.contents ≡ self.old.contents ++ contents_of_value value.now) }
        ensures choices { OnOk result (self.new.choices ≡ self.old.choices ++ replicate (length (contents_of_value value.now)) value.now.choice) }
    {
        for content in value_contents(alloc, value)?.into_vec() {
            self.add(content, value.choice())?;
        }
        Ok(())
    }
}

/// The cuts of what a writing call writes. It costs in proportion to the result's fresh bytes and their pieces.
pub fn write_cuts(alloc: Global, written: &Written) -> Mem<Cuts>
    ensures { IfOk result (λ of. (options : Options) → cuts_with options of.contents of.choices ≡ cuts_of_value options written.now.map) }
{
    let mut cuts = Cuts::new(alloc);
    cuts.add_value(alloc, &written.map)?;
    Ok(cuts)
}

impl OwnPart {
    // Puts the cuts of the k-th working value last, where there is one.
    fn add_cuts(&self, k: usize, cuts: &mut Cuts) -> Mem<()>
        ensures contents { OnOk result (cuts.new.contents ≡ cuts.old.contents ++ option_map_or row_contents (slice_get self.now.held.part.working k) []) }
        ensures choices { OnOk result (cuts.new.choices ≡ cuts.old.choices ++ option_map_or row_choices (slice_get self.now.held.part.working k) []) }
    {
        match self.values.row(k) {
            Some((_, Some(map))) => cuts.add_value(self.alloc, map),
            _ => Ok(()),
        }
    }

    /// The cuts of what a Commit flushes, row by row. It costs in proportion to the fresh bytes of the working values and their
    /// pieces.
    pub fn commit_cuts(&self) -> Mem<Cuts>
        ensures { IfOk result (λ of. (options : Options) → cuts_with options of.contents of.choices ≡ cuts options self.now.held.part.working) }
    {
        let mut cuts = Cuts::new(self.alloc);
        for k in 0..self.values.row_count() {
            self.add_cuts(k, &mut cuts)?;
        }
        Ok(cuts)
    }
}
