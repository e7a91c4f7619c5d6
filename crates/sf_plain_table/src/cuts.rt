//! How the fresh bytes of values are cut into contents.
ghost use Rattle.std.specs.Prelude.{◌≡◌, ◌++◌, ◌∷◌, [], flat_map, IfOk, OnOk};
ghost use Rattle.std.specs.Option.{option_copied, option_map_or};
ghost use Rattle.sf_types.specs.Space.Contents.{blocks_of, contents_of_stretch};
ghost use Rattle.sf_types.specs.Space.Cuts.{contents_of_segment, contents_of_value, is_sharing, cuts_of_value, cuts};

use crate::edits::{behind, front};
use crate::results::bytes_in;
use crate::rows::Rows;
use crate::segments::{Segment, segments_of};
use crate::value::Value;
use sf_types::{BLOCK_BYTES, Blob, CONTENT_BYTES, Choice, Mem, Options, TryCopy};
use std::alloc::Global;
use std::collections::VecDeque;
use std::marker::Model;

/// A cut, seen as that of the rules: the bytes of a content, and whether it may be shared.
#[derive(Drop)]
pub struct Cut {
    pub bytes: Blob,
    pub is_sharing: bool,
}

impl Model for Cut {
    ghost use Rattle.sf_types.specs.Space.Cuts.{Cut as RulesCut};

    ghost Value = { RulesCut };

    ghost view = { λ cut. record { bytes = cut.bytes; is_sharing = cut.is_sharing } };
}

/// How many blocks a content of so many bytes takes.
pub fn blocks_of(size: u64) -> u64
    ensures { result ≡ blocks_of size }
{
    size.div_ceil(BLOCK_BYTES)
}

// Puts the contents of a stretch of fresh bytes behind others.
fn push_contents(alloc: Global, stretch: &[u8], contents: &mut Vec<Blob>) -> Mem<()>
    ensures { OnOk result (contents.new.items ≡ contents.old.items ++ contents_of_stretch stretch.now) }
{
    let count = (stretch.len() as u64).div_ceil(CONTENT_BYTES);
    let mut rest = stretch;
    for _ in 0..count {
        contents.push(Blob::new(alloc, front(rest, CONTENT_BYTES))?)?;
        rest = behind(rest, CONTENT_BYTES);
    }
    Ok(())
}

/// The contents that a segment makes.
pub fn contents_of_segment(alloc: Global, segment: &Segment) -> Mem<Vec<Blob>>
    ensures { IfOk result (λ contents. contents.items ≡ contents_of_segment segment.now) }
{
    let mut contents = Vec::new(alloc);
    if segment.is_stretch() {
        push_contents(alloc, &segment.bytes(alloc)?, &mut contents)?;
    }
    Ok(contents)
}

// Puts the contents of segments behind one another.
fn contents_of_segments(alloc: Global, mut segments: VecDeque<Segment>) -> Mem<Vec<Blob>>
    ensures { IfOk result (λ contents. contents.items ≡ flat_map contents_of_segment segments.items) }
{
    let mut contents = Vec::new(alloc);
    while let Some(segment) = segments.pop_front() {
        contents.append(&mut contents_of_segment(alloc, &segment)?)?;
    }
    Ok(contents)
}

/// The contents that the fresh bytes of a value make, from front to end.
pub fn contents_of_value(alloc: Global, value: &Value) -> Mem<Vec<Blob>>
    ensures { IfOk result (λ contents. contents.items ≡ contents_of_value value.now) }
{
    contents_of_segments(alloc, segments_of(alloc, &value.bytes)?)
}

// Whether the cuts of a value with this choice are sharing.
fn is_sharing(options: &Options, choice: Choice) -> bool
    ensures { result ≡ is_sharing options.now choice }
{
    match choice {
        Choice::Standard => options.dedup,
        Choice::Share => true,
        Choice::Keep => false,
    }
}

// The cuts of one value.
fn cuts_of_value(alloc: Global, options: &Options, value: &Value) -> Mem<Vec<Cut>>
    ensures { IfOk result (λ made. made.items ≡ cuts_of_value options.now value.now) }
{
    let is_sharing = is_sharing(options, value.choice);
    let contents = contents_of_value(alloc, value)?;
    let mut made = Vec::new(alloc);
    for content in &contents {
        made.push(Cut {
            bytes: content.copy()?,
            is_sharing,
        })?;
    }
    Ok(made)
}

// The cuts of a row's value, and none of an absent row.
fn cuts_of_row(alloc: Global, options: &Options, value: Option<&Value>) -> Mem<Vec<Cut>>
    ensures { IfOk result (λ made. made.items ≡ option_map_or (cuts_of_value options.now) (option_copied value.entry) []) }
{
    match value {
        Some(value) => cuts_of_value(alloc, options, value),
        None => Ok(Vec::new(alloc)),
    }
}

/// The cuts of rows, row by row in byte order of names.
pub fn cuts(alloc: Global, options: &Options, rows: &Rows) -> Mem<Vec<Cut>>
    ensures { IfOk result (λ made. made.items ≡ cuts options.now rows.now) }
{
    let mut made = Vec::new(alloc);
    for (_, state) in rows.as_map() {
        made.append(&mut cuts_of_row(alloc, options, state.value())?)?;
    }
    Ok(made)
}
