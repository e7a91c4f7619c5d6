//! Segments of marked bytes.
ghost use Rattle.std.specs.Prelude.{◌≡◌, true, false, List, [], ◌∷◌, IfOk, OnOk, if◌then◌else◌};
ghost use Rattle.sf_types.specs.Values.Marks.{is_fresh};
ghost use Rattle.sf_types.specs.Space.Cuts.{Segment as RulesSegment, Kept, Stretch, with_byte_before, segments_of};
ghost use Rattle.sf_plain_table.specs.Inside.SegmentViews.{is_stretch};

use crate::marked::Marked;
use sf_types::Mem;
use std::alloc::Global;
use std::collections::VecDeque;
use std::marker::Model;

/// A stretch of fresh bytes, or bytes none of which is fresh, seen as the rules' segment.
#[derive(Drop)]
pub struct Segment {
    is_fresh: bool,
    bytes: VecDeque<Marked>,
}

impl Model for Segment {
    ghost use Rattle.sf_types.specs.Space.Cuts.{Segment as RulesSegment};
    ghost use Rattle.sf_plain_table.specs.Inside.SegmentViews.{segment_of};

    ghost Value = { RulesSegment };

    ghost view = { λ s. segment_of s.is_fresh s.bytes.items };
}

impl Segment {
    // The segment of one byte.
    fn one(alloc: Global, m: Marked) -> Mem<Segment>
        ensures { IfOk result (λ segment. segment ≡ (if is_fresh m then Stretch (m.byte ∷ []) else Kept (m ∷ []))) }
    {
        let mut bytes = VecDeque::new(alloc);
        bytes.push_front(m)?;
        Ok(Segment {
            is_fresh: m.is_fresh(),
            bytes,
        })
    }

    /// Whether it is a stretch of fresh bytes.
    pub fn is_stretch(&self) -> bool
        ensures { result ≡ is_stretch self.now }
    {
        self.is_fresh
    }

    /// The bytes, without their marks where they are fresh.
    pub fn bytes(&self, alloc: Global) -> Mem<Vec<u8>>
        requires { is_stretch self.now ≡ true }
        ensures { IfOk result (λ bytes. Stretch bytes.items ≡ self.now) }
    {
        let mut bytes = Vec::new(alloc);
        for m in self.bytes.iter() {
            bytes.push(m.byte)?;
        }
        Ok(bytes)
    }

    /// The bytes with their marks, where none is fresh.
    pub fn marked(&self, alloc: Global) -> Mem<Vec<Marked>>
        requires { is_stretch self.now ≡ false }
        ensures { IfOk result (λ bytes. Kept bytes.items ≡ self.now) }
    {
        let mut bytes = Vec::new(alloc);
        for m in self.bytes.iter() {
            bytes.push(*m)?;
        }
        Ok(bytes)
    }

    // The segment with one byte more at its front, which is fresh exactly where the others are.
    fn with_byte(mut self, m: Marked) -> Mem<Segment>
        requires { is_stretch self ≡ is_fresh m }
        ensures { IfOk result (λ segment. (rest : List RulesSegment) → with_byte_before m (self ∷ rest) ≡ segment ∷ rest) }
    {
        self.bytes.push_front(m)?;
        Ok(self)
    }
}

// Puts a segment of one byte before others.
fn put_one(alloc: Global, m: Marked, segments: &mut VecDeque<Segment>) -> Mem<()>
    ensures { OnOk result (segments.new.items ≡ (if is_fresh m then Stretch (m.byte ∷ []) else Kept (m ∷ [])) ∷ segments.old.items) }
{
    segments.push_front(Segment::one(alloc, m)?)?;
    Ok(())
}

// Puts a byte before some segments: it joins the first of them where both are fresh, or neither is.
fn put_before(alloc: Global, m: Marked, segments: &mut VecDeque<Segment>) -> Mem<()>
    ensures { OnOk result (segments.new.items ≡ with_byte_before m segments.old.items) }
{
    let Some(first) = segments.pop_front() else {
        return put_one(alloc, m, segments);
    };
    if first.is_stretch() == m.is_fresh() {
        segments.push_front(first.with_byte(m)?)?;
        return Ok(());
    }
    segments.push_front(first)?;
    put_one(alloc, m, segments)
}

/// The segments of marked bytes, from front to end.
pub fn segments_of(alloc: Global, bytes: &[Marked]) -> Mem<VecDeque<Segment>>
    ensures { IfOk result (λ segments. segments.items ≡ segments_of bytes.now) }
{
    let mut segments = VecDeque::new(alloc);
    let mut left = bytes.len();
    while left > 0 {
        left -= 1;
        put_before(alloc, bytes[left], &mut segments)?;
    }
    Ok(segments)
}
