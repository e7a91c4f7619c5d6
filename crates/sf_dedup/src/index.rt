//! The index of shared contents, by digest and by birth.
ghost use Rattle.std.specs.Prelude.{◌≡◌, ◌+◌, ◌-◌, ◌≤◌, [], length, true, vec_capacity, vec_len, None, IfOk, IfSome, IfNone, OnOk};
ghost use Rattle.sf_types.specs.Rooms.{MakesRoom, GrowsWithin};
ghost use Rattle.sf_dedup.specs.Prints.{print_of};
ghost use Rattle.sf_dedup.specs.Contents.{content_at, birth_with, with_content, without_birth, has_content, AreDistinct};
ghost use Rattle.sf_dedup.specs.Inside.Filing.{NoneHas, firsts_with, others_with, firsts_without, others_without};

use crate::print::Print;
use sf_room_map::RoomMap;
use sf_types::{Blob, Mem, Sum};
use std::alloc::Global;
use std::marker::Model;

/// A content with its print.
#[derive(Drop)]
pub struct IndexEntry {
    print: Print,
    content: Blob,
}

/// Contents by birth, no two of them equal, with room for more. They are found by digest first: the first birth that came
/// with a digest stands under it, and births whose digest was taken stand in a list of their own.
#[derive(Drop)]
pub struct Index {
    contents: RoomMap<u128, IndexEntry>,
    firsts: RoomMap<Sum, u128>,
    others: Vec<u128>,
}

impl Model for Index {
    ghost use Rattle.std.specs.Prelude.{◌-◌, min, vec_capacity, vec_len};
    ghost use Rattle.sf_types.specs.Rooms.{Roomy};
    ghost use Rattle.sf_dedup.specs.Contents.{Contents};
    ghost use Rattle.sf_dedup.specs.Inside.Filing.{plain_contents, IsFiled};

    ghost Value = { Roomy Contents };

    ghost view = { λ i. record {
      held = plain_contents i.contents.held;
      spare = min (min i.contents.spare i.firsts.spare) (vec_capacity i.others - vec_len i.others);
    } };

    ghost invariant = { λ i. IsFiled i.contents.held i.firsts.held i.others.items };
}

// Puts a birth under its digest, or with the others where the digest is taken. It takes no memory.
fn file(firsts: &mut RoomMap<Sum, u128>, others: &mut Vec<u128>, sum: Sum, birth: u128)
    requires firsts { 1 ≤ firsts.old.spare }
    requires others { 1 ≤ vec_capacity others.old - vec_len others.old }
    ensures firsts { firsts.new.held ≡ firsts_with firsts.old.held sum birth }
    ensures others { others.new.items ≡ others_with firsts.old.held others.old.items sum birth }
    ensures firsts_spare { firsts.old.spare ≤ firsts.new.spare + 1 }
    ensures others_spare { vec_capacity others.old - vec_len others.old ≤ (vec_capacity others.new - vec_len others.new) + 1 }
{
    if firsts.contains_key(&sum) {
        others.push_reserved(birth);
    } else {
        firsts.insert_within(sum, birth);
    }
}

// Takes a birth out that has this digest. It takes no memory.
fn unfile(firsts: &mut RoomMap<Sum, u128>, others: &mut Vec<u128>, sum: Sum, birth: u128)
    ensures firsts { firsts.new.held ≡ firsts_without firsts.old.held sum birth }
    ensures others { others.new.items ≡ others_without others.old.items birth }
    ensures firsts_spare { firsts.old.spare ≤ firsts.new.spare }
    ensures others_spare { vec_capacity others.old - vec_len others.old ≤ vec_capacity others.new - vec_len others.new }
{
    others.retain(|other| *other != birth);
    if firsts.get(&sum) == Some(&birth) {
        firsts.remove(&sum);
    }
}

impl Index {
    /// No contents.
    pub fn new(alloc: Global) -> Mem<Index>
        ensures { IfOk result (λ index. index.held ≡ []) }
    {
        Ok(Index {
            contents: RoomMap::new(alloc),
            firsts: RoomMap::new(alloc),
            others: Vec::new(alloc),
        })
    }

    /// Makes room for so many contents more, which `add` then takes without memory.
    pub fn make_room(&mut self, contents: u64) -> Mem<()>
        ensures { MakesRoom self.old self.new contents result }
    {
        self.contents.make_room(contents)?;
        self.firsts.make_room(contents)?;
        self.others.reserve(contents as usize)?;
        Ok(())
    }

    /// The number of contents.
    pub fn len(&self) -> usize
        ensures len { result ≡ length self.now.held }
        ensures distinct { AreDistinct self.now.held }
    {
        self.contents.len()
    }

    // Whether a birth has these bytes.
    fn has_content(&self, birth: u128, content: &Blob) -> bool
        ensures { result ≡ has_content self.now.held birth content.now }
    {
        match self.contents.get(&birth) {
            Some(entry) => entry.content == *content,
            None => false,
        }
    }

    // The first of some births that has these bytes.
    fn find_among(&self, births: &[u128], content: &Blob) -> Option<u128>
        ensures found { IfSome result (λ birth. has_content self.now.held birth content.now ≡ true) }
        ensures none { IfNone result (NoneHas self.now.held births.now content.now) }
    {
        for birth in births {
            if self.has_content(*birth, content) {
                return Some(*birth);
            }
        }
        None
    }

    /// The birth that has these bytes, whose print is given. None exactly where no birth has them. It takes a step of each map
    /// and one comparison, and one more for each birth whose digest was taken when it came.
    pub fn find(&self, print: &Print, content: &Blob) -> Option<u128>
        requires { print.now ≡ print_of content.now }
        ensures { result ≡ birth_with self.now.held content.now }
    {
        match self.firsts.get(&print.sum) {
            Some(birth) if self.has_content(*birth, content) => Some(*birth),
            _ => self.find_among(self.others.as_slice(), content),
        }
    }

    /// Puts a content under a new birth, which no birth has yet. After want of memory nothing has changed.
    pub fn add(&mut self, birth: u128, print: Print, content: Blob) -> Mem<()>
        requires print { print ≡ print_of content }
        requires birth { content_at self.old.held birth ≡ None }
        requires content { birth_with self.old.held content ≡ None }
        ensures held { OnOk result (self.new.held ≡ with_content self.old.held birth content) }
        ensures room { GrowsWithin self.old self.new 1 1 result }
    {
        self.make_room(1)?;
        file(&mut self.firsts, &mut self.others, print.sum, birth);
        self.contents
            .insert_within(birth, IndexEntry { print, content });
        Ok(())
    }

    /// Takes a birth out, where it is there. It takes no memory.
    pub fn remove(&mut self, birth: u128)
        ensures held { self.new.held ≡ without_birth self.old.held birth }
        ensures spare { self.old.spare ≤ self.new.spare }
    {
        let Some(entry) = self.contents.get(&birth) else {
            return;
        };
        let sum = entry.print.sum;
        unfile(&mut self.firsts, &mut self.others, sum, birth);
        self.contents.remove(&birth);
    }
}
