//! How many bytes of each birth a value has.
ghost use Rattle.std.specs.Prelude.{◌≡◌, ◌+◌, ◌<◌, ◌≤◌, ◌^◌, ◌==◌, ℕ, [], cond, Some, OnOk, IfOk};
ghost use Rattle.std.specs.Option.{option_copied};
ghost use Rattle.std.specs.Ordering.{nat_cmp};
ghost use Rattle.std.specs.Map.{keys_of};
ghost use Rattle.std.specs.List.Sorted.{IsStrictlySortedBy};
ghost use Rattle.sf_chunk_map.specs.Inside.Counts.{found_at, count_at, HasPlace, births_with_bytes};

use sf_types::{Births, Mem, TryCopy};
use std::alloc::Global;
use std::collections::BTreeMap;
use std::marker::Model;

/// How many bytes of each birth a value has, seen as the numbers by births. A birth may have a place and no byte.
#[derive(Drop)]
pub struct BirthCounts {
    counts: BTreeMap<u128, u64>,
    alloc: Global,
}

impl Model for BirthCounts {
    ghost use Rattle.sf_chunk_map.specs.Inside.Counts.{Counts};

    ghost Value = { Counts };

    ghost view = { λ c. c.counts.entries };
}

impl BirthCounts {
    // No births. It takes no memory.
    pub fn new(alloc: Global) -> BirthCounts
        ensures { result ≡ [] }
    {
        BirthCounts {
            counts: BTreeMap::new(alloc),
            alloc,
        }
    }

    // The allocator that the numbers were made with.
    pub fn allocator(&self) -> Global {
        self.alloc
    }

    // The number at a birth.
    fn found(&self, birth: u128) -> Option<u64>
        ensures { result ≡ found_at self.now birth }
    {
        match self.counts.get(&birth) {
            Some(bytes) => Some(*bytes),
            None => None,
        }
    }

    // Sets the number at a birth that has a place. It takes no memory.
    fn set(&mut self, birth: u128, bytes: u64)
        requires { HasPlace self.old birth }
        ensures { (b : ℕ) → found_at self.new b ≡ cond (birth == b) (Some bytes) (found_at self.old b) }
    {
        match self.counts.insert(birth, bytes) {
            Ok(_) => {}
            Err(_) => unreachable!(),
        }
    }

    // Makes a place for a birth, where it has none. No number changes, and no place is lost.
    pub fn make_place(&mut self, birth: u128) -> Mem<()>
        ensures counts { (b : ℕ) → count_at self.new b ≡ count_at self.old b }
        ensures place { OnOk result (HasPlace self.new birth) }
        ensures places { (b : ℕ) → HasPlace self.old b → HasPlace self.new b }
    {
        match self.found(birth) {
            Some(_) => Ok(()),
            None => {
                self.counts.insert(birth, 0)?;
                Ok(())
            }
        }
    }

    // So many bytes more of a birth that has a place. It takes no memory.
    pub fn raise(&mut self, birth: u128, bytes: u64)
        requires place { HasPlace self.old birth }
        requires few { count_at self.old birth + bytes < 2 ^ 64 }
        ensures counts { (b : ℕ) → count_at self.new b ≡ count_at self.old b + cond (birth == b) bytes 0 }
        ensures places { (b : ℕ) → HasPlace self.old b → HasPlace self.new b }
    {
        let count = self.found(birth).unwrap_or(0);
        self.set(birth, count + bytes);
    }

    // So many bytes fewer of a birth. A birth without a byte loses its place. It takes no memory.
    pub fn lower(&mut self, birth: u128, bytes: u64)
        requires { bytes ≤ count_at self.old birth }
        ensures { (b : ℕ) → count_at self.new b + cond (birth == b) bytes 0 ≡ count_at self.old b }
    {
        let count = self.found(birth).unwrap_or(0);
        if count > bytes {
            self.set(birth, count - bytes);
        } else {
            self.counts.remove(&birth);
        }
    }

    // The births that have a byte, rising.
    pub fn births(&self) -> Mem<Births>
        ensures births { IfOk result (λ births. births ≡ births_with_bytes self.now) }
        ensures ordered { IsStrictlySortedBy nat_cmp (keys_of self.now) }
    {
        let _len = self.counts.len();
        let mut births = Births::new(self.alloc);
        for (birth, bytes) in &self.counts {
            if *bytes > 0 {
                births.push(*birth)?;
            }
        }
        Ok(births)
    }
}

impl TryCopy for BirthCounts {
    fn copy(&self) -> Mem<BirthCounts> {
        Ok(BirthCounts {
            counts: self.counts.clone()?,
            alloc: self.alloc,
        })
    }
}
