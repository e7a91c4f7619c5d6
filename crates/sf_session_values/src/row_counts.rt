//! How often births stand in the lists of rows.
ghost use Rattle.std.specs.Prelude.{◌≡◌, ◌+◌, ◌≤◌, ◌==◌, ℕ, [], cond, Some, IfOk, OnOk, OnErr};
ghost use Rattle.std.specs.Ordering.{nat_cmp};
ghost use Rattle.std.specs.Map.{keys_of};
ghost use Rattle.std.specs.List.Sorted.{IsStrictlySortedBy};
ghost use Rattle.sf_chunk_map.specs.Inside.Counts.{HasPlace, births_with_bytes, count_at, found_at};
ghost use Rattle.sf_session_values.specs.Inside.Counting.{times};

use sf_types::{Births, Mem, OutOfMemory, TryCopy};
use std::alloc::Global;
use std::collections::BTreeMap;
use std::marker::Model;

/// How often each birth stands in some lists, seen as the numbers by births.
#[derive(Drop)]
pub struct RowCounts {
    counts: BTreeMap<u128, u64>,
    alloc: Global,
}

impl Model for RowCounts {
    ghost use Rattle.sf_chunk_map.specs.Inside.Counts.{Counts};

    ghost Value = { Counts };

    ghost view = { λ c. c.counts.entries };
}

impl RowCounts {
    // No births. It takes no memory.
    pub fn new(alloc: Global) -> RowCounts
        ensures { result ≡ [] }
    {
        RowCounts {
            counts: BTreeMap::new(alloc),
            alloc,
        }
    }

    // The number at a birth.
    fn found(&self, birth: u128) -> Option<u64>
        ensures { result ≡ found_at self.now birth }
    {
        match self.counts.get(&birth) {
            Some(number) => Some(*number),
            None => None,
        }
    }

    // Sets the number at a birth that has a place. It takes no memory.
    fn set(&mut self, birth: u128, number: u64)
        requires { HasPlace self.old birth }
        ensures { (b : ℕ) → found_at self.new b ≡ cond (birth == b) (Some number) (found_at self.old b) }
    {
        match self.counts.insert(birth, number) {
            Ok(_) => {}
            Err(_) => unreachable!(),
        }
    }

    // Counts a birth once more. After want of memory, as which the number 2^64 is answered, nothing has changed.
    fn raise_one(&mut self, birth: u128) -> Mem<()>
        ensures ok { OnOk result ((b : ℕ) → count_at self.new b ≡ count_at self.old b + cond (birth == b) 1 0) }
        ensures err { OnErr result ((b : ℕ) → count_at self.new b ≡ count_at self.old b) }
    {
        let number = self.found(birth).unwrap_or(0);
        let Some(more) = number.checked_add(1) else {
            return Err(OutOfMemory);
        };
        self.counts.insert(birth, more)?;
        Ok(())
    }

    // Counts a birth once less. It takes no memory.
    fn lower_one(&mut self, birth: u128)
        requires { 1 ≤ count_at self.old birth }
        ensures { (b : ℕ) → count_at self.new b + cond (birth == b) 1 0 ≡ count_at self.old b }
    {
        let number = self.found(birth).unwrap_or(0);
        if number > 1 {
            self.set(birth, number - 1);
        } else {
            self.counts.remove(&birth);
        }
    }

    // Takes births away that are counted. It takes no memory.
    pub fn lower(&mut self, births: &[u128])
        requires { (b : ℕ) → times b births.now ≤ count_at self.old b }
        ensures { (b : ℕ) → count_at self.new b + times b births.now ≡ count_at self.old b }
    {
        for at in 0..births.len() {
            self.lower_one(births[at]);
        }
    }

    // Counts births too. After want of memory the numbers are as before.
    pub fn raise(&mut self, births: &[u128]) -> Mem<()>
        ensures ok { OnOk result ((b : ℕ) → count_at self.new b ≡ count_at self.old b + times b births.now) }
        ensures err { OnErr result ((b : ℕ) → count_at self.new b ≡ count_at self.old b) }
    {
        for at in 0..births.len() {
            if let Err(error) = self.raise_one(births[at]) {
                self.lower(&births[..at]);
                return Err(error);
            }
        }
        Ok(())
    }

    // The births that are counted, rising.
    pub fn births(&self) -> Mem<Births>
        ensures births { IfOk result (λ births. births ≡ births_with_bytes self.now) }
        ensures ordered { IsStrictlySortedBy nat_cmp (keys_of self.now) }
    {
        let _len = self.counts.len();
        let mut births = Births::new(self.alloc);
        for (birth, number) in &self.counts {
            if *number > 0 {
                births.push(*birth)?;
            }
        }
        Ok(births)
    }
}

impl TryCopy for RowCounts {
    fn copy(&self) -> Mem<RowCounts> {
        Ok(RowCounts {
            counts: self.counts.clone()?,
            alloc: self.alloc,
        })
    }
}
