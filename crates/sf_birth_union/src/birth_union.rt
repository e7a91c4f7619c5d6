//! A collection of births that is sorted when it is whole.
ghost use Rattle.std.specs.Prelude.{◌≡◌, ◌++◌, [], IfOk, OnOk, OnErr};
ghost use Rattle.sf_types.specs.Inside.Births.{IsRising, rising_births};

use sf_types::{Births, Mem};
use std::alloc::Global;
use std::marker::Model;

/// Births of many values, put together, seen as the list of all that were added, in order and as often as they were added.
#[derive(Drop)]
pub struct BirthUnion {
    births: Vec<u128>,
}

impl Model for BirthUnion {
    ghost use Rattle.std.specs.Prelude.{ℕ, List};

    ghost Value = { List ℕ };

    ghost view = { λ union. union.births.items };
}

// Sorts births, and leaves each of them once. Lists that rise one behind the other are merged.
fn sort(births: &mut Vec<u128>) -> Mem<()>
    ensures births { OnOk result (births.new.items ≡ rising_births births.old.items) }
    ensures rising { OnOk result (IsRising births.new.items) }
{
    births.sort()?;
    births.dedup();
    Ok(())
}

// The list of births that rise.
fn listed(alloc: Global, rising: &[u128]) -> Mem<Births>
    requires { IsRising rising.now }
    ensures { IfOk result (λ births. births ≡ rising.now) }
{
    let mut births = Births::new(alloc);
    for birth in rising {
        births.push(*birth)?;
    }
    Ok(births)
}

impl BirthUnion {
    /// No births. It takes no memory.
    pub fn new(alloc: Global) -> BirthUnion
        ensures { result ≡ [] }
    {
        BirthUnion {
            births: Vec::new(alloc),
        }
    }

    /// Adds births. After want of memory none is added.
    pub fn add(&mut self, births: &Births) -> Mem<()>
        ensures ok { OnOk result (self.new ≡ self.old ++ births.now) }
        ensures err { OnErr result (self.new ≡ self.old) }
    {
        self.births.extend_from_slice(births.as_slice())?;
        Ok(())
    }

    /// The births that were added, rising, each once.
    pub fn into_births(self) -> Mem<Births>
        ensures { IfOk result (λ births. births ≡ rising_births self) }
    {
        let BirthUnion { mut births } = self;
        sort(&mut births)?;
        listed(*births.allocator(), births.as_slice())
    }
}
