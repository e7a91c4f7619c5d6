//! Births: the numbers of the contents that were given out.
ghost use Rattle.std.specs.Prelude.{◌≡◌, ◌++◌, ◌∷◌, [], OnOk, OnErr};
ghost use Rattle.sf_types.specs.Inside.Births.{IsAboveAll, IsRising};

use crate::copy::TryCopy;
use crate::memory::Mem;
use std::alloc::Global;
use std::marker::Model;

/// Births in rising order, seen as their list.
#[derive(Debug, Drop)]
pub struct Births {
    births: Vec<u128>,
}

impl Model for Births {
    ghost use Rattle.std.specs.Prelude.{ℕ, List};
    ghost use Rattle.sf_types.specs.Inside.Births.{IsRising};

    ghost Value = { List ℕ };

    ghost view = { λ b. b.births.items };

    ghost invariant = { λ b. IsRising b.births.items };
}

impl Births {
    /// No births. It takes no memory.
    pub fn new(alloc: Global) -> Births
        ensures { result ≡ [] }
    {
        Births {
            births: Vec::new(alloc),
        }
    }

    /// Puts a birth last, which is greater than all before.
    pub fn push(&mut self, birth: u128) -> Mem<()>
        requires { IsAboveAll birth self.old }
        ensures ok { OnOk result (self.new ≡ self.old ++ birth ∷ []) }
        ensures err { OnErr result (self.new ≡ self.old) }
    {
        self.births.push(birth)?;
        Ok(())
    }

    /// The births.
    pub fn as_slice(&self) -> &[u128]
        ensures births { result.now ≡ self.now }
        ensures rising { IsRising self.now }
    {
        self.births.as_slice()
    }
}

impl TryCopy for Births {
    fn copy(&self) -> Mem<Births> {
        let births = Vec::from_slice(*self.births.allocator(), self.births.as_slice())?;
        Ok(Births { births })
    }
}
