//! Standing promises.
ghost use Rattle.std.specs.Prelude.{◌≡◌, IfOk};
ghost use Rattle.std.specs.Option.{option_copied};

use sf_types::{Births, Call, Mem, TryCopy};
use std::marker::Model;

/// A standing promise, seen as that of the rules: the call for which it stands, its blocks, and the births that it found.
#[derive(Drop)]
pub struct Promise {
    pub call: Call,
    pub blocks: u64,
    pub births: Births,
}

impl Model for Promise {
    ghost use Rattle.sf_types.specs.Table.Parts.{Promise as TablePromise};

    ghost Value = { TablePromise };

    ghost view = { λ q. record { call = q.call; blocks = q.blocks; births = q.births } };
}

impl TryCopy for Promise {
    fn copy(&self) -> Mem<Promise> {
        Ok(Promise {
            call: self.call.copy()?,
            blocks: self.blocks,
            births: self.births.copy()?,
        })
    }
}

/// A copy of a promise, where there is one.
pub fn copied_promise(promise: Option<&Promise>) -> Mem<Option<Promise>>
    ensures { IfOk result (λ copied. copied ≡ option_copied promise.entry) }
{
    match promise {
        Some(promise) => Ok(Some(promise.copy()?)),
        None => Ok(None),
    }
}
