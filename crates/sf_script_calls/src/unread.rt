//! Why nothing was read.
use sf_types::OutOfMemory;

/// Why a text gave no call.
#[derive(Clone, Copy, Debug)]
pub enum Unread {
    /// Memory ran out.
    Memory,
    /// The text has no such form.
    NoForm,
}

impl From<OutOfMemory> for Unread {
    ghost use Rattle.std.specs.Prelude.{◌≡◌};
    ghost use Rattle.sf_script_calls.specs.declared.unread.Unread.TheVariants.{Memory};

    ghost from_gives = { λ _ unread. unread ≡ Memory };

    fn from(_error: OutOfMemory) -> Unread {
        Unread::Memory
    }
}
