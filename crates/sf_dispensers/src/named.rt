//! The name of a store.
use std::marker::Brand;

/// Which store it is: the identity of its words, its options and the number of its sessions. A program picks it by a call
/// that is handed the words (README).
pub trait Named {
    ghost use Rattle.std.specs.Prelude.{ℕ};
    ghost use Rattle.atomic_table.specs.Seated.{TableId};
    ghost use Rattle.sf_types.specs.declared.options.Options.{Options};

    ghost space: { TableId };

    ghost options: { Options };

    ghost sessions: { ℕ };
}

impl Named for Brand {
    ghost use Rattle.sf_types.specs.Limits.{standard_options};
    ghost use Rattle.sf_dispensers.specs.Inside.{no_table};

    ghost space = { no_table };

    ghost options = { standard_options };

    ghost sessions = { 0 };
}
