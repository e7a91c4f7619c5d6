//! The options that were read so far.
ghost use Rattle.std.specs.Prelude.{◌≡◌, IsTrue};
ghost use Rattle.sf_types.specs.Limits.{IsInRange};
ghost use Rattle.sf_script.specs.OptionLines.{is_option_in_range};
ghost use Rattle.sf_script.specs.Reasons.{no_options, with_option_read};

use crate::option_line::{OptionLine, rank_of, with_option};
use sf_types::Options;
use std::marker::Model;

// The options that were read, each in its range, and the rank of the last that was set.
#[derive(Clone, Copy)]
pub struct OptionsRead {
    options: Options,
    rank: u8,
}

impl Model for OptionsRead {
    ghost use Rattle.sf_types.specs.Limits.{IsInRange};
    ghost use Rattle.sf_script.specs.OptionLines.{OptionParts};

    ghost Value = { OptionParts };

    ghost view = { λ o. record { options = o.options; rank = o.rank } };

    ghost invariant = { λ o. IsInRange o.options };

    ghost inverse = { λ o. record { options = o.options; rank = o.rank } };
}

impl OptionsRead {
    // The standard options, before any is set.
    pub fn new() -> OptionsRead
        ensures { result ≡ no_options }
    {
        OptionsRead {
            options: Options::standard(),
            rank: 0,
        }
    }

    // The options.
    pub fn options(self) -> Options
        ensures value { result ≡ self.options }
        ensures range { IsInRange result }
    {
        self.options
    }

    // The rank of the last option that was set, or 0.
    pub fn rank(self) -> u8
        ensures { result ≡ self.rank }
    {
        self.rank
    }

    // The options with one more set.
    pub fn with(self, option: OptionLine) -> OptionsRead
        requires { IsTrue (is_option_in_range option) }
        ensures { result ≡ with_option_read self option }
    {
        OptionsRead {
            options: with_option(self.options, option),
            rank: rank_of(option),
        }
    }
}
