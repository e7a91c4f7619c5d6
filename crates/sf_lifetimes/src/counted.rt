//! Places with the number of their holders, and what becomes of one.
ghost use Rattle.std.specs.Prelude.{◌≡◌, ◌+◌, ◌-◌, ◌^◌, min, Some};
ghost use Rattle.std.specs.Option.{option_copied};
ghost use Rattle.sf_lifetimes.specs.Inside.Counts.{live_runs};

use sf_room_map::Exchange;
use sf_types::ContentRuns;
use std::mem;

/// A place and the number of its holders.
#[derive(Drop)]
pub struct Counted {
    pub runs: ContentRuns,
    pub holders: u64,
}

// The runs of a place that some holder holds.
pub fn runs_if_held(counted: &Counted) -> Option<&ContentRuns>
    ensures { option_copied result ≡ live_runs (Some counted.now) }
{
    if counted.holders == 0 {
        None
    } else {
        Some(&counted.runs)
    }
}

// One holder more of a place, and how many it had before.
#[derive(Drop)]
pub struct OneMore {
    pub before: u64,
}

impl Exchange<Counted> for OneMore {
    ghost given = { λ more counted. record { runs = counted.runs; holders = min (counted.holders + 1) (2 ^ 64 - 1) } };

    ghost taken = { λ more counted. record { before = counted.holders } };

    fn exchange(&mut self, counted: &mut Counted) {
        self.before = counted.holders;
        counted.holders = counted.holders.saturating_add(1);
    }
}

// One holder fewer of a place.
#[derive(Drop)]
pub struct OneFewer;

impl Exchange<Counted> for OneFewer {
    ghost given = { λ fewer counted. record { runs = counted.runs; holders = counted.holders - 1 } };

    ghost taken = { λ fewer counted. fewer };

    fn exchange(&mut self, counted: &mut Counted) {
        counted.holders = counted.holders.saturating_sub(1);
    }
}

// Runs that a place has from now on, in place of its own.
#[derive(Drop)]
pub struct NewRuns {
    pub runs: ContentRuns,
}

impl Exchange<Counted> for NewRuns {
    ghost given = { λ new counted. record { runs = new.runs; holders = counted.holders } };

    ghost taken = { λ new counted. record { runs = counted.runs } };

    fn exchange(&mut self, counted: &mut Counted) {
        mem::swap(&mut self.runs, &mut counted.runs);
    }
}
