//! The floor that a number of retained commits gives.
ghost use Rattle.std.specs.Prelude.{◌≡◌, ◌-◌};

/// The first commit that stays after `now` commits where so many are retained, or 0 where there are fewer.
pub fn horizon(now: u64, retention: u32) -> u64
    ensures { result ≡ now - retention }
{
    now.saturating_sub(u64::from(retention))
}
