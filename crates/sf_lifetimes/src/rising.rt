//! Rising lists of births that are looked through beside each other.
ghost use Rattle.std.specs.Prelude.{◌≡◌, ◌≤◌, length};
ghost use Rattle.sf_types.specs.Inside.Births.{IsRising};
ghost use Rattle.sf_lifetimes.specs.Ledgers.{has_birth};
ghost use Rattle.sf_lifetimes.specs.Inside.Places.{AreBelow, IsPlaceOf};

// Where a birth stands in a list or would go, from a place on before which all births are less.
pub fn place_from(births: &[u128], from: usize, birth: u128) -> usize
    requires within { from ≤ length births.now }
    requires below { AreBelow births.now from birth }
    ensures { IsPlaceOf births.now result birth }
{
    let mut at = from;
    while at < births.len() && births[at] < birth {
        at += 1;
    }
    at
}

// Whether a birth stands in a rising list where it would go.
pub fn stands_at(births: &[u128], at: usize, birth: u128) -> bool
    requires rising { IsRising births.now }
    requires place { IsPlaceOf births.now at birth }
    ensures { result ≡ has_birth births.now birth }
{
    at < births.len() && births[at] == birth
}
