//! Draws.
ghost use Rattle.std.specs.Prelude.{◌≡◌, ◌<◌, ◌≤◌};
ghost use Rattle.sf_script_generate.specs.Draws.{next_number, draw};

/// The multiplier of the generator.
pub const MULTIPLIER: u64 = 6_364_136_223_846_793_005;

/// The increment of the generator.
pub const INCREMENT: u64 = 1_442_695_040_888_963_407;

// One more than the greatest number of the generator.
const MODULUS: u128 = 18_446_744_073_709_551_616;

// What a draw divides the generator's number by, 2^33.
const HIDDEN: u64 = 8_589_934_592;

// The generator's number after a draw.
#[tactic(auto, unfolding(crate::specs::Draws::next_number))]
fn next_number(number: u64) -> u64
    ensures { result ≡ next_number number }
{
    let next = u128::from(number) * u128::from(MULTIPLIER) + u128::from(INCREMENT);
    (next % MODULUS) as u64
}

// A draw of a number below a bound, and the generator's number after it.
#[tactic(auto, unfolding(crate::specs::Draws::draw))]
pub fn draw(bound: u64, number: u64) -> (u64, u64)
    requires { 1 ≤ bound }
    ensures drawn { result ≡ draw bound number }
    ensures below { result.0 < bound }
{
    let next = next_number(number);
    (next / HIDDEN % bound, next)
}
