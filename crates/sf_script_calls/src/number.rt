//! Numbers in decimal.
ghost use Rattle.std.specs.Prelude.{◌≡◌, ◌+◌, ◌-◌, ◌*◌, ◌^◌, ◌&&◌, nat_lt, Some, None, if◌then◌else◌};
ghost use Rattle.sf_script_calls.specs.Numbers.{is_digit, has_leading_zero, value_after, number_of};
ghost use Rattle.std.specs.List.{list_all};

// Whether a byte is a digit.
pub fn is_digit(byte: u8) -> bool
    ensures { result ≡ is_digit byte }
{
    matches!(byte, b'0'..=b'9')
}

// Whether more digits follow a leading zero.
fn has_leading_zero(text: &[u8]) -> bool
    ensures { result ≡ has_leading_zero text.now }
{
    match text {
        [digit, _, ..] => *digit == b'0',
        _ => false,
    }
}

// The number with one more digit. None where the byte is no digit or the number too large.
fn with_digit(number: u64, byte: u8) -> Option<u64>
    ensures { result ≡ (if is_digit byte && nat_lt (number * 10 + (byte - 48)) (2 ^ 64) then Some (number * 10 + (byte - 48)) else None) }
{
    if !is_digit(byte) {
        return None;
    }
    let digit = u64::from(byte - b'0');
    match number.checked_mul(10) {
        Some(tens) => tens.checked_add(digit),
        None => None,
    }
}

// The number that digits spell. None where a byte is no digit or the number too large.
fn decimal(text: &[u8]) -> Option<u64>
    ensures { result ≡ (if list_all is_digit text.now && nat_lt (value_after 0 text.now) (2 ^ 64) then Some (value_after 0 text.now) else None) }
{
    let mut number: u64 = 0;
    let mut rest = text;
    while let [byte, after @ ..] = rest {
        match with_digit(number, *byte) {
            Some(next) => number = next,
            None => return None,
        }
        rest = after;
    }
    Some(number)
}

/// The number of a text: `0`, or digits without a leading zero, below 2^64.
#[tactic(auto, unfolding(crate::specs::Numbers::number_of))]
pub fn number_of(text: &[u8]) -> Option<u64>
    ensures { result ≡ number_of text.now }
{
    if text.is_empty() || has_leading_zero(text) {
        None
    } else {
        decimal(text)
    }
}
