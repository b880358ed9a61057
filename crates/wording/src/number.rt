// Numbers in decimal, in the one form in which a listing has them.
ghost use Rattle.std.specs.Prelude.{◌≡◌};
ghost use Rattle.wording.specs.Numerals.{is_short, number_in, value_in, coordinate_in, negated};

use crate::split::after;

// Whether the bytes are one, or two to five with no zero in front.
fn is_short(digits: &[u8]) -> bool
    ensures { result ≡ is_short digits.now }
{
    match digits {
        [] => false,
        [_] => true,
        [first, _, ..] => digits.len() <= 5 && *first != b'0',
    }
}

// The number that a text writes, if it is one; `parse` would take a `+` besides.
fn number_in(text: &[u8]) -> Option<u32>
    ensures { result ≡ number_in text.now }
{
    if !is_short(text) || text[0] == b'+' {
        return None;
    }
    str::from_utf8(text).ok()?.parse().ok()
}

// The value that a text writes, if it is one.
pub(crate) fn value_in(text: &[u8]) -> Option<u8>
    ensures { result ≡ value_in text.now }
{
    u8::try_from(number_in(text)?).ok()
}

// A number below 0, if it fits.
fn below_zero(number: u32) -> Option<i16>
    ensures { result ≡ negated number }
{
    match number {
        0 => None,
        _ => i16::try_from(-i64::from(number)).ok(),
    }
}

// The coordinate that a text writes, if it is one.
pub(crate) fn coordinate_in(text: &[u8]) -> Option<i16>
    ensures { result ≡ coordinate_in text.now }
{
    match after(b"-", text) {
        Some(digits) => below_zero(number_in(digits)?),
        None => i16::try_from(number_in(text)?).ok(),
    }
}
