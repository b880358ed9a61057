// Coordinates.
ghost use Rattle.std.specs.Prelude.{◌≡◌, ◌&&◌};
ghost use Rattle.statement.specs.Reading.{coordinate, lawful};

use crate::layout::Aim;

// The coordinate of two bytes, the high one first.
// (No function of four bytes for two of them: the reader built with one took a tenth over its old time on jobs of calls, not 7 percent.)
pub fn coordinate_of(high: u8, low: u8) -> i16
    ensures { result ≡ coordinate high low }
{
    i16::from_be_bytes([high, low])
}

// Whether a coordinate is lawful.
pub fn is_lawful(aim: Aim, v: i16) -> bool
    ensures { result ≡ lawful aim v }
{
    match aim {
        Aim::Absolute => (-16384..=16383).contains(&v),
        Aim::Relative => v != i16::MIN,
    }
}

// Whether both coordinates are lawful.
pub fn are_lawful(aim: Aim, x: i16, y: i16) -> bool
    ensures { result ≡ (lawful aim x && lawful aim y) }
{
    is_lawful(aim, x) && is_lawful(aim, y)
}
