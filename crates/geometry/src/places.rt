// The pixel of a place.
ghost use Rattle.std.specs.Prelude.{◌≡◌, ◌≤◌, pos, ◌-ℤ◌, unsigned_abs};
ghost use Rattle.geometry.specs.Places.{place, pixel_of, point_pixel};

use crate::field::{Point, Side};

// The column of a coordinate x, which is also how many pixels lie below a coordinate y.
fn column(side: Side, v: i32) -> i32
    ensures value { result ≡ place side.pixels v }
    ensures small { unsigned_abs result ≤ 268435456 }
{
    ((v as i64 + 16384) * side.pixels() as i64).div_euclid(32768) as i32
}

// The row of a coordinate y; row 0 is at the top.
fn row(side: Side, y: i32) -> i32
    ensures { result ≡ pos side.pixels -ℤ pos 1 -ℤ place side.pixels y }
{
    side.pixels() as i32 - 1 - column(side, y)
}

// The column and the row of the pixel of a place, which may lie off the field: two signed numbers, as the project fixes.
pub fn pixel(side: Side, x: i32, y: i32) -> (i32, i32)
    ensures { result ≡ pixel_of side.pixels x y }
{
    (column(side, x), row(side, y))
}

// The pixel of a point of the field.
pub fn pixel_of(side: Side, point: Point) -> (i32, i32)
    ensures { result ≡ point_pixel side.pixels point }
{
    pixel(side, point.x as i32, point.y as i32)
}
