// The points of a line.
ghost use Rattle.std.specs.Prelude.{◌≡◌, ◌+◌, ◌<◌, ◌≤◌, unsigned_abs};
ghost use Rattle.geometry.specs.Lines.{steps_of, rounded, along, point_of, Near};
ghost use Rattle.geometry.specs.Places.{point_pixel};

use crate::field::{Point, Side};
use crate::places::pixel_of;

// A line between the pixels of two points of the field.
#[derive(Clone, Copy, Debug, PartialEq, Eq)]
pub struct Line {
    from: (i32, i32),
    to: (i32, i32),
    steps: u32,
    ghost near: { Near from × Near to },
    ghost counted: { steps ≡ steps_of from to },
    ghost few: { steps ≤ 16384 },
}

// m / n, to the nearest whole number.
fn nearest(n: u32, m: i32) -> i32
    requires { (0 < n) × ((n ≤ 20000) × (unsigned_abs m ≤ 400000000)) }
    ensures value { result ≡ rounded n m }
    ensures small { unsigned_abs result ≤ 500000000 }
{
    (2 * m + n as i32).div_euclid(2 * n as i32)
}

// Where the k-th of n steps from a to c comes to, by division.
fn step_between(a: i32, c: i32, n: u32, k: u32) -> i32
    requires { (unsigned_abs a ≤ 8192) × ((unsigned_abs c ≤ 8192) × ((0 < n) × ((n ≤ 16384) × (k ≤ n)))) }
    ensures { result ≡ along a c n k }
{
    a + nearest(n, (c - a) * k as i32)
}

// Where the k-th of n steps from a to c comes to; along the larger extent each step is one pixel.
fn step_to(a: i32, c: i32, n: u32, k: u32) -> i32
    requires { (unsigned_abs a ≤ 8192) × ((unsigned_abs c ≤ 8192) × ((0 < n) × ((n ≤ 16384) × (k ≤ n)))) }
    ensures { result ≡ along a c n k }
{
    if c - a == n as i32 {
        return a + k as i32;
    }
    if a - c == n as i32 {
        return a - k as i32;
    }
    step_between(a, c, n, k)
}

// The pixel of an end of a line.
fn end_of(side: Side, point: Point) -> (i32, i32)
    ensures value { result ≡ point_pixel side.pixels point }
    ensures near { Near result }
{
    pixel_of(side, point)
}

impl Line {
    // The line between two pixels.
    fn joining(from: (i32, i32), to: (i32, i32)) -> Line
        requires { (Near from) × (Near to) }
        ensures from { result.from ≡ from }
        ensures to { result.to ≡ to }
    {
        let steps = to.0.abs_diff(from.0).max(to.1.abs_diff(from.1));
        Line { from, to, steps }
    }

    // The line on a sheet of that side, from one point of the field to another.
    pub fn between(side: Side, from: Point, to: Point) -> Line
        ensures from { result.from ≡ point_pixel side.pixels from }
        ensures to { result.to ≡ point_pixel side.pixels to }
    {
        Line::joining(end_of(side, from), end_of(side, to))
    }

    // How many steps the line has: one less than its points.
    pub fn steps(&self) -> u32
        ensures value { result ≡ steps_of self.now.from self.now.to }
        ensures few { result ≤ 16384 }
    {
        self.steps
    }

    // How many points the line has.
    pub fn points(&self) -> u32
        ensures { result ≡ steps_of self.now.from self.now.to + 1 }
    {
        1 + self.steps
    }

    // The point k of the line, or its last point where k is past its steps.
    pub fn point(&self, k: u32) -> (i32, i32)
        ensures { result ≡ point_of self.now.from self.now.to k }
    {
        if self.steps == 0 {
            return self.from;
        }
        let k = k.min(self.steps);
        (
            step_to(self.from.0, self.to.0, self.steps, k),
            step_to(self.from.1, self.to.1, self.steps, k),
        )
    }
}
