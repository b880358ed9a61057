// What performing keeps beside the sheet.
ghost use Rattle.std.specs.Prelude.{◌≤◌};

use geometry::Point;
use mark::LineMode;

pub(crate) const MOST_MARKS: usize = 64;

// The points that were marked, the last at the end: the first of these. No `ArrayVec`: that is not Copy, and a pen is.
#[derive(Clone, Copy, Debug)]
pub struct MarkStack {
    pub points: [Point; MOST_MARKS],
    pub used: usize,
    ghost fits: { used ≤ 64 },
}

// The beam, the modes and the mark stack.
#[derive(Clone, Copy, Debug, PartialEq, Eq)]
pub struct Pen {
    pub beam: Point,
    pub mode: LineMode,
    pub intensity: u8,
    pub marks: MarkStack,
}
