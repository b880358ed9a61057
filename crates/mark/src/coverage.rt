// Whether a part of a mark inks a pixel.
ghost use Rattle.mark.specs.Covers.{on_sheet, line_inks_at};
ghost use Rattle.std.specs.Prelude.{◌≡◌};

use crate::LineMode;
use geometry::{Line, Side};

// Whether a pixel lies on a sheet of that side.
pub fn on_sheet(side: Side, pixel: (i32, i32)) -> bool
    ensures { result ≡ on_sheet side.pixels pixel }
{
    // comparisons; tried: a range's `contains`, with which a job of lines took up to a third longer
    let end = side.pixels() as i32;
    0 <= pixel.0 && pixel.0 < end && 0 <= pixel.1 && pixel.1 < end
}

// Whether a line inks a pixel by its point k.
pub fn line_inks(line: Line, mode: LineMode, k: u32, pixel: (i32, i32)) -> bool
    ensures { result ≡ line_inks_at line.from line.to mode pixel k }
{
    mode.inks(k) && line.point(k) == pixel
}
