// Points of the field.
ghost use Rattle.std.specs.Prelude.{◌≡◌, ◌+ℤ◌};
ghost use Rattle.run.specs.Inks.{point};
ghost use Rattle.pen.specs.Views.{landing};

use geometry::Point;
use run::types::Fault;

// The point so far to the right of a point and so far above it, if it lies on the field.
pub(crate) fn shifted(from: Point, right: i16, up: i16) -> Result<Point, Fault>
    ensures { result ≡ landing (point (from.x +ℤ right) (from.y +ℤ up)) }
{
    let x = from.x.checked_add(right).ok_or(Fault::OffField)?;
    let y = from.y.checked_add(up).ok_or(Fault::OffField)?;
    Ok(Point { x, y })
}
