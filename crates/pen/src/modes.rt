// A new pen, its modes, and ERASE.
ghost use Rattle.std.specs.Prelude.{◌≡◌};
ghost use Rattle.sheet.specs.Meanings.{Meaning};
ghost use Rattle.run.specs.Performing.{mode_of, set_mode};
ghost use Rattle.run.specs.Runs.{begun, blank};
ghost use Rattle.pen.specs.Views.{ink_of};

use crate::types::{MarkStack, Pen};
use geometry::Point;
use mark::LineMode;
use sheet::Sheet;
use statement::layout::Setting;

// The line mode of a value: 1 dashed, 2 dotted, every other solid.
fn mode_of(value: u8) -> LineMode
    ensures { result ≡ mode_of value }
{
    match value {
        1 => LineMode::Dashed,
        2 => LineMode::Dotted,
        _ => LineMode::Solid,
    }
}

impl Pen {
    // A pen at the origin, with solid lines, normal intensity and no marked point.
    pub fn new() -> Pen
        ensures { (m : Meaning) → ink_of result m ≡ (begun m).drawing.ink }
    {
        Pen {
            beam: Point::default(),
            mode: LineMode::Solid,
            intensity: 128,
            marks: MarkStack::new(),
        }
    }

    // Sets the line mode or the intensity.
    pub fn assign(&mut self, setting: Setting, value: u8)
        ensures { (m : Meaning) → ink_of self.new m ≡ set_mode setting value (ink_of self.old m) }
    {
        match setting {
            Setting::LineMode => self.mode = mode_of(value),
            Setting::Intensity => self.intensity = value,
        }
    }

    // Clears the sheet, and makes the pen as new.
    pub fn erase<S: Sheet>(&mut self, sheet: &mut S)
        ensures after { ink_of self.new (S.meaning sheet.new) ≡ blank (ink_of self.old (S.meaning sheet.old)) }
        ensures tied { S.tied sheet.new ≡ S.tied sheet.old }
    {
        sheet.clear();
        *self = Pen::new();
    }
}
