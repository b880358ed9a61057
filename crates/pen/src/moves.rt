// Moving the beam.
ghost use Rattle.std.specs.Prelude.{◌≡◌};
ghost use Rattle.run.specs.Inks.{target, leave, go};
ghost use Rattle.pen.specs.Views.{ink_of, drawn_of, landing};

use crate::field::shifted;
use crate::marks::put_mark;
use crate::types::Pen;
use geometry::Point;
use mark::Mark;
use run::types::Fault;
use sheet::Sheet;
use statement::layout::{Aim, Trace};

impl Pen {
    // Puts what the beam leaves on its way to a point.
    fn leave_trace<S: Sheet>(&self, sheet: &mut S, trace: Trace, end: Point) -> Result<(), Fault>
        ensures after { drawn_of result self.now (S.meaning sheet.new) ≡ leave trace end (ink_of self.now (S.meaning sheet.old)) }
        ensures tied { S.tied sheet.new ≡ S.tied sheet.old }
    {
        let mark = match trace {
            Trace::Blank => return Ok(()),
            Trace::Line => Mark::Line {
                from: self.beam,
                to: end,
                mode: self.mode,
            },
            Trace::Dot => Mark::Dot { at: end },
        };
        put_mark(self.intensity, sheet, mark)
    }

    // Moves the beam to a point, and leaves what the trace says.
    pub(crate) fn travel_to<S: Sheet>(
        &mut self,
        sheet: &mut S,
        trace: Trace,
        end: Point,
    ) -> Result<(), Fault>
        ensures after { drawn_of result self.new (S.meaning sheet.new) ≡ go trace end (ink_of self.old (S.meaning sheet.old)) }
        ensures tied { S.tied sheet.new ≡ S.tied sheet.old }
    {
        self.leave_trace(sheet, trace, end)?;
        self.beam = end;
        Ok(())
    }

    // The point that two coordinates mean, if it lies on the field.
    fn target(&self, aim: Aim, x: i16, y: i16) -> Result<Point, Fault>
        ensures { result ≡ landing (target aim x y self.now.beam) }
    {
        match aim {
            Aim::Absolute => Ok(Point { x, y }),
            Aim::Relative => shifted(self.beam, x, y),
        }
    }

    // Moves the beam as two coordinates say, and leaves what the trace says.
    pub(crate) fn travel<S: Sheet>(
        &mut self,
        sheet: &mut S,
        trace: Trace,
        aim: Aim,
        x: i16,
        y: i16,
    ) -> Result<(), Fault>
        ensures after { drawn_of result self.new (S.meaning sheet.new) ≡ go trace (target aim x y self.old.beam) (ink_of self.old (S.meaning sheet.old)) }
        ensures tied { S.tied sheet.new ≡ S.tied sheet.old }
    {
        let end = self.target(aim, x, y)?;
        self.travel_to(sheet, trace, end)
    }
}
