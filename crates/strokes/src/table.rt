// The table of strokes.
ghost use Rattle.std.specs.Prelude.{◌≡◌, ◌+◌, ◌<◌, ◌≤◌, min, length, take, Some, Ok, slice_set};
ghost use Rattle.geometry.specs.Places.{point_pixel};
ghost use Rattle.mark.specs.Covers.{same_pixel};
ghost use Rattle.sheet.specs.Meanings.{answer, blank, cleared, marked};
ghost use Rattle.strokes.specs.Strokes.{stroke_of};
ghost use Rattle.strokes.specs.Tables.{asked, inked_by, table_meaning};

use crate::records::{Kind, Stroke};
use geometry::{Line, Point, Side, pixel_of};
use mark::{Letter, Mark, line_inks, on_sheet};
use sheet::{Refusal, Sheet};

// A sheet over lent records: the first `count` of them are its strokes so far.
// A lent slice with a count beside it, since a table has no memory of its own.
#[derive(Drop)]
pub struct StrokeTable<'a> {
    strokes: &'a mut [Stroke],
    count: usize,
    side: Side,
    ghost within: { count ≤ length strokes.now },
    ghost few: { length strokes.now ≤ 65536 },
}

// A table with no stroke, over records that were asked for and are fit; the project fixes that making requires the asking.
pub fn make<'a>(side: u16, records: &'a mut [Stroke]) -> StrokeTable<'a>
    requires { asked side (length records.old) ≡ Ok tt }
    ensures blank { table_meaning result.side.pixels result.count result.strokes.now ≡ blank side (Some (length records.old)) }
    ensures records { result.strokes.now ≡ records.old }
    ensures named { result.strokes.ghost_name ≡ records.entry.ghost_name }
{
    StrokeTable {
        strokes: records,
        count: 0,
        side: Side::new(side).unwrap(),
    }
}

// Whether a dot at a point inks a pixel.
fn dot_inks(side: Side, at: Point, pixel: (i32, i32)) -> bool
    ensures { result ≡ same_pixel (point_pixel side.pixels at) pixel }
{
    pixel_of(side, at) == pixel
}

impl<'a> StrokeTable<'a> {
    // Writes a stroke whole to the first free record.
    fn push(&mut self, stroke: Stroke)
        requires { self.old.count < length self.old.strokes.now }
        ensures strokes { self.new.strokes.now ≡ slice_set self.old.strokes.now self.old.count stroke }
        ensures count { self.new.count ≡ self.old.count + 1 }
        ensures side { self.new.side.pixels ≡ self.old.side.pixels }
        ensures named { self.new.strokes.ghost_name ≡ self.old.strokes.ghost_name }
    {
        self.strokes[self.count] = stroke;
        self.count += 1;
    }

    // The strokes so far, the first one first.
    pub fn strokes(&self) -> &[Stroke]
        ensures strokes { result.now ≡ take self.now.count self.now.strokes.now }
        ensures page { (table_meaning self.now.side.pixels self.now.count self.now.strokes.now).inked ≡ inked_by self.now.side.pixels result.now }
    {
        &self.strokes[..self.count]
    }
}

impl<'a> Sheet for StrokeTable<'a> {
    ghost meaning = { λ t. table_meaning t.side.pixels t.count t.strokes.now };

    ghost tied = { λ t. t.strokes.ghost_name };

    fn side(&self) -> Side {
        self.side
    }

    fn stock(&self) -> Option<u32> {
        Some((self.strokes.len() - self.count) as u32)
    }

    fn inked(&self, pixel: (i32, i32)) -> bool {
        if !on_sheet(self.side, pixel) {
            return false;
        }
        let strokes = self.strokes();
        // Loops that a label leaves from inside, and no `any`: the project fixes this form.
        'strokes: {
            for stroke in strokes {
                match stroke.kind {
                    Kind::Dot => {
                        if dot_inks(self.side, stroke.from, pixel) {
                            break 'strokes true;
                        }
                    }
                    Kind::Line => {
                        let line = Line::between(self.side, stroke.from, stroke.to);
                        for k in 0..line.points() {
                            if line_inks(line, stroke.mode, k, pixel) {
                                break 'strokes true;
                            }
                        }
                    }
                    Kind::Letter => {
                        let letter = Letter {
                            side: self.side,
                            at: stroke.from,
                            code: stroke.code,
                        };
                        for row in 0..8 {
                            for column in 0..5 {
                                if letter.inks(row, column, pixel) {
                                    break 'strokes true;
                                }
                            }
                        }
                    }
                }
            }
            false
        }
    }

    // Frees every record, and alters none.
    fn clear(&mut self)
        ensures after { table_meaning self.new.side.pixels self.new.count self.new.strokes.now ≡ cleared (table_meaning self.old.side.pixels self.old.count self.old.strokes.now) }
        ensures tied { self.new.strokes.ghost_name ≡ self.old.strokes.ghost_name }
        ensures records { self.new.strokes.now ≡ self.old.strokes.now }
    {
        self.count = 0;
    }

    // Writes the mark's stroke whole to the first free record, and alters no other; where none is free the list stays as it is.
    fn mark(&mut self, mark: Mark) -> Result<(), Refusal>
        ensures answer { result ≡ answer (table_meaning self.old.side.pixels self.old.count self.old.strokes.now) }
        ensures after { table_meaning self.new.side.pixels self.new.count self.new.strokes.now ≡ marked (table_meaning self.old.side.pixels self.old.count self.old.strokes.now) mark }
        ensures tied { self.new.strokes.ghost_name ≡ self.old.strokes.ghost_name }
        ensures written { self.new.strokes.now ≡ slice_set self.old.strokes.now self.old.count (stroke_of mark) }
        ensures counted { self.new.count ≡ min (self.old.count + 1) (length self.old.strokes.now) }
    {
        if self.count >= self.strokes.len() {
            return Err(Refusal::Full);
        }
        self.push(Stroke::from(mark));
        Ok(())
    }
}
