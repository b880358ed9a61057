// Drawing on a page of bits.
ghost use Rattle.std.specs.Prelude.{◌≡◌, length, None};
ghost use Rattle.mark.specs.Covers.{any_below, same_pixel, line_inks, letter_inks_at, letter_inks};
ghost use Rattle.sheet.specs.Meanings.{gains};
ghost use Rattle.raster.specs.Asking.{asked, Drawn};
ghost use Rattle.raster.specs.Bits.{bit_meaning};
ghost use Rattle.raster.specs.Sheets.{Inks};

use crate::asking::ask;
use crate::page::{BitSheet, make, with_bit};
use geometry::{Line, Side, pixel_of};
use mark::{Letter, LineMode, Mark, on_sheet};
use sheet::{Refusal, Sheet, Unfit};

impl<'a> BitSheet<'a> {
    // Inks a pixel, if it is on the sheet.
    fn put(&mut self, pixel: (i32, i32))
        ensures { Inks self.old self.new (same_pixel pixel) }
    {
        if !on_sheet(self.side, pixel) {
            return;
        }
        let at = self.place(pixel);
        self.bytes[at] = with_bit(self.bytes[at], (pixel.0 as u32 % 8) as u8);
    }

    // Inks the points of a line that its mode inks.
    fn put_line(&mut self, line: Line, mode: LineMode)
        ensures { Inks self.old self.new (line_inks line.from line.to mode) }
    {
        for k in 0..line.points() {
            if mode.inks(k) {
                self.put(line.point(k));
            }
        }
    }

    // Inks the dots of one row of a letter.
    fn put_row(&mut self, letter: Letter, row: u8)
        ensures { Inks self.old self.new (λ w. any_below (letter_inks_at letter.side.pixels letter.at letter.code w row) 5) }
    {
        for column in 0..5 {
            if letter.has_dot(row, column) {
                self.put(letter.dot(row, column));
            }
        }
    }

    // Inks a letter of the font.
    fn put_letter(&mut self, letter: Letter)
        ensures { Inks self.old self.new (letter_inks letter.side.pixels letter.at letter.code) }
    {
        for row in 0..8 {
            self.put_row(letter, row);
        }
    }

    // Inks a mark.
    fn put_mark(&mut self, mark: Mark)
        ensures after { bit_meaning self.new.side.pixels self.new.bytes.now ≡ gains (bit_meaning self.old.side.pixels self.old.bytes.now) mark None }
        ensures named { self.new.bytes.ghost_name ≡ self.old.bytes.ghost_name }
    {
        match mark {
            Mark::Dot { at } => self.put(pixel_of(self.side, at)),
            Mark::Line { from, to, mode } => {
                self.put_line(Line::between(self.side, from, to), mode);
            }
            Mark::Letter { at, code } => {
                let side = self.side;
                self.put_letter(Letter { side, at, code });
            }
        }
    }
}

impl<'a> Sheet for BitSheet<'a> {
    ghost meaning = { λ t. bit_meaning t.side.pixels t.bytes.now };

    ghost tied = { λ t. t.bytes.ghost_name };

    fn side(&self) -> Side {
        self.side
    }

    fn stock(&self) -> Option<u32> {
        None
    }

    fn inked(&self, pixel: (i32, i32)) -> bool {
        on_sheet(self.side, pixel) && self.bit(pixel)
    }

    fn clear(&mut self) {
        self.wipe();
    }

    fn mark(&mut self, mark: Mark) -> Result<(), Refusal> {
        self.put_mark(mark);
        Ok(())
    }
}

// Draws marks on a clear page in lent memory, if such a page fits it.
pub fn draw_page(side: u16, memory: &mut [u8], marks: &[Mark]) -> Result<(), Unfit>
    ensures answer { result ≡ asked side (length memory.old) }
    ensures drawn { Drawn side marks.now memory.old memory.new result }
{
    ask(side, memory)?;
    let mut sheet = make(side, memory);
    let _ = sheet::draw(&mut sheet, marks);
    Ok(())
}
