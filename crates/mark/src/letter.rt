// The dots of a letter.
ghost use Rattle.std.specs.Prelude.{◌≡◌, ◌*◌, pos, ◌+ℤ◌, ◌-ℤ◌, ◌*ℤ◌};
ghost use Rattle.mark.specs.Covers.{has_dot, letter_dot, letter_inks_at};

use geometry::{Point, Side, pixel};

// A letter at a point, on a sheet of that side.
#[derive(Clone, Copy, Debug, PartialEq, Eq)]
pub struct Letter {
    pub side: Side,
    pub at: Point,
    pub code: u8,
}

impl Letter {
    // Whether its glyph has a dot at that row and column.
    pub fn has_dot(self, row: u8, column: u8) -> bool
        ensures { result ≡ has_dot self.code row column }
    {
        column < 5 && (font::glyph_row(self.code, row) >> (4 - column)) % 2 == 1
    }

    // The pixel of the dot that it has at that row and column.
    pub fn dot(self, row: u8, column: u8) -> (i32, i32)
        ensures { result ≡ letter_dot self.side.pixels self.at row column }
    {
        pixel(self.side, dot_x(self.at.x, column), dot_y(self.at.y, row))
    }

    // Whether it inks a pixel by its dot at that row and column.
    pub fn inks(self, row: u8, column: u8, pixel: (i32, i32)) -> bool
        ensures { result ≡ letter_inks_at self.side.pixels self.at self.code pixel row column }
    {
        self.has_dot(row, column) && self.dot(row, column) == pixel
    }
}

fn dot_x(x: i16, column: u8) -> i32
    ensures { result ≡ x +ℤ pos (75 * column) }
{
    x as i32 + 75 * column as i32
}

fn dot_y(y: i16, row: u8) -> i32
    ensures { result ≡ y +ℤ pos 75 *ℤ (pos 6 -ℤ pos row) }
{
    y as i32 + 75 * (6 - row as i32)
}
