// The marks of the specimen, and drawing them.
ghost use Rattle.std.specs.Prelude.{◌≡◌, [], ◌∷◌, ◌*◌, ◌/◌, ◌%◌, ◌<◌, pos, ◌-ℤ◌, neg_ℤ};
ghost use Rattle.mark.specs.declared.Mark.TheVariants.{Dot};
ghost use Rattle.sheet.specs.Meanings.{marked_all, takes_all};
ghost use Rattle.specimen_page.specs.Specimens.{point_at, frame_of, solid_frame, dashed_frame, dotted_frame, dot_row, letter_at, all_letters, specimen_marks};

use geometry::Point;
use mark::{LineMode, Mark};
use sheet::{Sheet, draw};
use std::array;

// The four sides of a frame, from its low left corner to its high right one.
fn frame(mode: LineMode, low: Point, high: Point) -> [Mark; 4]
    ensures { result ≡ frame_of mode low high }
{
    let right = Point {
        x: high.x,
        y: low.y,
    };
    let left = Point {
        x: low.x,
        y: high.y,
    };
    let side = |from, to| Mark::Line { from, to, mode };
    [
        side(low, right),
        side(right, high),
        side(high, left),
        side(left, low),
    ]
}

// A frame of each line mode, one about the other.
fn frames() -> [[Mark; 4]; 3]
    ensures { result ≡ solid_frame ∷ dashed_frame ∷ dotted_frame ∷ [] }
{
    [
        frame(
            LineMode::Solid,
            Point { x: -4800, y: -1800 },
            Point { x: 4800, y: 2100 },
        ),
        frame(
            LineMode::Dashed,
            Point { x: -5100, y: -2100 },
            Point { x: 5100, y: 2400 },
        ),
        frame(
            LineMode::Dotted,
            Point { x: -5400, y: -2400 },
            Point { x: 5400, y: 2700 },
        ),
    ]
}

fn dot(x: i16) -> Mark
    ensures { result ≡ Dot (point_at x (neg_ℤ (pos 1500))) }
{
    Mark::Dot {
        at: Point { x, y: -1500 },
    }
}

// Five dots in a row.
fn dots() -> [Mark; 5]
    ensures { result ≡ dot_row }
{
    [dot(-600), dot(-300), dot(0), dot(300), dot(600)]
}

fn letter_x(k: u8) -> i16
    requires { k < 95 }
    ensures { result ≡ pos (450 * (k % 19)) -ℤ pos 4200 }
{
    450 * (k % 19) as i16 - 4200
}

fn letter_y(k: u8) -> i16
    requires { k < 95 }
    ensures { result ≡ pos 1200 -ℤ pos (600 * (k / 19)) }
{
    1200 - 600 * (k / 19) as i16
}

// The letter k, which has the code 32 + k.
fn letter(k: u8) -> Mark
    requires { k < 95 }
    ensures { result ≡ letter_at k }
{
    Mark::Letter {
        at: Point {
            x: letter_x(k),
            y: letter_y(k),
        },
        code: 32 + k,
    }
}

// Every letter that the font has.
fn letters() -> [Mark; 95]
    ensures { result ≡ all_letters }
{
    array::from_fn(|k| letter(k as u8))
}

// Draws the specimen, and says whether the sheet took all of it.
pub fn draw_specimen<S: Sheet>(sheet: &mut S) -> bool
    ensures answer { result ≡ takes_all (S.meaning sheet.old) specimen_marks }
    ensures after { S.meaning sheet.new ≡ marked_all (S.meaning sheet.old) specimen_marks }
    ensures tied { S.tied sheet.new ≡ S.tied sheet.old }
{
    let frames = draw(sheet, frames().as_flattened());
    let dots = draw(sheet, &dots());
    let letters = draw(sheet, &letters());
    frames & dots & letters
}
