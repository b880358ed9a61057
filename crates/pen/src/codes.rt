// Setting one code of a text.
ghost use Rattle.std.specs.Prelude.{◌≡◌, pos, ◌+ℤ◌, int_lt};
ghost use Rattle.run.specs.Inks.{Ink, beam_at};
ghost use Rattle.run.specs.Texts.{is_printed, next_line, set_letter, control, break_line, set_code};
ghost use Rattle.pen.specs.Views.{drawn, landing, lit};

use crate::field::shifted;
use crate::marks::put_mark;
use geometry::Point;
use mark::Mark;
use run::types::Fault;
use sheet::Sheet;
use statement::layout::Manner;

const LEFT_MARGIN: i16 = -16384;

const RIGHT_MARGIN: i32 = 16384;

const LETTER_WIDTH: i16 = 450;

const LINE_HEIGHT: i16 = 600;

// Beam, intensity and sheet are no struct: it would hold two borrows, and each method would promise that both stay.

// Sets a letter at the beam, and takes the beam one place to the right.
fn set_letter<S: Sheet>(
    beam: &mut Point,
    intensity: u8,
    sheet: &mut S,
    code: u8,
) -> Result<(), Fault>
    ensures after { (i : Ink) → drawn result (lit i beam.new intensity (S.meaning sheet.new)) ≡ set_letter code (lit i beam.old intensity (S.meaning sheet.old)) }
    ensures tied { S.tied sheet.new ≡ S.tied sheet.old }
{
    let next = shifted(*beam, LETTER_WIDTH, 0)?;
    if code != b' ' {
        put_mark(intensity, sheet, Mark::Letter { at: *beam, code })?;
    }
    *beam = next;
    Ok(())
}

// Does what a code that is no letter says: a carriage return, a line feed, a backspace, or nothing.
fn obey_control(beam: &mut Point, code: u8) -> Result<(), Fault>
    ensures { (i : Ink) → drawn result (beam_at beam.new i) ≡ control code (beam_at beam.old i) }
{
    match code {
        b'\r' => beam.x = LEFT_MARGIN,
        b'\n' => *beam = shifted(*beam, 0, -LINE_HEIGHT)?,
        b'\x08' => *beam = shifted(*beam, -LETTER_WIDTH, 0)?,
        _ => {}
    }
    Ok(())
}

// Whether a letter at this point would pass the right margin.
fn passes_margin(p: Point) -> bool
    ensures { result ≡ int_lt (pos 16384) (p.x +ℤ pos 450) }
{
    i32::from(p.x) + i32::from(LETTER_WIDTH) > RIGHT_MARGIN
}

// Whether the font has a code.
fn is_printed(code: u8) -> bool
    ensures { result ≡ is_printed code }
{
    (32..=126).contains(&code)
}

// The start of the next line, if it lies on the field.
fn next_line(p: Point) -> Result<Point, Fault>
    ensures { result ≡ landing (next_line p) }
{
    let start = Point {
        x: LEFT_MARGIN,
        ..p
    };
    shifted(start, 0, -LINE_HEIGHT)
}

// Starts a new line where the next letter would pass the right margin, if lines are broken.
#[tactic(auto, using(crate::proofs::Letters::breaking))]
fn break_line(beam: &mut Point, manner: Manner) -> Result<(), Fault>
    ensures { (i : Ink) → drawn result (beam_at beam.new i) ≡ break_line manner (beam_at beam.old i) }
{
    if manner == Manner::Wrapping && passes_margin(*beam) {
        *beam = next_line(*beam)?;
    }
    Ok(())
}

// Sets one code of a text.
pub(crate) fn set_code<S: Sheet>(
    beam: &mut Point,
    intensity: u8,
    sheet: &mut S,
    manner: Manner,
    code: u8,
) -> Result<(), Fault>
    ensures after { (i : Ink) → drawn result (lit i beam.new intensity (S.meaning sheet.new)) ≡ set_code manner code (lit i beam.old intensity (S.meaning sheet.old)) }
    ensures tied { S.tied sheet.new ≡ S.tied sheet.old }
{
    if !is_printed(code) {
        return obey_control(beam, code);
    }
    break_line(beam, manner)?;
    set_letter(beam, intensity, sheet, code)
}
