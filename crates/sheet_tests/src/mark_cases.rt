// Marks on both kinds of sheet.
use geometry::Point;
use mark::{LineMode, Mark};
use sheet::{Sheet, mark_both};
use std::test::Fail;
use strokes::Stroke;

fn dot(x: i16, y: i16) -> Mark {
    Mark::Dot { at: Point { x, y } }
}

fn line(x: i16, y: i16, to_x: i16, to_y: i16, mode: LineMode) -> Mark {
    Mark::Line {
        from: Point { x, y },
        to: Point { x: to_x, y: to_y },
        mode,
    }
}

fn letter(x: i16, y: i16, code: u8) -> Mark {
    Mark::Letter {
        at: Point { x, y },
        code,
    }
}

// Marks on the sheet, partly off it and wholly off it, and how many pixels each covers at side 8 and at side 9.
fn cases() -> [(Mark, u32, u32); 16] {
    [
        (dot(0, 0), 1, 1),
        (dot(16383, -16384), 1, 1),
        (dot(-16385, 0), 0, 0),
        (dot(20480, 0), 0, 0),
        (line(-16384, 16383, 16383, -16384, LineMode::Solid), 8, 9),
        (line(-16384, 0, 16383, 0, LineMode::Dashed), 8, 8),
        (line(-16384, 0, 16383, 0, LineMode::Dotted), 2, 3),
        (line(-20480, 0, 20480, 0, LineMode::Solid), 8, 9),
        (line(-32768, 0, 16383, 0, LineMode::Dashed), 4, 5),
        (line(20480, -32768, 32767, 32767, LineMode::Solid), 0, 0),
        (letter(0, 0, b'A'), 1, 1),
        (letter(-150, -225, b'E'), 4, 1),
        (letter(-16534, 0, b'T'), 1, 1),
        (letter(16384, 16384, b'T'), 0, 0),
        (letter(0, 0, b' '), 0, 0),
        (letter(0, 0, 127), 0, 0),
    ]
}

// How many pixels are inked on both sheets, with a margin about them, or None where they differ.
fn inked_alike<A: Sheet, B: Sheet>(a: &A, b: &B, pixels: u8) -> Option<u32> {
    let end = pixels as i32 + 3;
    let mut count: u32 = 0;
    for row in -3..end {
        for column in -3..end {
            let inked = a.inked((column, row));
            if b.inked((column, row)) != inked {
                return None;
            }
            if inked {
                count = count.saturating_add(1);
            }
        }
    }
    Some(count)
}

// Puts one mark on two clear sheets, which then bear so many inked pixels.
fn draws_alike<A: Sheet, B: Sheet>(
    a: &mut A,
    b: &mut B,
    mark: Mark,
    pixels: u8,
    count: u32,
) -> bool {
    a.clear();
    b.clear();
    mark_both(a, b, mark) && inked_alike(a, b, pixels) == Some(count)
}

// Puts each mark on a bit sheet in that memory and on a stroke table, and compares the inked pixels with its count.
fn draws_cases(pixels: u8, memory: &mut [u8], cases: [(Mark, u32); 16]) -> Result<bool, Fail> {
    let side = u16::from(pixels);
    let mut records = [Stroke::from(dot(0, 0))];
    raster::ask(side, memory)?;
    strokes::ask(side, &records)?;
    let mut bits = raster::make(side, memory);
    let mut table = strokes::make(side, &mut records);
    for (mark, count) in cases {
        if !draws_alike(&mut bits, &mut table, mark, pixels, count) {
            return Ok(false);
        }
    }
    Ok(true)
}

#[test]
fn marks_at_side_8(rt: HostRuntime) -> Result<(), Fail> {
    let cases = cases().map(|(mark, count, _)| (mark, count));
    assert!(rt; draws_cases(8, &mut [0u8; 8], cases)?);
    Ok(())
}

#[test]
fn marks_at_side_9(rt: HostRuntime) -> Result<(), Fail> {
    let cases = cases().map(|(mark, _, count)| (mark, count));
    assert!(rt; draws_cases(9, &mut [0u8; 18], cases)?);
    Ok(())
}

#[test]
fn all_marks_and_one_too_many(rt: HostRuntime) -> Result<(), Fail> {
    let mut memory = [0u8; 18];
    let mut records = [Stroke::from(dot(0, 0)); 16];
    raster::ask(9, &memory)?;
    strokes::ask(9, &records)?;
    let mut bits = raster::make(9, &mut memory);
    let mut table = strokes::make(9, &mut records);
    for (mark, _, _) in cases() {
        assert!(rt; mark_both(&mut bits, &mut table, mark));
    }
    assert!(rt; inked_alike(&bits, &table, 9).is_some());
    assert!(rt; bits.mark(dot(0, 0)).is_ok());
    assert!(rt; table.mark(dot(0, 0)).is_err());
    Ok(())
}

// A side, and how many bytes its bits take.
const SIDES: [(u16, usize); 4] = [(8, 8), (9, 18), (512, 32768), (2048, 524288)];

// Puts dots in two corners: the pixels there are inked, and none beside the sheet.
fn inks_corners<S: Sheet>(sheet: &mut S, pixels: u16) -> bool {
    let last = pixels as i32 - 1;
    sheet.mark(dot(-16384, 16383)).is_ok()
        && sheet.mark(dot(16383, -16384)).is_ok()
        && sheet.inked((0, 0))
        && sheet.inked((last, last))
        && !sheet.inked((last, 0))
        && !sheet.inked((0, last))
        && !sheet.inked((-1, 0))
        && !sheet.inked((last + 1, last))
}

#[test]
fn corners_of_bit_sheets(rt: HostRuntime) -> Result<(), Fail> {
    for (pixels, len) in SIDES {
        let mut memory = vec![in rt.alloc(); 0u8; len]?;
        raster::ask(pixels, &memory)?;
        let mut bits = raster::make(pixels, &mut memory);
        assert!(rt; inks_corners(&mut bits, pixels));
    }
    Ok(())
}

#[test]
fn corners_of_stroke_tables(rt: HostRuntime) -> Result<(), Fail> {
    for (pixels, _) in SIDES {
        let mut records = [Stroke::from(dot(0, 0)); 2];
        strokes::ask(pixels, &records)?;
        let mut table = strokes::make(pixels, &mut records);
        assert!(rt; inks_corners(&mut table, pixels));
    }
    Ok(())
}
