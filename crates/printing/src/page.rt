// The rows of a page.
ghost use Rattle.std.specs.Prelude.{◌≡◌, ◌+◌, ◌≤◌, length, map};
ghost use Rattle.std.specs.List.{range_with_len};
ghost use Rattle.sheet.specs.Meanings.{Meaning};
ghost use Rattle.printing.specs.Pages.{pixel_text, row_text, page_text};

use geometry::Side;
use sheet::Sheet;

// The byte of a pixel.
fn pixel_byte<S: Sheet>(sheet: &S, row: u16, column: u16) -> u8
    ensures { result ≡ pixel_text (S.meaning sheet.now) row column }
{
    if sheet.inked((i32::from(column), i32::from(row))) {
        b'#'
    } else {
        b'.'
    }
}

// Writes the pixels of a row.
fn put_pixels<S: Sheet>(sheet: &S, row: u16, out: &mut [u8])
    requires whole { length out.old ≡ (S.meaning sheet.now).side }
    requires few { length out.old ≤ 2048 }
    ensures { out.new ≡ map (pixel_text (S.meaning sheet.now) row) (range_with_len 0 (S.meaning sheet.now).side) }
{
    for (column, byte) in out.iter_mut().enumerate() {
        *byte = pixel_byte(sheet, row, column as u16);
    }
}

// Writes a row.
fn put_row<S: Sheet>(sheet: &S, row: u16, out: &mut [u8])
    requires whole { length out.old ≡ (S.meaning sheet.now).side + 1 }
    requires few { length out.old ≤ 2049 }
    ensures { out.new ≡ row_text (S.meaning sheet.now) row }
{
    if let Some((end, pixels)) = out.split_last_mut() {
        put_pixels(sheet, row, pixels);
        *end = b'\n';
    }
}

// How many bytes a page of that side takes, whatever is drawn on it.
pub(crate) fn page_room(side: Side) -> usize
    ensures value { (m : Meaning) → m.side ≡ side.pixels → result ≡ length (page_text m) }
    ensures bound { result ≤ 4196352 }
{
    let side = side.pixels() as usize;
    side * (side + 1)
}

// Writes a page.
pub(crate) fn put_page<S: Sheet>(sheet: &S, out: &mut [u8])
    requires { length out.old ≡ length (page_text (S.meaning sheet.now)) }
    ensures { out.new ≡ page_text (S.meaning sheet.now) }
{
    let side = sheet.side().pixels();
    let width = side as usize + 1;
    // rows by their places; tried: `chunks_exact_mut`, and a rest cut by `split_at_mut`: after either loop a proof knows no byte of the page
    for row in 0..side {
        let start = row as usize * width;
        put_row(sheet, row, &mut out[start..start + width]);
    }
}
