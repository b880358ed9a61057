// The rows of a page: which bear ink, how much, and as text.
ghost use Rattle.std.specs.Prelude.{◌≡◌, ℕ, ◌-◌, ◌<◌, ◌≤◌, true, false, length, slice_index};
ghost use Rattle.specimen_page.specs.Rows.{inked_in, bears_ink, shown_as, inked_in_row, inked_pixels};

use sheet::Sheet;
use std::array;

fn is_inked<S: Sheet>(sheet: &S, row: u16, column: u16) -> bool
    ensures { result ≡ inked_in (S.meaning sheet.now) row column }
{
    sheet.inked((column as i32, row as i32))
}

fn bears_ink<S: Sheet>(sheet: &S, row: u16) -> bool
    ensures { result ≡ bears_ink (S.meaning sheet.now) row }
{
    (0..sheet.side().pixels()).any(|column| is_inked(sheet, row, column))
}

// The first row that bears ink, or the side where none does.
pub fn first_row<S: Sheet>(sheet: &S) -> u16
    ensures within { result ≤ (S.meaning sheet.now).side }
    ensures before { (k : ℕ) → k < result → bears_ink (S.meaning sheet.now) k ≡ false }
    ensures inked { result < (S.meaning sheet.now).side → bears_ink (S.meaning sheet.now) result ≡ true }
{
    let end = sheet.side().pixels();
    (0..end).find(|row| bears_ink(sheet, *row)).unwrap_or(end)
}

// One more than the last row that bears ink, or 0 where none does.
pub fn past_rows<S: Sheet>(sheet: &S) -> u16
    ensures within { result ≤ (S.meaning sheet.now).side }
    ensures after { (k : ℕ) → result ≤ k → k < (S.meaning sheet.now).side → bears_ink (S.meaning sheet.now) k ≡ false }
    ensures inked { 0 < result → bears_ink (S.meaning sheet.now) (result - 1) ≡ true }
{
    let last = (0..sheet.side().pixels())
        .rev()
        .find(|row| bears_ink(sheet, *row));
    last.map_or(0, |row| row + 1)
}

// How an inked pixel is shown, and one that is not.
fn shown(inked: bool) -> u8
    ensures { result ≡ shown_as inked }
{
    if inked { b'#' } else { b'.' }
}

// The first 512 pixels of a row as text.
pub fn row_text<S: Sheet>(sheet: &S, row: u16) -> [u8; 512]
    ensures { (k : ℕ) → k < 512 → slice_index result k ≡ shown_as (inked_in (S.meaning sheet.now) row k) }
{
    array::from_fn(|column| shown(is_inked(sheet, row, column as u16)))
}

// How many pixels of a row are inked.
fn inked_in_row<S: Sheet>(sheet: &S, row: u16) -> usize
    ensures value { result ≡ inked_in_row (S.meaning sheet.now) row }
    ensures small { result ≤ 2048 }
{
    // a loop; tried: `filter` and `count`, with which the count took a third longer
    let mut count = 0;
    for column in 0..sheet.side().pixels() {
        if is_inked(sheet, row, column) {
            count += 1;
        }
    }
    count
}

// How many pixels of the page are inked.
pub fn inked_pixels<S: Sheet>(sheet: &S) -> u32
    ensures { result ≡ inked_pixels (S.meaning sheet.now) }
{
    (0..sheet.side().pixels())
        .map(|row| inked_in_row(sheet, row) as u32)
        .sum()
}
