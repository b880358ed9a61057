// What is printed of a page and a report.
ghost use Rattle.std.specs.Prelude.{◌≡◌, ◌≤◌, length};
ghost use Rattle.sheet.specs.Meanings.{Meaning};
ghost use Rattle.printing.specs.Prints.{printed, fitted, overlaid};

use crate::line::report_line;
use crate::page::{page_room, put_page};
use crate::refusals::TooShort;
use geometry::Side;
use run::types::Report;
use sheet::Sheet;

// How many bytes are printed of a page of that side, whatever is drawn on it, and a report.
pub fn room(side: Side, report: &Report) -> usize
    ensures { (m : Meaning) → m.side ≡ side.pixels → result ≡ length (printed m report.now) }
{
    page_room(side) + report_line(report).len()
}

// Prints a page and its report at the front of a buffer, and tells how many bytes that took; with too little room it changes none.
pub fn print<S: Sheet>(sheet: &S, report: &Report, out: &mut [u8]) -> Result<usize, TooShort>
    ensures answer { result ≡ fitted (length (printed (S.meaning sheet.now) report.now)) (length out.old) }
    ensures bytes { out.new ≡ overlaid (printed (S.meaning sheet.now) report.now) out.old }
{
    let line = report_line(report);
    let page = page_room(sheet.side());
    let needed = page + line.len();
    if out.len() < needed {
        return Err(TooShort);
    }
    put_page(sheet, &mut out[..page]);
    out[page..needed].copy_from_slice(line.as_bytes());
    Ok(needed)
}
