// The line that tells of a run.
ghost use Rattle.std.specs.Prelude.{◌≡◌, ℕ, ◌+◌, ◌≤◌, List, ◌++◌, length};
ghost use Rattle.arrayvec.specs.ArrayString.{array_string_len};
ghost use Rattle.printing.specs.Reports.{line_of, report_line};

use arrayvec::ArrayString;
use itoa::{Buffer, Integer};
use run::types::{Report, Spot};

// No line has more bytes.
pub(crate) const LONGEST: usize = 500;

// Appends a word and the number that it tells of; `write!` would do so, but may fail where a report may not.
fn tell<I: Integer>(line: &mut ArrayString<LONGEST>, word: &str, number: I)
    requires { array_string_len line.old + (length word.now + 40) ≤ 500 }
    ensures text { (rest : List ℕ) → line.new.bytes ++ rest ≡ line.old.bytes ++ (word.now ++ (I.text number ++ rest)) }
    ensures room { array_string_len line.new ≤ array_string_len line.old + (length word.now + 40) }
{
    line.push_str(word);
    line.push_str(Buffer::new().format(number));
}

// The line of a report, with this fault.
fn line_of(report: &Report, number: u8, place: usize, spot: Spot) -> ArrayString<LONGEST>
    ensures { result.bytes ≡ line_of report.now number place spot }
{
    let mut line = ArrayString::new();
    tell(&mut line, "read ", report.read);
    tell(&mut line, " pictures ", report.pictures);
    tell(&mut line, " statements ", report.statements);
    tell(&mut line, " beam ", report.beam.x);
    tell(&mut line, " ", report.beam.y);
    tell(&mut line, " fault ", number);
    tell(&mut line, " at ", place);
    tell(&mut line, " in ", spot.calls);
    tell(&mut line, " ", spot.offset);
    line.push_str("\n");
    line
}

// The line of a report.
pub(crate) fn report_line(report: &Report) -> ArrayString<LONGEST>
    ensures { result.bytes ≡ report_line report.now }
{
    match report.life.refusal() {
        None => line_of(report, 0, 0, Spot::OUTSIDE),
        Some(refusal) => line_of(report, refusal.fault.number(), refusal.place, refusal.spot),
    }
}
