// A stream fed in pieces.
ghost use Rattle.std.specs.Prelude.{◌≡◌, ◌<◌};
ghost use Rattle.run.specs.Runs.{Config, run, finish, report_of};
ghost use Rattle.reader.specs.Views.{config_of};

use crate::answer::feed_piece;
use reader::reader::Reader;
use run::types::Report;
use sheet::Sheet;

// Feeds a stream in pieces of these lengths, and then the rest.
fn feed_given<S: Sheet>(reader: &mut Reader, sheet: &mut S, stream: &[u8], lengths: &[u8])
    ensures after { config_of reader.new (S.meaning sheet.new) ≡ run (config_of reader.old (S.meaning sheet.old)) stream.now }
    ensures tied { S.tied sheet.new ≡ S.tied sheet.old }
{
    let mut rest = stream;
    for length in lengths {
        let (piece, others) = rest.split_at(rest.len().min(usize::from(*length)));
        feed_piece(reader, sheet, piece);
        rest = others;
    }
    feed_piece(reader, sheet, rest);
}

// Feeds a stream in pieces of one length.
fn feed_even<S: Sheet>(reader: &mut Reader, sheet: &mut S, stream: &[u8], length: usize)
    requires { 0 < length }
    ensures after { config_of reader.new (S.meaning sheet.new) ≡ run (config_of reader.old (S.meaning sheet.old)) stream.now }
    ensures tied { S.tied sheet.new ≡ S.tied sheet.old }
{
    for piece in stream.chunks(length) {
        feed_piece(reader, sheet, piece);
    }
}

// Finishes a reader, and reports.
fn finish_run<S: Sheet>(reader: &mut Reader, sheet: &S) -> Report
    ensures after { (c : Config) → config_of reader.old (S.meaning sheet.now) ≡ c → config_of reader.new (S.meaning sheet.now) ≡ finish c }
    ensures report { result ≡ report_of (config_of reader.new (S.meaning sheet.now)) }
{
    let _ = reader.finish();
    reader.report()
}

// Feeds a stream in pieces of these lengths and then the rest, finishes, and reports; the cutting changes nothing.
pub fn play_cut<S: Sheet>(
    reader: &mut Reader,
    sheet: &mut S,
    stream: &[u8],
    lengths: &[u8],
) -> Report
    ensures after { config_of reader.new (S.meaning sheet.new) ≡ finish (run (config_of reader.old (S.meaning sheet.old)) stream.now) }
    ensures report { result ≡ report_of (config_of reader.new (S.meaning sheet.new)) }
    ensures tied { S.tied sheet.new ≡ S.tied sheet.old }
{
    feed_given(reader, sheet, stream, lengths);
    finish_run(reader, sheet)
}

// Feeds a stream in pieces of one length, or whole where that is 0, finishes, and reports; the cutting changes nothing.
pub fn play_even<S: Sheet>(
    reader: &mut Reader,
    sheet: &mut S,
    stream: &[u8],
    length: usize,
) -> Report
    ensures after { config_of reader.new (S.meaning sheet.new) ≡ finish (run (config_of reader.old (S.meaning sheet.old)) stream.now) }
    ensures report { result ≡ report_of (config_of reader.new (S.meaning sheet.new)) }
    ensures tied { S.tied sheet.new ≡ S.tied sheet.old }
{
    let length = if length > 0 {
        length
    } else {
        stream.len().max(1)
    };
    feed_even(reader, sheet, stream, length);
    finish_run(reader, sheet)
}
