// Calls answered by a reader, one after the other. A reader and its sheet stay two parameters: the caller owns each, and every clause tells of both.
ghost use Rattle.std.specs.Prelude.{◌≡◌, ◌<◌, fold};
ghost use Rattle.std.specs.List.{AllByRecursion};
ghost use Rattle.run.specs.Runs.{run, report_of};
ghost use Rattle.run.specs.Cuttings.{answering};
ghost use Rattle.reader.specs.Views.{config_of};
ghost use Rattle.play.specs.Plays.{Ends, New, call_of, calls_of, stream_of, comes_to, HasBytes};

use crate::list::Call;
use reader::reader::Reader;
use run::types::Report;
use sheet::Sheet;

// Feeds a piece; what that answers is let go, as the reader and its report keep it.
pub(crate) fn feed_piece<S: Sheet>(reader: &mut Reader, sheet: &mut S, piece: &[u8])
    ensures after { config_of reader.new (S.meaning sheet.new) ≡ run (config_of reader.old (S.meaning sheet.old)) piece.now }
    ensures bytes { AllByRecursion (λ b. b < 256) piece.now }
    ensures tied { S.tied sheet.new ≡ S.tied sheet.old }
{
    let _ = reader.feed(sheet, piece);
}

// Answers one call.
fn answer<S: Sheet>(reader: &mut Reader, sheet: &mut S, call: Call<'_>)
    ensures after { config_of reader.new (S.meaning sheet.new) ≡ answering (config_of reader.old (S.meaning sheet.old)) (call_of call.entry) }
    ensures bytes { HasBytes (call_of call.entry) }
    ensures tied { S.tied sheet.new ≡ S.tied sheet.old }
{
    match call {
        Call::Feed(piece) => feed_piece(reader, sheet, piece),
        Call::Finish => {
            let _ = reader.finish();
        }
        Call::Report => {
            let _ = reader.report();
        }
    }
}

// Answers one call after the other; what the calls answer is let go.
fn answer_all<S: Sheet>(reader: &mut Reader, sheet: &mut S, calls: &[Call<'_>])
    ensures after { config_of reader.new (S.meaning sheet.new) ≡ fold answering (config_of reader.old (S.meaning sheet.old)) (calls_of calls.now) }
    ensures bytes { AllByRecursion (λ b. b < 256) (stream_of calls.now) }
    ensures tied { S.tied sheet.new ≡ S.tied sheet.old }
{
    for call in calls {
        answer(reader, sheet, *call);
    }
}

// Plays calls on a reader, one after the other, and reports how far it came.
pub fn play_with<S: Sheet>(reader: &mut Reader, sheet: &mut S, calls: &[Call<'_>]) -> Report
    ensures after { config_of reader.new (S.meaning sheet.new) ≡ fold answering (config_of reader.old (S.meaning sheet.old)) (calls_of calls.now) }
    ensures report { result ≡ report_of (config_of reader.new (S.meaning sheet.new)) }
    ensures played { New reader.old → Ends (comes_to (S.meaning sheet.old) calls.now) (S.meaning sheet.new) result }
    ensures bytes { AllByRecursion (λ b. b < 256) (stream_of calls.now) }
    ensures tied { S.tied sheet.new ≡ S.tied sheet.old }
{
    answer_all(reader, sheet, calls);
    reader.report()
}
