// A job drawn and printed.
ghost use Rattle.std.specs.Prelude.{◌≡◌, length, Ok};
ghost use Rattle.raster.specs.Asking.{asked};
ghost use Rattle.run.specs.Runs.{run, finish, report_of};
ghost use Rattle.reader.specs.Views.{config_of};
ghost use Rattle.play.specs.Plays.{New};
ghost use Rattle.job.specs.Jobs.{admission, job_text, job_answer, shown, drawing_by, job_text_by, fit_answer, answer_by, leaves, Came, LeavesReader};

use crate::admit::admit;
use crate::job::Job;
use crate::refusal::Refusal;
use play::{Call, play_cut, play_with};
use printing::print;
use raster::page_bytes;
use reader::reader::Reader;
use run::types::Report;
use sheet::Sheet;

// Plays a stream and a finish: whole, by the call that plays every list of calls, or in pieces of these lengths and then the rest.
fn play_stream<S: Sheet>(
    reader: &mut Reader,
    sheet: &mut S,
    stream: &[u8],
    lengths: &[u8],
) -> Report
    ensures after { config_of reader.new (S.meaning sheet.new) ≡ finish (run (config_of reader.old (S.meaning sheet.old)) stream.now) }
    ensures report { result ≡ report_of (config_of reader.new (S.meaning sheet.new)) }
    ensures tied { S.tied sheet.new ≡ S.tied sheet.old }
{
    if lengths.is_empty() {
        return play_with(reader, sheet, &[Call::Feed(stream), Call::Finish]);
    }
    play_cut(reader, sheet, stream, lengths)
}

// Draws a job with a reader on a clear bit sheet in this memory, and prints it into a buffer.
fn draw_on(
    reader: &mut Reader,
    job: Job<'_>,
    memory: &mut [u8],
    lengths: &[u8],
    out: &mut [u8],
) -> Result<usize, Refusal>
    requires { asked job.side (length memory.old) ≡ Ok tt }
    ensures answer { result ≡ fit_answer (length (shown (drawing_by reader.old job.entry.side job.entry.stream.now))) (length out.old) }
    ensures bytes { out.new ≡ leaves result (shown (drawing_by reader.old job.entry.side job.entry.stream.now)) out.old }
    ensures after { Came reader.new (drawing_by reader.old job.entry.side job.entry.stream.now) }
{
    let mut sheet = raster::make(job.side, memory);
    let report = play_stream(reader, &mut sheet, job.stream, lengths);
    Ok(print(&sheet, &report, out)?)
}

// Draws a job with a reader on a clear bit sheet, and prints it into a buffer.
fn draw(reader: &mut Reader, job: Job<'_>, lengths: &[u8], out: &mut [u8]) -> Result<usize, Refusal>
    ensures answer { result ≡ fit_answer (length (shown (drawing_by reader.old job.entry.side job.entry.stream.now))) (length out.old) }
    ensures bytes { out.new ≡ leaves result (shown (drawing_by reader.old job.entry.side job.entry.stream.now)) out.old }
    ensures after { Came reader.new (drawing_by reader.old job.entry.side job.entry.stream.now) }
{
    // no heap is given: what the largest sheet takes
    let mut memory = [0; 32_768];
    let len = page_bytes(job.side);
    draw_on(reader, job, &mut memory[..len], lengths, out)
}

// Draws a job whose stream comes in pieces of these lengths and then the rest, and prints its page and report into a buffer, or refuses it and alters no byte; the cutting changes nothing.
pub fn draw_job_cut(
    reader: &mut Reader,
    job: &[u8],
    lengths: &[u8],
    out: &mut [u8],
) -> Result<usize, Refusal>
    ensures answer { New reader.old → result ≡ job_answer job.now (length out.old) }
    ensures bytes { New reader.old → out.new ≡ leaves result (job_text job.now) out.old }
    ensures any_answer { result ≡ answer_by (admission job.now) (length (job_text_by reader.old job.now)) (length out.old) }
    ensures any_bytes { out.new ≡ leaves result (job_text_by reader.old job.now) out.old }
    ensures after { LeavesReader (admission job.now) job.now reader.old reader.new }
{
    let fit = admit(job)?;
    draw(reader, fit, lengths, out)
}

// Draws a job with a reader, and prints its page and report into a buffer; or refuses it, and alters no byte.
pub fn draw_job(reader: &mut Reader, job: &[u8], out: &mut [u8]) -> Result<usize, Refusal>
    ensures answer { New reader.old → result ≡ job_answer job.now (length out.old) }
    ensures bytes { New reader.old → out.new ≡ leaves result (job_text job.now) out.old }
    ensures any_answer { result ≡ answer_by (admission job.now) (length (job_text_by reader.old job.now)) (length out.old) }
    ensures any_bytes { out.new ≡ leaves result (job_text_by reader.old job.now) out.old }
    ensures after { LeavesReader (admission job.now) job.now reader.old reader.new }
{
    draw_job_cut(reader, job, &[], out)
}
