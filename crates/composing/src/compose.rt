// Whole descriptions.
ghost use Rattle.std.specs.Prelude.{◌≡◌, ◌≤◌, [], length, IfOk, None, Ok};
ghost use Rattle.std.specs.Result.{result_err};
ghost use Rattle.spelling.specs.Answers.{over_front};
ghost use Rattle.spelling.specs.Laws.{spell_all};
ghost use Rattle.writer.specs.Answers.{make_answer};
ghost use Rattle.writer.specs.Names.{known};
ghost use Rattle.history.specs.Tales.{idle};
ghost use Rattle.composing.specs.Lines.{lines_of};
ghost use Rattle.composing.specs.Composed.{composing, composed, answering, answer_of, written_by, on_ledger, end_ledger};
ghost use Rattle.composing.specs.Laws.{Makes};

use crate::filling::fill;
use crate::opening::{open, read_opening};
use crate::outcome::Outcome;
use crate::script::Script;
use crate::types::Failure;
use std::alloc::{AllocError, Global};
use writer::opening::{ask, make};
use writer::state::Writer;

// Composes all lines, or those up to the first that fails; nothing is left open.
fn compose_all<'a>(mut writer: Writer<'a>, script: &mut Script<'_>) -> Outcome<'a>
    ensures ledger { end_ledger (result_err result.result) result.writer.buffer.now result.writer.used ≡ on_ledger None writer.entry.buffer.now (idle (known writer.entry.names) writer.entry.used) script.old.line (lines_of script.old.rest.now) }
    ensures tied { result.writer.buffer.ghost_name ≡ writer.entry.buffer.ghost_name }
{
    while let Some(words) = script.next_words() {
        match read_opening(&writer, words, script.line, script.scratch) {
            Ok(statement) => {
                let filled = fill(open(writer, statement), script);
                if filled.result.is_err() {
                    return filled;
                }
                writer = filled.writer;
            }
            Err(failure) => {
                return Outcome {
                    writer,
                    result: Err(failure),
                };
            }
        }
    }
    Outcome {
        writer,
        result: Ok(()),
    }
}

// Composes a description into a buffer that was asked for: one call from the memory to the writer at the end.
// The result stands beside the writer, since what the buffer holds is not known again through an outcome.
fn compose_new<'a>(
    out: &'a mut [u8],
    text: &[u8],
    scratch: &mut [u8],
    end: &mut Result<(), Failure>,
) -> Writer<'a>
    requires asked { make_answer (length out.old) ≡ Ok tt }
    requires room { length text.now ≤ length scratch.old }
    ensures failed { result_err end.new ≡ (composing (length out.old) (idle [] 0) 0 (lines_of text.now)).failed }
    ensures count { result.used ≡ length (spell_all (composing (length out.old) (idle [] 0) 0 (lines_of text.now)).written) }
    ensures bytes { result.buffer.now ≡ over_front (spell_all (composing (length out.old) (idle [] 0) 0 (lines_of text.now)).written) out.old }
    ensures makes { Makes (answering (result_err end.new) result.used) text.now out.old result.buffer.now }
    ensures tied { result.buffer.ghost_name ≡ out.entry.ghost_name }
{
    let mut script = Script::new(text, scratch);
    let outcome = compose_all(make(out), &mut script);
    *end = outcome.result;
    outcome.writer
}

// Composes a description into a buffer that was asked for, with memory for the texts of lines.
fn compose_in(text: &[u8], scratch: &mut [u8], out: &mut [u8]) -> Result<usize, Failure>
    requires asked { make_answer (length out.old) ≡ Ok tt }
    requires room { length text.now ≤ length scratch.old }
    ensures answer { result ≡ answer_of (composing (length out.old) (idle [] 0) 0 (lines_of text.now)) }
    ensures bytes { out.new ≡ over_front (spell_all (composing (length out.old) (idle [] 0) 0 (lines_of text.now)).written) out.old }
    ensures makes { Makes result text.now out.old out.new }
{
    let mut end = Ok(());
    let writer = compose_new(out, text, scratch, &mut end);
    let used = writer.used();
    end?;
    Ok(used)
}

// Composes a description into a buffer that was asked for.
fn compose_asked(
    heap: Global,
    text: &[u8],
    out: &mut [u8],
) -> Result<Result<usize, Failure>, AllocError>
    requires { make_answer (length out.old) ≡ Ok tt }
    ensures answer { IfOk result (λ a. a ≡ answer_of (composed (length out.old) text.now)) }
    ensures bytes { out.new ≡ over_front (written_by result (composed (length out.old) text.now)) out.old }
    ensures makes { IfOk result (λ a. Makes a text.now out.old out.new) }
{
    let mut scratch = vec![in heap; 0u8; text.len()]?;
    Ok(compose_in(text, scratch.as_mut_slice(), out))
}

// Composes a description into a buffer, and gives how many bytes are written, or why it fails; without memory nothing is altered.
pub fn compose(
    heap: Global,
    text: &[u8],
    out: &mut [u8],
) -> Result<Result<usize, Failure>, AllocError>
    ensures answer { IfOk result (λ a. a ≡ answer_of (composed (length out.old) text.now)) }
    ensures bytes { out.new ≡ over_front (written_by result (composed (length out.old) text.now)) out.old }
    ensures makes { IfOk result (λ a. Makes a text.now out.old out.new) }
{
    match ask(out) {
        Ok(()) => compose_asked(heap, text, out),
        Err(refusal) => Ok(Err(Failure::Refused { refusal, line: 0 })),
    }
}
